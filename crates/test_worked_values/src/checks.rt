//! Images in the making, and what the checker finds in them.

use crate::answers::verdict;
use crate::saying::{count, said};
use crate::words::{page_words, shown_words};
use bl_check::{Fault, check, load};
use bl_image::{ImageFault, read};
use bl_page::Page;
use bl_serve_lines::print::push_number;
use std::alloc::{AllocError, Global};

/// An image of which each page is given by its words.
#[derive(Drop)]
pub struct Draft {
    pages: Vec<[u64; 32]>,
}

impl Draft {
    /// No pages.
    pub fn empty(alloc: Global) -> Draft {
        Draft {
            pages: Vec::new(alloc),
        }
    }

    /// So many pages that are not in use.
    pub fn new(alloc: Global, pages: u64) -> Result<Draft, AllocError> {
        let mut all = Vec::new(alloc);
        for _page in 0..pages.min(65_536) {
            all.push([0; 32])?;
        }
        Ok(Draft { pages: all })
    }

    /// Writes a page.
    pub fn put(&mut self, alloc: Global, page: u64, front: &[u64]) -> Result<Vec<u8>, AllocError> {
        match self.pages.as_mut_slice().get_mut(page as usize) {
            Some(place) => {
                *place = page_words(front);
                said(alloc, "done")
            }
            None => said(alloc, "no such page"),
        }
    }

    /// The bytes of the image, with a number of its version.
    fn bytes(&self, alloc: Global, version: u64, changes: &[u64]) -> Result<Vec<u8>, AllocError> {
        let mut bytes = self.head(alloc, version)?;
        for (page, words) in self.pages.iter().enumerate() {
            push_words(&mut bytes, page as u64, words, changes)?;
        }
        Ok(bytes)
    }

    /// The head of the image.
    fn head(&self, alloc: Global, version: u64) -> Result<Vec<u8>, AllocError> {
        let count = self.pages.len() as u64;
        let word = version % 256 + count % (1 << 32) * (1 << 32);
        let mut bytes = Vec::from_slice(alloc, b"BLNKIDX1")?;
        bytes.extend_from_slice(word.to_le_bytes().as_slice())?;
        bytes.extend_from_slice([0; 16].as_slice())?;
        Ok(bytes)
    }

    /// Eight bytes of the image.
    pub fn show(&self, alloc: Global, from: u64) -> Result<Vec<u8>, AllocError> {
        let bytes = self.bytes(alloc, 1, &[])?;
        shown_words(alloc, &eight_from(bytes.as_slice(), from as usize))
    }

    /// What the checker finds in the image with these changes, each a page, a place and a word.
    pub fn check(
        &self,
        alloc: Global,
        version: u64,
        changes: &[u64],
    ) -> Result<Vec<u8>, AllocError> {
        let bytes = self.bytes(alloc, version, changes)?;
        let found = check(alloc, bytes.as_slice());
        if is_other(load(alloc, bytes.as_slice()).err(), found.err()) {
            return said(alloc, "loaded otherwise");
        }
        verdict(alloc, found)
    }

    /// What is read of the image with these changes: which pages are in use, or the fault.
    pub fn read(&self, alloc: Global, changes: &[u64]) -> Result<Vec<u8>, AllocError> {
        let bytes = self.bytes(alloc, 1, changes)?;
        match read(alloc, bytes.as_slice()) {
            Ok(image) => in_use(alloc, image.pages.as_slice()),
            Err(fault) => said(alloc, format!(in alloc; "{fault:?}")?.as_str()),
        }
    }

    /// The words of a page that was read.
    pub fn spelled(&self, alloc: Global, page: u64) -> Result<Vec<u8>, AllocError> {
        let bytes = self.bytes(alloc, 1, &[])?;
        match read(alloc, bytes.as_slice()) {
            Ok(image) => word_list(alloc, image.to_words(alloc)?.as_slice(), page),
            Err(ImageFault::Memory) => said(alloc, "out of memory"),
            Err(_) => said(alloc, "no image"),
        }
    }

    /// How many beginnings of the image, but for the whole, are refused for their head.
    pub fn cut(&self, alloc: Global) -> Result<Vec<u8>, AllocError> {
        let bytes = self.bytes(alloc, 1, &[])?;
        let mut refused = 0u64;
        for length in 0..bytes.len() {
            let front = bytes.as_slice().get(..length).unwrap_or(&[]);
            refused = refused.saturating_add(u64::from(breaks_the_head(alloc, front)));
        }
        counted(alloc, refused)
    }

    /// How many images are refused for their head that differ from this one in one of its first 32 bytes.
    pub fn alter(&self, alloc: Global) -> Result<Vec<u8>, AllocError> {
        let mut bytes = self.bytes(alloc, 1, &[])?;
        let mut refused = 0u64;
        for place in 0..32usize {
            for mask in 1..=255u8 {
                flip(bytes.as_mut_slice(), place, mask);
                refused = refused.saturating_add(u64::from(breaks_the_head(
                    alloc,
                    bytes.as_slice(),
                )));
                flip(bytes.as_mut_slice(), place, mask);
            }
        }
        counted(alloc, refused)
    }
}

/// One is another than the other, and neither is a want of memory.
fn is_other(one: Option<Fault>, other: Option<Fault>) -> bool {
    let memory = Some(Fault::Memory);
    one != memory && other != memory && one != other
}

/// Appends the words of a page, with these changes.
fn push_words(
    bytes: &mut Vec<u8>,
    page: u64,
    words: &[u64; 32],
    changes: &[u64],
) -> Result<(), AllocError> {
    for (place, word) in words.iter().enumerate() {
        let word = changed(*word, page, place as u64, changes);
        bytes.extend_from_slice(word.to_le_bytes().as_slice())?;
    }
    Ok(())
}

/// Eight bytes from there on, and zeros where there are fewer.
fn eight_from(bytes: &[u8], from: usize) -> [u64; 8] {
    let mut eight = [0; 8];
    for (word, byte) in eight.iter_mut().zip(bytes.iter().skip(from)) {
        *word = u64::from(*byte);
    }
    eight
}

/// How many pages there are, and which of them are in use.
fn in_use(alloc: Global, pages: &[Option<Page>]) -> Result<Vec<u8>, AllocError> {
    let mut text = count(alloc, pages.len() as u64)?;
    text.extend_from_slice(b" pages, in use")?;
    push_used(&mut text, pages)?;
    Ok(text)
}

fn push_used(text: &mut Vec<u8>, pages: &[Option<Page>]) -> Result<(), AllocError> {
    for (number, page) in pages.iter().enumerate() {
        if page.is_some() {
            push_number(text, b" ", number as u64)?;
        }
    }
    Ok(())
}

/// The words of the page with that number.
fn word_list(alloc: Global, pages: &[[u64; 32]], page: u64) -> Result<Vec<u8>, AllocError> {
    match pages.get(page as usize) {
        Some(words) => shown_words(alloc, words.as_slice()),
        None => said(alloc, "no such page"),
    }
}

fn counted(alloc: Global, refused: u64) -> Result<Vec<u8>, AllocError> {
    let mut text = count(alloc, refused)?;
    text.extend_from_slice(b" are refused")?;
    Ok(text)
}

/// The bytes are not read for their head, and the checker says so.
fn breaks_the_head(alloc: Global, bytes: &[u8]) -> bool {
    check(alloc, bytes) == Err(Fault::Rule { rule: 1, page: 0 })
        && read(alloc, bytes).err() == Some(ImageFault::Head)
}

/// Turns bits of the byte at that place.
fn flip(bytes: &mut [u8], place: usize, mask: u8) {
    if let Some(byte) = bytes.get_mut(place) {
        *byte ^= mask;
    }
}

/// The word at a place of a page, where some are others.
fn changed(word: u64, page: u64, place: u64, changes: &[u64]) -> u64 {
    let mut now = word;
    for change in changes.chunks_exact(3) {
        if let [at, there, value] = change {
            if *at == page && *there == place {
                now = *value;
            }
        }
    }
    now
}
