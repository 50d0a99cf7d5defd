//! Pages of a tree, and processes that run over them.

use crate::saying::{observed, said};
use crate::words::{page_words, shown_words};
use bl_page::{Page, from_words};
use bl_proc::{Action, Find, Process, Reader, Seen};
use bl_serve_lines::print::push_number;
use std::alloc::{AllocError, Global};

/// How many pages there are.
const PAGES: u32 = 8;

/// A tree in the making: its pages, and the least page that nobody uses.
#[derive(Drop)]
pub struct Tree {
    pages: Vec<Page>,
    unused: u32,
}

/// Appends an event.
fn note(text: &mut Vec<u8>, word: &[u8]) -> Result<(), AllocError> {
    if !text.is_empty() {
        text.push(b' ')?;
    }
    text.extend_from_slice(word)
}

/// Appends an event on a page.
fn note_page(text: &mut Vec<u8>, word: &[u8], page: u32) -> Result<(), AllocError> {
    note(text, word)?;
    push_number(text, b" ", u64::from(page))
}

/// Appends what a process does, where the least page that nobody uses is this one. What no lone process does is left out.
fn note_action(text: &mut Vec<u8>, action: &Action, unused: u32) -> Result<(), AllocError> {
    match action {
        Action::Begin => note(text, b"begin"),
        Action::End => note(text, b"end"),
        Action::Get(at) => note_page(text, b"get", *at),
        Action::Put(at, _) => note_page(text, b"put", *at),
        Action::Latch(at) => note_page(text, b"latch", *at),
        Action::Take if 0 < unused && unused < PAGES => note_page(text, b"take", unused),
        Action::Open(at) => note_page(text, b"open", *at),
        Action::Retire(at) => note_page(text, b"retire", *at),
        _ => Ok(()),
    }
}

/// Appends what the process has answered, if it has.
pub fn note_answer<P: Process>(
    alloc: Global,
    text: &mut Vec<u8>,
    process: &P,
) -> Result<(), AllocError> {
    if let Some(answer) = process.answer() {
        text.extend_from_slice(b": ")?;
        text.extend_from_slice(observed(alloc, &answer)?.as_slice())?;
    }
    Ok(())
}

impl Tree {
    /// The opening tree, whose pages that nobody uses are empty leaves; no pages where memory is refused.
    pub fn opening(alloc: Global) -> Result<Tree, AllocError> {
        let mut pages = Vec::new(alloc);
        if let Ok(anchor) = from_words(&page_words(&[(1 << 32) + 1, 0, 0, 0, 1])) {
            pages.push(anchor)?;
        }
        for _page in 1..PAGES {
            if let Ok(leaf) = from_words(&page_words(&[2 << 32])) {
                pages.push(leaf)?;
            }
        }
        Ok(Tree { pages, unused: 2 })
    }

    /// No pages.
    pub fn empty(alloc: Global) -> Tree {
        Tree {
            pages: Vec::new(alloc),
            unused: 2,
        }
    }

    /// The words of a page.
    pub fn show(&self, alloc: Global, number: u64) -> Result<Vec<u8>, AllocError> {
        match self.pages.as_slice().get(number as usize) {
            Some(page) => shown_words(alloc, page.to_words().as_slice()),
            None => said(alloc, "no such page"),
        }
    }

    /// Writes a page.
    pub fn put(
        &mut self,
        alloc: Global,
        number: u64,
        front: &[u64],
    ) -> Result<Vec<u8>, AllocError> {
        let place = self.pages.as_mut_slice().get_mut(number as usize);
        match (from_words(&page_words(front)), place) {
            (Ok(page), Some(place)) => {
                *place = page;
                said(alloc, "done")
            }
            _ => said(alloc, "no page"),
        }
    }

    /// One turn of a process, whose event is appended. False where it has answered, or does what no lone process does.
    fn turn<P: Process>(
        &mut self,
        process: &mut P,
        text: &mut Vec<u8>,
    ) -> Result<bool, AllocError> {
        if process.answer().is_some() {
            return Ok(false);
        }
        let action = process.next();
        note_action(text, &action, self.unused)?;
        let seen = match action {
            Action::Get(at) => match self.copy_of(at) {
                Some(page) => Seen::Words(page),
                None => return Ok(false),
            },
            Action::Put(at, page) => {
                if !self.write(at, page) {
                    return Ok(false);
                }
                Seen::Done
            }
            Action::Take if 0 < self.unused && self.unused < PAGES => {
                let new = self.unused;
                self.unused += 1;
                Seen::Took(new)
            }
            Action::Begin | Action::End | Action::Latch(_) | Action::Open(_) | Action::Retire(_) =>
                Seen::Done,
            _ => return Ok(false),
        };
        process.took(seen);
        Ok(true)
    }

    /// A copy of a page, if it is there.
    fn copy_of(&self, at: u32) -> Option<Page> {
        match self.pages.as_slice().get(at as usize) {
            Some(page) => Some(page.copied()),
            None => None,
        }
    }

    /// Writes a page, if it is there.
    fn write(&mut self, at: u32, page: Page) -> bool {
        match self.pages.as_mut_slice().get_mut(at as usize) {
            Some(place) => {
                *place = page;
                true
            }
            None => false,
        }
    }

    /// A process's events up to its answer, or that many of them, and its answer if it has one.
    pub fn run<P: Process>(
        &mut self,
        alloc: Global,
        process: &mut P,
        most: u64,
    ) -> Result<Vec<u8>, AllocError> {
        let mut text = Vec::new(alloc);
        for _turn in 0..most {
            if !self.turn(process, &mut text)? {
                break;
            }
        }
        note_answer(alloc, &mut text, process)?;
        Ok(text)
    }

    /// One turn of a search that is told of a page by its words.
    fn turn_by_words(&self, find: &mut Find, text: &mut Vec<u8>) -> Result<bool, AllocError> {
        if find.answer().is_some() {
            return Ok(false);
        }
        let action = find.next();
        note_action(text, &action, self.unused)?;
        match action {
            Action::Get(at) => {
                let Some(page) = self.pages.as_slice().get(at as usize) else {
                    return Ok(false);
                };
                find.took_words(&page.to_words(), &mut ());
            }
            Action::Begin | Action::End => find.took(Seen::Done),
            _ => return Ok(false),
        }
        Ok(true)
    }

    /// So many turns of such a search, and its answer if it has one.
    pub fn seek(&self, alloc: Global, find: &mut Find, most: u64) -> Result<Vec<u8>, AllocError> {
        let mut text = Vec::new(alloc);
        for _turn in 0..most {
            if !self.turn_by_words(find, &mut text)? {
                break;
            }
        }
        note_answer(alloc, &mut text, find)?;
        Ok(text)
    }
}

/// A process is refused what it needs for its next action: whether it needs anything.
pub fn refuse<P: Process>(process: &mut P) -> bool {
    if process.answer().is_none() && process.needs().is_some() {
        match process.next() {
            Action::Put(_, _) | Action::Take => {
                process.took(Seen::Refused);
                true
            }
            _ => false,
        }
    } else {
        false
    }
}

/// A latch is missed: whether the process is at one.
pub fn miss<P: Process>(process: &mut P) -> bool {
    if process.answer().is_none() {
        match process.next() {
            Action::Latch(_) => {
                process.took(Seen::Missed);
                true
            }
            _ => false,
        }
    } else {
        false
    }
}
