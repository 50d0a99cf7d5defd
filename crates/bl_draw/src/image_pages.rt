//! The pages of an image, as far as they can be read.

use bl_model::limits::{MOST_LARGE_PAGES, MOST_PAGES};
use bl_page::{KIND_UNIT, LEVEL_UNIT, Page, from_words_below};
use byteorder::{ByteOrder, LittleEndian};
use std::alloc::{AllocError, Global};

/// The bytes of an image's head.
const HEAD: usize = 32;
/// The version of large images.
const LARGE: u64 = 2;
/// The bytes of a page.
const PAGE: usize = 256;

/// What stands at the pages' places.
#[derive(Drop)]
pub(crate) struct Found {
    /// Each page by its number; None where it is not in use, or where no page can be read.
    pub(crate) pages: Vec<Option<Page>>,
    /// So many pages there are: of a large image those behind the last one in use are not stored.
    pub(crate) count: usize,
    /// The numbers of those whose words are no page's.
    pub(crate) unread: Vec<u32>,
}

/// The word whose first byte stands there; 0 where the bytes end before.
fn word_at(bytes: &[u8], at: usize) -> u64 {
    if at < bytes.len() && bytes.len() - at >= 8 {
        LittleEndian::read_u64(&bytes[at..])
    } else {
        0
    }
}

/// The 32 words that begin there.
fn words_at(bytes: &[u8], at: usize) -> [u64; 32] {
    let mut words = [0; 32];
    for i in 0..32 {
        words[i] = word_at(bytes, at.saturating_add(8 * i));
    }
    words
}

/// How many pages there are, where so many are stored: as the head of a large image says, if it says more.
fn count_in(bytes: &[u8], stored: usize) -> usize {
    let told = word_at(bytes, 8);
    if bytes.starts_with(b"BLNKIDX1") && told % KIND_UNIT == LARGE {
        stored.max(((told / KIND_UNIT) as usize).min(MOST_LARGE_PAGES as usize))
    } else {
        stored
    }
}

/// The pages behind a head, also where the head is damaged or a part of the last page is cut off, which is then left out.
pub(crate) fn found_in(alloc: Global, bytes: &[u8]) -> Result<Found, AllocError> {
    let stored = (bytes.len().saturating_sub(HEAD) / PAGE).min(MOST_LARGE_PAGES as usize);
    let count = count_in(bytes, stored);
    let most = if count > MOST_PAGES as usize {
        KIND_UNIT
    } else {
        LEVEL_UNIT
    };
    let mut pages = Vec::new(alloc);
    let mut unread = Vec::new(alloc);
    for x in 0..stored {
        let words = words_at(bytes, HEAD + PAGE * x);
        if words == [0; 32] {
            pages.push(None)?;
            continue;
        }
        match from_words_below(&words, most) {
            Ok(page) => pages.push(Some(page))?,
            Err(_) => {
                unread.push(x as u32)?;
                pages.push(None)?;
            }
        }
    }
    Ok(Found {
        pages,
        count,
        unread,
    })
}
