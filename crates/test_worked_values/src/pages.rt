//! Calls on pages.

use crate::answers::{maybe, page as page_text, two_pages, yes};
use crate::saying::said;
use crate::words::page_words;
use bl_page::{Page, from_words, is_within, listed_with, words_from};
use bl_rearrange::{Evened, Fitted, Side, evened, merged, with_pair, without};
use std::alloc::{AllocError, Global};

/// The page that a pair is moved to where a page is split.
const NEW: u32 = 2;

/// The page, its copy, and the words one by one are spelled as they were read.
fn is_as_read(page: &Page, words: &[u64; 32]) -> bool {
    page.to_words() == *words
        && page.copied().to_words() == *words
        && words_from(words, &mut ()) == *words
}

/// Whether the words are a page's.
pub fn read(alloc: Global, front: &[u64]) -> Result<Vec<u8>, AllocError> {
    let words = page_words(front);
    match from_words(&words) {
        Ok(page) if is_as_read(&page, &words) => said(alloc, "is one"),
        Ok(_) => said(alloc, "is spelled otherwise"),
        Err(fault) => said(alloc, format!(in alloc; "{fault:?}")?.as_str()),
    }
}

/// Whether the page covers the key.
pub fn covers(alloc: Global, key: u64, front: &[u64]) -> Result<Vec<u8>, AllocError> {
    match from_words(&page_words(front)) {
        Ok(page) => yes(alloc, page.covers(key)),
        Err(_) => said(alloc, "no page"),
    }
}

/// The value of the key in a leaf.
pub fn row(alloc: Global, key: u64, front: &[u64]) -> Result<Vec<u8>, AllocError> {
    match from_words(&page_words(front)) {
        Ok(Page::Leaf(leaf)) => maybe(alloc, leaf.row_of(key)),
        _ => said(alloc, "no leaf"),
    }
}

/// The child for the key in an inner page.
pub fn child(alloc: Global, key: u64, front: &[u64]) -> Result<Vec<u8>, AllocError> {
    match from_words(&page_words(front)) {
        Ok(Page::Inner(inner)) if is_within(inner.low, inner.high, key) => {
            maybe(alloc, Some(u64::from(inner.child_of(key))))
        }
        _ => said(alloc, "no inner page that covers it"),
    }
}

/// The page of these words with a pair more, if it covers the key, does not hold it and may hold the word.
fn fitted(front: &[u64], key: u64, word: u64) -> Option<Fitted> {
    match from_words(&page_words(front)) {
        Ok(page) if page.covers(key) => match page {
            Page::Leaf(leaf) => {
                if leaf.row_of(key).is_some() {
                    return None;
                }
                Some(with_pair(Page::Leaf(leaf), key, word, NEW))
            }
            Page::Inner(inner) => {
                if listed_with(inner.children.as_slice(), key).is_some()
                    || word == 0
                    || word > 65535
                {
                    return None;
                }
                Some(with_pair(Page::Inner(inner), key, word, NEW))
            }
            _ => None,
        },
        _ => None,
    }
}

/// The page with a pair more, or its two parts and what parts them.
pub fn with(alloc: Global, key: u64, value: u64, front: &[u64]) -> Result<Vec<u8>, AllocError> {
    match fitted(front, key, value) {
        Some(Fitted::Fits(page)) => page_text(alloc, &page),
        Some(Fitted::Split(left, right, separator)) => {
            let front = format!(in alloc; "parted at {separator}: ")?;
            two_pages(alloc, front.as_str(), &left, &right)
        }
        None => said(alloc, "may not hold it"),
    }
}

/// The leaf without the key's row.
pub fn drop_row(alloc: Global, key: u64, front: &[u64]) -> Result<Vec<u8>, AllocError> {
    match from_words(&page_words(front)) {
        Ok(page) if page.covers(key) => match page {
            Page::Leaf(leaf) => page_text(alloc, &without(Page::Leaf(leaf), key)),
            _ => said(alloc, "no leaf"),
        },
        _ => said(alloc, "not covered"),
    }
}

/// The page in place of both pages of these words, if they are neighbours.
fn merged_of(left: &[u64], right: &[u64]) -> Option<Option<Page>> {
    match (
        from_words(&page_words(left)),
        from_words(&page_words(right)),
    ) {
        (Ok(Page::Leaf(left)), Ok(Page::Leaf(right))) => {
            if left.high == 0 || right.low != left.high {
                return None;
            }
            Some(merged(Page::Leaf(left), Page::Leaf(right)))
        }
        (Ok(Page::Inner(left)), Ok(Page::Inner(right))) => {
            if right.level != left.level || left.high == 0 || right.low != left.high {
                return None;
            }
            Some(merged(Page::Inner(left), Page::Inner(right)))
        }
        _ => None,
    }
}

/// One page for two neighbours.
pub fn merge(alloc: Global, left: &[u64], right: &[u64]) -> Result<Vec<u8>, AllocError> {
    match merged_of(left, right) {
        Some(Some(page)) => page_text(alloc, &page),
        Some(None) => said(alloc, "too many"),
        None => said(alloc, "no neighbours"),
    }
}

/// The pages of these words evened out, if they are neighbours and have more than 14 pairs.
fn evened_of(left: &[u64], right: &[u64]) -> Option<Evened> {
    match (
        from_words(&page_words(left)),
        from_words(&page_words(right)),
    ) {
        (Ok(Page::Leaf(left)), Ok(Page::Leaf(right))) => {
            if left.high == 0
                || right.low != left.high
                || left.rows.len() + right.rows.len() <= 14
            {
                return None;
            }
            Some(evened(Page::Leaf(left), Page::Leaf(right)))
        }
        (Ok(Page::Inner(left)), Ok(Page::Inner(right))) => {
            if right.level != left.level
                || left.high == 0
                || right.low != left.high
                || left.children.len() + right.children.len() <= 14
            {
                return None;
            }
            Some(evened(Page::Inner(left), Page::Inner(right)))
        }
        _ => None,
    }
}

/// Two neighbours with as many pairs.
pub fn even(alloc: Global, left: &[u64], right: &[u64]) -> Result<Vec<u8>, AllocError> {
    let Some(now) = evened_of(left, right) else {
        return said(alloc, "no neighbours with enough pairs");
    };
    let side = match now.gains {
        Side::Left => "left",
        Side::Right => "right",
    };
    let front = format!(in alloc; "{side} gains to {}: ", now.separator)?;
    two_pages(alloc, front.as_str(), &now.left, &now.right)
}
