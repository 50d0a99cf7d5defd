//! What processes read of a page in its words.

use crate::answers::{maybe, numbered};
use crate::saying::{count, said};
use crate::words::page_words;
use bl_page::{Page, from_words};
use bl_proc_routes::{Step, count_of, level_in, levels_in, row_in, step_in, top_in};
use bl_proc_steps::Approach;
use std::alloc::{AllocError, Global};

fn page_of(front: &[u64]) -> Option<Page> {
    from_words(&page_words(front)).ok()
}

/// A number, at most the greatest of a page.
fn small(number: u64) -> u32 {
    number.min(65_535) as u32
}

/// What a call finds in a page.
fn found(call: &str, front: &[u64]) -> Option<u64> {
    let page = page_of(front)?;
    let words = page.to_words();
    match call {
        "levels" => Some(u64::from(levels_in(&words, &mut ()))),
        "top" => Some(u64::from(top_in(&words, &mut ()))),
        "level" => Some(u64::from(level_in(&words, &mut ()))),
        "pairs" => Some(count_of(&page) as u64),
        _ => None,
    }
}

/// Where a page leads on the way to the key on a level, and how many words are read for it.
fn step(level: u64, key: u64, front: &[u64]) -> Option<(Step, u64)> {
    let page = page_of(front)?;
    let mut used = 0;
    let step = step_in(&page.to_words(), &mut (), &mut used, key, small(level));
    Some((step, u64::from(used)))
}

fn step_text(alloc: Global, step: Option<(Step, u64)>) -> Result<Vec<u8>, AllocError> {
    match step {
        Some((Step::Down(page), _)) => numbered(alloc, b"down ", page),
        Some((Step::Right(page), _)) => numbered(alloc, b"right ", page),
        Some((Step::Here, _)) => said(alloc, "here"),
        Some((Step::Again, _)) => said(alloc, "again"),
        None => said(alloc, "no page"),
    }
}

/// How many words were read for a step.
fn step_reads(alloc: Global, step: Option<(Step, u64)>) -> Result<Vec<u8>, AllocError> {
    maybe(alloc, step.map(|step| step.1))
}

/// What a leaf lists with the key, and how many words are read for it.
fn listed(key: u64, front: &[u64]) -> Option<(Option<u64>, u64)> {
    match page_of(front) {
        Some(Page::Leaf(leaf)) => {
            let mut used = 0;
            let row = row_in(&Page::Leaf(leaf).to_words(), &mut (), &mut used, key);
            Some((row, u64::from(used)))
        }
        _ => None,
    }
}

/// Where a writer to the key on a level goes from there by the words of a page.
fn onward(
    alloc: Global,
    approach: Approach,
    level: u64,
    key: u64,
    front: &[u64],
) -> Result<Vec<u8>, AllocError> {
    let Some(page) = page_of(front) else {
        return said(alloc, "no page");
    };
    if !approach.is_to_look() {
        return said(alloc, "is not to look");
    }
    match approach.took_words(small(level), key, &page.to_words(), &mut ()) {
        Approach::Start => said(alloc, "start"),
        Approach::At(page) => numbered(alloc, b"at ", page),
        Approach::Latching(page) => numbered(alloc, b"latching ", page),
        _ => said(alloc, "holds a page"),
    }
}

/// A call on where the words of a page lead a writer.
fn approached(alloc: Global, call: &str, numbers: &[u64]) -> Result<Vec<u8>, AllocError> {
    match (call, numbers) {
        ("enter", [level, key, front @ ..]) => onward(alloc, Approach::Start, *level, *key, front),
        ("onward", [at, level, key, front @ ..]) => {
            onward(alloc, Approach::At(small(*at)), *level, *key, front)
        }
        ("latched", [at, level, key, front @ ..]) => {
            onward(alloc, Approach::Latched(small(*at)), *level, *key, front)
        }
        (call, front) => match found(call, front) {
            Some(number) => count(alloc, number),
            None => said(alloc, "no such call"),
        },
    }
}

/// A call on the words of a page.
pub fn way(alloc: Global, call: &str, numbers: &[u64]) -> Result<Vec<u8>, AllocError> {
    match (call, numbers) {
        ("step", [level, key, front @ ..]) => step_text(alloc, step(*level, *key, front)),
        ("step-reads", [level, key, front @ ..]) => step_reads(alloc, step(*level, *key, front)),
        ("listed", [key, front @ ..]) => maybe(alloc, listed(*key, front).and_then(|row| row.0)),
        ("listed-reads", [key, front @ ..]) => {
            maybe(alloc, listed(*key, front).map(|row| row.1))
        }
        _ => approached(alloc, call, numbers),
    }
}
