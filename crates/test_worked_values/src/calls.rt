//! Calls on values, by their words.

use crate::checks::Draft;
use crate::maps::{applied, op_of};
use crate::pages::{child, covers, drop_row, even, merge, read, row, with};
use crate::saying::said;
use crate::ways::way;
use crate::words::numbers_in;
use bl_model::PlainMap;
use std::alloc::{AllocError, Global};

/// The image in the making, and the map.
#[derive(Drop)]
pub struct Bench {
    draft: Draft,
    map: PlainMap,
}

/// A call on two pages.
fn on_two(alloc: Global, call: &str, left: &str, right: &str) -> Result<Vec<u8>, AllocError> {
    let left = numbers_in(alloc, left)?;
    let right = numbers_in(alloc, right)?;
    match call {
        "merge" => merge(alloc, left.as_slice(), right.as_slice()),
        "even" => even(alloc, left.as_slice(), right.as_slice()),
        _ => said(alloc, "no such call"),
    }
}

/// A call on one page.
fn on_one(alloc: Global, call: &str, numbers: &[u64]) -> Result<Vec<u8>, AllocError> {
    match (call, numbers) {
        ("page", words) => read(alloc, words),
        ("without", [key, words @ ..]) => drop_row(alloc, *key, words),
        ("with", [key, value, words @ ..]) => with(alloc, *key, *value, words),
        _ => on_key(alloc, call, numbers),
    }
}

/// A call on what one page has of a key.
fn on_key(alloc: Global, call: &str, numbers: &[u64]) -> Result<Vec<u8>, AllocError> {
    match (call, numbers) {
        ("covers", [key, words @ ..]) => covers(alloc, *key, words),
        ("row", [key, words @ ..]) => row(alloc, *key, words),
        ("child", [key, words @ ..]) => child(alloc, *key, words),
        _ => way(alloc, call, numbers),
    }
}

impl Bench {
    /// There is no image yet, and the map has no rows.
    pub fn new(alloc: Global) -> Bench {
        Bench {
            draft: Draft::empty(alloc),
            map: PlainMap::new(alloc),
        }
    }

    /// Makes a call on the map or on one page.
    fn applied(
        &mut self,
        alloc: Global,
        call: &str,
        numbers: &[u64],
    ) -> Result<Vec<u8>, AllocError> {
        if call == "map" {
            self.map = PlainMap::new(alloc);
            return said(alloc, "begun");
        }
        match op_of(call, numbers) {
            Some(op) => applied(alloc, &mut self.map, &op),
            None => on_one(alloc, call, numbers),
        }
    }

    /// Begins an image.
    fn begin(&mut self, alloc: Global, pages: u64) -> Result<Vec<u8>, AllocError> {
        self.draft = Draft::new(alloc, pages)?;
        said(alloc, "begun")
    }

    /// Makes a call that shows the image as it is, or another one.
    fn shown(&mut self, alloc: Global, call: &str, numbers: &[u64]) -> Result<Vec<u8>, AllocError> {
        match (call, numbers) {
            ("bytes", [from]) => self.draft.show(alloc, *from),
            ("spelled", [page]) => self.draft.spelled(alloc, *page),
            ("cut", []) => self.draft.cut(alloc),
            ("alter", []) => self.draft.alter(alloc),
            _ => self.applied(alloc, call, numbers),
        }
    }

    /// Makes a call of these numbers.
    fn made(&mut self, alloc: Global, call: &str, numbers: &[u64]) -> Result<Vec<u8>, AllocError> {
        match (call, numbers) {
            ("image", [pages]) => self.begin(alloc, *pages),
            ("put", [page, words @ ..]) => self.draft.put(alloc, *page, words),
            ("check", changes) => self.draft.check(alloc, 1, changes),
            ("version", [version, changes @ ..]) => self.draft.check(alloc, *version, changes),
            ("read", changes) => self.draft.read(alloc, changes),
            _ => self.shown(alloc, call, numbers),
        }
    }

    /// Makes the call, and says what it gives.
    pub fn answer(&mut self, alloc: Global, line: &str) -> Result<Vec<u8>, AllocError> {
        let (call, rest) = line.split_once(' ').unwrap_or((line, ""));
        if let Some((left, right)) = rest.split_once(" | ") {
            return on_two(alloc, call, left, right);
        }
        let numbers = numbers_in(alloc, rest)?;
        self.made(alloc, call, numbers.as_slice())
    }
}
