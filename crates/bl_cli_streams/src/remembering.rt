//! A reader of lines that can tell one of them again. This is tested.

use bl_serve_lines::number::number;
use memchr::{memchr_iter, memrchr};
use std::alloc::{AllocError, Global};
use std::io;
use std::io::Read;
use std::str::from_utf8;

/// Hands on the bytes of lines, and keeps the last ones: the piece that was read last, behind the line that the pieces before it have
/// left open. Whoever takes lines as they come, and stops at one, finds it there.
#[derive(Drop)]
pub struct Remembering<R> {
    inner: R,
    alloc: Global,
    kept: Vec<u8>,
    /// How many lines ended before these bytes.
    before: u64,
}

/// Where the line begins that has no line feed yet.
fn open_from(bytes: &[u8]) -> usize {
    match memrchr(b'\n', bytes) {
        Some(place) => place.saturating_add(1),
        None => 0,
    }
}

/// The open line of these bytes, and a piece behind it.
fn joined(alloc: Global, bytes: &[u8], piece: &[u8]) -> Result<Vec<u8>, AllocError> {
    let open = bytes.get(open_from(bytes)..).unwrap_or(&[]);
    let mut kept = Vec::from_slice(alloc, open)?;
    kept.extend_from_slice(piece)?;
    Ok(kept)
}

impl<R> Remembering<R> {
    /// Nothing was read yet.
    pub fn new(alloc: Global, inner: R) -> Remembering<R> {
        Remembering {
            inner,
            alloc,
            kept: Vec::new(alloc),
            before: 0,
        }
    }

    /// Keeps a piece. Where there is no memory for it, no line is found.
    fn keep(&mut self, piece: &[u8]) {
        let ended = memchr_iter(b'\n', self.kept.as_slice()).count() as u64;
        self.before = self.before.saturating_add(ended);
        let kept = joined(self.alloc, self.kept.as_slice(), piece);
        self.kept = kept.unwrap_or(Vec::new(self.alloc));
    }

    /// The line of that number, from 1, and whether a line feed stands behind it.
    fn line(&self, number: u64) -> Option<(&[u8], bool)> {
        let place = number.checked_sub(self.before)?.checked_sub(1)?;
        let mut rest = self.kept.as_slice();
        for _ in 0..place {
            let end = memchr_iter(b'\n', rest).next()?;
            rest = rest.get(end.saturating_add(1)..)?;
        }
        match memchr_iter(b'\n', rest).next() {
            Some(end) => Some((rest.get(..end)?, true)),
            None => Some((rest, false)),
        }
    }

    /// What is wrong with the line of that number, which is to be two numbers. None where it is not known.
    pub fn wrong_row(&self, number: u64) -> Result<Option<String>, AllocError> {
        match self.line(number) {
            Some((line, has_end)) => Ok(Some(wrong_in(self.alloc, number, line, has_end)?)),
            None => Ok(None),
        }
    }
}

/// A word is shown up to so many bytes.
const SHOWN: usize = 40;

/// What is wrong with a line that is to be two numbers.
fn wrong_in(alloc: Global, number: u64, line: &[u8], has_end: bool) -> Result<String, AllocError> {
    let mut words = 0u64;
    for word in line.split(|byte| *byte == b' ') {
        words = words.saturating_add(1);
        if words <= 2 && !is_number(word) {
            return wrong_word(alloc, number, words, word);
        }
    }
    if words == 1 {
        return format!(in alloc;
            "blink: line {number}: one word, where a key and its value are two"
        );
    }
    if words != 2 {
        return format!(in alloc;
            "blink: line {number}: {words} words, where a key and its value are two"
        );
    }
    if !has_end {
        return format!(in alloc; "blink: line {number}: no line feed stands behind it");
    }
    format!(in alloc; "blink: line {number}: see blink help load")
}

/// Whether the word is a number as a row has it.
fn is_number(word: &[u8]) -> bool {
    number(word).is_some()
}

/// The line for a word that is no number.
fn wrong_word(alloc: Global, number: u64, place: u64, word: &[u8]) -> Result<String, AllocError> {
    if word.is_empty() {
        return format!(in alloc; "blink: line {number}: word {place} is empty");
    }
    match from_utf8(word) {
        Ok(text) if word.len() <= SHOWN => format!(in alloc;
            "blink: line {number}: `{text}` is no number from 0 to {}, without a leading zero",
            u64::MAX
        ),
        _ => format!(in alloc;
            "blink: line {number}: word {place} is no number from 0 to {}, without a leading zero",
            u64::MAX
        ),
    }
}

impl<R: Read> Read for Remembering<R> {
    fn read(&mut self, buf: &mut [u8]) -> io::Result<usize> {
        let count = self.inner.read(buf)?;
        self.keep(&buf[..count]);
        Ok(count)
    }
}
