//! Answers in words.

use crate::saying::{count, said};
use crate::words::shown_words;
use bl_check::{Fault, Report};
use bl_page::Page;
use bl_serve_lines::print::push_number;
use std::alloc::{AllocError, Global};

pub fn yes(alloc: Global, is_so: bool) -> Result<Vec<u8>, AllocError> {
    said(alloc, if is_so { "yes" } else { "no" })
}

/// The number, if there is one.
pub fn maybe(alloc: Global, number: Option<u64>) -> Result<Vec<u8>, AllocError> {
    match number {
        Some(number) => count(alloc, number),
        None => said(alloc, "none"),
    }
}

/// A word and a number.
pub fn numbered(alloc: Global, word: &[u8], number: u32) -> Result<Vec<u8>, AllocError> {
    let mut text = Vec::new(alloc);
    push_number(&mut text, word, u64::from(number))?;
    Ok(text)
}

/// The words of a page.
pub fn page(alloc: Global, page: &Page) -> Result<Vec<u8>, AllocError> {
    shown_words(alloc, page.to_words().as_slice())
}

/// The words of two pages, behind some text.
pub fn two_pages(
    alloc: Global,
    front: &str,
    left: &Page,
    right: &Page,
) -> Result<Vec<u8>, AllocError> {
    let mut text = said(alloc, front)?;
    push_page(&mut text, alloc, left)?;
    text.extend_from_slice(b" | ")?;
    push_page(&mut text, alloc, right)?;
    Ok(text)
}

fn push_page(text: &mut Vec<u8>, alloc: Global, shown: &Page) -> Result<(), AllocError> {
    text.extend_from_slice(page(alloc, shown)?.as_slice())
}

/// What the checker has found.
pub fn verdict(alloc: Global, found: Result<Report, Fault>) -> Result<Vec<u8>, AllocError> {
    match found {
        Ok(report) => reported(alloc, report),
        Err(Fault::Rule { rule, page }) => {
            let text = format!(in alloc; "rule {rule} page {page}")?;
            said(alloc, text.as_str())
        }
        Err(Fault::Memory) => said(alloc, "out of memory"),
    }
}

fn reported(alloc: Global, report: Report) -> Result<Vec<u8>, AllocError> {
    let counts: [(&[u8], u32); 6] = [
        (b"rows ", report.rows),
        (b" leaves ", report.leaves),
        (b" inners ", report.inners),
        (b" levels ", report.levels),
        (b" unposted ", report.unposted),
        (b" thin ", report.thin),
    ];
    let mut text = Vec::new(alloc);
    for (name, count) in counts {
        push_number(&mut text, name, u64::from(count))?;
    }
    Ok(text)
}
