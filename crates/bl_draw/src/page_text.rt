//! Words for a page and for a level.

use crate::node::Node;
use crate::tree::Level;
use std::alloc::{AllocError, Global};

/// The keys that a page covers.
pub(crate) fn span_text(alloc: Global, node: &Node) -> Result<String, AllocError> {
    let low = node.low;
    if node.high == 0 {
        return format!(in alloc; "[{low}, ..)");
    }
    let high = node.high;
    format!(in alloc; "[{low}, {high})")
}

/// What is said behind the entries of a page.
pub(crate) fn marks_text(node: &Node) -> &'static str {
    match (node.is_thin(), node.is_unposted) {
        (false, false) => "",
        (true, false) => " thin",
        (false, true) => " unposted",
        (true, true) => " thin unposted",
    }
}

/// What the entries of a page of that level are called.
pub(crate) fn entries_word(level: u32) -> &'static str {
    if level == 0 { "rows" } else { "children" }
}

/// How many entries the pages of a level have together.
fn entries_on(level: &Level) -> u64 {
    let mut entries = 0u64;
    for node in level.chain.as_slice() {
        entries = entries.saturating_add(node.count as u64);
    }
    for node in level.loose.as_slice() {
        entries = entries.saturating_add(node.count as u64);
    }
    entries
}

/// The line over a level.
pub(crate) fn level_text(alloc: Global, level: &Level) -> Result<String, AllocError> {
    let number = level.number;
    let count = level.len();
    let entries = entries_on(level);
    let word = entries_word(number);
    let pages = if count == 1 { "page" } else { "pages" };
    format!(in alloc; "level {number}: {count} {pages}, {entries} {word}")
}

/// The line of a broken rule, in the words of the checker.
pub(crate) fn fault_text(alloc: Global, rule: u32, page: u32) -> Result<String, AllocError> {
    format!(in alloc; "fault C{rule} page {page}")
}

/// The line behind it.
pub(crate) fn rule_text(alloc: Global, words: &str) -> Result<String, AllocError> {
    format!(in alloc; "    the rule: {words}")
}

/// The line over a tree: how many pages the image has, and how many of them are in use.
pub(crate) fn head_text(alloc: Global, pages: usize, used: usize) -> Result<String, AllocError> {
    format!(in alloc; "{pages} pages, {used} in use")
}
