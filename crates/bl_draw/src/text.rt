//! A tree as text.

use crate::chart::{fill_of, most_of, part_for};
use crate::node::Node;
use crate::page_text::{
    entries_word, fault_text, head_text, level_text, marks_text, rule_text, span_text,
};
use crate::rules::{rule_words, verdict};
use crate::tree::{Level, Tree, tree_in};
use bl_page::Page;
use std::alloc::{AllocError, Global};

/// Columns of a terminal.
const COLUMNS: usize = 80;
/// The longest bar of a chart.
const BAR: u64 = 50;

/// A page, as `12 [81, 97) 8 thin`.
fn node_text(alloc: Global, node: &Node) -> Result<String, AllocError> {
    let page = node.page;
    let count = node.count;
    let span = span_text(alloc, node)?;
    let marks = marks_text(node);
    format!(in alloc; "{page} {span} {count}{marks}")
}

/// Lines of words that are broken where a terminal ends.
#[derive(Drop)]
struct Lines {
    text: String,
    /// Columns of the last line.
    column: usize,
}

impl Lines {
    /// Puts a word on the last line, or on a new one where it has no room there.
    fn push(&mut self, word: &str) -> Result<(), AllocError> {
        let wide = word.len();
        if self.column == 0 || wide >= COLUMNS.saturating_sub(self.column) {
            self.end_line()?;
            self.text.push_str("   ")?;
            self.column = 3;
        }
        self.text.push_str(" ")?;
        self.text.push_str(word)?;
        self.column = self.column.saturating_add(wide).saturating_add(1);
        Ok(())
    }

    /// Ends the last line, if anything stands on it.
    fn end_line(&mut self) -> Result<(), AllocError> {
        if self.column > 0 {
            self.text.push_str("\n")?;
        }
        self.column = 0;
        Ok(())
    }

    /// Puts a line of its own.
    fn push_line(&mut self, line: &str) -> Result<(), AllocError> {
        self.end_line()?;
        self.text.push_str(line)?;
        self.text.push_str("\n")
    }
}

/// The pages of a chain with their links.
fn push_chain(alloc: Global, lines: &mut Lines, chain: &[Node]) -> Result<(), AllocError> {
    for node in chain {
        let mut word = node_text(alloc, node)?;
        if node.right != 0 {
            word.push_str(" >")?;
        }
        lines.push(word.as_str())?;
    }
    // a link at the end leads off the chain
    match chain.last() {
        Some(node) if node.right != 0 => {
            let right = node.right;
            let word = format!(in alloc; "page {right}, which is not next on this level")?;
            lines.push(word.as_str())?;
        }
        _ => {}
    }
    lines.end_line()
}

/// The pages that stand on no chain.
fn push_loose(alloc: Global, lines: &mut Lines, loose: &[Node]) -> Result<(), AllocError> {
    if loose.is_empty() {
        return Ok(());
    }
    lines.push_line("  on no chain:")?;
    let mut left = loose.len();
    for node in loose {
        left = left.saturating_sub(1);
        let mut word = node_text(alloc, node)?;
        if left > 0 {
            word.push_str(",")?;
        }
        lines.push(word.as_str())?;
    }
    lines.end_line()
}

/// A line of a chart.
fn bar_line(
    alloc: Global,
    count: usize,
    word: &str,
    pages: u64,
    most: u64,
) -> Result<String, AllocError> {
    let mut line = format!(in alloc; "    {count:>2} {word} {pages:>6}  ")?;
    for _ in 0..part_for(pages, most, BAR) {
        line.push_str("#")?;
    }
    Ok(line)
}

/// How full the pages of a level are, line by line.
fn push_chart(alloc: Global, lines: &mut Lines, level: &Level) -> Result<(), AllocError> {
    let fill = fill_of(level);
    let most = most_of(&fill);
    let word = entries_word(level.number);
    lines.push_line("  pages by their entries:")?;
    let mut count = 0usize;
    for pages in &fill {
        if *pages > 0 {
            let line = bar_line(alloc, count, word, *pages, most)?;
            lines.push_line(line.as_str())?;
        }
        count = count.saturating_add(1);
    }
    Ok(())
}

/// Writes a level: its heading, and then its pages, or a chart where they are too many.
fn push_level(alloc: Global, lines: &mut Lines, level: &Level) -> Result<(), AllocError> {
    let head = level_text(alloc, level)?;
    lines.push_line(head.as_str())?;
    if level.is_wide() {
        return push_chart(alloc, lines, level);
    }
    push_chain(alloc, lines, level.chain.as_slice())?;
    push_loose(alloc, lines, level.loose.as_slice())
}

/// A line that names pages, if there are any.
fn push_numbers(
    alloc: Global,
    lines: &mut Lines,
    head: &str,
    numbers: &[u32],
) -> Result<(), AllocError> {
    if numbers.is_empty() {
        return Ok(());
    }
    lines.push_line(head)?;
    for number in numbers.iter().take(64) {
        let word = format!(in alloc; "{number}")?;
        lines.push(word.as_str())?;
    }
    if numbers.len() > 64 {
        lines.push("..")?;
    }
    lines.end_line()
}

/// Writes the whole tree: a heading, the levels from the top, and the pages that are dead or cannot be read.
fn push_tree(alloc: Global, lines: &mut Lines, tree: &Tree) -> Result<(), AllocError> {
    let used = used_in(tree.pages.as_slice());
    let head = head_text(alloc, tree.count, used)?;
    lines.push_line(head.as_str())?;
    if !tree.levels.is_empty() {
        lines.push_line("a page: number [its least key, its bound) entries; > is its link")?;
    }
    for level in tree.levels.as_slice() {
        push_level(alloc, lines, level)?;
    }
    push_numbers(alloc, lines, "dead pages:", tree.dead.as_slice())?;
    push_numbers(
        alloc,
        lines,
        "no pages can be read at:",
        tree.unread.as_slice(),
    )
}

/// How many pages are in use.
pub(crate) fn used_in(pages: &[Option<Page>]) -> usize {
    pages.iter().filter(|page| page.is_some()).count()
}

/// The tree in the bytes of an image as text, and whether it is sound. A level of more than 64 pages is summed up.
pub fn text_of(alloc: Global, bytes: &[u8]) -> Result<(String, bool), AllocError> {
    let broken = verdict(alloc, bytes)?;
    let tree = tree_in(alloc, bytes)?;
    let mut lines = Lines {
        text: String::new(alloc),
        column: 0,
    };
    push_tree(alloc, &mut lines, &tree)?;
    if let Some((rule, page)) = broken {
        let line = fault_text(alloc, rule, page)?;
        lines.push_line(line.as_str())?;
        let line = rule_text(alloc, rule_words(rule))?;
        lines.push_line(line.as_str())?;
    }
    Ok((lines.text, broken.is_none()))
}
