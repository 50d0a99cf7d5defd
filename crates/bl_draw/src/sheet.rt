//! Where the pages of a tree stand on a sheet.

use crate::node::Node;
use crate::page_text::span_text;
use crate::tree::{Level, Tree};
use std::alloc::{AllocError, Global};

/// How high a page is drawn.
pub(crate) const HIGH: u64 = 46;
/// What is left between two pages of a row.
pub(crate) const GAP: u64 = 22;
/// What is left at the edges.
pub(crate) const EDGE: u64 = 20;
/// What is left over a level, for its heading.
const HEADING: u64 = 34;
/// What is left below a row, for lines to the level below.
const BELOW: u64 = 30;
/// How wide a row may be.
const ROW: u64 = 1_560;
/// How high a chart is drawn, its numbers left out.
pub(crate) const CHART: u64 = 120;

/// A place on the sheet, of an upper left corner.
#[derive(Clone, Copy, Debug, PartialEq, Eq)]
pub(crate) struct Spot {
    pub(crate) x: u64,
    pub(crate) y: u64,
}

/// A tree that is laid out.
#[derive(Drop)]
pub(crate) struct Sheet {
    /// Where each page is drawn, by its number.
    pub(crate) spots: Vec<Option<Spot>>,
    /// Where the heading of each level stands, from the top down.
    pub(crate) headings: Vec<u64>,
    /// How wide a page is drawn.
    pub(crate) wide: u64,
    pub(crate) width: u64,
    pub(crate) height: u64,
}

/// The longest words for the keys of a page, in letters.
fn longest_span(alloc: Global, levels: &[Level]) -> Result<u64, AllocError> {
    let mut longest = 11;
    for level in levels {
        if !level.is_wide() {
            longest = longest.max(longest_of(alloc, level.chain.as_slice())?);
            longest = longest.max(longest_of(alloc, level.loose.as_slice())?);
        }
    }
    Ok(longest)
}

/// How many bytes the longest span of a page takes as text.
fn longest_of(alloc: Global, nodes: &[Node]) -> Result<u64, AllocError> {
    let mut longest = 0;
    for node in nodes {
        let span = span_text(alloc, node)?;
        longest = longest.max(span.len() as u64);
    }
    Ok(longest)
}

/// How many pages a row has room for.
fn row_of(wide: u64) -> u64 {
    (ROW / wide.saturating_add(GAP).max(1)).max(1)
}

/// Where the first page of a row of so many stands, so that the row is in the middle.
fn start_of(wide: u64, pages: u64) -> u64 {
    let row = pages.saturating_mul(wide.saturating_add(GAP));
    EDGE.saturating_add(ROW.saturating_sub(row) / 2)
}

impl Sheet {
    /// Puts the pages in rows below that place, and says where they end.
    fn put_all(&mut self, nodes: &[Node], y: u64) -> u64 {
        let row = row_of(self.wide);
        let mut left = nodes.len() as u64;
        let mut spot = Spot {
            x: start_of(self.wide, left.min(row)),
            y,
        };
        let mut placed = 0u64;
        for node in nodes {
            if placed == row {
                placed = 0;
                spot.x = start_of(self.wide, left.min(row));
                spot.y = spot.y.saturating_add(HIGH).saturating_add(BELOW);
            }
            self.put(node.page, spot);
            spot.x = spot.x.saturating_add(self.wide).saturating_add(GAP);
            placed = placed.saturating_add(1);
            left = left.saturating_sub(1);
        }
        spot.y.saturating_add(HIGH).saturating_add(BELOW)
    }

    /// Notes where a page is drawn.
    fn put(&mut self, page: u32, spot: Spot) {
        let page = page as usize;
        if page < self.spots.len() {
            self.spots[page] = Some(spot);
        }
    }

    /// Lays out a level below that place, and says where it ends.
    fn put_level(&mut self, level: &Level, y: u64) -> Result<u64, AllocError> {
        self.headings.push(y)?;
        let y = y.saturating_add(HEADING);
        if level.is_wide() {
            return Ok(y.saturating_add(CHART).saturating_add(BELOW));
        }
        let mut end = y;
        if !level.chain.is_empty() {
            end = self.put_all(level.chain.as_slice(), end);
        }
        if !level.loose.is_empty() {
            end = self.put_all(level.loose.as_slice(), end);
        }
        Ok(end)
    }
}

/// Lays out a tree below that place.
pub(crate) fn sheet_of(alloc: Global, tree: &Tree, top: u64) -> Result<Sheet, AllocError> {
    let letters = longest_span(alloc, tree.levels.as_slice())?;
    let mut sheet = Sheet {
        spots: vec![in alloc; None; tree.pages.len()]?,
        headings: Vec::new(alloc),
        wide: letters.saturating_mul(7),
        width: ROW.saturating_add(EDGE).saturating_add(EDGE),
        height: 0,
    };
    let mut y = top;
    for level in tree.levels.as_slice() {
        y = sheet.put_level(level, y)?;
    }
    sheet.height = y.saturating_add(HEADING);
    Ok(sheet)
}
