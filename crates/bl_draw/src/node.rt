//! What is drawn of a page.

use bl_model::limits::ENOUGH_PAIRS;
use bl_page::Page;
use std::alloc::{AllocError, Global};

/// A page on a level of the tree.
#[derive(Clone, Copy, Debug, PartialEq, Eq)]
pub(crate) struct Node {
    pub(crate) page: u32,
    pub(crate) level: u32,
    pub(crate) low: u64,
    /// 0 is no bound.
    pub(crate) high: u64,
    /// 0 is no link.
    pub(crate) right: u32,
    /// How many rows or children it has.
    pub(crate) count: usize,
    /// No inner page lists it, and it is not the leftmost page of the top level.
    pub(crate) is_unposted: bool,
}

impl Node {
    /// Whether it has few entries and is not alone on its level.
    pub(crate) fn is_thin(&self) -> bool {
        self.count < ENOUGH_PAIRS && !(self.low == 0 && self.high == 0)
    }
}

/// What is drawn of that page; None where it is no page of a level.
fn node_of(x: u32, page: &Page, is_unposted: bool) -> Option<Node> {
    match page {
        Page::Leaf(leaf) => Some(Node {
            page: x,
            level: 0,
            low: leaf.low,
            high: leaf.high,
            right: leaf.right,
            count: leaf.rows.len(),
            is_unposted,
        }),
        Page::Inner(inner) => Some(Node {
            page: x,
            level: inner.level,
            low: inner.low,
            high: inner.high,
            right: inner.right,
            count: inner.children.len(),
            is_unposted,
        }),
        _ => None,
    }
}

/// Marks the pages that inner pages list.
fn listed_in(alloc: Global, pages: &[Option<Page>]) -> Result<Vec<bool>, AllocError> {
    let mut listed = vec![in alloc; false; pages.len()]?;
    for page in pages {
        if let Some(Page::Inner(inner)) = page {
            for (_, child) in inner.children.as_slice() {
                let child = *child as usize;
                if child < listed.len() {
                    listed[child] = true;
                }
            }
        }
    }
    Ok(listed)
}

/// The leftmost pages that the anchor names, of the lowest level first; none where page 0 is no anchor.
pub(crate) fn leftmost_in(pages: &[Option<Page>]) -> &[u32] {
    match pages.first() {
        Some(Some(Page::Anchor(anchor))) => anchor.leftmost.as_slice(),
        _ => &[],
    }
}

/// What is drawn of each page, by its number.
pub(crate) fn nodes_of(
    alloc: Global,
    pages: &[Option<Page>],
) -> Result<Vec<Option<Node>>, AllocError> {
    let listed = listed_in(alloc, pages)?;
    let top = leftmost_in(pages).last().copied();
    let mut nodes = Vec::new(alloc);
    let mut x = 0u32;
    for page in pages {
        let is_listed = listed.get(x as usize).copied() == Some(true);
        nodes.push(match page {
            Some(page) => node_of(x, page, !is_listed && top != Some(x)),
            None => None,
        })?;
        x = x.saturating_add(1);
    }
    Ok(nodes)
}
