//! The levels of a tree.

use crate::image_pages::found_in;
use crate::node::{Node, leftmost_in, nodes_of};
use bl_page::Page;
use std::alloc::{AllocError, Global};

/// A level of more pages than this is summed up.
pub(crate) const WIDE: usize = 64;

/// The pages of a level.
#[derive(Drop)]
pub(crate) struct Level {
    pub(crate) number: u32,
    /// From the leftmost page on, as far as links lead.
    pub(crate) chain: Vec<Node>,
    /// Those that stand on no chain, by number.
    pub(crate) loose: Vec<Node>,
}

impl Level {
    /// How many pages it has.
    pub(crate) fn len(&self) -> usize {
        self.chain.len().saturating_add(self.loose.len())
    }

    /// Whether it has too many pages for a picture of each.
    pub(crate) fn is_wide(&self) -> bool {
        self.len() > WIDE
    }
}

/// All that is drawn of an image.
#[derive(Drop)]
pub(crate) struct Tree {
    /// Each page by its number, None where there is none.
    pub(crate) pages: Vec<Option<Page>>,
    /// How many pages there are: of a large image those behind the last one in use are not among `pages`.
    pub(crate) count: usize,
    /// From the top down.
    pub(crate) levels: Vec<Level>,
    /// Pages whose words are no page's.
    pub(crate) unread: Vec<u32>,
    /// Pages that were merged away.
    pub(crate) dead: Vec<u32>,
}

/// The chain of a level from that page on, and marks on the pages of it. It ends where a link leads to no page of the level, or
/// to one that was there already.
fn chain_from(
    alloc: Global,
    number: u32,
    first: Option<u32>,
    nodes: &[Option<Node>],
    marks: &mut [bool],
) -> Result<Vec<Node>, AllocError> {
    let mut chain = Vec::new(alloc);
    let mut next = first;
    for _ in 0..nodes.len() {
        let Some(x) = next else {
            break;
        };
        let x = x as usize;
        if x >= nodes.len() || x >= marks.len() || marks[x] {
            break;
        }
        let Some(node) = nodes[x] else {
            break;
        };
        if node.level != number {
            break;
        }
        marks[x] = true;
        chain.push(node)?;
        next = if node.right == 0 {
            None
        } else {
            Some(node.right)
        };
    }
    Ok(chain)
}

/// The pages of a level that have no mark.
fn loose_on(
    alloc: Global,
    number: u32,
    nodes: &[Option<Node>],
    marks: &[bool],
) -> Result<Vec<Node>, AllocError> {
    let mut loose = Vec::new(alloc);
    for node in nodes {
        if let Some(node) = node {
            let is_marked = marks.get(node.page as usize).copied() == Some(true);
            if node.level == number && !is_marked {
                loose.push(*node)?;
            }
        }
    }
    Ok(loose)
}

/// The level of that number, whose leftmost page is that one, where the anchor names one.
fn level_of(
    alloc: Global,
    number: u32,
    first: Option<u32>,
    nodes: &[Option<Node>],
) -> Result<Level, AllocError> {
    let mut marks = vec![in alloc; false; nodes.len()]?;
    let chain = chain_from(alloc, number, first, nodes, marks.as_mut_slice())?;
    let loose = loose_on(alloc, number, nodes, marks.as_slice())?;
    Ok(Level {
        number,
        chain,
        loose,
    })
}

/// The numbers of the dead pages.
fn dead_in(alloc: Global, pages: &[Option<Page>]) -> Result<Vec<u32>, AllocError> {
    let mut dead = Vec::new(alloc);
    let mut x = 0u32;
    for page in pages {
        if let Some(Page::Dead(_)) = page {
            dead.push(x)?;
        }
        x = x.saturating_add(1);
    }
    Ok(dead)
}

/// The levels that have pages, from the top down.
fn levels_of(alloc: Global, pages: &[Option<Page>]) -> Result<Vec<Level>, AllocError> {
    let nodes = nodes_of(alloc, pages)?;
    let leftmost = leftmost_in(pages);
    let mut levels = Vec::new(alloc);
    for below in 0..12u32 {
        let number = 11 - below;
        let first = leftmost.get(number as usize).copied();
        let level = level_of(alloc, number, first, nodes.as_slice())?;
        if level.len() > 0 {
            levels.push(level)?;
        }
    }
    Ok(levels)
}

/// The tree in the bytes of an image, as far as they can be read.
pub(crate) fn tree_in(alloc: Global, bytes: &[u8]) -> Result<Tree, AllocError> {
    let found = found_in(alloc, bytes)?;
    let levels = levels_of(alloc, found.pages.as_slice())?;
    let dead = dead_in(alloc, found.pages.as_slice())?;
    Ok(Tree {
        pages: found.pages,
        count: found.count,
        levels,
        unread: found.unread,
        dead,
    })
}
