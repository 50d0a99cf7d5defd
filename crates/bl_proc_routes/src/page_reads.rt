//! What processes read of a page.

ghost use Rattle.std.specs.Prelude.{◌≡◌, length};
ghost use Rattle.bl_page.specs.Nodes.{node_of, roots_of};
ghost use Rattle.bl_rearrange.specs.Rearranged.{pairs_of};
ghost use Rattle.bl_page.specs.Tops.{top_of};

use bl_page::{Page, listed_with};

/// The leftmost page of the top level, by the anchor.
pub fn top_page(anchor: &Page) -> u32
    ensures { result ≡ top_of (roots_of anchor.now) }
{
    match anchor {
        Page::Anchor(anchor) => anchor.leftmost.as_slice()[anchor.leftmost.len() - 1],
        _ => 0,
    }
}

/// What the page lists with the key.
pub fn listed(page: &Page, key: u64) -> Option<u64>
    ensures { result ≡ (node_of page.now).look key }
{
    match page {
        Page::Leaf(leaf) => leaf.row_of(key),
        Page::Inner(inner) => listed_with(inner.children.as_slice(), key),
        Page::Anchor(_) | Page::Dead(_) => None,
    }
}

/// How many pairs the page has.
pub fn count_of(page: &Page) -> usize
    ensures { result ≡ length (pairs_of page.now) }
{
    match page {
        Page::Leaf(leaf) => leaf.rows.len(),
        Page::Inner(inner) => inner.children.len(),
        Page::Anchor(_) | Page::Dead(_) => 0,
    }
}

/// The level of the page: that of a leaf is 0, and so is that of the anchor.
pub fn level_of(page: &Page) -> u32
    ensures { result ≡ (node_of page.now).shape.level }
{
    match page {
        Page::Inner(inner) => inner.level,
        Page::Dead(dead) => dead.level,
        Page::Leaf(_) | Page::Anchor(_) => 0,
    }
}

/// How many levels the tree has, by the anchor.
pub fn levels_of(anchor: &Page) -> u32
    ensures { result ≡ (roots_of anchor.now).levels }
{
    match anchor {
        Page::Anchor(anchor) => anchor.leftmost.len() as u32,
        _ => 0,
    }
}

/// The least key that the page covers, or covered. That of the anchor is 0.
pub fn low_of(page: &Page) -> u64
    ensures { result ≡ (node_of page.now).shape.low }
{
    match page {
        Page::Leaf(leaf) => leaf.low,
        Page::Inner(inner) => inner.low,
        Page::Dead(dead) => dead.low,
        Page::Anchor(_) => 0,
    }
}
