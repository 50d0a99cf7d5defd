//! Copies of pages.

ghost use Rattle.std.specs.Prelude.{◌≡◌};

use crate::page::{Anchor, Dead, Inner, Leaf, Page, Pairs};
use arrayvec::ArrayVec;
use bl_model::limits::MOST_LEVELS;

/// A copy of the entries.
fn copied_pairs(pairs: &Pairs) -> Pairs
    ensures { result ≡ pairs.now }
{
    match pairs.clone() {
        Ok(copy) => copy,
        Err(_) => unreachable!(),
    }
}

/// A copy of the page numbers.
fn copied_pages(pages: &ArrayVec<u32, MOST_LEVELS>) -> ArrayVec<u32, MOST_LEVELS>
    ensures { result ≡ pages.now }
{
    match pages.clone() {
        Ok(copy) => copy,
        Err(_) => unreachable!(),
    }
}

/// A copy of an anchor.
fn copied_anchor(anchor: &Anchor) -> Anchor
    ensures { result ≡ anchor.now }
{
    Anchor {
        leftmost: copied_pages(&anchor.leftmost),
    }
}

/// A copy of a leaf.
fn copied_leaf(leaf: &Leaf) -> Leaf
    ensures { result ≡ leaf.now }
{
    Leaf {
        low: leaf.low,
        high: leaf.high,
        right: leaf.right,
        rows: copied_pairs(&leaf.rows),
    }
}

/// A copy of an inner page.
fn copied_inner(inner: &Inner) -> Inner
    ensures { result ≡ inner.now }
{
    Inner {
        level: inner.level,
        low: inner.low,
        high: inner.high,
        right: inner.right,
        children: copied_pairs(&inner.children),
    }
}

/// A copy of a dead page.
fn copied_dead(dead: &Dead) -> Dead
    ensures { result ≡ dead.now }
{
    Dead {
        level: dead.level,
        low: dead.low,
        right: dead.right,
    }
}

impl Page {
    /// A copy, which has no memory of its own either.
    pub fn copied(&self) -> Page
        ensures { result ≡ self.now }
    {
        match self {
            Page::Anchor(anchor) => Page::Anchor(copied_anchor(anchor)),
            Page::Leaf(leaf) => Page::Leaf(copied_leaf(leaf)),
            Page::Inner(inner) => Page::Inner(copied_inner(inner)),
            Page::Dead(dead) => Page::Dead(copied_dead(dead)),
        }
    }
}
