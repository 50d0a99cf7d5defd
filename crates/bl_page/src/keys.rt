//! Which keys a page covers, and what it says of one.

ghost use Rattle.std.specs.Prelude.{◌≡◌, ◌↔◌, IsTrue};
ghost use Rattle.bl_model.specs.Rows.{map_of};
ghost use Rattle.bl_page.specs.Pairs.{IsWithin, IsChildFor};
ghost use Rattle.bl_page.specs.Pages.{Covers};

use crate::page::{Inner, Leaf, Page};
use crate::pairs::{listed_with, place_of};

/// The key is within the bounds, which are half open. A `high` of 0 is no bound.
pub fn is_within(low: u64, high: u64, key: u64) -> bool
    ensures { IsTrue result ↔ IsWithin low high key }
{
    low <= key && (high == 0 || key < high)
}

impl Page {
    /// A leaf or an inner page covers the keys within its bounds; the anchor and a dead page cover none.
    pub fn covers(&self, key: u64) -> bool
        ensures { IsTrue result ↔ Covers self.now key }
    {
        match self {
            Page::Leaf(leaf) => is_within(leaf.low, leaf.high, key),
            Page::Inner(inner) => is_within(inner.low, inner.high, key),
            Page::Anchor(_) | Page::Dead(_) => false,
        }
    }
}

impl Leaf {
    /// The value that is listed with the key.
    pub fn row_of(&self, key: u64) -> Option<u64>
        ensures { result ≡ map_of self.now.rows.items key }
    {
        listed_with(self.rows.as_slice(), key)
    }
}

impl Inner {
    /// The child of the greatest listed key that is not above a covered key.
    pub fn child_of(&self, key: u64) -> u32
        requires { IsWithin self.now.low self.now.high key }
        ensures { IsChildFor self.now.children.items key result }
    {
        let children = self.children.as_slice();
        children[place_of(children, key) - 1].1 as u32
    }
}
