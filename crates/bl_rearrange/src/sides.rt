//! What comes of evening out.

use bl_page::Page;

/// One of two neighbours.
#[derive(Clone, Copy, Debug, PartialEq, Eq)]
pub enum Side {
    /// The one with the lower keys.
    Left,
    /// The one with the upper keys.
    Right,
}

/// Two neighbours with their pairs evened out.
#[derive(Drop)]
pub struct Evened {
    /// The left page, with the half of the pairs, rounded up.
    pub left: Page,
    /// The right page, with the others.
    pub right: Page,
    /// The first key of the right page: its new least key, and the new bound of the left page.
    pub separator: u64,
    /// The page to which pairs move; the left one where both have their half already and none moves.
    pub gains: Side,
}
