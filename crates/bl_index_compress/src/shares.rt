//! What comes of evening out, by words.

use bl_rearrange::Side;

/// The words of two pages that have been evened out.
#[derive(Drop)]
pub(crate) struct Shares {
    pub(crate) left: [u64; 32],
    pub(crate) right: [u64; 32],
    /// The first key of the right page.
    pub(crate) separator: u64,
    /// The page to which pairs move.
    pub(crate) gains: Side,
}
