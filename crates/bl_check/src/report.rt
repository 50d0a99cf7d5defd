//! The numbers of a sound image.

/// What a sound image holds.
#[derive(Clone, Copy, Debug, PartialEq, Eq)]
pub struct Report {
    /// Pairs of all leaves.
    pub rows: u32,
    /// Pages that are leaves.
    pub leaves: u32,
    /// Pages that are inner pages.
    pub inners: u32,
    /// Levels, 1 to 12.
    pub levels: u32,
    /// Live pages that no inner page lists, but for the leftmost page of the top level.
    pub unposted: u32,
    /// Live pages with fewer than 7 pairs, but for those that are alone on their level.
    pub thin: u32,
}
