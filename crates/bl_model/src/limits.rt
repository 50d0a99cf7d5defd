//! Limits of an index.

/// An index has at least as many pages.
pub const LEAST_PAGES: u32 = 4;
/// And at most as many.
pub const MOST_PAGES: u32 = 65_536;
/// A large index has at most as many: twice as many words of owners and frames are still numbered by 32 bits, and a tree of 12 levels
/// holds so many pages where each has half of its children.
pub const MOST_LARGE_PAGES: u32 = 268_435_456;
/// A page of the tree holds at most as many pairs, and a part of a scan lists at most as many rows.
pub const MOST_PAIRS: usize = 14;
/// A page that has a bound is thin while it holds fewer pairs.
pub const ENOUGH_PAIRS: usize = 7;
/// A tree has at most as many levels.
pub const MOST_LEVELS: usize = 12;
