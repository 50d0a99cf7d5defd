//! Where the words of a page stand, and how many pairs a split leaves.

use bl_model::limits::MOST_PAIRS;

/// The kind of the page, its level and the number of its pairs.
pub const HEAD: usize = 0;
/// The least key that it covers.
pub const LOW: usize = 1;
/// The bound above its keys, or 0.
pub const HIGH: usize = 2;
/// The page to its right, or 0.
pub const RIGHT: usize = 3;
/// The entries: two words for each pair, or in the anchor the leftmost page of each level.
pub const ENTRIES: usize = 4;

/// The key of the first pair. That of the pair at a place stands twice as many words behind it.
pub const FIRST_KEY: usize = ENTRIES;
/// The value or the child of the first pair.
pub const FIRST_WORD: usize = ENTRIES + 1;
/// The key of the pair before a place stands twice as many words behind this one.
pub const KEY_BEFORE: usize = ENTRIES - 2;
/// And its value or child behind this one.
pub const WORD_BEFORE: usize = ENTRIES - 1;
/// In the anchor of so many levels the leftmost page of the top one stands as many words behind this one.
pub const LEVEL_BEFORE: usize = ENTRIES - 1;

/// The lower half of a full page with a pair more.
pub const LOWER_PAIRS: usize = MOST_PAIRS / 2 + 1;
/// The upper half of it.
pub const UPPER_PAIRS: usize = MOST_PAIRS / 2;
