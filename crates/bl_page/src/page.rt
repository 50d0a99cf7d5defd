//! What a page holds, with the rules of each kind kept in its type.

ghost use Rattle.std.specs.Prelude.{◌≡◌, ◌<◌, ◌≤◌, ◌^◌, length};
ghost use Rattle.bl_page.specs.Pairs.{end_of, RisesFrom, RisesFrom-prop, AllWithin, AllWithin-prop, BeginsWith, BeginsWith-prop, NameChildren, NameChildren-prop, AreChildren, AreChildren-prop};

use arrayvec::ArrayVec;
use bl_model::limits::{MOST_LEVELS, MOST_PAIRS};

/// Pairs with rising keys: of a leaf a key and its value, of an inner page the least key of a child and the child's number.
pub type Pairs = ArrayVec<(u64, u64), MOST_PAIRS>;

/// The page from which every descent begins, page 0.
#[derive(Drop)]
pub struct Anchor {
    /// The leftmost page of each level, from level 0 up; 1 to 12 of them.
    pub leftmost: ArrayVec<u32, MOST_LEVELS>,
    ghost some: { 0 < length leftmost.items },
    ghost few: { length leftmost.items ≤ 12 },
    ghost pages: { AreChildren leftmost.items } by { AreChildren-prop leftmost.items },
}

/// A page of level 0, with rows.
#[derive(Drop)]
pub struct Leaf {
    /// The least key that it covers.
    pub low: u64,
    /// The keys that it covers are below this bound. 0 is no bound.
    pub high: u64,
    /// The page to the right on its level, 0 for none.
    pub right: u32,
    /// Keys and their values.
    pub rows: Pairs,
    ghost bounds: { low < end_of high },
    ghost link: { right < 2 ^ 32 },
    ghost few: { length rows.items ≤ 14 },
    ghost order: { RisesFrom 0 rows.items } by { RisesFrom-prop 0 rows.items },
    ghost cover: { AllWithin low high rows.items } by { AllWithin-prop low high rows.items },
}

/// A page of a level above 0, with children one level lower.
#[derive(Drop)]
pub struct Inner {
    /// Its level, 1 to 11.
    pub level: u32,
    /// The least key that it covers.
    pub low: u64,
    /// The keys that it covers are below this bound. 0 is no bound.
    pub high: u64,
    /// The page to the right on its level, 0 for none.
    pub right: u32,
    /// The least key of each child, and the child's number. The first key is `low`.
    pub children: Pairs,
    ghost above_leaves: { 0 < level },
    ghost below_limit: { level < 12 },
    ghost bounds: { low < end_of high },
    ghost link: { right < 2 ^ 32 },
    ghost few: { length children.items ≤ 14 },
    ghost order: { RisesFrom 0 children.items } by { RisesFrom-prop 0 children.items },
    ghost cover: { AllWithin low high children.items } by { AllWithin-prop low high children.items },
    ghost first: { BeginsWith low children.items } by { BeginsWith-prop low children.items },
    ghost pages: { NameChildren children.items } by { NameChildren-prop children.items },
}

/// A page that was merged into its left neighbour, or that was the top of the tree. It covers no key.
#[derive(Drop)]
pub struct Dead {
    /// The level that it had, 0 to 11.
    pub level: u32,
    /// The least key that it covered.
    pub low: u64,
    /// The page that took its contents. 0 is none: the page was the top of the tree, and whoever gets it begins again.
    pub right: u32,
    ghost below_limit: { level < 12 },
    ghost link: { right < 2 ^ 32 },
}

/// What a page holds. The tree is that of Lehman and Yao, "Efficient locking for concurrent operations on B-trees"
/// (ACM TODS 6(4), 1981): each page has an upper bound and a link to the right.
#[derive(Drop)]
pub enum Page {
    /// The number of levels and their leftmost pages.
    Anchor(Anchor),
    /// Rows.
    Leaf(Leaf),
    /// Children.
    Inner(Inner),
    /// A page that has been taken away.
    Dead(Dead),
}

/// Why words are no page's: the first of these that applies, from the top.
#[derive(Clone, Copy, Debug, PartialEq, Eq)]
pub enum WordFault {
    /// The kind is none of the four.
    Kind,
    /// The level is not one of the kind's.
    Level,
    /// The count is not one of the kind's.
    Count,
    /// The bounds or the link break the kind's rule.
    Bounds,
    /// The keys do not rise strictly.
    Order,
    /// A key is not covered, an inner page's first key is not its `low`, or an entry names no page.
    Cover,
    /// A word past the entries is not 0.
    Rest,
}
