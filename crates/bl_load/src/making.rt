//! Pages by what they hold.

ghost use Rattle.std.specs.Prelude.{◌≡◌, ◌<◌, ◌^◌, length};
ghost use Rattle.bl_page.specs.declared.page.Page.TheVariants as variant;
ghost use Rattle.bl_page.specs.Pairs.{AreChildren};
ghost use Rattle.bl_load.specs.Trees.{AllBelow, MayList, IsPageAt};

use arrayvec::ArrayVec;
use bl_model::limits::MOST_LEVELS;
use bl_page::{Anchor, Inner, Leaf, Page, Pairs};

/// What a live page says of its place.
#[derive(Clone, Copy)]
pub(crate) struct Place {
    /// Its level, 0 for a leaf.
    pub level: u32,
    /// The least key that it covers.
    pub low: u64,
    /// The keys that it covers are below this bound. 0 is no bound.
    pub high: u64,
    /// The page to the right on its level, 0 for none.
    pub right: u32,
}

/// The pairs of a slice.
fn collected(slice: &[(u64, u64)]) -> Pairs
    requires { length slice.now < 15 }
    ensures items { result.items ≡ slice.now }
    ensures fit { AllBelow (2 ^ 64) result.items }
{
    let mut pairs = ArrayVec::new();
    for (key, word) in slice {
        pairs.push((*key, *word));
    }
    pairs
}

/// The leaf at that place with these rows.
fn leaf_of(place: Place, pairs: &[(u64, u64)]) -> Leaf
    requires { MayList (record { level = 0; low = place.low; high = place.high; right = place.right }) pairs.now }
    ensures { (result.low ≡ place.low) × (result.high ≡ place.high) × (result.right ≡ place.right) × (result.rows.items ≡ pairs.now) }
{
    let rows = collected(pairs);
    Leaf {
        low: place.low,
        high: place.high,
        right: place.right,
        rows,
    }
}

/// The inner page at that place with these children.
fn inner_of(place: Place, pairs: &[(u64, u64)]) -> Inner
    requires level { (0 < place.level) × (place.level < 12) }
    requires pairs { MayList (record { level = place.level; low = place.low; high = place.high; right = place.right }) pairs.now }
    ensures { (result.level ≡ place.level) × (result.low ≡ place.low) × (result.high ≡ place.high)
        × (result.right ≡ place.right) × (result.children.items ≡ pairs.now) }
{
    let children = collected(pairs);
    Inner {
        level: place.level,
        low: place.low,
        high: place.high,
        right: place.right,
        children,
    }
}

/// The page at that place with these pairs.
pub(crate) fn page_of(place: Place, pairs: &[(u64, u64)]) -> Page
    requires level { place.level < 12 }
    requires pairs { MayList (record { level = place.level; low = place.low; high = place.high; right = place.right }) pairs.now }
    ensures { IsPageAt (record { level = place.level; low = place.low; high = place.high; right = place.right }) pairs.now result }
{
    if place.level == 0 {
        Page::Leaf(leaf_of(place, pairs))
    } else {
        Page::Inner(inner_of(place, pairs))
    }
}

/// The anchor of these leftmost pages, from level 0 up.
pub(crate) fn anchor_of(leftmost: ArrayVec<u32, MOST_LEVELS>) -> Anchor
    requires some { 0 < length leftmost.items }
    requires named { AreChildren leftmost.items }
    ensures { result.leftmost.items ≡ leftmost.items }
{
    Anchor { leftmost }
}
