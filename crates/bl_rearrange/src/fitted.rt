//! Pages with a pair more or less, or with another word in one.

ghost use Rattle.std.specs.Prelude.{◌≡◌, ◌≢◌, ◌<◌, length, None, IsSome};
ghost use Rattle.bl_model.specs.Map.{without_key, SameMap};
ghost use Rattle.bl_model.specs.Rows.{map_of};
ghost use Rattle.bl_page.specs.Pairs.{IsChild, IsWithin};
ghost use Rattle.bl_page.specs.Pages.{Covers};
ghost use Rattle.bl_page.specs.declared.page.Page.{Page};
ghost use Rattle.bl_page.specs.declared.page.Page.TheVariants as page;
ghost use Rattle.bl_rearrange.specs.Rearranged.{IsFitted, IsWithout, IsWithValue, MayHold, MayLose, pairs_of};

use crate::pairs::{Halves, dropped_pair, entered_pair, replaced_pair, split_with};
use bl_model::limits::MOST_PAIRS;
use bl_page::{Inner, Leaf, Page};

/// A page with a pair more.
#[derive(Drop)]
pub enum Fitted {
    /// The pair has room.
    Fits(Page),
    /// The page was full: its lower half, its upper half for the new page, and the separator, the first key of the
    /// upper half.
    Split(Page, Page, u64),
}

/// A leaf with a row more.
fn leaf_with(leaf: Leaf, key: u64, value: u64, new_page: u32) -> Fitted
    requires covers { IsWithin leaf.low leaf.high key }
    requires absent { map_of leaf.rows.items key ≡ None }
    requires new_page { IsChild new_page }
    ensures { IsFitted (page.Leaf leaf) key value new_page result }
{
    let Leaf {
        low,
        high,
        right,
        rows,
    } = leaf;
    if rows.len() < MOST_PAIRS {
        let rows = entered_pair(rows, low, high, key, value);
        return Fitted::Fits(Page::Leaf(Leaf {
            low,
            high,
            right,
            rows,
        }));
    }
    let Halves {
        lower,
        upper,
        separator,
    } = split_with(rows.as_slice(), low, high, key, value);
    let lower_leaf = Leaf {
        low,
        high: separator,
        right: new_page,
        rows: lower,
    };
    let upper_leaf = Leaf {
        low: separator,
        high,
        right,
        rows: upper,
    };
    Fitted::Split(Page::Leaf(lower_leaf), Page::Leaf(upper_leaf), separator)
}

/// An inner page with a child more.
fn inner_with(inner: Inner, key: u64, child: u64, new_page: u32) -> Fitted
    requires covers { IsWithin inner.low inner.high key }
    requires absent { map_of inner.children.items key ≡ None }
    requires child { IsChild child }
    requires new_page { IsChild new_page }
    ensures { IsFitted (page.Inner inner) key child new_page result }
{
    let Inner {
        level,
        low,
        high,
        right,
        children,
    } = inner;
    if children.len() < MOST_PAIRS {
        let children = entered_pair(children, low, high, key, child);
        return Fitted::Fits(Page::Inner(Inner {
            level,
            low,
            high,
            right,
            children,
        }));
    }
    let Halves {
        lower,
        upper,
        separator,
    } = split_with(children.as_slice(), low, high, key, child);
    let lower_inner = Inner {
        level,
        low,
        high: separator,
        right: new_page,
        children: lower,
    };
    let upper_inner = Inner {
        level,
        low: separator,
        high,
        right,
        children: upper,
    };
    Fitted::Split(
        Page::Inner(lower_inner),
        Page::Inner(upper_inner),
        separator,
    )
}

/// The page with a pair more: a row of a leaf, or a child of an inner page. Where it is full, its upper half is for the
/// page `new_page`, to which the lower half links.
pub fn with_pair(page: Page, key: u64, word: u64, new_page: u32) -> Fitted
    requires covers { Covers page key }
    requires absent { map_of (pairs_of page) key ≡ None }
    requires word { MayHold page word }
    requires new_page { IsChild new_page }
    ensures { IsFitted page key word new_page result }
{
    match page {
        Page::Leaf(leaf) => leaf_with(leaf, key, word, new_page),
        Page::Inner(inner) => inner_with(inner, key, word, new_page),
        Page::Anchor(_) | Page::Dead(_) => unreachable!(),
    }
}

/// A leaf without a row.
fn leaf_without(leaf: Leaf, key: u64) -> Leaf
    ensures { IsWithout (page.Leaf leaf) key (page.Leaf result) }
{
    let Leaf {
        low,
        high,
        right,
        rows,
    } = leaf;
    let rows = dropped_pair(rows, low, high, key);
    Leaf {
        low,
        high,
        right,
        rows,
    }
}

/// An inner page without a child.
fn inner_without(inner: Inner, key: u64) -> Inner
    requires { key ≢ inner.low }
    ensures { IsWithout (page.Inner inner) key (page.Inner result) }
{
    let Inner {
        level,
        low,
        high,
        right,
        children,
    } = inner;
    let children = dropped_pair(children, low, high, key);
    Inner {
        level,
        low,
        high,
        right,
        children,
    }
}

/// The page without the pair with the key: a row of a leaf, or a child of an inner page, which keeps its first one.
/// Where the key is not listed the page stays as it is.
pub fn without(page: Page, key: u64) -> Page
    requires covers { Covers page key }
    requires first { MayLose page key }
    ensures { IsWithout page key result }
{
    match page {
        Page::Leaf(leaf) => Page::Leaf(leaf_without(leaf, key)),
        Page::Inner(inner) => Page::Inner(inner_without(inner, key)),
        Page::Anchor(_) | Page::Dead(_) => unreachable!(),
    }
}

/// A leaf with another value at a key that it lists.
fn leaf_with_value(leaf: Leaf, key: u64, value: u64) -> Leaf
    requires { IsSome (map_of leaf.rows.items key) }
    ensures { IsWithValue (page.Leaf leaf) key value (page.Leaf result) }
{
    let Leaf {
        low,
        high,
        right,
        rows,
    } = leaf;
    let rows = replaced_pair(rows, low, high, key, value);
    Leaf {
        low,
        high,
        right,
        rows,
    }
}

/// An inner page with another child at a key that it lists.
fn inner_with_value(inner: Inner, key: u64, child: u64) -> Inner
    requires listed { IsSome (map_of inner.children.items key) }
    requires child { IsChild child }
    ensures { IsWithValue (page.Inner inner) key child (page.Inner result) }
{
    let Inner {
        level,
        low,
        high,
        right,
        children,
    } = inner;
    let children = replaced_pair(children, low, high, key, child);
    Inner {
        level,
        low,
        high,
        right,
        children,
    }
}

/// The page with that value at a key that it lists: of a row of a leaf, or of a child of an inner page, where it is a
/// page's number. All else is kept.
pub fn with_value(page: Page, key: u64, value: u64) -> Page
    requires listed { IsSome (map_of (pairs_of page) key) }
    requires value { MayHold page value }
    ensures { IsWithValue page key value result }
{
    match page {
        Page::Leaf(leaf) => Page::Leaf(leaf_with_value(leaf, key, value)),
        Page::Inner(inner) => Page::Inner(inner_with_value(inner, key, value)),
        Page::Anchor(_) | Page::Dead(_) => unreachable!(),
    }
}
