//! Two neighbours of a level, merged into one page or evened out.

ghost use Rattle.std.specs.Prelude.{◌≡◌, ◌≢◌, ◌+◌, ◌<◌, length};
ghost use Rattle.bl_page.specs.declared.page.Page.{Page};
ghost use Rattle.bl_page.specs.declared.page.Page.TheVariants as page;
ghost use Rattle.bl_rearrange.specs.Neighbours.{AreNeighbours, IsMerged, IsEvened, together};

use crate::joining::{Shares, evened_pairs, joined_pairs};
use crate::sides::Evened;
use bl_page::{Inner, Leaf, Page};

/// The leaf of both leaves' rows.
fn merged_leaves(left: Leaf, right: Leaf) -> Option<Page>
    requires { AreNeighbours (page.Leaf left) (page.Leaf right) }
    ensures { IsMerged (page.Leaf left) (page.Leaf right) result }
{
    let rows = joined_pairs(left.rows, right.rows, left.low, right.low, right.high)?;
    Some(Page::Leaf(Leaf {
        low: left.low,
        high: right.high,
        right: right.right,
        rows,
    }))
}

/// The inner page of both inner pages' children.
fn merged_inners(left: Inner, right: Inner) -> Option<Page>
    requires { AreNeighbours (page.Inner left) (page.Inner right) }
    ensures { IsMerged (page.Inner left) (page.Inner right) result }
{
    let children = joined_pairs(
        left.children,
        right.children,
        left.low,
        right.low,
        right.high,
    )?;
    Some(Page::Inner(Inner {
        level: left.level,
        low: left.low,
        high: right.high,
        right: right.right,
        children,
    }))
}

/// The one page in place of two neighbours, which lists the pairs of both. There is none exactly where these are more
/// than 14.
pub fn merged(left: Page, right: Page) -> Option<Page>
    requires { AreNeighbours left right }
    ensures { IsMerged left right result }
{
    match (left, right) {
        (Page::Leaf(left), Page::Leaf(right)) => merged_leaves(left, right),
        (Page::Inner(left), Page::Inner(right)) => merged_inners(left, right),
        _ => unreachable!(),
    }
}

/// Leaves evened out.
fn evened_leaves(left: Leaf, right: Leaf) -> Evened
    requires neighbours { AreNeighbours (page.Leaf left) (page.Leaf right) }
    requires past { 14 < together (page.Leaf left) (page.Leaf right) }
    ensures { IsEvened (page.Leaf left) (page.Leaf right) result }
{
    let Shares {
        lower,
        upper,
        separator,
        gains,
    } = evened_pairs(left.rows, right.rows, left.low, right.low, right.high);
    let lower_leaf = Leaf {
        low: left.low,
        high: separator,
        right: left.right,
        rows: lower,
    };
    let upper_leaf = Leaf {
        low: separator,
        high: right.high,
        right: right.right,
        rows: upper,
    };
    Evened {
        left: Page::Leaf(lower_leaf),
        right: Page::Leaf(upper_leaf),
        separator,
        gains,
    }
}

/// Inner pages evened out.
fn evened_inners(left: Inner, right: Inner) -> Evened
    requires neighbours { AreNeighbours (page.Inner left) (page.Inner right) }
    requires past { 14 < together (page.Inner left) (page.Inner right) }
    ensures { IsEvened (page.Inner left) (page.Inner right) result }
{
    let Shares {
        lower,
        upper,
        separator,
        gains,
    } = evened_pairs(
        left.children,
        right.children,
        left.low,
        right.low,
        right.high,
    );
    let lower_inner = Inner {
        level: left.level,
        low: left.low,
        high: separator,
        right: left.right,
        children: lower,
    };
    let upper_inner = Inner {
        level: right.level,
        low: separator,
        high: right.high,
        right: right.right,
        children: upper,
    };
    Evened {
        left: Page::Inner(lower_inner),
        right: Page::Inner(upper_inner),
        separator,
        gains,
    }
}

/// Two neighbours that have more pairs together than one page holds, with these evened out: the left page gets the half,
/// rounded up.
pub fn evened(left: Page, right: Page) -> Evened
    requires neighbours { AreNeighbours left right }
    requires past { 14 < together left right }
    ensures { IsEvened left right result }
{
    match (left, right) {
        (Page::Leaf(left), Page::Leaf(right)) => evened_leaves(left, right),
        (Page::Inner(left), Page::Inner(right)) => evened_inners(left, right),
        _ => unreachable!(),
    }
}
