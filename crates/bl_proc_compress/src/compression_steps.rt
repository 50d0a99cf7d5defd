//! The steps of a compression of two children that stand side by side.

ghost use Rattle.std.specs.Prelude.{◌≡◌, ◌<◌, ◌≤◌, ◌↔◌, IsTrue, Some};
ghost use Rattle.bl_model.specs.Rows.{map_of};
ghost use Rattle.bl_page.specs.Pairs.{IsChild, IsWithin};
ghost use Rattle.bl_rearrange.specs.Rearranged.{high_of, right_of};
ghost use Rattle.bl_rearrange.specs.Neighbours.{AreNeighbours, together};
ghost use Rattle.bl_proc_compress.specs.declared.compression.Compression.TheVariants as compression;
ghost use Rattle.bl_proc_steps.specs.Given.{Gives};
ghost use Rattle.bl_proc_compress.specs.Compressions.{put_of, other, merge_hint, IsBuried, Merges, Relists, MayEven, Decides, Links, after_puts, missed_left, missed_right, compression_next, compression_needs, Compresses};

use crate::compression::{Compressed, Compression, Decision, Puts};
use bl_model::limits::{ENOUGH_PAIRS, MOST_PAIRS};
use bl_page::{Dead, Inner, Page, is_within};
use bl_proc_routes::{count_of, listed};
use bl_proc_steps::{Action, Hint, Level, Seen, hint_of_thin, thin_low};
use bl_rearrange::{Evened, Family, Fitted, Siblings, Side, evened, merged, with_pair, without};

/// The page to the right, 0 for none.
fn right_of(page: &Page) -> u32
    ensures { result ≡ right_of page.now }
{
    match page {
        Page::Leaf(leaf) => leaf.right,
        Page::Inner(inner) => inner.right,
        Page::Dead(dead) => dead.right,
        Page::Anchor(_) => 0,
    }
}

/// The bound of the keys that the page covers, 0 for none.
fn high_of(page: &Page) -> u64
    ensures { result ≡ high_of page.now }
{
    match page {
        Page::Leaf(leaf) => leaf.high,
        Page::Inner(inner) => inner.high,
        Page::Dead(_) | Page::Anchor(_) => 0,
    }
}

/// The pages are two leaves, or inner pages of one level, and the one begins where the other ends.
fn are_neighbours(left: &Page, right: &Page) -> bool
    ensures { IsTrue result ↔ AreNeighbours left.now right.now }
{
    match (left, right) {
        (Page::Leaf(left), Page::Leaf(right)) => left.high != 0 && right.low == left.high,
        (Page::Inner(left), Page::Inner(right)) => {
            right.level == left.level && left.high != 0 && right.low == left.high
        }
        _ => false,
    }
}

/// At the left child.
fn linked(family: Family, left: Page) -> Compression
    ensures { Links family left result }
{
    let at = family.at;
    if right_of(&left) == at.right {
        return Compression::LatchingRight(family, left);
    }
    let level = Level::new(family.parent.level);
    let hint = Hint::Post {
        level,
        key: high_of(&left),
    };
    Compression::OpeningLeft(at, Decision::Unposted(hint))
}

/// What is put in place of a page that was merged into another one.
fn buried(page: &Page, into: u32) -> Page
    requires { IsChild into }
    ensures { IsBuried into page.now result }
{
    let (level, low) = match page {
        Page::Leaf(leaf) => (0, leaf.low),
        Page::Inner(inner) => (inner.level, inner.low),
        Page::Dead(dead) => (dead.level, dead.low),
        Page::Anchor(_) => (0, 0),
    };
    Page::Dead(Dead {
        level,
        low,
        right: into,
    })
}

/// The hint after a merge, by the parent of that level and the left child as they are put.
fn merge_hint(level: u32, parent: &Page, left: &Page) -> Option<Hint>
    requires least { 0 < level }
    requires most { level < 12 }
    ensures { result ≡ merge_hint level parent.now left.now }
{
    if let Some(low) = thin_low(parent) {
        let above = Level::new(level + 1);
        return Some(hint_of_thin(above, low));
    }
    let own = Level::new(level);
    match thin_low(left) {
        Some(low) => Some(hint_of_thin(own, low)),
        None => None,
    }
}

/// The children are merged.
fn merging(family: Family, left: Page, right: Page) -> Puts
    requires neighbours { AreNeighbours left right }
    requires fit { together left right ≤ 14 }
    ensures { Merges family left right result }
{
    let Family { at, parent, key } = family;
    let level = parent.level;
    let dead = buried(&right, at.left);
    let parent = without(Page::Inner(parent), key);
    match merged(left, right) {
        Some(left) => {
            let hint = merge_hint(level, &parent, &left);
            Puts {
                at,
                gains: Side::Left,
                left,
                parent,
                right: dead,
                decision: Decision::Merged(hint),
            }
        }
        None => unreachable!(),
    }
}

/// The parent, which lists the child by the new key in place of the old one.
fn relisted(parent: Inner, old: u64, new: u64, child: u32) -> Option<Page>
    requires covers { IsWithin parent.low parent.high old }
    requires above { parent.low < old }
    requires lists { map_of parent.children.items old ≡ Some child }
    requires child { IsChild child }
    ensures { Relists parent old new child result }
{
    if !is_within(parent.low, parent.high, new) {
        return None;
    }
    let page = without(Page::Inner(parent), old);
    if let Some(_) = listed(&page, new) {
        return None;
    }
    match with_pair(page, new, child as u64, child) {
        Fitted::Fits(page) => Some(page),
        Fitted::Split(_, _, _) => unreachable!(),
    }
}

/// The children are evened out.
fn evening(family: Family, left: Page, right: Page) -> Compression
    requires { MayEven left right }
    ensures { Decides family left right result }
{
    let Family { at, parent, key } = family;
    let Evened {
        left,
        right,
        separator,
        gains,
    } = evened(left, right);
    match relisted(parent, key, separator, at.right) {
        Some(parent) => Compression::PuttingFirst(Puts {
            at,
            gains,
            left,
            parent,
            right,
            decision: Decision::Evened,
        }),
        None => Compression::OpeningRight(at, Decision::Lost),
    }
}

/// At the right child.
fn decided(family: Family, left: Page, right: Page) -> Compression
    ensures { Decides family left right result }
{
    let left_count = count_of(&left);
    let right_count = count_of(&right);
    if !are_neighbours(&left, &right) {
        Compression::OpeningRight(family.at, Decision::Lost)
    } else if left_count + right_count <= MOST_PAIRS {
        Compression::PuttingFirst(merging(family, left, right))
    } else if left_count < ENOUGH_PAIRS || right_count < ENOUGH_PAIRS {
        evening(family, left, right)
    } else {
        Compression::OpeningRight(family.at, Decision::Enough)
    }
}

/// The put of one of the two children.
fn put_of(side: Side, puts: &Puts) -> Action
    ensures { result ≡ put_of side puts.now }
{
    match side {
        Side::Left => Action::Put(puts.at.left, puts.left.copied()),
        Side::Right => Action::Put(puts.at.right, puts.right.copied()),
    }
}

/// The other one of two children.
fn other(side: Side) -> Side
    ensures { result ≡ other side }
{
    match side {
        Side::Left => Side::Right,
        Side::Right => Side::Left,
    }
}

/// When all is put.
fn after_puts(at: Siblings, decision: Decision) -> Compression
    ensures { result ≡ after_puts at decision }
{
    match decision {
        Decision::Merged(_) => Compression::Retiring(at, decision),
        _ => Compression::OpeningRight(at, decision),
    }
}

/// After a missed latch of the left child.
fn missed_left(waits: bool, family: Family) -> Compression
    ensures { result ≡ missed_left waits family }
{
    if waits {
        Compression::LatchingLeft(family)
    } else {
        Compression::OpeningParent(family.at.parent, Decision::Lost)
    }
}

/// After a missed latch of the right child.
fn missed_right(waits: bool, family: Family, left: Page) -> Compression
    ensures { result ≡ missed_right waits family left }
{
    if waits {
        Compression::LatchingRight(family, left)
    } else {
        Compression::OpeningLeft(family.at, Decision::Lost)
    }
}

impl Compression {
    /// The next action.
    pub fn next(&self) -> Action
        ensures { result ≡ compression_next self.now }
    {
        match self {
            Compression::LatchingLeft(family) => Action::Latch(family.at.left),
            Compression::LatchedLeft(family) => Action::Get(family.at.left),
            Compression::LatchingRight(family, _) => Action::Latch(family.at.right),
            Compression::LatchedRight(family, _) => Action::Get(family.at.right),
            Compression::PuttingFirst(puts) => put_of(puts.gains, puts),
            Compression::PuttingParent(puts) => Action::Put(puts.at.parent, puts.parent.copied()),
            Compression::PuttingLast(puts) => put_of(other(puts.gains), puts),
            Compression::Retiring(at, _) => Action::Retire(at.right),
            Compression::OpeningRight(at, _) => Action::Open(at.right),
            Compression::OpeningLeft(at, _) => Action::Open(at.left),
            Compression::OpeningParent(at, _) => Action::Open(*at),
        }
    }

    /// How many pages and frames are reserved before it.
    pub fn needs(&self) -> Option<(u32, u32)>
        ensures { result ≡ compression_needs self.now }
    {
        match self {
            Compression::PuttingFirst(_) => Some((0, 3)),
            _ => None,
        }
    }

    /// What becomes of the compression, by what its action gave. Whether it waits says what it does after a missed latch.
    pub fn took(self, waits: bool, seen: Seen) -> Compressed
        requires { Gives (compression_next self) (compression_needs self) seen }
        ensures { Compresses waits self seen result }
    {
        match (self, seen) {
            (Compression::LatchingLeft(family), Seen::Done) => {
                Compressed::On(Compression::LatchedLeft(family))
            }
            (Compression::LatchingLeft(family), Seen::Missed) => {
                Compressed::On(missed_left(waits, family))
            }
            (Compression::LatchedLeft(family), Seen::Words(left)) => {
                Compressed::On(linked(family, left))
            }
            (Compression::LatchingRight(family, left), Seen::Done) => {
                Compressed::On(Compression::LatchedRight(family, left))
            }
            (Compression::LatchingRight(family, left), Seen::Missed) => {
                Compressed::On(missed_right(waits, family, left))
            }
            (Compression::LatchedRight(family, left), Seen::Words(right)) => {
                Compressed::On(decided(family, left, right))
            }
            (Compression::PuttingFirst(puts), Seen::Done) => {
                Compressed::On(Compression::PuttingParent(puts))
            }
            (Compression::PuttingFirst(puts), Seen::Refused) => {
                Compressed::On(Compression::OpeningRight(puts.at, Decision::Refused))
            }
            (Compression::PuttingParent(puts), Seen::Done) => {
                Compressed::On(Compression::PuttingLast(puts))
            }
            (Compression::PuttingLast(puts), Seen::Done) => {
                Compressed::On(after_puts(puts.at, puts.decision))
            }
            (Compression::Retiring(at, decision), Seen::Done) => {
                Compressed::On(Compression::OpeningLeft(at, decision))
            }
            (Compression::OpeningRight(at, decision), Seen::Done) => {
                Compressed::On(Compression::OpeningLeft(at, decision))
            }
            (Compression::OpeningLeft(at, decision), Seen::Done) => {
                Compressed::On(Compression::OpeningParent(at.parent, decision))
            }
            (Compression::OpeningParent(_, decision), Seen::Done) => Compressed::Over(decision),
            _ => unreachable!(),
        }
    }
}
