//! The steps of a growth.

ghost use Rattle.std.specs.Prelude.{◌≡◌, ◌<◌, ◌-◌, [], ◌∷◌, ◌++◌, length, get_or};
ghost use Rattle.bl_page.specs.Pairs.{IsChild};
ghost use Rattle.bl_page.specs.Nodes.{roots_of};
ghost use Rattle.bl_proc_steps.specs.declared.acts.Seen.TheVariants as seen;
ghost use Rattle.bl_proc_steps.specs.declared.growth.Growth.TheVariants as growth;
ghost use Rattle.bl_proc_steps.specs.declared.growth.Grew.TheVariants as grew;
ghost use Rattle.bl_proc_steps.specs.Given.{Gives};
ghost use Rattle.bl_proc_steps.specs.Growths.{growth_next, growth_needs, IsTop, Raises, Grows};
ghost use Rattle.bl_page.specs.Tops.{IsAnchor};

use crate::acts::{Action, Seen};
use crate::growth::{Grew, Growth, Raising, Rise};
use arrayvec::ArrayVec;
use bl_model::limits::MOST_LEVELS;
use bl_page::{Anchor, Inner, Page, Pairs};

/// One pair, with the least key.
fn only_pair(child: u32) -> Pairs
    ensures { result.items ≡ (0, child) ∷ [] }
{
    let mut pairs = ArrayVec::new();
    pairs.push((0, child as u64));
    pairs
}

/// The first page of a level above those of the anchor.
fn top_above(anchor: &Anchor) -> Page
    requires { length anchor.now.leftmost.items < 12 }
    ensures { let leftmost = anchor.now.leftmost.items in IsTop (length leftmost) (get_or leftmost (length leftmost - 1) 0) result }
{
    let leftmost = anchor.leftmost.as_slice();
    let children = only_pair(leftmost[leftmost.len() - 1]);
    Page::Inner(Inner {
        level: leftmost.len() as u32,
        low: 0,
        high: 0,
        right: 0,
        children,
    })
}

/// The anchor with one level more.
fn anchor_with(anchor: Anchor, new: u32) -> Page
    requires room { length anchor.leftmost.items < 12 }
    requires child { IsChild new }
    ensures { IsAnchor (anchor.leftmost.items ++ new ∷ []) result }
{
    let mut leftmost = anchor.leftmost;
    leftmost.push(new);
    Page::Anchor(Anchor { leftmost })
}

/// A page was taken for the new level.
fn raised(rise: Rise, new: u32) -> Raising
    requires { IsChild new }
    ensures new_page { result.new ≡ new }
    ensures raises { Raises rise.anchor.leftmost.items new result.top result.anchor }
{
    let top = top_above(&rise.anchor);
    Raising {
        new,
        top,
        anchor: anchor_with(rise.anchor, new),
    }
}

/// The anchor is held: it grows if it still has that many levels.
fn looked(level: u32, page: Page) -> Growth
    requires { 0 < level }
    ensures { Grows level growth.Latched (seen.Words page) (grew.On result) }
{
    match page {
        Page::Anchor(anchor) => {
            let levels = anchor.leftmost.len();
            if levels == level as usize && levels < MOST_LEVELS {
                Growth::Taking(Rise { anchor })
            } else {
                Growth::OpeningGrown
            }
        }
        _ => Growth::OpeningGrown,
    }
}

impl Growth {
    /// The next action.
    pub fn next(&self) -> Action
        ensures { result ≡ growth_next self.now }
    {
        match self {
            Growth::Latching => Action::Latch(0),
            Growth::Latched => Action::Get(0),
            Growth::Taking(_) => Action::Take,
            Growth::PuttingTop(raising) => Action::Put(raising.new, raising.top.copied()),
            Growth::PuttingAnchor(raising) => Action::Put(0, raising.anchor.copied()),
            Growth::OpeningTop(new) => Action::Open(*new),
            Growth::OpeningGrown | Growth::OpeningRefused => Action::Open(0),
        }
    }

    /// How many pages and frames are reserved before it.
    pub fn needs(&self) -> Option<(u32, u32)>
        ensures { result ≡ growth_needs self.now }
    {
        match self {
            Growth::Taking(_) => Some((1, 2)),
            _ => None,
        }
    }

    /// What becomes of the growth of a tree that has that many levels, by what its action gave.
    pub fn took(self, level: u32, seen: Seen) -> Grew
        requires least { 0 < level }
        requires given { Gives (growth_next self) (growth_needs self) seen }
        ensures { Grows level self seen result }
    {
        match (self, seen) {
            (Growth::Latching, Seen::Done) => Grew::On(Growth::Latched),
            (Growth::Latching, Seen::Missed) => Grew::On(Growth::Latching),
            (Growth::Latched, Seen::Words(page)) => Grew::On(looked(level, page)),
            (Growth::Taking(rise), Seen::Took(new)) => {
                Grew::On(Growth::PuttingTop(raised(rise, new)))
            }
            (Growth::Taking(_), Seen::Refused) => Grew::On(Growth::OpeningRefused),
            (Growth::PuttingTop(raising), Seen::Done) => {
                Grew::On(Growth::PuttingAnchor(raising))
            }
            (Growth::PuttingAnchor(raising), Seen::Done) => {
                Grew::On(Growth::OpeningTop(raising.new))
            }
            (Growth::OpeningTop(_), Seen::Done) => Grew::On(Growth::OpeningGrown),
            (Growth::OpeningGrown, Seen::Done) => Grew::Grown,
            (Growth::OpeningRefused, Seen::Done) => Grew::Refused,
            _ => unreachable!(),
        }
    }
}
