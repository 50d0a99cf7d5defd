//! The way of a writer to the page of its level that covers its key.

ghost use Rattle.std.specs.Prelude.{◌≡◌, ◌<◌, ℕ, None};
ghost use Rattle.bl_page.specs.declared.page.Page.{Page};
ghost use Rattle.bl_page.specs.Nodes.{node_of, roots_of};
ghost use Rattle.bl_proc_steps.specs.declared.acts.Seen.TheVariants as seen;
ghost use Rattle.bl_proc_steps.specs.declared.approach.Approach.TheVariants as approach;
ghost use Rattle.bl_proc_steps.specs.declared.approach.Approached.TheVariants as approached;
ghost use Rattle.bl_proc_steps.specs.Given.{Gives};
ghost use Rattle.bl_proc_routes.specs.Routes.{Leads};
ghost use Rattle.bl_proc_steps.specs.Approaches.{approach_next, Enters, Turns, Quits, Approaches, HasLevel, Comes};

use crate::acts::{Action, Seen};
use bl_page::{Inner, Page};
use bl_proc_routes::{Step, level_of, levels_of, way_from};

/// How far a writer has come on its way. It holds a page only where it says so.
#[derive(Clone, Copy)]
pub enum Approach {
    /// It is to get the anchor.
    Start,
    /// It is to get that page, without a latch: the page is above its level, or was latched by another.
    At(u32),
    /// It is to latch that page of its level.
    Latching(u32),
    /// It holds that page, and is to get it.
    Latched(u32),
    /// It holds that page, which does not cover its key, and is to open it. Then it latches the other page, or starts
    /// again where there is none.
    Leaving(u32, Option<u32>),
}

/// What became of an approach.
#[derive(Drop)]
pub enum Approached {
    /// It goes on.
    On(Approach),
    /// It is there: it holds the page with that number, which is as it got it and covers the key.
    Here(u32, Page),
}

/// What became of the way to a parent.
#[derive(Drop)]
pub enum Came {
    /// The tree has only that many levels, so it has no such parent.
    NoLevel(u32),
    /// It goes on.
    On(Approach),
    /// It is there: it holds the parent with that number, which is as it got it and covers the key.
    ToParent(u32, Inner),
}

/// From the anchor.
fn entered(level: u32, anchor: &Page) -> Approach
    ensures { Enters level (roots_of anchor.now) result }
{
    match anchor {
        Page::Anchor(anchor) => {
            let level = level as usize;
            let leftmost = anchor.leftmost.as_slice();
            let top = leftmost.len() - 1;
            if top < level {
                Approach::Start
            } else if top == level {
                Approach::Latching(leftmost[level])
            } else {
                Approach::At(leftmost[top])
            }
        }
        _ => Approach::Start,
    }
}

/// From a page that was got without a latch.
fn turned_by(level: u32, key: u64, at: u32, page: &Page) -> Approach
    ensures { Approaches level key (approach.At at) (seen.Words page.now) (approached.On result) }
{
    approach_by(way_from(page, key, level), level, level_of(page), at)
}

/// From a page that is held.
fn looked(level: u32, key: u64, at: u32, page: Page) -> Approached
    ensures { Approaches level key (approach.Latched at) (seen.Words page) result }
{
    match way_from(&page, key, level) {
        Step::Here => Approached::Here(at, page),
        Step::Right(next) => Approached::On(Approach::Leaving(at, Some(next))),
        Step::Again | Step::Down(_) => Approached::On(Approach::Leaving(at, None)),
    }
}

/// By the page that was got.
fn got(approach: Approach, level: u32, key: u64, page: Page) -> Approached
    requires { Gives (approach_next approach) None (seen.Words page) }
    ensures { Approaches level key approach (seen.Words page) result }
{
    match approach {
        Approach::Start => Approached::On(entered(level, &page)),
        Approach::At(at) => Approached::On(turned_by(level, key, at, &page)),
        Approach::Latched(at) => looked(level, key, at, page),
        Approach::Latching(_) | Approach::Leaving(_, _) => unreachable!(),
    }
}

/// After a latch, or an opening.
fn done(approach: Approach) -> Approach
    requires { Gives (approach_next approach) None seen.Done }
    ensures { (level : ℕ) → (key : ℕ) → Approaches level key approach seen.Done (approached.On result) }
{
    match approach {
        Approach::Latching(at) => Approach::Latched(at),
        Approach::Leaving(_, Some(next)) => Approach::Latching(next),
        Approach::Leaving(_, None) => Approach::Start,
        _ => unreachable!(),
    }
}

/// After a latch that was missed.
fn missed(approach: Approach) -> Approach
    requires { Gives (approach_next approach) None seen.Missed }
    ensures { (level : ℕ) → (key : ℕ) → Approaches level key approach seen.Missed (approached.On result) }
{
    match approach {
        Approach::Latching(at) => Approach::At(at),
        _ => unreachable!(),
    }
}

/// From the anchor, to a parent.
fn began(level: u32, anchor: &Page) -> Came
    ensures { (key : ℕ) → Comes level key approach.Start (seen.Words anchor.now) result }
{
    let levels = levels_of(anchor);
    if levels <= level {
        Came::NoLevel(levels)
    } else {
        Came::On(entered(level, anchor))
    }
}

/// On the way to a parent, in a tree that has its level as far as the approach has seen.
fn neared(approach: Approach, level: u32, key: u64, seen: Seen) -> Came
    requires above_leaves { 0 < level }
    requires level { HasLevel level approach seen }
    requires given { Gives (approach_next approach) None seen }
    ensures { Comes level key approach seen result }
{
    match approach.took(level, key, seen) {
        Approached::On(approach) => Came::On(approach),
        Approached::Here(at, page) => match page {
            Page::Inner(parent) => Came::ToParent(at, parent),
            _ => unreachable!(),
        },
    }
}

/// How a writer of that level goes on by that way from the page `at`, which it has got without a latch, and which is of the level
/// `own`.
#[inline(always)]
pub fn approach_by(way: Step, level: u32, own: u32, at: u32) -> Approach
    requires { (c : Page) × (key : ℕ) × Leads c key level way × (own ≡ (node_of c).shape.level) }
    ensures { (c : Page) → own ≡ (node_of c).shape.level → Turns level at c way result }
{
    match way {
        Step::Again => Approach::Start,
        Step::Right(next) if own == level => Approach::Latching(next),
        Step::Right(next) => Approach::At(next),
        Step::Down(next) if own - 1 == level => Approach::Latching(next),
        Step::Down(next) => Approach::At(next),
        Step::Here => Approach::Latching(at),
    }
}

impl Approach {
    /// The next action.
    pub fn next(self) -> Action
        ensures { result ≡ approach_next self }
    {
        match self {
            Approach::Start => Action::Get(0),
            Approach::At(page) | Approach::Latched(page) => Action::Get(page),
            Approach::Latching(page) => Action::Latch(page),
            Approach::Leaving(page, _) => Action::Open(page),
        }
    }

    /// What becomes of the approach to the page of that level that covers the key, by what its action gave.
    pub fn took(self, level: u32, key: u64, seen: Seen) -> Approached
        requires { Gives (approach_next self) None seen }
        ensures { Approaches level key self seen result }
    {
        match seen {
            Seen::Words(page) => got(self, level, key, page),
            Seen::Done => Approached::On(done(self)),
            Seen::Missed => Approached::On(missed(self)),
            _ => unreachable!(),
        }
    }

    /// What becomes of the way to the parent of that level that covers the key, by what its action gave.
    pub fn came(self, level: u32, key: u64, seen: Seen) -> Came
        requires above_leaves { 0 < level }
        requires given { Gives (approach_next self) None seen }
        ensures { Comes level key self seen result }
    {
        match self {
            Approach::Start => match seen {
                Seen::Words(anchor) => began(level, &anchor),
                _ => unreachable!(),
            },
            Approach::At(_)
            | Approach::Latching(_)
            | Approach::Latched(_)
            | Approach::Leaving(_, _) => neared(self, level, key, seen),
        }
    }
}
