//! The steps of a lowering.

ghost use Rattle.std.specs.Prelude.{◌≡◌, ◌<◌, ◌-◌, ◌↔◌, length, take, IsTrue};
ghost use Rattle.bl_proc_steps.specs.declared.acts.Seen.TheVariants as seen;
ghost use Rattle.bl_proc_steps.specs.declared.lowering.Lowering.TheVariants as lowering;
ghost use Rattle.bl_proc_steps.specs.declared.lowering.Sank.TheVariants as sank;
ghost use Rattle.bl_proc_steps.specs.Given.{Gives};
ghost use Rattle.bl_page.specs.Tops.{IsAnchor, IsSole, IsFallen};
ghost use Rattle.bl_proc_steps.specs.Lowerings.{lowering_next, lowering_needs, Lowers};

use crate::acts::{Action, Seen};
use crate::lowering::{Lowering, Sank, Sinking, Summit};
use bl_answers::Lowered;
use bl_page::{Anchor, Dead, Page};
use bl_proc_routes::levels_of;

/// The anchor with one level less.
fn anchor_without(anchor: Anchor) -> Page
    requires { 1 < length anchor.leftmost.items }
    ensures { IsAnchor (take (length anchor.leftmost.items - 1) anchor.leftmost.items) result }
{
    let mut leftmost = anchor.leftmost;
    leftmost.pop();
    Page::Anchor(Anchor { leftmost })
}

/// What is put in place of a top page of that level.
fn fallen(level: u32) -> Page
    requires { level < 12 }
    ensures { IsFallen level result }
{
    Page::Dead(Dead {
        level,
        low: 0,
        right: 0,
    })
}

/// The page has one pair, no bound and no link.
fn is_sole(page: &Page) -> bool
    ensures { IsTrue result ↔ IsSole page.now }
{
    match page {
        Page::Inner(inner) => { inner.children.len() == 1 && inner.high == 0 && inner.right == 0 }
        _ => false,
    }
}

/// The anchor was got without a latch.
fn looked(anchor: &Page) -> Sank
    ensures { Lowers lowering.Looking (seen.Words anchor.now) result }
{
    if levels_of(anchor) == 1 {
        Sank::Over(Lowered::Needed)
    } else {
        Sank::On(Lowering::LatchingAnchor)
    }
}

/// The anchor is held: the top level may go if it is not the only one.
fn topped(page: Page) -> Lowering
    ensures { Lowers lowering.LatchedAnchor (seen.Words page) (sank.On result) }
{
    match page {
        Page::Anchor(anchor) => {
            let levels = anchor.leftmost.len();
            if levels > 1 {
                let top = anchor.leftmost.as_slice()[levels - 1];
                Lowering::LatchingTop(Summit { anchor, top })
            } else {
                Lowering::OpeningAnchor(Lowered::Needed)
            }
        }
        _ => Lowering::OpeningAnchor(Lowered::Needed),
    }
}

/// The top page is held too.
fn reached(summit: Summit, page: &Page) -> Lowering
    ensures { Lowers (lowering.LatchedTop summit) (seen.Words page.now) (sank.On result) }
{
    let top = summit.top;
    if !is_sole(page) {
        return Lowering::OpeningTop(top, Lowered::Needed);
    }
    let level = summit.anchor.leftmost.len() as u32 - 1;
    Lowering::PuttingAnchor(Sinking {
        top,
        anchor: anchor_without(summit.anchor),
        dead: fallen(level),
    })
}

impl Lowering {
    /// The next action.
    pub fn next(&self) -> Action
        ensures { result ≡ lowering_next self.now }
    {
        match self {
            Lowering::Looking | Lowering::LatchedAnchor => Action::Get(0),
            Lowering::LatchingAnchor => Action::Latch(0),
            Lowering::LatchingTop(summit) => Action::Latch(summit.top),
            Lowering::LatchedTop(summit) => Action::Get(summit.top),
            Lowering::PuttingAnchor(sinking) => Action::Put(0, sinking.anchor.copied()),
            Lowering::PuttingDead(sinking) => { Action::Put(sinking.top, sinking.dead.copied()) }
            Lowering::Retiring(top) => Action::Retire(*top),
            Lowering::OpeningTop(top, _) => Action::Open(*top),
            Lowering::OpeningAnchor(_) => Action::Open(0),
        }
    }

    /// How many pages and frames are reserved before it.
    pub fn needs(&self) -> Option<(u32, u32)>
        ensures { result ≡ lowering_needs self.now }
    {
        match self {
            Lowering::PuttingAnchor(_) => Some((0, 2)),
            _ => None,
        }
    }

    /// What becomes of it, by what its action gave.
    pub fn took(self, seen: Seen) -> Sank
        requires given { Gives (lowering_next self) (lowering_needs self) seen }
        ensures { Lowers self seen result }
    {
        match (self, seen) {
            (Lowering::Looking, Seen::Words(page)) => looked(&page),
            (Lowering::LatchingAnchor, Seen::Done) => Sank::On(Lowering::LatchedAnchor),
            (Lowering::LatchingAnchor, Seen::Missed) => Sank::On(Lowering::LatchingAnchor),
            (Lowering::LatchedAnchor, Seen::Words(page)) => Sank::On(topped(page)),
            (Lowering::LatchingTop(summit), Seen::Done) => {
                Sank::On(Lowering::LatchedTop(summit))
            }
            (Lowering::LatchingTop(summit), Seen::Missed) => {
                Sank::On(Lowering::LatchingTop(summit))
            }
            (Lowering::LatchedTop(summit), Seen::Words(page)) => {
                Sank::On(reached(summit, &page))
            }
            (Lowering::PuttingAnchor(sinking), Seen::Done) => {
                Sank::On(Lowering::PuttingDead(sinking))
            }
            (Lowering::PuttingAnchor(sinking), Seen::Refused) => {
                Sank::On(Lowering::OpeningTop(sinking.top, Lowered::NoRoom))
            }
            (Lowering::PuttingDead(sinking), Seen::Done) => {
                Sank::On(Lowering::Retiring(sinking.top))
            }
            (Lowering::Retiring(_), Seen::Done) => {
                Sank::On(Lowering::OpeningAnchor(Lowered::Lowered))
            }
            (Lowering::OpeningTop(_, what), Seen::Done) => {
                Sank::On(Lowering::OpeningAnchor(what))
            }
            (Lowering::OpeningAnchor(what), Seen::Done) => Sank::Over(what),
            _ => unreachable!(),
        }
    }
}
