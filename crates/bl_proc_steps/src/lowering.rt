//! The fall of the height.

ghost use Rattle.std.specs.Prelude.{◌<◌, length};

use bl_answers::Lowered;
use bl_page::{Anchor, Page};

/// The anchor of a tree of more than one level.
#[derive(Drop)]
pub struct Summit {
    pub anchor: Anchor,
    /// The leftmost page of the top level.
    pub top: u32,
    ghost tall: { 1 < length anchor.leftmost.items },
}

/// A top level that is to be taken away.
#[derive(Drop)]
pub struct Sinking {
    /// The number of its only page.
    pub top: u32,
    /// The anchor without the level.
    pub anchor: Page,
    /// What is put in place of the page.
    pub dead: Page,
}

/// How far a lowering has come. From the latch of the anchor to its opening the process holds the anchor.
#[derive(Drop)]
pub enum Lowering {
    /// It is to get the anchor.
    Looking,
    /// It is to latch the anchor.
    LatchingAnchor,
    /// It is to get the anchor again, as another process may have been faster.
    LatchedAnchor,
    /// It is to latch the top page.
    LatchingTop(Summit),
    /// It is to get the top page.
    LatchedTop(Summit),
    /// It is to put the anchor, for which two frames are reserved.
    PuttingAnchor(Sinking),
    /// It is to put the dead page.
    PuttingDead(Sinking),
    /// It is to retire the page with that number.
    Retiring(u32),
    /// It is to open the top page, which stays.
    OpeningTop(u32, Lowered),
    /// It is to open the anchor.
    OpeningAnchor(Lowered),
}

/// What became of a step of a lowering.
#[derive(Drop)]
pub enum Sank {
    /// It goes on.
    On(Lowering),
    /// It is over, and the process holds nothing.
    Over(Lowered),
}
