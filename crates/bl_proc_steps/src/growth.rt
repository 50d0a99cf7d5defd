//! A new top level.

ghost use Rattle.std.specs.Prelude.{◌<◌, length};

use bl_page::{Anchor, Page};

/// The anchor of a tree that may have one level more.
#[derive(Drop)]
pub struct Rise {
    pub anchor: Anchor,
    ghost room: { length anchor.leftmost.items < 12 },
}

/// A new top level, with the page that was taken for it.
#[derive(Drop)]
pub struct Raising {
    /// The number of the new page.
    pub new: u32,
    /// The only page of the new level. It lists the leftmost page of the level below.
    pub top: Page,
    /// The anchor with the new level.
    pub anchor: Page,
}

/// How far a growth has come. From the latch of the anchor to its opening the process holds the anchor.
#[derive(Drop)]
pub enum Growth {
    /// It is to latch the anchor.
    Latching,
    /// It is to get the anchor again, as another process may have been faster.
    Latched,
    /// It is to take a page, for which two frames are reserved.
    Taking(Rise),
    /// It is to put the new page.
    PuttingTop(Raising),
    /// It is to put the anchor.
    PuttingAnchor(Raising),
    /// It is to open the new page, which has that number.
    OpeningTop(u32),
    /// It is to open the anchor, and there is the level now.
    OpeningGrown,
    /// It is to open the anchor, as there was no room.
    OpeningRefused,
}

/// What became of a step of a growth.
#[derive(Drop)]
pub enum Grew {
    /// It goes on.
    On(Growth),
    /// The anchor is open, and there is the level now.
    Grown,
    /// The anchor is open and as it was, as there was no room.
    Refused,
}
