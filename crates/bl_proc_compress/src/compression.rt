//! The compression of two neighbouring children of a parent that a process holds and has got.

use bl_page::Page;
use bl_proc_steps::Hint;
use bl_rearrange::{Family, Siblings, Side};

/// What a compression is to put: first the child that gains, then the parent, and last the child that loses.
#[derive(Drop)]
pub struct Puts {
    /// The numbers of the three.
    pub at: Siblings,
    /// The child that gains.
    pub gains: Side,
    pub left: Page,
    pub parent: Page,
    pub right: Page,
    /// What becomes of the compression by these puts.
    pub decision: Decision,
}

/// What became of a compression.
#[derive(Clone, Copy)]
pub enum Decision {
    /// The left child has taken all of the right one, which is retired. There is a hint where the parent is thin now, or
    /// else the left child.
    Merged(Option<Hint>),
    /// The children have been evened out.
    Evened,
    /// The children have enough pairs.
    Enough,
    /// The left child does not link to the right one: a page between them is to be listed first.
    Unposted(Hint),
    /// There was no room, and all is as it was.
    Refused,
    /// What was got is not what the parent lists, and all is as it was.
    Lost,
}

/// How far a compression has come. The process holds the parent until the end, and each child from its latch on.
#[derive(Drop)]
pub enum Compression {
    /// It is to latch the left child.
    LatchingLeft(Family),
    /// It is to get the left child.
    LatchedLeft(Family),
    /// It has got the left child, and is to latch the right one.
    LatchingRight(Family, Page),
    /// It has got the left child, and is to get the right one.
    LatchedRight(Family, Page),
    /// It is to put the child that gains, for which three frames are reserved.
    PuttingFirst(Puts),
    /// It is to put the parent.
    PuttingParent(Puts),
    /// It is to put the child that loses.
    PuttingLast(Puts),
    /// It is to retire the right child.
    Retiring(Siblings, Decision),
    /// It is to open the right child.
    OpeningRight(Siblings, Decision),
    /// It is to open the left child.
    OpeningLeft(Siblings, Decision),
    /// It is to open the parent.
    OpeningParent(u32, Decision),
}

/// What became of a step of a compression.
#[derive(Drop)]
pub enum Compressed {
    /// It goes on.
    On(Compression),
    /// It is over, and the process holds none of the three.
    Over(Decision),
}
