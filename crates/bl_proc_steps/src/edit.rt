//! The change of one pair of a page that a process holds and has got.

ghost use Rattle.std.specs.Prelude.{◌≡◌, ◌≤◌, None, length};
ghost use Rattle.bl_model.specs.Rows.{map_of};
ghost use Rattle.bl_page.specs.Pages.{Covers};
ghost use Rattle.bl_rearrange.specs.Rearranged.{MayHold, pairs_of};
ghost use Rattle.bl_proc_steps.specs.Props.{Covers-prop, MayHold-prop};

use bl_page::Page;

/// A full page that a pair is to enter.
#[derive(Drop)]
pub struct Full {
    /// The page's number.
    pub at: u32,
    /// The key of the pair.
    pub key: u64,
    /// What is to stand with the key.
    pub word: u64,
    pub page: Page,
    ghost covers: { Covers page key } by { Covers-prop page key },
    ghost absent: { map_of (pairs_of page) key ≡ None },
    ghost fits: { MayHold page word } by { MayHold-prop page word },
    ghost full: { 14 ≤ length (pairs_of page) },
}

/// A page that is split, with a pair more.
#[derive(Drop)]
pub struct Splitting {
    /// The page's number.
    pub at: u32,
    /// The number of the page that was taken for the upper half.
    pub new: u32,
    /// The lower half, which links to the new page.
    pub left: Page,
    /// The upper half.
    pub right: Page,
    /// The low of the upper half.
    pub separator: u64,
}

/// What became of a change.
#[derive(Clone, Copy)]
pub enum Outcome {
    /// The page has changed.
    Edited,
    /// The page has changed and was split at that key.
    SplitAt(u64),
    /// There was no room, and the page is as it was.
    Refused,
}

/// How far a change has come. The process holds the page until the end, and between the take of a new page and its
/// opening also that one.
#[derive(Drop)]
pub enum Edit {
    /// It is to put that page, for which a frame is reserved.
    Putting(u32, Page),
    /// It is to take a page, for which two frames are reserved.
    Taking(Full),
    /// It is to put the upper half.
    PuttingNew(Splitting),
    /// It is to put the lower half.
    PuttingOld(Splitting),
    /// It is to open the new page.
    OpeningNew {
        /// The number of the old page.
        at: u32,
        /// The number of the new page.
        new: u32,
        /// The low of the new page.
        separator: u64,
    },
    /// It is to open the page, whatever became of the change.
    Opening(u32, Outcome),
}

/// What became of a step of a change.
#[derive(Drop)]
pub enum Edited {
    /// It goes on.
    On(Edit),
    /// It is over, and the page is open.
    Over(Outcome),
}
