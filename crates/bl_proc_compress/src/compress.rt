//! The process that compresses two children of a parent.

ghost use Rattle.std.specs.Prelude.{◌≡◌, ◌≤◌, ◌<◌};

use crate::compression::Compression;
use bl_proc_steps::{Approach, Hint};

/// The compression of the children of a parent of that level, by a key that the parent covers.
#[derive(Drop)]
pub struct Compress {
    /// The level of the parent, 1 to 12.
    pub level: u32,
    pub key: u64,
    /// Whether it holds the parent, and tries again, where it misses the latch of a child. One that does not wait opens what it
    /// holds, and begins again.
    pub waits: bool,
    pub stage: CompressStage,
    ghost least: { 0 < level },
    ghost most: { level ≤ 12 },
}

/// How far it has come.
#[derive(Drop)]
pub enum CompressStage {
    /// It is to begin.
    New,
    /// It is on its way to the parent. At the start of it, it sees whether the tree has such a level.
    Coming(Approach),
    /// It holds the parent, and compresses two of its children.
    Compressing(Compression),
    /// It holds the parent with that number, which has one child, and is to open it.
    Staying(u32),
    /// It is to end.
    Ending(CompressReply),
    /// It has ended.
    Over(CompressReply),
}

/// What became of it.
#[derive(Clone, Copy)]
pub enum CompressReply {
    /// The two children are one now. There is a hint where the parent is thin now, or else the one child.
    Merged(Option<Hint>),
    /// They have been evened out.
    Evened,
    /// They have enough pairs.
    Enough,
    /// The parent has one child, or the tree has no such level.
    Alone,
    /// A page between the two is to be listed first.
    Unposted(Hint),
    /// There was no room, and all is as it was.
    NoRoom,
}
