//! A write that posts what it splits: an insertion or a put.

ghost use Rattle.std.specs.Prelude.{◌≡◌};
ghost use Rattle.bl_proc_writes.specs.Placings.{write_of};
ghost use Rattle.bl_proc_writes.specs.Stands.{Stands, Stands-prop};

use crate::paths::Path;
use crate::post::{Post, PostReply};
use crate::writing::{Write, WriteReply};
use bl_model::KeyWrite;
use bl_proc_steps::Level;

/// A write that leaves its value at the key: only these split a leaf.
#[derive(Clone, Copy, Debug, PartialEq, Eq)]
pub enum Placing {
    /// Where the key has no value.
    Insert(u64),
    /// In place of what is there.
    Put(u64),
}

impl Placing {
    /// The write of the key that it is.
    pub fn write(self) -> KeyWrite
        ensures { result ≡ write_of self }
    {
        match self {
            Placing::Insert(value) => KeyWrite::Insert(value),
            Placing::Put(value) => KeyWrite::Put(value),
        }
    }
}

/// The insertion or the put of one key, which remembers by which pages it has come down. What it splits it posts itself,
/// level by level, each time from the page that it remembers there.
#[derive(Drop)]
pub struct InsertPost {
    pub key: u64,
    pub placing: Placing,
    pub path: Path,
    pub stage: ClimbStage,
    ghost stands: { Stands key placing path stage } by { Stands-prop key placing path stage },
}

/// How far such a write has come.
#[derive(Drop)]
pub enum ClimbStage {
    /// It writes its leaf.
    Writing(Write),
    /// It lists the upper half of a page that it has split.
    Posting(Post),
    /// It is to end.
    Ending(Climbed),
    /// It has ended.
    Over(Climbed),
}

/// What became of such a write.
#[derive(Clone, Copy)]
pub enum Climbed {
    /// Its leaf was not split: this became of the write.
    Unsplit(WriteReply),
    /// The pair has entered, and this became of its last post.
    Posted {
        /// The level of the parent.
        level: Level,
        /// The key that was to be listed there.
        key: u64,
        reply: PostReply,
    },
}
