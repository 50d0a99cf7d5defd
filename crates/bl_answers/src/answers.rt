//! What a process answers.

ghost use Rattle.std.specs.Prelude.{◌≡◌, ◌<◌, ◌≤◌};

use bl_model::Reply;
use std::marker::Model;

/// The level of a page above the leaves, or the one that a tree would have with one level more: 1 to 12.
#[derive(Clone, Copy, Debug, PartialEq, Eq)]
pub struct Level {
    number: u32,
}

impl Model for Level {
    ghost use Rattle.std.specs.Prelude.{ℕ, ◌<◌, ◌≤◌};

    ghost Value = { ℕ };

    ghost view = { λ l. l.number };

    ghost invariant = { λ l. (0 < l.number) × (l.number ≤ 12) };

    ghost inverse = { λ n. record { number = n } };
}

impl Level {
    /// The level with that number.
    pub fn new(number: u32) -> Level
        requires least { 0 < number }
        requires most { number ≤ 12 }
        ensures { result ≡ number }
    {
        Level { number }
    }

    /// Its number, 1 to 12.
    pub fn number(self) -> u32
        ensures same { result ≡ self }
        ensures least { 0 < result }
        ensures most { result ≤ 12 }
    {
        self.number
    }
}

/// Work that a process leaves for another one. It names a level and a key and never a page, so that it does no harm when
/// it comes late, twice or not at all.
#[derive(Clone, Copy, Debug, PartialEq, Eq)]
pub enum Hint {
    /// The page whose low is the key may have no parent that lists it.
    Post {
        /// The level of the parent.
        level: Level,
        /// The low of the page, by which it is to be listed.
        key: u64,
    },
    /// The page that covers the key has few pairs.
    Thin {
        /// The level of its parent.
        level: Level,
        /// A key that the page covers.
        key: u64,
    },
}

impl Hint {
    ghost use Rattle.std.specs.Prelude.{◌≡◌, ◌<◌, ◌≤◌};
    ghost use Rattle.bl_answers.specs.Hints.{level_of, key_of};

    /// The number of the level that it names, 1 to 12.
    pub fn level(&self) -> u32
        ensures named { result ≡ level_of self.now }
        ensures least { 0 < result }
        ensures most { result ≤ 12 }
    {
        match self {
            Hint::Post { level, .. } | Hint::Thin { level, .. } => level.number(),
        }
    }

    /// The key that it names.
    pub fn key(&self) -> u64
        ensures { result ≡ key_of self.now }
    {
        match self {
            Hint::Post { key, .. } | Hint::Thin { key, .. } => *key,
        }
    }
}

/// What became of a post.
#[derive(Clone, Copy, Debug, PartialEq, Eq)]
pub enum Posted {
    /// The parent lists the key now, with the child whose low it is.
    Done,
    /// The parent listed the key.
    Already,
    /// There is nothing to list: no page of the level below has the key as its low, or the tree has no such level.
    Stale,
    /// There was no room, and the parent is as it was.
    NoRoom,
    /// The tree has all 12 levels, and would need one more.
    TooTall,
}

/// What became of a compression.
#[derive(Clone, Copy, Debug, PartialEq, Eq)]
pub enum Squeezed {
    /// The left child has taken all of the right one, which is gone.
    Merged,
    /// The two children have been evened out.
    Evened,
    /// The two children have enough pairs.
    Enough,
    /// The parent has one child, or the tree has no such level.
    Alone,
    /// A page between the two children is to be listed first.
    Unposted,
    /// There was no room, and all is as it was.
    NoRoom,
}

/// What became of a page that was to be released.
#[derive(Clone, Copy, Debug, PartialEq, Eq)]
pub enum Reclaimed {
    /// It is released.
    Released,
    /// It was not retired, or another process may still read it, or it was released before.
    Kept,
}

/// What became of a lowering.
#[derive(Clone, Copy, Debug, PartialEq, Eq)]
pub enum Lowered {
    /// The top level is gone.
    Lowered,
    /// The tree needs its top level, or has no other.
    Needed,
    /// There was no room, and all is as it was.
    NoRoom,
}

/// The answer of a process, by its kind.
#[derive(Debug, PartialEq, Eq, Drop)]
pub enum Answer {
    /// The reply to an operation on the map.
    Op(Reply, Option<Hint>),
    /// What became of a post.
    Post(Posted, Option<Hint>),
    /// What became of a compression.
    Compress(Squeezed, Option<Hint>),
    /// What became of a page that was to be released.
    Reclaim(Reclaimed),
    /// What became of a top level that was to be taken away.
    Lower(Lowered),
    /// The reply to an insertion, what became of its last post, if it has split anything, and that post, if it met no room.
    InsertPost(Reply, Option<Posted>, Option<Hint>),
}
