//! What is asked of a map, and what it answers.

use crate::limits::MOST_PAIRS;
use arrayvec::ArrayVec;

/// An operation on the map. Every key and every value is allowed.
#[derive(Clone, Copy, Debug, PartialEq, Eq)]
pub enum Op {
    /// Looks a key up.
    Find(u64),
    /// Puts a value at a key that has none; a value that is there stays.
    Insert(u64, u64),
    /// Puts a value at a key, in place of what is there.
    Put(u64, u64),
    /// Takes a key and its value away.
    Delete(u64),
    /// Puts the third number at a key in place of the second, where the key has that.
    Change(u64, u64, u64),
    /// Lists some of the pairs, from a key on.
    Part(u64),
    /// Lists some of the pairs, from a key on downwards.
    PartDown(u64),
}

/// What the map answers.
#[derive(Clone, Debug, PartialEq, Eq, Drop)]
pub enum Reply {
    /// The value at the key of a `Find`.
    Found(u64),
    /// The key of a `Find`, a `Delete` or a `Change` isn't there.
    Absent,
    /// The pair of an `Insert` or a `Put`, whose key wasn't there, is there now.
    Inserted,
    /// The key of an `Insert` was there with this value, and still is.
    Present(u64),
    /// The key of a `Put` had this value, and has the new one now.
    Replaced(u64),
    /// The key of a `Delete` was there with this value, and isn't any more.
    Deleted(u64),
    /// The key of a `Change` had the old value, and has the new one now.
    Changed,
    /// The key of a `Change` was there with this value, which is not the old one, and still is.
    Differs(u64),
    /// The pairs of a `Part` in rising order of their keys, or those of a `PartDown` in falling order, and where the next
    /// part begins.
    Rows(ArrayVec<(u64, u64), MOST_PAIRS>, Next),
    /// There was no room for a change, and the map is as it was.
    NoRoom,
}

/// How far a part went.
#[derive(Clone, Copy, Debug, PartialEq, Eq)]
pub enum Next {
    /// Up to this key, with which the next part begins, and which is not among its rows. It is greater than the key that
    /// the part began with, or less, where it goes downwards.
    More(u64),
    /// To the end of the map.
    End,
}

/// What a search or a write of one key answers. It stands for a reply of the map, and has no room for rows, so that it is
/// small: only parts have rows.
#[derive(Clone, Copy, Debug, PartialEq, Eq)]
pub enum KeyReply {
    /// The value at the key of a search.
    Found(u64),
    /// The key of a search, a deletion or a change isn't there.
    Absent,
    /// The pair of an insertion or a put, whose key wasn't there, is there now.
    Inserted,
    /// The key of an insertion was there with this value, and still is.
    Present(u64),
    /// The key of a put had this value, and has the new one now.
    Replaced(u64),
    /// The key of a deletion was there with this value, and isn't any more.
    Deleted(u64),
    /// The key of a change had the old value, and has the new one now.
    Changed,
    /// The key of a change was there with this value, which is not the old one, and still is.
    Differs(u64),
    /// There was no room for a change, and the map is as it was.
    NoRoom,
}

impl KeyReply {
    ghost use Rattle.std.specs.Prelude.{◌≡◌};
    ghost use Rattle.bl_model.specs.Replies.{reply_of};

    /// The reply of the map that it stands for.
    pub fn reply(self) -> Reply
        ensures { result ≡ reply_of self }
    {
        match self {
            KeyReply::Found(value) => Reply::Found(value),
            KeyReply::Absent => Reply::Absent,
            KeyReply::Inserted => Reply::Inserted,
            KeyReply::Present(value) => Reply::Present(value),
            KeyReply::Replaced(value) => Reply::Replaced(value),
            KeyReply::Deleted(value) => Reply::Deleted(value),
            KeyReply::Changed => Reply::Changed,
            KeyReply::Differs(value) => Reply::Differs(value),
            KeyReply::NoRoom => Reply::NoRoom,
        }
    }
}

/// One answered operation of a history.
#[derive(Clone, Debug, PartialEq, Eq, Drop)]
pub struct Entry {
    /// The number of the pass that asked, from 0.
    pub pass: u32,
    pub op: Op,
    pub reply: Reply,
}
