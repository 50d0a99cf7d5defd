//! What a write of one key does, by what the key has.

ghost use Rattle.std.specs.Prelude.{◌≡◌, MatchOption};
ghost use Rattle.bl_model.specs.Writes.{write_op, IsRead, decided, IsDecided};

use crate::operation::{KeyReply, Op};

/// An operation on one key that may change what the key has.
#[derive(Clone, Copy, Debug, PartialEq, Eq)]
pub enum KeyWrite {
    /// Enters this value, where the key has none.
    Insert(u64),
    /// Puts this value, in place of what there is.
    Put(u64),
    /// Takes the key and its value away.
    Delete,
    /// Puts the second value in place of the first, where the key has that.
    Change(u64, u64),
}

/// What a write does with the pair of its key.
#[derive(Clone, Copy, Debug, PartialEq, Eq)]
pub enum Effect {
    /// Nothing: what there is stays.
    Keep,
    /// The key, which has no value, gets this one.
    Enter(u64),
    /// The key and its value go.
    Remove,
    /// The key, which has a value, gets this one in its place.
    Replace(u64),
}

/// What a write does, and what it answers once that is done.
#[derive(Clone, Copy, Debug, PartialEq, Eq)]
pub struct Decided {
    pub effect: Effect,
    pub reply: KeyReply,
}

impl Op {
    /// The key and the write of it, if the operation is one.
    pub fn write(&self) -> Option<(u64, KeyWrite)>
        ensures { MatchOption result (IsRead self.now) (λ t. write_op t.0 t.1 ≡ self.now) }
    {
        match *self {
            Op::Insert(key, value) => Some((key, KeyWrite::Insert(value))),
            Op::Put(key, value) => Some((key, KeyWrite::Put(value))),
            Op::Delete(key) => Some((key, KeyWrite::Delete)),
            Op::Change(key, old, new) => Some((key, KeyWrite::Change(old, new))),
            Op::Find(_) | Op::Part(_) | Op::PartDown(_) => None,
        }
    }
}

/// What a write does and answers where its key has that value, or none.
pub fn decide(write: KeyWrite, there: Option<u64>) -> Decided
    ensures is { result ≡ decided write there }
    ensures decided { IsDecided write there result }
{
    let (effect, reply) = match (write, there) {
        (KeyWrite::Insert(value), None) => (Effect::Enter(value), KeyReply::Inserted),
        (KeyWrite::Insert(_), Some(value)) => (Effect::Keep, KeyReply::Present(value)),
        (KeyWrite::Put(value), None) => (Effect::Enter(value), KeyReply::Inserted),
        (KeyWrite::Put(value), Some(old)) => (Effect::Replace(value), KeyReply::Replaced(old)),
        (KeyWrite::Delete, None) => (Effect::Keep, KeyReply::Absent),
        (KeyWrite::Delete, Some(value)) => (Effect::Remove, KeyReply::Deleted(value)),
        (KeyWrite::Change(_, _), None) => (Effect::Keep, KeyReply::Absent),
        (KeyWrite::Change(old, new), Some(value)) => {
            if value == old {
                (Effect::Replace(new), KeyReply::Changed)
            } else {
                (Effect::Keep, KeyReply::Differs(value))
            }
        }
    };
    Decided { effect, reply }
}
