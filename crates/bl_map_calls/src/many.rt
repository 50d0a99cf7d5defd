//! Many keys are written, one after another.

ghost use Rattle.std.specs.Prelude.{◌≡◌, ◌<◌, ◌≤◌, ℕ, length, take};
ghost use Rattle.bl_model.specs.declared.deciding.KeyWrite.{KeyWrite as Does};
ghost use Rattle.bl_model.specs.declared.deciding.KeyWrite.TheVariants as key_write;
ghost use Rattle.bl_index.specs.Calls.{first_of, IsPassOf, IsSamePass, number_of, trail};
ghost use Rattle.bl_map_calls.specs.Many.{WritesMany, HadRoomBefore, StopsFull};

use crate::calls::FETCHED;
use crate::writes;
use bl_index::{ABREAST, Index, KeyReply, KeyWrite, Pass};
use bl_waiting::Waiting;
use std::sync::Wait;

/// A way in which the elements of a list ask for writes of keys.
pub trait Asks<E> {
    ghost use Rattle.std.specs.Prelude.{◌≡◌, ℕ};
    ghost use Rattle.bl_model.specs.declared.deciding.KeyWrite.{KeyWrite as Does};

    ghost asked: { E → ℕ × Does };

    /// The key, and what is to be done there.
    fn ask(element: &E) -> (u64, KeyWrite)
        ensures { result ≡ asked element.now };
}

/// Rows are to be inserted.
pub struct Insertions;

impl Asks<(u64, u64)> for Insertions {
    ghost use Rattle.bl_map_calls.specs.Many.{insertion_of};

    ghost asked = { insertion_of };

    fn ask(element: &(u64, u64)) -> (u64, KeyWrite) {
        (element.0, KeyWrite::Insert(element.1))
    }
}

/// Rows are to be put, in place of what is at their keys.
pub struct Puts;

impl Asks<(u64, u64)> for Puts {
    ghost use Rattle.bl_map_calls.specs.Many.{put_of};

    ghost asked = { put_of };

    fn ask(element: &(u64, u64)) -> (u64, KeyWrite) {
        (element.0, KeyWrite::Put(element.1))
    }
}

/// Keys are to be deleted.
pub struct Deletions;

impl Asks<u64> for Deletions {
    ghost use Rattle.bl_map_calls.specs.Many.{deletion_of};

    ghost asked = { deletion_of };

    fn ask(element: &u64) -> (u64, KeyWrite) {
        (*element, KeyWrite::Delete)
    }
}

/// The pages that the first of these will read are fetched side by side, where there are enough of them.
fn fetch<E: Copy, A: Asks<E>>(index: &Index, list: &[E]) {
    if list.len() < FETCHED {
        return;
    }
    let mut keys = [0; ABREAST];
    let count = list.len().min(ABREAST);
    for i in 0..count {
        keys[i] = A::ask(&list[i]).0;
    }
    let _pages = index.fetch(&keys[..count]);
}

/// Writes keys, one after another, up to the first that finds no room. The pages of some at a time are fetched side by side, so that the
/// thread waits for all of them at once. Says how many were answered.
pub fn write<R: Wait, E: Copy, A: Asks<E>>(
    rt: &R,
    index: &Index,
    pass: &mut Pass,
    waiting: &mut Waiting,
    list: &[E],
    replies: &mut [KeyReply],
) -> usize
    requires own { IsPassOf index.now pass.old }
    requires room { length replies.old ≡ length list.now }
    ensures same { IsSamePass pass.old pass.new }
    ensures most { result ≤ length list.now }
    ensures writes { WritesMany (first_of index.now) (number_of pass.old) A.asked (take result list.now) (take result replies.new)
        waiting.old waiting.new (trail pass.old) (trail pass.new) }
    ensures first { HadRoomBefore result replies.new }
    ensures stops { result < length list.now → StopsFull A.asked list.now replies.new result pass.old pass.new }
{
    for i in 0..list.len() {
        if i % ABREAST == 0 {
            fetch::<E, A>(index, &list[i..]);
        }
        let (key, does) = A::ask(&list[i]);
        let reply = writes::write(rt, index, pass, waiting, key, does);
        replies[i] = reply;
        if let KeyReply::NoRoom = reply {
            return i + 1;
        }
    }
    list.len()
}
