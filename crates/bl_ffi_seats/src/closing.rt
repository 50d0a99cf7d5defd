//! An index is closed by all its seats.

ghost use Rattle.std.specs.Prelude.{◌≡◌, ℕ, ◌<◌, ◌≤◌, true, false, IfOk, IfErr};
ghost use Rattle.bl_ffi_seats.specs.Closed.{values, AreAtOne, HasSeat, IsFor, HaveClosed, IsNotPrepared, IsNotClosed};
ghost use Rattle.bl_ffi_seats.specs.declared.closing.CloseFault.TheVariants as fault;

use crate::seat::Seat;
use bl_check::Quiet;
use bl_index::{CloseRoom, Index};
use bl_index_rule::PassState;
use bl_store::Hand;
use std::alloc::Global;
use std::sync::Arc;

/// Why an index was not closed.
#[derive(Clone, Copy, Debug, PartialEq, Eq)]
pub enum CloseFault {
    /// A seat of the index is not among them.
    Missing,
    /// Somebody else has a share of the index.
    Shared,
    /// There was no memory.
    Memory,
    /// Somebody took a share of the index while its seats gave theirs up: the seats are gone.
    Lost,
}

/// What a close fills, with a share of the index that is its last one then.
#[derive(Drop)]
struct Prepared {
    index: Arc<Index, Global>,
    hands: Vec<Hand<PassState>>,
    room: CloseRoom,
}

/// Whether one of the seats has that number.
fn has_seat(seats: &[Box<Seat, Global>], number: u32) -> bool
    ensures yes { result ≡ true → HasSeat (values seats.now) number }
    ensures no { result ≡ false → ¬ HasSeat (values seats.now) number }
{
    for seat in seats {
        if seat.pass.number() == number {
            return true;
        }
    }
    false
}

/// Whether there is a seat of each of the first so many numbers.
fn has_all(seats: &[Box<Seat, Global>], count: u32) -> bool
    ensures yes { result ≡ true → (n : ℕ) → n < count → HasSeat (values seats.now) n }
    ensures no { result ≡ false → (n : ℕ) × (n < count) × ¬ HasSeat (values seats.now) n }
{
    for number in 0..count {
        if !has_seat(seats, number) {
            return false;
        }
    }
    true
}

/// All that a close needs is there, before anything is given away.
fn prepare(alloc: Global, seats: &[Box<Seat, Global>]) -> Result<Prepared, CloseFault>
    requires { AreAtOne (values seats.now) }
    ensures ok { IfOk result (IsFor (values seats.now)) }
    ensures fault { IfErr result (IsNotPrepared (values seats.now)) }
{
    let Some(first) = seats.first() else {
        return Err(CloseFault::Missing);
    };
    if !has_all(seats, first.index.tree().passes) {
        return Err(CloseFault::Missing);
    }
    if Arc::strong_count(&first.index) != seats.len() {
        return Err(CloseFault::Shared);
    }
    let Ok(room) = first.index.close_room(alloc) else {
        return Err(CloseFault::Memory);
    };
    let Ok(hands) = Vec::with_capacity(alloc, seats.len()) else {
        return Err(CloseFault::Memory);
    };
    match Arc::try_clone(&first.index) {
        Ok(index) => Ok(Prepared { index, hands, room }),
        Err(_) => Err(CloseFault::Memory),
    }
}

/// The seats go, and their hands close the index. Somebody else cannot have a share of it, since all its seats are there, but no clause of
/// `Arc` says so. Where somebody had, the seats could not come back: a share for each is more than `Arc` promises.
fn shut(seats: Vec<Box<Seat, Global>>, prepared: Prepared) -> Result<Quiet, CloseFault>
    requires { IsFor (values seats.items) prepared }
    ensures ok { IfOk result (λ quiet. HaveClosed (values seats.items) quiet.image.pages.items) }
    ensures fault { IfErr result (λ why. why ≡ fault.Lost) }
{
    let Prepared {
        index,
        mut hands,
        room,
    } = prepared;
    let mut seats = seats;
    while !seats.is_empty() {
        let Seat { pass, .. } = Box::into_inner(seats.remove(0));
        hands.push_reserved(pass.into_hand());
    }
    match Arc::try_unwrap(index) {
        Ok(index) => Ok(index.close_hands(hands, room)),
        Err(_) => Err(CloseFault::Lost),
    }
}

/// Closes an index by all its seats: the image of its pages, which is sound, and whose rows are the map after all that has happened. Else the
/// seats come back as they were: one of them is missing, somebody else has a share of the index, or there is no memory. They are gone where
/// it says so.
pub fn close(
    alloc: Global,
    seats: Vec<Box<Seat, Global>>,
) -> Result<Quiet, (Vec<Box<Seat, Global>>, CloseFault)>
    requires { AreAtOne (values seats.items) }
    ensures ok { IfOk result (λ quiet. HaveClosed (values seats.items) quiet.image.pages.items) }
    ensures fault { IfErr result (λ t. IsNotClosed (values seats.items) (values t.0.items) t.1) }
{
    let prepared = match prepare(alloc, seats.as_slice()) {
        Ok(prepared) => prepared,
        Err(why) => return Err((seats, why)),
    };
    match shut(seats, prepared) {
        Ok(quiet) => Ok(quiet),
        Err(why) => Err((Vec::new(alloc), why)),
    }
}
