//! Places of C: a seat's box is taken out of one for the time of a call, and put back.

ghost use Rattle.std.specs.Prelude.{◌≡◌, ◌++◌, ◌≤◌, [], None, Some, MatchBool, MatchOption, drop, length, vec_capacity};
ghost use Rattle.bl_ffi_seats.specs.Closed.{values};
ghost use Rattle.bl_ffi.specs.Places.{seats_in, opened, closed, IsOpen, HasOpenSeat, AreTaken};

use crate::loose::Loose;
use crate::seat::SeatOfC;
use bl_ffi_seats::Seat;
use std::alloc::Global;
use std::mem;

/// Takes the seat's box, and leaves a closed seat.
pub(crate) fn taken(alloc: Global, seat: &mut SeatOfC) -> Option<Box<Seat, Global>>
    ensures held { MatchOption result (seat.old.seat ≡ None) (λ b. seat.old.seat ≡ Some b.value) }
    ensures left { seat.new.seat ≡ None }
{
    let held = mem::replace(seat, SeatOfC::empty());
    held.into_box(alloc)
}

/// Puts a seat's box into a place. One that was there is closed.
pub(crate) fn put_back(alloc: Global, place: &mut SeatOfC, seat: Box<Seat, Global>)
    ensures { place.new.seat ≡ Some seat.value }
{
    let before = mem::replace(place, SeatOfC::of(Loose::of(seat)));
    let _ = before.into_box(alloc);
}

/// Takes the boxes out of the places, up to the first place that has none, into room for all.
pub(crate) fn take_all(
    alloc: Global,
    places: &mut [SeatOfC],
    room: Vec<Box<Seat, Global>>,
) -> Vec<Box<Seat, Global>>
    requires { (room.items ≡ []) × (length places.old ≤ vec_capacity room) }
    ensures { AreTaken (seats_in places.old) (seats_in places.new) (values result.items) }
{
    let mut boxes = room;
    for number in 0..places.len() {
        let Some(seat) = taken(alloc, &mut places[number]) else {
            return boxes;
        };
        boxes.push_reserved(seat);
    }
    boxes
}

/// Puts the boxes into the first places. Those that were there are closed.
pub(crate) fn put_all(alloc: Global, places: &mut [SeatOfC], boxes: Vec<Box<Seat, Global>>)
    requires { length boxes.items ≤ length places.old }
    ensures { seats_in places.new ≡ opened (values boxes.items) ++ drop (length boxes.items) (seats_in places.old) }
{
    let mut boxes = boxes;
    for number in 0..places.len() {
        if boxes.is_empty() {
            return;
        }
        let seat = boxes.remove(0);
        put_back(alloc, &mut places[number], seat);
    }
}

/// Whether a place has a seat. Its box is taken out for the look, and put back.
fn is_open(alloc: Global, place: &mut SeatOfC) -> bool
    ensures left { place.new.seat ≡ place.old.seat }
    ensures told { MatchBool result (IsOpen place.old.seat) (place.old.seat ≡ None) }
{
    let Some(seat) = taken(alloc, place) else {
        return false;
    };
    put_back(alloc, place, seat);
    true
}

/// Whether one of the places has a seat.
pub(crate) fn is_any_open(alloc: Global, places: &mut [SeatOfC]) -> bool
    ensures left { seats_in places.new ≡ seats_in places.old }
    ensures told { MatchBool result (HasOpenSeat (seats_in places.old)) (seats_in places.old ≡ closed (length places.old)) }
{
    for number in 0..places.len() {
        if is_open(alloc, &mut places[number]) {
            return true;
        }
    }
    false
}
