//! Handles for all seats of an index, and the seats of all of them again.

ghost use Rattle.std.specs.Prelude.{◌≡◌, ◌+◌, ◌≤◌, ◌++◌, [], All, IfOk, OnOk, vec_len};
ghost use Rattle.std.specs.List.{AllZip};
ghost use Rattle.std.specs.Vec.{vec_capacity};
ghost use Rattle.bl_index.specs.Calls.{IsPassOf};
ghost use Rattle.bl_map.specs.Handles.{IsHandleOver, seats_of};

use crate::handle::Handle;
use bl_index::{Index, Pass};
use std::alloc::AllocError;

/// Takes all seats out of a vector, and gives a handle over the index for each, in their order. The vector keeps its room, so they can
/// be given back: see [`give_seats`].
pub fn handles_over<'a>(
    index: &'a Index,
    seats: &mut Vec<Pass>,
) -> Result<Vec<Handle<'a>>, AllocError>
    requires { All (IsPassOf index.now) seats.old.items }
    ensures over { IfOk result (λ handles. AllZip (IsHandleOver index.now) seats.old.items handles.items) }
    ensures taken { OnOk result (seats.new.items ≡ []) }
    ensures room { vec_capacity seats.new ≡ vec_capacity seats.old }
{
    let mut handles = Vec::with_capacity(*seats.allocator(), seats.len())?;
    while !seats.is_empty() {
        let seat = seats.remove(0);
        handles.push(Handle::over(index, seat))?;
    }
    Ok(handles)
}

/// Puts the seats of handles behind others, in their order, where there is room for them.
pub fn give_seats(handles: Vec<Handle<'_>>, seats: &mut Vec<Pass>)
    requires { vec_len seats.old + vec_len handles ≤ vec_capacity seats.old }
    ensures { seats.new.items ≡ seats.old.items ++ seats_of handles.entry.items }
{
    let mut handles = handles;
    while !handles.is_empty() {
        let seat = handles.remove(0).into_seat();
        match seats.push(seat) {
            Ok(()) => {}
            Err(_) => unreachable!(),
        }
    }
}
