//! Calls of several seats of one map.

ghost use Rattle.std.specs.Prelude.{◌≡◌, ◌+◌, ◌*◌, length};
ghost use Rattle.bl_ffi_seats.specs.Closed.{values, AreAtOne};
ghost use Rattle.bl_ffi.specs.Places.{seats_in, closed};
ghost use Rattle.bl_ffi.specs.Together.{AreOfOneMap, AreAtOneMap, Meets, Shows, ClosesSeats, ClosesImage, IsCodeOfFault};

use crate::codes::{CLOSED, FEW_BYTES, NO_MEMORY, OK, SEATS_LOST, SEATS_OPEN};
use crate::places::{put_all, put_back, take_all, taken};
use crate::seat::SeatOfC;
use bl_ffi_seats::{CloseFault, Seat, close};
use bl_image::image_length;
use std::alloc::Global;

/// The seats meet.
#[unsafe(no_mangle)]
pub extern "C" fn blink_try_meet(alloc: Global, one: &mut SeatOfC, two: &mut SeatOfC) -> i32
    requires { AreOfOneMap one.old.seat two.old.seat }
    ensures { Meets one.old.seat two.old.seat one.new.seat two.new.seat result }
{
    let Some(mut mine) = taken(alloc, one) else {
        return CLOSED;
    };
    let Some(mut theirs) = taken(alloc, two) else {
        put_back(alloc, one, mine);
        return CLOSED;
    };
    mine.meet(&mut theirs);
    put_back(alloc, one, mine);
    put_back(alloc, two, theirs);
    OK
}

/// A place in the memory of the seat's map, by whose address maps are told apart. No clause says so, since none of `Arc` says where its value lies.
/// A closed seat shows none.
#[unsafe(no_mangle)]
pub extern "C" fn blink_place(alloc: Global, seat: &mut SeatOfC, place: &mut *const u32) -> i32
    ensures { Shows seat.old seat.new place.old place.new result }
{
    let Some(mine) = taken(alloc, seat) else {
        return CLOSED;
    };
    *place = mine.place();
    put_back(alloc, seat, mine);
    OK
}

/// How many bytes the image of a map of so many pages has at most.
#[unsafe(no_mangle)]
pub extern "C" fn blink_image_length(pages: u32) -> u64
    ensures { result ≡ 32 + 256 * pages }
{
    image_length(pages)
}

/// The code of what kept a map from being closed.
fn code_of(why: CloseFault) -> i32
    ensures { IsCodeOfFault why result }
{
    match why {
        CloseFault::Missing | CloseFault::Shared => SEATS_OPEN,
        CloseFault::Memory => NO_MEMORY,
        CloseFault::Lost => SEATS_LOST,
    }
}

/// The map of all these seats is closed, if there is room for the longest image of so many pages. Else those that come back are put into their places.
fn close_boxes(
    alloc: Global,
    places: &mut [SeatOfC],
    boxes: Vec<Box<Seat, Global>>,
    bytes: &mut [u8],
    long: &mut u64,
) -> i32
    requires count { length boxes.items ≡ length places.old }
    requires empty { seats_in places.old ≡ closed (length places.old) }
    requires one { AreAtOne (values boxes.items) }
    ensures { ClosesSeats (values boxes.items) (seats_in places.new) bytes.old bytes.new long.new result }
{
    let Some(first) = boxes.first() else {
        return SEATS_OPEN;
    };
    let needed = image_length(first.pages());
    if needed > bytes.len() as u64 {
        *long = needed;
        put_all(alloc, places, boxes);
        return FEW_BYTES;
    }
    match close(alloc, boxes) {
        Ok(quiet) => {
            let image = quiet.image();
            let size = image.size();
            *long = size;
            image.spell(&mut bytes[..size as usize]);
            OK
        }
        Err((boxes, why)) => {
            put_all(alloc, places, boxes);
            code_of(why)
        }
    }
}

/// Closes all seats of a map, and writes its image.
#[unsafe(no_mangle)]
pub extern "C" fn blink_try_close_image(
    alloc: Global,
    seats: &mut [SeatOfC],
    bytes: &mut [u8],
    long: &mut u64,
) -> i32
    requires { AreAtOneMap (seats_in seats.old) }
    ensures { ClosesImage (seats_in seats.old) (seats_in seats.new) bytes.old bytes.new long.new result }
{
    let Ok(room) = Vec::with_capacity(alloc, seats.len()) else {
        return NO_MEMORY;
    };
    let boxes = take_all(alloc, seats, room);
    if boxes.len() < seats.len() {
        put_all(alloc, seats, boxes);
        return CLOSED;
    }
    close_boxes(alloc, seats, boxes, bytes, long)
}
