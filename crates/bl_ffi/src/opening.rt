//! A map is opened.

ghost use Rattle.std.specs.Prelude.{◌≡◌, length, IfOk};
ghost use Rattle.bl_ffi_seats.specs.Closed.{values};
ghost use Rattle.bl_ffi.specs.Opened.{Opens, OpensImage, OpensLarger, AreHandedOut, IsCodeOfImage, or_first};
ghost use Rattle.bl_ffi.specs.Places.{seats_in, closed};

use crate::codes::{BAD_IMAGE, BAD_PAGES, BAD_SEATS, IN_USE, NO_MEMORY, OK};
use crate::places::{is_any_open, put_all};
use crate::seat::SeatOfC;
use bl_ffi_seats::{ImageFault, OpenFault, Seat, open, open_image, open_larger};
use std::alloc::{AllocError, Global};

/// A map that is to grow begins with so many pages.
const FIRST_PAGES: u32 = 1_024;

/// So many pages, or those of a map that is to grow, where none are named.
fn or_first(pages: u32) -> u32
    ensures { result ≡ or_first pages }
{
    if pages == 0 { FIRST_PAGES } else { pages }
}

/// Boxes for the seats, before any is handed out.
fn boxed(alloc: Global, seats: Vec<Seat>) -> Result<Vec<Box<Seat, Global>>, AllocError>
    ensures { IfOk result (λ v. values v.items ≡ seats.items) }
{
    let mut seats = seats;
    let mut boxes = Vec::with_capacity(alloc, seats.len())?;
    while !seats.is_empty() {
        match Box::new(alloc, seats.remove(0)) {
            Ok(seat) => boxes.push(seat)?,
            Err(_) => return Err(AllocError),
        }
    }
    Ok(boxes)
}

/// Hands the seats out to closed places.
fn hand_out(alloc: Global, seats: Vec<Seat>, places: &mut [SeatOfC]) -> i32
    requires count { length seats.items ≡ length places.old }
    requires empty { seats_in places.old ≡ closed (length places.old) }
    ensures { AreHandedOut seats.items (seats_in places.old) (seats_in places.new) result }
{
    let Ok(boxes) = boxed(alloc, seats) else {
        return NO_MEMORY;
    };
    put_all(alloc, places, boxes);
    OK
}

/// Opens an index without rows, with a seat for each place, all of which are closed. With 0 pages it has 1,024, for who has it grow.
#[unsafe(no_mangle)]
pub extern "C" fn blink_open(alloc: Global, pages: u32, seats: &mut [SeatOfC]) -> i32
    ensures { Opens (or_first pages) (seats_in seats.old) (seats_in seats.new) result }
{
    if seats.len() > 64 {
        return BAD_SEATS;
    }
    if is_any_open(alloc, seats) {
        return IN_USE;
    }
    match open(alloc, or_first(pages), seats.len() as u32) {
        Ok(opened) => hand_out(alloc, opened, seats),
        Err(OpenFault::Pages) => BAD_PAGES,
        Err(OpenFault::Passes) => BAD_SEATS,
        Err(OpenFault::Memory) => NO_MEMORY,
    }
}

/// The same with the rows of an image.
#[unsafe(no_mangle)]
pub extern "C" fn blink_open_image(alloc: Global, bytes: &[u8], seats: &mut [SeatOfC]) -> i32
    ensures { OpensImage bytes.now (seats_in seats.old) (seats_in seats.new) result }
{
    if seats.len() > 64 {
        return BAD_SEATS;
    }
    if is_any_open(alloc, seats) {
        return IN_USE;
    }
    match open_image(alloc, bytes, seats.len() as u32) {
        Ok(opened) => hand_out(alloc, opened, seats),
        Err(why) => code_of(why),
    }
}

/// The same with so many pages, as many as the image has or more.
#[unsafe(no_mangle)]
pub extern "C" fn blink_open_larger(
    alloc: Global,
    bytes: &[u8],
    pages: u32,
    seats: &mut [SeatOfC],
) -> i32
    ensures { OpensLarger bytes.now pages (seats_in seats.old) (seats_in seats.new) result }
{
    if seats.len() > 64 {
        return BAD_SEATS;
    }
    if is_any_open(alloc, seats) {
        return IN_USE;
    }
    match open_larger(alloc, bytes, pages, seats.len() as u32) {
        Ok(opened) => hand_out(alloc, opened, seats),
        Err(why) => code_of(why),
    }
}

/// The code of why no map was opened from bytes.
fn code_of(why: ImageFault) -> i32
    ensures { IsCodeOfImage why result }
{
    match why {
        ImageFault::Image => BAD_IMAGE,
        ImageFault::Pages => BAD_PAGES,
        ImageFault::Seats => BAD_SEATS,
        ImageFault::Memory => NO_MEMORY,
    }
}
