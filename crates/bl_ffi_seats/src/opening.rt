//! An index is opened with its seats.

ghost use Rattle.std.specs.Prelude.{◌≡◌, ◌⊎◌, All, IfOk, IfErr};
ghost use Rattle.bl_image.specs.Images.{IsImage};
ghost use Rattle.bl_check.specs.Faults.{AreSoundImage};
ghost use Rattle.bl_ffi_seats.specs.declared.opening.ImageFault.TheVariants as fault;
ghost use Rattle.std.specs.Arc.{arc_value};
ghost use Rattle.bl_index.specs.Calls.{IsPassOf};
ghost use Rattle.bl_index.specs.Opened.{IsLargeRefusal};
ghost use Rattle.bl_ffi_seats.specs.Opened.{AreSeatsOf, AreSeatsOpened, AreReopened, AreReopenedIn, IsFaultFor, IsImageFault, IsLargerFault, IsNewSeat};

use crate::seat::Seat;
use bl_check::{Fault, Quiet, load};
use bl_index::{Config, Index, OpenFault, Pass};
use bl_map_tries::walking::Walk;
use bl_waiting::Waiting;
use std::alloc::{AllocError, Global};
use std::sync::Arc;

/// Why an index could not be opened from the bytes of an image.
#[derive(Clone, Copy, Debug, PartialEq, Eq)]
pub enum ImageFault {
    /// They are no sound image.
    Image,
    /// The number of pages is less than the image's, or more than 2^28.
    Pages,
    /// The number of seats is not 1 to 64.
    Seats,
    /// There was no memory.
    Memory,
}

/// An index of so many pages, 4 to 2^28, without rows, and so many seats at it, 1 to 64. It fails with `Pages` or `Passes` where a
/// number is another, the pages first, and with `Memory` where there was none.
pub fn open(alloc: Global, pages: u32, seats: u32) -> Result<Vec<Seat>, OpenFault>
    ensures ok { IfOk result (λ v. AreSeatsOpened pages seats v.items) }
    ensures fault { IfErr result (IsLargeRefusal (record { pages = pages; passes = seats })) }
{
    let config = Config {
        pages,
        passes: seats,
    };
    match Index::open_large(alloc, config) {
        Ok((index, passes)) => match shared(alloc, index, passes) {
            Ok(seats) => Ok(seats),
            Err(_) => Err(OpenFault::Memory),
        },
        Err(fault) => Err(fault),
    }
}

/// What a fault of the index is for a seat.
fn fault_of(why: OpenFault) -> ImageFault
    ensures { IsFaultFor why result }
{
    match why {
        OpenFault::Pages => ImageFault::Pages,
        OpenFault::Passes => ImageFault::Seats,
        OpenFault::Memory => ImageFault::Memory,
    }
}

/// The pages of an image, which is sound.
fn loaded(alloc: Global, bytes: &[u8]) -> Result<Quiet, ImageFault>
    ensures ok { IfOk result (λ quiet. IsImage quiet.image.pages.items bytes.now) }
    ensures fault { IfErr result (λ why. (why ≡ fault.Memory) ⊎ ((why ≡ fault.Image) × (AreSoundImage bytes.now → ⊥))) }
{
    match load(alloc, bytes) {
        Ok(quiet) => Ok(quiet),
        Err(Fault::Memory) => Err(ImageFault::Memory),
        Err(_) => Err(ImageFault::Image),
    }
}

/// An index that begins with the rows of a sound image, with as many pages, and so many seats at it, 1 to 64. It fails with `Image`
/// where the bytes are no sound image, with `Seats` where the number is another, and with `Memory` where there was none.
pub fn open_image(alloc: Global, bytes: &[u8], seats: u32) -> Result<Vec<Seat>, ImageFault>
    ensures ok { IfOk result (λ v. AreReopened bytes.now seats v.items) }
    ensures fault { IfErr result (IsImageFault bytes.now seats) }
{
    match Index::begin_with(alloc, loaded(alloc, bytes)?, seats) {
        Ok((index, passes)) => match shared(alloc, index, passes) {
            Ok(seats) => Ok(seats),
            Err(_) => Err(ImageFault::Memory),
        },
        Err(why) => Err(fault_of(why)),
    }
}

/// The same with so many pages, as many as the image has or more, up to 2^28: with `Pages` it fails where they are others.
pub fn open_larger(
    alloc: Global,
    bytes: &[u8],
    pages: u32,
    seats: u32,
) -> Result<Vec<Seat>, ImageFault>
    ensures ok { IfOk result (λ v. AreReopenedIn bytes.now pages seats v.items) }
    ensures fault { IfErr result (IsLargerFault bytes.now pages seats) }
{
    match Index::open_larger(alloc, loaded(alloc, bytes)?, pages, seats) {
        Ok((index, passes)) => match shared(alloc, index, passes) {
            Ok(seats) => Ok(seats),
            Err(_) => Err(ImageFault::Memory),
        },
        Err((_, why)) => Err(fault_of(why)),
    }
}

/// The index, shared by a seat for each pass.
fn shared(alloc: Global, index: Index, passes: Vec<Pass>) -> Result<Vec<Seat>, AllocError>
    requires { All (IsPassOf index) passes.items }
    ensures { IfOk result (λ v. AreSeatsOf index passes.items v.items) }
{
    match Arc::new(alloc, index) {
        Ok(all) => seated(alloc, &all, passes),
        Err(_) => Err(AllocError),
    }
}

/// A seat for each pass.
fn seated(
    alloc: Global,
    index: &Arc<Index, Global>,
    passes: Vec<Pass>,
) -> Result<Vec<Seat>, AllocError>
    requires { All (IsPassOf (arc_value index.now)) passes.items }
    ensures { IfOk result (λ v. AreSeatsOf (arc_value index.now) passes.items v.items) }
{
    let mut passes = passes;
    let mut seats = Vec::new(alloc);
    while !passes.is_empty() {
        let pass = passes.remove(0);
        let index = Arc::try_clone(index)?;
        seats.push(seat_of(index, pass))?;
    }
    Ok(seats)
}

/// The seat of a pass.
fn seat_of(index: Arc<Index, Global>, pass: Pass) -> Seat
    requires { IsPassOf (arc_value index) pass }
    ensures { IsNewSeat (arc_value index) pass result }
{
    Seat {
        index,
        pass,
        waiting: Waiting::new(),
        walk: Walk::new(),
    }
}
