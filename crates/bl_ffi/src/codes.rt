//! What a call answers. `blink.h` has one more, which its own functions answer.

/// Done.
pub(crate) const OK: i32 = 0;
/// The key is absent.
pub(crate) const ABSENT: i32 = 1;
/// The key is there with a value, and keeps it.
pub(crate) const PRESENT: i32 = 2;
/// There was no room, and nothing has changed.
pub(crate) const NO_ROOM: i32 = 3;
/// It has not been done, and is to be made again.
pub(crate) const AGAIN: i32 = 4;
/// The number of pages is not 4 to 2^28.
pub(crate) const BAD_PAGES: i32 = 5;
/// The number of seats is not 1 to 64.
pub(crate) const BAD_SEATS: i32 = 6;
/// There was no memory.
pub(crate) const NO_MEMORY: i32 = 7;
/// The bytes are no sound image.
pub(crate) const BAD_IMAGE: i32 = 8;
/// The seat is closed.
pub(crate) const CLOSED: i32 = 9;
/// There is too little room for rows.
pub(crate) const FEW_ROWS: i32 = 10;
/// A seat of the map is not among them.
pub(crate) const SEATS_OPEN: i32 = 11;
/// There is room for fewer bytes than the image has.
pub(crate) const FEW_BYTES: i32 = 12;
/// A share of the map was taken while its seats gave theirs up.
pub(crate) const SEATS_LOST: i32 = 14;
/// The keys of the rows do not rise.
pub(crate) const BAD_ROWS: i32 = 15;
/// The pages are to be filled with less than 1 row or more than 14, or so little that the tree would have more than 12 levels.
pub(crate) const BAD_FILL: i32 = 16;
/// A place has an open seat.
pub(crate) const IN_USE: i32 = 17;
/// Others changed the rows of a range each time that it was read.
pub(crate) const UNSTEADY: i32 = 18;
