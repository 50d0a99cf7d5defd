//! The index for C: `blink.h` declares these functions, and says line by line what each does and what its caller has to keep.
//!
//! Proved is each function up to the C boundary: whatever a caller does that keeps what the header lists, no call reads or writes memory
//! that is not its own, and none ends in a fault or runs without end. What C keeps of a seat is a pointer that owns the seat's box, or is null: the
//! three conversions between the two are proved by hand, in `proofs/seat`.
#![tactic(auto)]

mod calls;
mod codes;
mod loose;
mod opening;
mod places;
mod ranging;
mod saving;
mod scanning;
mod seat;
mod stats;
mod together;

pub use calls::{
    Part, Row, blink_try_change, blink_try_close, blink_try_delete, blink_try_find,
    blink_try_insert, blink_try_put, blink_try_rows, blink_try_rows_down, blink_try_upkeep,
};
pub use opening::{blink_open, blink_open_image, blink_open_larger};
pub use ranging::blink_try_range;
pub use saving::blink_image_of;
pub use scanning::{blink_try_scan, blink_try_scan_down};
pub use seat::{Hidden, SeatOfC};
pub use stats::{Stats, blink_stat};
pub use together::{blink_image_length, blink_place, blink_try_close_image, blink_try_meet};
