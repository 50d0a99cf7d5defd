//! Tests of the seats of `bl_ffi_seats`, on which the C library stands: calls of one seat, upkeep over many rows, seats that meet, and a
//! close with the image that is opened from it.
//!
//! They stand apart from what they test, and nothing else uses them. What Rattle programs call is tested in `test_map`.
#![tactic(auto)]

#[cfg(test)]
mod seats;
