//! Seats at an index, for programs that are not in Rattle. A seat is one thread's place: a pass of an index with a share of the index, so that
//! no call can mix the passes of two indexes, and the index goes when its last seat has gone. It is to C what a handle of a map is to Rattle,
//! and both make the calls of `bl_map_calls`.
//!
//! No call waits, and none is left underway: one that does not come to its answer gives up, and says that it is to be made again. Then it
//! has not been done.
//!
//! Promised to `bl_ffi`, which hands its calls to C: each call promises what the map's same call does, or that it has not been done.
#![tactic(auto)]

mod closing;
mod opening;
mod ranging;
mod seat;

pub use bl_index::{
    Direction, KeyReply, KeyWrite, Next, OpenFault, OutOfTurns, RangeFault, Reply, ScanFault,
};
pub use closing::{CloseFault, close};
pub use opening::{ImageFault, open, open_image, open_larger};
pub use seat::Seat;
