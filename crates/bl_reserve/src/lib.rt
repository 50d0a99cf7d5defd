//! Reservations: what a hand of a store puts next has frames first, and pages that nobody uses.
//!
//! Promised to an index over a store: [`reserve`] gives what it was asked for, or is one event and says what it saw taken, and [`room`]
//! counts no page twice. Whether frames are scarce is a hint, as all that the store's `room` and a hand's `sight` tell.
//!
//! They are calls of a store like those of `bl_store`, which reads, puts and sweeps: each event asks that the user's rule survives it, and
//! none waits or takes memory.
#![tactic(auto)]

mod reserving;
mod scarce;
mod usage;

pub use bl_room::RoomSeen;
pub use bl_store::NoRoom;
pub use reserving::reserve;
pub use scarce::{finds_frames, lacks_frames};
pub use usage::{is_in_use, room};
