//! How much room a store has and where: what its hands count together, and what each keeps in sight.
//!
//! Promised to `bl_store` and `bl_reserve`: the pages and frames to which it leads a hand are pages and frames of the store. Of the counts
//! nothing is promised, and no proof rests on them: who looks for a page or a frame looks first where they say, and then at all.
#![tactic(auto)]

mod blank;
mod first_words;
mod room;
mod seen;
mod sight;

pub use blank::is_all_zeros;
pub use first_words::FirstWords;
pub use room::{Room, end_near};
pub use seen::RoomSeen;
pub use sight::{OWNERS_A_SWEEP, RING, Sight};
