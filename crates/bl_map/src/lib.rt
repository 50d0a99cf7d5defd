//! A map from `u64` keys to `u64` values that threads share, for programs that want no more than that.
//!
//! It is an index whose upkeep is done by whoever changes it: a change waits for room before it begins, lists the pages that it has
//! split, merges those that it has left with few rows, takes top levels away that are not needed, and gives back what was swapped out.
//! Each thread works through a [`Handle`], and meets no hint, no frame and no turn.
//!
//! Promised to its user: each call of a handle adds one entry to what the handle has seen, this operation with this reply, and no
//! other entry of its own; what it has seen then is a trail that an index may have, which begins with what it had seen before. So there
//! is one legal history of the map in which each answer stands at its point. A find or a scan is searches and nothing else, each with a
//! turn for each page; a scan lacks memory only where a part had more rows than there was room for. Upkeep adds no entry. What a change
//! has left to do is done by posts, compressions and lowerings of the handle's own before it returns, with sweeps between them and nothing
//! else; or it found no room and waits, or was left behind twelve others and waits; or 32 pieces wait already, and it is dropped and
//! counted. No other call of a handle loses a piece that waits.
//!
//! Threads that hand anything to one another pass a [`Stamp`] along: a handle stamps it, and whoever heeds it has seen all that this
//! handle had seen. So its calls from then on stand behind those of that handle in the one history ([`stamps_keep_order`]).
//!
//! Who has an index of his own and shares its upkeep out, as the server does, has handles over its seats ([`handles_over`],
//! [`give_seats`], [`meet_all`]), which write and leave what is to be done, and follow it, one piece a call.
#![tactic(auto)]

mod handle;
mod map;
mod meeting;
mod ordering;
mod seating;
mod shrinking;
mod stamping;

pub use bl_index::{
    CloseFault, Hint, KeyReply, KeyWrite, Next, OpenFault, Pass as Seat, Reply, ResizeFault,
    RoomSeen,
};
pub use bl_load::LoadFault;
pub use bl_map_calls::ranging::RangeRefusal;
pub use bl_map_calls::updating::Updated;
pub use bl_map_calls::upkeep::Followed;
pub use handle::{Backlog, Handle};
pub use map::{Map, MapLoadFault, UnresizedMap};
pub use meeting::meet_all;
pub use ordering::stamps_keep_order;
pub use seating::{give_seats, handles_over};
pub use shrinking::{UnshrunkMap, shrinking_adds_a_life};
pub use stamping::Stamp;
