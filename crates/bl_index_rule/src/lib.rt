//! What a pass knows, and the rule by which threads share a store of pages: one world of processes stands behind the
//! words of the store, and each pass knows a beginning of what has happened in it, and what it began with: nothing, or the
//! pages of a sound image.
//!
//! Promised to `bl_index`: each event of a store is a turn of the process that the hand's pass has, whatever its kind, so
//! the rule holds after it, and the pass knows all that has happened up to its own event. Each release of a sweep is one too,
//! of a process of its own that does not begin. No value of the types here is made while a program runs, but for one of
//! [`PassState`] and what it began with as an index is made.
#![tactic(auto)]

mod events;
mod known;
mod rule;

pub use events::{
    Began, Ended, GaveUp, Got, GotKept, Launch, LeftTop, LeftWalk, Opened, Probed, Put, Refused,
    Relayed, Retired, Sweeper, Swept, Took, Tried, Unput,
};
pub use known::{FirstPages, GhostTrail, PassState};
pub use rule::Passes;
