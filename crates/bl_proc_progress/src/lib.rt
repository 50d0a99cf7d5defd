//! Who waits for whom, and that no wait goes round in a circle.
//!
//! `specs/Waits` says when a process waits for another, and where such a wait ends; `specs/Order` in which order pages are
//! latched; `specs/Holds` how many turns a process still holds pages, `specs/Ways` how long the way of a writer is. `proofs/`
//! shows of every good world that whoever holds a page latches below it, so that every wait ends at a process that may go on, and
//! that its turns bring it nearer to holding none. The crate has no code; its functions are the laws.
#![tactic(auto)]

mod laws;

pub use laws::{holds_end, never_lost, no_circle};
