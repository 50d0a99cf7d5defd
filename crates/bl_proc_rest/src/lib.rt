//! That whole worlds come to rest, for those who run them.
//!
//! `specs/Rests` gives every process a number of turns, of whatever kind and in whatever state it is. `proofs/` shows of every good
//! world that each turn of a process that may go on, and that puts no page, leaves it fewer, and that each put leaves fewer puts
//! and levels to come. The crate has no code; its function is the law.
#![tactic(auto)]

mod laws;

pub use laws::rest_nears;
