//! How many turns each process has left, if no page is put any more, and how many pages it may still put.
//!
//! `specs/Left` gives each state of each kind a number of turns. `proofs/` shows that in every good world it is eight for each page and
//! 40 at most, and that each turn by which no page is put and no latch is missed leaves fewer. `specs/Budget` counts the puts. The crate
//! has no code; its functions are laws, for the worlds.
#![tactic(auto)]

mod laws;

pub use laws::{puts_end, turns_end};
