//! Scripts of processes and turns, carried out and printed event by event.
//!
//! Promised to whoever reads what `replay` prints: it is the text of one run of the script on a world, by the definitions
//! of `specs/Plays.antt`, with each event in the turn in which it was recorded, each page that was put behind its put, where
//! pages are wanted, and each answer behind the event by which its process answered.
#![tactic(auto)]

mod commands;
mod fault;
mod laws;
mod output;
mod pages;
mod playing;
mod text;
mod turning;

pub use fault::ReplayFault;
pub use laws::pages_are_added;
pub use playing::{PLAYED, replay};
