//! Scripts of processes and turns, as `blink replay` reads them.
//!
//! Promised to whoever runs a script: `read_script` gives the script that the bytes of a reader spell, or the number of
//! the first line that is bad. Bytes are one script at most. The grammar stands in `specs/`: the text of each command, where it is allowed, and what a
//! bad line is.
#![tactic(auto)]

pub mod command;
mod laws;
mod lines;
mod parse;
mod reading;

pub use command::{Command, Kinds, Script, Start};
pub use laws::has_one_reading;
pub use reading::{ScriptFault, read_script};
