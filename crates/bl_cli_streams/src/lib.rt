//! The streams of `blink`, and what is said of them: a writer that keeps why it failed, readers that stop and remember lines, the
//! file of a dump, and what a server says at its end.
//!
//! Promised to `bl_cli` and `bl_cli_commands`: the writer hands on each byte, a dump that failed has its exit status, and the line on
//! malformed requests has their number and the first one's line. What the writer keeps, how far is read, how a file is replaced, and
//! the other lines are tested.
#![tactic(auto)]

mod dump;
mod kinds;
mod limits;
mod piped;
mod remembering;
mod stats;
mod wanted;

pub use dump::{DumpFault, may_replace, replace_file};
pub use limits::ScriptFile;
pub use piped::Piped;
pub use remembering::Remembering;
pub use stats::{Usage, malformed_line, noroom_line, stats_line, used_pages};
pub use wanted::{SECTION_ADVICE, index_line, section_line};
