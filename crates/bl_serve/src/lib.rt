//! The server with workers and compressors.
//!
//! Promised to the program (`bl_cli`): what is written is served for what is read, from the map with which the index begins on, whatever the
//! threads do; where a log is kept, a crash at any moment finds in it all that was answered; and an index of the server's own, which begins
//! without rows or with those of a sound image, may grow and shrink by two meanwhile: its lives have one history.
//!
//! The input is read section by section, up to each `sync` or line by line, as is wanted, and a section in chunks of some thousand
//! lines (`bl_serve_reading`). A chunk's lines are shared by threads that each have a handle of the index (`bl_serve_worker`): workers take
//! shares of them from a channel, each with all lines of its keys, and answer them, and compressors follow the hints that the workers leave.
//! One of the threads first reads the lines of the next chunk. When all have ended, the answers are put in the order of their lines, and the
//! handles give their seats back: then the index may grow or shrink (`bl_serve_ground`). Answers are written when the section has ended, and only then is the next
//! section read.
#![tactic(auto)]

mod chunks;
mod dealing;
mod dumping;
mod growing;
mod joining;
mod meeting;
mod serving;
mod session;
mod starting;
mod summary;

pub use bl_outside::Outside;
pub use bl_serve_ground::Origin;
pub use bl_serve_lines::{Sectioning, ServeFault, Totals, Wrong};
pub use bl_serve_worker::{Gate, OpenGate, follow_hint};
pub use dumping::{dump_by_plan, dump_index};
pub use serving::serve;
pub use session::ServePlan;
pub use starting::{serve_by_plan, serve_index};
pub use summary::{Remarks, Summary};
