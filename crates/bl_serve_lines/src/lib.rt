//! Requests in lines, and their replies: cutting of lines in constant memory, the grammar, the printer, what a server is told
//! and what it counts.
//!
//! The definitions of what is written for what is read stand in `specs/Served.antt`, for one worker and for many: a
//! history that is legal from the map at the start, in which the operations of a section's lines on one key stand in the
//! order of the lines, and all others in any order, with sections in order, and one output line for each input line by its number. The server of `bl_serve` promises this.
#![tactic(auto)]

pub mod listing;
pub mod number;
mod options;
pub mod print;
pub mod request;
pub mod serving;
pub mod source;
mod wrong;

pub use options::ServeOptions;
pub use serving::{Sectioning, ServeFault, Totals, lines_alone_keep_order};
pub use wrong::{Wrong, wrong_in};
