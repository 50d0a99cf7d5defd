//! What is outside of a server: where it prints its replies, and where it keeps what was changed before it prints them.
//!
//! A crash is seen from outside by two things at one moment: what was printed, and what the file of a log is. So these two are one trait,
//! [`Outside`], whose clauses speak of pairs.
//!
//! Promised to whoever serves, for each outside that is as [`Outside`] says: [`keep_and_print`] keeps what was changed, and prints then. A crash at
//! any moment finds nothing of the text printed, and the log of the map from before or after; or a beginning of the text, and the log of the map
//! after. [`Tape`] is such an outside, in memory. Whether the streams and files of a system are one is no promise of this crate.
#![tactic(auto)]

mod outside;
mod tape;

pub use outside::{Outside, keep_and_print};
pub use tape::{Scene, Tape};
