//! A log of what came into a map and what went, by which the map outlives a crash.
//!
//! A log is a file: a head, records, and zeros behind them. A record has rows that came and rows that went, and the map of a log has those
//! rows that came more often than they went. So the order of changes within a record says nothing, and whoever changes the map need not
//! agree on one. A record is written over zeros, so of a write that a crash cuts short each word is at most the one that was written; and a
//! record holds the complement of the sum of its words, so what is left of it counts only if it is whole.
//!
//! Promised to whoever keeps a map, for each device that is as [`Device`] says: [`read`] gives the rows of the map of a log;
//! [`Journal::commit`] makes it that of the changed map, and at any moment of the call a crash leaves the log of the map before it or of
//! the changed one. Whether a file of a system is such a device is no promise of this crate.
#![tactic(auto)]

mod device;
mod fault;
mod journal;
mod memory;
mod reading;
mod record;
mod rows;
mod words;

pub use device::{Device, DeviceFault};
pub use fault::LogFault;
pub use journal::Journal;
pub use memory::Memory;
pub use reading::{read, rows_in};
