//! A map that outlives a crash, for programs: handles that note what they change, and a log to which it is committed.
//!
//! A handle notes what its calls change, in memory, as rows that came and rows that went. A commit takes the handles of all seats, between
//! two calls of each; puts what they have noted to the log, in one record; and returns once that is on the disk. Rows are counted, so
//! threads agree on nothing but the moment of a commit. Where the log has no room left, it is written anew with the rows of the map.
//!
//! Promised to whoever keeps a map by a log, for each device that is as [`bl_journal::Device`] says: a commit that has returned has put to
//! the log what all calls of all handles had changed by then, each change once. A crash at any moment leaves the log of the map from before
//! a commit or from after it, and nothing of a call that no commit has taken. Whether a file of a system is such a device is no promise of
//! this crate.
#![tactic(auto)]

mod collecting;
mod fault;
mod handle;
mod log;
mod meeting;
mod notes;
mod seating;

pub use bl_journal::{Device, DeviceFault, LogFault};
pub use fault::OpenLogFault;
pub use handle::NotingHandle;
pub use log::{MapLog, calls_keep_log};
pub use seating::give_seats;
