//! Logs in folders of the system: the file of a log as a device of `bl_journal`, who has it, what is outside of a server that keeps one, and
//! the commands `log rows`, `log check` and `log load` of `blink`.
//!
//! No clause can say what a file of the system holds, so of [`LogFile`] and [`LoggedOutput`] nothing is promised: they are tested, and `docs/GUARANTEES.md` says what is
//! trusted of the system. What is read of its bytes, and what is written to it, is proved in `bl_journal`.
#![tactic(auto)]

mod commands;
mod fault;
mod folder;
mod log_file;
mod logged;
mod opening;
mod reason;

pub use commands::{check_log, load_log, print_log};
pub use fault::LogError;
pub use folder::{claim, salt_of};
pub use log_file::LogFile;
pub use logged::LoggedOutput;
pub use opening::{OpenLog, open_log};
