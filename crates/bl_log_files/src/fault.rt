//! Why a command on a log ends early.

ghost use Rattle.std.specs.Prelude.{◌≡◌};
ghost use Rattle.bl_log_files.specs.Statuses.{status_of};

use bl_row_lines::{PrintFault, RowsFault};
use std::alloc::AllocError;

/// Why a command on the log of a folder ended early. Its text is the first line on standard error.
#[derive(Debug, PartialEq, Eq, Drop, thiserror::Error)]
pub enum LogError {
    #[error("blink: out of memory")]
    Memory,
    /// The rows could not be written out.
    #[error("blink: write failed")]
    Write,
    /// The rows that were to make a log could not be read.
    #[error("blink: {0}")]
    Rows(RowsFault),
    /// The log could not be had, read or written, for this reason.
    #[error("blink: log failed")]
    Log(String),
}

impl LogError {
    /// The exit status of the program.
    pub fn status(&self) -> u8
        ensures { result ≡ status_of self.now }
    {
        match self {
            LogError::Memory | LogError::Rows(RowsFault::Memory) => 4,
            LogError::Write | LogError::Rows(_) | LogError::Log(_) => 3,
        }
    }

    /// The second line on standard error, without the name of the program: which file it is, and why. None of another fault.
    pub fn reason(&self) -> Option<&str> {
        match self {
            LogError::Log(why) => Some(why.as_str()),
            LogError::Memory | LogError::Write | LogError::Rows(_) => None,
        }
    }
}

impl From<AllocError> for LogError {
    fn from(_error: AllocError) -> LogError {
        LogError::Memory
    }
}

impl From<PrintFault> for LogError {
    fn from(fault: PrintFault) -> LogError {
        match fault {
            PrintFault::Memory => LogError::Memory,
            PrintFault::Write => LogError::Write,
        }
    }
}
