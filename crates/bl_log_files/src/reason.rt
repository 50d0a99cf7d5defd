//! Why a log is not read or not written, in words.

use crate::fault::LogError;
use crate::log_file::LogFile;
use bl_journal::LogFault;
use std::alloc::{AllocError, Global};
use std::rt::Files;

/// Why a log is not read or not written, with its file.
pub(crate) fn reason_of<R: Files>(
    alloc: Global,
    folder: &str,
    device: &LogFile<'_, R>,
    fault: LogFault,
) -> Result<LogError, AllocError> {
    let why = match fault {
        LogFault::Memory => return Ok(LogError::Memory),
        LogFault::Refused => match device.why() {
            Some(why) => String::from_str(alloc, why)?,
            None => format!(in alloc; "{folder}/log: is not written to before it is read")?,
        },
        LogFault::Alien => format!(in alloc; "{folder}/log: is no log")?,
        LogFault::Damaged(byte) => format!(in alloc;
            "{folder}/log: is damaged from byte {byte} on"
        )?,
        LogFault::Broken => format!(in alloc; "{folder}/log: its records are those of no map")?,
    };
    Ok(LogError::Log(why))
}
