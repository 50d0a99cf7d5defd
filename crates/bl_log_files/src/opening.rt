//! The log of a folder is opened, for a server that goes on with it.

use crate::fault::LogError;
use crate::folder::salt_of;
use crate::log_file::LogFile;
use crate::logged::LoggedOutput;
use crate::reason::reason_of;
use bl_journal::{Journal, read};
use bl_model::Watched;
use std::alloc::Global;
use std::rt::Files;

/// The log of a folder, as it was read.
#[derive(Drop)]
pub struct OpenLog<'a, R: Files> {
    alloc: Global,
    device: LogFile<'a, R>,
    salt: u64,
    /// The rows of its map, by rising keys.
    pub rows: Vec<(u64, u64)>,
    /// Whether the folder had no log.
    pub is_new: bool,
}

/// Reads the log of a folder. No room is wanted for it on the disk. A folder without a log begins one, without rows.
pub fn open_log<'a, R: Files + AllocGlobal>(
    rt: &'a R,
    folder: &str,
) -> Result<OpenLog<'a, R>, LogError> {
    let alloc = rt.alloc();
    let mut device = LogFile::new(rt, alloc, folder)?;
    let is_new = !device.is_there();
    let rows = match read(alloc, &mut device) {
        Ok(rows) => rows,
        Err(fault) => return Err(reason_of(alloc, folder, &device, fault)?),
    };
    let salt = salt_of(rt, alloc)?;
    Ok(OpenLog {
        alloc,
        device,
        salt,
        rows,
        is_new,
    })
}

impl<'a, R: Files> OpenLog<'a, R> {
    /// What is outside of a server that prints there. Where the log is a new one, it is made with these rows first.
    pub fn into_output<W: Drop>(
        self,
        folder: &str,
        begins: &[(u64, u64)],
        writer: Watched<W>,
    ) -> Result<LoggedOutput<'a, R, W>, LogError> {
        let OpenLog {
            alloc,
            device,
            salt,
            rows: _,
            is_new,
        } = self;
        let mut journal = Journal::over(device, salt);
        if !is_new {
            return Ok(LoggedOutput::new(journal, writer));
        }
        let made = match journal.commit(alloc, begins, &[]) {
            Ok(()) => journal.seal(alloc),
            Err(fault) => Err(fault),
        };
        match made {
            Ok(()) => Ok(LoggedOutput::new(journal, writer)),
            Err(fault) => Err(reason_of(alloc, folder, &journal.into_device(), fault)?),
        }
    }
}
