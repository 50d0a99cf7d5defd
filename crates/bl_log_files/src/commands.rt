//! The commands `log rows`, `log check` and `log load`.

use crate::fault::LogError;
use crate::folder::salt_of;
use crate::log_file::LogFile;
use crate::reason::reason_of;
use bl_journal::{Journal, read};
use bl_model::Watched;
use bl_row_lines::{read_rows, write_rows};
use std::alloc::Global;
use std::io::{Read, Write};
use std::rt::Files;

/// The rows of the map of a log, by rising keys. The folder must have a log.
fn rows_of<R: Files>(rt: &R, alloc: Global, folder: &str) -> Result<Vec<(u64, u64)>, LogError> {
    let mut device = LogFile::new(rt, alloc, folder)?;
    if !device.is_there() {
        return Err(LogError::Log(format!(in alloc; "{folder}/log: is not there")?));
    }
    match read(alloc, &mut device) {
        Ok(rows) => Ok(rows),
        Err(fault) => Err(reason_of(alloc, folder, &device, fault)?),
    }
}

/// Writes a line `K V` for each row of the map of a log, by rising keys.
pub fn print_log<R: Files + AllocGlobal, W: Write>(
    rt: &R,
    folder: &str,
    writer: &mut Watched<W>,
) -> Result<(), LogError> {
    let rows = rows_of(rt, rt.alloc(), folder)?;
    Ok(write_rows(rt.alloc(), writer, rows.as_slice())?)
}

/// How many rows the map of a log has, if it is one.
pub fn check_log<R: Files + AllocGlobal>(rt: &R, folder: &str) -> Result<usize, LogError> {
    Ok(rows_of(rt, rt.alloc(), folder)?.len())
}

/// Makes a log of the rows that the reader gives, lines `K V` by rising keys. A folder that has a log keeps it.
pub fn load_log<R: Files + AllocGlobal, I: Read>(
    rt: &R,
    folder: &str,
    reader: &mut Watched<I>,
) -> Result<usize, LogError> {
    let alloc = rt.alloc();
    let mut device = LogFile::new(rt, alloc, folder)?;
    if device.is_there() {
        return Err(LogError::Log(format!(in alloc; "{folder}/log: is there already")?));
    }
    let rows = match read_rows(alloc, reader) {
        Ok(rows) => rows,
        Err(fault) => return Err(LogError::Rows(fault)),
    };
    let mut journal = Journal::over(device, salt_of(rt, alloc)?);
    let put = match journal.commit(alloc, rows.as_slice(), &[]) {
        Ok(()) => journal.seal(alloc),
        Err(fault) => Err(fault),
    };
    match put {
        Ok(()) => Ok(rows.len()),
        Err(fault) => Err(reason_of(alloc, folder, &journal.into_device(), fault)?),
    }
}
