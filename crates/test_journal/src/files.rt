//! A log in a folder of the system.

use bl_journal::{Journal, LogFault, read};
use bl_log_files::LogFile;
use std::alloc::Global;
use std::fs;
use std::test::Fail;

/// Two commits, of which the second one changes a row.
fn committed(rt: &HostRuntime, alloc: Global) -> Result<(), LogFault> {
    let mut journal = Journal::over(LogFile::new(rt, alloc, ".")?, 7);
    journal.commit(alloc, &[(1, 10), (2, 20)], &[])?;
    journal.commit(alloc, &[(1, 11)], &[(1, 10)])
}

/// The rows that another process would find then.
fn found(rt: &HostRuntime, alloc: Global) -> Result<Vec<(u64, u64)>, LogFault> {
    let mut log = LogFile::new(rt, alloc, ".")?;
    read(alloc, &mut log)
}

#[test]
fn what_was_committed_is_read_from_the_file(rt: HostRuntime) -> Result<(), Fail> {
    let alloc = rt.alloc();
    let before = found(&rt, alloc).ok().ok_or("the folder cannot be read")?;
    assert!(rt; before.is_empty());
    assert!(rt; committed(&rt, alloc).is_ok());
    let rows = found(&rt, alloc).ok().ok_or("the log is not read")?;
    assert!(rt; rows.as_slice() == [(1, 11), (2, 20)].as_slice());
    assert!(rt; fs::remove_file(&rt, "./log").is_ok());
    Ok(())
}
