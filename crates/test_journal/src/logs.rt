//! Logs: their bytes, what a crash leaves of them, and what is refused.

use bl_changes::Changes;
use bl_journal::{Device, DeviceFault, Journal, LogFault, read, rows_in};
use bl_model::{KeyReply, KeyWrite};
use std::alloc::{AllocError, Global};
use std::test::Fail;

// A file in memory of which no clause speaks, as none does of a file of a system.
#[derive(Drop)]
struct File {
    alloc: Global,
    bytes: Vec<u8>,
    syncs: u32,
}

impl Device for File {
    ghost is_modelled = { λ file. ⊥ };

    ghost seen = { λ file. file.bytes.items };

    ghost moment = { λ file. 0 };

    ghost leaves = { λ file t c. ⊥ };

    fn read(&mut self, alloc: Global) -> Result<Vec<u8>, DeviceFault> {
        copied(alloc, self.bytes.as_slice()).map_err(|_| DeviceFault::Memory)
    }

    fn replace(&mut self, bytes: &[u8], zeros: usize) -> Result<(), DeviceFault> {
        self.bytes = with_zeros(self.alloc, bytes, zeros).map_err(|_| DeviceFault::Memory)?;
        self.syncs = self.syncs.saturating_add(1);
        Ok(())
    }

    fn fill(&mut self, at: usize, bytes: &[u8]) -> Result<(), DeviceFault> {
        for (place, byte) in bytes.iter().enumerate() {
            if let Some(there) = self.bytes.get_mut(at.saturating_add(place)) {
                *there = *byte;
            }
        }
        Ok(())
    }

    fn sync(&mut self) -> Result<(), DeviceFault> {
        self.syncs = self.syncs.saturating_add(1);
        Ok(())
    }
}

// A copy of bytes.
fn copied(alloc: Global, bytes: &[u8]) -> Result<Vec<u8>, AllocError> {
    let mut copy = Vec::with_capacity(alloc, bytes.len())?;
    copy.extend_from_slice(bytes)?;
    Ok(copy)
}

// Bytes, and so many zeros behind them.
fn with_zeros(alloc: Global, bytes: &[u8], zeros: usize) -> Result<Vec<u8>, AllocError> {
    let mut all = copied(alloc, bytes)?;
    for _ in 0..zeros {
        all.push(0)?;
    }
    Ok(all)
}

// The log of a journal with salt 7 to which these rows came, and then (7, 70) came and (5, 50) went.
fn two_records(alloc: Global) -> Result<File, LogFault> {
    let file = File {
        alloc,
        bytes: Vec::new(alloc),
        syncs: 0,
    };
    let mut journal = Journal::over(file, 7);
    journal.commit(alloc, &[(6, 60), (5, 50)], &[])?;
    journal.commit(alloc, &[(7, 70)], &[(5, 50)])?;
    Ok(journal.into_device())
}

// The rows of a log of which one byte is another one.
fn rows_with(alloc: Global, file: &File, at: usize, byte: u8) -> Result<Vec<(u64, u64)>, LogFault> {
    let mut bytes = copied(alloc, file.bytes.as_slice())?;
    if let Some(there) = bytes.get_mut(at) {
        *there = byte;
    }
    rows_in(alloc, bytes.as_slice())
}

// The head has 16 bytes. The first record has nine words: their number, two of the complement, the salt, two rows that came, and these. Their
// sum, but for the complement, is 9 + 7 + 2 + 6 + 60 + 5 + 50 = 139, so the complement is 2^128 - 1 - 139. A mebibyte of zeros is behind it.
#[test]
fn a_log_has_a_head_and_a_record(rt: HostRuntime) -> Result<(), Fail> {
    let mut journal = Journal::over(
        File {
            alloc: rt.alloc(),
            bytes: Vec::new(rt.alloc()),
            syncs: 0,
        },
        7,
    );
    assert!(rt; journal.commit(rt.alloc(), &[(6, 60), (5, 50)], &[]).is_ok());
    let file = journal.into_device();
    // In the log that is written anew the rows stand by rising keys.
    assert!(rt; file.bytes.len() == 88 + 1_048_576);
    assert!(rt; file.bytes.get(..16) == Some(b"BLNKLOG1\x07\0\0\0\0\0\0\0".as_slice()));
    assert!(rt; file.bytes.get(16..24) == Some(&[9, 0, 0, 0, 0, 0, 0, 0]));
    assert!(rt;
        file.bytes.get(24..40)
            == Some(&[
                116, 255, 255, 255, 255, 255, 255, 255, 255, 255, 255, 255, 255, 255, 255, 255
            ])
    );
    assert!(rt; file.bytes.get(40..56) == Some(&[7, 0, 0, 0, 0, 0, 0, 0, 2, 0, 0, 0, 0, 0, 0, 0]));
    assert!(rt; file.bytes.get(56..64) == Some(&[5, 0, 0, 0, 0, 0, 0, 0]));
    assert!(rt; file.bytes.get(80..89) == Some(&[60, 0, 0, 0, 0, 0, 0, 0, 0]));
    Ok(())
}

// The second record begins at byte 88, has nine words and ends at byte 160; it was written over zeros and synced.
#[test]
fn rows_are_those_that_are_left(rt: HostRuntime) -> Result<(), Fail> {
    let mut file = two_records(rt.alloc()).expect(&rt, "a log");
    assert!(rt; file.syncs == 3 && file.bytes.len() == 88 + 1_048_576);
    assert!(rt; file.bytes.get(88..96) == Some(&[9, 0, 0, 0, 0, 0, 0, 0]));
    assert!(rt; file.bytes.get(152..161) == Some(&[50, 0, 0, 0, 0, 0, 0, 0, 0]));
    let rows = read(rt.alloc(), &mut file);
    assert!(rt; rows.is_ok_and(|rows| rows.as_slice() == [(6, 60), (7, 70)].as_slice()));
    assert!(rt; file.syncs == 4);
    Ok(())
}

// Of the last record a byte of each word, but for one that is a zero anyway, makes it none where it is a zero still.
#[test]
fn a_torn_record_is_none(rt: HostRuntime) -> Result<(), Fail> {
    let file = two_records(rt.alloc()).expect(&rt, "a log");
    for at in [88, 96, 104, 112, 120, 128, 136, 144, 152] {
        let rows = rows_with(rt.alloc(), &file, at, 0);
        assert!(rt; rows.is_ok_and(|rows| rows.as_slice() == [(5, 50), (6, 60)].as_slice()));
    }
    let rows = rows_with(rt.alloc(), &file, 153, 0);
    assert!(rt; rows.is_ok_and(|rows| rows.as_slice() == [(6, 60), (7, 70)].as_slice()));
    Ok(())
}

// Damage to a record is told where another one stands behind it, or where no record stands before it. A seal stands behind the last one.
#[test]
fn damage_is_told(rt: HostRuntime) -> Result<(), Fail> {
    let file = two_records(rt.alloc()).expect(&rt, "a log");
    assert!(rt;
        rows_with(rt.alloc(), &file, 56, 4).is_err_and(|fault| fault == LogFault::Damaged(16))
    );
    assert!(rt; rows_with(rt.alloc(), &file, 100, 4).is_ok());
    let mut journal = Journal::over(file, 9);
    assert!(rt; journal.commit(rt.alloc(), &[(8, 80)], &[]).is_ok());
    assert!(rt; journal.commit(rt.alloc(), &[(9, 90)], &[]).is_ok());
    assert!(rt; journal.seal(rt.alloc()).is_ok());
    let file = journal.into_device();
    // The log was written anew with three rows: 16 + 8 * 11 bytes.
    assert!(rt;
        rows_with(rt.alloc(), &file, 140, 4).is_err_and(|fault| fault == LogFault::Damaged(104))
    );
    assert!(rt; rows_with(rt.alloc(), &file, 0, 65).is_err_and(|fault| fault == LogFault::Alien));
    Ok(())
}

// A file of half a word, one of a head without its salt, and one whose rows are those of no map.
#[test]
fn other_files_are_refused(rt: HostRuntime) -> Result<(), Fail> {
    assert!(rt; rows_in(rt.alloc(), &[]).is_ok_and(|rows| rows.is_empty()));
    assert!(rt; rows_in(rt.alloc(), b"BLNK").is_err_and(|fault| fault == LogFault::Alien));
    assert!(rt; rows_in(rt.alloc(), b"BLNKLOG1").is_err_and(|fault| fault == LogFault::Alien));
    let mut journal = Journal::over(
        File {
            alloc: rt.alloc(),
            bytes: Vec::new(rt.alloc()),
            syncs: 0,
        },
        7,
    );
    assert!(rt;
        journal
            .commit(rt.alloc(), &[(1, 10), (1, 11)], &[])
            .is_err_and(|fault| fault == LogFault::Broken)
    );
    assert!(rt;
        journal
            .commit(rt.alloc(), &[], &[(1, 10)])
            .is_err_and(|fault| fault == LogFault::Broken)
    );
    Ok(())
}

// An insertion brings its row, a put over another value and a change take the old row away, and a refused one changes nothing.
#[test]
fn writes_are_rows_that_come_and_go(rt: HostRuntime) -> Result<(), Fail> {
    let mut changes = Changes::new(rt.alloc());
    changes.note(1, KeyWrite::Insert(10), KeyReply::Inserted)?;
    changes.note(1, KeyWrite::Insert(11), KeyReply::Present(10))?;
    changes.note(1, KeyWrite::Put(12), KeyReply::Replaced(10))?;
    changes.note(2, KeyWrite::Put(20), KeyReply::Inserted)?;
    changes.note(1, KeyWrite::Change(12, 13), KeyReply::Changed)?;
    changes.note(2, KeyWrite::Delete, KeyReply::Deleted(20))?;
    assert!(rt; changes.came.as_slice() == [(1, 10), (1, 12), (2, 20), (1, 13)].as_slice());
    assert!(rt; changes.went.as_slice() == [(1, 10), (1, 12), (2, 20)].as_slice());
    let mut all = Changes::new(rt.alloc());
    all.take(&changes)?;
    assert!(rt; all == changes);
    all.clear();
    assert!(rt; all.came.is_empty() && all.went.is_empty());
    Ok(())
}
