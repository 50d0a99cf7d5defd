//! Handles commit, and what is found then.

ghost use Rattle.std.specs.Prelude.{All, IfSome};
ghost use Rattle.bl_map.specs.Maps.{AreSeatsOf};
ghost use Rattle.bl_map_log.specs.Notes.{IsNotingOf};

use crate::file::{File, empty};
use bl_journal::rows_in;
use bl_map::{KeyReply, KeyWrite, Map, Seat};
use bl_map_log::{MapLog, NotingHandle, OpenLogFault};
use std::alloc::Global;
use std::sync::Wait;
use std::test::Fail;

// A map of 64 pages for two threads, whose log is that file.
fn opened(alloc: Global, file: File) -> Option<(MapLog<File>, Map, Vec<Seat>)>
    ensures { IfSome result (λ t. AreSeatsOf t.1 t.2.items) }
{
    MapLog::open(alloc, file, 7, 64, 12, 2).ok()
}

// The last handle is for one thread, and the rest for others.
fn parted<'a>(map: &Map, handles: &mut Vec<NotingHandle<'a>>) -> Option<NotingHandle<'a>>
    requires { All (IsNotingOf map.now) handles.old.items }
    ensures one { IfSome result (IsNotingOf map.now) }
    ensures others { All (IsNotingOf map.now) handles.new.items }
{
    handles.pop()
}

// The first of the others writes a key.
fn write<R: Wait>(
    rt: &R,
    map: &Map,
    others: &mut [NotingHandle<'_>],
    key: u64,
    does: KeyWrite,
) -> Option<KeyReply>
    requires { All (IsNotingOf map.now) others.old }
    ensures { All (IsNotingOf map.now) others.new }
{
    if others.is_empty() {
        return None;
    }
    others[0].write(rt, key, does).ok()
}

// Rows come by both handles, and one of them changes and takes away what the other one has put. The first commit writes the log anew,
// the second one puts a record to it; of the third one there is nothing to write.
fn worked<R: Wait>(rt: &R, alloc: Global, file: File) -> Option<File> {
    let (mut log, map, mut seats) = opened(alloc, file)?;
    let mut handles = log.handles(alloc, &map, &mut seats).ok()?;
    let mut one = parted(&map, &mut handles)?;
    let others = handles.as_mut_slice();
    one.insert(rt, 5, 50).ok()?;
    one.put(rt, 6, 60).ok()?;
    write(rt, &map, others, 6, KeyWrite::Put(61))?;
    log.commit(alloc, &map, &mut one, others).ok()?;
    write(rt, &map, others, 5, KeyWrite::Delete)?;
    one.insert(rt, 7, 70).ok()?;
    write(rt, &map, others, 7, KeyWrite::Change(70, 71))?;
    log.commit(alloc, &map, &mut one, others).ok()?;
    log.commit(alloc, &map, &mut one, others).ok()?;
    one.put(rt, 8, 80).ok()?;
    Some(log.into_device())
}

// The rows of the log of a file.
fn rows_of(alloc: Global, file: &File) -> Option<Vec<(u64, u64)>> {
    rows_in(alloc, file.bytes.as_slice()).ok()
}

// 16 bytes of a head and a record of 4 + 1 + 2 * 2 words: the log is written anew with the two rows that are left. The second record has 4 + 1
// words, and four rows: (7, 70) and (7, 71) came, (5, 50) and (7, 70) went. What was put behind it is in no record. The file is synced before it
// is read, by the opening and by the first commit, which replaces it, and behind the second record.
#[test]
fn what_was_committed_is_there(rt: HostRuntime) -> Result<(), Fail> {
    let file = worked(&rt, rt.alloc(), empty(rt.alloc())).ok_or("no commit")?;
    assert!(rt; file.syncs == 4 && file.bytes.len() == 88 + 1_048_576);
    assert!(rt; file.bytes.get(88..96) == Some(&[13, 0, 0, 0, 0, 0, 0, 0]));
    assert!(rt; file.bytes.get(192..200) == Some(&[0; 8]));
    let rows = rows_of(rt.alloc(), &file).ok_or("no log")?;
    assert!(rt; rows.as_slice() == [(6, 61), (7, 71)].as_slice());
    Ok(())
}

// Of the second record the first word is a zero still: the log is that of the first commit.
#[test]
fn what_a_crash_cuts_short_is_not_there(rt: HostRuntime) -> Result<(), Fail> {
    let mut file = worked(&rt, rt.alloc(), empty(rt.alloc())).ok_or("no commit")?;
    if let Some(there) = file.bytes.get_mut(88) {
        *there = 0;
    }
    let rows = rows_of(rt.alloc(), &file).ok_or("no log")?;
    assert!(rt; rows.as_slice() == [(5, 50), (6, 61)].as_slice());
    Ok(())
}

// Another process finds what was committed, and goes on with it.
fn found_again<R: Wait>(rt: &R, alloc: Global, file: File) -> Option<Vec<(u64, u64)>> {
    let (mut log, map, mut seats) = opened(alloc, file)?;
    let mut handles = log.handles(alloc, &map, &mut seats).ok()?;
    let mut one = parted(&map, &mut handles)?;
    let others = handles.as_mut_slice();
    write(rt, &map, others, 9, KeyWrite::Insert(90))?;
    one.delete(rt, 6).ok()?;
    log.commit(alloc, &map, &mut one, others).ok()?;
    let mut rows = Vec::new(alloc);
    one.scan(rt, 0, None, &mut rows).ok()?;
    let file = log.into_device();
    let kept = rows_of(alloc, &file)?;
    (kept.as_slice() == rows.as_slice()).then_some(rows)
}

#[test]
fn a_log_is_gone_on_with(rt: HostRuntime) -> Result<(), Fail> {
    let file = worked(&rt, rt.alloc(), empty(rt.alloc())).ok_or("no commit")?;
    let rows = found_again(&rt, rt.alloc(), file).ok_or("it is not gone on with")?;
    assert!(rt; rows.as_slice() == [(7, 71), (9, 90)].as_slice());
    Ok(())
}

// A log that is none.
#[test]
fn what_is_no_log_is_refused(rt: HostRuntime) -> Result<(), Fail> {
    let mut file = empty(rt.alloc());
    assert!(rt; file.bytes.push(1).is_ok());
    let refused = matches!(
        MapLog::open(rt.alloc(), file, 7, 64, 12, 2),
        Err(OpenLogFault::Log(_))
    );
    assert!(rt; refused);
    Ok(())
}
