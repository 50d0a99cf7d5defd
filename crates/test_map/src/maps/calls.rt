//! Calls of handles.

ghost use Rattle.std.specs.Prelude.{IfSome};
ghost use Rattle.bl_map.specs.Maps.{IsSeatOf};

use crate::maps::tables::{Answer, Call};
use bl_map::{Backlog, Handle, KeyReply, Map, OpenFault, Seat};
use std::alloc::Global;
use std::sync::Wait;
use std::test::Fail;
use std::thread;
use std::thread::Threads;

/// How many rows are inserted where there are many.
const MANY: u64 = 5_000;

/// How many of them are deleted.
const GONE: u64 = 4_990;

/// The rows below 4,993 that are left.
const LEFT: [(u64, u64); 3] = [(4_990, 49_900), (4_991, 49_910), (4_992, 49_920)];

/// A map of so many pages with one seat.
pub(crate) fn opened(alloc: Global, pages: u32) -> Option<(Map, Seat)>
    ensures { IfSome result (λ t. IsSeatOf t.0 t.1) }
{
    let (map, mut seats) = Map::open(alloc, pages, 1).ok()?;
    let seat = seats.pop()?;
    Some((map, seat))
}

/// A map of so many pages with two seats.
pub(crate) fn shared(alloc: Global, pages: u32) -> Option<(Map, Seat, Seat)>
    ensures { IfSome result (λ t. IsSeatOf t.0 t.1 × IsSeatOf t.0 t.2) }
{
    let (map, mut seats) = Map::open(alloc, pages, 2).ok()?;
    let two = seats.pop()?;
    let one = seats.pop()?;
    Some((map, one, two))
}

/// A row comes and goes.
pub(crate) const ROW: [(Call, Answer); 11] = [
    (Call::Find(5), Answer::Key(KeyReply::Absent)),
    (Call::Insert(5, 50), Answer::Key(KeyReply::Inserted)),
    (Call::Insert(5, 60), Answer::Key(KeyReply::Present(50))),
    (Call::Find(5), Answer::Key(KeyReply::Found(50))),
    (Call::Change(5, 50, 70), Answer::Key(KeyReply::Changed)),
    (Call::Change(5, 50, 80), Answer::Key(KeyReply::Differs(70))),
    (Call::Put(5, 90), Answer::Key(KeyReply::Replaced(70))),
    (Call::Delete(5), Answer::Key(KeyReply::Deleted(90))),
    (Call::Delete(5), Answer::Key(KeyReply::Absent)),
    (Call::Change(5, 70, 80), Answer::Key(KeyReply::Absent)),
    (Call::Put(5, 60), Answer::Key(KeyReply::Inserted)),
];

/// Inserts the keys from one on and below another. Says how many were inserted.
pub(crate) fn fill<R: Wait>(rt: &R, handle: &mut Handle<'_>, from: u64, to: u64) -> u64 {
    let mut inserted = 0u64;
    for key in from..to {
        if handle.insert(rt, key, key.wrapping_mul(10)) == KeyReply::Inserted {
            inserted = inserted.wrapping_add(1);
        }
    }
    inserted
}

/// Deletes these rows. Says how many were deleted.
pub(crate) fn empty<R: Wait>(rt: &R, handle: &mut Handle<'_>, from: u64, to: u64) -> u64 {
    let mut deleted = 0u64;
    for key in from..to {
        if handle.delete(rt, key) == KeyReply::Deleted(key.wrapping_mul(10)) {
            deleted = deleted.wrapping_add(1);
        }
    }
    deleted
}

/// Many rows come, and most of them go. Nothing is left to do, and the last ones are there.
pub(crate) fn many_come_and_go<R: Wait>(rt: &R, alloc: Global, handle: &mut Handle<'_>) -> bool {
    if fill(rt, handle, 0, MANY) != MANY || empty(rt, handle, 0, GONE) != GONE {
        return false;
    }
    let none = Backlog {
        waiting: 0,
        dropped: 0,
    };
    if handle.upkeep(rt, 100) != none {
        return false;
    }
    let mut rows = Vec::new(alloc);
    handle.scan(rt, 3, Some(4_993), &mut rows).is_ok() && rows.as_slice() == LEFT.as_slice()
}

/// The rows of a range, as a callback is told them.
fn told<R: Wait>(rt: &R, handle: &mut Handle<'_>, from: u64, to: Option<u64>) -> (u64, u64, bool) {
    let mut count = 0u64;
    let mut last = 0u64;
    let mut are_rising = true;
    let mut visit = |row: (u64, u64)| {
        are_rising = are_rising && (count == 0 || last < row.0);
        count = count.wrapping_add(1);
        last = row.0;
    };
    handle.scan_with(rt, from, to, &mut visit);
    (count, last, are_rising)
}

/// A callback is told each row of a range once: of all, of some, and of none.
pub(crate) fn callback_is_told<R: Wait>(rt: &R, handle: &mut Handle<'_>) -> bool {
    if fill(rt, handle, 0, MANY) != MANY {
        return false;
    }
    let all = told(rt, handle, 0, None);
    let some = told(rt, handle, 100, Some(150));
    let none = told(rt, handle, 150, Some(150));
    all == (MANY, 4_999, true) && some == (50, 149, true) && none == (0, 0, true)
}

fn fill_all<R: Threads + Wait + Sync>(rt: &R, handles: &mut [Handle<'_>]) {
    thread::for_each_mut(
        rt,
        handles,
        2,
        &|place, handle| {
            let from = if place == 0 { 0 } else { MANY / 2 };
            fill(rt, handle, from, from.wrapping_add(MANY / 2));
        },
    );
}

/// How many rows a scan of the whole map lists; nothing, where memory is refused.
fn count_listed<R: Wait>(rt: &R, alloc: Global, handle: &mut Handle<'_>) -> Option<usize> {
    let mut rows = Vec::new(alloc);
    handle.scan(rt, 0, None, &mut rows).ok()?;
    Some(rows.len())
}

#[test]
fn two_threads_share_a_map(rt: HostRuntime) -> Result<(), Fail> {
    let (map, one, two) = shared(rt.alloc(), 1_024).ok_or("no map")?;
    let mut handles = [map.handle(one), map.handle(two)];
    fill_all(&rt, &mut handles);
    assert!(rt; count_listed(&rt, rt.alloc(), &mut handles[0]) == Some(MANY as usize));
    Ok(())
}

#[test]
fn handles_meet(rt: HostRuntime) -> Result<(), Fail> {
    let (map, one, two) = shared(rt.alloc(), 1_024).ok_or("no map")?;
    let mut one = map.handle(one);
    let mut two = map.handle(two);
    let inserted = one.insert(&rt, 7, 70);
    one.meet(&mut two);
    assert!(rt; inserted == KeyReply::Inserted && two.find(&rt, 7) == KeyReply::Found(70));
    Ok(())
}

#[test]
fn limits_are_named(rt: HostRuntime) {
    let few = Map::open(rt.alloc(), 3, 1);
    let many = Map::open(rt.alloc(), 4, 65);
    assert!(rt; matches!(few, Err(OpenFault::Pages)) && matches!(many, Err(OpenFault::Passes)));
}
