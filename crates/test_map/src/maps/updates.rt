//! A row is changed by a function of its value, and a map that is in use is copied.

use crate::maps::calls::{fill, shared};
use bl_check::Quiet;
use bl_map::{Handle, KeyReply, LoadFault, Map, Updated};
use std::alloc::Global;
use std::sync::Wait;
use std::test::Fail;
use std::thread;
use std::thread::Threads;

/// A row is doubled where it is there.
pub(crate) fn function_changes<R: Wait>(rt: &R, handle: &mut Handle<'_>) -> bool {
    let mut double = |value: u64| value.wrapping_mul(2);
    if handle.update(rt, 5, &mut double) != Updated::Absent {
        return false;
    }
    if handle.insert(rt, 5, 50) != KeyReply::Inserted {
        return false;
    }
    if handle.update(rt, 5, &mut double) != Updated::Changed(50, 100) {
        return false;
    }
    if handle.update(rt, 5, &mut double) != Updated::Changed(100, 200) {
        return false;
    }
    handle.find(rt, 5) == KeyReply::Found(200)
}

/// What an update by one handle answers whose row another handle changes behind its back, once, and how often the function is called.
fn update_beside<R: Wait>(rt: &R, one: &mut Handle<'_>, two: &mut Handle<'_>) -> (Updated, u64) {
    let mut calls = 0u64;
    let mut add = |value: u64| {
        calls = calls.wrapping_add(1);
        if calls == 1 {
            two.change(rt, 5, 50, 70);
        }
        value.wrapping_add(1)
    };
    let updated = one.update(rt, 5, &mut add);
    (updated, calls)
}

// The function is called with the value for which it is asked last.
#[test]
fn a_value_that_others_changed_is_asked_for_again(rt: HostRuntime) -> Result<(), Fail> {
    let (map, one, two) = shared(rt.alloc(), 4).ok_or("no map")?;
    let mut one = map.handle(one);
    let mut two = map.handle(two);
    let inserted = one.insert(&rt, 5, 50);
    let seen = update_beside(&rt, &mut one, &mut two);
    assert!(rt; inserted == KeyReply::Inserted && seen == (Updated::Changed(70, 71), 2));
    Ok(())
}

/// How often each of two threads counts a row up.
const TIMES: u64 = 2_000;

fn count_up<R: Wait>(rt: &R, handle: &mut Handle<'_>) {
    for _ in 0..TIMES {
        handle.update(rt, 7, &mut |value: u64| value.wrapping_add(1));
    }
}

fn count_up_all<R: Threads + Wait + Sync>(rt: &R, handles: &mut [Handle<'_>]) {
    thread::for_each_mut(rt, handles, 2, &|_place, handle| count_up(rt, handle));
}

#[test]
fn no_update_is_lost(rt: HostRuntime) -> Result<(), Fail> {
    let (map, one, two) = shared(rt.alloc(), 1_024).ok_or("no map")?;
    let mut handles = [map.handle(one), map.handle(two)];
    let inserted = handles[0].insert(&rt, 7, 0);
    count_up_all(&rt, &mut handles);
    let found = handles[1].find(&rt, 7);
    assert!(rt; inserted == KeyReply::Inserted && found == KeyReply::Found(4_000));
    Ok(())
}

/// How many rows a map of this image has, and what it answers to a find of a key; nothing, where none is opened.
fn found_in<R: Wait>(rt: &R, alloc: Global, image: Quiet, key: u64) -> Option<(u64, KeyReply)> {
    let (map, mut seats) = Map::open_image(alloc, image, 1).ok()?;
    let seat = seats.pop()?;
    let mut handle = map.handle(seat);
    Some((handle.count(rt, 0, None), handle.find(rt, key)))
}

/// The same of a copy, of whose map the key is deleted before the copy is opened.
fn found_in_copy<R: Wait>(
    rt: &R,
    alloc: Global,
    of: &mut Handle<'_>,
    key: u64,
) -> Option<(u64, KeyReply)> {
    let copy = of.copy(rt, alloc, 14).ok()?;
    of.delete(rt, key);
    found_in(rt, alloc, copy, key)
}

/// A copy with two rows a leaf has no room. One that is full has each row, and is a map of its own.
pub(crate) fn copy_opens<R: Wait>(rt: &R, alloc: Global, handle: &mut Handle<'_>) -> bool {
    fill(rt, handle, 0, 3_000) == 3_000
        && handle.copy(rt, alloc, 2).err() == Some(LoadFault::Room)
        && found_in_copy(rt, alloc, handle, 17) == Some((3_000, KeyReply::Found(170)))
        && handle.find(rt, 17) == KeyReply::Absent
}
