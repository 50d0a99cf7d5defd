//! A scan, and changes of another handle while it runs.

use crate::maps::calls::{fill, shared};
use bl_map::{Handle, KeyReply};
use std::sync::Wait;
use std::test::Fail;

/// Three times as many as the largest map of two seats has frames.
const ROWS: u64 = 400_000;

/// How many pages the largest map has.
const PAGES: u32 = 65_536;

/// Scans with one handle, and at each row changes the value of key 0 with the other one. Says how many rows there were, and how many
/// changes found room.
fn scan_beside_changes<R: Wait>(rt: &R, one: &mut Handle<'_>, two: &mut Handle<'_>) -> (u64, u64) {
    let mut told = 0u64;
    let mut changed = 0u64;
    let mut visit = |_row: (u64, u64)| {
        told = told.wrapping_add(1);
        if two.change(rt, 0, changed, changed.wrapping_add(1)) == KeyReply::Changed {
            changed = changed.wrapping_add(1);
        }
    };
    one.scan_with(rt, 0, None, &mut visit);
    (told, changed)
}

/// Each change takes a frame and swaps another one out, so there is room for so many only where frames are given back while the scan
/// runs.
fn frames_suffice<R: Wait>(rt: &R, one: &mut Handle<'_>, two: &mut Handle<'_>) -> bool {
    fill(rt, one, 0, ROWS) == ROWS
        && scan_beside_changes(rt, one, two) == (ROWS, ROWS)
        && two.find(rt, 0) == KeyReply::Found(ROWS)
}

#[test]
fn frames_are_given_back_while_a_scan_runs(rt: HostRuntime) -> Result<(), Fail> {
    let (map, one, two) = shared(rt.alloc(), PAGES).ok_or("no map")?;
    let mut one = map.handle(one);
    let mut two = map.handle(two);
    assert!(rt; frames_suffice(&rt, &mut one, &mut two));
    Ok(())
}
