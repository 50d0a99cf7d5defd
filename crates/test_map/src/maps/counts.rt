//! The least row from a key on, and how many rows there are.

use crate::maps::calls::{empty, fill};
use crate::maps::tables::{Answer, Call};
use bl_map::{Handle, KeyReply};
use std::alloc::Global;
use std::sync::Wait;

/// How many rows there are, each with ten times its key.
const ROWS: u64 = 3_000;

/// At the front, behind a hundred emptied leaves, at the end, and where there is none.
pub(crate) const LEAST: [(Call, Answer); 12] = [
    (Call::First, Answer::NoRow),
    (Call::Fill(0, ROWS), Answer::Number(ROWS)),
    (Call::Insert(u64::MAX, 1), Answer::Key(KeyReply::Inserted)),
    (Call::First, Answer::Row(0, 0)),
    (Call::FirstFrom(17), Answer::Row(17, 170)),
    (Call::Next(17), Answer::Row(18, 180)),
    (Call::Empty(0, 1_000), Answer::Number(1_000)),
    (Call::First, Answer::Row(1_000, 10_000)),
    (Call::Next(17), Answer::Row(1_000, 10_000)),
    (Call::Next(2_999), Answer::Row(u64::MAX, 1)),
    (Call::FirstFrom(u64::MAX), Answer::Row(u64::MAX, 1)),
    (Call::Next(u64::MAX), Answer::NoRow),
];

/// The same from the back.
pub(crate) const GREATEST: [(Call, Answer); 9] = [
    (Call::Last, Answer::NoRow),
    (Call::Fill(1, ROWS), Answer::Number(2_999)),
    (Call::Last, Answer::Row(2_999, 29_990)),
    (Call::LastTo(17), Answer::Row(17, 170)),
    (Call::Previous(17), Answer::Row(16, 160)),
    (Call::Empty(1_000, 2_999), Answer::Number(1_999)),
    (Call::Previous(2_999), Answer::Row(999, 9_990)),
    (Call::Previous(1), Answer::NoRow),
    (Call::Previous(0), Answer::NoRow),
];

/// All, all but the greatest key, those up to an end, some, and none.
pub(crate) const COUNTED: [(Call, Answer); 9] = [
    (Call::Count(0, None), Answer::Number(0)),
    (Call::Fill(0, ROWS), Answer::Number(ROWS)),
    (Call::Insert(u64::MAX, 1), Answer::Key(KeyReply::Inserted)),
    (Call::Count(0, None), Answer::Number(3_001)),
    (Call::Count(0, Some(u64::MAX)), Answer::Number(3_000)),
    (Call::Count(2_990, Some(5_000)), Answer::Number(10)),
    (Call::Count(100, Some(150)), Answer::Number(50)),
    (Call::Count(150, Some(150)), Answer::Number(0)),
    (Call::Count(150, Some(3)), Answer::Number(0)),
];

/// Rows downwards over emptied leaves.
const OVER_EMPTIED: [(u64, u64); 4] = [(2_991, 29_910), (2_990, 29_900), (19, 190), (18, 180)];

/// The rows of the first two keys, downwards.
const LOWEST: [(u64, u64); 2] = [(1, 10), (0, 0)];

/// The rows of the last two keys, downwards.
const HIGHEST: [(u64, u64); 2] = [(u64::MAX, 1), (2_999, 29_990)];

/// Rows come, those of the keys 20 to 2,989 go, and the greatest key comes. Says whether they all did.
fn is_emptied<R: Wait>(rt: &R, handle: &mut Handle<'_>) -> bool {
    fill(rt, handle, 0, ROWS) == ROWS
        && empty(rt, handle, 20, 2_990) == 2_970
        && handle.insert(rt, u64::MAX, 1) == KeyReply::Inserted
}

/// Whether a scan lists just these rows, from a key on downwards to another one.
fn is_listed<R: Wait>(
    rt: &R,
    alloc: Global,
    handle: &mut Handle<'_>,
    bounds: (u64, u64),
    wanted: &[(u64, u64)],
) -> bool {
    let mut rows = Vec::new(alloc);
    handle.scan_down(rt, bounds.0, bounds.1, &mut rows).is_ok() && rows.as_slice() == wanted
}

/// Rows are listed in falling order, over emptied leaves, to a key that is listed, and to one that is not.
pub(crate) fn are_listed_downwards<R: Wait>(
    rt: &R,
    alloc: Global,
    handle: &mut Handle<'_>,
) -> bool {
    is_emptied(rt, handle)
        && is_listed(rt, alloc, handle, (2_991, 18), OVER_EMPTIED.as_slice())
        && is_listed(rt, alloc, handle, (1, 0), LOWEST.as_slice())
        && is_listed(rt, alloc, handle, (0, 1), &[])
}

/// The rows from a key on downwards to another one, as a callback is told them.
fn told_down<R: Wait>(
    rt: &R,
    alloc: Global,
    handle: &mut Handle<'_>,
    from: u64,
    low: u64,
) -> Option<Vec<(u64, u64)>> {
    let mut rows = Vec::new(alloc);
    let mut has_room = true;
    let mut visit = |row: (u64, u64)| {
        has_room = rows.push(row).is_ok() && has_room;
    };
    handle.scan_down_with(rt, from, low, &mut visit);
    if has_room { Some(rows) } else { None }
}

/// Whether a callback is told just these rows.
fn is_told<R: Wait>(
    rt: &R,
    alloc: Global,
    handle: &mut Handle<'_>,
    bounds: (u64, u64),
    wanted: &[(u64, u64)],
) -> bool {
    match told_down(rt, alloc, handle, bounds.0, bounds.1) {
        Some(rows) => rows.as_slice() == wanted,
        None => false,
    }
}

/// A callback is told the same rows, each once, to the greatest key and to none.
pub(crate) fn are_told_downwards<R: Wait>(rt: &R, alloc: Global, handle: &mut Handle<'_>) -> bool {
    is_emptied(rt, handle)
        && is_told(rt, alloc, handle, (2_991, 18), OVER_EMPTIED.as_slice())
        && is_told(rt, alloc, handle, (1, 0), LOWEST.as_slice())
        && is_told(rt, alloc, handle, (5, 5), &[(5, 50)])
        && is_told(rt, alloc, handle, (u64::MAX, 2_999), HIGHEST.as_slice())
        && is_told(rt, alloc, handle, (100, 50), &[])
        && is_told(rt, alloc, handle, (0, 1), &[])
}
