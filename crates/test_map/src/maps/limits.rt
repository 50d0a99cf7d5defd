//! Rows by pages: so many at most, and from where the next ones begin. Rows of a range, at one moment.

use crate::maps::calls::fill;
use bl_map::{Handle, KeyReply};
use std::alloc::Global;
use std::sync::Wait;

/// How many rows there are, each with ten times its key.
const ROWS: u64 = 40;

/// A call: from a key on, below an end, if there is one, so many rows at most, and where the next ones begin behind it, if they do.
type Page = (u64, Option<u64>, usize, Option<u64>);

/// Lists rows by one call after another, each behind those of the calls before. Says whether the next ones begin where they must.
fn list_by<R: Wait>(
    rt: &R,
    handle: &mut Handle<'_>,
    pages: &[Page],
    rows: &mut Vec<(u64, u64)>,
) -> bool {
    for page in pages {
        match handle.scan_at_most(rt, page.0, page.1, page.2, rows) {
            Ok(next) => {
                if next != page.3 {
                    return false;
                }
            }
            Err(_) => return false,
        }
    }
    true
}

/// Whether the rows are so many, of the keys from that one on, each with ten times its key.
fn are_tens(rows: &[(u64, u64)], from: u64, count: usize) -> bool {
    let mut key = from;
    for row in rows {
        if row.0 != key || row.1 != key.saturating_mul(10) {
            return false;
        }
        key = key.saturating_add(1);
    }
    rows.len() == count
}

/// Seven at a time from 5 on, up to an end behind the fourth of a page.
const SEVENS: [Page; 4] = [
    (5, Some(30), 7, Some(12)),
    (12, Some(30), 7, Some(19)),
    (19, Some(30), 7, Some(26)),
    (26, Some(30), 7, None),
];

pub(crate) fn are_listed_by_pages<R: Wait>(rt: &R, alloc: Global, handle: &mut Handle<'_>) -> bool {
    let mut rows = Vec::new(alloc);
    fill(rt, handle, 0, ROWS) == ROWS
        && list_by(rt, handle, &SEVENS, &mut rows)
        && are_tens(rows.as_slice(), 5, 25)
}

/// As many as are left, to an end and to that of the map; all; none; and below no key.
const LAST: [Page; 6] = [
    (23, Some(30), 7, None),
    (33, None, 7, None),
    (0, None, usize::MAX, None),
    (5, None, 0, Some(5)),
    (5, Some(5), 0, None),
    (5, Some(3), 7, None),
];

pub(crate) fn last_pages_are_listed<R: Wait>(
    rt: &R,
    alloc: Global,
    handle: &mut Handle<'_>,
) -> bool {
    let mut rows = Vec::new(alloc);
    fill(rt, handle, 0, ROWS) == ROWS && list_by(rt, handle, &LAST, &mut rows) && rows.len() == 54
}

/// A map that has no row.
const NONE: [Page; 1] = [(0, None, 7, None)];

/// A map that has a row of the greatest key and one before it.
const GREATEST: [Page; 3] = [
    (0, None, 1, Some(u64::MAX)),
    (u64::MAX, None, 1, None),
    (4, Some(u64::MAX), 1, None),
];

/// The greatest key is listed last, in a map that had no row before.
pub(crate) fn greatest_key_is_listed<R: Wait>(
    rt: &R,
    alloc: Global,
    handle: &mut Handle<'_>,
) -> bool {
    let mut rows = Vec::new(alloc);
    list_by(rt, handle, &NONE, &mut rows)
        && rows.is_empty()
        && handle.insert(rt, 3, 30) == KeyReply::Inserted
        && handle.insert(rt, u64::MAX, 1) == KeyReply::Inserted
        && list_by(rt, handle, &GREATEST, &mut rows)
        && rows.as_slice() == [(3, 30), (u64::MAX, 1)].as_slice()
}

/// Ranges with an end and without one, each behind the rows of those before; one whose end is not above its first key; and how many rows they
/// have. Nobody writes, so none begins again.
pub(crate) fn ranges_are_read<R: Wait>(rt: &R, alloc: Global, handle: &mut Handle<'_>) -> bool {
    let mut rows = Vec::new(alloc);
    fill(rt, handle, 0, ROWS) == ROWS
        && handle.range(rt, 7, Some(30), 0, &mut rows) == Ok(0)
        && are_tens(rows.as_slice(), 7, 23)
        && handle.range(rt, 30, Some(30), 0, &mut rows) == Ok(0)
        && rows.len() == 23
        && handle.range(rt, 30, None, 0, &mut rows) == Ok(0)
        && are_tens(rows.as_slice(), 7, 33)
        && handle.count_range(rt, alloc, 7, Some(30), 0) == Ok(23)
        && handle.count_range(rt, alloc, 9, Some(9), 0) == Ok(0)
}
