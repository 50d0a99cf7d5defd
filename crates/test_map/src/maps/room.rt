//! Rows that come and go find room, and a map is put in order when they have gone.

use crate::maps::calls::{empty, fill, shared};
use bl_map::{Handle, KeyReply, RoomSeen};
use std::sync::Wait;
use std::test::Fail;

/// With so many pages some six rows a page surely fit: so many.
const PAGES: u32 = 256;

const SURELY: u64 = 1_528;

/// A window of so many living rows moves over so many insertions.
const LIVING: u64 = 1_222;

const INSERTIONS: u64 = 12_000;

/// Of a map without a row all pages are free but the anchor and one leaf.
const FREE: u64 = 254;

/// Inserts a key, and deletes the one that came so many before. Says whether both were answered as they must be.
fn step<R: Wait>(rt: &R, one: &mut Handle<'_>, other: &mut Handle<'_>, key: u64) -> bool {
    if one.insert(rt, key, key.wrapping_mul(10)) != KeyReply::Inserted {
        return false;
    }
    if key < LIVING {
        return true;
    }
    let old = key - LIVING;
    other.delete(rt, old) == KeyReply::Deleted(old.wrapping_mul(10))
}

/// How many steps of a window are not answered as they must be.
fn refused<R: Wait>(rt: &R, one: &mut Handle<'_>, other: &mut Handle<'_>) -> u64 {
    let mut count = 0u64;
    for key in 0..INSERTIONS {
        if !step(rt, one, other, key) {
            count = count.wrapping_add(1);
        }
    }
    count
}

/// A window moves, and when its rows have gone one leaf is left.
fn window_moves<R: Wait>(rt: &R, one: &mut Handle<'_>, two: &mut Handle<'_>) -> bool {
    if refused(rt, one, two) != 0 || empty(rt, one, INSERTIONS - LIVING, INSERTIONS) != LIVING {
        return false;
    }
    two.tidy(rt);
    one.tidy(rt).waiting == 0 && one.free_pages() == FREE
}

#[test]
fn a_window_moves_and_leaves_one_leaf(rt: HostRuntime) -> Result<(), Fail> {
    let (map, one, two) = shared(rt.alloc(), PAGES).ok_or("no map")?;
    let mut one = map.handle(one);
    let mut two = map.handle(two);
    assert!(rt; window_moves(&rt, &mut one, &mut two));
    Ok(())
}

/// Rows come and go in waves, each of as many as surely fit, and one leaf is left.
pub(crate) fn waves_find_room<R: Wait>(rt: &R, handle: &mut Handle<'_>) -> bool {
    for _wave in 0..6 {
        if fill(rt, handle, 0, SURELY) != SURELY || empty(rt, handle, 0, SURELY) != SURELY {
            return false;
        }
    }
    handle.tidy(rt);
    handle.free_pages() == FREE
}

/// A full map lacks pages until its rows go.
pub(crate) fn full_map_refuses<R: Wait>(rt: &R, handle: &mut Handle<'_>) -> bool {
    let rows = fill(rt, handle, 0, 14 * u64::from(PAGES));
    SURELY <= rows
        && handle.lacks_pages()
        && empty(rt, handle, 0, rows) == rows
        && fill(rt, handle, 0, SURELY) == SURELY
}

/// The anchor and one leaf, with a frame each. There are two frames for each page, and eight for the seat.
const AT_FIRST: RoomSeen = RoomSeen {
    pages: 64,
    used_pages: 2,
    free_pages: 62,
    frames: 136,
    free_frames: 134,
};

/// A leaf of 14 rows splits at the next one: two leaves, and a page above them.
const WHEN_SPLIT: RoomSeen = RoomSeen {
    pages: 64,
    used_pages: 4,
    free_pages: 60,
    frames: 136,
    free_frames: 132,
};

pub(crate) fn room_is_right<R: Wait>(rt: &R, handle: &mut Handle<'_>) -> bool {
    if handle.room() != AT_FIRST || fill(rt, handle, 0, 15) != 15 {
        return false;
    }
    handle.tidy(rt);
    handle.room() == WHEN_SPLIT
}
