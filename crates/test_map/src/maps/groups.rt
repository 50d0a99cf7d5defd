//! Many keys at once.

use crate::maps::calls::fill;
use bl_map::{Handle, KeyReply};
use std::sync::Wait;

/// How many rows there are.
const ROWS: u64 = 3_000;

/// Keys that are looked up at once, and what is found: more than one group, in no order, the first and the last row, one twice, and keys
/// behind all rows.
const KEYS: [u64; 11] = [2_999, 0, 17, 3_000, 1_500, 1, 2_998, 700, 701, 17, u64::MAX];

const FOUND: [KeyReply; 11] = [
    KeyReply::Found(29_990),
    KeyReply::Found(0),
    KeyReply::Found(170),
    KeyReply::Absent,
    KeyReply::Found(15_000),
    KeyReply::Found(10),
    KeyReply::Found(29_980),
    KeyReply::Found(7_000),
    KeyReply::Found(7_010),
    KeyReply::Found(170),
    KeyReply::Absent,
];

pub(crate) fn many_are_found<R: Wait>(rt: &R, handle: &mut Handle<'_>) -> bool {
    if fill(rt, handle, 0, ROWS) != ROWS {
        return false;
    }
    let keys = KEYS;
    let mut replies = [KeyReply::NoRoom; 11];
    handle.fetch(&keys);
    handle.find_many(rt, &keys, &mut replies);
    replies == FOUND
}

/// There is nothing to guess at in an empty map, and no harm in it.
pub(crate) fn none_are_found<R: Wait>(rt: &R, handle: &mut Handle<'_>) -> bool {
    let mut replies = [KeyReply::NoRoom; 2];
    handle.fetch(&[]);
    handle.find_many(rt, &[], &mut []);
    handle.find_many(rt, &[0, u64::MAX], &mut replies);
    replies == [KeyReply::Absent, KeyReply::Absent]
}

/// Rows that are given at once: more than one group, and a key twice.
const GIVEN: [(u64, u64); 10] = [
    (9, 90),
    (1, 10),
    (5, 50),
    (8, 80),
    (2, 20),
    (7, 70),
    (3, 30),
    (6, 60),
    (4, 40),
    (9, 91),
];

/// They are inserted beside a row that is there already.
fn are_inserted<R: Wait>(rt: &R, handle: &mut Handle<'_>) -> bool {
    if handle.insert(rt, 5, 55) != KeyReply::Inserted {
        return false;
    }
    let rows = GIVEN;
    let mut replies = [KeyReply::Absent; 10];
    let answered = handle.insert_many(rt, &rows, &mut replies);
    let mut wanted = [KeyReply::Inserted; 10];
    wanted[2] = KeyReply::Present(55);
    wanted[9] = KeyReply::Present(90);
    answered == 10 && replies == wanted
}

/// Some of them are taken away.
fn are_deleted<R: Wait>(rt: &R, handle: &mut Handle<'_>) -> bool {
    let mut gone = [KeyReply::NoRoom; 3];
    let answered = handle.delete_many(rt, &[9, 5, 9], &mut gone);
    let wanted = [
        KeyReply::Deleted(90),
        KeyReply::Deleted(55),
        KeyReply::Absent,
    ];
    answered == 3 && gone == wanted && handle.find(rt, 4) == KeyReply::Found(40)
}

pub(crate) fn many_are_inserted<R: Wait>(rt: &R, handle: &mut Handle<'_>) -> bool {
    are_inserted(rt, handle) && are_deleted(rt, handle)
}

/// They are put beside two rows that are there already, of which one keeps its value.
fn are_put<R: Wait>(rt: &R, handle: &mut Handle<'_>) -> bool {
    if handle.insert(rt, 5, 55) != KeyReply::Inserted
        || handle.insert(rt, 2, 20) != KeyReply::Inserted
    {
        return false;
    }
    let rows = GIVEN;
    let mut replies = [KeyReply::Absent; 10];
    let answered = handle.put_many(rt, &rows, &mut replies);
    let mut wanted = [KeyReply::Inserted; 10];
    wanted[2] = KeyReply::Replaced(55);
    wanted[4] = KeyReply::Replaced(20);
    wanted[9] = KeyReply::Replaced(90);
    answered == 10 && replies == wanted
}

pub(crate) fn many_are_put<R: Wait>(rt: &R, handle: &mut Handle<'_>) -> bool {
    if !are_put(rt, handle) {
        return false;
    }
    let mut found = [KeyReply::NoRoom; 4];
    handle.find_many(rt, &[9, 5, 2, 4], &mut found);
    found
        == [
            KeyReply::Found(91),
            KeyReply::Found(50),
            KeyReply::Found(20),
            KeyReply::Found(40),
        ]
}

/// The rows of the keys 0 to 63.
fn sevens() -> [(u64, u64); 64] {
    let mut rows = [(0, 0); 64];
    for i in 0..64 {
        rows[i] = (i as u64, 7);
    }
    rows
}

/// Whether more than 14 keys were answered, but not all: each so but the last one, for which there was no room.
fn end_full(replies: &[KeyReply; 64], answered: usize, before: KeyReply) -> bool {
    if answered <= 14 || 64 <= answered {
        return false;
    }
    for i in 0..answered - 1 {
        if replies[i] != before {
            return false;
        }
    }
    replies[answered - 1] == KeyReply::NoRoom
}

/// Whether nothing was done with the first of the keys that was not answered, nor with the one before it.
fn is_left<R: Wait>(
    rt: &R,
    handle: &mut Handle<'_>,
    replies: &[KeyReply; 64],
    answered: usize,
) -> bool {
    if answered <= 14 || 64 <= answered {
        return false;
    }
    replies[answered] == KeyReply::Absent
        && handle.find(rt, answered as u64 - 1) == KeyReply::Absent
}

/// A map of four pages has room for three leaves at most: where there is none the call ends, and says so in its last reply.
pub(crate) fn are_inserted_until_full<R: Wait>(rt: &R, handle: &mut Handle<'_>) -> bool {
    let rows = sevens();
    let mut replies = [KeyReply::Absent; 64];
    let answered = handle.insert_many(rt, &rows, &mut replies);
    end_full(&replies, answered, KeyReply::Inserted) && is_left(rt, handle, &replies, answered)
}

/// The rows that are there are replaced where nothing is free any more, and the first new one finds no room.
pub(crate) fn are_put_until_full<R: Wait>(rt: &R, handle: &mut Handle<'_>) -> bool {
    let rows = sevens();
    let mut replies = [KeyReply::Absent; 64];
    let first = handle.put_many(rt, &rows, &mut replies);
    if !end_full(&replies, first, KeyReply::Inserted) {
        return false;
    }
    let second = handle.put_many(rt, &rows, &mut replies);
    second == first && end_full(&replies, second, KeyReply::Replaced(7))
}
