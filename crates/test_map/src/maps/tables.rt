//! Calls of the one handle of a new map, and what they must answer, in tables. One function owns the map for all of them, so no test owns
//! one: what a test owns makes its proof long.

use crate::maps::calls::{ROW, empty, fill, opened};
use crate::maps::counts::{COUNTED, GREATEST, LEAST};
use bl_map::{Handle, KeyReply};
use std::alloc::Global;
use std::sync::Wait;

/// A call.
#[derive(Clone, Copy)]
pub(crate) enum Call {
    Find(u64),
    Insert(u64, u64),
    Change(u64, u64, u64),
    Put(u64, u64),
    Delete(u64),
    /// The keys from one on and below another are inserted, each with ten times itself.
    Fill(u64, u64),
    /// They are deleted.
    Empty(u64, u64),
    First,
    FirstFrom(u64),
    Next(u64),
    Last,
    LastTo(u64),
    Previous(u64),
    Count(u64, Option<u64>),
}

/// What a call has answered.
#[derive(Clone, Copy, PartialEq, Eq)]
pub(crate) enum Answer {
    Key(KeyReply),
    /// How many rows there are, or of how many keys the row was inserted or deleted.
    Number(u64),
    Row(u64, u64),
    NoRow,
}

fn row_answer(row: Option<(u64, u64)>) -> Answer {
    match row {
        Some((key, value)) => Answer::Row(key, value),
        None => Answer::NoRow,
    }
}

/// Makes a call.
fn make_call<R: Wait>(rt: &R, handle: &mut Handle<'_>, call: Call) -> Answer {
    match call {
        Call::Find(key) => Answer::Key(handle.find(rt, key)),
        Call::Insert(key, value) => Answer::Key(handle.insert(rt, key, value)),
        Call::Change(key, old, new) => Answer::Key(handle.change(rt, key, old, new)),
        Call::Put(key, value) => Answer::Key(handle.put(rt, key, value)),
        Call::Delete(key) => Answer::Key(handle.delete(rt, key)),
        Call::Fill(from, to) => Answer::Number(fill(rt, handle, from, to)),
        Call::Empty(from, to) => Answer::Number(empty(rt, handle, from, to)),
        Call::First => row_answer(handle.first(rt)),
        Call::FirstFrom(key) => row_answer(handle.first_from(rt, key)),
        Call::Next(key) => row_answer(handle.next(rt, key)),
        Call::Last => row_answer(handle.last(rt)),
        Call::LastTo(key) => row_answer(handle.last_to(rt, key)),
        Call::Previous(key) => row_answer(handle.previous(rt, key)),
        Call::Count(from, to) => Answer::Number(handle.count(rt, from, to)),
    }
}

/// Makes the calls up to the first that is not answered as it must be. Says how many are.
fn count_right<R: Wait>(rt: &R, handle: &mut Handle<'_>, calls: &[(Call, Answer)]) -> u64 {
    let mut count = 0u64;
    for call in calls {
        if make_call(rt, handle, call.0) != call.1 {
            return count;
        }
        count = count.wrapping_add(1);
    }
    count
}

/// The same in a new map of so many pages; nothing, where none is opened.
fn right_of<R: Wait>(rt: &R, alloc: Global, pages: u32, calls: &[(Call, Answer)]) -> Option<u64> {
    let (map, seat) = opened(alloc, pages)?;
    let mut handle = map.handle(seat);
    Some(count_right(rt, &mut handle, calls))
}

/// Each table, with the pages of the map in which its calls are made.
const TABLES: [(u32, &[(Call, Answer)]); 4] = [
    (4, &ROW),
    (1_024, &LEAST),
    (1_024, &GREATEST),
    (1_024, &COUNTED),
];

#[test]
fn calls_answer_as_their_tables_say(rt: HostRuntime) {
    for (pages, calls) in TABLES {
        let right = right_of(&rt, rt.alloc(), pages, calls);
        assert_eq!(rt; right, Some(calls.len() as u64));
    }
}
