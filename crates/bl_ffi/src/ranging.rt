//! Ranges: the rows between two keys as the map had them at one moment, and how many rows are handed to C.

ghost use Rattle.std.specs.Prelude.{◌≡◌, ◌≢◌, ◌<◌, ◌≤◌, pos, length};
ghost use Rattle.bl_ffi.specs.Told.{Calls, StaysAsItWas};
ghost use Rattle.bl_ffi.specs.Ranged.{end_behind, AreFirstOf, IsCodeOfStop, IsWritten, RangesRows};

use crate::calls::Row;
use crate::codes::{AGAIN, CLOSED, FEW_ROWS, NO_MEMORY, OK, UNSTEADY};
use crate::places::{put_back, taken};
use crate::seat::SeatOfC;
use bl_ffi_seats::RangeFault;
use std::alloc::Global;

/// The code of why there are no rows.
fn code_of(why: RangeFault) -> i32
    ensures { IsCodeOfStop why result }
{
    match why {
        RangeFault::Memory => NO_MEMORY,
        RangeFault::OutOfTurns => AGAIN,
        RangeFault::Unsteady => UNSTEADY,
    }
}

/// Writes rows into the caller's array, which has room for all, as its first ones.
pub(crate) fn copied(pairs: &[(u64, u64)], rows: &mut [Row])
    requires { length pairs.now ≤ length rows.old }
    ensures { AreFirstOf pairs.now rows.old rows.new }
{
    for number in 0..pairs.len() {
        let (key, value) = pairs[number];
        rows[number] = Row { key, value };
    }
}

/// Says how many rows there are, and writes them into the caller's array where all fit.
fn written(pairs: &[(u64, u64)], rows: &mut [Row], count: &mut u64) -> i32
    ensures { IsWritten pairs.now rows.old rows.new count.new result }
{
    *count = pairs.len() as u64;
    if rows.len() < pairs.len() {
        return FEW_ROWS;
    }
    copied(pairs, rows);
    OK
}

/// The key behind the last one of a range, if there is one.
pub(crate) fn end_behind(last: u64) -> Option<u64>
    ensures { result ≡ end_behind last }
{
    last.checked_add(1)
}

/// The rows from a key on up to another one, that included, into the caller's array: all of them as the map had them at one moment. Where
/// others have put a leaf of it meanwhile it is read again from there on, so many times at most.
#[unsafe(no_mangle)]
pub extern "C" fn blink_try_range(
    alloc: Global,
    seat: &mut SeatOfC,
    from: u64,
    last: u64,
    rounds: u32,
    rows: &mut [Row],
    count: &mut u64,
) -> i32
    ensures none { last < from → StaysAsItWas seat.old seat.new result × (result ≡ pos 0 → count.new ≡ 0) }
    ensures told { from ≤ last → Calls seat.old seat.new result (RangesRows from (end_behind last) rounds rows.old rows.new count.old count.new result) }
    ensures rest { result ≢ pos 0 → rows.new ≡ rows.old }
{
    let Some(mut mine) = taken(alloc, seat) else {
        return CLOSED;
    };
    if last < from {
        put_back(alloc, seat, mine);
        *count = 0;
        return OK;
    }
    let done = mine.range(alloc, from, end_behind(last), rounds, rows.len());
    put_back(alloc, seat, mine);
    match done {
        Ok(pairs) => written(pairs.as_slice(), rows, count),
        Err(why) => code_of(why),
    }
}
