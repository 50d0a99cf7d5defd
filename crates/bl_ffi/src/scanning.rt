//! Scans: rows of many leaves, up or down, as many as the caller has room for.

ghost use Rattle.std.specs.Prelude.{◌≡◌, pos};
ghost use Rattle.bl_proc.specs.declared.parts.Direction.TheVariants as direction;
ghost use Rattle.bl_ffi.specs.Told.{Calls};
ghost use Rattle.bl_ffi.specs.Scanned.{end_toward, IsTold, ScansRows};

use crate::calls::{Part, Row};
use crate::codes::{AGAIN, CLOSED, NO_MEMORY, OK};
use crate::places::{put_back, taken};
use crate::ranging::{copied, end_behind};
use crate::seat::SeatOfC;
use bl_ffi_seats::{Direction, ScanFault};
use std::alloc::Global;

/// The first key in that direction behind the last one of a scan, if there is one.
fn end_toward(direction: Direction, last: u64) -> Option<u64>
    ensures { result ≡ end_toward direction last }
{
    match direction {
        Direction::Up => end_behind(last),
        Direction::Down => last.checked_sub(1),
    }
}

/// Says where the next scan goes on, if it does, and tells the code of why.
fn told(next: Result<Option<u64>, ScanFault>, part: &mut Part) -> i32
    ensures count { part.new.count ≡ part.old.count }
    ensures told { IsTold next part.new result }
{
    let (more, code) = match next {
        Ok(next) => (next, OK),
        Err(ScanFault::OutOfTurns(from)) => (Some(from), AGAIN),
        Err(ScanFault::Memory(from)) => (Some(from), NO_MEMORY),
    };
    part.more = more.is_some();
    if let Some(from) = more {
        part.next = from;
    }
    code
}

/// The rows from a key on, up or down to another one, that included, into the caller's array, as many as it has room for.
fn scan(
    alloc: Global,
    seat: &mut SeatOfC,
    direction: Direction,
    keys: (u64, u64),
    rows: &mut [Row],
    part: &mut Part,
) -> i32
    ensures told { Calls seat.old seat.new result (ScansRows direction keys.0 keys.1 rows.old rows.new part.new result) }
    ensures rest { result ≡ pos 9 → (rows.new ≡ rows.old) × (part.new ≡ part.old) }
{
    let Some(mut mine) = taken(alloc, seat) else {
        return CLOSED;
    };
    let (from, last) = keys;
    let (pairs, next) = mine.scan(
        alloc,
        direction,
        from,
        end_toward(direction, last),
        rows.len(),
    );
    put_back(alloc, seat, mine);
    copied(pairs.as_slice(), rows);
    part.count = pairs.len() as u64;
    told(next, part)
}

/// The rows from a key on up to another one, that included.
#[unsafe(no_mangle)]
pub extern "C" fn blink_try_scan(
    alloc: Global,
    seat: &mut SeatOfC,
    from: u64,
    last: u64,
    rows: &mut [Row],
    part: &mut Part,
) -> i32
    ensures told { Calls seat.old seat.new result (ScansRows direction.Up from last rows.old rows.new part.new result) }
    ensures rest { result ≡ pos 9 → (rows.new ≡ rows.old) × (part.new ≡ part.old) }
{
    scan(alloc, seat, Direction::Up, (from, last), rows, part)
}

/// The rows from a key on down to another one, that included.
#[unsafe(no_mangle)]
pub extern "C" fn blink_try_scan_down(
    alloc: Global,
    seat: &mut SeatOfC,
    from: u64,
    last: u64,
    rows: &mut [Row],
    part: &mut Part,
) -> i32
    ensures told { Calls seat.old seat.new result (ScansRows direction.Down from last rows.old rows.new part.new result) }
    ensures rest { result ≡ pos 9 → (rows.new ≡ rows.old) × (part.new ≡ part.old) }
{
    scan(alloc, seat, Direction::Down, (from, last), rows, part)
}
