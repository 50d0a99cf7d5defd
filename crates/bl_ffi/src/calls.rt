//! The calls.

ghost use Rattle.std.specs.Prelude.{◌≡◌, ◌≢◌, ◌<◌, ◌≤◌, pos, drop, length};
ghost use Rattle.bl_model.specs.declared.operation.Op.TheVariants as op;
ghost use Rattle.bl_model.specs.Writes.{write_op};
ghost use Rattle.bl_model.specs.declared.deciding.KeyWrite.TheVariants as key_write;
ghost use Rattle.bl_proc.specs.Parts.{op_toward};
ghost use Rattle.bl_ffi.specs.Told.{IsCodeOf, TellsFound, TellsWritten, Closes, Calls, IsRows, IsFilled, Lists, next_behind, TellsUpkeep, StaysAsItWas};

use crate::codes::{ABSENT, AGAIN, CLOSED, FEW_ROWS, NO_ROOM, OK, PRESENT};
use crate::places::{put_back, taken};
use crate::seat::SeatOfC;
use bl_ffi_seats::{Direction, KeyReply, KeyWrite, Next, Reply};
use std::alloc::Global;

/// A key and its value.
#[repr(C)]
#[derive(Clone, Copy)]
pub struct Row {
    pub key: u64,
    pub value: u64,
}

/// The code of a reply, and the value that stands beside it.
fn told(reply: KeyReply, value: &mut u64) -> i32
    ensures { IsCodeOf reply result value.new }
{
    match reply {
        KeyReply::Inserted | KeyReply::Changed => OK,
        KeyReply::Found(there) | KeyReply::Deleted(there) => {
            *value = there;
            OK
        }
        KeyReply::Present(there) | KeyReply::Differs(there) | KeyReply::Replaced(there) => {
            *value = there;
            PRESENT
        }
        KeyReply::Absent => ABSENT,
        KeyReply::NoRoom => NO_ROOM,
    }
}

/// Closes the seat. The index goes with its last seat.
#[unsafe(no_mangle)]
pub extern "C" fn blink_try_close(alloc: Global, seat: &mut SeatOfC) -> i32
    ensures { Closes seat.old seat.new result }
{
    match taken(alloc, seat) {
        Some(_mine) => OK,
        None => CLOSED,
    }
}

/// The value of a key.
#[unsafe(no_mangle)]
pub extern "C" fn blink_try_find(
    alloc: Global,
    seat: &mut SeatOfC,
    key: u64,
    value: &mut u64,
) -> i32
    ensures { TellsFound (op.Find key) seat.old seat.new result value.new }
{
    let Some(mut mine) = taken(alloc, seat) else {
        return CLOSED;
    };
    let answer = mine.find(key);
    put_back(alloc, seat, mine);
    match answer {
        Some(reply) => told(reply, value),
        None => AGAIN,
    }
}

/// Fetches from memory, side by side, the pages that calls about these keys will read, 8 keys at most. It changes nothing and tells nothing.
#[unsafe(no_mangle)]
pub extern "C" fn blink_fetch(alloc: Global, seat: &mut SeatOfC, keys: &[u64]) -> i32
    ensures { StaysAsItWas seat.old seat.new result }
{
    let Some(mine) = taken(alloc, seat) else {
        return CLOSED;
    };
    mine.fetch(keys);
    put_back(alloc, seat, mine);
    OK
}

/// Writes a key, and puts the value beside the reply.
fn write(alloc: Global, seat: &mut SeatOfC, key: u64, write: KeyWrite, value: &mut u64) -> i32
    ensures { TellsWritten (write_op key write) key write seat.old seat.new result value.new }
{
    let Some(mut mine) = taken(alloc, seat) else {
        return CLOSED;
    };
    let answer = mine.write(key, write);
    put_back(alloc, seat, mine);
    match answer {
        Some(reply) => told(reply, value),
        None => AGAIN,
    }
}

/// Inserts the value if the key is absent.
#[unsafe(no_mangle)]
pub extern "C" fn blink_try_insert(
    alloc: Global,
    seat: &mut SeatOfC,
    key: u64,
    value: u64,
    there: &mut u64,
) -> i32
    ensures { TellsWritten (op.Insert key value) key (key_write.Insert value) seat.old seat.new result there.new }
{
    write(alloc, seat, key, KeyWrite::Insert(value), there)
}

/// Puts the value at the key, in place of what is there.
#[unsafe(no_mangle)]
pub extern "C" fn blink_try_put(
    alloc: Global,
    seat: &mut SeatOfC,
    key: u64,
    value: u64,
    old: &mut u64,
) -> i32
    ensures { TellsWritten (op.Put key value) key (key_write.Put value) seat.old seat.new result old.new }
{
    write(alloc, seat, key, KeyWrite::Put(value), old)
}

/// Takes the key and its value away.
#[unsafe(no_mangle)]
pub extern "C" fn blink_try_delete(
    alloc: Global,
    seat: &mut SeatOfC,
    key: u64,
    gone: &mut u64,
) -> i32
    ensures { TellsWritten (op.Delete key) key key_write.Delete seat.old seat.new result gone.new }
{
    write(alloc, seat, key, KeyWrite::Delete, gone)
}

/// Puts the new value at a key that has the old one.
#[unsafe(no_mangle)]
pub extern "C" fn blink_try_change(
    alloc: Global,
    seat: &mut SeatOfC,
    key: u64,
    old: u64,
    new: u64,
    there: &mut u64,
) -> i32
    ensures { TellsWritten (op.Change key old new) key (key_write.Change old new) seat.old seat.new result there.new }
{
    write(alloc, seat, key, KeyWrite::Change(old, new), there)
}

/// How far a part of the rows goes.
#[repr(C)]
#[derive(Clone, Copy)]
pub struct Part {
    /// How many rows it has.
    pub count: u64,
    /// The key from which the rows go on.
    pub next: u64,
    /// Whether they go on.
    pub more: bool,
    /// The page from which the way to the next part is short.
    pub near: u32,
}

/// Where a reply goes on of which so many rows are taken: at the first one that is left, if there is one.
fn next_behind(pairs: &[(u64, u64)], taken: usize, next: Next) -> Next
    ensures { result ≡ next_behind (drop taken pairs.now) next }
{
    match pairs.get(taken) {
        Some((key, _)) => Next::More(*key),
        None => next,
    }
}

/// Writes the rows of a reply into the caller's array, as many as it has room for. Where it has room for all, the way to the next part is
/// short from that page.
fn listed(reply: &Reply, near: u32, rows: &mut [Row], part: &mut Part)
    requires { IsRows reply.now }
    ensures { IsFilled reply.now rows.old rows.new part.new }
{
    let Reply::Rows(pairs, next) = reply else {
        unreachable!()
    };
    let count = pairs.len().min(rows.len());
    for number in 0..count {
        let (key, value) = pairs[number];
        rows[number] = Row { key, value };
    }
    part.count = count as u64;
    part.near = if count < pairs.len() { part.near } else { near };
    match next_behind(pairs.as_slice(), count, *next) {
        Next::More(key) => {
            part.next = key;
            part.more = true;
        }
        Next::End => part.more = false,
    }
}

/// The rows of one leaf from a key on, upwards or downwards, as many as there is room for, into the caller's array.
fn list(
    alloc: Global,
    seat: &mut SeatOfC,
    direction: Direction,
    from: u64,
    rows: &mut [Row],
    part: &mut Part,
) -> i32
    ensures few { length rows.old < 1 → (result ≡ pos 10) × (seat.new ≡ seat.old) × (rows.new ≡ rows.old) }
    ensures told { 1 ≤ length rows.old → Calls seat.old seat.new result (Lists (op_toward direction from) rows.old rows.new part.new result) }
    ensures rest { result ≢ pos 0 → rows.new ≡ rows.old }
{
    if rows.is_empty() {
        return FEW_ROWS;
    }
    let Some(mut mine) = taken(alloc, seat) else {
        return CLOSED;
    };
    let mut near = if part.near == 0 {
        None
    } else {
        Some(part.near)
    };
    let answer = mine.part(direction, from, &mut near);
    put_back(alloc, seat, mine);
    match &answer {
        Ok(reply) => {
            listed(reply, near.unwrap_or(0), rows, part);
            OK
        }
        Err(_) => AGAIN,
    }
}

/// The rows of one leaf from a key on.
#[unsafe(no_mangle)]
pub extern "C" fn blink_try_rows(
    alloc: Global,
    seat: &mut SeatOfC,
    from: u64,
    rows: &mut [Row],
    part: &mut Part,
) -> i32
    ensures few { length rows.old < 1 → (result ≡ pos 10) × (seat.new ≡ seat.old) × (rows.new ≡ rows.old) }
    ensures told { 1 ≤ length rows.old → Calls seat.old seat.new result (Lists (op.Part from) rows.old rows.new part.new result) }
    ensures rest { result ≢ pos 0 → rows.new ≡ rows.old }
{
    list(alloc, seat, Direction::Up, from, rows, part)
}

/// The rows of one leaf from a key on downwards.
#[unsafe(no_mangle)]
pub extern "C" fn blink_try_rows_down(
    alloc: Global,
    seat: &mut SeatOfC,
    from: u64,
    rows: &mut [Row],
    part: &mut Part,
) -> i32
    ensures few { length rows.old < 1 → (result ≡ pos 10) × (seat.new ≡ seat.old) × (rows.new ≡ rows.old) }
    ensures told { 1 ≤ length rows.old → Calls seat.old seat.new result (Lists (op.PartDown from) rows.old rows.new part.new result) }
    ensures rest { result ≢ pos 0 → rows.new ≡ rows.old }
{
    list(alloc, seat, Direction::Down, from, rows, part)
}

/// Does so many pieces of upkeep at most.
#[unsafe(no_mangle)]
pub extern "C" fn blink_try_upkeep(alloc: Global, seat: &mut SeatOfC, most: u32) -> i32
    ensures { TellsUpkeep most seat.old seat.new result }
{
    let Some(mut mine) = taken(alloc, seat) else {
        return CLOSED;
    };
    let done = mine.upkeep(most);
    put_back(alloc, seat, mine);
    if done { OK } else { AGAIN }
}
