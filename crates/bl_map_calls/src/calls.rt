//! Calls of a pass: each looks for room before it changes something, and is made again where it ran out of turns.

ghost use Rattle.std.specs.Prelude.{◌≡◌, ◌-◌, ◌<◌, ◌≤◌, length, vec_len};
ghost use Rattle.std.specs.Vec.{vec_capacity};
ghost use Rattle.bl_model.specs.declared.operation.Op.TheVariants as op;
ghost use Rattle.bl_model.specs.declared.operation.KeyReply.TheVariants as replies;
ghost use Rattle.bl_proc.specs.Parts.{op_toward};
ghost use Rattle.bl_index.specs.Calls.{first_of, pages_of, IsPassOf, IsSamePass, number_of, trail};
ghost use Rattle.bl_model.specs.Replies.{reply_of};
ghost use Rattle.bl_model.specs.Writes.{write_op};
ghost use Rattle.bl_index_read.specs.Sinks.{Appends};
ghost use Rattle.bl_map_calls.specs.Works.{Works, Searched, FoundNoRoom};
ghost use Rattle.bl_map_calls.specs.Finds.{FindsMany};
ghost use Rattle.bl_map_calls.specs.Follows.{Written};
ghost use Rattle.bl_map_calls.specs.Scans.{key_below, Scanned};

use crate::room::make_room;
use bl_index::{ABREAST, Direction, Hint, Index, KeyReply, KeyWrite, Pass, Reply, ScanFault};
use std::alloc::AllocError;
use std::sync::Wait;

/// So many keys at least are fetched side by side: for fewer that takes more time than it saves.
pub(crate) const FETCHED: usize = 4;

/// The value of a key, or that the key is absent. It looks first at the page that is near, if there is one.
pub fn find<R: Wait>(
    rt: &R,
    index: &Index,
    pass: &mut Pass,
    key: u64,
    near: Option<u32>,
) -> KeyReply
    requires { IsPassOf index.now pass.old }
    ensures same { IsSamePass pass.old pass.new }
    ensures works { Works (first_of index.now) (number_of pass.old) (op.Find key) (reply_of result) (trail pass.old) (trail pass.new) }
    ensures searched { Searched (first_of index.now) (pages_of index.now) (number_of pass.old) (op.Find key) (reply_of result)
        (trail pass.old) (trail pass.new) }
{
    let turns = index.patience();
    let mut near = near;
    for _ in rt.forever() {
        if let Ok(reply) = index.find_near(pass, key, near, turns) {
            return reply;
        }
        near = None;
    }
    unreachable!()
}

/// The values of keys, one after another.
fn find_each<R: Wait>(
    rt: &R,
    index: &Index,
    pass: &mut Pass,
    keys: &[u64],
    replies: &mut [KeyReply],
)
    requires own { IsPassOf index.now pass.old }
    requires room { length replies.old ≡ length keys.now }
    ensures same { IsSamePass pass.old pass.new }
    ensures found { FindsMany (first_of index.now) (pages_of index.now) (number_of pass.old) keys.now replies.new (trail pass.old) (trail pass.new) }
{
    for i in 0..keys.len() {
        replies[i] = find(rt, index, pass, keys[i], None);
    }
}

/// The same of keys whose pages are fetched side by side, so that the thread waits for all of them at once.
fn find_abreast<R: Wait>(
    rt: &R,
    index: &Index,
    pass: &mut Pass,
    keys: &[u64],
    replies: &mut [KeyReply],
)
    requires own { IsPassOf index.now pass.old }
    requires some { (0 < length keys.now) × (length keys.now ≤ 8) }
    requires room { length replies.old ≡ length keys.now }
    ensures same { IsSamePass pass.old pass.new }
    ensures found { FindsMany (first_of index.now) (pages_of index.now) (number_of pass.old) keys.now replies.new (trail pass.old) (trail pass.new) }
{
    let near = index.fetch(keys);
    let found = index.find_many(pass, keys, &near, index.patience(), replies);
    if found < keys.len() {
        // One has lost its way: it takes the whole way then, and so do those behind it.
        find_each(rt, index, pass, &keys[found..], &mut replies[found..]);
    }
}

/// The values of keys, one after another, of which some at a time are looked up abreast.
pub fn find_many<R: Wait>(
    rt: &R,
    index: &Index,
    pass: &mut Pass,
    keys: &[u64],
    replies: &mut [KeyReply],
)
    requires own { IsPassOf index.now pass.old }
    requires room { length replies.old ≡ length keys.now }
    ensures same { IsSamePass pass.old pass.new }
    ensures found { FindsMany (first_of index.now) (pages_of index.now) (number_of pass.old) keys.now replies.new (trail pass.old) (trail pass.new) }
{
    if keys.len() < FETCHED {
        find_each(rt, index, pass, keys, replies);
        return;
    }
    for group in 0..keys.len().div_ceil(ABREAST) {
        let from = group * ABREAST;
        let to = keys.len().min(from + ABREAST);
        find_abreast(rt, index, pass, &keys[from..to], &mut replies[from..to]);
    }
}

/// The rows of one leaf from a key on, upwards or downwards. It looks first at the page that is near, if there is one, and leaves there
/// the page to which the leaf links in that direction, if it does.
pub fn part<R: Wait>(
    rt: &R,
    index: &Index,
    pass: &mut Pass,
    direction: Direction,
    from: u64,
    near: &mut Option<u32>,
) -> Reply
    requires { IsPassOf index.now pass.old }
    ensures same { IsSamePass pass.old pass.new }
    ensures works { Works (first_of index.now) (number_of pass.old) (op_toward direction from) result (trail pass.old) (trail pass.new) }
    ensures searched { Searched (first_of index.now) (pages_of index.now) (number_of pass.old) (op_toward direction from) result
        (trail pass.old) (trail pass.new) }
{
    let turns = index.patience();
    for _ in rt.forever() {
        if let Ok(reply) = index.part_toward(pass, direction, from, near, turns) {
            return reply;
        }
    }
    unreachable!()
}

/// Writes a key. The hint is what there is to do behind it: see [`crate::upkeep::follow`].
pub(crate) fn write<R: Wait>(
    rt: &R,
    index: &Index,
    pass: &mut Pass,
    key: u64,
    write: KeyWrite,
) -> (KeyReply, Option<Hint>)
    requires { IsPassOf index.now pass.old }
    ensures same { IsSamePass pass.old pass.new }
    ensures written { Written (first_of index.now) (number_of pass.old) (write_op key write) (reply_of result.0) result.1 (trail pass.old) (trail pass.new) }
    ensures no_room { result.0 ≡ replies.NoRoom → FoundNoRoom key write pass.old pass.new }
{
    make_room(rt, index, pass, key, write);
    match write {
        KeyWrite::Insert(value) => {
            let (reply, _posted, left) = index.insert_posting(rt, pass, key, value);
            (reply, left)
        }
        KeyWrite::Put(value) => {
            let (put, _posted, post) = index.put_posting(rt, pass, key, value);
            (put, post)
        }
        KeyWrite::Delete | KeyWrite::Change(..) => {
            let written = index.write(rt, pass, key, write);
            note_change(index, &written.0);
            written
        }
    }
}

/// A row that goes leaves its page with less than before, so a walk may find room again.
pub fn note_change(index: &Index, reply: &KeyReply) {
    if let KeyReply::Deleted(_) = reply {
        index.tree().store.room.note_change();
    }
}

/// Where a scan downwards ends whose last key is that one: at the greatest key below it, if there is one.
pub fn end_below(low: u64) -> Option<u64>
    ensures { result ≡ key_below low }
{
    if low == 0 { None } else { Some(low - 1) }
}

/// Appends the rows from a key on and before an end, if there is one, upwards or downwards. Where a part ran out of turns the scan goes on
/// from there.
pub fn scan<R: Wait>(
    rt: &R,
    index: &Index,
    pass: &mut Pass,
    direction: Direction,
    from: u64,
    to: Option<u64>,
    rows: &mut Vec<(u64, u64)>,
) -> Result<(), AllocError>
    requires { IsPassOf index.now pass.old }
    ensures same { IsSamePass pass.old pass.new }
    ensures scanned { Scanned Appends (λ many. vec_capacity rows.new - vec_len rows.new < many) (first_of index.now) (pages_of index.now)
        (number_of pass.old) direction from to result rows.old.items rows.new.items (trail pass.old) (trail pass.new) }
{
    let turns = index.patience();
    let mut at = from;
    for _ in rt.forever() {
        match index.scan_toward(pass, direction, at, to, turns, rows) {
            Ok(()) => return Ok(()),
            Err(ScanFault::OutOfTurns(key)) => at = key,
            Err(ScanFault::Memory(_)) => return Err(AllocError),
        }
    }
    unreachable!()
}
