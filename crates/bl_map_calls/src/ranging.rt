//! Ranges: the rows between two keys as the map had them at one moment.

ghost use Rattle.std.specs.Prelude.{◌≡◌, Ok};
ghost use Rattle.bl_index.specs.Calls.{first_of, pages_of, IsPassOf, IsSamePass, number_of, trail};
ghost use Rattle.bl_index_read.specs.LeafRows.{IsBelow};
ghost use Rattle.bl_map_calls.specs.Ranges.{CountsRange, Ranged};

use crate::counting::is_below;
use bl_index::{Index, Pass, RangeFault, RangeLimits};
use std::alloc::Global;
use std::sync::Wait;

/// Why a range was not read.
#[derive(Clone, Copy, Debug, PartialEq, Eq)]
pub enum RangeRefusal {
    /// There was no memory for its rows, or for what it keeps of its leaves.
    Memory,
    /// Others changed its leaves each time that it was read.
    Unsteady,
}

/// Appends the rows from a key on and below an end, if there is one, which is above the key. Where a part ran out of turns the range is
/// read anew.
fn read<R: Wait>(
    rt: &R,
    index: &Index,
    pass: &mut Pass,
    from: u64,
    to: Option<u64>,
    rounds: u32,
    rows: &mut Vec<(u64, u64)>,
) -> Result<u32, RangeRefusal>
    requires own { IsPassOf index.now pass.old }
    requires below { IsBelow to from }
    ensures same { IsSamePass pass.old pass.new }
    ensures ranged { Ranged (first_of index.now) (pages_of index.now) (number_of pass.old) from to rounds result rows.old.items rows.new.items
        (trail pass.old) (trail pass.new) }
{
    let turns = index.patience();
    let mut kept = Vec::new(*rows.allocator());
    for _ in rt.forever() {
        match index.range_into(
            pass,
            from,
            to,
            RangeLimits { turns, rounds },
            &mut kept,
            rows,
        ) {
            Ok(again) => return Ok(again),
            Err(RangeFault::OutOfTurns) => {}
            Err(RangeFault::Memory) => return Err(RangeRefusal::Memory),
            Err(RangeFault::Unsteady) => return Err(RangeRefusal::Unsteady),
        }
    }
    unreachable!()
}

/// Appends the rows from a key on and below an end, if there is one, as the map had them at one moment of the call. Says how often it began
/// again, so many times at most. Where the end is not above the key, nothing is looked for.
pub fn range<R: Wait>(
    rt: &R,
    index: &Index,
    pass: &mut Pass,
    from: u64,
    to: Option<u64>,
    rounds: u32,
    rows: &mut Vec<(u64, u64)>,
) -> Result<u32, RangeRefusal>
    requires own { IsPassOf index.now pass.old }
    ensures same { IsSamePass pass.old pass.new }
    ensures ranged { IsBelow to from → Ranged (first_of index.now) (pages_of index.now) (number_of pass.old) from to rounds result rows.old.items
        rows.new.items (trail pass.old) (trail pass.new) }
    ensures none { ¬ IsBelow to from → (result ≡ Ok 0) × (rows.new.items ≡ rows.old.items) × (trail pass.new ≡ trail pass.old) }
{
    if !is_below(to, from) {
        return Ok(0);
    }
    read(rt, index, pass, from, to, rounds, rows)
}

/// How many rows a range has at one moment of the call. It takes memory for them.
pub fn count<R: Wait>(
    rt: &R,
    alloc: Global,
    index: &Index,
    pass: &mut Pass,
    from: u64,
    to: Option<u64>,
    rounds: u32,
) -> Result<u64, RangeRefusal>
    requires own { IsPassOf index.now pass.old }
    ensures same { IsSamePass pass.old pass.new }
    ensures counted { IsBelow to from → CountsRange (first_of index.now) (pages_of index.now) (number_of pass.old) from to rounds result
        (trail pass.old) (trail pass.new) }
    ensures none { ¬ IsBelow to from → (result ≡ Ok 0) × (trail pass.new ≡ trail pass.old) }
{
    if !is_below(to, from) {
        return Ok(0);
    }
    let mut rows = Vec::new(alloc);
    read(rt, index, pass, from, to, rounds, &mut rows)?;
    Ok(rows.len() as u64)
}
