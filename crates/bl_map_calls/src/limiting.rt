//! Scans that list so many rows at most.

ghost use Rattle.std.specs.Prelude.{◌≡◌, ◌-◌, vec_len};
ghost use Rattle.std.specs.Vec.{vec_capacity};
ghost use Rattle.bl_index.specs.Calls.{first_of, pages_of, IsPassOf, IsSamePass, number_of, trail};
ghost use Rattle.bl_map_calls.specs.Limits.{ScannedAtMost};

use bl_index::{Direction, Index, Pass, ScanFault, ScanLimits};
use std::alloc::AllocError;
use std::sync::Wait;

/// Appends the first rows from a key on and below an end, if there is one, until there are so many. Where a part ran out of turns the scan
/// goes on from there. Says where the next rows begin, or `None` where the scan is over.
pub fn scan_at_most<R: Wait>(
    rt: &R,
    index: &Index,
    pass: &mut Pass,
    from: u64,
    to: Option<u64>,
    most: usize,
    rows: &mut Vec<(u64, u64)>,
) -> Result<Option<u64>, AllocError>
    requires { IsPassOf index.now pass.old }
    ensures same { IsSamePass pass.old pass.new }
    ensures scanned { ScannedAtMost (first_of index.now) (pages_of index.now) (number_of pass.old) from to most
        (vec_capacity rows.new - vec_len rows.new) result rows.old.items rows.new.items (trail pass.old) (trail pass.new) }
{
    let turns = index.patience();
    let before = rows.len();
    let mut at = from;
    for _ in rt.forever() {
        let left = most - (rows.len() - before);
        let limits = ScanLimits { most: left, turns };
        match index.scan_some(pass, Direction::Up, at, to, limits, rows) {
            Ok(next) => return Ok(next),
            Err(ScanFault::OutOfTurns(key)) => at = key,
            Err(ScanFault::Memory(_)) => return Err(AllocError),
        }
    }
    unreachable!()
}
