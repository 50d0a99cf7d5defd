//! Scans that tell a callback each row.

ghost use Rattle.std.specs.Prelude.{Ok};
ghost use Rattle.std.specs.List.{FoldsTo};
ghost use Rattle.bl_index.specs.Calls.{first_of, pages_of, IsPassOf, IsSamePass, number_of, trail};
ghost use Rattle.bl_map_calls.specs.Scans.{Scanned};

use bl_index::{Direction, Index, Pass};
use std::sync::Wait;

/// Tells the rows from a key on and before an end, if there is one, upwards or downwards. Where a part ran out of turns the scan goes on from there.
pub fn tell<R: Wait, F: FnMut((u64, u64))>(
    rt: &R,
    index: &Index,
    pass: &mut Pass,
    direction: Direction,
    from: u64,
    to: Option<u64>,
    visit: &mut F,
)
    requires own { IsPassOf index.now pass.old }
    requires callable { F.IsAlwaysCallable visit.old }
    ensures same { IsSamePass pass.old pass.new }
    ensures tells { Scanned (FoldsTo (λ p x q. F.step p x tt q)) (λ many. ⊥) (first_of index.now) (pages_of index.now) (number_of pass.old)
        direction from to (Ok tt) visit.old visit.new (trail pass.old) (trail pass.new) }
{
    let turns = index.patience();
    let mut at = from;
    for _ in rt.forever() {
        match index.scan_with(pass, direction, at, to, turns, visit) {
            Ok(()) => return,
            Err(out) => at = out.key,
        }
    }
    unreachable!()
}
