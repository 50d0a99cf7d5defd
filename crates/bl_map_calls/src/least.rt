//! The first row from a key on, upwards or downwards.

ghost use Rattle.std.specs.Prelude.{◌≡◌};
ghost use Rattle.bl_index.specs.Calls.{first_of, pages_of, IsPassOf, IsSamePass, number_of, trail};
ghost use Rattle.bl_map_calls.specs.Leasts.{FindsFirst, IsFoundIn};

use bl_index::{Direction, Index, Next, Pass, Reply};
use std::sync::Wait;

/// What a part tells one who looks for its first row.
pub(crate) enum Found {
    /// This is it.
    Row((u64, u64)),
    /// It has no row, and the next part begins with this key.
    GoesOn(u64),
    /// It has no row, and is the last one.
    Nothing,
}

/// What a part of a scan has found: its first row, or where to go on.
pub(crate) fn found_in(reply: &Reply) -> Found
    ensures { IsFoundIn reply.now result }
{
    let Reply::Rows(rows, next) = reply else {
        return Found::Nothing;
    };
    if let Some((row, _)) = rows.split_first() {
        return Found::Row(*row);
    }
    match next {
        Next::More(key) => Found::GoesOn(*key),
        Next::End => Found::Nothing,
    }
}

/// Looks for it part by part. Where a part ran out of turns it is made again.
pub fn first_toward<R: Wait>(
    rt: &R,
    index: &Index,
    pass: &mut Pass,
    direction: Direction,
    from: u64,
) -> Option<(u64, u64)>
    requires { IsPassOf index.now pass.old }
    ensures same { IsSamePass pass.old pass.new }
    ensures found { FindsFirst (first_of index.now) (pages_of index.now) (number_of pass.old) direction from result (trail pass.old) (trail pass.new) }
{
    let turns = index.patience();
    let mut near = None;
    let mut at = from;
    for _ in rt.forever() {
        if let Ok(reply) = index.part_toward(pass, direction, at, &mut near, turns) {
            match found_in(&reply) {
                Found::Row(row) => return Some(row),
                Found::GoesOn(key) => at = key,
                Found::Nothing => return None,
            }
        }
    }
    unreachable!()
}
