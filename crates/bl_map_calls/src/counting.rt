//! How many rows there are.

ghost use Rattle.std.specs.Prelude.{◌≡◌, length, Option};
ghost use Rattle.bl_model.specs.Parts.{ended_at};
ghost use Rattle.bl_index.specs.Calls.{first_of, pages_of, IsPassOf, IsSamePass, number_of, trail};
ghost use Rattle.bl_index_range.specs.Parts.{rows_below};
ghost use Rattle.bl_index_read.specs.LeafRows.{is_below as below};
ghost use Rattle.bl_map_calls.specs.Leasts.{CountsRows};

use bl_index::{Index, Next, Pass, Reply};
use std::sync::Wait;

/// Whether a key is below an end, if there is one.
pub(crate) fn is_below(to: Option<u64>, key: u64) -> bool
    ensures { result ≡ below to key }
{
    match to {
        Some(end) => key < end,
        None => true,
    }
}

/// How many rows of a part lie below an end, if there is one.
pub(crate) fn count_in(reply: &Reply, to: Option<u64>) -> u64
    ensures { result ≡ length (rows_below to reply.now) }
{
    let Reply::Rows(rows, _) = reply else {
        return 0;
    };
    rows.iter().filter(|row| is_below(to, row.0)).count() as u64
}

/// Where a part ended, if not at the end of the map.
pub(crate) fn end_of(reply: &Reply) -> Option<u64>
    ensures { result ≡ ended_at reply.now }
{
    match reply {
        Reply::Rows(_, Next::More(key)) => Some(*key),
        _ => None,
    }
}

/// Counts the rows from a key on and below an end, if there is one, part by part. Where a part ran out of turns it is made again.
pub fn count<R: Wait>(rt: &R, index: &Index, pass: &mut Pass, from: u64, to: Option<u64>) -> u64
    requires { IsPassOf index.now pass.old }
    ensures same { IsSamePass pass.old pass.new }
    ensures counted { CountsRows (first_of index.now) (pages_of index.now) (number_of pass.old) from to result (trail pass.old) (trail pass.new) }
{
    let turns = index.patience();
    let mut near = None;
    let mut counted = 0u64;
    let mut at = from;
    for _ in rt.forever() {
        if !is_below(to, at) {
            return counted;
        }
        if let Ok(reply) = index.part_near(pass, at, &mut near, turns) {
            counted = counted.saturating_add(count_in(&reply, to));
            let Some(key) = end_of(&reply) else {
                return counted;
            };
            at = key;
        }
    }
    unreachable!()
}
