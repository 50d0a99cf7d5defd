//! Writes of a key, each with what is due behind it.

ghost use Rattle.std.specs.Prelude.{◌≡◌};
ghost use Rattle.bl_model.specs.declared.operation.KeyReply.TheVariants as replies;
ghost use Rattle.bl_index.specs.Calls.{first_of, IsPassOf, IsSamePass, number_of, trail, AllSwept};
ghost use Rattle.bl_model.specs.Replies.{reply_of};
ghost use Rattle.bl_model.specs.Writes.{write_op};
ghost use Rattle.bl_map_calls.specs.Works.{FoundNoRoom};
ghost use Rattle.bl_map_calls.specs.Follows.{WritesLeaving};
ghost use Rattle.bl_map_calls.specs.Waits.{WritesKey, TriesOldest, AreTried, TriesAgain};

use crate::calls;
use crate::upkeep::{follow, follow_split, sweep_if_due};
use bl_index::{Hint, Index, KeyReply, KeyWrite, Pass};
use bl_waiting::Waiting;
use std::sync::Wait;

/// Writes a key, and does what is due behind it: lists the pages that were split, and merges the page where few rows are left.
pub fn write<R: Wait>(
    rt: &R,
    index: &Index,
    pass: &mut Pass,
    waiting: &mut Waiting,
    key: u64,
    write: KeyWrite,
) -> KeyReply
    requires { IsPassOf index.now pass.old }
    ensures same { IsSamePass pass.old pass.new }
    ensures changes { WritesKey (first_of index.now) (number_of pass.old) (write_op key write) (reply_of result) waiting.old waiting.new
        (trail pass.old) (trail pass.new) }
    ensures no_room { result ≡ replies.NoRoom → FoundNoRoom key write pass.old pass.new }
{
    let (reply, hint) = calls::write(rt, index, pass, key, write);
    // Nothing is written and nothing is left to do, and the pass knows still what it was refused.
    if let KeyReply::NoRoom = reply {
        return reply;
    }
    let left = follow(rt, index, pass, hint);
    waiting.keep(left);
    sweep_if_due(index, pass);
    reply
}

/// Writes a key, and lists the pages that were split. Gives the hint that is left then.
pub fn write_leaving<R: Wait>(
    rt: &R,
    index: &Index,
    pass: &mut Pass,
    key: u64,
    write: KeyWrite,
) -> (KeyReply, Option<Hint>)
    requires { IsPassOf index.now pass.old }
    ensures same { IsSamePass pass.old pass.new }
    ensures leaves { WritesLeaving (first_of index.now) (number_of pass.old) (write_op key write) (reply_of result.0) result.1
        (trail pass.old) (trail pass.new) }
    ensures no_room { result.0 ≡ replies.NoRoom → FoundNoRoom key write pass.old pass.new }
{
    let (reply, hint) = calls::write(rt, index, pass, key, write);
    if let KeyReply::NoRoom = reply {
        return (reply, None);
    }
    let left = follow_split(rt, index, pass, hint);
    (reply, left)
}

/// Follows the oldest hint that waits, and those that following it gives.
fn try_oldest<R: Wait>(rt: &R, index: &Index, pass: &mut Pass, waiting: &mut Waiting)
    requires { IsPassOf index.now pass.old }
    ensures same { IsSamePass pass.old pass.new }
    ensures tries { TriesOldest (first_of index.now) (number_of pass.old) waiting.old waiting.new (trail pass.old) (trail pass.new) }
{
    let oldest = waiting.take();
    let left = follow(rt, index, pass, oldest);
    waiting.keep(left);
}

/// Follows at most so many of the hints that wait, the oldest first.
fn try_some<R: Wait>(rt: &R, index: &Index, pass: &mut Pass, waiting: &mut Waiting, most: u32)
    requires { IsPassOf index.now pass.old }
    ensures same { IsSamePass pass.old pass.new }
    ensures tries { AreTried (first_of index.now) (number_of pass.old) most waiting.old waiting.new (trail pass.old) (trail pass.new) }
{
    for _hint in 0..most {
        if waiting.is_empty() {
            return;
        }
        try_oldest(rt, index, pass, waiting);
    }
}

/// The same, and gives back what was swapped out.
pub fn try_again<R: Wait>(rt: &R, index: &Index, pass: &mut Pass, waiting: &mut Waiting, most: u32)
    requires { IsPassOf index.now pass.old }
    ensures same { IsSamePass pass.old pass.new }
    ensures tries { TriesAgain (first_of index.now) (number_of pass.old) most waiting.old waiting.new (trail pass.old) (trail pass.new) }
    ensures swept { AllSwept pass.new }
{
    try_some(rt, index, pass, waiting, most);
    index.sweep(pass);
}
