//! Writes of one key, by the words of pages: a leaf that is not split gets its new words from those that were read.

ghost use Rattle.std.specs.Prelude.{◌≡◌, ℕ, IfOk, IfErr, IfSome, IfNone};
ghost use Rattle.bl_model.specs.declared.operation.KeyReply.TheVariants as replies;
ghost use Rattle.bl_model.specs.Replies.{reply_of};
ghost use Rattle.bl_answers.specs.declared.answers.Answer.TheVariants as answers;
ghost use Rattle.bl_proc_steps.specs.declared.approach.Approach.TheVariants as approach;
ghost use Rattle.bl_proc_writes.specs.declared.writing.WriteReply.TheVariants as written;
ghost use Rattle.bl_proc_writes.specs.declared.writing.WriteStage.TheVariants as stages;
ghost use Rattle.bl_proc_writes.specs.Writes.{write_answer};
ghost use Rattle.bl_store.specs.Hands.{known, read_words, IsIdle, IsSameHand, HasNoStock, ReadsFrom};
ghost use Rattle.bl_store.specs.Owners.{IsHandOf};
ghost use Rattle.bl_claims.specs.Seeing.{IsSeen};
ghost use Rattle.bl_index_rule.specs.declared.known.PassState.{PassState as Knows};
ghost use Rattle.bl_index_events.specs.Answered.{Undone, WritesNothing};
ghost use Rattle.bl_index_events.specs.Rooms.{LacksWrite};
ghost use Rattle.bl_index_events.specs.Runs.{Runs, Rests, IsSince};
ghost use Rattle.bl_index_descend.specs.Events.{IsThere, HoldsNone};
ghost use Rattle.bl_index_write.specs.Events.{writing, HasWritten};

use crate::targets::Writing;
use bl_index_descend::{begin_descent, descend, descend_within};
use bl_index_edit::write_there;
use bl_index_events::Tree;
use bl_index_rule::PassState;
use bl_model::{KeyReply, KeyWrite, decide};
use bl_proc::Hint;
use bl_proc_steps::Approach;
use bl_proc_writes::WriteReply;
use bl_store::{Glance, Hand};
use std::sync::Wait;

/// What a write answers, with its hint.
#[inline(always)]
pub(crate) fn answer_of(write: KeyWrite, reply: WriteReply) -> (KeyReply, Option<Hint>)
    ensures answer { write_answer write reply ≡ answers.Op (reply_of result.0) result.1 }
    ensures no_room { result.0 ≡ replies.NoRoom → reply ≡ written.NoRoom }
{
    match reply {
        WriteReply::Done(there, hint) => (decide(write, there).reply, hint),
        WriteReply::NoRoom => (KeyReply::NoRoom, None),
    }
}

/// A write begins, and comes to its leaf, which it holds then and got last.
#[inline(always)]
pub fn begin_write<R: Wait>(
    tree: &Tree,
    rt: &R,
    hand: &mut Hand<PassState>,
    key: u64,
    write: KeyWrite,
) -> (u32, Glance)
    requires own { IsHandOf tree.now.store hand.old }
    requires idle { IsIdle hand.old.seat × HasNoStock hand.old.seat }
    ensures same { IsSameHand hand.old.seat hand.new.seat }
    ensures empty { HasNoStock hand.new.seat }
    ensures reads { ReadsFrom hand.new.seat result.1 }
    ensures runs { Runs tree.now hand.new (known hand.new.seat).state }
    ensures there { IsThere 0 key (writing key write (stages.Coming (approach.Latched result.0))) (read_words hand.new.seat) (known hand.new.seat) }
    ensures since { IsSince hand.old.number (known hand.old.seat) (known hand.new.seat) }
{
    let target = Writing { key, write };
    begin_descent(tree, hand, &target);
    descend(tree, rt, hand, &target, &mut ())
}

/// A write that holds its leaf goes on to its end. It waits for nothing.
#[inline(always)]
pub fn end_write(
    tree: &Tree,
    hand: &mut Hand<PassState>,
    at: u32,
    key: u64,
    write: KeyWrite,
    glance: Glance,
) -> (KeyReply, Option<Hint>)
    requires runs { Runs tree.now hand.old (known hand.old.seat).state }
    requires empty { HasNoStock hand.old.seat }
    requires reads { ReadsFrom hand.old.seat glance }
    requires there { IsThere 0 key (writing key write (stages.Coming (approach.Latched at))) (read_words hand.old.seat) (known hand.old.seat) }
    ensures same { IsSameHand hand.old.seat hand.new.seat }
    ensures rests { Rests hand.new.seat }
    ensures empty { HasNoStock hand.new.seat }
    ensures wrote { (pass : ℕ) (old : Knows) → IsSince pass old (known hand.old.seat)
        → HasWritten pass old (known hand.new.seat) key write (answers.Op (reply_of result.0) result.1) }
    ensures no_room { result.0 ≡ replies.NoRoom → LacksWrite key write hand.new.seat }
{
    let left = write_there(tree, hand, at, &Writing { key, write }, glance);
    tree.conclude(hand);
    answer_of(write, left.reply())
}

/// Carries a write out, from its begin to its end.
#[inline(always)]
pub fn write_key<R: Wait>(
    tree: &Tree,
    rt: &R,
    hand: &mut Hand<PassState>,
    key: u64,
    write: KeyWrite,
) -> (KeyReply, Option<Hint>)
    requires own { IsHandOf tree.now.store hand.old }
    requires idle { IsIdle hand.old.seat × HasNoStock hand.old.seat }
    ensures same { IsSameHand hand.old.seat hand.new.seat }
    ensures rests { Rests hand.new.seat }
    ensures empty { HasNoStock hand.new.seat }
    ensures wrote { HasWritten hand.old.number (known hand.old.seat) (known hand.new.seat) key write (answers.Op (reply_of result.0) result.1) }
    ensures no_room { result.0 ≡ replies.NoRoom → LacksWrite key write hand.new.seat }
{
    let (at, glance) = begin_write(tree, rt, hand, key, write);
    tree.await_frames(hand);
    end_write(tree, hand, at, key, write, glance)
}

/// The same, which waits for nothing. Where it gives up on its way to the leaf, after so many turns at most, the write stands so, and
/// holds no page.
#[inline(always)]
pub fn write_within(
    tree: &Tree,
    hand: &mut Hand<PassState>,
    key: u64,
    write: KeyWrite,
    turns: u32,
) -> Result<(KeyReply, Option<Hint>), Approach>
    requires own { IsHandOf tree.now.store hand.old }
    requires idle { IsIdle hand.old.seat × HasNoStock hand.old.seat }
    ensures same { IsSameHand hand.old.seat hand.new.seat }
    ensures empty { HasNoStock hand.new.seat }
    ensures ended { IfOk result (λ said. Rests hand.new.seat
        × HasWritten hand.old.number (known hand.old.seat) (known hand.new.seat) key write (answers.Op (reply_of said.0) said.1)) }
    ensures no_room { IfOk result (λ said. said.0 ≡ replies.NoRoom → LacksWrite key write hand.new.seat) }
    ensures underway { IfErr result (λ way. HoldsNone way × Runs tree.now hand.new (writing key write (stages.Coming way))
        × IsSince hand.old.number (known hand.old.seat) (known hand.new.seat)) }
{
    let target = Writing { key, write };
    begin_descent(tree, hand, &target);
    match descend_within(tree, hand, &target, &mut (), turns) {
        Ok((at, glance)) => Ok(end_write(tree, hand, at, key, write, glance)),
        Err(way) => Err(way),
    }
}

/// Carries a write out, or gives up: it waits for nothing. None: it has not been done, and nothing of it is left.
pub fn try_write(
    tree: &Tree,
    hand: &mut Hand<PassState>,
    key: u64,
    write: KeyWrite,
    turns: u32,
) -> Option<(KeyReply, Option<Hint>)>
    requires own { IsHandOf tree.now.store hand.old }
    requires idle { IsIdle hand.old.seat × HasNoStock hand.old.seat }
    ensures same { IsSameHand hand.old.seat hand.new.seat }
    ensures rests { Rests hand.new.seat }
    ensures empty { HasNoStock hand.new.seat }
    ensures wrote { IfSome result (λ said.
        HasWritten hand.old.number (known hand.old.seat) (known hand.new.seat) key write (answers.Op (reply_of said.0) said.1)) }
    ensures no_room { IfSome result (λ said. said.0 ≡ replies.NoRoom → LacksWrite key write hand.new.seat) }
    ensures undone { IfNone result (Undone WritesNothing hand.old.number (known hand.old.seat) (known hand.new.seat)) }
    ensures first { (known hand.new.seat).first ≡ (known hand.old.seat).first }
    ensures seen { IsSeen (known hand.new.seat).first (known hand.new.seat).trail }
{
    match write_within(tree, hand, key, write, turns) {
        Ok(said) => Some(said),
        Err(_way) => {
            tree.give_up(hand);
            None
        }
    }
}
