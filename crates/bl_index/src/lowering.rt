//! Lowerings.

ghost use Rattle.std.specs.Prelude.{◌≡◌, Some, IfSome, IfNone};
ghost use Rattle.bl_answers.specs.declared.answers.Answer.TheVariants as answers;
ghost use Rattle.bl_answers.specs.declared.answers.Lowered.TheVariants as answer;
ghost use Rattle.bl_store.specs.Hands.{known, IsIdle, IsSameHand, HasNoStock, WasRefused};
ghost use Rattle.bl_store.specs.Owners.{IsHandOf};
ghost use Rattle.bl_claims.specs.Seeing.{IsSeen};
ghost use Rattle.bl_index_events.specs.Answered.{Undone, WritesNothing};
ghost use Rattle.bl_index_events.specs.Runs.{Rests};
ghost use Rattle.bl_index.specs.Within.{IsLowerAnswer, HasSunk, is_at_top};

use crate::index::{Index, Pass};
use bl_index_events::Tree;
use bl_index_rule::PassState;
use bl_index_write::carry_briefly;
use bl_proc::{Answer, Lower, LowerStage, Lowered, Process};
use bl_proc_steps::Lowering;
use bl_store::Hand;
use std::sync::Wait;

/// What became of a lowering.
fn lowered(answer: Option<Answer>) -> Lowered
    requires { IsLowerAnswer answer }
    ensures { answer ≡ Some (answers.Lower result) }
{
    match answer {
        Some(Answer::Lower(lowered)) => lowered,
        _ => unreachable!(),
    }
}

/// It holds the anchor, and is to latch the top page.
fn is_at_top(process: &Lower) -> bool
    ensures { result ≡ is_at_top process.now.stage }
{
    matches!(process.stage, LowerStage::Sinking(Lowering::LatchingTop(_)))
}

/// A lowering that may not wait, from its begin to its end, or until it turns back: then it ends, and has done nothing.
fn lower_briefly(tree: &Tree, hand: &mut Hand<PassState>) -> Option<Lowered>
    requires own { IsHandOf tree.now.store hand.old }
    requires idle { IsIdle hand.old.seat × HasNoStock hand.old.seat }
    ensures same { IsSameHand hand.old.seat hand.new.seat }
    ensures rests { Rests hand.new.seat }
    ensures empty { HasNoStock hand.new.seat }
    ensures sunk { IfSome result (HasSunk hand.old.number (known hand.old.seat) (known hand.new.seat)) }
    ensures no_room { IfSome result (λ what. what ≡ answer.NoRoom → WasRefused hand.new.seat 0 2) }
    ensures undone { IfNone result (Undone WritesNothing hand.old.number (known hand.old.seat) (known hand.new.seat)) }
    ensures first { (known hand.new.seat).first ≡ (known hand.old.seat).first }
    ensures seen { IsSeen (known hand.new.seat).first (known hand.new.seat).trail }
{
    let mut process = Lower::new();
    tree.begin(hand, &mut process);
    if carry_briefly(tree, hand, &mut process) {
        return Some(lowered(process.answer()));
    }
    if is_at_top(&process) {
        tree.leave_top(hand);
        tree.give_up(hand);
        return None;
    }
    tree.give_up(hand);
    None
}

impl Index {
    ghost use Rattle.bl_store.specs.Hands.{WasRefused};
    ghost use Rattle.bl_index_events.specs.Answered.{WritesNothing};
    ghost use Rattle.bl_index.specs.Calls.{first_of, IsPassOf, IsSamePass, number_of, trail, LowersTree, GivesUp};

    /// Takes the top level of the tree away, while other threads read and write, where it is one page with one pair, no bound and
    /// no link, and there is a level below it. Its page then serves again after a sweep. A level that is needed stays.
    pub fn lower<R: Wait>(&self, rt: &R, pass: &mut Pass) -> Lowered
        requires own { IsPassOf self.now pass.old }
        ensures same { IsSamePass pass.old pass.new }
        ensures lowers { LowersTree (first_of self.now) (number_of pass.old) result (trail pass.old) (trail pass.new) }
        ensures no_room { result ≡ answer.NoRoom → WasRefused pass.new.hand.seat 0 2 }
    {
        let lower = Lower::new();
        let process = self.tree.carry_out(rt, &mut pass.hand, lower);
        lowered(process.answer())
    }

    /// The same, or gives up: it waits for nothing. None: the anchor or the top page is another process's. It has not been done, and nothing
    /// of it is left.
    pub fn try_lower(&self, pass: &mut Pass) -> Option<Lowered>
        requires own { IsPassOf self.now pass.old }
        ensures same { IsSamePass pass.old pass.new }
        ensures lowers { IfSome result (λ what. LowersTree (first_of self.now) (number_of pass.old) what (trail pass.old) (trail pass.new)) }
        ensures no_room { IfSome result (λ what. what ≡ answer.NoRoom → WasRefused pass.new.hand.seat 0 2) }
        ensures undone { IfNone result (GivesUp WritesNothing (first_of self.now) (number_of pass.old) (trail pass.old) (trail pass.new)) }
    {
        lower_briefly(&self.tree, &mut pass.hand)
    }
}
