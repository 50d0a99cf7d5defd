//! A process is carried out, from its begin to its end.

ghost use Rattle.std.specs.Prelude.{◌≡◌, ◌≢◌, ℕ, None, Some};
ghost use Rattle.bl_proc_steps.specs.declared.acts.Action.TheVariants as act;
ghost use Rattle.bl_answers.specs.declared.answers.Answer.{Answer as AnswerIs};
ghost use Rattle.bl_proc_deterministic.specs.Refusals.{IsNoRoom, IsRefused, PutsRefused};
ghost use Rattle.bl_store.specs.Hands.{known, IsIdle, IsSameHand, HasNoStock};
ghost use Rattle.bl_store.specs.Owners.{IsHandOf};
ghost use Rattle.bl_index_rule.specs.Observed.{IsUnborn};
ghost use Rattle.bl_index_rule.specs.declared.known.PassState.{PassState as Knows};
ghost use Rattle.bl_index_events.specs.Runs.{Runs, Rests, IsSince, IsDone, HasReserved};
ghost use Rattle.bl_index_events.specs.Rooms.{LacksAsked};

use crate::kinds::Kind;
use crate::stepping::Stepped;
use crate::tree::Tree;
use bl_index_rule::PassState;
use bl_store::{Hand, Stock};
use crossbeam_utils::Backoff;
use std::sync::Wait;

impl Tree {
    /// Carries the process out, from its begin to its end.
    pub fn carry_out<P: Kind, R: Wait>(&self, rt: &R, hand: &mut Hand<PassState>, process: P) -> P
        requires own { IsHandOf self.now.store hand.old }
        requires idle { IsIdle hand.old.seat × HasNoStock hand.old.seat }
        requires new { (P.answer_of process ≡ None) × (P.next_of process ≡ act.Begin) × IsUnborn (P.proc_of process) }
        requires free { (IsRefused (P.proc_of process) → ⊥) × (PutsRefused (P.proc_of process) → ⊥) }
        ensures same { IsSameHand hand.old.seat hand.new.seat }
        ensures rests { Rests hand.new.seat }
        ensures empty { HasNoStock hand.new.seat }
        ensures done { IsDone hand.old.number (known hand.old.seat) (known hand.new.seat) (P.proc_of process) (P.proc_of result) }
        ensures no_room { (a : AnswerIs) → P.answer_of result ≡ Some a → IsNoRoom a → LacksAsked hand.new.seat (P.proc_of result) }
    {
        let mut process = process;
        self.begin(hand, &mut process);
        self.carry_on(rt, hand, process)
    }

    /// Carries the process on to its end. It has nothing reserved.
    pub fn carry_on<P: Kind, R: Wait>(&self, rt: &R, hand: &mut Hand<PassState>, process: P) -> P
        requires runs { Runs self.now hand.old (P.proc_of process) }
        requires going { (P.answer_of process ≡ None) × (P.next_of process ≢ act.Begin) }
        requires reserved { HasReserved hand.old.seat None (P.proc_of process) }
        requires free { (IsRefused (P.proc_of process) → ⊥) × (PutsRefused (P.proc_of process) → ⊥) }
        ensures same { IsSameHand hand.old.seat hand.new.seat }
        ensures rests { Rests hand.new.seat }
        ensures empty { HasNoStock hand.new.seat }
        ensures done { (pass : ℕ) (old : Knows) → IsSince pass old (known hand.old.seat)
            → IsDone pass old (known hand.new.seat) (P.proc_of process) (P.proc_of result) }
        ensures no_room { (a : AnswerIs) → P.answer_of result ≡ Some a → IsNoRoom a → LacksAsked hand.new.seat (P.proc_of result) }
    {
        let backoff = Backoff::new();
        let mut process = process;
        let mut held: Option<Stock> = None;
        for _ in rt.forever() {
            match self.step(hand, &mut process, held, &backoff) {
                Stepped::On(next) => held = next,
                Stepped::AtEnd => {
                    self.finish(hand, &mut process);
                    return process;
                }
            }
        }
        unreachable!()
    }
}
