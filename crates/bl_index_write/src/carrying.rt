//! A process is carried out that may not wait.

ghost use Rattle.std.specs.Prelude.{◌≡◌, ◌≢◌, ℕ, None, Some, true, false};
ghost use Rattle.bl_proc_steps.specs.declared.acts.Action.TheVariants as act;
ghost use Rattle.bl_answers.specs.declared.answers.Answer.{Answer as AnswerIs};
ghost use Rattle.bl_proc_deterministic.specs.Frames.{work_of};
ghost use Rattle.bl_proc_deterministic.specs.Refusals.{IsNoRoom, IsRefused, PutsRefused};
ghost use Rattle.bl_store.specs.Hands.{known, IsSameHand, HasNoStock};
ghost use Rattle.bl_index_rule.specs.declared.known.PassState.{PassState as Knows};
ghost use Rattle.bl_index_events.specs.Runs.{Runs, Rests, IsSince, IsSameProcess, IsDone, HasReserved};
ghost use Rattle.bl_index_events.specs.Rooms.{LacksAsked};

use crate::briefs::Brief;
use crate::spinning::Spinning;
use bl_index_events::{Stepped, Tree};
use bl_index_rule::PassState;
use bl_store::{Hand, Stock};

/// More events than such a process makes.
const MOST: u64 = 25;

/// Carries the process on, which may not wait and has nothing reserved: to its end; or until it turns back, where its way begins again, and
/// after so many tries where it may. Says whether it has ended.
pub fn carry_briefly<P: Brief>(tree: &Tree, hand: &mut Hand<PassState>, process: &mut P) -> bool
    requires runs { Runs tree.now hand.old (P.proc_of process.old) }
    requires going { (P.answer_of process.old ≡ None) × (P.next_of process.old ≢ act.Begin) }
    requires reserved { HasReserved hand.old.seat None (P.proc_of process.old) }
    requires free { (IsRefused (P.proc_of process.old) → ⊥) × (PutsRefused (P.proc_of process.old) → ⊥) }
    requires near { P.IsNear process.old 0 }
    ensures same { IsSameHand hand.old.seat hand.new.seat }
    ensures empty { HasNoStock hand.new.seat }
    ensures rests { result ≡ true → Rests hand.new.seat }
    ensures done { result ≡ true → (pass : ℕ) (old : Knows) → IsSince pass old (known hand.old.seat)
        → IsDone pass old (known hand.new.seat) (P.proc_of process.old) (P.proc_of process.new) }
    ensures no_room { result ≡ true → (a : AnswerIs) → P.answer_of process.new ≡ Some a → IsNoRoom a
        → LacksAsked hand.new.seat (P.proc_of process.new) }
    ensures runs { result ≡ false → Runs tree.now hand.new (P.proc_of process.new) }
    ensures back { result ≡ false → P.IsBack process.new }
    ensures since { result ≡ false → IsSameProcess (known hand.old.seat) (known hand.new.seat) }
    ensures work { result ≡ false → work_of (P.proc_of process.new) ≡ work_of (P.proc_of process.old) }
{
    let spinning = Spinning::new();
    let mut held: Option<Stock> = None;
    for event in 0..MOST {
        if process.turns_back(event) {
            return false;
        }
        match tree.step(hand, process, held, &spinning) {
            Stepped::On(next) => held = next,
            Stepped::AtEnd => {
                tree.finish(hand, process);
                return true;
            }
        }
    }
    unreachable!()
}
