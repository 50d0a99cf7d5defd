//! How a world that is left to itself comes to rest.

ghost use Rattle.std.specs.Prelude.{ℕ, ◌≡◌, ◌⊎◌, ◌≤◌, None, length, IfOk, OnOk, OnErr};
ghost use Rattle.bl_world.specs.declared.turns.Turn.{Turn as AnyTurn};
ghost use Rattle.bl_world.specs.Views.{view_of};
ghost use Rattle.bl_world.specs.Turns.{TurnsTo};
ghost use Rattle.bl_world.specs.Choices.{Chooses};
ghost use Rattle.bl_world.specs.WorldSteps.{Way};
ghost use Rattle.bl_world.specs.Worlds.{IsWorld};
ghost use Rattle.bl_world.specs.Waits.{MayGoOn, HaveAnswered};
ghost use Rattle.bl_world.specs.Settles.{Settles, turns_to_rest};

use crate::lists::Lists;
use std::alloc::AllocError;

impl Lists {
    /// The turn that comes next for a process that may go on.
    fn go_on(&mut self, number: usize) -> Result<(), AllocError>
        requires world { IsWorld (view_of self.old) }
        requires goes { MayGoOn (view_of self.old) number }
        ensures ok { OnOk result ((turn : AnyTurn) × Chooses (view_of self.old) number None turn × TurnsTo (view_of self.old) turn (view_of self.new)) }
        ensures err { OnErr result (view_of self.new ≡ view_of self.old) }
    {
        let turn = self.choose(number, None);
        self.turn(turn)
    }

    /// Turns of processes that may go on, until all have answered or so many turns are done, and how many they were.
    pub fn settle(&mut self, most: u64) -> Result<u64, AllocError>
        requires world { IsWorld (view_of self.old) }
        requires way { ∥ Way (view_of self.old) ∥₁ }
        ensures ok { IfOk result (λ count. Settles (view_of self.old) count (view_of self.new) × (count ≤ most)) }
        ensures rest { IfOk result (λ count. (count ≡ most) ⊎ HaveAnswered (view_of self.new)) }
        ensures ends { turns_to_rest (length self.old.pages.items) (length self.old.processes.items) ≤ most → OnOk result (HaveAnswered (view_of self.new)) }
        ensures err { OnErr result ((count : ℕ) × Settles (view_of self.old) count (view_of self.new)) }
    {
        for done in 0..most {
            match self.ready() {
                Some(number) => self.go_on(number)?,
                None => return Ok(done),
            }
        }
        Ok(most)
    }
}
