//! Which process may go on.

ghost use Rattle.std.specs.Prelude.{ℕ, ◌≡◌, ◌<◌, ◌≤◌, ◌+◌, ◌⊎◌, ◌↔◌, length, Some, None, slice_get, IsTrue, IfSome, IfNone};
ghost use Rattle.bl_proc.specs.declared.kinds.Proc.{Proc};
ghost use Rattle.bl_proc.specs.Processes.{answer_of};
ghost use Rattle.bl_world.specs.Views.{view_of};
ghost use Rattle.bl_world.specs.Worlds.{IsWorld};
ghost use Rattle.bl_world.specs.Waits.{IsGoing, WaitsFor, MayGoOn, HoldsSome, NoneHeld, HaveAnswered, is_held as is_held_owner};

use crate::lists::Lists;
use crate::owners::Owner;
use bl_proc::{Action, Process};

/// Whether a process holds a page of that owner.
fn is_held(owner: Owner) -> bool
    ensures { result ≡ is_held_owner owner }
{
    match owner {
        Owner::Held(_) => true,
        Owner::Released | Owner::Open | Owner::Retired(_) => false,
    }
}

impl Lists {
    /// The process at that place, which has not answered, waits for another.
    fn is_waiting(&self, index: usize) -> bool
        requires world { IsWorld (view_of self.now) }
        requires started { index < length self.now.processes.items }
        requires going { (p : Proc) → slice_get self.now.processes.items index ≡ Some p → answer_of p ≡ None }
        ensures { IsTrue result ↔ ((other : ℕ) × WaitsFor (view_of self.now) (index + 1) other) }
    {
        match self.processes[index].next() {
            Action::Latch(at) => is_held(self.owners[at as usize]),
            _ => false,
        }
    }

    /// A process that holds a page, and waits for none.
    fn ready_holder(&self) -> Option<usize>
        requires { IsWorld (view_of self.now) }
        ensures some { IfSome result (λ number. MayGoOn (view_of self.now) number × HoldsSome (view_of self.now) number) }
        ensures none { IfNone result (NoneHeld (view_of self.now)) }
    {
        for at in 0..self.owners.len() {
            if let Owner::Held(number) = self.owners[at] {
                if !self.is_waiting(number - 1) {
                    return Some(number);
                }
            }
        }
        None
    }

    /// The process at that place has not answered.
    fn is_going(&self, index: usize) -> bool
        requires { index < length self.now.processes.items }
        ensures { IsTrue result ↔ IsGoing (view_of self.now) (index + 1) }
    {
        match self.processes[index].answer() {
            Some(_) => false,
            None => true,
        }
    }

    /// A process that may go on: one that holds a page, if any is held.
    pub fn ready(&self) -> Option<usize>
        requires { IsWorld (view_of self.now) }
        ensures goes { IfSome result (λ number. MayGoOn (view_of self.now) number × (HoldsSome (view_of self.now) number ⊎ NoneHeld (view_of self.now))) }
        ensures none { IfNone result (HaveAnswered (view_of self.now)) }
    {
        if let Some(number) = self.ready_holder() {
            return Some(number);
        }
        for index in 0..self.processes.len() {
            if self.is_going(index) {
                return Some(index + 1);
            }
        }
        None
    }
}
