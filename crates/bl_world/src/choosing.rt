//! Which turn is chosen for a process.

ghost use Rattle.std.specs.Prelude.{◌≡◌, ◌<◌, ◌≤◌, ◌^◌, ◌↔◌, length, IsTrue, IfSome, IfNone};
ghost use Rattle.bl_world.specs.Views.{view_of};
ghost use Rattle.bl_world.specs.Turns.{IsStarted};
ghost use Rattle.bl_world.specs.Choices.{IsToTake, HasNoneFree, IsLeastFree, Tries, Chooses};

use crate::lists::Lists;
use crate::turns::Turn;
use bl_proc::{Action, Process};

impl Lists {
    /// The least released page.
    fn least_free(&self) -> Option<u32>
        ensures found { IfSome result (IsLeastFree (view_of self.now)) }
        ensures none { IfNone result (HasNoneFree (view_of self.now)) }
    {
        for at in 1..self.owners.len() as u32 {
            if self.is_free(at) {
                return Some(at);
            }
        }
        None
    }

    /// The page that a take tries, which is this one where it is named. None where no page is released.
    fn tried(&self, page: Option<u32>) -> Option<u32>
        ensures found { IfSome result (Tries (view_of self.now) page) }
        ensures none { IfNone result (HasNoneFree (view_of self.now)) }
    {
        let least = self.least_free()?;
        Some(page.unwrap_or(least))
    }

    /// The process with that number is to take a page.
    fn is_to_take(&self, number: usize) -> bool
        ensures { IsTrue result ↔ IsToTake (view_of self.now) number }
    {
        if number == 0 || number > self.processes.len() {
            return false;
        }
        if let Some(_) = self.processes[number - 1].answer() {
            return false;
        }
        matches!(self.processes[number - 1].next(), Action::Take)
    }

    /// The turn for the process with that number.
    pub fn choose(&self, number: usize, page: Option<u32>) -> Turn
        ensures { Chooses (view_of self.now) number page result }
    {
        if !self.is_to_take(number) {
            return Turn::Step(number);
        }
        match self.tried(page) {
            Some(at) => Turn::Take(number, at),
            None => Turn::Refuse(number),
        }
    }
}
