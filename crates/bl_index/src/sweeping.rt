//! Sweeps.

ghost use Rattle.std.specs.Prelude.{◌≡◌, ◌+◌};

use crate::index::{Index, Pass};
use bl_reserve::lacks_frames;

impl Index {
    ghost use Rattle.bl_claims.specs.Seeing.{IsSeen};
    ghost use Rattle.bl_index.specs.Calls.{first_of, IsPassOf, IsSamePass, number_of, trail, released_by, Sweeps, SweptOnce};

    /// Releases pages and frames that no process can read any more: each was retired before every process began that still
    /// runs. Returns how many.
    pub fn sweep(&self, pass: &mut Pass) -> u32
        requires { IsPassOf self.now pass.old }
        ensures same { IsSamePass pass.old pass.new }
        ensures sweeps { Sweeps (first_of self.now) (number_of pass.old) result (trail pass.old) (trail pass.new) }
        ensures seen { ∥ IsSeen (first_of self.now) (trail pass.new) ∥₁ }
        ensures count { released_by pass.new ≡ released_by pass.old + result }
        ensures swept { SweptOnce pass.old pass.new }
    {
        self.tree.sweep(&mut pass.hand)
    }

    /// Whether a change may find too few frames now, while some wait to be released. It is a hint of which nothing is promised.
    pub fn lacks_frames(&self, pass: &Pass) -> bool {
        lacks_frames(&self.tree.store, &pass.hand)
    }

    /// Whether pages are scarce while some wait to be released. It is a hint as well.
    pub fn waits_for_pages(&self) -> bool {
        self.tree.store.room.lacks_pages() && self.tree.store.room.retiring() > 0
    }
}
