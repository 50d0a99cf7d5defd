//! Compressions.

ghost use Rattle.std.specs.Prelude.{◌≡◌, IfSome, IfNone};
ghost use Rattle.bl_answers.specs.declared.answers.Squeezed.TheVariants as answer;
ghost use Rattle.bl_answers.specs.Hints.{level_of, key_of};

use crate::index::{Index, Pass};
use bl_index_compress::{compress_children, try_compress};
use bl_proc::{Hint, Squeezed};
use std::sync::Wait;

impl Index {
    ghost use Rattle.bl_store.specs.Hands.{WasRefused};
    ghost use Rattle.bl_index_events.specs.Answered.{WritesNothing};
    ghost use Rattle.bl_index.specs.Calls.{first_of, IsPassOf, IsSamePass, number_of, trail, Compresses, GivesUp};

    /// Makes room where deletions left pages with few pairs, while other threads read and write: Sagiv, "Concurrent
    /// operations on B*-trees with overtaking" (JCSS 33, 1986). In the parent of the hint's level it takes the child that
    /// covers the hint's key and a neighbour. It merges the two where one page holds all their pairs; the other page then
    /// serves again after a sweep. Else it evens them out where one of them has few. A hint of either kind will do, and a
    /// late or repeated one does no harm. After a merge there is a hint where the parent is thin now, or else the one child;
    /// and where a page between the two is not yet listed, a hint to post that first.
    pub fn compress<R: Wait>(&self, rt: &R, pass: &mut Pass, hint: Hint) -> (Squeezed, Option<Hint>)
        requires own { IsPassOf self.now pass.old }
        ensures same { IsSamePass pass.old pass.new }
        ensures compresses { Compresses (first_of self.now) (number_of pass.old) (level_of hint) (key_of hint) result.0 result.1 (trail pass.old)
            (trail pass.new) }
        ensures no_room { result.0 ≡ answer.NoRoom → WasRefused pass.new.hand.seat 0 3 }
    {
        compress_children(&self.tree, rt, &mut pass.hand, hint.level(), hint.key())
    }

    /// The same, or gives up: it waits for nothing, and gets so many pages at most on its way to the parent. None: a page that it was to latch
    /// is another process's, or its way was longer. It has not been done, and nothing of it is left.
    pub fn try_compress(
        &self,
        pass: &mut Pass,
        hint: Hint,
        turns: u32,
    ) -> Option<(Squeezed, Option<Hint>)>
        requires own { IsPassOf self.now pass.old }
        ensures same { IsSamePass pass.old pass.new }
        ensures compresses { IfSome result (λ said. Compresses (first_of self.now) (number_of pass.old) (level_of hint) (key_of hint) said.0 said.1
            (trail pass.old) (trail pass.new)) }
        ensures no_room { IfSome result (λ said. said.0 ≡ answer.NoRoom → WasRefused pass.new.hand.seat 0 3) }
        ensures undone { IfNone result (GivesUp WritesNothing (first_of self.now) (number_of pass.old) (trail pass.old) (trail pass.new)) }
    {
        try_compress(&self.tree, &mut pass.hand, hint.level(), hint.key(), turns)
    }
}
