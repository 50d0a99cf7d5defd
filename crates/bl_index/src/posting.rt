//! Posts.

ghost use Rattle.std.specs.Prelude.{◌≡◌, IfSome, IfNone};
ghost use Rattle.bl_answers.specs.Hints.{level_of, key_of};
ghost use Rattle.bl_answers.specs.declared.answers.Posted.TheVariants as postings;

use crate::index::{Index, Pass};
use bl_index_write::{post_key, try_post};
use bl_proc::{Hint, Posted};
use std::sync::Wait;

impl Index {
    ghost use Rattle.bl_claims.specs.Meanings.{HasRaised};
    ghost use Rattle.bl_index.specs.Calls.{first_of, IsPassOf, IsSamePass, number_of, trail, Posts, PostLacks, GivesUp};

    /// Lists the page whose low is the hint's key in its parent, which is of the hint's level. The parent then reaches it
    /// without the link of its left neighbour. A hint of either kind will do, and a late or repeated one does no harm.
    /// Where the parent was split, there is a hint to post it.
    pub fn post<R: Wait>(&self, rt: &R, pass: &mut Pass, hint: Hint) -> (Posted, Option<Hint>)
        requires own { IsPassOf self.now pass.old }
        ensures same { IsSamePass pass.old pass.new }
        ensures posts { Posts (first_of self.now) (number_of pass.old) (level_of hint) (key_of hint) result.0 result.1 (trail pass.old) (trail pass.new) }
        ensures no_room { result.0 ≡ postings.NoRoom → PostLacks pass.old (level_of hint) (key_of hint) pass.new }
    {
        post_key(&self.tree, rt, &mut pass.hand, hint.level(), hint.key())
    }

    /// The same, or gives up: it waits for nothing, and gets so many pages at most on its way to the parent. None: a page that it was to latch
    /// is another process's, or its way was longer. It has listed nothing, and nothing of it is left but a new top level, where it has made
    /// one.
    pub fn try_post(
        &self,
        pass: &mut Pass,
        hint: Hint,
        turns: u32,
    ) -> Option<(Posted, Option<Hint>)>
        requires own { IsPassOf self.now pass.old }
        ensures same { IsSamePass pass.old pass.new }
        ensures posts { IfSome result (λ said. Posts (first_of self.now) (number_of pass.old) (level_of hint) (key_of hint) said.0 said.1
            (trail pass.old) (trail pass.new)) }
        ensures no_room { IfSome result (λ said. said.0 ≡ postings.NoRoom → PostLacks pass.old (level_of hint) (key_of hint) pass.new) }
        ensures undone { IfNone result (GivesUp (HasRaised (level_of hint)) (first_of self.now) (number_of pass.old) (trail pass.old)
            (trail pass.new)) }
    {
        try_post(&self.tree, &mut pass.hand, hint.level(), hint.key(), turns)
    }
}
