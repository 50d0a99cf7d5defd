//! Searches.

ghost use Rattle.std.specs.Prelude.{◌≡◌, ◌<◌, ◌≤◌, IfOk, IfErr, length};
ghost use Rattle.bl_model.specs.declared.operation.Op.TheVariants as op;
ghost use Rattle.bl_model.specs.Replies.{reply_of};

use crate::index::{Index, Pass};
use bl_index_events::ABREAST;
use bl_index_read::{OutOfTurns, find_key, find_keys};
use bl_model::KeyReply;

impl Index {
    ghost use Rattle.bl_index.specs.Calls.{first_of, IsPassOf, IsSamePass, pages_of, number_of, trail, StepsAlone};
    ghost use Rattle.bl_index_read.specs.Searching.{Finds, RunsOut};
    ghost use Rattle.bl_index_read.specs.Together.{FindsUpTo};

    /// The value of a key, or that the key is absent. It gets at most so many pages, the anchor included.
    #[inline(always)]
    pub fn find(&self, pass: &mut Pass, key: u64, turns: u32) -> Result<KeyReply, OutOfTurns>
        requires { IsPassOf self.now pass.old }
        ensures same { IsSamePass pass.old pass.new }
        ensures found { IfOk result (λ reply. Finds (first_of self.now) (pages_of self.now) (number_of pass.old) turns (op.Find key) (reply_of reply)
            (trail pass.old) (trail pass.new)) }
        ensures runs_out { IfErr result (λ _. RunsOut (first_of self.now) (pages_of self.now) (number_of pass.old) turns (trail pass.old) (trail pass.new)) }
        ensures alone { IfOk result (λ reply. StepsAlone (first_of self.now) self.now (op.Find key) (reply_of reply) (trail pass.old) (trail pass.new)) }
    {
        self.find_near(pass, key, None, turns)
    }

    /// The same for one who has a page in mind, from which the way to the key may be short: the search looks first whether that page is
    /// open. Any number will do for it, and with none the search goes the whole way.
    #[inline(always)]
    pub fn find_near(
        &self,
        pass: &mut Pass,
        key: u64,
        near: Option<u32>,
        turns: u32,
    ) -> Result<KeyReply, OutOfTurns>
        requires { IsPassOf self.now pass.old }
        ensures same { IsSamePass pass.old pass.new }
        ensures found { IfOk result (λ reply. Finds (first_of self.now) (pages_of self.now) (number_of pass.old) turns (op.Find key) (reply_of reply)
            (trail pass.old) (trail pass.new)) }
        ensures runs_out { IfErr result (λ _. RunsOut (first_of self.now) (pages_of self.now) (number_of pass.old) turns (trail pass.old) (trail pass.new)) }
        ensures alone { IfOk result (λ reply. StepsAlone (first_of self.now) self.now (op.Find key) (reply_of reply) (trail pass.old) (trail pass.new)) }
    {
        find_key(&self.tree, &mut pass.hand, key, near, turns)
    }

    /// The values of keys, one after another, by searches of which each gets so many pages at most and looks first at the page that is near.
    /// Each sets off where the one before it ends, at one event, which takes less time than an end and a begin. Says how many were answered:
    /// where they are not all, the next one has run out of turns, and those behind it have not begun.
    pub fn find_many(
        &self,
        pass: &mut Pass,
        keys: &[u64],
        near: &[u32],
        turns: u32,
        replies: &mut [KeyReply],
    ) -> usize
        requires own { IsPassOf self.now pass.old }
        requires some { 0 < length keys.now }
        requires near { length keys.now ≤ length near.now }
        requires room { length replies.old ≡ length keys.now }
        ensures same { IsSamePass pass.old pass.new }
        ensures long { length replies.new ≡ length keys.now }
        ensures finds { FindsUpTo (first_of self.now) (pages_of self.now) (number_of pass.old) turns keys.now replies.new result
            (trail pass.old) (trail pass.new) }
    {
        find_keys(&self.tree, &mut pass.hand, keys, near, turns, replies)
    }

    /// Fetches from memory, side by side, the pages on the ways to the first of these keys, eight at most, and gives for each a page to have in
    /// mind in a search for it. It changes nothing, and what it gives are guesses, of which nothing is promised.
    #[inline(always)]
    pub fn fetch(&self, keys: &[u64]) -> [u32; ABREAST] {
        self.tree.fetch_leaves(keys)
    }
}
