//! Parts of the map.

ghost use Rattle.std.specs.Prelude.{IfOk, IfErr};
ghost use Rattle.bl_model.specs.declared.operation.Op.TheVariants as op;
ghost use Rattle.bl_proc.specs.Parts.{op_toward};

use crate::index::{Index, Pass};
use bl_index_read::{OutOfTurns, list_part};
use bl_model::Reply;
use bl_proc::Direction;

impl Index {
    ghost use Rattle.bl_index.specs.Calls.{first_of, IsPassOf, IsSamePass, pages_of, number_of, trail, StepsAlone};
    ghost use Rattle.bl_index_read.specs.Searching.{Finds, RunsOut};

    /// The pairs of one leaf from a key on, in rising order, and the key from which the next part begins, where there is
    /// one. It gets at most so many pages, the anchor included.
    pub fn part(&self, pass: &mut Pass, from: u64, turns: u32) -> Result<Reply, OutOfTurns>
        requires { IsPassOf self.now pass.old }
        ensures same { IsSamePass pass.old pass.new }
        ensures found { IfOk result (λ reply. Finds (first_of self.now) (pages_of self.now) (number_of pass.old) turns (op.Part from) reply
            (trail pass.old) (trail pass.new)) }
        ensures runs_out { IfErr result (λ _. RunsOut (first_of self.now) (pages_of self.now) (number_of pass.old) turns (trail pass.old) (trail pass.new)) }
        ensures alone { IfOk result (λ reply. StepsAlone (first_of self.now) self.now (op.Part from) reply (trail pass.old) (trail pass.new)) }
    {
        self.part_toward(pass, Direction::Up, from, &mut None, turns)
    }

    /// The same for one who goes along the leaves: with `None` for the first part, it takes the page from which the way to each further
    /// one is short, and leaves there the page to which the part's leaf links. Any number will do for it: the part looks first whether
    /// that page is open, and else goes the whole way.
    pub fn part_near(
        &self,
        pass: &mut Pass,
        from: u64,
        near: &mut Option<u32>,
        turns: u32,
    ) -> Result<Reply, OutOfTurns>
        requires { IsPassOf self.now pass.old }
        ensures same { IsSamePass pass.old pass.new }
        ensures found { IfOk result (λ reply. Finds (first_of self.now) (pages_of self.now) (number_of pass.old) turns (op.Part from) reply
            (trail pass.old) (trail pass.new)) }
        ensures runs_out { IfErr result (λ _. RunsOut (first_of self.now) (pages_of self.now) (number_of pass.old) turns (trail pass.old) (trail pass.new)) }
        ensures alone { IfOk result (λ reply. StepsAlone (first_of self.now) self.now (op.Part from) reply (trail pass.old) (trail pass.new)) }
    {
        self.part_toward(pass, Direction::Up, from, near, turns)
    }

    /// The pairs of one leaf from a key on downwards, in falling order, and the key with which the next part downwards begins, where
    /// there is one. With a page in mind it looks at that one first; any number will do. It gets at most so many pages, the anchor
    /// included.
    pub fn part_down(
        &self,
        pass: &mut Pass,
        from: u64,
        near: Option<u32>,
        turns: u32,
    ) -> Result<Reply, OutOfTurns>
        requires { IsPassOf self.now pass.old }
        ensures same { IsSamePass pass.old pass.new }
        ensures found { IfOk result (λ reply. Finds (first_of self.now) (pages_of self.now) (number_of pass.old) turns (op.PartDown from) reply
            (trail pass.old) (trail pass.new)) }
        ensures runs_out { IfErr result (λ _. RunsOut (first_of self.now) (pages_of self.now) (number_of pass.old) turns (trail pass.old) (trail pass.new)) }
        ensures alone { IfOk result (λ reply. StepsAlone (first_of self.now) self.now (op.PartDown from) reply (trail pass.old) (trail pass.new)) }
    {
        let mut near = near;
        self.part_toward(pass, Direction::Down, from, &mut near, turns)
    }

    /// The one or the other: see [`Index::part_near`]. Downwards no leaf links to the next one, and `None` is left.
    pub fn part_toward(
        &self,
        pass: &mut Pass,
        direction: Direction,
        from: u64,
        near: &mut Option<u32>,
        turns: u32,
    ) -> Result<Reply, OutOfTurns>
        requires { IsPassOf self.now pass.old }
        ensures same { IsSamePass pass.old pass.new }
        ensures found { IfOk result (λ reply. Finds (first_of self.now) (pages_of self.now) (number_of pass.old) turns (op_toward direction from) reply
            (trail pass.old) (trail pass.new)) }
        ensures runs_out { IfErr result (λ _. RunsOut (first_of self.now) (pages_of self.now) (number_of pass.old) turns (trail pass.old) (trail pass.new)) }
        ensures alone { IfOk result (λ reply. StepsAlone (first_of self.now) self.now (op_toward direction from) reply (trail pass.old) (trail pass.new)) }
    {
        list_part(&self.tree, &mut pass.hand, direction, from, near, turns)
    }
}
