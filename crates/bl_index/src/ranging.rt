//! Ranges: the rows between two keys as the map had them at one moment.

ghost use Rattle.std.specs.Prelude.{◌≡◌, ◌≤◌, ◌++◌, ℕ, List, [], IfOk, IfErr, OnErr};
ghost use Rattle.bl_index_read.specs.LeafRows.{IsBelow};
ghost use Rattle.bl_index_range.specs.Gathering.{HasGathered};
ghost use Rattle.bl_index_range.specs.Ranges.{ReadsRange, StopsRange};

use crate::index::{Index, Pass};
use bl_index_range::{Gathering, Kept, RangeFault, RangeLimits, gather};
use bl_proc_steps::Descent;
use std::mem;

impl Index {
    ghost use Rattle.bl_index.specs.Calls.{first_of, IsPassOf, IsSamePass, pages_of, number_of, trail};

    /// Appends the rows from a key on and below an end, if there is one, which is above the key: all of them as the map had them at one
    /// moment of the call, that of its last part. It reads the leaves one after another, and looks then whether one was put since it was
    /// read; from the first such one on it reads them again. It says how often it did. A fault leaves the rows as they were.
    ///
    /// Until it ends nothing is given back that was swapped out since it began. So it is for ranges of some hundred leaves. What it keeps
    /// of them stands in a vector that another range can use again.
    pub fn range_into(
        &self,
        pass: &mut Pass,
        from: u64,
        to: Option<u64>,
        limits: RangeLimits,
        kept: &mut Vec<Kept>,
        rows: &mut Vec<(u64, u64)>,
    ) -> Result<u32, RangeFault>
        requires own { IsPassOf self.now pass.old }
        requires below { IsBelow to from }
        ensures same { IsSamePass pass.old pass.new }
        ensures few { IfOk result (λ again. again ≤ limits.rounds) }
        ensures reads { IfOk result (λ again. (more : List (ℕ × ℕ)) × (rows.new.items ≡ rows.old.items ++ more)
            × ReadsRange (first_of self.now) (pages_of self.now) (number_of pass.old) limits.turns from to more (trail pass.old) (trail pass.new)) }
        ensures kept { OnErr result (rows.new.items ≡ rows.old.items) }
        ensures stops { IfErr result (λ fault. StopsRange (first_of self.now) (pages_of self.now) (number_of pass.old) limits.turns limits.rounds from to
            fault (trail pass.old) (trail pass.new)) }
    {
        let before = rows.len();
        // Behind the references their fields would be read again after each word of a leaf.
        let none = Vec::new(*rows.allocator());
        let unkept = Vec::new(*kept.allocator());
        let mut gathering = Gathering {
            round: 0,
            at: from,
            way: Descent::AtAnchor,
            kept: mem::replace(kept, unkept),
            rows: mem::replace(rows, none),
        };
        gathering.kept.clear();
        let done = self.range(pass, to, limits, &mut gathering);
        let again = gathering.round;
        if done.is_err() {
            gathering.rows.truncate(before);
        }
        *kept = gathering.kept;
        *rows = gathering.rows;
        match done {
            Ok(()) => Ok(again),
            Err(fault) => Err(fault),
        }
    }

    /// Gathers a range that is to begin.
    #[inline(always)]
    fn range(
        &self,
        pass: &mut Pass,
        to: Option<u64>,
        limits: RangeLimits,
        gathering: &mut Gathering,
    ) -> Result<(), RangeFault>
        requires own { IsPassOf self.now pass.old }
        requires below { IsBelow to gathering.old.at }
        requires begins { (gathering.old.round ≡ 0) × (gathering.old.kept.items ≡ []) }
        ensures same { IsSamePass pass.old pass.new }
        ensures gathered { HasGathered (first_of self.now) (pages_of self.now) (number_of pass.old) limits gathering.old.at to
            gathering.old.rows.items gathering.new result (trail pass.old) (trail pass.new) }
    {
        gather(&self.tree, &mut pass.hand, to, limits, gathering)
    }
}
