//! A walk over all pages for such as are thin, by calls that may not wait: each goes on where the one before it has stopped.

ghost use Rattle.std.specs.Prelude.{◌≡◌, ◌↔◌, ◌⊎◌, ◌+◌, ◌<◌, ◌≤◌, max, true, false};
ghost use Rattle.bl_index.specs.Calls.{pages_of};
ghost use Rattle.bl_map_calls.specs.declared.room.Extent.TheVariants as extents;

use bl_index::{Hint, Index, Pass};
use bl_map_calls::room::{Extent, PIECE, WALKS, is_enough, wants_walk};
use bl_map_calls::upkeep::WAITS_FOR_ROOM;
use bl_waiting::Waiting;

/// So many pages a call looks at at most, where not each hand may find one, or where all are to be looked at: it is to take no time that
/// anybody feels.
const STRIDE: u32 = 4_096;

/// How many pages a call looks at at most.
fn stride(index: &Index, extent: Extent) -> u32
    ensures { (0 < result) × (result ≤ 4096) }
{
    if extent == Extent::Whole || wants_walk(index) {
        STRIDE
    } else {
        PIECE
    }
}

/// How far the walk of one who may not wait has come, and how long its writes have been refused.
#[derive(Clone, Copy, Debug, PartialEq, Eq)]
pub struct Walk {
    /// The page at which it goes on, or 0 where none is underway.
    pub next: u32,
    /// Its number, by which the store knows it.
    number: u64,
    /// How many puts the pass had made when it began.
    puts: u64,
    /// Whether a piece was given up on it.
    missed: bool,
    /// How many pieces had been dropped when it began.
    pub dropped: u64,
    /// How long in a row writes were refused for want of room, 32,768 at most: a refusal counts 1, and a walk over all pages 8,192.
    pub refused: u32,
}

impl Walk {
    /// None is underway.
    pub fn new() -> Walk
        ensures { (result.next ≡ 0) × (result.dropped ≡ 0) × (result.refused ≡ 0) }
    {
        Walk {
            next: 0,
            number: 0,
            puts: 0,
            missed: false,
            dropped: 0,
            refused: 0,
        }
    }

    /// Whether all pages are to be looked at for those that were dropped, or are looked at now.
    pub(crate) fn is_due(&self, waiting: &Waiting) -> bool
        ensures { result ≡ false ↔ (self.now.next ≡ 0) × (self.now.dropped ≡ waiting.now.dropped) }
    {
        self.next > 0 || self.dropped != waiting.dropped
    }

    /// Whether a write that finds no room is to begin all the same.
    pub(crate) fn is_out_of_patience(&mut self) -> bool
        ensures { result ≡ false → (self.new.refused ≡ self.old.refused + 1) × (self.new.refused ≤ 32768) }
    {
        if self.refused < WAITS_FOR_ROOM {
            self.refused += 1;
            return false;
        }
        self.refused = 0;
        true
    }

    /// A write has found room.
    pub(crate) fn note_room(&mut self) {
        self.refused = 0;
    }

    /// A piece was given up on it, so it may not know at its end that there is nothing to find.
    pub(crate) fn note_missed(&mut self)
        ensures kept { (self.new.refused ≡ self.old.refused) × (self.new.dropped ≡ self.old.dropped) }
        ensures next { self.new.next ≡ self.old.next }
    {
        self.missed = true;
    }

    /// It begins, where none is underway.
    fn begin(&mut self, index: &Index, pass: &Pass, waiting: &Waiting)
        ensures next { self.new.next ≡ max 1 self.old.next }
        ensures refused { self.new.refused ≡ self.old.refused }
        ensures begun { self.old.next ≡ 0 → self.new.dropped ≡ waiting.now.dropped }
        ensures goes { 0 < self.old.next → self.new.dropped ≡ self.old.dropped }
    {
        if self.next > 0 {
            return;
        }
        self.next = 1;
        self.number = index.tree().store.room.begin_walk();
        self.puts = pass.puts();
        self.missed = false;
        self.dropped = waiting.dropped;
    }

    /// The page behind the last one at which it looks in this call.
    fn reach(&self, index: &Index, extent: Extent) -> u32
        ensures most { (result ≤ pages_of index.now) × (result ≤ self.now.next + 4096) }
        ensures some { (self.now.next < result) ⊎ (pages_of index.now ≤ self.now.next) }
    {
        let reached = self.next.saturating_add(stride(index, extent));
        index.patience().min(reached)
    }

    /// It begins, where none is underway. The page behind the last one at which it looks in this call.
    pub(crate) fn set_out(
        &mut self,
        index: &Index,
        pass: &Pass,
        waiting: &Waiting,
        extent: Extent,
    ) -> u32
        ensures next { self.new.next ≡ max 1 self.old.next }
        ensures refused { self.new.refused ≡ self.old.refused }
        ensures begun { self.old.next ≡ 0 → self.new.dropped ≡ waiting.now.dropped }
        ensures goes { 0 < self.old.next → self.new.dropped ≡ self.old.dropped }
        ensures most { (result ≤ pages_of index.now) × (result ≤ self.new.next + 4096) }
        ensures some { (self.new.next < result) ⊎ (pages_of index.now ≤ self.new.next) }
    {
        self.begin(index, pass, waiting);
        self.reach(index, extent)
    }

    /// The hint of the next thin page before that one. It stops where pages are no longer scarce, if it is for these.
    pub(crate) fn next_thin(&mut self, index: &Index, to: u32, extent: Extent) -> Option<Hint>
        ensures kept { (self.new.refused ≡ self.old.refused) × (self.new.dropped ≡ self.old.dropped) }
        ensures on { (self.old.next ≤ self.new.next) × (self.old.next ≤ to → self.new.next ≤ to) }
        ensures whole { extent ≡ extents.Whole → self.old.next < to → self.old.next < self.new.next }
    {
        for page in self.next..to {
            if is_enough(index, extent) {
                return None;
            }
            self.next = page + 1;
            let hint = index.tree().thin_at(page);
            if hint.is_some() {
                return hint;
            }
        }
        None
    }

    /// Where it has come to the end of all pages, it is over. Where it has changed nothing, all know that there is nothing to find.
    pub(crate) fn come_to_end(&mut self, index: &Index, pass: &Pass)
        ensures kept { (self.old.refused ≤ self.new.refused) × (self.new.dropped ≡ self.old.dropped) }
        ensures goes { self.old.next < pages_of index.now → self.new.next ≡ self.old.next }
        ensures over { pages_of index.now ≤ self.old.next → self.new.next ≡ 0 }
    {
        if self.next < index.patience() {
            return;
        }
        if !self.missed && self.puts == pass.puts() {
            index.tree().store.room.end_walk(self.number);
        }
        self.next = 0;
        self.refused = self.refused.saturating_add(WAITS_FOR_ROOM / WALKS);
    }
}
