//! What was swapped out is released.

ghost use Rattle.std.specs.Prelude.{◌≡◌, ℕ, ◌+◌, ◌≤◌, false};
ghost use Rattle.bl_store.specs.Hands.{known};
ghost use Rattle.bl_store.specs.Owners.{IsHandOf};
ghost use Rattle.bl_store.specs.Sweeps.{HasSweptOnce};
ghost use Rattle.bl_index_rule.specs.Observed.{sweeps};
ghost use Rattle.bl_index_events.specs.Runs.{KeepsHand, IsWithin};

use crate::tree::Tree;
use bl_index_rule::{PassState, Sweeper, Swept};
use bl_store::Hand;
use std::marker::Brand;

impl Tree {
    // The releases of a sweep, by the process that the bound names beside its pass.
    fn release<J: Sweeper>(&self, hand: &mut Hand<PassState>) -> u32
        requires own { IsHandOf self.now.store hand.old }
        requires rests { (known hand.old.seat).runs ≡ false }
        requires names { (hand.old.number ≡ J.pass) × ((known hand.old.seat).number + 1 ≡ J.number) × (self.now.store.layout.passes ≡ J.passes) }
        requires within { IsWithin hand.old.seat }
        ensures same { KeepsHand hand.old.seat hand.new.seat }
        ensures observed { (pages : ℕ) × (pages ≤ result) × sweeps J.pass J.number J.passes (known hand.old.seat) pages (known hand.new.seat) }
        ensures within { IsWithin hand.new.seat }
        ensures count { hand.new.seat.me.0.releases ≡ hand.old.seat.me.0.releases + result }
        ensures swept { HasSweptOnce hand.old hand.new }
    {
        self.store.sweep::<Swept<J>>(hand)
    }

    /// A hand that runs no process releases pages and frames that no process can read any more. Returns how many.
    pub fn sweep(&self, hand: &mut Hand<PassState>) -> u32
        requires own { IsHandOf self.now.store hand.old }
        requires rests { (known hand.old.seat).runs ≡ false }
        requires within { IsWithin hand.old.seat }
        ensures same { KeepsHand hand.old.seat hand.new.seat }
        ensures observed { (pages : ℕ) × (pages ≤ result) × sweeps hand.old.number ((known hand.old.seat).number + 1) self.now.store.layout.passes
            (known hand.old.seat) pages (known hand.new.seat) }
        ensures within { IsWithin hand.new.seat }
        ensures count { hand.new.seat.me.0.releases ≡ hand.old.seat.me.0.releases + result }
        ensures swept { HasSweptOnce hand.old hand.new }
    {
        self.release::<Brand>(hand)
    }
}
