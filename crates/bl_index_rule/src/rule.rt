//! The rule of threads.

use crate::known::PassState;
use bl_store_rule::PageRule;

/// One good world stands behind the pages, and each hand's pass knows a beginning of what has happened in it.
pub struct Passes;

impl PageRule<PassState> for Passes {
    ghost use Rattle.std.proofs.Math.Nat.{le_trans, le-add_right};
    ghost use Rattle.bl_index_rule.specs.Simulation.{Simulates, newcomer};

    ghost holds = { Simulates };

    ghost ticks = { λ s f. record {
      world = f.world;
      good = f.good;
      kept = f.kept;
      image = f.image;
      opening = f.opening;
      first = f.first;
      moments = f.moments;
      size = f.size;
      clock = le_trans f.clock (le-add_right s.clock 1);
      pages = f.pages;
      owners = f.owners;
      hands = f.hands;
      within = f.within;
      busy =
          f.busy;
      counts = f.counts;
      firsts = f.firsts;
      versions = f.versions;
      firm = f.firm;
    } };

    ghost gone = { newcomer };
}
