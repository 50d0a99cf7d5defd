//! The index, and who works with it.

ghost use Rattle.std.specs.Prelude.{◌≡◌, ◌≤◌, ◌+◌, false};
ghost use Rattle.bl_store.specs.Hands.{known, IsIdle, HasNoStock};
ghost use Rattle.bl_claims.specs.Seeing.{IsSeen};
ghost use Rattle.bl_index_events.specs.Runs.{IsWithin};

use bl_index_events::Tree;
use bl_index_rule::PassState;
use bl_reserve::{RoomSeen, room};
use bl_store::Hand;
use std::marker::Model;

/// Pages of a tree that threads share.
#[derive(Drop)]
pub struct Index {
    pub(crate) tree: Tree,
}

// A clause sees the tree.
impl Model for Index {
    ghost use Rattle.bl_index_events.specs.declared.tree.Tree.{Tree};
    ghost use Rattle.bl_index_events.specs.contracts.tree.Tree.{the_row};

    ghost Value = { Tree };

    ghost coded = { the_row.coded };

    ghost view = { λ index. index.tree };
}

/// A pass as clauses see it: its hand, and what is true of that between two calls. No value of it is made while a program runs.
pub struct Worker {
    pub hand: Hand<PassState>,
    pub ghost idle: { IsIdle hand.seat },
    pub ghost empty: { HasNoStock hand.seat },
    pub ghost within: { IsWithin hand.seat },
    pub ghost rests: { (known hand.seat).runs ≡ false },
    pub ghost seen: { ∥ IsSeen (known hand.seat).first (known hand.seat).trail ∥₁ },
}

/// One who works with an index. Each thread has a pass of its own, and between two calls it runs no process. What it has
/// seen is always a trail that an index may have, of the passes that there are.
#[derive(Drop)]
pub struct Pass {
    pub(crate) hand: Hand<PassState>,
    ghost idle: { IsIdle hand.seat },
    ghost empty: { HasNoStock hand.seat },
    ghost within: { IsWithin hand.seat },
    ghost rests: { (known hand.seat).runs ≡ false },
    ghost seen: { ∥ IsSeen (known hand.seat).first (known hand.seat).trail ∥₁ },
}

impl Model for Pass {
    ghost use Rattle.bl_index.specs.declared.index.Worker.{Worker};
    ghost use Rattle.bl_index.specs.contracts.index.Worker.{the_row};

    ghost Value = { Worker };

    ghost coded = { the_row.coded };

    ghost view = { λ pass. record {
      hand = pass.hand;
      idle = pass.idle;
      empty = pass.empty;
      within = pass.within;
      rests = pass.rests;
      seen = pass.seen;
    } };
}

impl Pass {
    ghost use Rattle.bl_index.specs.Calls.{number_of};

    /// Its number among the passes of its index, from 0 on.
    pub fn number(&self) -> u32
        ensures { result ≡ number_of self.now }
    {
        self.hand.number()
    }

    /// Whether a sweep is worth its time now. It is a hint: a sweep does its whole work whatever this says.
    pub fn is_due(&self) -> bool {
        self.hand.is_due()
    }

    /// How many puts it has made, for who wants to know whether it has changed something. Nothing is promised of it.
    pub fn puts(&self) -> u64 {
        self.hand.sight.puts()
    }

    /// The hand by which it works, for one who runs a process event by event.
    pub fn into_hand(self) -> Hand<PassState>
        ensures { result ≡ self.hand }
    {
        self.hand
    }
}

impl Index {
    ghost use Rattle.bl_index.specs.Calls.{pages_of, frames_of};

    /// So many gets answer every search, where nothing is put meanwhile: the number of pages.
    pub fn patience(&self) -> u32
        ensures { result ≡ pages_of self.now }
    {
        self.tree.pages
    }

    /// How full it is, as one look over all its pages and frames finds it: see [`RoomSeen`]. No pass sees an event of it.
    pub fn room(&self) -> RoomSeen
        ensures pages { (result.pages ≡ pages_of self.now) × (result.used_pages + result.free_pages ≤ result.pages) }
        ensures frames { (result.frames ≡ frames_of self.now) × (result.free_frames ≤ result.frames) }
    {
        room(&self.tree.store)
    }

    /// The tree that its passes share, for one who runs a process event by event.
    pub fn tree(&self) -> &Tree
        ensures { result.now ≡ self.now }
    {
        &self.tree
    }
}
