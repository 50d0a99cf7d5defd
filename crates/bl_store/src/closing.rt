//! The end of a store: its hands come back, and its pages are read once more.
ghost use Rattle.std.specs.Prelude.{◌≡◌, ℕ, ◌+◌, ◌-◌, ◌%◌, ◌<◌, ◌≤◌, [], slice_index, replicate, vec_capacity};
ghost use Rattle.std.specs.Slots.{slots_items, slots_len, IsFull};
ghost use mathlib.Core.Option.{some};
ghost use lib.ListN.{get_elem?};
ghost use Rattle.bl_layout.specs.Words.{frame_count};
ghost use Rattle.bl_layout.specs.Cells.{cell_count};
ghost use Rattle.bl_store_rule.specs.Frames.{page_at, place_at};
ghost use Rattle.bl_store.specs.Hands.{IsIdle};
ghost use Rattle.bl_store.specs.Closing.{HasEach, IsClosed, IsGone};

use crate::meeting::TakeIn;
use crate::store::{Hand, Store};
use atomic_table::Closed;
use bl_layout::Layout;
use bl_store_rule::PageRule;
use std::alloc::Allocator;

impl<D, R: PageRule<D>, A: Allocator> Store<D, R, A> {
    ghost use Rattle.bl_store.specs.Owners.{IsHandOf};

    /// The words of each page, and zeros for one that is released or retired. It takes all hands, each outside a
    /// process, and a vector with room for all pages.
    pub fn close(self, mut hands: Vec<Hand<D>>, mut room: Vec<[u64; 32]>) -> Vec<[u64; 32]>
        requires own { (k : ℕ) (hand : Hand D) → get_elem? hands.items k ≡ some hand → IsHandOf self hand × IsIdle hand.seat }
        requires all { HasEach self.layout.passes hands.items }
        requires room { (room.items ≡ []) × (self.layout.pages ≤ vec_capacity room) }
        ensures { IsClosed R.holds self.layout hands.items result.items }
    {
        let Some(Hand { mut seat, .. }) = hands.pop() else {
            unreachable!()
        };
        while let Some(other) = hands.pop() {
            self.table
                .shared
                .join_seat::<TakeIn<R>>(&mut seat, other.seat);
        }
        let Store { table, layout, .. } = self;
        let closed = table.close_with(seat);
        for page in 0..layout.pages {
            room.push_reserved(last_words(&closed, layout, page));
        }
        closed.free();
        room
    }
}

// The words of a page in the closed table.
fn last_words<A: Allocator>(closed: &Closed<(), A>, layout: Layout, page: u32) -> [u64; 32]
    requires full { IsFull closed.now.words × (slots_len closed.now.words ≡ cell_count layout) }
    requires page { page < layout.pages }
    requires frame { slice_index (slots_items closed.now.words) (page_at layout page) ≤ frame_count layout }
    ensures gone { IsGone (slots_items closed.now.words) layout page → result ≡ replicate 32 0 }
    ensures here { (IsGone (slots_items closed.now.words) layout page → ⊥) → (k : ℕ) → k < 32
        → slice_index result k
        ≡ slice_index (slots_items closed.now.words) (place_at layout (slice_index (slots_items closed.now.words) (page_at layout page) - 1) k) }
{
    let owner = closed.word(layout.page_owner_cell(page));
    let found = closed.word(layout.page_cell(page));
    let mut words = [0; 32];
    if owner == 0 || owner % 4 == 3 || found == 0 {
        return words;
    }
    let first = layout.frame_word_cell((found - 1) as u32, 0);
    for place in 0..32 {
        words[place] = closed.word(first + place);
    }
    words
}
