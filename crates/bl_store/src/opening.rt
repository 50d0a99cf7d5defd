//! A store is made, and its hands are dealt out.
ghost use Rattle.std.specs.Prelude.{◌≡◌, ◌+◌, ◌<◌, ◌≤◌, ◌^◌, false, [], length, replicate, slice_index_or, IfOk};
ghost use Rattle.bl_layout.specs.Cells.{cell_count};
ghost use Rattle.bl_store_rule.specs.Frames.{share};
ghost use Rattle.bl_room.specs.Blanks.{is_blank};
ghost use Rattle.bl_store.specs.Opening.{first_pages, padded, Laid, IsDealt};
ghost use Rattle.bl_store_rule.specs.declared.view.Sealing.TheVariants.{Unsealed};

use crate::store::{APART, Hand, Store};
use atomic_table::{Seat, Split, Table};
use bl_layout::Layout;
use bl_room::{FirstWords, Room, Sight, is_all_zeros};
use bl_store_rule::{Ground, PageRule, View};
use std::alloc::{AllocError, Global};
use std::mem;
use std::snapshot::Snapshot;

// The numbers that a hand has to deal out, but its own, go to the next hand.
pub(crate) struct Deal;

impl<D> Split<View<D>> for Deal {
    ghost use Rattle.bl_store_rule.specs.Frames.{own_share, next_share};

    ghost left = { own_share };

    ghost right = { next_share };
}

impl<D, R: PageRule<D>> Store<D, R, Global> {
    /// A store whose pages have these words, and a hand for each pass, which knows at first what is lent here. A page with
    /// only zeros is released, every other is open.
    pub fn new<F: FirstWords + Drop>(
        alloc: Global,
        first: F,
        passes: u32,
        known: &D,
    ) -> Result<(Store<D, R, Global>, Vec<Hand<D>>), AllocError>
        requires pages { (4 ≤ length (F.contents first)) × (length (F.contents first) ≤ 2 ^ 28) }
        requires passes { (1 ≤ passes) × (passes ≤ 64) }
        requires rule { R.holds (first_pages (F.contents first) passes known.now) }
        ensures layout { IfOk result (λ t. (t.0.layout.pages ≡ length (F.contents first)) × (t.0.layout.passes ≡ passes)) }
        ensures hands { IfOk result (λ t. IsDealt t.0.table.shared.table_id t.0.layout known.now passes t.1.items) }
        ensures known { IfOk result (λ t. t.0.table.shared.key.known.value ≡ known.now) }
    {
        let layout = Layout::of(first.count() as u32, passes);
        Self::of_layout(alloc, layout, first, known)
    }

    /// The same of so many pages, with so many frames to spare. Who gives the words is let go as soon as they stand in the store. These are the words of the first pages, and all others have only zeros.
    pub fn of_layout<F: FirstWords + Drop>(
        alloc: Global,
        layout: Layout,
        first: F,
        known: &D,
    ) -> Result<(Store<D, R, Global>, Vec<Hand<D>>), AllocError>
        requires pages { length (F.contents first) ≤ layout.pages }
        requires rule { R.holds (first_pages (padded layout.pages (F.contents first)) layout.passes known.now) }
        ensures layout { IfOk result (λ t. t.0.layout ≡ layout) }
        ensures hands { IfOk result (λ t. IsDealt t.0.table.shared.table_id layout known.now layout.passes t.1.items) }
        ensures known { IfOk result (λ t. t.0.table.shared.key.known.value ≡ known.now) }
    {
        let mut words = Vec::with_capacity(alloc, layout.cells())?;
        for _ in 0..layout.cells() {
            words.push(0u64)?;
        }
        lay(layout, &first, words.as_mut_slice());
        let room = Room::new(alloc, layout, &first)?;
        // Nobody needs it any more, and the table takes as much memory again.
        drop(first);
        let ground = Ground {
            layout,
            known: Snapshot::of(known),
        };
        let (table, seat) = Table::of_words(alloc, words.as_slice(), &ground)?;
        let store = Store {
            table,
            layout,
            heads: layout.page_cell(0),
            firsts: layout.frame_word_cell(0, 0),
            stamps: layout.process_cell(0),
            apart: [0; APART],
            room,
            behind: [0; APART],
        };
        let hands = store.deal(alloc, seat)?;
        Ok((store, hands))
    }

    // A hand for each number, from the seat that has them all.
    fn deal(&self, alloc: Global, mut seat: Seat<(), View<D>>) -> Result<Vec<Hand<D>>, AllocError>
        requires table { seat.table_id ≡ self.now.table.shared.table_id }
        requires all { seat.me ≡ (share self.now.layout self.now.table.shared.key.known.value 0 self.now.layout.passes, []) }
        ensures { IfOk result (λ v. IsDealt self.now.table.shared.table_id self.now.layout self.now.table.shared.key.known.value self.now.layout.passes
            v.items) }
    {
        let passes = self.layout.passes;
        let mut hands = Vec::with_capacity(alloc, passes as usize)?;
        for number in 1..passes {
            let rest = self.table.shared.split_seat::<Deal>(&mut seat);
            let mine = mem::replace(&mut seat, rest);
            hands.push(Hand::of(mine, number - 1, self.layout))?;
        }
        hands.push(Hand::of(seat, passes - 1, self.layout))?;
        Ok(hands)
    }
}

impl<D> Hand<D> {
    // The hand of a seat, which has that number.
    fn of(seat: Seat<(), View<D>>, number: u32, layout: Layout) -> Hand<D>
        requires { (number ≡ seat.me.0.number) × (number < seat.me.0.layout.passes) × (seat.me.0.sealing ≡ Unsealed) × (seat.me.1 ≡ []) }
        ensures { (result.number ≡ number) × (result.seat ≡ seat) }
    {
        Hand {
            seat,
            number,
            stamp: 0,
            sight: Sight::of(number, layout),
            unswept: 0,
            sweeps: 0,
            apart: [0; APART],
        }
    }
}

// Gives each page that is not all zeros the frame of its own number.
fn lay<F: FirstWords>(layout: Layout, first: &F, words: &mut [u64])
    requires pages { length (F.contents first.now) ≤ layout.pages }
    requires words { words.old ≡ replicate (cell_count layout) 0 }
    ensures { Laid layout (F.contents first.now) words.new (length (F.contents first.now)) }
{
    for page in 0..first.count() as u32 {
        let contents = first.words_of(page);
        if !is_all_zeros(&contents) {
            lay_page(layout, first, page, &contents, words);
        }
    }
}

fn lay_page<F: FirstWords>(
    layout: Layout,
    first: &F,
    page: u32,
    contents: &[u64; 32],
    words: &mut [u64],
)
    requires pages { length (F.contents first.now) ≤ layout.pages }
    requires page { page < length (F.contents first.now) }
    requires contents { (contents.now ≡ slice_index_or (F.contents first.now) page []) × (is_blank contents.now ≡ false) }
    requires laid { Laid layout (F.contents first.now) words.old page }
    ensures { Laid layout (F.contents first.now) words.new (page + 1) }
{
    let _ = first;
    words[layout.frame_owner_cell(page)] = 2;
    for place in 0..32 {
        words[layout.frame_word_cell(page, place)] = contents[place as usize];
    }
    words[layout.page_cell(page)] = page as u64 + 1;
    words[layout.page_owner_cell(page)] = 1;
}
