//! Puts.
ghost use Rattle.std.specs.Prelude.{◌≡◌, ℕ, ◌+◌, ◌*◌, ◌-◌, ◌<◌, ◌≤◌, List, [], ◌∷◌, slice_index};
ghost use Rattle.bl_layout.specs.Words.{frame_count};
ghost use Rattle.bl_store.specs.Drafts.{draft_words, other_drafts, HasDraft, IsSplice};
ghost use Rattle.bl_store_rule.specs.Frames.{place_at};
ghost use Rattle.bl_store_rule.specs.Pages.{Held, Puts};
ghost use Rattle.bl_store.specs.Hands.{known, read_words, IsSameHand, IsSameReading, IsSameStamp, IsQuiet, IsStockOf, HasRetired, ReadsFrom};
ghost use Rattle.bl_store_rule.specs.Observed.{draft};
ghost use Rattle.bl_store_rule.specs.declared.view.Draft.{Draft};
ghost use Rattle.bl_store_rule.specs.declared.view.Dropping.TheVariants.{Dropped};

use crate::stock::Stock;
use crate::store::{Glance, Hand, Store};
use bl_layout::retired_at;
use bl_store_rule::plays::{Confirm, Settle, Swap, Tick, Write};
use bl_store_rule::{PagePlay, PageRule};
use std::alloc::Allocator;

/// How the words of a page are to change: the first one becomes `head`, and two words enter at word `at`. Those from there on
/// move up by two, and the last two are lost.
#[derive(Clone, Copy)]
pub struct Splice {
    pub head: u64,
    /// 1 to 30.
    pub at: usize,
    pub words: [u64; 2],
}

impl<D, R: PageRule<D>, A: Allocator> Store<D, R, A> {
    ghost use Rattle.bl_store.specs.Owners.{IsHandOf};

    /// Gives a page that the hand holds its words, at one event. It takes a frame of the stock, and the frame that the
    /// page had is retired.
    pub fn put<M: PagePlay<D>>(
        &self,
        hand: &mut Hand<D>,
        page: u32,
        words: &[u64; 32],
        stock: &mut Stock,
    )
        requires own { IsHandOf self.now hand.old }
        requires page { page < self.now.layout.pages }
        requires stock { IsStockOf hand.old.seat stock.old × (0 < stock.old.count) }
        requires rule { Puts R.holds self.now.layout hand.old.number (known hand.old.seat) page words.now M.then }
        ensures same { IsSameHand hand.old.seat hand.new.seat × IsSameStamp hand.old.seat hand.new.seat
            × (hand.new.seat.me.0.retires ≡ hand.old.seat.me.0.retires) }
        ensures stock { IsStockOf hand.new.seat stock.new × (stock.new.count + 1 ≡ stock.old.count) × (stock.new.page ≡ stock.old.page) }
        ensures observed { (old : List ℕ) × M.then (known hand.old.seat) page (Held hand.old.number) old (known hand.new.seat) }
        ensures retired { HasRetired hand.new.seat }
    {
        stock.count -= 1;
        let frame = stock.frames[stock.count as usize];
        self.write(hand, frame, words);
        self.name_frame::<M>(hand, page, frame);
    }

    /// The same, with the words of the page that the hand looked at last, changed so. They are written from frame to frame.
    #[inline(always)]
    pub fn put_splice<M: PagePlay<D>>(
        &self,
        hand: &mut Hand<D>,
        page: u32,
        glance: Glance,
        change: Splice,
        stock: &mut Stock,
    )
        requires own { IsHandOf self.now hand.old }
        requires page { page < self.now.layout.pages }
        requires reads { ReadsFrom hand.old.seat glance }
        requires at { (0 < change.at) × (change.at ≤ 30) }
        requires stock { IsStockOf hand.old.seat stock.old × (0 < stock.old.count) }
        requires rule { (words : List ℕ) × IsSplice change (read_words hand.old.seat) words
            × Puts R.holds self.now.layout hand.old.number (known hand.old.seat) page words M.then }
        ensures same { IsSameHand hand.old.seat hand.new.seat × IsSameStamp hand.old.seat hand.new.seat
            × (hand.new.seat.me.0.retires ≡ hand.old.seat.me.0.retires) }
        ensures stock { IsStockOf hand.new.seat stock.new × (stock.new.count + 1 ≡ stock.old.count) × (stock.new.page ≡ stock.old.page) }
        ensures observed { (old : List ℕ) × M.then (known hand.old.seat) page (Held hand.old.number) old (known hand.new.seat) }
        ensures retired { HasRetired hand.new.seat }
    {
        stock.count -= 1;
        let frame = stock.frames[stock.count as usize];
        self.write_splice(hand, frame, glance, change);
        self.name_frame::<M>(hand, page, frame);
    }

    // The page gets the frame that was written last, at one event, and the frame that it had is retired.
    fn name_frame<M: PagePlay<D>>(&self, hand: &mut Hand<D>, page: u32, frame: u32)
        requires own { IsHandOf self.now hand.old }
        requires page { page < self.now.layout.pages }
        requires frame { frame < frame_count self.now.layout }
        requires ticks { 0 < hand.old.seat.me.0.puts }
        requires draft { HasDraft hand.old.seat frame 32 }
        requires rule { Puts R.holds self.now.layout hand.old.number (known hand.old.seat) page (draft_words hand.old.seat) M.then }
        ensures same { IsSameHand hand.old.seat hand.new.seat × IsSameStamp hand.old.seat hand.new.seat
            × (hand.new.seat.me.0.retires ≡ hand.old.seat.me.0.retires) }
        ensures stock { (hand.new.seat.me.0.stock ≡ other_drafts hand.old.seat) × (hand.old.seat.me.0.puts ≤ hand.new.seat.me.0.puts + 1) }
        ensures observed { (old : List ℕ) × M.then (known hand.old.seat) page (Held hand.old.number) old (known hand.new.seat) }
        ensures retired { HasRetired hand.new.seat }
    {
        let before = self.table.shared.swap::<Swap<M>>(
            &mut hand.seat,
            self.layout.page_cell(page),
            frame as u64 + 1,
        );
        if before != 0 {
            self.retire_frame(hand, (before - 1) as u32);
        }
    }

    // Writes the words into the frame that was reserved last, of which those behind the pairs are zeros.
    fn write(&self, hand: &mut Hand<D>, frame: u32, words: &[u64; 32])
        requires own { IsHandOf self.now hand.old }
        requires frame { frame < frame_count self.now.layout }
        requires stock { (ds : List Draft) × (hand.old.seat.me.0.stock ≡ draft frame [] ∷ ds) }
        ensures same { IsQuiet hand.old.seat hand.new.seat }
        ensures stock { (ds : List Draft) → hand.old.seat.me.0.stock ≡ draft frame [] ∷ ds → hand.new.seat.me.0.stock ≡ draft frame words.now ∷ ds }
    {
        let first = self.layout.frame_word_cell(frame, 0);
        for pair in 0..16 {
            let at = 2 * pair;
            self.write_sparse(hand, frame, first, at, words[at]);
            self.write_sparse(hand, frame, first, at + 1, words[at + 1]);
        }
    }

    // The next word of the frame that was reserved last, which has so many. The first one stands
    // there in the table.
    #[inline(always)]
    fn write_next(&self, hand: &mut Hand<D>, frame: u32, first: usize, at: usize, word: u64)
        requires own { IsHandOf self.now hand.old }
        requires frame { (frame < frame_count self.now.layout) × (first ≡ place_at self.now.layout frame 0) }
        requires draft { (at < 32) × HasDraft hand.old.seat frame at }
        ensures same { IsQuiet hand.old.seat hand.new.seat × IsSameReading hand.old.seat hand.new.seat }
        ensures draft { HasDraft hand.new.seat frame (at + 1) × (other_drafts hand.new.seat ≡ other_drafts hand.old.seat) }
        ensures kept { (k : ℕ) → k < at → slice_index (draft_words hand.new.seat) k ≡ slice_index (draft_words hand.old.seat) k }
        ensures there { slice_index (draft_words hand.new.seat) at ≡ word }
    {
        self.table
            .shared
            .store::<Write>(&mut hand.seat, first + at, word);
    }

    // The next word of the frame that was reserved last is 0, as it mostly stands there already: what is written takes as long as
    // some ten loads.
    #[inline(always)]
    fn write_blank(&self, hand: &mut Hand<D>, frame: u32, first: usize, at: usize)
        requires own { IsHandOf self.now hand.old }
        requires frame { (frame < frame_count self.now.layout) × (first ≡ place_at self.now.layout frame 0) }
        requires draft { (at < 32) × HasDraft hand.old.seat frame at }
        ensures same { IsQuiet hand.old.seat hand.new.seat × IsSameReading hand.old.seat hand.new.seat }
        ensures draft { HasDraft hand.new.seat frame (at + 1) × (other_drafts hand.new.seat ≡ other_drafts hand.old.seat) }
        ensures kept { (k : ℕ) → k < at → slice_index (draft_words hand.new.seat) k ≡ slice_index (draft_words hand.old.seat) k }
        ensures there { slice_index (draft_words hand.new.seat) at ≡ 0 }
    {
        if self
            .table
            .shared
            .load::<Confirm>(&mut hand.seat, first + at)
            != 0
        {
            self.write_next(hand, frame, first, at, 0);
        }
    }

    // The next word of the frame that was reserved last, which is 0 mostly.
    #[inline(always)]
    fn write_sparse(&self, hand: &mut Hand<D>, frame: u32, first: usize, at: usize, word: u64)
        requires own { IsHandOf self.now hand.old }
        requires frame { (frame < frame_count self.now.layout) × (first ≡ place_at self.now.layout frame 0) }
        requires draft { (at < 32) × HasDraft hand.old.seat frame at }
        ensures same { IsQuiet hand.old.seat hand.new.seat × IsSameReading hand.old.seat hand.new.seat }
        ensures draft { HasDraft hand.new.seat frame (at + 1) × (other_drafts hand.new.seat ≡ other_drafts hand.old.seat) }
        ensures kept { (k : ℕ) → k < at → slice_index (draft_words hand.new.seat) k ≡ slice_index (draft_words hand.old.seat) k }
        ensures there { slice_index (draft_words hand.new.seat) at ≡ word }
    {
        if word == 0 {
            self.write_blank(hand, frame, first, at);
        } else {
            self.write_next(hand, frame, first, at, word);
        }
    }

    // The next words of the frame that was reserved last, up to word `to`, are those at the same place of the page that the hand
    // looked at last. Two words a round take less time than one.
    #[inline(always)]
    fn carry(
        &self,
        hand: &mut Hand<D>,
        frame: u32,
        first: usize,
        glance: Glance,
        from: usize,
        to: usize,
    )
        requires own { IsHandOf self.now hand.old }
        requires frame { (frame < frame_count self.now.layout) × (first ≡ place_at self.now.layout frame 0) }
        requires reads { ReadsFrom hand.old.seat glance }
        requires range { (from ≤ to) × (to ≤ 32) }
        requires draft { HasDraft hand.old.seat frame from }
        ensures same { IsQuiet hand.old.seat hand.new.seat × IsSameReading hand.old.seat hand.new.seat }
        ensures draft { HasDraft hand.new.seat frame to × (other_drafts hand.new.seat ≡ other_drafts hand.old.seat) }
        ensures kept { (k : ℕ) → k < from → slice_index (draft_words hand.new.seat) k ≡ slice_index (draft_words hand.old.seat) k }
        ensures carried { (k : ℕ) → from ≤ k → k < to
            → slice_index (draft_words hand.new.seat) k ≡ slice_index (read_words hand.old.seat) k }
    {
        let pairs = (to - from) / 2;
        for pair in 0..pairs {
            let one = self.seen_word(hand, glance, from + 2 * pair);
            let two = self.seen_word(hand, glance, from + 2 * pair + 1);
            self.write_next(hand, frame, first, from + 2 * pair, one);
            self.write_next(hand, frame, first, from + 2 * pair + 1, two);
        }
        if (to - from) % 2 == 1 {
            let last = self.seen_word(hand, glance, to - 1);
            self.write_next(hand, frame, first, to - 1, last);
        }
    }

    // The same from its word `source` on, of words that are 0 mostly, one by one up to the last word of the frame.
    #[inline(always)]
    fn carry_rest(
        &self,
        hand: &mut Hand<D>,
        frame: u32,
        first: usize,
        glance: Glance,
        from: usize,
        source: usize,
    )
        requires own { IsHandOf self.now hand.old }
        requires frame { (frame < frame_count self.now.layout) × (first ≡ place_at self.now.layout frame 0) }
        requires reads { ReadsFrom hand.old.seat glance }
        requires range { (from ≤ 32) × (source ≤ from) }
        requires draft { HasDraft hand.old.seat frame from }
        ensures same { IsQuiet hand.old.seat hand.new.seat × IsSameReading hand.old.seat hand.new.seat }
        ensures draft { HasDraft hand.new.seat frame 32 × (other_drafts hand.new.seat ≡ other_drafts hand.old.seat) }
        ensures kept { (k : ℕ) → k < from → slice_index (draft_words hand.new.seat) k ≡ slice_index (draft_words hand.old.seat) k }
        ensures carried { (k : ℕ) → from ≤ k → k < 32 → slice_index (draft_words hand.new.seat) k ≡ slice_index (read_words hand.old.seat) (k - from + source) }
    {
        for at in from..32 {
            let word = self.seen_word(hand, glance, at - from + source);
            self.write_sparse(hand, frame, first, at, word);
        }
    }

    // Writes the words of the page that the hand looked at last, changed so, into the frame that was reserved last.
    #[inline(always)]
    fn write_splice(&self, hand: &mut Hand<D>, frame: u32, glance: Glance, change: Splice)
        requires own { IsHandOf self.now hand.old }
        requires frame { frame < frame_count self.now.layout }
        requires reads { ReadsFrom hand.old.seat glance }
        requires at { (0 < change.at) × (change.at ≤ 30) }
        requires draft { HasDraft hand.old.seat frame 0 }
        ensures same { IsQuiet hand.old.seat hand.new.seat }
        ensures draft { HasDraft hand.new.seat frame 32 × (other_drafts hand.new.seat ≡ other_drafts hand.old.seat) }
        ensures words { IsSplice change (read_words hand.old.seat) (draft_words hand.new.seat) }
    {
        let at = change.at;
        let first = self.layout.frame_word_cell(frame, 0);
        self.write_next(hand, frame, first, 0, change.head);
        self.carry(hand, frame, first, glance, 1, at);
        self.write_next(hand, frame, first, at, change.words[0]);
        self.write_next(hand, frame, first, at + 1, change.words[1]);
        self.carry_rest(hand, frame, first, glance, at + 2, at);
    }

    // The frame that the hand took from a page is retired, at a time that no other has.
    fn retire_frame(&self, hand: &mut Hand<D>, frame: u32)
        requires own { IsHandOf self.now hand.old }
        requires frame { (frame < frame_count self.now.layout) × (hand.old.seat.me.0.dropping ≡ Dropped frame) }
        requires ticks { 0 < hand.old.seat.me.0.puts }
        ensures same { IsSameHand hand.old.seat hand.new.seat × IsSameStamp hand.old.seat hand.new.seat × (known hand.new.seat ≡ known hand.old.seat) }
        ensures stock { (hand.new.seat.me.0.stock ≡ hand.old.seat.me.0.stock) × (hand.new.seat.me.0.puts + 1 ≡ hand.old.seat.me.0.puts)
            × (hand.new.seat.me.0.retires ≡ hand.old.seat.me.0.retires) }
        ensures retired { HasRetired hand.new.seat }
    {
        let time = self
            .table
            .shared
            .fetch_add::<Tick>(&mut hand.seat, self.layout.clock_cell(), 1);
        let at = self.layout.frame_owner_cell(frame);
        self.table
            .shared
            .store::<Settle>(&mut hand.seat, at, retired_at(time));
        hand.unswept = hand.unswept.saturating_add(1);
        hand.sight.note_retired(frame, hand.unswept, self.layout);
    }
}
