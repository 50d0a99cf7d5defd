//! Latches, and the retirement of a page.
ghost use Rattle.std.specs.Prelude.{◌≡◌, ℕ, ◌<◌, ◌↔◌, List, [], IsTrue};
ghost use Rattle.bl_store_rule.specs.Pages.{Owner, Open, Held, Latches, Misses, Probes, Opens, Retires};
ghost use Rattle.bl_store.specs.Hands.{known, IsOf, IsSameHand, IsSameStamp, IsSameStock, IsSameRefusal, MayRetire};
ghost use Rattle.bl_store_rule.specs.declared.view.Sealing.TheVariants.{Unsealed, Sealed};
ghost use Rattle.bl_store_rule.specs.Frames.{IsLive};

use crate::store::{Hand, Store};
use atomic_table::Seat;
use bl_layout::{held_by, retired_at};
use bl_store_rule::plays::{Aim, Open, Publish, Seal, Try};
use bl_store_rule::{PagePlay, PageRule, TimePlay, View};
use std::alloc::Allocator;
use std::marker::Brand;

impl<D, R: PageRule<D>, A: Allocator> Store<D, R, A> {
    ghost use Rattle.bl_store.specs.Owners.{IsHandOf};

    /// Latches a page, where it is open.
    pub fn try_latch<M: PagePlay<D>>(&self, hand: &mut Hand<D>, page: u32) -> bool
        requires own { IsHandOf self.now hand.old }
        requires page { page < self.now.layout.pages }
        requires latches { Latches R.holds self.now.layout hand.old.number (known hand.old.seat) page M.then }
        requires misses { Misses R.holds self.now.layout hand.old.number (known hand.old.seat) page M.then }
        ensures same { IsSameHand hand.old.seat hand.new.seat × IsSameStamp hand.old.seat hand.new.seat × IsSameStock hand.old.seat hand.new.seat }
        ensures observed { (owner : Owner) × (words : List ℕ) × (IsTrue result ↔ (owner ≡ Owner.Open))
            × M.then (known hand.old.seat) page owner words (known hand.new.seat) }
    {
        let mine = held_by(hand.number);
        let at = self.layout.page_owner_cell(page);
        self.table
            .shared
            .compare_exchange::<Try<M>>(&mut hand.seat, at, 1, mine)
            == 1
    }

    /// Looks whether a page is open.
    #[inline(always)]
    pub fn probe<M: PagePlay<D>>(&self, hand: &mut Hand<D>, page: u32) -> bool
        requires own { IsHandOf self.now hand.old }
        requires page { page < self.now.layout.pages }
        requires rule { Probes R.holds self.now.layout hand.old.number (known hand.old.seat) page M.then }
        ensures same { IsSameHand hand.old.seat hand.new.seat × IsSameStamp hand.old.seat hand.new.seat × IsSameStock hand.old.seat hand.new.seat }
        ensures kept { hand.new.seat.me.0.kept ≡ hand.old.seat.me.0.kept }
        ensures observed { (owner : Owner) × (words : List ℕ) × (IsTrue result ↔ (owner ≡ Owner.Open))
            × M.then (known hand.old.seat) page owner words (known hand.new.seat) }
    {
        let at = self.layout.page_owner_cell(page);
        self.table.shared.load::<Try<M>>(&mut hand.seat, at) == 1
    }

    /// Opens a page that the hand holds.
    pub fn open<M: PagePlay<D>>(&self, hand: &mut Hand<D>, page: u32)
        requires own { IsHandOf self.now hand.old }
        requires page { page < self.now.layout.pages }
        requires rule { Opens R.holds self.now.layout hand.old.number (known hand.old.seat) page M.then }
        ensures same { IsSameHand hand.old.seat hand.new.seat × IsSameStamp hand.old.seat hand.new.seat × IsSameStock hand.old.seat hand.new.seat }
        ensures refusal { IsSameRefusal hand.old.seat hand.new.seat }
        ensures observed { (words : List ℕ) × M.then (known hand.old.seat) page (Held hand.old.number) words (known hand.new.seat) }
    {
        let at = self.layout.page_owner_cell(page);
        self.table.shared.store::<Open<M>>(&mut hand.seat, at, 1);
    }

    /// Retires a page that the hand holds. No process that begins later may come to it.
    pub fn retire<M: TimePlay<D>>(&self, hand: &mut Hand<D>, page: u32)
        requires own { IsHandOf self.now hand.old }
        requires page { page < self.now.layout.pages }
        requires leave { MayRetire hand.old.seat }
        requires rule { Retires R.holds self.now.layout hand.old.number (known hand.old.seat) page M.then }
        ensures same { IsSameHand hand.old.seat hand.new.seat × IsSameStamp hand.old.seat hand.new.seat }
        ensures stock { (hand.new.seat.me.0.stock ≡ hand.old.seat.me.0.stock) × (hand.new.seat.me.0.puts ≡ hand.old.seat.me.0.puts) }
        ensures observed { (time : ℕ) × M.then (known hand.old.seat) time (known hand.new.seat) }
    {
        let time = self.seal::<M, Brand>(&mut hand.seat, page);
        let at = self.layout.page_owner_cell(page);
        self.table
            .shared
            .store::<Publish>(&mut hand.seat, at, retired_at(time));
        self.room.note_retired();
        hand.sight.note_gone(page);
    }

    // The tick by which the page is retired.
    fn seal<M: TimePlay<D>, J: Aim>(&self, seat: &mut Seat<(), View<D>>, page: u32) -> u64
        requires own { IsOf self.now.table.shared.table_id self.now.layout seat.old }
        requires page { (page < self.now.layout.pages) × (page ≡ J.page) }
        requires leave { MayRetire seat.old }
        requires hand { IsLive seat.old.me.0 × (seat.old.me.0.sealing ≡ Unsealed) × (seat.old.me.1 ≡ []) }
        requires rule { Retires R.holds self.now.layout seat.old.me.0.number (known seat.old) page M.then }
        ensures same { IsSameHand seat.old seat.new × IsSameStamp seat.old seat.new }
        ensures stock { (seat.new.me.0.stock ≡ seat.old.me.0.stock) × (seat.new.me.0.puts ≡ seat.old.me.0.puts) }
        ensures sealed { (seat.new.me.0.sealing ≡ Sealed page result) × (result < 2305843009213693952) × (seat.new.me.1 ≡ []) }
        ensures observed { M.then (known seat.old) result (known seat.new) }
    {
        self.table
            .shared
            .fetch_add::<Seal<M, J>>(seat, self.layout.clock_cell(), 1)
    }
}
