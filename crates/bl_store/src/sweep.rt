//! Sweeps: pages and frames that no process can read any more are released.
ghost use Rattle.std.specs.Prelude.{◌≡◌, ◌⊎◌, ℕ, ◌+◌, ◌/◌, ◌%◌, ◌^◌, ◌<◌, ◌≤◌, true, false};
ghost use Rattle.bl_layout.specs.Words.{frame_count};
ghost use Rattle.bl_store_rule.specs.Pages.{Releases, ReleasesMany};
ghost use Rattle.bl_store.specs.Hands.{known, IsSameHand, IsSameReading, IsSameStamp, IsSameStock};
ghost use Rattle.bl_store_rule.specs.declared.view.Sweep.TheVariants.{Over};

use crate::store::{Hand, Store};
use bl_room::{OWNERS_A_SWEEP, RING};
use bl_store_rule::plays::{Free, Horizon, Pass, Release};
use bl_store_rule::{PageRule, SweepPlay};
use std::alloc::Allocator;

/// The number that lies so many behind another one, where the last is followed by 0. A remainder takes longer.
#[inline(always)]
fn behind(first: u32, steps: u32, many: u32) -> u32
    requires { (first < many) × (steps ≤ many) × (many ≤ 2 ^ 31) }
    ensures within { result < many }
    ensures place { result ≡ (first + steps) % many }
{
    if first + steps < many {
        first + steps
    } else {
        first + steps - many
    }
}

impl<D, R: PageRule<D>, A: Allocator> Store<D, R, A> {
    ghost use Rattle.bl_store.specs.Owners.{IsHandOf};
    ghost use Rattle.bl_store.specs.Sweeps.{HasSweptOnce};

    /// Releases pages and frames that were retired before each process began that still runs. Returns how many; so the pages
    /// of which the hand is told are no more.
    ///
    /// It looks at 64 owner words, or all where there are fewer, from a page on that the hand has retired itself, or else from where its
    /// last such sweep ended, and then once at each process word, if it found anything retired.
    pub fn sweep<M: SweepPlay<D>>(&self, hand: &mut Hand<D>) -> u32
        requires own { IsHandOf self.now hand.old }
        requires rule { ReleasesMany R.holds self.now.layout hand.old.number (known hand.old.seat) M.then }
        ensures same { IsSameHand hand.old.seat hand.new.seat × IsSameStamp hand.old.seat hand.new.seat × IsSameStock hand.old.seat hand.new.seat }
        ensures observed { (pages : ℕ) × (pages ≤ result) × M.then (known hand.old.seat) pages (known hand.new.seat) }
        ensures count { hand.new.seat.me.0.releases ≡ hand.old.seat.me.0.releases + result }
        ensures swept { HasSweptOnce hand.old hand.new }
    {
        let sweeps = hand.sweeps;
        let released = self.sweep_owners::<M>(hand);
        hand.sweeps = sweeps.saturating_add(1);
        hand.unswept = 0;
        released
    }

    // The same, which the hand does not count.
    fn sweep_owners<M: SweepPlay<D>>(&self, hand: &mut Hand<D>) -> u32
        requires own { IsHandOf self.now hand.old }
        requires rule { ReleasesMany R.holds self.now.layout hand.old.number (known hand.old.seat) M.then }
        ensures same { IsSameHand hand.old.seat hand.new.seat × IsSameStamp hand.old.seat hand.new.seat × IsSameStock hand.old.seat hand.new.seat }
        ensures observed { (pages : ℕ) × (pages ≤ result) × M.then (known hand.old.seat) pages (known hand.new.seat) }
        ensures count { hand.new.seat.me.0.releases ≡ hand.old.seat.me.0.releases + result }
    {
        let owners = self.layout.pages + self.layout.frames();
        let looks = owners.min(OWNERS_A_SWEEP);
        let mine = hand.sight.begin_sweep();
        let first = mine.unwrap_or(self.next_owner(hand)) % owners;
        let mut states = [0u64; OWNERS_A_SWEEP as usize];
        let mut any = false;
        for i in 0..looks {
            let state = self.table.shared.peek(
                self.layout.page_owner_cell(0) + behind(first, i, owners) as usize,
            );
            if state % 4 == 3 {
                states[i as usize] = state;
                any = true;
            }
        }
        hand.sight.go_on_from(mine, behind(first, looks, owners));
        if !any {
            return 0;
        }
        let oldest = self.oldest(hand);
        let mut released = 0;
        for i in 0..looks {
            let state = states[i as usize];
            if state % 4 == 3 && state / 4 < oldest {
                let at = behind(first, i, owners);
                if self.release::<M>(hand, at, state, oldest) {
                    released += 1;
                }
            }
        }
        self.keep_gone(hand, mine);
        released
    }

    // The owner word at which a sweep begins that goes from no page of the hand's own. It passes by those of pages where none is retired.
    fn next_owner(&self, hand: &Hand<D>) -> u32 {
        let owner = hand.sight.owner();
        if self.room.retiring() == 0 {
            owner.max(self.layout.pages)
        } else {
            owner
        }
    }

    // The hand keeps a page in sight, which it has retired, where it is not released yet.
    fn keep_gone(&self, hand: &mut Hand<D>, page: Option<u32>)
        ensures same { hand.new.seat ≡ hand.old.seat }
    {
        let Some(page) = page else {
            return;
        };
        if page >= self.layout.pages {
            return;
        }
        if self.table.shared.peek(self.layout.page_owner_cell(page)) % 4 == 3 {
            hand.sight.note_gone(page);
        }
    }

    // A time at which or after which each process began that still runs.
    fn oldest(&self, hand: &mut Hand<D>) -> u64
        requires own { IsHandOf self.now hand.old }
        ensures same { IsSameHand hand.old.seat hand.new.seat × IsSameStamp hand.old.seat hand.new.seat × IsSameStock hand.old.seat hand.new.seat
            × (known hand.new.seat ≡ known hand.old.seat) × (hand.new.seat.me.0.releases ≡ hand.old.seat.me.0.releases) }
        ensures swept { hand.new.seat.me.0.sweep ≡ Over result self.now.layout.passes }
        ensures reads { IsSameReading hand.old.seat hand.new.seat }
    {
        let mut oldest = self
            .table
            .shared
            .load::<Horizon>(&mut hand.seat, self.layout.clock_cell());
        for pass in 0..self.layout.passes {
            let stamp = self
                .table
                .shared
                .load::<Pass>(&mut hand.seat, self.layout.process_cell(pass));
            if stamp != 0 {
                oldest = oldest.min(stamp - 1);
            }
        }
        oldest
    }

    /// Releases those of the frames in sight that no process can read any more, and keeps the others there.
    #[inline(never)]
    pub fn recycle(&self, hand: &mut Hand<D>)
        requires own { IsHandOf self.now hand.old }
        ensures same { IsSameHand hand.old.seat hand.new.seat × IsSameStamp hand.old.seat hand.new.seat × IsSameStock hand.old.seat hand.new.seat
            × (known hand.new.seat ≡ known hand.old.seat) }
        ensures reads { IsSameReading hand.old.seat hand.new.seat }
    {
        let many = hand.sight.begin_recycling();
        let oldest = self.oldest(hand);
        let total = self.layout.frames();
        let mut kept = 0u32;
        for i in 0..many {
            let frame = hand.sight.retired(i);
            if frame >= total {
                continue;
            }
            let state = self.table.shared.peek(self.layout.frame_owner_cell(frame));
            // A sweep may have released it meanwhile.
            if state % 4 != 3 {
                continue;
            }
            if state / 4 < oldest {
                self.release_frame(hand, frame, state, oldest, RING as u32);
            } else {
                hand.sight.keep_retired(kept, frame);
                kept += 1;
            }
        }
        hand.sight.end_recycling(kept);
    }

    // Releases a frame, where it is still in that state of retirement. The hand keeps it in sight, where it has fewer than so many there.
    fn release_frame(
        &self,
        hand: &mut Hand<D>,
        frame: u32,
        state: u64,
        oldest: u64,
        most: u32,
    ) -> bool
        requires own { IsHandOf self.now hand.old }
        requires frame { frame < frame_count self.now.layout }
        requires state { (state % 4 ≡ 3) × (state / 4 < oldest) }
        requires swept { hand.old.seat.me.0.sweep ≡ Over oldest self.now.layout.passes }
        ensures same { IsSameHand hand.old.seat hand.new.seat × IsSameStamp hand.old.seat hand.new.seat × IsSameStock hand.old.seat hand.new.seat
            × (known hand.new.seat ≡ known hand.old.seat) × (hand.new.seat.me.0.sweep ≡ hand.old.seat.me.0.sweep) }
        ensures kept { (hand.new.sight.retired ≡ hand.old.sight.retired) × (hand.new.sight.waiting ≡ hand.old.sight.waiting) }
        ensures reads { IsSameReading hand.old.seat hand.new.seat }
        ensures yes { result ≡ true → hand.new.seat.me.0.releases ≡ hand.old.seat.me.0.releases + 1 }
        ensures no { result ≡ false → hand.new.seat.me.0.releases ≡ hand.old.seat.me.0.releases }
    {
        let word = self.layout.frame_owner_cell(frame);
        let found = self
            .table
            .shared
            .compare_exchange::<Release>(&mut hand.seat, word, state, 0);
        if found != state {
            return false;
        }
        self.count_released(frame, hand.sight.note_released(frame, most));
        true
    }

    // A frame was released. One that no hand keeps in sight is counted.
    fn count_released(&self, frame: u32, is_in_sight: bool) {
        if !is_in_sight {
            self.room.note_spare(frame);
        }
    }

    // Releases the page or the frame that has the owner word, where it is still in that state of retirement.
    fn release<M: SweepPlay<D>>(&self, hand: &mut Hand<D>, at: u32, state: u64, oldest: u64) -> bool
        requires own { IsHandOf self.now hand.old }
        requires at { at < self.now.layout.pages + frame_count self.now.layout }
        requires state { (state % 4 ≡ 3) × (state / 4 < oldest) }
        requires swept { hand.old.seat.me.0.sweep ≡ Over oldest self.now.layout.passes }
        requires rule { (x time : ℕ) → Releases R.holds self.now.layout hand.old.number (known hand.old.seat) x time (M.then (known hand.old.seat) 1) }
        ensures same { IsSameHand hand.old.seat hand.new.seat × IsSameStamp hand.old.seat hand.new.seat × IsSameStock hand.old.seat hand.new.seat
            × (hand.new.seat.me.0.sweep ≡ hand.old.seat.me.0.sweep) }
        ensures observed { ((result ≡ true) × M.then (known hand.old.seat) 1 (known hand.new.seat)) ⊎ (known hand.new.seat ≡ known hand.old.seat) }
        ensures yes { result ≡ true → hand.new.seat.me.0.releases ≡ hand.old.seat.me.0.releases + 1 }
        ensures no { result ≡ false → hand.new.seat.me.0.releases ≡ hand.old.seat.me.0.releases }
    {
        if at < self.layout.pages {
            let word = self.layout.page_owner_cell(at);
            let found = self
                .table
                .shared
                .compare_exchange::<Free<M>>(&mut hand.seat, word, state, 0);
            if found != state {
                return false;
            }
            self.room.note_released(at);
            return true;
        }
        self.release_frame(
            hand,
            at - self.layout.pages,
            state,
            oldest,
            self.most_in_sight(),
        )
    }

    // How many frames a hand has in sight at most where it takes one there that another hand has retired, as those of a sweep mostly are.
    // Another processor has their words at hand, which costs more than the way to a free frame, but in a large store.
    fn most_in_sight(&self) -> u32 {
        if self.layout.is_large() {
            RING as u32
        } else {
            0
        }
    }
}
