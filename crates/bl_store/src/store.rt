//! The store, and the calls that begin and end a process and read pages.
ghost use Rattle.std.specs.Prelude.{◌≡◌, ℕ, ◌+◌, ◌*◌, ◌<◌, List, [], length, slice_index, Some, None, IfSome, IsTrue};
ghost use Rattle.bl_layout.specs.Words.{frame_count};
ghost use Rattle.bl_layout.specs.Cells.{cell_count};
ghost use Rattle.bl_store_rule.specs.Frames.{process_at, page_at, place_at};
ghost use Rattle.bl_store_rule.specs.Pages.{Owner, Begins, Ends, Gets, GetsAs, Relays, Implies};
ghost use Rattle.bl_store.specs.Hands.{known, read_words, IsIdle, IsRunning, IsSameHand, IsSameStamp, IsSameStock, IsSameRefusal, IsSameLook, ReadsFrom, HasSeen, Keeps, KeepsNow};
ghost use Rattle.bl_store_rule.specs.declared.view.Reading.TheVariants.{At};
ghost use Rattle.bl_store_rule.specs.declared.view.Sealing.TheVariants.{Unsealed};

use atomic_table::{Seat, Table};
use bl_layout::{Layout, PROCESS_CELLS};
use bl_room::{Room, Sight};
use bl_store_rule::plays::{
    Clock, Compare, Copy, Enter, Leave, Look, LookKept, Raise, Relay, Renew,
};
use bl_store_rule::{Framed, Ground, KeepPlay, PagePlay, PageRule, TellPlay, TimePlay, View};
use std::alloc::{Allocator, Global};

/// So many words keep what one thread writes out of the cache lines of others: two lines of 64 bytes, since processors fetch lines in
/// pairs.
pub(crate) const APART: usize = 16;

/// One who reads and writes pages. Hands are numbered from 0, and no two of a store share a number.
///
/// Its public fields are for crates that add calls to a store, as `bl_reserve` does: each event of the seat keeps the user's rule, whoever
/// calls for it.
#[derive(Drop)]
pub struct Hand<D> {
    pub seat: Seat<(), View<D>>,
    pub number: u32,
    // The word that it stored last for a process of its own. No proof rests on it.
    pub(crate) stamp: u64,
    /// For all: how many puts there were, and what it keeps in sight. No proof rests on it.
    pub sight: Sight,
    // How many frames it has retired since its last sweep.
    pub(crate) unswept: u32,
    // How many sweeps it has made, as far as the counter goes: a contract tells by it that there was one.
    pub(crate) sweeps: u64,
    // It keeps two hands that stand beside each other apart: each put writes to what is in sight, and each call reads the first fields.
    pub(crate) apart: [u64; APART],
    pub ghost own: { (number ≡ seat.me.0.number) × (number < seat.me.0.layout.passes) × (seat.me.0.sealing ≡ Unsealed) × (seat.me.1 ≡ []) },
}

/// Where the words of a page stand, which a hand has looked at, and how many of them it has read.
#[derive(Clone, Copy)]
pub struct Glance {
    // The cell of the first of them.
    pub(crate) first: usize,
    pub(crate) used: u32,
}

/// Pages that threads share. D is what a hand knows, and R the user's rule. The table and the layout are public for crates that add calls,
/// as `bl_reserve` does.
#[derive(Drop)]
pub struct Store<D, R: PageRule<D>, A: Allocator = Global> {
    pub table: Table<(), View<D>, Ground<D>, Framed<R>, A>,
    pub layout: Layout,
    // The cells of the word of page 0, of the first word of frame 0, and of the process word of hand 0.
    pub(crate) heads: usize,
    pub(crate) firsts: usize,
    pub(crate) stamps: usize,
    // It keeps what each take writes apart from the fields above, which each call reads.
    pub(crate) apart: [u64; APART],
    /// For all: how many pages are free, whether they are scarce, and what a walk over all of them has found. All of it is a hint.
    pub room: Room,
    // And apart from what stands behind the store.
    pub(crate) behind: [u64; APART],
    pub ghost key: { table.shared.key.layout ≡ layout },
    pub ghost heads_at: { heads ≡ page_at layout 0 },
    pub ghost firsts_at: { firsts ≡ place_at layout 0 0 },
    pub ghost stamps_at: { stamps ≡ process_at layout 0 },
    pub ghost wide: { table.shared.table_id.words ≡ cell_count layout },
    pub ghost bare: { table.shared.table_id.slots ≡ 0 },
}

/// Where the words of a page stood when someone peeked at it. Nothing is known of them: they may be those of another page by now.
#[derive(Clone, Copy)]
pub struct Peek {
    // The cell of the first of them.
    pub(crate) first: usize,
}

impl Glance {
    /// How many words were read, by the caller's own count: `word` adds one, and `having` may set it anew.
    #[inline(always)]
    pub fn used(&self) -> u32
        ensures { result ≡ self.now.used }
    {
        self.used
    }

    /// The same look, with another count of words read. A look may be copied, so the count is what the caller says of it: no
    /// clause says that no other word was read.
    #[inline(always)]
    pub fn having(self, used: u32) -> Glance
        ensures same { IsSameLook self result }
        ensures used { result.used ≡ used }
    {
        Glance {
            first: self.first,
            used,
        }
    }
}

impl<D> Hand<D> {
    /// Whether a sweep is worth its time now: some puts have passed since the last one, or the hand has lost sight of frames
    /// that it has retired. It is a hint, and a sweep does its whole work whatever this says.
    pub fn is_due(&self) -> bool {
        self.sight.is_due(self.unswept)
    }

    /// The number of the hand, by which a rule and an owner name it.
    pub fn number(&self) -> u32
        ensures { result ≡ self.now.seat.me.0.number }
    {
        self.number
    }
}

impl<D, R: PageRule<D>, A: Allocator> Store<D, R, A> {
    ghost use Rattle.bl_store.specs.Owners.{IsHandOf, IsPeekIn};

    /// Begins a process of the hand.
    pub fn begin<M: TimePlay<D>>(&self, hand: &mut Hand<D>)
        requires own { IsHandOf self.now hand.old }
        requires idle { IsIdle hand.old.seat }
        requires rule { Begins R.holds self.now.layout hand.old.number (known hand.old.seat) M.then }
        ensures same { IsSameHand hand.old.seat hand.new.seat × IsSameStock hand.old.seat hand.new.seat }
        ensures running { IsRunning hand.new.seat }
        ensures none { hand.new.seat.me.0.refused ≡ None }
        ensures observed { (now : ℕ) × M.then (known hand.old.seat) now (known hand.new.seat) }
    {
        let clock = self
            .table
            .shared
            .load::<Clock>(&mut hand.seat, self.layout.clock_cell());
        let process = self.stamps + PROCESS_CELLS * hand.number as usize;
        hand.stamp = clock + 1;
        self.table
            .shared
            .store::<Enter<M>>(&mut hand.seat, process, clock + 1);
    }

    /// Ends the hand's process, which holds no page.
    pub fn end<M: TimePlay<D>>(&self, hand: &mut Hand<D>)
        requires own { IsHandOf self.now hand.old }
        requires running { IsRunning hand.old.seat }
        requires rule { Ends R.holds self.now.layout hand.old.number (known hand.old.seat) M.then }
        ensures same { IsSameHand hand.old.seat hand.new.seat × IsSameStock hand.old.seat hand.new.seat }
        ensures idle { IsIdle hand.new.seat }
        ensures refusal { IsSameRefusal hand.old.seat hand.new.seat }
        ensures observed { (now : ℕ) × M.then (known hand.old.seat) now (known hand.new.seat) }
    {
        let process = self.stamps + PROCESS_CELLS * hand.number as usize;
        self.table
            .shared
            .store::<Leave<M>>(&mut hand.seat, process, 0);
    }

    /// Ends the hand's process, which holds no page, and begins another: two events at one load of the clock. Its process word is
    /// stored anew only where the clock has moved since, so beside others that only read nothing is stored.
    #[inline(always)]
    pub fn renew<M: TimePlay<D>, N: TimePlay<D>>(&self, hand: &mut Hand<D>)
        requires own { IsHandOf self.now hand.old }
        requires running { IsRunning hand.old.seat }
        requires ends { Ends R.holds self.now.layout hand.old.number (known hand.old.seat) M.then }
        requires begins { (between : D) (now : ℕ) → M.then (known hand.old.seat) now between
            → Begins R.holds self.now.layout hand.old.number between N.then }
        ensures same { IsSameHand hand.old.seat hand.new.seat × IsSameStock hand.old.seat hand.new.seat }
        ensures running { IsRunning hand.new.seat }
        ensures none { hand.new.seat.me.0.refused ≡ None }
        ensures observed { (now : ℕ) × (between : D) × M.then (known hand.old.seat) now between × N.then between now (known hand.new.seat) }
    {
        let clock = self
            .table
            .shared
            .load::<Renew<M, N>>(&mut hand.seat, self.layout.clock_cell());
        if hand.stamp != clock + 1 {
            let process = self.stamps + PROCESS_CELLS * hand.number as usize;
            hand.stamp = clock + 1;
            self.table
                .shared
                .store::<Raise>(&mut hand.seat, process, clock + 1);
        }
    }

    /// The same at one event, for which the time of the first process counts: what was swapped out since that began is not given back. So each
    /// page that the hand keeps in mind was not put since it looked at it, if [`Store::is_kept`] says so.
    #[inline(always)]
    pub fn relay<M: TimePlay<D>>(&self, hand: &mut Hand<D>)
        requires own { IsHandOf self.now hand.old }
        requires running { IsRunning hand.old.seat }
        requires rule { Relays R.holds self.now.layout hand.old.number (known hand.old.seat) M.then }
        ensures same { IsSameHand hand.old.seat hand.new.seat × IsSameStamp hand.old.seat hand.new.seat × IsSameStock hand.old.seat hand.new.seat }
        ensures none { hand.new.seat.me.0.refused ≡ None }
        ensures kept { hand.new.seat.me.0.kept ≡ hand.old.seat.me.0.kept }
        ensures observed { (now : ℕ) × M.then (known hand.old.seat) now (known hand.new.seat) }
    {
        self.table
            .shared
            .load::<Relay<M>>(&mut hand.seat, self.layout.clock_cell());
    }

    /// Looks at a page, as [`Store::glance`] does, and keeps it in mind until the hand's process ends.
    #[inline(always)]
    pub fn glance_keeping<M: KeepPlay<D>>(&self, hand: &mut Hand<D>, page: u32) -> Option<Glance>
        requires own { IsHandOf self.now hand.old }
        requires running { IsRunning hand.old.seat }
        requires page { page < self.now.layout.pages }
        requires rule { GetsAs R.holds self.now.layout hand.old.number (known hand.old.seat) page M.then }
        ensures same { IsSameHand hand.old.seat hand.new.seat × IsSameStamp hand.old.seat hand.new.seat × IsSameStock hand.old.seat hand.new.seat }
        ensures observed { (owner : Owner) × (words : List ℕ) × (version : ℕ) × HasSeen result hand.new.seat words
            × M.then (known hand.old.seat) page version owner words (known hand.new.seat)
            × ((glance : Glance) → result ≡ Some glance → KeepsNow (hand.old.seat) (hand.new.seat) page version glance) }
        ensures unread { (glance : Glance) → result ≡ Some glance → glance.used ≡ 0 }
    {
        let found = self
            .table
            .shared
            .load::<LookKept<M>>(&mut hand.seat, self.heads + page as usize);
        if found == 0 {
            None
        } else {
            let first = self.firsts + 32 * (found - 1) as usize;
            Some(Glance { first, used: 0 })
        }
    }

    /// Whether the page names the frame now that the hand saw at that look, which it keeps in mind: then it was put as often as it was then.
    #[inline(always)]
    pub fn is_kept<M: TellPlay<D>>(&self, hand: &mut Hand<D>, page: u32, glance: Glance) -> bool
        requires own { IsHandOf self.now hand.old }
        requires running { IsRunning hand.old.seat }
        requires page { page < self.now.layout.pages }
        requires rule { (version : ℕ) → Implies R.holds self.now.layout hand.old.number (known hand.old.seat) page version M.tells }
        ensures same { hand.new ≡ hand.old }
        ensures tells { IsTrue result → (version : ℕ) → Keeps hand.old.seat page version glance → M.tells (known hand.old.seat) page version }
    {
        let found = self
            .table
            .shared
            .load::<Compare<M>>(&mut hand.seat, self.heads + page as usize);
        if found == 0 {
            return false;
        }
        let frame = found - 1;
        frame < self.layout.frames() as u64 && self.firsts + 32 * frame as usize == glance.first
    }

    /// Fetches a page ahead of a look at it: its owner's word, its own, and the first of its frame, so that they are near when it comes.
    /// More of the frame would hold up what is done meanwhile. It is no event and tells nothing.
    #[inline(always)]
    pub fn fetch(&self, page: u32) {
        if page >= self.layout.pages {
            return;
        }
        self.table.shared.peek(self.layout.page_owner_cell(page));
        if let Some(peek) = self.peek_page(page) {
            self.peek_word(peek, 0);
        }
    }

    /// Where the words of a page stand now, if it has any. It is no event and tells nothing.
    #[inline(always)]
    pub fn peek_page(&self, page: u32) -> Option<Peek>
        ensures { IfSome result (IsPeekIn self.now) }
    {
        if page >= self.layout.pages {
            return None;
        }
        let found = self.table.shared.peek(self.heads + page as usize);
        let frame = found.wrapping_sub(1);
        if frame < self.layout.frames() as u64 {
            let first = self.firsts + 32 * frame as usize;
            Some(Peek { first })
        } else {
            None
        }
    }

    /// The word that stands at a place there now. It is no event and tells nothing.
    #[inline(always)]
    pub fn peek_word(&self, peek: Peek, place: usize) -> u64
        requires there { IsPeekIn self.now peek }
        requires place { place < 32 }
    {
        self.table.shared.peek(peek.first + place)
    }

    /// A word of a page as it stands now, which is no event and tells nothing: the next one may be of another put. 0 where there is
    /// none such.
    pub fn peek(&self, page: u32, place: usize) -> u64 {
        if place >= 32 {
            return 0;
        }
        match self.peek_page(page) {
            Some(peek) => self.peek_word(peek, place),
            None => 0,
        }
    }

    /// Fetches all of a page ahead of a look at it, and its owner's word. It is no event and tells nothing.
    #[inline(always)]
    pub fn fetch_whole(&self, page: u32) {
        self.fetch(page);
        if let Some(peek) = self.peek_page(page) {
            self.peek_word(peek, 8);
            self.peek_word(peek, 16);
            self.peek_word(peek, 24);
        }
    }

    /// Looks at a page, whose words are from now on those that it had at this one event, until the hand's next look.
    /// There is nothing to see of a page that was never put: its words are zeros.
    #[inline(always)]
    pub fn glance<M: PagePlay<D>>(&self, hand: &mut Hand<D>, page: u32) -> Option<Glance>
        requires own { IsHandOf self.now hand.old }
        requires running { IsRunning hand.old.seat }
        requires page { page < self.now.layout.pages }
        requires rule { Gets R.holds self.now.layout hand.old.number (known hand.old.seat) page M.then }
        ensures same { IsSameHand hand.old.seat hand.new.seat × IsSameStamp hand.old.seat hand.new.seat × IsSameStock hand.old.seat hand.new.seat }
        ensures observed { (owner : Owner) × (words : List ℕ) × HasSeen result hand.new.seat words
            × M.then (known hand.old.seat) page owner words (known hand.new.seat) }
        ensures unread { (glance : Glance) → result ≡ Some glance → glance.used ≡ 0 }
    {
        let found = self
            .table
            .shared
            .load::<Look<M>>(&mut hand.seat, self.heads + page as usize);
        if found == 0 {
            None
        } else {
            let first = self.firsts + 32 * (found - 1) as usize;
            Some(Glance { first, used: 0 })
        }
    }

    /// The word at a place of the page that the hand looked at last. The glance counts it.
    #[inline(always)]
    pub fn word(&self, hand: &mut Hand<D>, glance: &mut Glance, place: usize) -> u64
        requires own { IsHandOf self.now hand.old }
        requires reads { ReadsFrom hand.old.seat glance.old }
        requires place { place < 32 }
        requires room { glance.old.used < 4294967295 }
        ensures same { hand.new ≡ hand.old }
        ensures look { IsSameLook glance.old glance.new }
        ensures counted { glance.new.used ≡ glance.old.used + 1 }
        ensures word { result ≡ slice_index (read_words hand.old.seat) place }
    {
        glance.used += 1;
        self.seen_word(hand, *glance, place)
    }

    /// The same, without a count.
    #[inline(always)]
    pub(crate) fn seen_word(&self, hand: &mut Hand<D>, glance: Glance, place: usize) -> u64
        requires own { IsHandOf self.now hand.old }
        requires reads { ReadsFrom hand.old.seat glance }
        requires place { place < 32 }
        ensures same { hand.new ≡ hand.old }
        ensures word { result ≡ slice_index (read_words hand.old.seat) place }
    {
        self.table
            .shared
            .load::<Copy>(&mut hand.seat, glance.first + place)
    }

    /// The words of a page, which are those that it had at one event. A page that was never put has zeros.
    pub fn get<M: PagePlay<D>>(&self, hand: &mut Hand<D>, page: u32) -> [u64; 32]
        requires own { IsHandOf self.now hand.old }
        requires running { IsRunning hand.old.seat }
        requires page { page < self.now.layout.pages }
        requires rule { Gets R.holds self.now.layout hand.old.number (known hand.old.seat) page M.then }
        ensures same { IsSameHand hand.old.seat hand.new.seat × IsSameStamp hand.old.seat hand.new.seat × IsSameStock hand.old.seat hand.new.seat }
        ensures observed { (owner : Owner) × M.then (known hand.old.seat) page owner result (known hand.new.seat) }
    {
        let mut words = [0u64; 32];
        self.get_into::<M>(hand, page, &mut words);
        words
    }

    /// The same, into a buffer of the caller's.
    pub fn get_into<M: PagePlay<D>>(&self, hand: &mut Hand<D>, page: u32, words: &mut [u64; 32])
        requires own { IsHandOf self.now hand.old }
        requires running { IsRunning hand.old.seat }
        requires page { page < self.now.layout.pages }
        requires rule { Gets R.holds self.now.layout hand.old.number (known hand.old.seat) page M.then }
        ensures same { IsSameHand hand.old.seat hand.new.seat × IsSameStamp hand.old.seat hand.new.seat × IsSameStock hand.old.seat hand.new.seat }
        ensures observed { (owner : Owner) × M.then (known hand.old.seat) page owner words.new (known hand.new.seat) }
    {
        let found = self
            .table
            .shared
            .load::<Look<M>>(&mut hand.seat, self.layout.page_cell(page));
        if found == 0 {
            *words = [0; 32];
        } else {
            self.gather(hand, (found - 1) as u32, words);
        }
    }

    fn gather(&self, hand: &mut Hand<D>, frame: u32, words: &mut [u64; 32])
        requires own { IsHandOf self.now hand.old }
        requires frame { frame < frame_count self.now.layout }
        requires reads { (xs : List ℕ) × (length xs ≡ 32) × (hand.old.seat.me.0.reading ≡ At frame xs) }
        ensures same { (hand.new.seat.table_id ≡ hand.old.seat.table_id) × (hand.new.seat.me ≡ hand.old.seat.me) }
        ensures words { (xs : List ℕ) → length xs ≡ 32 → hand.old.seat.me.0.reading ≡ At frame xs → words.new ≡ xs }
    {
        let first = self.layout.frame_word_cell(frame, 0);
        for i in 0..32 {
            words[i] = self.table.shared.load::<Copy>(&mut hand.seat, first + i);
        }
    }
}
