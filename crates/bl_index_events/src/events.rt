//! The events of a process of which there is no value: the hand's pass knows where it stands.

ghost use Rattle.std.specs.Prelude.{◌≡◌, ◌≤◌, ◌<◌, ◌+◌, ℕ, Bool, true, false, MatchOption, IfNone, IsTrue};
ghost use Rattle.bl_one_moment.specs.Moments.{puts_at};
ghost use Rattle.bl_page.specs.declared.page.Page.{Page};
ghost use Rattle.bl_page.specs.Pairs.{IsChild};
ghost use Rattle.bl_page.specs.Words.{words_of};
ghost use Rattle.bl_proc_steps.specs.declared.acts.Action.TheVariants as act;
ghost use Rattle.bl_proc_steps.specs.declared.acts.Seen.TheVariants as seen;
ghost use Rattle.bl_proc.specs.declared.kinds.Proc.{Proc};
ghost use Rattle.bl_proc.specs.Processes.{next_of};
ghost use Rattle.bl_proc_deterministic.specs.Courses.{GoesOn};
ghost use Rattle.bl_proc_deterministic.specs.Frames.{op_of, work_of};
ghost use Rattle.bl_store.specs.Drafts.{IsSplice};
ghost use Rattle.bl_store.specs.Hands.{known, read_words, IsSameHand, IsSameStamp, IsSameStock, HasNoStock, IsStockOf, ReadsFrom, WasRefused, IsSameRefusal, Keeps, KeepsNow};
ghost use Rattle.bl_index_rule.specs.declared.known.PassState.{PassState as Knows};
ghost use Rattle.bl_index_rule.specs.Observed.{Goes, HasFirmTrail, HasLeftTop, HasLeftWalk, is_unput as unput_since};
ghost use Rattle.bl_proc_invariant.specs.Walks.{LeavesWalk, at_summit};
ghost use Rattle.bl_proc_steps.specs.declared.lowering.Summit.{Summit as SummitIs};
ghost use Rattle.bl_index_events.specs.Held.{KeepsLatch};
ghost use Rattle.bl_index_events.specs.Runs.{Runs, KeepsHand, Rests, IsSince, IsDone, EndsAs};

use crate::tree::Tree;
use bl_index_rule::{
    Ended, Got, GotKept, LeftTop, LeftWalk, Opened, PassState, Probed, Put, Refused, Took, Tried,
    Unput,
};
use bl_reserve::{finds_frames, reserve};
use bl_store::{Glance, Hand, Splice, Stock};
use std::thread;

/// How often a process lets others run at most where it finds too few frames. It is not often: on a crowded machine each time costs a slice of each
/// other thread, and those that wait for the page that this one holds are in the middle of a process too, so they hold frames back as long as it waits.
const YIELDS: u32 = 16;

impl Tree {
    /// The process gets the page.
    #[inline(always)]
    pub fn look(&self, hand: &mut Hand<PassState>, page: u32) -> Glance
        requires runs { Runs self.now hand.old (known hand.old.seat).state }
        requires next { next_of (known hand.old.seat).state ≡ act.Get page }
        requires course { (c : Page) → GoesOn (known hand.old.seat).state (seen.Words c) }
        ensures same { KeepsHand hand.old.seat hand.new.seat }
        ensures reads { ReadsFrom hand.new.seat result }
        ensures goes { (c : Page) × (read_words hand.new.seat ≡ words_of c) × Goes (seen.Words c) (known hand.old.seat) (known hand.new.seat) }
    {
        match self.store.glance::<Got>(hand, page) {
            Some(glance) => glance,
            None => unreachable!(),
        }
    }

    /// The process gets the page, and keeps it in mind: see [`Tree::is_unput`].
    #[inline(always)]
    pub fn look_keeping(&self, hand: &mut Hand<PassState>, page: u32) -> Glance
        requires runs { Runs self.now hand.old (known hand.old.seat).state }
        requires next { next_of (known hand.old.seat).state ≡ act.Get page }
        requires course { (c : Page) → GoesOn (known hand.old.seat).state (seen.Words c) }
        ensures same { KeepsHand hand.old.seat hand.new.seat }
        ensures reads { ReadsFrom hand.new.seat result }
        ensures goes { (c : Page) × (read_words hand.new.seat ≡ words_of c) × Goes (seen.Words c) (known hand.old.seat) (known hand.new.seat) }
        ensures keeps { KeepsNow hand.old.seat hand.new.seat page (puts_at page (known hand.new.seat).trail) result }
        ensures firm { HasFirmTrail (known hand.new.seat) }
    {
        match self.store.glance_keeping::<GotKept>(hand, page) {
            Some(glance) => glance,
            None => unreachable!(),
        }
    }

    /// Whether nobody has put the page since the process kept that look at it in mind. It is no event.
    #[inline(always)]
    pub fn is_unput(&self, hand: &mut Hand<PassState>, page: u32, glance: Glance) -> bool
        requires runs { Runs self.now hand.old (known hand.old.seat).state }
        requires page { page < self.now.store.layout.pages }
        ensures same { hand.new ≡ hand.old }
        ensures unput { IsTrue result → (version : ℕ) → Keeps hand.old.seat page version glance → unput_since (known hand.old.seat) page version }
    {
        self.store.is_kept::<Unput>(hand, page, glance)
    }

    /// The process tries to latch the page.
    #[inline(always)]
    pub fn try_latch(&self, hand: &mut Hand<PassState>, page: u32) -> bool
        requires runs { Runs self.now hand.old (known hand.old.seat).state }
        requires next { next_of (known hand.old.seat).state ≡ act.Latch page }
        requires course { GoesOn (known hand.old.seat).state seen.Done × GoesOn (known hand.old.seat).state seen.Missed }
        ensures same { KeepsHand hand.old.seat hand.new.seat }
        ensures done { result ≡ true → Goes seen.Done (known hand.old.seat) (known hand.new.seat) }
        ensures missed { result ≡ false → Goes seen.Missed (known hand.old.seat) (known hand.new.seat) }
    {
        self.store.try_latch::<Tried>(hand, page)
    }

    /// The process looks whether the page is open.
    #[inline(always)]
    pub fn is_open(&self, hand: &mut Hand<PassState>, page: u32) -> bool
        requires runs { Runs self.now hand.old (known hand.old.seat).state }
        requires page { page < self.now.store.layout.pages }
        requires next { next_of (known hand.old.seat).state ≡ act.Probe page }
        requires course { (free : Bool) → GoesOn (known hand.old.seat).state (seen.Probed free) }
        ensures same { KeepsHand hand.old.seat hand.new.seat }
        ensures kept { hand.new.seat.me.0.kept ≡ hand.old.seat.me.0.kept }
        ensures goes { Goes (seen.Probed result) (known hand.old.seat) (known hand.new.seat) }
    {
        self.store.probe::<Probed>(hand, page)
    }

    /// The process opens the page.
    #[inline(always)]
    pub fn reopen(&self, hand: &mut Hand<PassState>, page: u32)
        requires runs { Runs self.now hand.old (known hand.old.seat).state }
        requires next { next_of (known hand.old.seat).state ≡ act.Open page }
        requires course { GoesOn (known hand.old.seat).state seen.Done }
        ensures same { KeepsHand hand.old.seat hand.new.seat }
        ensures goes { Goes seen.Done (known hand.old.seat) (known hand.new.seat) }
        ensures refusal { IsSameRefusal hand.old.seat hand.new.seat }
    {
        self.store.open::<Opened>(hand, page);
    }

    /// A post on its walk from the page to the child gives that up, and opens the page: it goes on as one that was about to open it, and
    /// begins its way again. So a post that may not wait need not hold its parent however long the walk is.
    #[inline(always)]
    pub fn leave_walk(&self, hand: &mut Hand<PassState>, page: u32)
        requires runs { Runs self.now hand.old (known hand.old.seat).state }
        requires page { page < self.now.store.layout.pages }
        requires walks { (off : Proc) × LeavesWalk (known hand.old.seat).state off page }
        ensures same { KeepsHand hand.old.seat hand.new.seat }
        ensures off { HasLeftWalk (known hand.old.seat) page (known hand.new.seat) }
        ensures refusal { IsSameRefusal hand.old.seat hand.new.seat }
    {
        self.store.open::<LeftWalk>(hand, page);
    }

    /// A lowering that holds the anchor, and is to latch the top page, opens the anchor and looks again: so one that may not wait need not hold
    /// it as long as that page is another's.
    #[inline(always)]
    pub fn leave_top(&self, hand: &mut Hand<PassState>)
        requires runs { Runs self.now hand.old (known hand.old.seat).state }
        requires top { (t : SummitIs) × ((known hand.old.seat).state ≡ at_summit t) }
        ensures same { KeepsHand hand.old.seat hand.new.seat }
        ensures left { HasLeftTop (known hand.old.seat) (known hand.new.seat) }
        ensures refusal { IsSameRefusal hand.old.seat hand.new.seat }
    {
        self.store.open::<LeftTop>(hand, 0);
    }

    /// Lets other threads run while a reservation would find too few frames, so often at most: those that hold frames back may be in the
    /// middle of a process, and this one may have lost its processor since it looked for frames before it began. It holds others back
    /// itself meanwhile, so it may not be for long. Who may wait calls it before a process changes the page that it holds; nothing else here
    /// waits.
    #[inline(always)]
    pub fn await_frames(&self, hand: &Hand<PassState>) {
        if !finds_frames(&self.store, hand) {
            self.let_others_run(hand);
        }
    }

    /// Others may have frames to release: they get the processor some times, until there are enough.
    #[inline(never)]
    fn let_others_run(&self, hand: &Hand<PassState>) {
        for _ in 0..YIELDS {
            if finds_frames(&self.store, hand) {
                return;
            }
            thread::yield_now();
        }
    }

    /// The process reserves a frame and puts the page with these words, or is refused.
    #[inline(always)]
    pub fn replace(&self, hand: &mut Hand<PassState>, page: u32, words: &[u64; 32]) -> bool
        requires runs { Runs self.now hand.old (known hand.old.seat).state }
        requires next { (c : Page) × (next_of (known hand.old.seat).state ≡ act.Put page c) × (words.now ≡ words_of c) }
        requires course { GoesOn (known hand.old.seat).state seen.Done × GoesOn (known hand.old.seat).state seen.Refused }
        requires empty { HasNoStock hand.old.seat }
        ensures same { IsSameHand hand.old.seat hand.new.seat × IsSameStamp hand.old.seat hand.new.seat }
        ensures empty { HasNoStock hand.new.seat }
        ensures done { result ≡ true → Goes seen.Done (known hand.old.seat) (known hand.new.seat) }
        ensures refused { result ≡ false → Goes seen.Refused (known hand.old.seat) (known hand.new.seat) }
        ensures asked { result ≡ false → WasRefused hand.new.seat 0 1 }
    {
        match reserve::<_, _, _, Took, Refused>(&self.store, hand, 0, 1) {
            Ok(stock) => {
                let mut stock = stock;
                self.store.put::<Put>(hand, page, words, &mut stock);
                true
            }
            Err(_) => false,
        }
    }

    /// The process reserves a frame and puts the page, whose words are those that it looked at last, changed so, or is refused.
    #[inline(always)]
    pub fn replace_splice(
        &self,
        hand: &mut Hand<PassState>,
        page: u32,
        glance: Glance,
        change: Splice,
    ) -> bool
        requires runs { Runs self.now hand.old (known hand.old.seat).state }
        requires reads { ReadsFrom hand.old.seat glance }
        requires at { (0 < change.at) × (change.at ≤ 30) }
        requires next { (c : Page) × (next_of (known hand.old.seat).state ≡ act.Put page c) × IsSplice change (read_words hand.old.seat) (words_of c) }
        requires course { GoesOn (known hand.old.seat).state seen.Done × GoesOn (known hand.old.seat).state seen.Refused }
        requires empty { HasNoStock hand.old.seat }
        ensures same { IsSameHand hand.old.seat hand.new.seat × IsSameStamp hand.old.seat hand.new.seat }
        ensures empty { HasNoStock hand.new.seat }
        ensures done { result ≡ true → Goes seen.Done (known hand.old.seat) (known hand.new.seat) }
        ensures refused { result ≡ false → Goes seen.Refused (known hand.old.seat) (known hand.new.seat) }
        ensures asked { result ≡ false → WasRefused hand.new.seat 0 1 }
    {
        match reserve::<_, _, _, Took, Refused>(&self.store, hand, 0, 1) {
            Ok(stock) => {
                let mut stock = stock;
                self.store
                    .put_splice::<Put>(hand, page, glance, change, &mut stock);
                true
            }
            Err(_) => false,
        }
    }

    /// The process reserves a page and two frames, and takes the page, or is refused.
    pub fn take_page(&self, hand: &mut Hand<PassState>) -> Option<(u32, Stock)>
        requires runs { Runs self.now hand.old (known hand.old.seat).state }
        requires next { next_of (known hand.old.seat).state ≡ act.Take }
        requires course { ((y : ℕ) → IsChild y → GoesOn (known hand.old.seat).state (seen.Took y)) × GoesOn (known hand.old.seat).state seen.Refused }
        requires empty { HasNoStock hand.old.seat }
        ensures same { IsSameHand hand.old.seat hand.new.seat × IsSameStamp hand.old.seat hand.new.seat }
        ensures took { MatchOption result (HasNoStock hand.new.seat × Goes seen.Refused (known hand.old.seat) (known hand.new.seat)) (λ t. IsChild t.0
            × IsStockOf hand.new.seat t.1 × (t.1.count ≡ 2) × Goes (seen.Took t.0) (known hand.old.seat) (known hand.new.seat)) }
        ensures asked { IfNone result (WasRefused hand.new.seat 1 2) }
    {
        match reserve::<_, _, _, Took, Refused>(&self.store, hand, 1, 2) {
            Ok(stock) => match stock.page() {
                Some(page) => Some((page, stock)),
                None => unreachable!(),
            },
            Err(_) => None,
        }
    }

    /// The process puts the page with these words, in a frame that it has reserved.
    pub fn put_reserved(
        &self,
        hand: &mut Hand<PassState>,
        page: u32,
        words: &[u64; 32],
        stock: &mut Stock,
    )
        requires runs { Runs self.now hand.old (known hand.old.seat).state }
        requires next { (c : Page) × (next_of (known hand.old.seat).state ≡ act.Put page c) × (words.now ≡ words_of c) }
        requires course { GoesOn (known hand.old.seat).state seen.Done }
        requires stock { IsStockOf hand.old.seat stock.old × (0 < stock.old.count) }
        ensures same { IsSameHand hand.old.seat hand.new.seat × IsSameStamp hand.old.seat hand.new.seat }
        ensures stock { IsStockOf hand.new.seat stock.new × (stock.new.count + 1 ≡ stock.old.count) }
        ensures goes { Goes seen.Done (known hand.old.seat) (known hand.new.seat) }
    {
        self.store.put::<Put>(hand, page, words, stock);
    }

    /// The process, which is to end, ends.
    #[inline(always)]
    pub fn conclude(&self, hand: &mut Hand<PassState>)
        requires runs { Runs self.now hand.old (known hand.old.seat).state }
        requires ends { (last : Proc) × EndsAs (known hand.old.seat).state last }
        ensures same { IsSameHand hand.old.seat hand.new.seat × IsSameStock hand.old.seat hand.new.seat }
        ensures rests { Rests hand.new.seat }
        ensures done { (pass : ℕ) (old : Knows) (first last : Proc) → IsSince pass old (known hand.old.seat) → EndsAs (known hand.old.seat).state last
            → op_of (known hand.old.seat).state ≡ op_of first → work_of (known hand.old.seat).state ≡ work_of first
            → IsDone pass old (known hand.new.seat) first last }
        ensures refusal { IsSameRefusal hand.old.seat hand.new.seat }
        ensures keeps { KeepsLatch (known hand.old.seat) (known hand.new.seat) }
    {
        self.store.end::<Ended>(hand);
    }
}
