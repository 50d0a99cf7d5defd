//! A process is carried out over the store, one event at a time.

ghost use Rattle.std.specs.Prelude.{◌≡◌, ◌<◌, None};
ghost use Rattle.bl_proc_steps.specs.declared.acts.Action.TheVariants as act;
ghost use Rattle.bl_proc_steps.specs.declared.acts.Seen.TheVariants as seen;
ghost use Rattle.bl_page.specs.declared.page.Page.{Page as PageIs};
ghost use Rattle.bl_page.specs.Machine.Act.{Get};
ghost use Rattle.bl_proc.specs.Processes.{next_of};
ghost use Rattle.bl_proc_deterministic.specs.Courses.{GoesOn};
ghost use Rattle.bl_proc_invariant.specs.Knowing.{end_of_proc};
ghost use Rattle.bl_proc_invariant.specs.Logs.{proc_log};
ghost use Rattle.bl_proc_bounds.specs.Latches.{IsTidy};
ghost use Rattle.bl_claims.specs.Trails.{marks_of};
ghost use Rattle.bl_claims.specs.Seeing.{name};
ghost use Rattle.bl_store.specs.Hands.{known, IsIdle, IsRunning, IsSameHand, IsSameStock, IsSameRefusal};
ghost use Rattle.bl_store.specs.Owners.{IsHandOf};
ghost use Rattle.bl_index_rule.specs.Observed.{Begins, Steps, Finishes, IsUnborn, Leaves, MayGiveUp};
ghost use Rattle.bl_index_events.specs.Runs.{Runs, KeepsHand, IsSince, IsWithin, Moves};

use crate::frame_view::FrameView;
use crate::kinds::Kind;
use crate::tree::Tree;
use bl_index_rule::{Began, Ended, GaveUp, Got, Launch, PassState};
use bl_proc::Seen;
use bl_store::Hand;
use std::marker::Brand;

impl Tree {
    /// The process begins that the bound names beside its pass. The proof of the call says which that is, by what `named` holds.
    #[inline(always)]
    pub fn begin_as<J: Launch, T>(&self, hand: &mut Hand<PassState>, named: &T)
        requires own { IsHandOf self.now.store hand.old }
        requires idle { IsIdle hand.old.seat }
        requires names { (hand.old.number ≡ J.pass) × (self.now.store.layout.pages ≡ J.pages) × (self.now.store.layout.passes ≡ J.passes) }
        requires next { next_of J.process ≡ act.Begin }
        requires unborn { IsUnborn J.process }
        requires course { GoesOn J.process seen.Done }
        ensures same { IsSameHand hand.old.seat hand.new.seat × IsSameStock hand.old.seat hand.new.seat }
        ensures running { IsRunning hand.new.seat }
        ensures observed { Begins J.pass J.pages J.passes J.process (known hand.old.seat) (known hand.new.seat) }
    {
        let _ = named;
        self.store.begin::<Began<J>>(hand);
    }

    /// Begins the process.
    #[inline(always)]
    pub fn begin<P: Kind>(&self, hand: &mut Hand<PassState>, process: &mut P)
        requires own { IsHandOf self.now.store hand.old }
        requires idle { IsIdle hand.old.seat }
        requires new { (P.answer_of process.old ≡ None) × (P.next_of process.old ≡ act.Begin) × IsUnborn (P.proc_of process.old) }
        ensures same { IsSameHand hand.old.seat hand.new.seat × IsSameStock hand.old.seat hand.new.seat }
        ensures runs { Runs self.now hand.new (P.proc_of process.new) }
        ensures begun { IsSince hand.old.number (known hand.old.seat) (known hand.new.seat) }
        ensures observed { Begins hand.old.number self.now.store.layout.pages self.now.store.layout.passes (P.proc_of process.old) (known hand.old.seat)
            (known hand.new.seat) }
        ensures takes { P.Takes process.old seen.Done process.new }
    {
        self.begin_as::<Brand, P>(hand, process);
        process.took(Seen::Done);
    }

    /// The process gets the page, and reads the words that it needs.
    #[inline(always)]
    pub fn read<P: Kind>(&self, hand: &mut Hand<PassState>, process: &mut P, page: u32)
        requires runs { Runs self.now hand.old (P.proc_of process.old) }
        requires next { (P.answer_of process.old ≡ None) × (P.next_of process.old ≡ act.Get page) }
        ensures same { KeepsHand hand.old.seat hand.new.seat }
        ensures runs { Runs self.now hand.new (P.proc_of process.new) }
        ensures got { Steps (Get page) (known hand.old.seat) (known hand.new.seat) }
        ensures moves { Moves (known hand.old.seat) (known hand.new.seat) }
        ensures takes { (c : PageIs) × P.Takes process.old (seen.Words c) process.new }
    {
        match self.store.glance::<Got>(hand, page) {
            Some(glance) => {
                let shown = FrameView {
                    store: &self.store,
                    glance,
                };
                process.took_words(&shown, hand);
            }
            None => unreachable!(),
        }
    }

    /// The process ends.
    #[inline(always)]
    pub fn finish<P: Kind>(&self, hand: &mut Hand<PassState>, process: &mut P)
        requires runs { Runs self.now hand.old (P.proc_of process.old) }
        requires next { (P.answer_of process.old ≡ None) × (P.next_of process.old ≡ act.End) }
        ensures same { IsSameHand hand.old.seat hand.new.seat × IsSameStock hand.old.seat hand.new.seat }
        ensures idle { IsIdle hand.new.seat }
        ensures observed { Finishes (end_of_proc (P.proc_of process.old)) (known hand.old.seat) (known hand.new.seat) }
        ensures tidy { IsTidy (P.proc_of process.new) (marks_of (name (known hand.old.seat).pass (known hand.old.seat).number) (known hand.new.seat).trail) }
        ensures log { proc_log (P.proc_of process.new) (marks_of (name (known hand.old.seat).pass (known hand.old.seat).number) (known hand.new.seat).trail) }
        ensures takes { P.Takes process.old seen.Done process.new }
        ensures within { IsWithin hand.new.seat }
        ensures refusal { IsSameRefusal hand.old.seat hand.new.seat }
    {
        self.store.end::<Ended>(hand);
        process.took(Seen::Done);
    }

    /// A process that holds no page and has said nothing ends at once. It has written nothing, or new top levels alone where it is a post.
    #[inline(always)]
    pub fn give_up(&self, hand: &mut Hand<PassState>)
        requires own { IsHandOf self.now.store hand.old }
        requires running { IsRunning hand.old.seat }
        requires may { MayGiveUp (known hand.old.seat).state }
        requires passes { (known hand.old.seat).passes ≡ self.now.store.layout.passes }
        ensures same { IsSameHand hand.old.seat hand.new.seat × IsSameStock hand.old.seat hand.new.seat }
        ensures idle { IsIdle hand.new.seat }
        ensures observed { Finishes None (known hand.old.seat) (known hand.new.seat) }
        ensures tidy { IsTidy (known hand.old.seat).state
            (marks_of (name (known hand.old.seat).pass (known hand.old.seat).number) (known hand.new.seat).trail) }
        ensures leaves { Leaves (known hand.old.seat).state
            (marks_of (name (known hand.old.seat).pass (known hand.old.seat).number) (known hand.new.seat).trail) }
        ensures within { IsWithin hand.new.seat }
    {
        self.store.end::<GaveUp>(hand);
    }
}
