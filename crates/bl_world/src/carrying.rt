//! Turns on what stands in a world.

ghost use Rattle.std.specs.Prelude.{ℕ, ◌≡◌, ◌<◌, ◌≤◌, ◌++◌, ◌∷◌, ◌+◌, ◌^◌, [], length, Some, None, slice_get, slice_set, OnOk, OnErr, IsTrue, ◌↔◌};
ghost use Rattle.std.specs.Bool.{OnTrue, OnFalse};
ghost use Rattle.bl_world.specs.declared.owners.Owner.TheVariants as own;
ghost use Rattle.bl_proc.specs.declared.kinds.Proc.{Proc};
ghost use Rattle.bl_proc_steps.specs.declared.acts.Action.TheVariants as act;
ghost use Rattle.bl_proc_steps.specs.Given.{Gives};
ghost use Rattle.bl_proc.specs.Processes.{next_of, needs_of, answer_of, Takes};
ghost use Rattle.bl_world.specs.Views.{view_of, number_in, is_retired as is_retired_owner, is_open as is_open_page};
ghost use Rattle.bl_world.specs.Retirements.{HasSeen};
ghost use Rattle.bl_world.specs.Turns.{IsFree, Stays, Puts, Owns, Tells, Idles, Carries, IsToRelease, MayRelease, StepsTo, TakesTo, RefusesTo, TurnsTo, RunsTo, RunsInto, IsStarted, AllStarted, HasUnknown};
ghost use Rattle.bl_world.specs.WorldSteps.{Starts};
ghost use Rattle.bl_world.specs.Worlds.{IsWorld};

use crate::lists::Lists;
use crate::looking::{is_blocking, retirement_seen};
use crate::owners::Owner;
use crate::turns::{Act, Event, Turn};
use bl_page::Page;
use bl_proc::{Action, Proc, Process, Seen};
use std::alloc::AllocError;

/// Adds an event of the process at that place.
fn record(events: &mut Vec<Event>, index: usize, act: Act) -> Result<(), AllocError>
    requires { index + 1 < 2 ^ 64 }
    ensures ok { OnOk result (events.new.items ≡ events.old.items ++ record { process = index + 1; act = act } ∷ []) }
    ensures err { OnErr result (events.new.items ≡ events.old.items) }
{
    events.push(Event {
        process: index + 1,
        act,
    })?;
    Ok(())
}

/// The process at that place goes on by what it was told.
fn advance(processes: &mut Vec<Proc>, index: usize, seen: Seen)
    requires started { index < length processes.old.items }
    requires given { (p : Proc) → slice_get processes.old.items index ≡ Some p → (answer_of p ≡ None) × Gives (next_of p) (needs_of p) seen }
    ensures { (p : Proc) → slice_get processes.old.items index ≡ Some p
        → (new : Proc) × Takes p seen new × (processes.new.items ≡ slice_set processes.old.items index new) }
{
    processes[index].took(seen);
}

impl Lists {
    /// A turn that is not fit.
    fn idle(&mut self, index: usize) -> Result<(), AllocError>
        requires { index < length self.old.processes.items }
        ensures ok { OnOk result (Idles (view_of self.old) index (view_of self.new)) }
        ensures err { OnErr result (view_of self.new ≡ view_of self.old) }
    {
        record(&mut self.events, index, Act::Miss)?;
        Ok(())
    }

    /// The process is told of an event that leaves pages and owners as they are.
    fn observed(&mut self, index: usize, act: Act, seen: Seen) -> Result<(), AllocError>
        requires started { index < length self.old.processes.items }
        requires given { (p : Proc) → slice_get self.old.processes.items index ≡ Some p → (answer_of p ≡ None) × Gives (next_of p) (needs_of p) seen }
        ensures ok { OnOk result ((p : Proc) → slice_get self.old.processes.items index ≡ Some p
            → Stays (view_of self.old) (view_of self.new) × Tells (view_of self.old) index p act seen (view_of self.new)) }
        ensures err { OnErr result (view_of self.new ≡ view_of self.old) }
    {
        record(&mut self.events, index, act)?;
        advance(&mut self.processes, index, seen);
        Ok(())
    }

    /// The process puts a page.
    fn put(&mut self, index: usize, at: u32, page: Page) -> Result<(), AllocError>
        requires world { IsWorld (view_of self.old) }
        requires started { index < length self.old.processes.items }
        requires next { (p : Proc) → slice_get self.old.processes.items index ≡ Some p → (answer_of p ≡ None) × (next_of p ≡ act.Put at page) }
        ensures ok { OnOk result ((p : Proc) → slice_get self.old.processes.items index ≡ Some p
            → Carries (view_of self.old) index p (act.Put at page) (view_of self.new)) }
        ensures err { OnErr result (view_of self.new ≡ view_of self.old) }
    {
        record(&mut self.events, index, Act::Put(at))?;
        self.pages[at as usize] = page;
        advance(&mut self.processes, index, Seen::Done);
        Ok(())
    }

    /// A page gets another owner, and the process is told of it.
    fn own(
        &mut self,
        index: usize,
        at: u32,
        owner: Owner,
        act: Act,
        seen: Seen,
    ) -> Result<(), AllocError>
        requires started { index < length self.old.processes.items }
        requires within { at < length self.old.owners.items }
        requires given { (p : Proc) → slice_get self.old.processes.items index ≡ Some p → (answer_of p ≡ None) × Gives (next_of p) (needs_of p) seen }
        ensures ok { OnOk result ((p : Proc) → slice_get self.old.processes.items index ≡ Some p
            → Owns (view_of self.old) at owner (view_of self.new) × Tells (view_of self.old) index p act seen (view_of self.new)) }
        ensures err { OnErr result (view_of self.new ≡ view_of self.old) }
    {
        record(&mut self.events, index, act)?;
        self.owners[at as usize] = owner;
        advance(&mut self.processes, index, seen);
        Ok(())
    }

    /// The process tries to latch a page.
    fn latch(&mut self, index: usize, at: u32) -> Result<(), AllocError>
        requires world { IsWorld (view_of self.old) }
        requires started { index < length self.old.processes.items }
        requires next { (p : Proc) → slice_get self.old.processes.items index ≡ Some p → (answer_of p ≡ None) × (next_of p ≡ act.Latch at) }
        ensures ok { OnOk result ((p : Proc) → slice_get self.old.processes.items index ≡ Some p
            → Carries (view_of self.old) index p (act.Latch at) (view_of self.new)) }
        ensures err { OnErr result (view_of self.new ≡ view_of self.old) }
    {
        match self.owners[at as usize] {
            Owner::Open => self.own(
                index,
                at,
                Owner::Held(index + 1),
                Act::Latch(at),
                Seen::Done,
            ),
            Owner::Released | Owner::Held(_) | Owner::Retired(_) => {
                self.observed(index, Act::Miss, Seen::Missed)
            }
        }
    }

    /// The process reads a page.
    fn get(&mut self, index: usize, at: u32) -> Result<(), AllocError>
        requires world { IsWorld (view_of self.old) }
        requires started { index < length self.old.processes.items }
        requires next { (p : Proc) → slice_get self.old.processes.items index ≡ Some p → (answer_of p ≡ None) × (next_of p ≡ act.Get at) }
        ensures ok { OnOk result ((p : Proc) → slice_get self.old.processes.items index ≡ Some p
            → Carries (view_of self.old) index p (act.Get at) (view_of self.new)) }
        ensures err { OnErr result (view_of self.new ≡ view_of self.old) }
    {
        let page = self.pages[at as usize].copied();
        self.observed(index, Act::Get(at), Seen::Words(page))
    }

    /// The process opens a page.
    fn open_page(&mut self, index: usize, at: u32) -> Result<(), AllocError>
        requires world { IsWorld (view_of self.old) }
        requires started { index < length self.old.processes.items }
        requires next { (p : Proc) → slice_get self.old.processes.items index ≡ Some p → (answer_of p ≡ None) × (next_of p ≡ act.Open at) }
        ensures ok { OnOk result ((p : Proc) → slice_get self.old.processes.items index ≡ Some p
            → Carries (view_of self.old) index p (act.Open at) (view_of self.new)) }
        ensures err { OnErr result (view_of self.new ≡ view_of self.old) }
    {
        self.own(index, at, Owner::Open, Act::Open(at), Seen::Done)
    }

    /// The process retires a page.
    fn retire(&mut self, index: usize, at: u32) -> Result<(), AllocError>
        requires world { IsWorld (view_of self.old) }
        requires started { index < length self.old.processes.items }
        requires next { (p : Proc) → slice_get self.old.processes.items index ≡ Some p → (answer_of p ≡ None) × (next_of p ≡ act.Retire at) }
        ensures ok { OnOk result ((p : Proc) → slice_get self.old.processes.items index ≡ Some p
            → Carries (view_of self.old) index p (act.Retire at) (view_of self.new)) }
        ensures err { OnErr result (view_of self.new ≡ view_of self.old) }
    {
        let place = self.events.len();
        self.own(
            index,
            at,
            Owner::Retired(place),
            Act::Retire(at),
            Seen::Done,
        )
    }

    /// The process looks at the owner of a page.
    fn see(&mut self, index: usize, at: u32) -> Result<(), AllocError>
        requires world { IsWorld (view_of self.old) }
        requires started { index < length self.old.processes.items }
        requires next { (p : Proc) → slice_get self.old.processes.items index ≡ Some p → (answer_of p ≡ None) × (next_of p ≡ act.See at) }
        ensures ok { OnOk result ((p : Proc) → slice_get self.old.processes.items index ≡ Some p
            → Carries (view_of self.old) index p (act.See at) (view_of self.new)) }
        ensures err { OnErr result (view_of self.new ≡ view_of self.old) }
    {
        let retired = is_retired(self.owners[at as usize]);
        let started = self.processes.len();
        self.observed(
            index,
            Act::See(at),
            Seen::Owner {
                retired,
                started,
                own: index + 1,
            },
        )
    }

    /// The process looks whether a page is open.
    fn probe(&mut self, index: usize, at: u32) -> Result<(), AllocError>
        requires started { index < length self.old.processes.items }
        requires next { (p : Proc) → slice_get self.old.processes.items index ≡ Some p → (answer_of p ≡ None) × (next_of p ≡ act.Probe at) }
        ensures ok { OnOk result ((p : Proc) → slice_get self.old.processes.items index ≡ Some p
            → Carries (view_of self.old) index p (act.Probe at) (view_of self.new)) }
        ensures err { OnErr result (view_of self.new ≡ view_of self.old) }
    {
        let owner = self.owners.as_slice().get(at as usize).copied();
        self.observed(index, Act::See(at), Seen::Probed(is_open(owner)))
    }

    /// Since which event the process at that place has seen its page retired, if it is to release one.
    fn retired_for(&self, index: usize) -> Option<usize>
        requires { index < length self.now.processes.items }
        ensures some { (p : Proc) (k : ℕ) → slice_get self.now.processes.items index ≡ Some p → result ≡ Some k
            → (x : ℕ) × IsToRelease p x × HasSeen self.now.events.items (index + 1) x k (length self.now.events.items) }
        ensures none { (p : Proc) (x k : ℕ) → slice_get self.now.processes.items index ≡ Some p → result ≡ None → IsToRelease p x
            → ¬ HasSeen self.now.events.items (index + 1) x k (length self.now.events.items) }
    {
        match &self.processes[index] {
            Proc::Reclaim(reclaim) => {
                retirement_seen(self.events.as_slice(), index + 1, reclaim.page)
            }
            _ => None,
        }
    }

    /// The process looks at the one with that number.
    fn look(&mut self, index: usize, number: usize) -> Result<(), AllocError>
        requires world { IsWorld (view_of self.old) }
        requires started { index < length self.old.processes.items }
        requires next { (p : Proc) → slice_get self.old.processes.items index ≡ Some p → (answer_of p ≡ None) × (next_of p ≡ act.Look number) }
        ensures ok { OnOk result ((p : Proc) → slice_get self.old.processes.items index ≡ Some p
            → Carries (view_of self.old) index p (act.Look number) (view_of self.new)) }
        ensures err { OnErr result (view_of self.new ≡ view_of self.old) }
    {
        match self.retired_for(index) {
            Some(place) => {
                let blocks = is_blocking(self.events.as_slice(), number, place);
                self.observed(index, Act::Look(number), Seen::Blocks(blocks))
            }
            None => unreachable!(),
        }
    }

    /// The process tries to release a page.
    fn release(&mut self, index: usize, at: u32) -> Result<(), AllocError>
        requires world { IsWorld (view_of self.old) }
        requires started { index < length self.old.processes.items }
        requires next { (p : Proc) → slice_get self.old.processes.items index ≡ Some p → (answer_of p ≡ None) × (next_of p ≡ act.Release at) }
        ensures ok { OnOk result ((p : Proc) → slice_get self.old.processes.items index ≡ Some p
            → Carries (view_of self.old) index p (act.Release at) (view_of self.new)) }
        ensures err { OnErr result (view_of self.new ≡ view_of self.old) }
    {
        if !self.may_release(index, at) {
            return self.observed(index, Act::Miss, Seen::Missed);
        }
        self.own(index, at, Owner::Released, Act::Release(at), Seen::Done)
    }

    /// The page is retired as the process at that place has seen it.
    fn may_release(&self, index: usize, at: u32) -> bool
        requires started { index < length self.now.processes.items }
        requires within { at < length self.now.owners.items }
        ensures { IsTrue result ↔ MayRelease (view_of self.now) index at }
    {
        match retirement_seen(self.events.as_slice(), index + 1, at) {
            Some(place) => is_owner(self.owners[at as usize], Owner::Retired(place)),
            None => false,
        }
    }

    /// The next action of a process, unless that is to take a page.
    fn step(&mut self, index: usize) -> Result<(), AllocError>
        requires world { IsWorld (view_of self.old) }
        requires started { index < length self.old.processes.items }
        ensures ok { OnOk result ((p : Proc) → slice_get self.old.processes.items index ≡ Some p → StepsTo (view_of self.old) index p (view_of self.new)) }
        ensures err { OnErr result (view_of self.new ≡ view_of self.old) }
    {
        if let Some(_) = self.processes[index].answer() {
            return self.idle(index);
        }
        match self.processes[index].next() {
            Action::Begin => self.observed(index, Act::Begin, Seen::Done),
            Action::End => self.observed(index, Act::End, Seen::Done),
            Action::Get(at) => self.get(index, at),
            Action::Put(at, page) => self.put(index, at, page),
            Action::Latch(at) => self.latch(index, at),
            Action::Open(at) => self.open_page(index, at),
            Action::Take => self.idle(index),
            Action::Look(number) => self.look(index, number),
            Action::See(at) => self.see(index, at),
            Action::Probe(at) => self.probe(index, at),
            Action::Release(at) => self.release(index, at),
            Action::Retire(at) => self.retire(index, at),
        }
    }

    /// The page may be taken.
    pub fn is_free(&self, at: u32) -> bool
        ensures { IsTrue result ↔ IsFree (view_of self.now) at }
    {
        at > 0 && (at as usize) < self.owners.len() && self.owners[at as usize] == Owner::Released
    }

    /// The process takes that page, if it is to take one.
    fn take(&mut self, index: usize, at: u32) -> Result<(), AllocError>
        requires started { index < length self.old.processes.items }
        ensures ok { OnOk result ((p : Proc) → slice_get self.old.processes.items index ≡ Some p → TakesTo (view_of self.old) index p at (view_of self.new)) }
        ensures err { OnErr result (view_of self.new ≡ view_of self.old) }
    {
        if !self.is_free(at) {
            return self.idle(index);
        }
        if let Some(_) = self.processes[index].answer() {
            return self.idle(index);
        }
        match self.processes[index].next() {
            Action::Take => self.own(
                index,
                at,
                Owner::Held(index + 1),
                Act::Take(at),
                Seen::Took(at),
            ),
            _ => self.idle(index),
        }
    }

    /// What the process is about to reserve is refused.
    fn refuse(&mut self, index: usize) -> Result<(), AllocError>
        requires started { index < length self.old.processes.items }
        ensures ok { OnOk result ((p : Proc) → slice_get self.old.processes.items index ≡ Some p → RefusesTo (view_of self.old) index p (view_of self.new)) }
        ensures err { OnErr result (view_of self.new ≡ view_of self.old) }
    {
        if let Some(_) = self.processes[index].answer() {
            return self.idle(index);
        }
        if self.processes[index].needs().is_none() {
            return self.idle(index);
        }
        self.observed(index, Act::Miss, Seen::Refused)
    }

    /// One turn of a process that was started.
    pub fn turn(&mut self, turn: Turn) -> Result<(), AllocError>
        requires world { IsWorld (view_of self.old) }
        requires started { (0 < number_in turn) × (number_in turn ≤ length self.old.processes.items) }
        ensures ok { OnOk result (TurnsTo (view_of self.old) turn (view_of self.new)) }
        ensures err { OnErr result (view_of self.new ≡ view_of self.old) }
    {
        match turn {
            Turn::Step(number) => self.step(number - 1),
            Turn::Take(number, at) => self.take(number - 1, at),
            Turn::Refuse(number) => self.refuse(number - 1),
        }
    }

    /// Adds a process after all others.
    pub fn enter(&mut self, process: Proc) -> Result<(), AllocError>
        ensures ok { OnOk result (Starts (view_of self.old) process (view_of self.new)) }
        ensures err { OnErr result (view_of self.new ≡ view_of self.old) }
    {
        self.processes.push(process)?;
        Ok(())
    }

    /// The process with that number was started.
    fn is_started(&self, number: usize) -> bool
        ensures { IsTrue result ↔ IsStarted (view_of self.now) number }
    {
        0 < number && number <= self.processes.len()
    }

    /// Each of the turns is of a process that was started.
    pub fn has_all(&self, turns: &[Turn]) -> bool
        ensures yes { OnTrue result (AllStarted (view_of self.now) turns.now) }
        ensures no { OnFalse result (HasUnknown (view_of self.now) turns.now) }
    {
        for turn in turns {
            if !self.is_started(number_of(*turn)) {
                return false;
            }
        }
        true
    }

    /// Carries out turns of processes that were started, in their order.
    pub fn carry(&mut self, turns: &[Turn]) -> Result<(), AllocError>
        requires world { IsWorld (view_of self.old) }
        requires started { AllStarted (view_of self.old) turns.now }
        ensures ok { OnOk result (RunsTo (view_of self.old) turns.now (view_of self.new)) }
        ensures err { OnErr result (RunsInto (view_of self.old) turns.now (view_of self.new)) }
    {
        for turn in turns {
            self.turn(*turn)?;
        }
        Ok(())
    }
}

/// The owners are the same.
fn is_owner(owner: Owner, other: Owner) -> bool
    ensures { IsTrue result ↔ (owner ≡ other) }
{
    owner == other
}

/// Whether there is such a page, and its owner is anybody.
fn is_open(owner: Option<Owner>) -> bool
    ensures { result ≡ is_open_page owner }
{
    match owner {
        Some(Owner::Open) => true,
        Some(Owner::Released | Owner::Held(_) | Owner::Retired(_)) | None => false,
    }
}

/// Whether that owner is none any more.
fn is_retired(owner: Owner) -> bool
    ensures { result ≡ is_retired_owner owner }
{
    match owner {
        Owner::Retired(_) => true,
        Owner::Released | Owner::Open | Owner::Held(_) => false,
    }
}

/// The number of the process whose turn it is.
fn number_of(turn: Turn) -> usize
    ensures { result ≡ number_in turn }
{
    match turn {
        Turn::Step(number) | Turn::Take(number, _) | Turn::Refuse(number) => number,
    }
}
