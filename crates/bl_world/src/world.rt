//! Worlds.

ghost use Rattle.std.specs.Prelude.{◌≡◌, ℕ};
ghost use Rattle.bl_world.specs.Worlds.{key_in};

use crate::lists::Lists;
use crate::opening::opening;
use crate::turns::{Event, Turn, WorldFault};
use bl_page::Page;
use bl_proc::{Answer, Proc, Process};
use std::alloc::Global;
use std::marker::Model;

/// An index of plain pages, with the processes that were started on it. Whoever has a world gives the turns: at each
/// moment any process may be the next. What a list of turns does is `RunsTo` of `specs/Turns.antt`; what may be believed of
/// any world, at every moment so far, is its `Account` of `specs/Accounts.antt`.
#[derive(Drop)]
pub struct World {
    lists: Lists,
}

// A clause sees what stands in the world.
impl Model for World {
    ghost use Rattle.std.specs.Coded.{codes};
    ghost use Rattle.bl_page.specs.contracts.page.Page as page;
    ghost use Rattle.bl_proc.specs.contracts.kinds.Proc as proc;
    ghost use Rattle.bl_world.specs.Views.{View, view_of};
    ghost use Rattle.bl_world.specs.WorldSteps.{Way};
    ghost use Rattle.bl_world.specs.Worlds.{IsWorld};

    ghost Value = { View };

    ghost coded = { Prim.hlevel (codes, page.the_row.coded, proc.the_row.coded) };

    ghost view = { λ world. view_of world.lists };

    ghost invariant = { λ world. IsWorld (view_of world.lists) × ∥ Way (view_of world.lists) ∥₁ };
}

/// The key of a process.
fn key_of(process: &Proc) -> u64
    ensures { result ≡ key_in process.now }
{
    match process {
        Proc::Find(process) => process.key,
        Proc::Write(process) => process.key,
        Proc::InsertPost(process) => process.key,
        Proc::Post(process) => process.key,
        Proc::Part(process) => process.from.key,
        Proc::Compress(process) => process.key,
        Proc::Reclaim(_) | Proc::Lower(_) => 0,
    }
}

impl World {
    ghost use Rattle.std.specs.Prelude.{◌≡◌, ◌≢◌, ◌⊎◌, ◌<◌, ◌≤◌, ◌+◌, ◌↔◌, ◌++◌, ◌∷◌, [], Some, None, Ok, Err, slice_get, length, IfSome, IfNone, IfOk, IfErr, OnOk, OnErr};
    ghost use Rattle.bl_proc.specs.declared.kinds.Proc.{Proc as AnyProc};
    ghost use Rattle.bl_proc.specs.Processes.{answer_of};
    ghost use Rattle.bl_world.specs.declared.turns.WorldFault.TheVariants as fault;
    ghost use Rattle.bl_world.specs.Views.{View};
    ghost use Rattle.bl_world.specs.declared.turns.Act.TheVariants as act;
    ghost use Rattle.bl_world.specs.declared.turns.Event.{Event as AnyEvent};
    ghost use Rattle.bl_world.specs.declared.turns.Turn.{Turn as AnyTurn};
    ghost use Rattle.bl_world.specs.Turns.{TurnsTo, RunsTo, RunsInto, IsStarted, HasUnknown};
    ghost use Rattle.bl_world.specs.WorldSteps.{IsOpening, MayStart, Starts};
    ghost use Rattle.bl_world.specs.Choices.{Chooses};
    ghost use Rattle.bl_world.specs.Accounts.{Account, Continues};
    ghost use Rattle.bl_world.specs.Lone.{IsLoneWalk};
    ghost use Rattle.bl_world.specs.Waits.{IsGoing, MayGoOn, HoldsSome, NoneHeld, HaveAnswered, WaitEnds};
    ghost use Rattle.bl_world.specs.Settles.{Settles, turns_to_rest};

    /// A world with the opening index of that many pages, 4 to 65,536: page 0 names one level, page 1 is an empty leaf, and
    /// all other pages are released. Any other number is `BadPages`.
    pub fn open(alloc: Global, pages: u32) -> Result<World, WorldFault>
        ensures ok { IfOk result (λ world. IsOpening pages world) }
        ensures account { IfOk result (λ world. ∥ Account world ∥₁) }
        ensures bad { (pages < 4) ⊎ (65536 < pages) → result ≡ Err fault.BadPages }
        ensures memory { 4 ≤ pages → pages ≤ 65536 → IfErr result (λ why. why ≡ fault.Memory) }
    {
        if pages < 4 || pages > 65536 {
            return Err(WorldFault::BadPages);
        }
        match opening(alloc, pages) {
            Ok(lists) => Ok(World { lists }),
            Err(_) => Err(WorldFault::Memory),
        }
    }

    /// Adds a process that is to begin, or that is to release a page of this world, and gives its number; they count from 1.
    /// Without memory nothing changes.
    pub fn start(&mut self, process: Proc) -> Result<usize, WorldFault>
        requires { MayStart self.old process }
        ensures ok { OnOk result (Starts self.old process self.new) }
        ensures number { IfOk result (λ number. number ≡ length self.new.processes) }
        ensures err { IfErr result (λ why. (why ≡ fault.Memory) × (self.new ≡ self.old)) }
        ensures account { ∥ Continues self.old self.new ∥₁ }
    {
        let _key = key_of(&process);
        if self.lists.enter(process).is_err() {
            return Err(WorldFault::Memory);
        }
        Ok(self.lists.processes.len())
    }

    /// Carries out turns in their order. Where memory fails, what stands is what stood after the turns before; where a turn
    /// is of a process that was not started, none is carried out.
    pub fn run(&mut self, turns: &[Turn]) -> Result<(), WorldFault>
        ensures ok { OnOk result (RunsTo self.old turns.now self.new) }
        ensures memory { result ≡ Err fault.Memory → RunsInto self.old turns.now self.new }
        ensures unknown { HasUnknown self.old turns.now → result ≡ Err fault.NoSuchProcess }
        ensures none { result ≡ Err fault.NoSuchProcess → HasUnknown self.old turns.now × (self.new ≡ self.old) }
        ensures never { result ≢ Err fault.BadPages }
        ensures account { ∥ Continues self.old self.new ∥₁ }
    {
        if !self.lists.has_all(turns) {
            return Err(WorldFault::NoSuchProcess);
        }
        if self.lists.carry(turns).is_err() {
            return Err(WorldFault::Memory);
        }
        Ok(())
    }

    /// The turn that comes next for the process with that number, where nothing else is wanted of it: a step; or, where it
    /// is to take a page, the take of this page, or of the least released one where none is given; or, where no page is
    /// released then, a refusal.
    pub fn turn_of(&self, number: usize, page: Option<u32>) -> Turn
        ensures { Chooses self.now number page result }
    {
        self.lists.choose(number, page)
    }

    /// The number of a process that may go on: it has not answered, and waits for no other to open a page. It holds a page, if
    /// any is held. None exactly where all have answered. So no processes wait for one another in a circle: each wait
    /// ends at a process that may go on.
    pub fn ready(&self) -> Option<usize>
        ensures goes { IfSome result (λ number. MayGoOn self.now number × (HoldsSome self.now number ⊎ NoneHeld self.now)) }
        ensures none { IfNone result (HaveAnswered self.now) }
        ensures ends { (number : ℕ) → IsGoing self.now number → ∥ WaitEnds self.now number ∥₁ }
    {
        self.lists.ready()
    }

    /// Leaves the world to itself: gives turns to processes that may go on, until all have answered or so many turns are done, and
    /// tells how many it gave. Each turn is the one that comes next for its process, as `turn_of` tells it. So many turns as
    /// `turns_to_rest` says for this number of pages and of processes are enough for all to answer, and so they are whichever of
    /// those that may go on is given the next turn. Without memory what stands is what stood after the turns before.
    pub fn settle(&mut self, most: u64) -> Result<u64, WorldFault>
        ensures turns { IfOk result (λ count. Settles self.old count self.new × (count ≤ most)) }
        ensures rest { IfOk result (λ count. (count ≡ most) ⊎ HaveAnswered self.new) }
        ensures ends { turns_to_rest (length self.old.pages) (length self.old.processes) ≤ most → OnOk result (HaveAnswered self.new) }
        ensures always { (count : ℕ) (after : View) → Settles self.old count after
            → count < turns_to_rest (length self.old.pages) (length self.old.processes) }
        ensures memory { IfErr result (λ why. (why ≡ fault.Memory) × ((count : ℕ) × Settles self.old count self.new)) }
        ensures account { ∥ Continues self.old self.new ∥₁ }
    {
        match self.lists.settle(most) {
            Ok(done) => Ok(done),
            Err(_) => Err(WorldFault::Memory),
        }
    }

    /// Says that what the next turn puts, if it puts anything, is a page of this world.
    pub fn has_what_is_put(&self)
        ensures { (turn : AnyTurn) (after : View) (event : AnyEvent) (x : ℕ) → TurnsTo self.now turn after
            → after.events ≡ self.now.events ++ event ∷ [] → event.act ≡ act.Put x → x < length self.now.pages }
    {
        let _ = &self.lists;
    }

    /// A copy of what stands in a page, if this world has one with that number.
    pub fn page(&self, at: u32) -> Option<Page>
        ensures { result ≡ slice_get self.now.pages at }
    {
        match self.lists.pages.as_slice().get(at as usize) {
            Some(page) => Some(page.copied()),
            None => None,
        }
    }

    /// The events so far, one for each turn.
    pub fn steps(&self) -> &[Event]
        ensures events { result.now ≡ self.now.events }
        ensures account { ∥ Account self.now ∥₁ }
    {
        self.lists.events.as_slice()
    }

    /// The leaf at which a search for the key would end if nothing changed meanwhile, and how many pages it would get, page 0
    /// included.
    pub fn lone_walk(&self, key: u64) -> (u32, u32)
        ensures { ∥ IsLoneWalk self.now key result.0 result.1 ∥₁ }
    {
        self.lists.walk(key)
    }

    /// The answer of the process with that number, if it was started and has ended.
    pub fn answer(&self, number: usize) -> Option<Answer>
        ensures started { (n : ℕ) (p : AnyProc) → number ≡ n + 1 → slice_get self.now.processes n ≡ Some p → result ≡ answer_of p }
        ensures unknown { (¬ IsStarted self.now number) → result ≡ None }
        ensures account { ∥ Account self.now ∥₁ }
    {
        if number == 0 || number > self.lists.processes.len() {
            return None;
        }
        self.lists.processes[number - 1].answer()
    }
}
