//! The processes of a world that run.

use crate::owners::{both, held_by, number_of};
use bl_model::Op;
use bl_proc::{Answer, Posted};
use bl_world::{Act, Owner, Turn};
use std::alloc::Global;
use test_world_running::{Compression, Job, Running};
use test_world_walks::{Law, Tree, add, found, holds, keep};

/// Those that run, in the order in which they were started.
#[derive(Drop)]
pub struct Crew {
    pub list: Vec<Running>,
    /// How many processes were started.
    pub started: usize,
}

/// The change that a running process has made by that event, which led to this tree. A deletion may leave its leaf thin.
pub fn change_of(running: &mut Running, act: Act, tree: &Tree) -> Result<Op, Law> {
    match running.job {
        Job::Insert(key, value) | Job::InsertPost(key, value) => Ok(Op::Insert(key, value)),
        Job::Put(key, value) | Job::PutPost(key, value) => Ok(Op::Put(key, value)),
        Job::Delete(key) => {
            if let Act::Put(page) = act {
                running.thin = tree.thin_low(page)?;
            }
            Ok(Op::Delete(key))
        }
        Job::Change(key, old, new) => Ok(Op::Change(key, old, new)),
        _ => Err("only insertions, puts, deletions and changes change rows"),
    }
}

/// The next put of a compression, of that page. Whether it is the last one.
fn puts_last(compression: &mut Option<Compression>, page: u32) -> Result<bool, Law> {
    match compression {
        Some(compression) => {
            compression.puts(page)?;
            Ok(compression.puts == 3)
        }
        None => Ok(false),
    }
}

/// A process that puts this page compresses, and goes on with that. It is among those that compress up to its last put.
pub fn puts_in_compression(
    alloc: Global,
    running: &mut Running,
    tree: &Tree,
    page: u32,
    compressing: &mut Vec<usize>,
) -> Result<(), Law> {
    let Job::Compress(level, key) = running.job else {
        return Ok(());
    };
    let number = running.number;
    if running.compression.is_none() {
        running.compression = Some(Compression::new(alloc, tree, level, key)?);
        add(compressing, number)?;
    }
    if puts_last(&mut running.compression, page)? {
        compressing.retain(|other| *other != number);
    }
    Ok(())
}

/// A write that posts has listed what it split, where this tree lists it and the one before did not.
pub fn lists_own(running: &mut Running, before: &Tree, tree: &Tree) {
    if running.job.is_posting()
        && let Some((level, key)) = running.split
        && tree.lists(level, key)
        && !before.lists(level, key)
    {
        running.listed = running.split;
        running.split = None;
    }
}

/// A post answers that it is done where this tree lists its key and the one before it did not. A new top level lists the key 0,
/// which is no work of a post for that key.
pub fn lists_first(running: &mut Running, before: &Tree, tree: &Tree) {
    if let Job::Post(level, key) = running.job
        && key != 0
        && tree.lists(level as usize, key)
        && !before.lists(level as usize, key)
    {
        running.own = Some(Answer::Post(Posted::Done, None));
    }
}

/// A process that takes the top level away has put this page, which led from the one tree to the other.
pub fn lowers(running: &mut Running, page: u32, before: &Tree, tree: &Tree) -> Result<(), Law> {
    match running.job {
        Job::Lower => running.sinks(page, before, tree),
        _ => Ok(()),
    }
}

/// A running process has split the named page from another one.
pub fn parts(running: &mut Running, tree: &Tree, named: Option<u32>) -> Result<(), Law> {
    if let Some(page) = named {
        let live = found!(tree.live_at(page), "a page that is named is live");
        running.split = Some((live.level.saturating_add(1), live.low));
    }
    Ok(())
}

/// A compression that has put nothing waits for a latch.
fn waits(running: &Running, turn: Turn, act: Act) -> bool {
    running.compression.is_none()
        && matches!(running.job, Job::Compress(_, _))
        && running.begun.is_some()
        && act == Act::Miss
        && matches!(turn, Turn::Step(_))
}

/// A process that runs is not to answer yet.
pub fn goes_on(running: &Running) -> Result<(), Law> {
    both(
        running.saw.is_none() || matches!(running.saw, Some(Owner::Retired(_))),
        "who sees a page that is not retired answers in that turn",
        !running.blocked && !running.missed,
        "who may not release a page answers in that turn",
    )
}

impl Crew {
    /// Nobody runs.
    pub fn new(alloc: Global) -> Crew {
        Crew {
            list: Vec::new(alloc),
            started: 0,
        }
    }

    /// Adds the process that was started with that number.
    pub fn start(&mut self, alloc: Global, number: usize, job: Job) -> Result<(), Law> {
        self.started = self.started.wrapping_add(1);
        keep!(number == self.started, "processes count from 1");
        add(&mut self.list, Running::new(alloc, number, job))
    }

    /// The process with that number, if it runs.
    pub fn of(&mut self, number: usize) -> Option<&mut Running> {
        for running in self.list.as_mut_slice() {
            if running.number == number {
                return Some(running);
            }
        }
        None
    }

    /// The number of the process at that place among those that run.
    pub fn number_at(&self, place: usize) -> Option<usize> {
        match self.list.as_slice().get(place) {
            Some(running) => Some(running.number),
            None => None,
        }
    }

    /// The process with that number runs.
    pub fn is_running(&self, number: usize) -> bool {
        for running in self.list.as_slice() {
            if running.number == number {
                return true;
            }
        }
        false
    }

    /// One that has seen a retired page.
    pub fn releasing(&self) -> Option<usize> {
        for running in self.list.as_slice() {
            if running.saw.is_some() {
                return Some(running.number);
            }
        }
        None
    }

    /// What a process has done in this turn by the event at that place, and the owner before it of the page that it names.
    /// Whether it waits in a compression.
    pub fn note(
        &mut self,
        turn: Turn,
        act: Act,
        place: usize,
        owner: Option<Owner>,
    ) -> Result<bool, Law> {
        let started = self.started;
        let Some(running) = self.of(number_of(turn)) else {
            holds(act == Act::Miss, "who has answered does nothing")?;
            return Ok(false);
        };
        if let Act::See(_) = act {
            running.started = started;
        }
        running.note(turn, act, place, owner)?;
        if matches!(act, Act::See(_) | Act::Look(_)) {
            running.looks_on();
        }
        Ok(waits(running, turn, act))
    }

    /// What the process was about to reserve was refused.
    pub fn is_refused(&mut self, number: usize) {
        if let Some(running) = self.of(number) {
            running.refused = true;
        }
    }

    /// The process with that number may still read what was retired by the event at that place.
    fn may_read(&self, number: usize, place: usize) -> bool {
        for running in self.list.as_slice() {
            if running.number == number
                && let Some(begun) = running.begun
            {
                return begun < place;
            }
        }
        false
    }

    /// A process may still read what was retired by the event at that place.
    pub fn is_read(&self, place: usize) -> bool {
        for running in self.list.as_slice() {
            if self.may_read(running.number, place) {
                return true;
            }
        }
        false
    }

    /// The event by which the page was retired that the process with that number has seen.
    fn saw_retired(&self, number: usize) -> Option<usize> {
        for running in self.list.as_slice() {
            if running.number == number
                && let Some(Owner::Retired(place)) = running.saw
            {
                return Some(place);
            }
        }
        None
    }

    /// Who looks at a process that may read its page is blocked. Whether it is.
    pub fn looks_at(&mut self, number: usize, other: usize) -> bool {
        let Some(place) = self.saw_retired(number) else {
            return false;
        };
        if !self.may_read(other, place) {
            return false;
        }
        if let Some(running) = self.of(number) {
            running.blocked = true;
        }
        true
    }

    /// A plain law, beside what is proved by kind: who latches a page holds none, or compresses and holds two at most, or takes the top
    /// level away and holds the anchor at most.
    pub fn latches(&self, number: usize, before: &[Owner]) -> Result<(), Law> {
        let held = held_by(number, before);
        for running in self.list.as_slice() {
            if running.number == number && matches!(running.job, Job::Compress(_, _)) {
                return holds(held < 3, "who compresses latches three pages");
            }
            if running.number == number && matches!(running.job, Job::Lower) {
                let anchor = before.first() == Some(&Owner::Held(number));
                return holds(held == usize::from(anchor), "who lowers holds the anchor");
            }
        }
        holds(held == 0, "who latches a page holds none")
    }

    /// A page that is held is held by a process that runs.
    pub fn holds_all(&self, owners: &[Owner]) -> Result<(), Law> {
        for owner in owners {
            if let Owner::Held(number) = owner {
                keep!(self.is_running(*number), "who holds a page runs");
            }
        }
        Ok(())
    }

    /// Those that the tree shows to be in the middle of an evening.
    pub fn evens(&mut self, tree: &Tree) {
        for running in self.list.as_mut_slice() {
            for number in tree.evening.as_slice() {
                running.evens = running.evens || running.number == *number;
            }
        }
    }

    /// What is a right answer in this tree is noted.
    pub fn look(&mut self, tree: &Tree) -> Result<(), Law> {
        for running in self.list.as_mut_slice() {
            running.look(tree)?;
        }
        Ok(())
    }

    /// The process begins in this tree.
    pub fn looks_from(&mut self, number: usize, tree: &Tree) -> Result<(), Law> {
        match self.of(number) {
            Some(running) => running.look(tree),
            None => Ok(()),
        }
    }
}
