//! A world, and the same world carried out plainly.

ghost use Rattle.std.specs.Prelude.{◌≡◌};
ghost use Rattle.bl_proc_steps.specs.declared.acts.Action.TheVariants as act;
ghost use Rattle.bl_proc.specs.Processes.{next_of};

use crate::model::Model;
use crate::owners::{both, number_of};
use bl_proc::{Answer, Find, Part, Proc};
use bl_world::{Event, Owner, Turn, WorldFault};
use std::alloc::Global;
use test_world_running::Job;
use test_world_walks::{Law, Lists, SizedWorld, Tree, descends, found, holds, keep};

/// The world, and the model that takes the same turns.
#[derive(Drop)]
pub struct Twins {
    world: SizedWorld,
    model: Model,
}

/// The one event of a turn, of which it is the first at that place.
fn only_event(steps: &[Event], place: usize, turn: Turn) -> Result<Event, Law> {
    let event = found!(steps.last().copied(), "a turn is an event");
    both(
        steps.len() == place.wrapping_add(1),
        "a turn is one event",
        event.process == number_of(turn),
        "an event is of the process whose turn it is",
    )?;
    Ok(event)
}

/// A search of that key that looks at that page first.
fn find_near(key: u64, page: u32) -> Proc
    ensures { next_of result ≡ act.Begin }
{
    Proc::Find(Find::near(key, page))
}

/// A part from that key on that looks at that page first.
fn part_near(from: u64, page: u32) -> Proc
    ensures { next_of result ≡ act.Begin }
{
    Proc::Part(Part::near(from, page))
}

impl Twins {
    /// An opening world of that many pages, and its model.
    pub fn open(alloc: Global, pages: u32) -> Result<Twins, Law> {
        let model = Model::new(alloc, pages)?;
        match SizedWorld::open(alloc, pages) {
            Ok(world) => Ok(Twins { world, model }),
            Err(_) => Err("there is memory"),
        }
    }

    /// What stands on the pages, as the model has it.
    pub fn lists(&self) -> &Lists {
        &self.model.lists
    }

    /// Who owns each page, as the model has it.
    pub fn owners(&self) -> &[Owner] {
        self.model.lists.owners.as_slice()
    }

    /// How many events there were.
    pub fn events(&self) -> usize {
        self.world.steps().len()
    }

    /// What the process with that number has answered in the world.
    pub fn answer(&self, number: usize) -> Option<Answer> {
        self.world.answer(number)
    }

    /// The turn that the process with that number is to have next, with that page where it takes one.
    pub fn turn_of(&self, number: usize, page: Option<u32>) -> Turn {
        self.world.turn_of(number, page)
    }

    /// The process with that number is about to reserve something.
    pub fn is_reserving(&self, number: usize) -> bool {
        self.model.is_reserving(number)
    }

    /// Starts a process that is to begin, in the world and in its model.
    fn begin(&mut self, process: Proc, same: Proc) -> Result<usize, Law>
        requires { next_of process ≡ act.Begin }
    {
        let number = self.world.start(process).ok();
        self.model.start(same)?;
        number.ok_or("there is memory")
    }

    /// The number of the process that is to do this.
    pub fn enter(&mut self, job: Job) -> Result<usize, Law> {
        match job {
            Job::Find(key) => self.begin(Proc::find(key), Proc::find(key)),
            Job::FindNear(key, page) => self.begin(find_near(key, page), find_near(key, page)),
            Job::Insert(key, value) => self.begin(
                Proc::insert(key, value),
                Proc::insert(key, value),
            ),
            Job::InsertPost(key, value) => self.begin(
                Proc::insert_posting(key, value),
                Proc::insert_posting(key, value),
            ),
            Job::Put(key, value) => self.begin(Proc::put(key, value), Proc::put(key, value)),
            Job::PutPost(key, value) => self.begin(
                Proc::put_posting(key, value),
                Proc::put_posting(key, value),
            ),
            Job::Delete(key) => self.begin(Proc::delete(key), Proc::delete(key)),
            Job::Change(key, old, new) => self.begin(
                Proc::change(key, old, new),
                Proc::change(key, old, new),
            ),
            Job::Part(from) => self.begin(Proc::part(from), Proc::part(from)),
            Job::PartDown(from) => self.begin(Proc::part_down(from), Proc::part_down(from)),
            Job::PartNear(from, page) => self.begin(part_near(from, page), part_near(from, page)),
            Job::Post(level, key) => self.enter_post(level, key),
            Job::Compress(level, key) => self.enter_compression(level, key),
            Job::Reclaim(page) => self.enter_release(page),
            Job::Lower => self.begin(Proc::lower(), Proc::lower()),
        }
    }

    fn enter_post(&mut self, level: u32, key: u64) -> Result<usize, Law> {
        if level == 0 || level > 12 {
            return Err("a post is to a level of 1 to 12");
        }
        self.begin(Proc::post(level, key), Proc::post(level, key))
    }

    fn enter_compression(&mut self, level: u32, key: u64) -> Result<usize, Law> {
        if level == 0 || level > 12 {
            return Err("a compression is at a level of 1 to 12");
        }
        self.begin(Proc::compress(level, key), Proc::compress(level, key))
    }

    fn enter_release(&mut self, page: u32) -> Result<usize, Law> {
        self.model.start(Proc::reclaim(page))?;
        let number = self.world.reclaim(page).ok();
        number.ok_or("a page of the world is to be released")
    }

    /// Nobody has that turn.
    pub fn gives_nobody(&mut self, turn: Turn) -> Result<(), Law> {
        let events = self.world.steps().len();
        let ran = self.world.run(&[turn]);
        both(
            ran == Err(WorldFault::NoSuchProcess),
            "nobody has no turn",
            self.world.steps().len() == events,
            "a refused list does nothing",
        )
    }

    /// The one event of that turn, in the world and in its model.
    pub fn run(&mut self, turn: Turn) -> Result<Event, Law> {
        let place = self.world.steps().len();
        let ran = self.world.run(&[turn]);
        keep!(ran == Ok(()), "there is memory");
        let event = only_event(self.world.steps(), place, turn)?;
        self.models(turn, event, place)?;
        Ok(event)
    }

    /// The model takes the same turn, with the same event at that place and the same answer.
    fn models(&mut self, turn: Turn, event: Event, place: usize) -> Result<(), Law> {
        let act = self.model.turn(turn, event.process, place)?;
        keep!(act == event.act, "an event is that of the model");
        let answer = self.model.answer(event.process);
        holds(
            answer == self.world.answer(event.process),
            "an answer is that of the model",
        )
    }

    /// Who owns the page, if there is such a page.
    pub fn owner_of(&self, page: Option<u32>) -> Option<Owner> {
        let at = page?;
        self.model.lists.owners.as_slice().get(at as usize).copied()
    }

    /// From the anchor each of these keys leads to its leaf, and the greatest key too.
    pub fn all_descend(&self, tree: &Tree, keys: u64) -> Result<(), Law> {
        for key in 0..keys {
            self.descends_from(tree, key)?;
        }
        self.descends_from(tree, u64::MAX)
    }

    /// The lone walk that the world tells is the descent. Every eighth key is enough, with the greatest one.
    fn descends_from(&self, tree: &Tree, key: u64) -> Result<(), Law> {
        let walk = descends(&self.model.lists, tree, key)?;
        if key % 8 != 7 {
            return Ok(());
        }
        holds(
            self.world.lone_walk(key) == walk,
            "a lone walk is a descent",
        )
    }
}
