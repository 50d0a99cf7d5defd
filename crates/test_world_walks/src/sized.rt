//! Worlds whose number of pages is known.

ghost use Rattle.std.specs.Prelude.{◌≡◌, length};
ghost use Rattle.bl_proc_steps.specs.declared.acts.Action.TheVariants as act;
ghost use Rattle.bl_proc.specs.Processes.{next_of};

use bl_proc::{Answer, Proc};
use bl_world::{Event, Turn, World, WorldFault};
use std::alloc::Global;

/// A world, and how many pages it has, so that a test may have one of them released.
#[derive(Drop)]
pub struct SizedWorld {
    world: World,
    pages: u32,
    ghost size: { length world.pages ≡ pages },
}

impl SizedWorld {
    pub fn open(alloc: Global, pages: u32) -> Result<SizedWorld, WorldFault> {
        let world = World::open(alloc, pages)?;
        Ok(SizedWorld { world, pages })
    }

    /// Adds a process that is to begin.
    pub fn start(&mut self, process: Proc) -> Result<usize, WorldFault>
        requires { next_of process ≡ act.Begin }
    {
        self.world.start(process)
    }

    /// Adds a process that is to release the page. Of no other world's pages: then it says `BadPages`.
    pub fn reclaim(&mut self, page: u32) -> Result<usize, WorldFault> {
        if page >= self.pages {
            return Err(WorldFault::BadPages);
        }
        self.world.start(Proc::reclaim(page))
    }

    pub fn run(&mut self, turns: &[Turn]) -> Result<(), WorldFault> {
        self.world.run(turns)
    }

    pub fn turn_of(&self, number: usize, page: Option<u32>) -> Turn {
        self.world.turn_of(number, page)
    }

    pub fn steps(&self) -> &[Event] {
        self.world.steps()
    }

    pub fn lone_walk(&self, key: u64) -> (u32, u32) {
        self.world.lone_walk(key)
    }

    pub fn answer(&self, number: usize) -> Option<Answer> {
        self.world.answer(number)
    }
}
