//! Faults, turns that are chosen, and turns that are not fit and that no script can give. Whole runs, event by event, are scripts
//! of `test_worked`.

use crate::worlds::{filled, find, opened, run, step};
use bl_world::{Act, Turn, WorldFault};
use std::alloc::Global;
use std::test::Fail;
use test_world_walks::SizedWorld;

/// There is no world of so many pages.
fn has_bad_pages(alloc: Global, pages: u32) -> bool {
    SizedWorld::open(alloc, pages).err() == Some(WorldFault::BadPages)
}

/// One of the turns is of no process.
fn is_nobodys(world: &mut SizedWorld, turns: &[Turn]) -> bool {
    world.run(turns).err() == Some(WorldFault::NoSuchProcess)
}

#[test]
fn faults_of_worlds_and_turns(rt: HostRuntime) -> Result<(), Fail> {
    assert!(rt; has_bad_pages(rt.alloc(), 3) && has_bad_pages(rt.alloc(), 65537));
    let mut world = opened(rt.alloc(), 4)?;
    let number = find(&mut world, 5)?;
    let second = is_nobodys(&mut world, &[Turn::Step(number), Turn::Step(2)]);
    assert!(rt; second && is_nobodys(&mut world, &[Turn::Refuse(0)]));
    assert!(rt; world.steps().is_empty() && world.answer(0) == None && world.answer(2) == None);
    Ok(())
}

/// What the last event was.
fn last_act(world: &SizedWorld) -> Option<Act> {
    world.steps().last().map(|event| event.act)
}

/// The turn changes no page and no owner.
fn misses(world: &mut SizedWorld, turn: Turn) -> Result<bool, Fail> {
    run(world, &[turn])?;
    Ok(last_act(world) == Some(Act::Miss))
}

/// The turns are chosen, each of the process with that number where that page is named.
fn chooses(world: &SizedWorld, chosen: &[(usize, Option<u32>, Turn)]) -> bool {
    for (number, page, turn) in chosen {
        if world.turn_of(*number, *page) != *turn {
            return false;
        }
    }
    true
}

// Not fit are a take before the process is at one, a step where it is, and a take of a page that there is not.
#[test]
fn turns_that_are_chosen_and_turns_that_are_not_fit(rt: HostRuntime) -> Result<(), Fail> {
    let mut world = filled(rt.alloc())?;
    let early = misses(&mut world, Turn::Take(15, 2))?;
    // a step, whatever page is named, until the process is to take a page
    let steps = [(15, None, Turn::Step(15)), (15, Some(5), Turn::Step(15))];
    assert!(rt; early && chooses(&world, &steps));
    step(&mut world, 15, 4)?;
    // pages 0 and 1 are in use
    let takes = [
        (15, None, Turn::Take(15, 2)),
        (15, Some(5), Turn::Take(15, 5)),
        (15, Some(1), Turn::Take(15, 1)),
    ];
    assert!(rt; chooses(&world, &takes));
    let late = misses(&mut world, Turn::Step(15))?;
    assert!(rt; late && misses(&mut world, Turn::Take(15, 8))?);
    run(&mut world, &[Turn::Take(15, 2)])?;
    // among them a process that has answered, and one that was not started
    let steps = [
        (15, None, Turn::Step(15)),
        (1, None, Turn::Step(1)),
        (99, None, Turn::Step(99)),
    ];
    assert!(rt; chooses(&world, &steps));
    Ok(())
}
