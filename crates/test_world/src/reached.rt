//! How keys are reached through work that is half done.

use crate::worlds::{compress, delete, filled, insert, lower, posted, run, split, step, thinned};
use bl_world::Turn;
use std::alloc::Global;
use std::test::Fail;
use test_world_walks::SizedWorld;

// The keys from 9 on are in page 2, which no page lists yet.
#[test]
fn a_page_that_was_split_off_is_reached_by_a_link(rt: HostRuntime) -> Result<(), Fail> {
    let world = split(rt.alloc())?;
    assert!(rt; world.lone_walk(12) == (2, 3));
    assert!(rt; world.lone_walk(8) == (1, 2));
    Ok(())
}

// Page 2 has been put, and page 1 still says all that it said.
#[test]
fn a_split_that_is_half_done_leads_to_the_old_page(rt: HostRuntime) -> Result<(), Fail> {
    let mut world = filled(rt.alloc())?;
    step(&mut world, 15, 4)?;
    run(&mut world, &[Turn::Take(15, 2), Turn::Step(15)])?;
    assert!(rt; world.lone_walk(15) == (1, 2));
    Ok(())
}

// Page 1 has all rows before page 3 says so, and page 2 is dead after all that.
#[test]
fn walks_beside_a_merge(rt: HostRuntime) -> Result<(), Fail> {
    let mut world = thinned(rt.alloc())?;
    assert!(rt; world.lone_walk(12) == (2, 3));
    let number = compress(&mut world, 1, 9)?;
    step(&mut world, number, 9)?;
    assert!(rt; world.lone_walk(12) == (2, 3));
    step(&mut world, number, 1)?;
    assert!(rt; world.lone_walk(12) == (1, 3));
    step(&mut world, number, 1)?;
    assert!(rt; world.lone_walk(12) == (1, 3));
    Ok(())
}

// The anchor names page 1 as the top before page 3 is dead.
#[test]
fn walks_beside_a_lowering(rt: HostRuntime) -> Result<(), Fail> {
    let mut world = thinned(rt.alloc())?;
    let merge = compress(&mut world, 1, 9)?;
    step(&mut world, merge, 15)?;
    let number = lower(&mut world)?;
    step(&mut world, number, 6)?;
    assert!(rt; world.lone_walk(12) == (1, 3));
    step(&mut world, number, 1)?;
    assert!(rt; world.lone_walk(12) == (1, 2));
    step(&mut world, number, 1)?;
    assert!(rt; world.lone_walk(12) == (1, 2));
    Ok(())
}

/// Page 1 has the keys 7 and 8, and page 2 those from 9 to 22.
fn uneven(alloc: Global) -> Result<SizedWorld, Fail> {
    let mut world = posted(alloc)?;
    for key in 16..23 {
        let number = insert(&mut world, key, 10 * key)?;
        step(&mut world, number, 8)?;
    }
    for key in 1..7 {
        let number = delete(&mut world, key)?;
        step(&mut world, number, 8)?;
    }
    Ok(world)
}

// Rows move to the left: the key 9 is in both leaves until page 3 has its new bound.
#[test]
fn walks_beside_an_evening_to_the_left(rt: HostRuntime) -> Result<(), Fail> {
    let mut world = uneven(rt.alloc())?;
    let number = compress(&mut world, 1, 0)?;
    step(&mut world, number, 9)?;
    assert!(rt; world.lone_walk(9) == (2, 3));
    step(&mut world, number, 1)?;
    assert!(rt; world.lone_walk(9) == (1, 3));
    step(&mut world, number, 1)?;
    assert!(rt; world.lone_walk(9) == (1, 3));
    Ok(())
}
