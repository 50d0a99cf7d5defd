//! Worlds of a few processes, and what these have done.

use bl_proc::Proc;
use bl_world::Turn;
use std::alloc::Global;
use std::test::Fail;
use test_world_walks::SizedWorld;

pub(crate) fn opened(alloc: Global, pages: u32) -> Result<SizedWorld, Fail> {
    Ok(SizedWorld::open(alloc, pages).ok().ok_or("no world")?)
}

pub(crate) fn find(world: &mut SizedWorld, key: u64) -> Result<usize, Fail> {
    Ok(world.start(Proc::find(key)).ok().ok_or("not started")?)
}

pub(crate) fn insert(world: &mut SizedWorld, key: u64, value: u64) -> Result<usize, Fail> {
    Ok(
        world
            .start(Proc::insert(key, value))
            .ok()
            .ok_or("not started")?,
    )
}

pub(crate) fn delete(world: &mut SizedWorld, key: u64) -> Result<usize, Fail> {
    Ok(world.start(Proc::delete(key)).ok().ok_or("not started")?)
}

pub(crate) fn post(world: &mut SizedWorld, level: u32, key: u64) -> Result<usize, Fail> {
    if level == 0 || level > 12 {
        return Err("no such level")?;
    }
    Ok(
        world
            .start(Proc::post(level, key))
            .ok()
            .ok_or("not started")?,
    )
}

pub(crate) fn compress(world: &mut SizedWorld, level: u32, key: u64) -> Result<usize, Fail> {
    if level == 0 || level > 12 {
        return Err("no such level")?;
    }
    Ok(
        world
            .start(Proc::compress(level, key))
            .ok()
            .ok_or("not started")?,
    )
}

pub(crate) fn lower(world: &mut SizedWorld) -> Result<usize, Fail> {
    Ok(world.start(Proc::lower()).ok().ok_or("not started")?)
}

pub(crate) fn run(world: &mut SizedWorld, turns: &[Turn]) -> Result<(), Fail> {
    Ok(world.run(turns).ok().ok_or("not run")?)
}

/// That many steps of the process.
pub(crate) fn step(world: &mut SizedWorld, number: usize, count: usize) -> Result<(), Fail> {
    for _ in 0..count {
        run(world, &[Turn::Step(number)])?;
    }
    Ok(())
}

/// Eight pages with the keys 1 to 14 in page 1, inserted by the processes 1 to 14, each of them alone; and the insertion of
/// the key 15, which is to begin. Values are ten times the key.
pub(crate) fn filled(alloc: Global) -> Result<SizedWorld, Fail> {
    let mut world = opened(alloc, 8)?;
    for key in 1..15 {
        let number = insert(&mut world, key, 10 * key)?;
        step(&mut world, number, 7)?;
    }
    insert(&mut world, 15, 150)?;
    Ok(world)
}

/// The same world after the split.
pub(crate) fn split(alloc: Global) -> Result<SizedWorld, Fail> {
    let mut world = filled(alloc)?;
    step(&mut world, 15, 4)?;
    run(&mut world, &[Turn::Take(15, 2)])?;
    step(&mut world, 15, 5)?;
    Ok(world)
}

/// The same world after the post of the key 9, which is process 16.
pub(crate) fn posted(alloc: Global) -> Result<SizedWorld, Fail> {
    let mut world = split(alloc)?;
    let number = post(&mut world, 1, 9)?;
    step(&mut world, number, 4)?;
    run(&mut world, &[Turn::Take(number, 3)])?;
    step(&mut world, number, 12)?;
    Ok(world)
}

/// The same world after the deletion of the key 9, which is process 17: page 2 has six rows.
pub(crate) fn thinned(alloc: Global) -> Result<SizedWorld, Fail> {
    let mut world = posted(alloc)?;
    let number = delete(&mut world, 9)?;
    step(&mut world, number, 8)?;
    Ok(world)
}
