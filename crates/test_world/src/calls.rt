//! Each public call of a world once.

use bl_model::Reply;
use bl_proc::{Answer, Proc};
use bl_world::{Act, Event, Turn, World, WorldFault};
use std::test::Fail;

/// Seven turns of the process, each of which is a step.
fn steps_on(world: &mut World, number: usize) -> bool {
    for _ in 0..7 {
        let turn = world.turn_of(number, None);
        if turn != Turn::Step(number) || world.run(&[turn]).is_err() {
            return false;
        }
    }
    true
}

/// The events of an insertion that is alone.
fn events_of_an_insertion() -> [Event; 7] {
    [
        event(1, Act::Begin),
        event(1, Act::Get(0)),
        event(1, Act::Latch(1)),
        event(1, Act::Get(1)),
        event(1, Act::Put(1)),
        event(1, Act::Open(1)),
        event(1, Act::End),
    ]
}

// An insertion alone, up to its answer.
#[test]
fn each_call_once(rt: HostRuntime) -> Result<(), Fail> {
    assert!(rt; World::open(rt.alloc(), 3).err() == Some(WorldFault::BadPages));
    let mut world = World::open(rt.alloc(), 4).ok().ok_or("no world")?;
    let number = world.start(Proc::insert(5, 50)).ok().ok_or("not started")?;
    assert!(rt; number == 1 && world.answer(number).is_none() && steps_on(&mut world, number));
    assert!(rt; world.answer(number) == Some(Answer::Op(Reply::Inserted, None)));
    assert!(rt; world.steps() == events_of_an_insertion().as_slice());
    Ok(())
}

// Two insertions into one leaf: the one that holds it may go on, then the other one, then none.
#[test]
fn who_holds_the_leaf_may_go_on(rt: HostRuntime) -> Result<(), Fail> {
    let mut world = World::open(rt.alloc(), 4).ok().ok_or("no world")?;
    assert!(rt; world.ready().is_none());
    let first = world.start(Proc::insert(5, 50)).ok().ok_or("not started")?;
    let second = world.start(Proc::insert(6, 60)).ok().ok_or("not started")?;
    let (one, two) = (Turn::Step(first), Turn::Step(second));
    assert!(rt; world.run(&[two, two, one, one, one]).is_ok() && world.ready() == Some(first));
    assert!(rt; world.run(&[two, one, one, one, one]).is_ok() && world.ready() == Some(second));
    assert!(rt; world.run(&[two, two, two, two, two, two]).is_ok() && world.ready().is_none());
    Ok(())
}

// A world that is left to itself while the first of two insertions holds the leaf: it gets, puts and opens the leaf in three turns. One
// turn more ends it, and the second one latches, gets, puts and opens the leaf and ends in five.
#[test]
fn a_world_left_to_itself_comes_to_rest(rt: HostRuntime) -> Result<(), Fail> {
    let mut world = World::open(rt.alloc(), 4).ok().ok_or("no world")?;
    let first = world.start(Proc::insert(5, 50)).ok().ok_or("not started")?;
    let second = world.start(Proc::insert(6, 60)).ok().ok_or("not started")?;
    let (one, two) = (Turn::Step(first), Turn::Step(second));
    assert!(rt; world.run(&[one, two, one, two, one]).is_ok());
    assert!(rt; world.settle(3) == Ok(3) && world.answer(first).is_none());
    assert!(rt; world.settle(100) == Ok(6) && world.answer(second).is_some());
    assert!(rt; world.settle(100) == Ok(0) && world.ready().is_none());
    Ok(())
}

fn event(process: usize, act: Act) -> Event {
    Event { process, act }
}
