//! A deletion stands still while it holds its leaf, and another waits for that leaf. Meanwhile each kind of write that programs call is
//! answered in another leaf: an insertion that posts by itself and one that does not, a change and a deletion, by a pass, by a handle
//! of the map, and by calls that may not wait, as a seat of C writes.

ghost use Rattle.bl_index.specs.Calls.{IsPassOf};
ghost use Rattle.test_index.specs.Stopped.{IsHeld};

use crate::stops::begun::{fill, opened};
use bl_index::{Index, KeyReply, Pass};
use bl_index_rule::PassState;
use bl_index_write::{begin_write, end_write};
use bl_map::Handle;
use bl_model::KeyWrite;
use bl_proc::{Hint, Level};
use bl_store::{Glance, Hand};
use std::sync::Wait;
use std::sync::atomic::{AtomicBool, Ordering};
use std::test::Fail;
use std::thread;
use std::thread::join;

/// How often a thread lets others run before it gives up.
const YIELDS: u32 = 1_000_000;

/// How far the three threads are.
#[derive(Drop)]
struct Course {
    waits: AtomicBool,
    goes: AtomicBool,
    answered: AtomicBool,
}

impl Course {
    fn new() -> Course {
        Course {
            waits: AtomicBool::new(false),
            goes: AtomicBool::new(false),
            answered: AtomicBool::new(false),
        }
    }
}

/// Lets others run until the flag is raised, or so often. Whether it was raised.
fn is_raised(flag: &AtomicBool) -> bool {
    for _ in 0..YIELDS {
        if flag.load(Ordering::SeqCst) {
            return true;
        }
        thread::yield_now();
    }
    false
}

/// A deletion of key 2 begins, and holds its leaf.
fn hold<R: Wait>(rt: &R, index: &Index, pass: Pass) -> (Hand<PassState>, u32, Glance)
    requires { IsPassOf index.now pass }
    ensures { IsHeld index.now result.0 2 result.1 result.2 }
{
    let mut hand = pass.into_hand();
    let (at, glance) = begin_write(index.tree(), rt, &mut hand, 2, KeyWrite::Delete);
    (hand, at, glance)
}

/// It goes on once all other writes were answered, which it waits for after the other deletion has waited for long; or at its limit. Whether
/// they were answered, and what the deletion answers.
fn go_on(
    index: &Index,
    hand: Hand<PassState>,
    at: u32,
    glance: Glance,
    course: &Course,
) -> (bool, KeyReply, Option<Hint>)
    requires { IsHeld index.now hand 2 at glance }
{
    let mut hand = hand;
    let waits = is_raised(&course.waits);
    for _ in 0..YIELDS {
        thread::yield_now();
    }
    course.goes.store(true, Ordering::SeqCst);
    let answered = is_raised(&course.answered);
    let (reply, hint) = end_write(index.tree(), &mut hand, at, 2, KeyWrite::Delete, glance);
    (waits && answered, reply, hint)
}

/// A handle deletes key 1, for which it waits. What is left to do then comes back.
fn wait<R: Wait>(rt: &R, index: &Index, pass: Pass, course: &Course) -> (KeyReply, Option<Hint>)
    requires { IsPassOf index.now pass }
{
    let mut handle = Handle::over(index, pass);
    course.waits.store(true, Ordering::SeqCst);
    handle.write_leaving(rt, 1, KeyWrite::Delete)
}

/// Whether each write of a pass by itself is answered as it should be: keys 16 and 17 are inserted, and 9 is changed. They are in another
/// leaf than the one that is held.
fn writes_by_pass<R: Wait>(rt: &R, index: &Index, pass: &mut Pass) -> bool
    requires { IsPassOf index.now pass.old }
    ensures { IsPassOf index.now pass.new }
{
    let inserted = index.insert(rt, pass, 16, 160);
    let (posting, posted, left) = index.insert_posting(rt, pass, 17, 170);
    let changed = index.change(rt, pass, 9, 90, 91);
    inserted == (KeyReply::Inserted, None)
        && posting == KeyReply::Inserted
        && posted.is_none()
        && left.is_none()
        && changed == KeyReply::Changed
}

/// The same of a handle, by which programs write: key 18 is inserted, changed and deleted. The pass comes back.
fn writes_by_handle<R: Wait>(rt: &R, index: &Index, pass: Pass) -> (bool, Pass)
    requires { IsPassOf index.now pass }
    ensures { IsPassOf index.now result.1 }
{
    let mut handle = Handle::over(index, pass);
    let inserted = handle.insert(rt, 18, 180);
    let changed = handle.change(rt, 18, 180, 181);
    let deleted = handle.delete(rt, 18);
    let are_right = inserted == KeyReply::Inserted
        && changed == KeyReply::Changed
        && deleted == KeyReply::Deleted(181);
    (are_right, handle.into_seat())
}

/// The same writes of key 19 by calls that may not wait, as a seat of C makes them.
fn writes_at_once(index: &Index, pass: &mut Pass) -> bool
    requires { IsPassOf index.now pass.old }
{
    let inserted = index.try_write(pass, 19, KeyWrite::Insert(190), 8);
    let changed = index.try_write(pass, 19, KeyWrite::Change(190, 191), 8);
    let deleted = index.try_write(pass, 19, KeyWrite::Delete, 8);
    inserted == Some((KeyReply::Inserted, None))
        && changed == Some((KeyReply::Changed, None))
        && deleted == Some((KeyReply::Deleted(191), None))
}

/// All of them, once they may.
fn write_elsewhere<R: Wait>(rt: &R, index: &Index, pass: Pass, course: &Course) -> bool
    requires { IsPassOf index.now pass }
{
    let mut pass = pass;
    for _ in rt.forever() {
        if course.goes.load(Ordering::SeqCst) {
            let by_pass = writes_by_pass(rt, index, &mut pass);
            let (by_handle, mut pass) = writes_by_handle(rt, index, pass);
            let at_once = writes_at_once(index, &mut pass);
            course.answered.store(true, Ordering::SeqCst);
            return by_pass && by_handle && at_once;
        }
        thread::yield_now();
    }
    unreachable!()
}

// One lock round all writers, in the index or in the map, would let these writes wait for the deletion that waits.
#[test]
fn a_writer_goes_on_beside_one_that_waits(rt: HostRuntime) -> Result<(), Fail> {
    let (index, mut first, second, third) = opened(rt.alloc()).ok_or("no index")?;
    assert!(rt; fill(&rt, &index, &mut first));
    let course = Course::new();
    let (hand, at, glance) = hold(&rt, &index, first);
    let ((goes_on, reply, hint), (waited, are_written)) = join(
        &rt,
        || -> (bool, KeyReply, Option<Hint>)
            requires { IsHeld index hand 2 at glance }
        { go_on(&index, hand, at, glance, &course) },
        || -> ((KeyReply, Option<Hint>), bool)
            requires { (IsPassOf index second) × (IsPassOf index third) }
        {
            join(
                &rt,
                || -> (KeyReply, Option<Hint>)
                    requires { IsPassOf index second }
                { wait(&rt, &index, second, &course) },
                || -> bool
                    requires { IsPassOf index third }
                { write_elsewhere(&rt, &index, third, &course) },
            )
        },
    );
    assert!(rt; goes_on);
    assert!(rt; are_written);
    assert!(rt; reply == KeyReply::Deleted(20) && hint.is_none());
    let thin = Hint::Thin {
        level: Level::new(1),
        key: 0,
    };
    assert!(rt; waited == (KeyReply::Deleted(10), Some(thin)));
    Ok(())
}
