//! Compressors rest where there is nothing to do, and are woken.

ghost use Rattle.bl_map.specs.Handles.{IsSameHandle, HasKeptUp};

use crate::compressing::follow_hint;
use bl_hints::Hints;
use bl_map::Handle;
use std::sync::Wait;
use std::sync::atomic::{AtomicU64, Ordering};

/// How many workers of the chunk are at work, how many compressors rest, and a bell that wakes these.
#[derive(Drop)]
pub struct Wakeup {
    working: AtomicU64,
    resting: AtomicU64,
    bell: AtomicU64,
}

impl Wakeup {
    /// So many workers are at work, and nobody rests.
    pub fn new(workers: u64) -> Wakeup {
        Wakeup {
            working: AtomicU64::new(workers),
            resting: AtomicU64::new(0),
            bell: AtomicU64::new(0),
        }
    }

    /// Wakes the compressors that rest.
    fn ring(&self) {
        self.bell.fetch_add(1, Ordering::SeqCst);
        self.bell.wake_all();
    }

    /// Rings where a hint waits and a compressor rests: a bell costs a call of the system.
    pub(crate) fn ring_for_hints(&self, hints: &Hints) {
        if self.resting.load(Ordering::SeqCst) > 0 && hints.is_waiting() {
            self.ring();
        }
    }

    /// Sleeps until the bell rings again, unless there was something to do or a hint waits. Who gives a hint behind that look finds
    /// that somebody rests.
    fn rest<R: Wait>(&self, rt: &R, hints: &Hints, rung: u64, busy: bool) {
        if busy {
            return;
        }
        self.resting.fetch_add(1, Ordering::SeqCst);
        if !hints.is_waiting() {
            self.bell.park(rt, (rung & 0xffff_ffff) as u32);
        }
        self.resting.fetch_sub(1, Ordering::SeqCst);
    }

    /// Waits until all workers have ended.
    pub(crate) fn wait_for_workers<R: Wait>(&self, rt: &R) {
        for _ in rt.forever() {
            let rung = self.bell.load(Ordering::SeqCst);
            if self.working.load(Ordering::SeqCst) == 0 {
                return;
            }
            self.bell.park(rt, (rung & 0xffff_ffff) as u32);
        }
        unreachable!()
    }

    /// A worker has ended.
    pub(crate) fn worker_done(&self) {
        self.working.fetch_sub(1, Ordering::SeqCst);
        self.ring();
    }
}

/// Puts the index in order where hints were dropped: who follows hints alone never comes to those pages again.
fn tidy_if_dropped<R: Wait>(rt: &R, hints: &Hints, handle: &mut Handle<'_>)
    ensures same { IsSameHandle handle.old handle.new }
    ensures kept { HasKeptUp handle.old handle.new }
{
    if hints.take_dropped() {
        handle.tidy(rt);
    }
}

/// Follows hints until the workers have ended and none waits.
fn follow_all<R: Wait>(rt: &R, hints: &Hints, wakeup: &Wakeup, handle: &mut Handle<'_>)
    ensures same { IsSameHandle handle.old handle.new }
    ensures kept { HasKeptUp handle.old handle.new }
{
    for _ in rt.forever() {
        let rung = wakeup.bell.load(Ordering::SeqCst);
        let over = wakeup.working.load(Ordering::SeqCst) == 0;
        let followed = follow_hint(rt, hints, handle);
        if over && !followed {
            return;
        }
        wakeup.rest(rt, hints, rung, followed || over);
    }
    unreachable!()
}

/// Follows hints until the workers have ended and none waits. Where some were dropped it looks for what they were of.
pub(crate) fn follow_hints<R: Wait>(rt: &R, hints: &Hints, wakeup: &Wakeup, handle: &mut Handle<'_>)
    ensures same { IsSameHandle handle.old handle.new }
    ensures kept { HasKeptUp handle.old handle.new }
{
    follow_all(rt, hints, wakeup, handle);
    tidy_if_dropped(rt, hints, handle);
}
