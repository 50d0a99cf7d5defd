//! Two queues of hints, one for each kind.

ghost use Rattle.std.specs.Prelude.{IfOk, IfSome};
ghost use Rattle.bl_hints.specs.Kinds.{IsPost, IsThin};

use crate::kinds::{Posts, Thins};
use bl_answers::{Hint, Level};
use crossbeam_queue::RuledArrayQueue;
use std::alloc::{AllocError, Global};
use std::sync::Wait;
use std::sync::atomic::{AtomicU64, Ordering};

/// The places of each queue.
const PLACES: usize = 1024;

/// No key of a leaf whose hint waits. A hint of this key is given again each time.
const NO_KEY: u64 = u64::MAX;

/// Hints that wait for someone who follows them. Threads share it by `&`.
#[derive(Drop)]
pub struct Hints {
    posts: RuledArrayQueue<Hint, (), Posts>,
    thins: RuledArrayQueue<Hint, (), Thins>,
    // The key of the thin leaf whose hint was given last, while none was taken since.
    last: AtomicU64,
    // Not 0 where a hint was dropped.
    dropped: AtomicU64,
}

impl Hints {
    ghost use Rattle.bl_hints.specs.Places.{HasPlaces};

    /// Two queues with nothing in them.
    pub fn new(alloc: Global) -> Result<Hints, AllocError>
        ensures { IfOk result (HasPlaces 1024) }
    {
        let (posts, _) = RuledArrayQueue::ruled(alloc, PLACES)?;
        let (thins, _) = RuledArrayQueue::ruled(alloc, PLACES)?;
        Ok(Hints {
            posts,
            thins,
            last: AtomicU64::new(NO_KEY),
            dropped: AtomicU64::new(0),
        })
    }

    /// Puts the hint into the queue of its kind, unless it is one of a thin leaf that was given last and waits still. False: the queue was
    /// full, and the hint is dropped. Which of the two it was is tested, and in no clause: none can name what a queue holds that threads
    /// share.
    pub fn give<R: Wait>(&self, rt: &R, hint: Hint) -> bool {
        let given = match hint {
            Hint::Post { .. } => self.give_post(rt, hint),
            Hint::Thin { level, key } => self.give_once(rt, level, key),
        };
        if !given {
            self.dropped.store(1, Ordering::SeqCst);
        }
        given
    }

    /// Whether hints were dropped since this was last asked. What they were of is found by a walk over all pages alone.
    pub fn take_dropped(&self) -> bool {
        self.dropped.load(Ordering::SeqCst) != 0 && self.dropped.swap(0, Ordering::SeqCst) != 0
    }

    /// Takes a hint: one to list a page, where there is one, since a page that is not listed stands in the way of merges. That such a one
    /// comes first is tested, and in no clause.
    pub fn next<R: Wait>(&self, rt: &R) -> Option<Hint> {
        self.next_post(rt).or_else(|| self.next_thin(rt))
    }

    /// Whether a hint waits. It is a hint itself, of which nothing is promised: others give and take meanwhile.
    pub fn is_waiting(&self) -> bool {
        self.has_post() || self.has_thin()
    }

    /// Puts a hint to list a page into its queue.
    fn give_post<R: Wait>(&self, rt: &R, hint: Hint) -> bool
        requires { IsPost hint }
    {
        let mut pass = self.posts.pass();
        self.posts.push_as::<Posts, R>(rt, &mut pass, hint).is_ok()
    }

    /// Puts a hint of a thin page into its queue, unless it is of the leaf whose hint waits there as the last one.
    fn give_once<R: Wait>(&self, rt: &R, level: Level, key: u64) -> bool {
        let last = if level.number() == 1 { key } else { NO_KEY };
        if last != NO_KEY && self.last.load(Ordering::SeqCst) == last {
            return true;
        }
        self.last.store(last, Ordering::SeqCst);
        let given = self.give_thin(rt, Hint::Thin { level, key });
        if !given {
            self.last.store(NO_KEY, Ordering::SeqCst);
        }
        given
    }

    /// Puts a hint of a thin page behind the others.
    fn give_thin<R: Wait>(&self, rt: &R, hint: Hint) -> bool
        requires { IsThin hint }
    {
        let mut pass = self.thins.pass();
        self.thins.push_as::<Thins, R>(rt, &mut pass, hint).is_ok()
    }

    /// Whether a hint to list a page waits.
    fn has_post(&self) -> bool {
        let mut pass = self.posts.pass();
        !self.posts.is_empty_as::<Posts>(&mut pass)
    }

    /// Whether a hint of a thin page waits.
    fn has_thin(&self) -> bool {
        let mut pass = self.thins.pass();
        !self.thins.is_empty_as::<Thins>(&mut pass)
    }

    /// Takes a hint to list a page.
    fn next_post<R: Wait>(&self, rt: &R) -> Option<Hint>
        ensures { IfSome result IsPost }
    {
        let mut pass = self.posts.pass();
        self.posts.pop_as::<Posts, R>(rt, &mut pass)
    }

    /// Takes a hint of a thin page.
    fn next_thin<R: Wait>(&self, rt: &R) -> Option<Hint>
        ensures { IfSome result IsThin }
    {
        self.last.store(NO_KEY, Ordering::SeqCst);
        let mut pass = self.thins.pass();
        self.thins.pop_as::<Thins, R>(rt, &mut pass)
    }
}
