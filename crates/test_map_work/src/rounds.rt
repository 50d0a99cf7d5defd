//! Threads work at a map in rounds, between which it grows.

ghost use Rattle.std.specs.Prelude.{◌≡◌, IfSome};
ghost use Rattle.bl_map.specs.Handles.{IsSameHandle};
ghost use Rattle.bl_map.specs.Maps.{AreSeatsOf};

use bl_map::{Handle, KeyReply, Map, Seat};
use bl_map_work::{Job, Task, Unworked, WorkFault, work};
use std::alloc::Global;
use std::sync::Wait;
use std::thread::Threads;

/// So many rows want 1,429 leaves at least, and 2,858 at most.
const ROWS: u64 = 20_000;

/// A thread that inserts every second row.
#[derive(Drop)]
struct Filling {
    /// The key of its next row.
    next: u64,
    /// How many of its rows found no room.
    refused: u64,
    /// How many turns it has had.
    turns: u64,
}

impl<R: Wait> Job<R> for Filling {
    ghost Does = { λ may_grow before handle done after left. Unit {0} };

    fn go_on(&mut self, rt: &R, handle: &mut Handle<'_>, may_grow: bool) -> bool {
        self.turns = self.turns.saturating_add(1);
        for _row in 0..ROWS {
            if self.next >= ROWS {
                return true;
            }
            if may_grow && handle.is_short() {
                return false;
            }
            if handle.insert(rt, self.next, self.next) != KeyReply::Inserted {
                self.refused = self.refused.saturating_add(1);
            }
            self.next = self.next.saturating_add(2);
        }
        true
    }
}

/// A job that begins with that key.
fn from_key(next: u64) -> Task<Filling> {
    let job = Filling {
        next,
        refused: 0,
        turns: 0,
    };
    Task {
        job,
        is_done: false,
    }
}

/// A map of 64 pages with two seats.
fn opened(alloc: Global) -> Option<(Map, Vec<Seat>)>
    ensures { IfSome result (λ t. AreSeatsOf t.0 t.1.items) }
{
    Map::open(alloc, 64, 2).ok()
}

/// What two threads leave in a map that may grow to so many pages: its pages, its rows, and the jobs.
fn filled<R: Threads + Wait + Sync>(
    rt: &R,
    alloc: Global,
    most: u32,
    tasks: Vec<Task<Filling>>,
) -> Option<(u32, u64, Vec<Task<Filling>>)> {
    let (map, seats) = opened(alloc)?;
    let Ok((map, mut seats, tasks)) = work(rt, map, seats, tasks, most) else {
        return None;
    };
    let rows = map.handle(seats.pop()?).count(rt, 0, None);
    Some((map.pages(), rows, tasks))
}

/// Jobs of two threads, which insert all rows.
fn halves(alloc: Global) -> Option<Vec<Task<Filling>>> {
    let mut tasks = Vec::new(alloc);
    tasks.push(from_key(0)).ok()?;
    tasks.push(from_key(1)).ok()?;
    Some(tasks)
}

/// How many of them are done, and how many rows found no room.
fn summed(tasks: &[Task<Filling>]) -> (usize, u64) {
    let mut done = 0usize;
    let mut refused = 0u64;
    for task in tasks {
        done = done.saturating_add(task.is_done as usize);
        refused = refused.saturating_add(task.job.refused);
    }
    (done, refused)
}

/// The pages and rows of a map that two threads fill, how many of them are done, and how many rows found no room.
fn filled_by_two<R: Threads + Wait + Sync>(
    rt: &R,
    alloc: Global,
    most: u32,
) -> Option<(u32, u64, usize, u64)> {
    let (pages, rows, tasks) = filled(rt, alloc, most, halves(alloc)?)?;
    let (done, refused) = summed(tasks.as_slice());
    Some((pages, rows, done, refused))
}

#[test]
fn a_map_grows_by_two_between_rounds(rt: HostRuntime) {
    let seen = filled_by_two(&rt, rt.alloc(), 16_384);
    assert!(rt; seen == Some((2_048, ROWS, 2, 0)) || seen == Some((4_096, ROWS, 2, 0)));
}

#[test]
fn behind_the_most_pages_comes_one_round_more(rt: HostRuntime) {
    // 1,000 pages have room for 5,990 rows at least, and for 13,972 at most.
    let (pages, rows, done, refused) = filled_by_two(&rt, rt.alloc(), 1_000).unwrap_or((
        0, 0, 0, 0,
    ));
    assert!(rt; pages == 1_000 && done == 2);
    assert!(rt; 5_990 <= rows && rows <= 13_972);
    assert!(rt; rows.saturating_add(refused) == ROWS);
}

/// Where one of two jobs is done before: whether it rests, how many turns the other one has, and how many rows there are.
fn rested<R: Threads + Wait + Sync>(rt: &R, alloc: Global) -> Option<(bool, u64, u64)> {
    let mut tasks = Vec::new(alloc);
    tasks.push(from_key(0)).ok()?;
    let rests = Task {
        job: from_key(1).job,
        is_done: true,
    };
    tasks.push(rests).ok()?;
    let (_, rows, tasks) = filled(rt, alloc, 16_384, tasks)?;
    let [first, second] = tasks.as_slice() else {
        return None;
    };
    Some((
        second.is_done && second.job.turns == 0,
        first.job.turns,
        rows,
    ))
}

#[test]
fn a_job_that_is_done_rests(rt: HostRuntime) {
    let (rests, turns, rows) = rested(&rt, rt.alloc()).unwrap_or((false, 0, 0));
    assert!(rt; rests && turns > 1 && rows == ROWS / 2);
}

/// Why two seats do not work at three jobs.
fn fault<R: Threads + Wait + Sync>(rt: &R, alloc: Global) -> Option<WorkFault> {
    let (map, seats) = opened(alloc)?;
    let mut tasks = halves(alloc)?;
    tasks.push(from_key(2)).ok()?;
    match work(rt, map, seats, tasks, 1_024) {
        Err(Unworked::Kept(_map, _seats, _tasks, why)) => Some(why),
        Err(Unworked::Closed(_image, _tasks)) => None,
        Ok(_) => None,
    }
}

#[test]
fn each_job_wants_a_seat(rt: HostRuntime) {
    assert!(rt; fault(&rt, rt.alloc()) == Some(WorkFault::Seats));
}
