//! A round: each job has its turn, in a thread of its own.

ghost use Rattle.std.specs.Prelude.{◌≡◌, ◌≤◌, ◌↔◌, [], All, IfOk, IfErr, OnOk, OnErr, IsTrue, length, vec_len};
ghost use Rattle.std.specs.List.{AllZip};
ghost use Rattle.std.specs.Vec.{vec_capacity};
ghost use Rattle.bl_map.specs.Maps.{AreSeatsOf};
ghost use Rattle.bl_map_work.specs.Rounds.{AreDone, HasTurn, IsFresh, IsWorkFault, MakesRound, seats_of, tasks_of};

use crate::fault::WorkFault;
use crate::job::{Job, Task};
use bl_map::{Handle, Map, Seat};
use std::alloc::AllocError;
use std::sync::Wait;
use std::thread::{self, Threads};

/// A thread in a round.
#[derive(Drop)]
pub(crate) struct Worker<'a, J> {
    handle: Handle<'a>,
    task: Task<J>,
}

/// One turn of a thread.
fn take_turn<R: Wait, J: Job<R>>(rt: &R, worker: &mut Worker<'_, J>, may_grow: bool)
    ensures { HasTurn J.Does may_grow worker.old worker.new }
{
    if !worker.task.is_done {
        worker.task.is_done = worker.task.job.go_on(rt, &mut worker.handle, may_grow);
    }
}

/// Takes all seats and tasks out of their vectors, and gives a worker for each pair, in their order. The vectors keep their room.
fn seated<'a, J: Drop>(
    map: &'a Map,
    seats: &mut Vec<Seat>,
    tasks: &mut Vec<Task<J>>,
) -> Result<Vec<Worker<'a, J>>, AllocError>
    requires own { AreSeatsOf map.now seats.old.items }
    requires pairs { length tasks.old.items ≡ length seats.old.items }
    ensures fresh { IfOk result (λ workers. All (IsFresh map.now) workers.items) }
    ensures seated { IfOk result (λ workers. (seats_of workers.items ≡ seats.old.items) × (tasks_of workers.items ≡ tasks.old.items)) }
    ensures taken { IfOk result (λ workers. (seats.new.items ≡ []) × (tasks.new.items ≡ [])) }
    ensures kept { OnErr result ((seats.new.items ≡ seats.old.items) × (tasks.new.items ≡ tasks.old.items)) }
    ensures room { (vec_capacity seats.new ≡ vec_capacity seats.old) × (vec_capacity tasks.new ≡ vec_capacity tasks.old) }
{
    let mut workers = Vec::with_capacity(*seats.allocator(), seats.len())?;
    while !seats.is_empty() {
        let handle = map.handle(seats.remove(0));
        let task = tasks.remove(0);
        workers.push_reserved(Worker { handle, task });
    }
    Ok(workers)
}

/// Puts the seats and tasks of workers back, in their order.
fn give_back<J: Drop>(workers: Vec<Worker<'_, J>>, seats: &mut Vec<Seat>, tasks: &mut Vec<Task<J>>)
    requires empty { (seats.old.items ≡ []) × (tasks.old.items ≡ []) }
    requires room { (vec_len workers ≤ vec_capacity seats.old) × (vec_len workers ≤ vec_capacity tasks.old) }
    ensures { (seats.new.items ≡ seats_of workers.entry.items) × (tasks.new.items ≡ tasks_of workers.entry.items) }
{
    let mut workers = workers;
    while !workers.is_empty() {
        let worker = workers.remove(0);
        seats.push_reserved(worker.handle.into_seat());
        tasks.push_reserved(worker.task);
    }
}

/// Whether all jobs are done.
pub(crate) fn are_done<J>(tasks: &[Task<J>]) -> bool
    ensures { IsTrue result ↔ AreDone tasks.now }
{
    for task in tasks {
        if !task.is_done {
            return false;
        }
    }
    true
}

/// All have their turns at once, each in a thread of its own.
fn take_turns<R: Threads + Wait + Sync, J: Job<R> + Send>(
    rt: &R,
    workers: &mut [Worker<'_, J>],
    may_grow: bool,
)
    ensures { AllZip (HasTurn J.Does may_grow) workers.old workers.new }
{
    let threads = workers.len().max(1);
    let turn = move |_place: usize, worker: &mut Worker<'_, J>|
        ensures { HasTurn J.Does may_grow worker.old worker.new }
    { take_turn(rt, worker, may_grow) };
    thread::for_each_mut(rt, workers, threads, &turn);
}

/// A round: all jobs that are not done go on at once, each in a thread of its own.
pub(crate) fn make_round<R: Threads + Wait + Sync, J: Job<R> + Send + Drop>(
    rt: &R,
    map: &Map,
    seats: &mut Vec<Seat>,
    tasks: &mut Vec<Task<J>>,
    may_grow: bool,
) -> Result<(), WorkFault>
    requires { AreSeatsOf map.now seats.old.items }
    ensures own { AreSeatsOf map.now seats.new.items }
    ensures round { OnOk result (MakesRound J.Does may_grow map.now seats.old.items tasks.old.items seats.new.items tasks.new.items) }
    ensures kept { OnErr result ((seats.new.items ≡ seats.old.items) × (tasks.new.items ≡ tasks.old.items)) }
    ensures fault { IfErr result (IsWorkFault seats.old.items tasks.old.items) }
{
    if seats.len() != tasks.len() {
        return Err(WorkFault::Seats);
    }
    let Ok(mut workers) = seated(map, seats, tasks) else {
        return Err(WorkFault::Memory);
    };
    take_turns(rt, workers.as_mut_slice(), may_grow);
    give_back(workers, seats, tasks);
    Ok(())
}
