//! Rounds, and growth between them.

ghost use Rattle.std.specs.Prelude.{◌≡◌, IfOk, IfErr};
ghost use Rattle.bl_map.specs.Maps.{AreSeatsOf};
ghost use Rattle.bl_map_work.specs.Rounds.{EndsGrowing, IsUnworked, IsWorked, KeepsLives, larger};

use crate::fault::Unworked;
use crate::job::{Job, Task};
use crate::rounds::{are_done, make_round};
use bl_map::{Map, Seat, UnresizedMap};
use std::sync::Wait;
use std::thread::Threads;

/// Twice as many pages, as far as there may be so many.
fn larger(pages: u32, most: u32) -> u32
    ensures { result ≡ larger pages most }
{
    if pages <= most / 2 { pages * 2 } else { most }
}

/// Makes rounds, with growth between them, until all jobs are done behind one, or the map has grown as far as it may. Says whether they
/// are done.
fn grow_by_rounds<R: Threads + Wait + Sync, J: Job<R> + Send + Drop>(
    rt: &R,
    map: Map,
    seats: Vec<Seat>,
    tasks: Vec<Task<J>>,
    most: u32,
) -> Result<(Map, Vec<Seat>, Vec<Task<J>>, bool), Unworked<J>>
    requires { AreSeatsOf map seats.items }
    ensures own { IfOk result (λ t. AreSeatsOf t.0 t.1.items) }
    ensures grown { IfOk result (λ t. EndsGrowing J.Does most map seats.items tasks.items t.3 t.0 t.1.items t.2.items) }
    ensures fault { IfErr result (IsUnworked J.Does most map seats.items tasks.items) }
{
    let alloc = *seats.allocator();
    let (mut map, mut seats, mut tasks) = (map, seats, tasks);
    for _round in rt.forever() {
        let pages = map.pages();
        if most <= pages {
            return Ok((map, seats, tasks, false));
        }
        if let Err(why) = make_round(rt, &map, &mut seats, &mut tasks, true) {
            return Err(Unworked::Kept(map, seats, tasks, why));
        }
        if are_done(tasks.as_slice()) {
            return Ok((map, seats, tasks, true));
        }
        match map.resize(alloc, seats, larger(pages, most)) {
            Ok((grown, anew)) => {
                map = grown;
                seats = anew;
            }
            Err(UnresizedMap::Kept(back, seats_back, _)) => {
                return Ok((back, seats_back, tasks, false));
            }
            Err(UnresizedMap::Closed(image)) => return Err(Unworked::Closed(image, tasks)),
        }
    }
    unreachable!()
}

/// Works at jobs, each in a thread of its own with a seat of this map, in rounds: where a job is not done behind one, the map goes on
/// with twice as many pages, up to the most, and all go on that are not done. So a job ends its turn where its handle is short of room.
/// Behind the last growth that there may be, or that there is memory for, comes one round more, which is the last.
pub fn work<R: Threads + Wait + Sync, J: Job<R> + Send + Drop>(
    rt: &R,
    map: Map,
    seats: Vec<Seat>,
    tasks: Vec<Task<J>>,
    most: u32,
) -> Result<(Map, Vec<Seat>, Vec<Task<J>>), Unworked<J>>
    requires own { AreSeatsOf map seats.items }
    ensures seats { IfOk result (λ t. AreSeatsOf t.0 t.1.items) }
    ensures worked { IfOk result (λ t. IsWorked J.Does most map seats.items tasks.items t.0 t.1.items t.2.items) }
    ensures lives { IfOk result (λ t. KeepsLives map t.0) }
    ensures fault { IfErr result (IsUnworked J.Does most map seats.items tasks.items) }
{
    let (map, mut seats, mut tasks, is_worked) = grow_by_rounds(rt, map, seats, tasks, most)?;
    if is_worked {
        return Ok((map, seats, tasks));
    }
    match make_round(rt, &map, &mut seats, &mut tasks, false) {
        Ok(()) => Ok((map, seats, tasks)),
        Err(why) => Err(Unworked::Kept(map, seats, tasks, why)),
    }
}
