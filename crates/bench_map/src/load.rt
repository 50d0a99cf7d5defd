//! A load on a map that may be a large one, for `bench/large` and `bench/groups`: so many threads insert so many rows, search for them one by
//! one and many at a time, list them, and then mix searches, insertions and deletions, of which each call is timed. With GROUP it
//! only inserts that many rows at a time and looks up as many. It prints for each part how many calls were made, how many
//! of them were answered as they should be, the microseconds of all together, and last the nanoseconds of the longest call of the mix.
//!
//! `index ROWS THREADS FINDS MIXED SCANS`, for `bench/peers` and `checks/crowding`, measures nothing: each thread makes so many calls, and one line
//! says how many were answered as they should be, and how many rows were listed. MIXED are searches, and deletions of rows that are inserted again.

ghost use Rattle.bl_map.specs.Maps.{AreSeatsOf};

use bl_map::{Handle, KeyReply, Map, Seat};
use std::alloc::Global;
use std::io::Print;
use std::sync::Wait;
use std::sync::atomic::{AtomicU64, Ordering};
use std::thread;
use std::thread::Threads;
use std::time::{Clock, Instant};

/// So many threads at most: a map has no more seats.
const MOST_THREADS: usize = 64;

/// So many pages has the map on which calls are counted.
const PAGES: u32 = 65_536;

/// So many keys are looked up at a time, where no other number is named.
const GROUP: usize = 64;

/// So many at most.
const MOST_KEYS: usize = 1_000;

/// So many rows a scan lists, about.
const WIDTH: u64 = 100;

/// How large the map is, and what its threads do.
#[derive(Clone, Copy)]
struct Load {
    pages: u32,
    rows: u64,
    threads: u32,
    plan: Plan,
    // Whether the keys rise, or look random.
    rising: bool,
    // So many keys are looked up at a time.
    group: usize,
    // Whether so many rows are inserted at a time too, and no more is done than that.
    grouped: bool,
}

/// What is done with the map.
#[derive(Clone, Copy)]
enum Plan {
    /// So many calls in each part, of all threads together.
    Timed(u64),
    /// So many searches, turns and scans of each thread.
    Counted(u64, u64, u64),
}

/// A part of a load, with the number of calls that each thread makes.
#[derive(Clone, Copy)]
enum Part {
    /// All rows are inserted.
    Rows,
    Finds(u64),
    Groups(u64),
    Scans(u64),
    /// Calls that are drawn, of which each is timed.
    Mixed(u64),
    /// Of four calls two search for a row, one deletes one, and one inserts that again.
    Turns(u64),
}

/// The numbers that so many words are.
fn numbers_in<const N: usize>(words: &[String]) -> Option<[u64; N]> {
    if words.len() != N {
        return None;
    }
    let mut numbers = [0; N];
    for place in 0..N {
        numbers[place] = words[place].parse::<u64>().ok()?;
    }
    Some(numbers)
}

impl Load {
    fn read(words: &[String]) -> Option<Load> {
        let [pages, rows, threads, calls] = numbers_in::<4>(words.get(..4)?)?;
        let (order, group) = match words.get(4..)? {
            [order] => (order, None),
            [order, group] => (order, Some(group.parse::<usize>().ok()?)),
            _ => return None,
        };
        Some(Load {
            pages: u32::try_from(pages).ok()?,
            rows,
            threads: u32::try_from(threads).ok()?,
            plan: Plan::Timed(calls),
            rising: order.as_str() == "rising",
            group: group.unwrap_or(GROUP).clamp(1, MOST_KEYS),
            grouped: group.is_some(),
        })
    }

    // The same of calls that are counted.
    fn read_counted(words: &[String]) -> Option<Load> {
        let [rows, threads, finds, turns, scans] = numbers_in::<5>(words.get(1..)?)?;
        Some(Load {
            pages: PAGES,
            rows,
            threads: u32::try_from(threads).ok()?,
            plan: Plan::Counted(finds, turns, scans),
            rising: false,
            group: GROUP,
            grouped: false,
        })
    }

    // The key of a row.
    fn key(self, row: u64) -> u64 {
        if self.rising { row } else { scattered(row) }
    }

    // The number of a thread's row: each takes every so many-th.
    fn own(self, turn: u64, place: u64) -> u64 {
        turn.wrapping_mul(u64::from(self.threads))
            .wrapping_add(place)
    }

    // How many of so many calls each thread makes.
    fn share(self, calls: u64) -> u64 {
        calls.checked_div(u64::from(self.threads)).unwrap_or(0)
    }

    // The number of one of the rows, or of as many more that were not inserted.
    fn row(self, drawn: u64, more: u64) -> u64 {
        (drawn >> 8)
            .checked_rem(self.rows.saturating_mul(more))
            .unwrap_or(0)
    }

    // How far the ends of a scan of about 100 rows are apart.
    fn width(self) -> u64 {
        if self.rising {
            return WIDTH;
        }
        (u64::MAX / WIDTH)
            .checked_div(self.rows / WIDTH + 1)
            .unwrap_or(0)
            .saturating_mul(WIDTH)
    }
}

/// A number that looks random, another one for each.
fn scattered(number: u64) -> u64 {
    let first = number.wrapping_add(1).wrapping_mul(0x9e37_79b9_7f4a_7c15);
    let second = (first ^ (first >> 30)).wrapping_mul(0xbf58_476d_1ce4_e5b9);
    let third = (second ^ (second >> 27)).wrapping_mul(0x94d0_49bb_1331_11eb);
    third ^ (third >> 31)
}

/// Inserts the rows of a thread one by one. Says how many were new.
fn fill<R: Wait>(rt: &R, handle: &mut Handle<'_>, place: u64, load: Load) -> u64 {
    let mut done = 0u64;
    for row in (place..load.rows).step_by(load.threads.max(1) as usize) {
        if handle.insert(rt, load.key(row), row) == KeyReply::Inserted {
            done = done.wrapping_add(1);
        }
    }
    done
}

/// Inserts them many at a time. Says how many were new.
fn fill_groups<R: Wait>(rt: &R, handle: &mut Handle<'_>, place: u64, load: Load) -> u64 {
    let mut done = 0u64;
    let mut rows = [(0u64, 0u64); MOST_KEYS];
    let mut replies = [KeyReply::Absent; MOST_KEYS];
    let share = load.share(load.rows);
    for group in (0..share).step_by(load.group.max(1)) {
        let count = load.group.min((share - group) as usize).min(MOST_KEYS);
        for (turn, row) in rows[..count].iter_mut().enumerate() {
            let number = load.own(group.wrapping_add(turn as u64), place);
            *row = (load.key(number), number);
        }
        handle.insert_many(rt, &rows[..count], &mut replies[..count]);
        done = done.wrapping_add(inserted_in(&replies[..count]));
    }
    done
}

/// How many replies are those of rows that were new.
fn inserted_in(replies: &[KeyReply]) -> u64 {
    replies
        .iter()
        .filter(|reply| matches!(reply, KeyReply::Inserted))
        .count() as u64
}

/// Searches for rows that were inserted. Says how many were found.
fn search<R: Wait>(rt: &R, handle: &mut Handle<'_>, place: u64, load: Load, calls: u64) -> u64 {
    let mut done = 0u64;
    let mut seed = scattered(place);
    for _call in 0..calls {
        seed = scattered(seed);
        if let KeyReply::Found(_) = handle.find(rt, load.key(load.row(seed, 1))) {
            done = done.wrapping_add(1);
        }
    }
    done
}

/// Searches for rows that were inserted, many at a time. Says how many were found.
fn search_groups<R: Wait>(
    rt: &R,
    handle: &mut Handle<'_>,
    place: u64,
    load: Load,
    calls: u64,
) -> u64 {
    let mut done = 0u64;
    let mut seed = scattered(place);
    let mut keys = [0u64; MOST_KEYS];
    let mut replies = [KeyReply::Absent; MOST_KEYS];
    let count = load.group.clamp(1, MOST_KEYS);
    for _group in 0..calls / count as u64 {
        for key in keys[..count].iter_mut() {
            seed = scattered(seed);
            *key = load.key(load.row(seed, 1));
        }
        handle.find_many(rt, &keys[..count], &mut replies[..count]);
        done = done.wrapping_add(found_in(&replies[..count]));
    }
    done
}

/// How many replies are those of keys that were found.
fn found_in(replies: &[KeyReply]) -> u64 {
    replies
        .iter()
        .filter(|reply| matches!(reply, KeyReply::Found(_)))
        .count() as u64
}

/// Lists rows from some that were inserted on. Says how many were listed.
fn scan<R: Wait>(
    rt: &R,
    alloc: Global,
    handle: &mut Handle<'_>,
    place: u64,
    load: Load,
    calls: u64,
) -> u64 {
    let mut rows = Vec::new(alloc);
    let mut done = 0u64;
    let mut seed = scattered(place);
    for _call in 0..calls {
        seed = scattered(seed);
        let from = load.key(load.row(seed, 1));
        let end = Some(from.saturating_add(load.width()));
        rows.clear();
        if handle.scan(rt, from, end, &mut rows).is_ok() {
            done = done.wrapping_add(rows.len() as u64);
        }
    }
    done
}

/// One call of a mix: of four, two search, one inserts and one deletes. Half of the rows were inserted before. Says whether there was room.
fn call<R: Wait>(rt: &R, handle: &mut Handle<'_>, load: Load, drawn: u64) -> bool {
    let row = load.row(drawn, 2);
    let key = load.key(row);
    let reply = match drawn % 4 {
        0 => handle.insert(rt, key, row),
        1 => handle.delete(rt, key),
        _ => handle.find(rt, key),
    };
    reply != KeyReply::NoRoom
}

/// Mixes calls. Says how many found room, and how many nanoseconds the longest took, as far as the clock tells.
fn mixed<R: Wait + Clock>(
    rt: &R,
    handle: &mut Handle<'_>,
    place: u64,
    load: Load,
    calls: u64,
) -> (u64, u64) {
    let mut done = 0u64;
    let mut longest = 0u64;
    let mut seed = scattered(place);
    for _call in 0..calls {
        seed = scattered(seed);
        let start = Instant::now(rt).ok();
        if call(rt, handle, load, seed) {
            done = done.wrapping_add(1);
        }
        longest = longest.max(nanos_since(rt, start));
    }
    (done, longest)
}

/// The nanoseconds since that time.
fn nanos_since<R: Clock>(rt: &R, start: Option<Instant>) -> u64 {
    let Some(start) = start else {
        return 0;
    };
    match start.elapsed(rt) {
        Ok(passed) => u64::try_from(passed.as_nanos()).unwrap_or(u64::MAX),
        Err(_) => 0,
    }
}

/// Searches, and after every two searches deletes a row and inserts it again. Says how many calls found room.
fn turn<R: Wait>(rt: &R, handle: &mut Handle<'_>, place: u64, load: Load, calls: u64) -> u64 {
    let mut done = 0u64;
    let mut seed = scattered(place);
    for call in 0..calls {
        if call % 4 != 3 {
            seed = scattered(seed);
        }
        let row = load.row(seed, 1);
        let reply = match call % 4 {
            2 => handle.delete(rt, load.key(row)),
            3 => handle.insert(rt, load.key(row), row),
            _ => handle.find(rt, load.key(row)),
        };
        if reply != KeyReply::NoRoom {
            done = done.wrapping_add(1);
        }
    }
    done
}

/// Does a part with all handles. Says how many calls were answered as they should be, and how long the longest took, of a mix.
fn run<R: Threads + Wait + Clock + Sync>(
    rt: &R,
    alloc: Global,
    handles: &mut [Handle<'_>],
    load: Load,
    part: Part,
) -> (u64, u64) {
    let done = AtomicU64::new(0);
    let longest = AtomicU64::new(0);
    thread::for_each_mut(
        rt,
        handles,
        MOST_THREADS,
        &|place, handle| {
            let place = place as u64;
            let (mine, most) = match part {
                Part::Rows if load.grouped => (fill_groups(rt, handle, place, load), 0),
                Part::Rows => (fill(rt, handle, place, load), 0),
                Part::Finds(calls) => (search(rt, handle, place, load, calls), 0),
                Part::Groups(calls) => (search_groups(rt, handle, place, load, calls), 0),
                Part::Scans(calls) => (scan(rt, alloc, handle, place, load, calls), 0),
                Part::Mixed(calls) => mixed(rt, handle, place, load, calls),
                Part::Turns(calls) => (turn(rt, handle, place, load, calls), 0),
            };
            done.fetch_add(mine, Ordering::SeqCst);
            longest.fetch_max(most, Ordering::SeqCst);
        },
    );
    (done.load(Ordering::SeqCst), longest.load(Ordering::SeqCst))
}

/// Does a part as [`run`] does. The microseconds that it took stand last.
fn time_part<R: Threads + Wait + Clock + Sync>(
    rt: &R,
    alloc: Global,
    handles: &mut [Handle<'_>],
    load: Load,
    part: Part,
) -> anyhow::Result<(u64, u64, u128)> {
    let start = Instant::now(rt)?;
    let (done, longest) = run(rt, alloc, handles, load, part);
    Ok((done, longest, start.elapsed(rt)?.as_micros()))
}

/// Does each part, and prints what it took. With GROUP no more than the insertions and the searches of many rows at a time.
fn time_parts<R: Print + Threads + Wait + Clock + Sync>(
    rt: &R,
    alloc: Global,
    handles: &mut [Handle<'_>],
    load: Load,
    calls: u64,
) -> anyhow::Result<()> {
    let share = load.share(calls);
    let parts = [
        (Part::Rows, "rows", load.rows),
        (Part::Finds(share), "finds", calls),
        (Part::Groups(share), "groups", calls),
        (Part::Scans(share / WIDTH), "scans", calls / WIDTH),
        (Part::Mixed(share), "mixed", calls),
    ];
    for (part, name, calls) in parts {
        if load.grouped && matches!(part, Part::Scans(_)) {
            break;
        }
        let (done, longest, micros) = time_part(rt, alloc, handles, load, part)?;
        println!(rt; "{name} {calls} {done} {micros} {longest}")?;
    }
    Ok(())
}

/// Does the parts whose calls are counted, and says how many were answered as they should be, or how many rows were listed.
fn count_parts<R: Print + Threads + Wait + Clock + Sync>(
    rt: &R,
    alloc: Global,
    handles: &mut [Handle<'_>],
    load: Load,
    calls: (u64, u64, u64),
) -> anyhow::Result<()> {
    let (rows, _) = run(rt, alloc, handles, load, Part::Rows);
    let (finds, _) = run(rt, alloc, handles, load, Part::Finds(calls.0));
    let (turns, _) = run(rt, alloc, handles, load, Part::Turns(calls.1));
    let (listed, _) = run(rt, alloc, handles, load, Part::Scans(calls.2));
    println!(rt; "rows {rows}, found {finds}, mixed {turns}, listed {listed}")?;
    Ok(())
}

/// A handle for each seat.
fn handles_of<'a>(alloc: Global, map: &'a Map, seats: Vec<Seat>) -> Option<Vec<Handle<'a>>>
    requires { AreSeatsOf map.now seats.items }
{
    let mut seats = seats;
    let mut handles = Vec::new(alloc);
    while let Some(seat) = seats.pop() {
        handles.push(map.handle(seat)).ok()?;
    }
    Some(handles)
}

/// Does a load on a new map, which was opened in so many microseconds.
fn load_map<R: Print + Threads + Wait + Clock + Sync>(
    rt: &R,
    alloc: Global,
    map: &Map,
    seats: Vec<Seat>,
    load: Load,
    micros: u128,
) -> anyhow::Result<()>
    requires { AreSeatsOf map.now seats.items }
{
    let Some(mut handles) = handles_of(alloc, map, seats) else {
        anyhow::bail!("out of memory");
    };
    let handles = handles.as_mut_slice();
    match load.plan {
        Plan::Counted(finds, turns, scans) => {
            count_parts(rt, alloc, handles, load, (finds, turns, scans))
        }
        Plan::Timed(calls) => {
            println!(rt; "open {} {} {micros} 0", load.pages, load.pages)?;
            time_parts(rt, alloc, handles, load, calls)
        }
    }
}

/// Opens a map, and does a load on it.
fn do_load<R: Print + Threads + Wait + Clock + Sync>(
    rt: &R,
    alloc: Global,
    load: Load,
) -> anyhow::Result<()> {
    let start = Instant::now(rt)?;
    let Ok((map, seats)) = Map::open(alloc, load.pages, load.threads) else {
        anyhow::bail!("the map was not opened");
    };
    let micros = start.elapsed(rt)?.as_micros();
    load_map(rt, alloc, &map, seats, load, micros)
}

/// Does the load that these words name.
pub fn run_load<R: Print + Threads + Wait + Clock + Sync>(
    rt: &R,
    alloc: Global,
    words: &[String],
) -> anyhow::Result<()> {
    let is_counted = words.first().is_some_and(|word| word.as_str() == "index");
    let load = if is_counted {
        Load::read_counted(words)
    } else {
        Load::read(words)
    };
    match load {
        Some(load) => do_load(rt, alloc, load),
        None => anyhow::bail!(
            "usage: bench_map PAGES ROWS THREADS CALLS rising|random [GROUP], or index ROWS THREADS FINDS MIXED SCANS"
        ),
    }
}
