//! Calls of a map, written down by the threads that make them, for `checks/linearizable`.
//!
//! In each round so many threads make so many calls each, on few keys: searches, insertions, puts, deletions, changes, and
//! short scans, which tell of each key that they pass. Then all threads are joined, and a line is printed for each call: the thread, the
//! nanoseconds right before the call and right behind it, the key, what was asked, and what was answered; and behind them the line
//! `round`. Of four rounds one stands before a growth by two, one before a shrink, and one before a close, behind which the map is opened
//! from its image; where there is no memory for that, it is tried once more, or the map goes on with the pages that it has. With `count` in
//! place of `calls` only the number of calls is printed, which is the same whatever the threads do.

ghost use Rattle.std.specs.Prelude.{◌≡◌, All, IfSome, IfOk};
ghost use Rattle.bl_map.specs.Maps.{AreSeatsOf};
ghost use Rattle.bench_map.specs.Workers.{IsOf};

use bl_check::Quiet;
use bl_map::{
    CloseFault, Handle, KeyReply, LoadFault, Map, MapLoadFault, OpenFault, Seat, UnresizedMap,
    UnshrunkMap,
};
use std::alloc::{AllocError, Global};
use std::io::{BufWriter, Eprint, Print, Write};
use std::rt::Clock;
use std::sync::Wait;
use std::thread::Threads;
use std::time::Instant;
use std::{io, thread};

/// So many threads at most.
const MOST_THREADS: usize = 64;

/// How many keys a scan passes.
const LISTED: u64 = 4;

/// After so many rounds comes what came between two of them once more.
const OPEN_FOR: u64 = 4;

/// What is to be done.
#[derive(Clone, Copy)]
struct Load {
    /// The pages of the map.
    pages: u32,
    threads: u32,
    /// How many keys there are.
    keys: u64,
    /// How far two of them lie apart.
    step: u64,
    /// How many calls each thread makes in a round.
    calls: u64,
    rounds: u64,
    /// What the draws begin with.
    seed: u64,
    /// Whether each call is printed.
    is_printed: bool,
}

impl Load {
    fn read(words: &[String]) -> Option<Load> {
        let [_, pages, threads, keys, step, calls, rounds, seed, form] = words else {
            return None;
        };
        Some(Load {
            pages: pages.parse::<u32>().ok()?,
            threads: threads.parse::<u32>().ok()?,
            keys: keys.parse::<u64>().ok()?,
            step: step.parse::<u64>().ok()?,
            calls: calls.parse::<u64>().ok()?,
            rounds: rounds.parse::<u64>().ok()?,
            seed: seed.parse::<u64>().ok()?,
            is_printed: form.as_str() == "calls",
        })
    }

    /// The key with that number.
    fn key(&self, number: u64) -> u64 {
        number.wrapping_mul(self.step).wrapping_add(1)
    }
}

/// A round of calls.
#[derive(Clone, Copy)]
struct Round {
    load: Load,
    /// When the program began.
    start: Instant,
    /// How many rounds there were before.
    number: u64,
}

/// What a call asks of its key.
#[derive(Clone, Copy, Debug, PartialEq, Eq)]
enum Asked {
    Find,
    Insert(u64),
    Put(u64),
    Delete,
    Change(u64, u64),
}

/// A call, as its thread saw it.
#[derive(Clone, Copy)]
struct Call {
    /// The nanoseconds right before it, since the program began.
    begin: u64,
    /// The nanoseconds right behind it.
    end: u64,
    key: u64,
    asked: Asked,
    reply: KeyReply,
}

/// A thread's handle, and what it has written down.
#[derive(Drop)]
struct Worker<'a> {
    handle: Handle<'a>,
    /// The last number that was drawn.
    drawn: u64,
    /// A key and a value that it had, by the last reply with one.
    seen: (u64, u64),
    /// The rows of the last scan.
    rows: Vec<(u64, u64)>,
    calls: Vec<Call>,
    /// Whether the clock or memory failed.
    has_failed: bool,
}

/// The next of a list of numbers that looks random.
fn after(drawn: u64) -> u64 {
    drawn
        .wrapping_mul(6_364_136_223_846_793_005)
        .wrapping_add(1_442_695_040_888_963_407)
}

/// A number below another one, by what was drawn.
fn below(drawn: u64, limit: u64) -> u64 {
    if limit == 0 { 0 } else { (drawn >> 24) % limit }
}

/// The nanoseconds since the program began.
fn now<R: Clock>(rt: &R, round: Round) -> Option<u64> {
    let passed = round.start.elapsed(rt).ok()?;
    let seconds = passed.as_secs().wrapping_mul(1_000_000_000);
    Some(seconds.wrapping_add(passed.subsec_nanos() as u64))
}

/// The value that the key has behind the call, where that tells of one.
fn value_after(asked: Asked, reply: KeyReply) -> Option<u64> {
    match (asked, reply) {
        (_, KeyReply::Found(value) | KeyReply::Present(value) | KeyReply::Differs(value)) => {
            Some(value)
        }
        (Asked::Insert(value), KeyReply::Inserted) => Some(value),
        (Asked::Put(value), KeyReply::Inserted) => Some(value),
        (Asked::Put(value), KeyReply::Replaced(_)) => Some(value),
        (Asked::Change(_, new), KeyReply::Changed) => Some(new),
        _ => None,
    }
}

/// Makes a call, and writes it down.
fn make<R: Wait + Clock>(
    rt: &R,
    round: Round,
    worker: &mut Worker<'_>,
    key: u64,
    asked: Asked,
) -> Option<()>
    ensures { worker.new.handle.index ≡ worker.old.handle.index }
{
    let begin = now(rt, round)?;
    let reply = match asked {
        Asked::Find => worker.handle.find(rt, key),
        Asked::Insert(value) => worker.handle.insert(rt, key, value),
        Asked::Put(value) => worker.handle.put(rt, key, value),
        Asked::Delete => worker.handle.delete(rt, key),
        Asked::Change(old, new) => worker.handle.change(rt, key, old, new),
    };
    let end = now(rt, round)?;
    if let Some(value) = value_after(asked, reply) {
        worker.seen = (key, value);
    }
    let call = Call {
        begin,
        end,
        key,
        asked,
        reply,
    };
    worker.calls.push(call).ok()
}

/// Scans some keys from one on, and writes down what it tells of each of them, as of a search.
fn list<R: Wait + Clock>(rt: &R, round: Round, worker: &mut Worker<'_>, first: u64) -> Option<()>
    ensures { worker.new.handle.index ≡ worker.old.handle.index }
{
    let load = round.load;
    let last = first.saturating_add(LISTED).min(load.keys);
    worker.rows.clear();
    let begin = now(rt, round)?;
    let end_key = Some(load.key(last));
    let scanned = worker
        .handle
        .scan(rt, load.key(first), end_key, &mut worker.rows);
    let end = now(rt, round)?;
    scanned.ok()?;
    for number in first..last {
        let key = load.key(number);
        let row = worker.rows.iter().find(|row| row.0 == key);
        let reply = row.map_or(KeyReply::Absent, |row| KeyReply::Found(row.1));
        let call = Call {
            begin,
            end,
            key,
            asked: Asked::Find,
            reply,
        };
        worker.calls.push(call).ok()?;
    }
    Some(())
}

/// What the next call asks, by what was drawn, if it is no scan. A change is of the key whose value was seen last.
fn drawn_call(worker: &Worker<'_>, key: u64, value: u64) -> Option<(u64, Asked)> {
    match below(after(worker.drawn), 10) {
        0..=2 => Some((key, Asked::Find)),
        3..=4 => Some((key, Asked::Insert(value))),
        5 => Some((key, Asked::Put(value))),
        6..=7 => Some((key, Asked::Delete)),
        8 => Some((worker.seen.0, Asked::Change(worker.seen.1, value))),
        _ => None,
    }
}

/// Makes the calls of a round. Each value that is inserted or changed to is another one.
fn work<R: Wait + Clock>(rt: &R, round: Round, worker: &mut Worker<'_>, stamp: u64) -> Option<()>
    ensures { worker.new.handle.index ≡ worker.old.handle.index }
{
    let load = round.load;
    for count in 0..load.calls {
        worker.drawn = after(worker.drawn);
        let number = below(worker.drawn, load.keys);
        match drawn_call(worker, load.key(number), stamp.wrapping_add(count)) {
            Some((key, asked)) => make(rt, round, worker, key, asked)?,
            None => list(rt, round, worker, number)?,
        }
    }
    Some(())
}

/// All threads make the calls of a round. They have ended when this returns.
fn work_all<R: Threads + Wait + Clock + Sync>(
    rt: &R,
    map: &Map,
    workers: &mut [Worker<'_>],
    round: Round,
)
    requires { All (IsOf map.now) workers.old }
    ensures { All (IsOf map.now) workers.new }
{
    thread::for_each_mut(
        rt,
        workers,
        MOST_THREADS,
        &|place, worker| {
            let turn = round.number.wrapping_mul(64).wrapping_add(place as u64);
            if work(rt, round, worker, turn.wrapping_mul(1_000_000)).is_none() {
                worker.has_failed = true;
            }
        },
    );
}

/// A worker for each seat. In each round they draw otherwise.
fn seated<'a>(
    alloc: Global,
    map: &'a Map,
    seats: Vec<Seat>,
    round: Round,
) -> Result<Vec<Worker<'a>>, AllocError>
    requires { AreSeatsOf map.now seats.items }
    ensures { IfOk result (λ workers. All (IsOf map.now) workers.items) }
{
    let mut seats = seats;
    let mut workers = Vec::new(alloc);
    let mut drawn = round.load.seed.wrapping_mul(64).wrapping_add(round.number);
    while let Some(seat) = seats.pop() {
        drawn = after(drawn ^ 0x9e37_79b9);
        workers.push(Worker {
            handle: map.handle(seat),
            drawn,
            seen: (1, 0),
            rows: Vec::new(alloc),
            calls: Vec::new(alloc),
            has_failed: false,
        })?;
    }
    Ok(workers)
}

/// The seats of the workers.
fn seats_of(alloc: Global, map: &Map, workers: Vec<Worker<'_>>) -> Result<Vec<Seat>, AllocError>
    requires { All (IsOf map.now) workers.items }
    ensures { IfOk result (λ seats. AreSeatsOf map.now seats.items) }
{
    let mut workers = workers;
    let mut seats = Vec::new(alloc);
    while let Some(worker) = workers.pop() {
        seats.push(worker.handle.into_seat())?;
    }
    Ok(seats)
}

/// Whether a worker has failed.
fn has_failed(workers: &[Worker<'_>]) -> bool {
    for worker in workers {
        if worker.has_failed {
            return true;
        }
    }
    false
}

/// Prints a call of a thread.
fn print_call<W: Write + Drop>(out: &mut W, thread: usize, call: Call) -> io::Result<()> {
    write!(out, "{thread} {} {} {} ", call.begin, call.end, call.key)?;
    writeln!(out, "{:?} {:?}", call.asked, call.reply)
}

/// Prints the calls of a round.
fn print<W: Write + Drop>(out: &mut W, workers: &[Worker<'_>]) -> io::Result<()> {
    for (thread, worker) in workers.iter().enumerate() {
        for call in worker.calls.as_slice() {
            print_call(out, thread, *call)?;
        }
    }
    writeln!(out, "round")
}

/// The calls of a round by the seats of a map, which come back, and their number.
fn take_round<R: Threads + Wait + Clock + Sync, W: Write + Drop>(
    rt: &R,
    alloc: Global,
    map: &Map,
    seats: Vec<Seat>,
    round: Round,
    out: &mut W,
) -> anyhow::Result<Vec<Seat>>
    requires { AreSeatsOf map.now seats.items }
    ensures { IfOk result (λ back. AreSeatsOf map.now back.items) }
{
    let mut workers = seated(alloc, map, seats, round)?;
    work_all(rt, map, workers.as_mut_slice(), round);
    if has_failed(workers.as_slice()) {
        anyhow::bail!("there was no memory for a call, or the clock failed");
    }
    if round.load.is_printed {
        print(out, workers.as_slice())?;
    }
    Ok(seats_of(alloc, map, workers)?)
}

/// The image of a map that is closed. Where there is no memory for it, the map and its seats come back as they were: it is closed
/// once more, which is counted.
fn closed(alloc: Global, map: Map, seats: Vec<Seat>, tried: &mut u64) -> Option<Quiet>
    requires { AreSeatsOf map seats.items }
{
    match map.close(alloc, seats) {
        Ok(image) => Some(image),
        Err((map, seats, CloseFault::Memory)) => {
            *tried = tried.saturating_add(1);
            map.close(alloc, seats).ok()
        }
        Err((_, _, CloseFault::Pass)) => None,
    }
}

/// A map that begins with an image. Where there is no memory for it, the image comes back: it is opened once more, which is counted.
fn opened(alloc: Global, image: Quiet, threads: u32, tried: &mut u64) -> Option<(Map, Vec<Seat>)>
    ensures { IfSome result (λ t. AreSeatsOf t.0 t.1.items) }
{
    match Map::open_image(alloc, image, threads) {
        Ok(begun) => Some(begun),
        Err((image, OpenFault::Memory)) => {
            *tried = tried.saturating_add(1);
            Map::open_image(alloc, image, threads).ok()
        }
        Err(_) => None,
    }
}

/// The map with twice the pages that it began with. Where there is no memory for them, it is tried once more, or the map is opened from its
/// image, which is counted.
fn grown(
    alloc: Global,
    map: Map,
    seats: Vec<Seat>,
    load: Load,
    tried: &mut u64,
) -> Option<(Map, Vec<Seat>)>
    requires { AreSeatsOf map seats.items }
    ensures { IfSome result (λ t. AreSeatsOf t.0 t.1.items) }
{
    let pages = load.pages.saturating_mul(2);
    match map.resize(alloc, seats, pages) {
        Ok(resized) => Some(resized),
        Err(UnresizedMap::Kept(map, seats, _)) => {
            *tried = tried.saturating_add(1);
            map.resize(alloc, seats, pages).ok()
        }
        Err(UnresizedMap::Closed(image)) => {
            *tried = tried.saturating_add(1);
            opened(alloc, image, load.threads, tried)
        }
    }
}

/// The map with the pages that it began with, unless its rows want more. Where there is no memory for that, it is tried once more, or the map
/// is opened from its image, which is counted.
fn shrunk(
    alloc: Global,
    map: Map,
    seats: Vec<Seat>,
    load: Load,
    tried: &mut u64,
) -> Option<(Map, Vec<Seat>)>
    requires { AreSeatsOf map seats.items }
    ensures { IfSome result (λ t. AreSeatsOf t.0 t.1.items) }
{
    match map.shrink(alloc, seats, load.pages) {
        Ok(shrunk) => Some(shrunk),
        Err(UnshrunkMap::Kept(map, seats, _)) => {
            *tried = tried.saturating_add(1);
            map.shrink(alloc, seats, load.pages).ok()
        }
        Err(UnshrunkMap::Closed(image, why)) => {
            if why != MapLoadFault::Rows(LoadFault::Room) {
                *tried = tried.saturating_add(1);
            }
            opened(alloc, image, load.threads, tried)
        }
    }
}

/// A map and its seats behind a round: as it is, grown, shrunk, or closed and opened from its image.
fn kept(
    alloc: Global,
    map: Map,
    seats: Vec<Seat>,
    round: Round,
    tried: &mut u64,
) -> Option<(Map, Vec<Seat>)>
    requires { AreSeatsOf map seats.items }
    ensures { IfSome result (λ t. AreSeatsOf t.0 t.1.items) }
{
    match round.number % OPEN_FOR {
        0 => Some((map, seats)),
        1 => grown(alloc, map, seats, round.load, tried),
        2 => shrunk(alloc, map, seats, round.load, tried),
        _ => {
            let image = closed(alloc, map, seats, tried)?;
            opened(alloc, image, round.load.threads, tried)
        }
    }
}

/// A map without rows.
fn begun(alloc: Global, load: Load) -> anyhow::Result<(Map, Vec<Seat>)>
    ensures { IfOk result (λ t. AreSeatsOf t.0 t.1.items) }
{
    match Map::open(alloc, load.pages, load.threads) {
        Ok(begun) => Ok(begun),
        Err(OpenFault::Memory) => anyhow::bail!("no memory for a map"),
        Err(_) => anyhow::bail!("no map of so many pages and threads"),
    }
}

/// All rounds, over a new map. How often the map was closed or opened once more, since there was no memory for it.
fn take_rounds<R: Threads + Wait + Clock + Sync, W: Write + Drop>(
    rt: &R,
    alloc: Global,
    load: Load,
    out: &mut W,
) -> anyhow::Result<u64> {
    let start = Instant::now(rt)?;
    let (mut map, mut seats) = begun(alloc, load)?;
    let mut tried = 0u64;
    for number in 0..load.rounds {
        let round = Round {
            load,
            start,
            number,
        };
        seats = take_round(rt, alloc, &map, seats, round, out)?;
        let Some(next) = kept(alloc, map, seats, round, &mut tried) else {
            anyhow::bail!("the map was not closed and opened");
        };
        (map, seats) = next;
    }
    Ok(tried)
}

/// Writes down the calls that these words name.
pub fn write_down<R: Print + Eprint + Threads + Wait + Clock + Sync>(
    rt: &R,
    alloc: Global,
    words: &[String],
) -> anyhow::Result<()> {
    let Some(load) = Load::read(words) else {
        eprintln!(rt;
            "usage: bench_map record PAGES THREADS KEYS STEP CALLS ROUNDS SEED calls|count"
        )?;
        return Ok(());
    };
    let mut out = BufWriter::new(alloc, io::writer(rt))?;
    let tried = take_rounds(rt, alloc, load, &mut out)?;
    if tried > 0 {
        writeln!(out, "{tried} closes or openings had no memory at first")?;
    }
    if !load.is_printed {
        let made = load
            .calls
            .wrapping_mul(load.threads as u64)
            .wrapping_mul(load.rounds);
        writeln!(out, "{made} calls")?;
    }
    out.flush()?;
    Ok(())
}
