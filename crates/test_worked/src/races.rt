//! Four threads with a pass each share an index. They insert keys of their own; they delete nine tenths of them, follow the hints
//! that deletions and compressions give, so that pages are merged and evened out under the searches of the others, and find the
//! keys that they keep; they insert the deleted keys again, while a fifth thread scans the whole map again and again: the keys
//! rise, and the kept ones are all there; or all four delete each key and search for it, and their replies are counted against
//! what any order allows. What is counted is the same whatever the schedule.
//!
//! No order can answer otherwise, by the contracts of the calls: the run shows that the compiled code keeps them.

ghost use Rattle.std.specs.Prelude.{All};
ghost use Rattle.bl_index.specs.Calls.{IsPassOf};

use bl_index::{Hint, Index, KeyReply, Pass, Squeezed};
use bl_model::limits::MOST_LEVELS;
use bl_serve_lines::print::push_number;
use std::alloc::{AllocError, Global};
use std::sync::Wait;
use std::sync::atomic::{AtomicU64, Ordering};
use std::thread;
use std::thread::Threads;

/// How many keys each thread inserts.
const ROWS: u64 = 20_000;

/// How many threads there are.
const THREADS: u64 = 4;

/// Of so many rows of a thread the first is kept while the tree shrinks.
const KEPT: u64 = 10;

/// How often the fifth thread scans the map.
const SCANS: u32 = 30;

/// What the threads have been answered so far.
#[derive(Drop)]
struct Counts {
    inserted: AtomicU64,
    deleted: AtomicU64,
    absent: AtomicU64,
    merged: AtomicU64,
    scanned: AtomicU64,
    // Replies that no order allows.
    wrong: AtomicU64,
}

impl Counts {
    fn none() -> Counts {
        Counts {
            inserted: AtomicU64::new(0),
            deleted: AtomicU64::new(0),
            absent: AtomicU64::new(0),
            merged: AtomicU64::new(0),
            scanned: AtomicU64::new(0),
            wrong: AtomicU64::new(0),
        }
    }
}

fn count(counter: &AtomicU64) {
    counter.fetch_add(1, Ordering::SeqCst);
}

// Searches until it is answered.
fn find<R: Wait>(rt: &R, index: &Index, pass: &mut Pass, key: u64) -> KeyReply
    requires { IsPassOf index.now pass.old }
    ensures { IsPassOf index.now pass.new }
{
    let turns = index.patience();
    for _ in rt.forever() {
        if let Ok(reply) = index.find(pass, key, turns) {
            return reply;
        }
    }
    unreachable!()
}

// Gives back what was retired, where that is due.
fn sweep(index: &Index, pass: &mut Pass)
    requires { IsPassOf index.now pass.old }
    ensures { IsPassOf index.now pass.new }
{
    if pass.is_due() {
        index.sweep(pass);
    }
}

// The keys of the threads lie between each other: every fourth key is of one of them. Leaves that are split are posted. The
// second time the keys that were kept are there.
fn fill<R: Wait>(rt: &R, index: &Index, pass: &mut Pass, place: usize, counts: &Counts)
    requires { IsPassOf index.now pass.old }
    ensures { IsPassOf index.now pass.new }
{
    let first = place as u64 % THREADS;
    for row in 0..ROWS {
        let key = THREADS * row + first;
        let (reply, hint) = index.insert(rt, pass, key, key + 1);
        match reply {
            KeyReply::Inserted => count(&counts.inserted),
            KeyReply::Present(value) if value == key + 1 && row % KEPT == 0 => {}
            _ => count(&counts.wrong),
        }
        follow(rt, index, pass, hint, counts);
        sweep(index, pass);
    }
}

// Follows a hint, and those that following it gives, one for each level at most, and counts the merges.
fn follow<R: Wait>(rt: &R, index: &Index, pass: &mut Pass, hint: Option<Hint>, counts: &Counts)
    requires { IsPassOf index.now pass.old }
    ensures { IsPassOf index.now pass.new }
{
    let mut hint = hint;
    for _level in 0..MOST_LEVELS {
        let Some(next) = hint else {
            return;
        };
        if let Hint::Post { .. } = next {
            hint = index.post(rt, pass, next).1;
        } else {
            let (squeezed, more) = index.compress(rt, pass, next);
            if squeezed == Squeezed::Merged {
                count(&counts.merged);
            }
            hint = more;
        }
    }
}

// Deletes the thread's keys but every tenth, which it finds after each deletion.
fn shrink<R: Wait>(rt: &R, index: &Index, pass: &mut Pass, place: usize, counts: &Counts)
    requires { IsPassOf index.now pass.old }
    ensures { IsPassOf index.now pass.new }
{
    let first = place as u64 % THREADS;
    for row in 0..ROWS {
        if row % KEPT != 0 {
            let key = THREADS * row + first;
            let (reply, hint) = index.delete(rt, pass, key);
            match reply {
                KeyReply::Deleted(value) if value == key + 1 => count(&counts.deleted),
                _ => count(&counts.wrong),
            }
            follow(rt, index, pass, hint, counts);
        }
        let kept = THREADS * (row - row % KEPT) + first;
        match find(rt, index, pass, kept) {
            KeyReply::Found(value) if value == kept + 1 => {}
            _ => count(&counts.wrong),
        }
    }
}

// Whether the keys rise, each has its value, and those that were kept are all there.
fn is_right(rows: &[(u64, u64)]) -> bool {
    let rising = rows
        .iter()
        .zip(rows.iter().skip(1))
        .all(|(row, next)| row.0 < next.0);
    let valued = rows.iter().all(|row| row.1.checked_sub(1) == Some(row.0));
    let kept = rows
        .iter()
        .filter(|row| row.0 / THREADS % KEPT == 0)
        .count();
    rising && valued && kept as u64 == THREADS * ROWS / KEPT
}

// Scans the whole map again and again.
fn scan(alloc: Global, index: &Index, pass: &mut Pass, counts: &Counts)
    requires { IsPassOf index.now pass.old }
    ensures { IsPassOf index.now pass.new }
{
    let turns = index.patience();
    let mut rows = Vec::new(alloc);
    for _scan in 0..SCANS {
        rows.clear();
        match index.scan_into(pass, 0, None, turns, &mut rows) {
            Ok(()) if is_right(rows.as_slice()) => count(&counts.scanned),
            _ => count(&counts.wrong),
        }
        sweep(index, pass);
    }
}

// Deletes each key and searches for it. Nobody inserts any more, so that it is absent then.
fn clear<R: Wait>(rt: &R, index: &Index, pass: &mut Pass, counts: &Counts)
    requires { IsPassOf index.now pass.old }
    ensures { IsPassOf index.now pass.new }
{
    for key in 0..THREADS * ROWS {
        let (reply, _) = index.delete(rt, pass, key);
        match reply {
            KeyReply::Deleted(value) if value == key + 1 => count(&counts.deleted),
            KeyReply::Absent => count(&counts.absent),
            _ => count(&counts.wrong),
        }
        sweep(index, pass);
        match find(rt, index, pass, key) {
            KeyReply::Absent => {}
            _ => count(&counts.wrong),
        }
    }
}

// How many keys are found with the value that was inserted.
fn found<R: Wait>(rt: &R, index: &Index, pass: &mut Pass) -> u64
    requires { IsPassOf index.now pass.old }
    ensures { IsPassOf index.now pass.new }
{
    let found = AtomicU64::new(0);
    for key in 0..THREADS * ROWS {
        match find(rt, index, pass, key) {
            KeyReply::Found(value) if value == key + 1 => count(&found),
            _ => {}
        }
    }
    found.load(Ordering::SeqCst)
}

/// What the threads do.
#[derive(Clone, Copy)]
pub enum Race {
    Fill,
    /// The same, while the fifth pass scans.
    FillAndScan,
    Shrink,
    Clear,
}

// The first four passes work, each in a thread of its own, and the fifth one scans where it is asked to.
fn work<R: Threads + Wait + Sync>(
    rt: &R,
    alloc: Global,
    index: &Index,
    passes: &mut [Pass],
    race: Race,
    counts: &Counts,
)
    requires { All (IsPassOf index.now) passes.old }
    ensures { All (IsPassOf index.now) passes.new }
{
    thread::for_each_mut(
        rt,
        passes,
        5,
        &|place, pass| {
            match race {
                Race::FillAndScan if place == 4 => scan(alloc, index, pass, counts),
                _ if place >= 4 => {}
                Race::Fill | Race::FillAndScan => fill(rt, index, pass, place, counts),
                Race::Shrink => shrink(rt, index, pass, place, counts),
                Race::Clear => clear(rt, index, pass, counts),
            }
        },
    );
}

// Appends a count, if there is any.
fn push_count(text: &mut Vec<u8>, name: &[u8], counter: &AtomicU64) -> Result<(), AllocError> {
    match counter.load(Ordering::SeqCst) {
        0 => Ok(()),
        many => push_number(text, name, many),
    }
}

// What was counted, in words.
fn observed(alloc: Global, counts: &Counts) -> Result<Vec<u8>, AllocError> {
    let mut text = Vec::new(alloc);
    push_count(&mut text, b"inserted ", &counts.inserted)?;
    push_count(&mut text, b"deleted ", &counts.deleted)?;
    push_count(&mut text, b" absent ", &counts.absent)?;
    push_count(&mut text, b" scanned ", &counts.scanned)?;
    push_count(&mut text, b" wrong ", &counts.wrong)?;
    if counts.merged.load(Ordering::SeqCst) > 0 {
        text.extend_from_slice(b" merged some")?;
    }
    Ok(text)
}

/// What the threads were answered in a race, and how many keys the fifth pass finds after that.
pub fn raced<R: Threads + Wait + Sync>(
    rt: &R,
    alloc: Global,
    index: &Index,
    passes: &mut [Pass],
    what: Race,
) -> Result<Vec<u8>, AllocError>
    requires { All (IsPassOf index.now) passes.old }
    ensures { All (IsPassOf index.now) passes.new }
{
    let counts = Counts::none();
    work(rt, alloc, index, passes, what, &counts);
    let mut text = observed(alloc, &counts)?;
    if passes.len() > 4 {
        let there = found(rt, index, &mut passes[4]);
        push_number(&mut text, b" found ", there)?;
    }
    Ok(text)
}
