//! Four threads share a store of four pages and forty frames: two put pages and sweep, and two read them and look
//! whether each page that they get is whole. What it prints is the same whatever the schedule.
//!
//! The rule is that of `test_store_rule`, by which no page can be torn: the run shows that the compiled code keeps it.
//!
//! With arguments it is a load for a benchmark instead (`loading`).
#![tactic(auto)]

ghost use Rattle.std.specs.Prelude.{◌≡◌, ◌<◌, ◌≤◌, ℕ, All, length, slice_index_or};
ghost use Rattle.bl_store.specs.Hands.{IsSameHand};
ghost use Rattle.test_store_rule.specs.Holding.{IsFresh};

mod loading;

use bl_store::Hand;
use std::sync::atomic::{AtomicU64, Ordering};
use std::thread;
use std::thread::Threads;
use test_store_rule::{Held, Mine, change, hands, read_once, shut, sweep};

/// How many pages each reader gets, and how many puts each writer tries.
const ROUNDS: u64 = 20_000;

/// What the threads have seen.
#[derive(Drop)]
struct Seen {
    reads: AtomicU64,
    torn: AtomicU64,
    changes: AtomicU64,
}

// Gets pages 0 and 1 in turn, and sweeps now and then.
fn read(store: &Held, hand: &mut Hand<Mine>, seen: &Seen)
    requires { IsFresh store.now.table.shared.table_id store.now.layout hand.old }
    ensures same { IsSameHand hand.old.seat hand.new.seat }
    ensures fresh { IsFresh store.now.table.shared.table_id store.now.layout hand.new }
{
    for round in 0..ROUNDS {
        let words = read_once(store, hand, (round % 2) as u32);
        seen.reads.fetch_add(1, Ordering::SeqCst);
        if words.iter().any(|word| *word != words[0]) {
            seen.torn.fetch_add(1, Ordering::SeqCst);
        }
        if round % 64 == 0 {
            sweep(store, hand);
        }
    }
}

// Puts a page again and again, where a frame is free, and sweeps after each put.
fn write(store: &Held, hand: &mut Hand<Mine>, page: u32, seen: &Seen)
    requires fresh { IsFresh store.now.table.shared.table_id store.now.layout hand.old }
    requires page { page < 2 }
    ensures same { IsSameHand hand.old.seat hand.new.seat }
    ensures fresh { IsFresh store.now.table.shared.table_id store.now.layout hand.new }
{
    for round in 0..ROUNDS {
        if change(store, hand, page, round) {
            seen.changes.fetch_add(1, Ordering::SeqCst);
        }
        sweep(store, hand);
    }
}

// Hands 0 and 1 read, hand 2 puts page 0 and hand 3 page 1.
fn work(store: &Held, hand: &mut Hand<Mine>, place: usize, seen: &Seen)
    requires { IsFresh store.now.table.shared.table_id store.now.layout hand.old }
    ensures same { IsSameHand hand.old.seat hand.new.seat }
    ensures fresh { IsFresh store.now.table.shared.table_id store.now.layout hand.new }
{
    match place {
        2 => write(store, hand, 0, seen),
        3 => write(store, hand, 1, seen),
        _ => read(store, hand, seen),
    }
}

// Each hand works in a thread of its own.
fn race<T: Threads + Sync>(rt: &T, store: &Held, hands: &mut [Hand<Mine>], seen: &Seen)
    requires { All (IsFresh store.now.table.shared.table_id store.now.layout) hands.old }
    ensures count { length hands.new ≡ length hands.old }
    ensures fresh { (i : ℕ) (h : Hand Mine) → i < length hands.old → IsFresh store.now.table.shared.table_id store.now.layout (slice_index_or hands.new i h) }
    ensures same { (i : ℕ) (h : Hand Mine) → i < length hands.old → (slice_index_or hands.new i h).number ≡ (slice_index_or hands.old i h).number }
{
    thread::for_each_mut(
        rt,
        hands,
        4,
        &|place, hand| {
            work(store, hand, place, seen);
        },
    );
}

fn main(rt: HostRuntime) -> anyhow::Result<()> {
    let words: Vec<String> = std::env::args(&rt)?.collect(rt.alloc())?;
    if words.len() > 1 {
        return loading::carry_out(&rt, &rt, words.as_slice());
    }
    let (store, mut hands) = hands(rt.alloc(), 4, 4)?;
    let seen = Seen {
        reads: AtomicU64::new(0),
        torn: AtomicU64::new(0),
        changes: AtomicU64::new(0),
    };
    race(&rt, &store, hands.as_mut_slice(), &seen);
    let room = Vec::with_capacity(rt.alloc(), 4)?;
    let pages = shut(store, hands, room);
    let reads = seen.reads.load(Ordering::SeqCst);
    let torn = seen.torn.load(Ordering::SeqCst);
    let changed = seen.changes.load(Ordering::SeqCst) >= 2;
    let whole = pages
        .iter()
        .filter(|words| words.iter().all(|word| *word == words[0]))
        .count();
    println!(rt; "pages read {reads}, torn {torn}")?;
    println!(rt; "pages changed {changed}, whole at the end {whole}")?;
    Ok(())
}
