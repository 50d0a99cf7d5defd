//! A load on a store of pages, for `bench/pages`: so many threads each do so many gets, puts with their sweeps, or
//! sweeps. It prints how many were done, and measures nothing itself.

ghost use Rattle.std.specs.Prelude.{◌≡◌, ◌<◌, ◌≤◌, All};
ghost use Rattle.test_store_rule.specs.Holding.{IsFresh};

use bl_store::Hand;
use std::sync::atomic::{AtomicU64, Ordering};
use std::thread;
use std::thread::Threads;
use test_store_rule::{Held, Mine, begin, end, fill, hands, look, reserve, sweep};

/// What each thread does.
#[derive(Clone, Copy)]
enum Kind {
    Get,
    Put,
    Sweep,
}

/// What to do, on how many pages, by how many threads, and how often each.
#[derive(Clone, Copy)]
struct Load {
    kind: Kind,
    pages: u32,
    threads: u32,
    rounds: u64,
    ghost pages_within: { (8 ≤ pages) × (pages ≤ 65536) },
    ghost threads_within: { (1 ≤ threads) × (threads ≤ 4) },
}

impl Load {
    fn read(words: &[String]) -> Option<Load> {
        let [_, kind, pages, threads, rounds] = words else {
            return None;
        };
        let kind = match kind.as_str() {
            "get" => Kind::Get,
            "put" => Kind::Put,
            "sweep" => Kind::Sweep,
            _ => return None,
        };
        let pages = pages.parse::<u32>().ok()?;
        let threads = threads.parse::<u32>().ok()?;
        let rounds = rounds.parse::<u64>().ok()?;
        if pages < 8 || pages > 65_536 || threads < 1 || threads > 4 {
            return None;
        }
        Some(Load {
            kind,
            pages,
            threads,
            rounds,
        })
    }
}

// One process that gets pages 0 and 1 in turn.
fn gets(store: &Held, hand: &mut Hand<Mine>, rounds: u64) -> u64
    requires { IsFresh store.now.table.shared.table_id store.now.layout hand.old }
{
    let mut done = 0u64;
    begin(store, hand);
    for round in 0..rounds {
        let words = look(store, hand, (round % 2) as u32);
        if words[0] == words[31] {
            done += 1;
        }
    }
    end(store, hand);
    done
}

// Puts of a page of the hand's own, each with a sweep.
fn puts(store: &Held, hand: &mut Hand<Mine>, rounds: u64) -> u64
    requires { IsFresh store.now.table.shared.table_id store.now.layout hand.old }
{
    let mut done = 0u64;
    let Ok(stock) = reserve(store, hand, 1, 0) else {
        return 0;
    };
    let Some(page) = stock.page() else {
        return 0;
    };
    for round in 0..rounds {
        if let Ok(mut stock) = reserve(store, hand, 0, 1) {
            fill(store, hand, page, round, &mut stock);
            done += 1;
        }
        sweep(store, hand);
    }
    done
}

fn sweeps(store: &Held, hand: &mut Hand<Mine>, rounds: u64) -> u64
    requires { IsFresh store.now.table.shared.table_id store.now.layout hand.old }
{
    for _ in 0..rounds {
        sweep(store, hand);
    }
    rounds
}

// Each hand works in a thread of its own. Returns how much was done.
fn run<T: Threads + Sync>(rt: &T, store: &Held, hands: &mut [Hand<Mine>], load: Load) -> u64
    requires { All (IsFresh store.now.table.shared.table_id store.now.layout) hands.old }
{
    let done = AtomicU64::new(0);
    thread::for_each_mut(
        rt,
        hands,
        4,
        &|_, hand| {
            let mine = match load.kind {
                Kind::Get => gets(store, hand, load.rounds),
                Kind::Put => puts(store, hand, load.rounds),
                Kind::Sweep => sweeps(store, hand, load.rounds),
            };
            done.fetch_add(mine, Ordering::SeqCst);
        },
    );
    done.load(Ordering::SeqCst)
}

/// Carries out the load that the words of the command line name, by these threads, and prints how much was done.
pub(crate) fn carry_out<T: Threads + Sync>(
    rt: &HostRuntime,
    threads: &T,
    words: &[String],
) -> anyhow::Result<()> {
    let Some(load) = Load::read(words) else {
        eprintln!(rt; "usage: test_store_race [get|put|sweep PAGES THREADS ROUNDS]")?;
        return Ok(());
    };
    let (store, mut hands) = hands(rt.alloc(), load.pages, load.threads)?;
    let done = run(threads, &store, hands.as_mut_slice(), load);
    println!(rt; "{done}")?;
    Ok(())
}
