//! Loads on a map, for benchmarks and checks. `bench_map record ..` writes down calls (`checks/linearizable`), and other words name a load of so
//! many threads (`bench/peers`, `bench/large`, `bench/groups`). Behind a word `then` stand the words of another load.
#![tactic(auto)]

mod load;
mod record;

use std::alloc::Global;
use std::io::{Eprint, Print};
use std::sync::Wait;
use std::thread::Threads;
use std::time::Clock;

/// Does the loads that the words name, one after another.
fn main(rt: HostRuntime) -> anyhow::Result<()> {
    let words: Vec<String> = std::env::args(&rt)?.collect(rt.alloc())?;
    let words = words.as_slice().get(1..).unwrap_or(&[]);
    for load in words.split(|word| word.as_str() == "then") {
        do_load(&rt, rt.alloc(), load)?;
    }
    Ok(())
}

/// Does the load that these words name.
fn do_load<R: Print + Eprint + Threads + Wait + Clock + Sync>(
    rt: &R,
    alloc: Global,
    words: &[String],
) -> anyhow::Result<()> {
    match words.first().map_or("", |word| word.as_str()) {
        "record" => record::write_down(rt, alloc, words),
        _ => load::run_load(rt, alloc, words),
    }
}
