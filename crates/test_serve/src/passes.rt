//! Passes that have served.

ghost use Rattle.std.specs.Prelude.{◌≡◌, All, vec_len};
ghost use Rattle.bl_index.specs.Calls.{IsPassOf};
ghost use Rattle.bl_serve_ground.specs.Together.{AreTogether, seen_by};

use crate::served::{inserts, opened, serve_on};
use bl_index::{Index, KeyReply, Pass};
use std::alloc::Global;
use std::sync::Wait;
use std::test::Fail;
use std::thread::Threads;

/// Whether one of the passes finds the value at the key within so many turns.
fn finds(index: &Index, passes: Vec<Pass>, key: u64, value: u64, turns: u32) -> bool
    requires { All (IsPassOf index.now) passes.items }
{
    let mut passes = passes;
    if passes.is_empty() {
        return false;
    }
    let found = index.find(&mut passes[0], key, turns);
    found == Ok(KeyReply::Found(value))
}

/// Whether three passes that have met write what they find.
fn find_both<R: Threads + Wait + Sync>(
    rt: &R,
    alloc: Global,
    index: &Index,
    passes: Vec<Pass>,
) -> bool
    requires many { vec_len passes ≡ 3 }
    requires together { AreTogether index.now (seen_by passes.items) passes.items }
{
    match serve_on(rt, alloc, index, passes, b"find 1\nfind 2\nfind 3\n", 3) {
        Some((text, _, _)) => text.as_slice() == b"1 found 10\n2 found 20\n3 absent\n".as_slice(),
        None => false,
    }
}

/// Whether three passes that have met write that two of them insert, and then what all three find.
fn insert_and_find<R: Threads + Wait + Sync>(
    rt: &R,
    alloc: Global,
    index: &Index,
    passes: Vec<Pass>,
) -> Option<(bool, bool)>
    requires many { vec_len passes ≡ 3 }
    requires together { AreTogether index.now (seen_by passes.items) passes.items }
{
    match serve_on(rt, alloc, index, passes, b"insert 1 10\ninsert 2 20\n", 2) {
        Some((text, _, passes)) => Some((
            text.as_slice() == b"1 inserted\n2 inserted\n".as_slice(),
            find_both(rt, alloc, index, passes),
        )),
        None => None,
    }
}

// They go on from what they have seen.
#[test]
fn passes_serve_again(rt: HostRuntime) {
    let served = match opened(rt.alloc(), 8, 3) {
        Some((index, passes)) => insert_and_find(&rt, rt.alloc(), &index, passes),
        None => None,
    };
    assert_eq!(rt; served, Some((true, true)));
}

/// How many requests a pass answers, and whether it finds key 12 by three searches of pages then.
fn serve_and_find<R: Threads + Wait + Sync>(
    rt: &R,
    alloc: Global,
    index: &Index,
    passes: Vec<Pass>,
    input: &[u8],
) -> Option<(u64, bool)>
    requires many { vec_len passes ≡ 1 }
    requires together { AreTogether index.now (seen_by passes.items) passes.items }
{
    match serve_on(rt, alloc, index, passes, input, 1) {
        Some((_, totals, passes)) => Some((totals.requests, finds(index, passes, 12, 120, 3))),
        None => None,
    }
}

// Key 15 parts the first leaf, and the insertion posts the new one: a search gets the anchor, the root and the leaf.
#[test]
fn split_leaves_are_listed(rt: HostRuntime) -> Result<(), Fail> {
    let input = inserts(rt.alloc(), 15)?;
    let served = match opened(rt.alloc(), 8, 1) {
        Some((index, passes)) => serve_and_find(&rt, rt.alloc(), &index, passes, input.as_slice()),
        None => None,
    };
    assert_eq!(rt; served, Some((15, true)));
    Ok(())
}
