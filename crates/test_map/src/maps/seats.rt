//! Handles over the seats of an index, which share its upkeep out.

ghost use Rattle.std.specs.Prelude.{All, IfSome};
ghost use Rattle.bl_index.specs.Calls.{IsPassOf};

use bl_index::{Config, Index, Pass};
use bl_map::{Followed, Handle, Hint, KeyReply, KeyWrite, Next, Reply, give_seats, handles_over};
use std::alloc::Global;
use std::sync::Wait;

/// An index of 8 pages, and its two passes.
fn opened(alloc: Global) -> Option<(Index, Vec<Pass>)>
    ensures { IfSome result (λ t. All (IsPassOf t.0) t.1.items) }
{
    let config = Config {
        pages: 8,
        passes: 2,
    };
    match Index::open(alloc, config) {
        Ok((index, passes)) => Some((index, passes)),
        Err(_) => None,
    }
}

/// How many rows the leaf of a key has, and the key with which the next one begins.
fn leaf<R: Wait>(rt: &R, handle: &mut Handle<'_>, key: u64) -> Option<(usize, Option<u64>)> {
    let mut near = None;
    let Reply::Rows(rows, next) = handle.part(rt, key, &mut near) else {
        return None;
    };
    match next {
        Next::More(key) => Some((rows.len(), Some(key))),
        Next::End => Some((rows.len(), None)),
    }
}

/// Inserts the keys 1 to 15, of which the last parts the leaf. Says whether all were inserted, and nothing was left to do.
fn fill<R: Wait>(rt: &R, handle: &mut Handle<'_>) -> bool {
    let mut is_done = true;
    for key in 1..16u64 {
        let left = handle.write_leaving(rt, key, KeyWrite::Insert(10 * key));
        is_done = is_done && left == (KeyReply::Inserted, None);
    }
    is_done
}

/// Deletes key 9, which leaves its leaf with six rows. The hint of that is left.
fn thin<R: Wait>(rt: &R, handle: &mut Handle<'_>) -> Option<Hint> {
    let (reply, hint) = handle.write_leaving(rt, 9, KeyWrite::Delete);
    if reply == KeyReply::Deleted(90) {
        hint
    } else {
        None
    }
}

/// What one handle leaves, another one follows. Says whether the leaves are as they should be, before and after.
fn share<R: Wait>(rt: &R, one: &mut Handle<'_>, two: &mut Handle<'_>) -> bool {
    if !fill(rt, one)
        || leaf(rt, one, 0) != Some((8, Some(9)))
        || leaf(rt, two, 9) != Some((7, None))
    {
        return false;
    }
    let Some(hint) = thin(rt, one) else {
        return false;
    };
    let has_merged = two.follow(rt, hint) == Followed::Done(None);
    one.sweep_if_due();
    two.sweep();
    has_merged && leaf(rt, one, 0) == Some((14, None))
}

/// The same of handles over all seats.
fn share_out<R: Wait>(rt: &R, index: &Index, passes: &mut Vec<Pass>) -> Option<bool>
    requires { All (IsPassOf index.now) passes.old.items }
{
    let mut handles = handles_over(index, passes).ok()?;
    let mut two = handles.pop()?;
    let mut one = handles.pop()?;
    let is_shared = share(rt, &mut one, &mut two);
    let has_found = two.find(rt, 12) == KeyReply::Found(120);
    Some(is_shared && has_found)
}

#[test]
fn a_handle_follows_what_another_one_leaves(rt: HostRuntime) {
    let shared = match opened(rt.alloc()) {
        Some((index, mut passes)) => share_out(&rt, &index, &mut passes),
        None => None,
    };
    assert!(rt; shared == Some(true));
}

/// How many seats come back from handles over them.
fn given_back(index: &Index, passes: &mut Vec<Pass>) -> usize
    requires { All (IsPassOf index.now) passes.old.items }
{
    if let Ok(handles) = handles_over(index, passes) {
        give_seats(handles, passes);
    }
    passes.len()
}

#[test]
fn seats_come_back(rt: HostRuntime) {
    let count = match opened(rt.alloc()) {
        Some((index, mut passes)) => given_back(&index, &mut passes),
        None => 0,
    };
    assert!(rt; count == 2);
}
