//! The lines of a chunk are dealt into shares by their keys.

ghost use Rattle.std.specs.Prelude.{◌≡◌, ◌≤◌, ◌<◌, ℕ, Some, length, IfOk};
ghost use Rattle.bl_serve.specs.Dealing.{AreDealt, IsKeyOf, IsOn, spread};

use bl_model::Op;
use bl_serve_lines::request::Request;
use std::alloc::{AllocError, Global};

/// There are no more shares.
const MOST_SHARES: usize = 256;

/// A worker has no more shares, about: enough for all workers to end together. For each share one looks for its lines among all.
const SHARES_A_WORKER: usize = 16;

/// A share has so many lines or more, where each worker has one.
const LINES_A_SHARE: usize = 48;

/// An odd number whose bits are mixed, so that the keys of a series are spread.
const SPREAD: u64 = 0x9e37_79b9_7f4a_7c15;

/// How many shares so many lines are dealt into for so many workers: one for each, and more where there are many lines.
pub fn shares_for(count: usize, workers: usize) -> usize
    ensures low { 1 ≤ result }
    ensures high { result ≤ 256 }
{
    if workers <= 1 {
        return 1;
    }
    let most = workers.saturating_mul(SHARES_A_WORKER).min(MOST_SHARES);
    (count / LINES_A_SHARE).max(workers).min(most)
}

/// The share of a key, of so many.
fn share_of(key: u64, shares: u64) -> u8
    requires low { 1 ≤ shares }
    requires high { shares ≤ 256 }
    ensures { result ≡ spread key shares }
{
    let mixed = key.wrapping_mul(SPREAD) >> 32;
    (mixed.wrapping_mul(shares) >> 32).min(shares - 1) as u8
}

/// The key that an operation is about, if it is about one alone.
fn key_in(op: Op) -> Option<u64>
    ensures { IsKeyOf (Some (Request.Ask op)) result }
{
    match op {
        Op::Find(key) => Some(key),
        Op::Insert(key, _) => Some(key),
        Op::Put(key, _) => Some(key),
        Op::Delete(key) => Some(key),
        Op::Change(key, _, _) => Some(key),
        Op::Part(_) | Op::PartDown(_) => None,
    }
}

/// The key that a line is about, if it is about one alone.
fn key_of(request: Option<Request>) -> Option<u64>
    ensures { IsKeyOf request result }
{
    match request {
        Some(Request::Ask(op)) => key_in(op),
        Some(Request::Add(key, _)) => Some(key),
        _ => None,
    }
}

/// The share of the line at that place: of those of one key the same, and of all others by their places.
fn share_at(request: Option<Request>, place: usize, shares: usize) -> u8
    requires low { 1 ≤ shares }
    requires high { shares ≤ 256 }
    ensures low { result < shares }
    ensures same { (key : ℕ) → IsOn key request → result ≡ spread key shares }
{
    match key_of(request) {
        Some(key) => share_of(key, shares as u64),
        None => (place % shares) as u8,
    }
}

/// The share of each line.
pub fn deal(alloc: Global, lines: &[Option<Request>], shares: usize) -> Result<Vec<u8>, AllocError>
    requires low { 1 ≤ shares }
    requires high { shares ≤ 256 }
    ensures long { IfOk result (λ deals. length deals.items ≡ length lines.now) }
    ensures dealt { IfOk result (λ deals. AreDealt shares lines.now deals.items) }
{
    let mut deals = Vec::with_capacity(alloc, lines.len())?;
    for place in 0..lines.len() {
        deals.push(share_at(lines[place], place, shares))?;
    }
    Ok(deals)
}
