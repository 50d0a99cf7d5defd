//! Indexes that serve, for the tests.

ghost use Rattle.std.specs.Prelude.{◌≡◌, ◌≤◌, ◌+◌, All, IfSome, vec_len};
ghost use Rattle.bl_index.specs.Calls.{IsPassOf};
ghost use Rattle.bl_serve_ground.specs.Together.{AreTogether, seen_by};

use bl_index::{Config, Index, Pass};
use bl_model::Watched;
use bl_serve::{OpenGate, Totals, serve};
use std::alloc::Global;
use std::sync::Wait;
use std::test::Fail;
use std::thread::Threads;

/// An index of so many pages, and so many passes of it, which have met.
pub fn opened(alloc: Global, pages: u32, passes: u32) -> Option<(Index, Vec<Pass>)>
    ensures many { IfSome result (λ t. vec_len t.1 ≡ passes) }
    ensures together { IfSome result (λ t. AreTogether t.0 (seen_by t.1.items) t.1.items) }
{
    match Index::open(alloc, Config { pages, passes }) {
        Ok((index, passes)) => Some((index, passes)),
        Err(_) => None,
    }
}

/// What is written for these bytes by passes that have met, of which the first so many are workers, what is counted, and the
/// passes, which have met again.
pub fn serve_on<R: Threads + Wait + Sync>(
    rt: &R,
    alloc: Global,
    index: &Index,
    passes: Vec<Pass>,
    input: &[u8],
    workers: usize,
) -> Option<(Vec<u8>, Totals, Vec<Pass>)>
    requires together { AreTogether index.now (seen_by passes.items) passes.items }
    requires workers { (1 ≤ workers) × (workers ≤ vec_len passes) }
    ensures many { IfSome result (λ t. vec_len t.2 ≡ vec_len passes) }
    ensures own { IfSome result (λ t. All (IsPassOf index.now) t.2.items) }
    ensures together { IfSome result (λ t. AreTogether index.now (seen_by t.2.items) t.2.items) }
{
    let mut reader = Watched::new(input);
    let mut writer = Watched::new(Vec::new(alloc));
    match serve(
        rt,
        index,
        passes,
        &mut reader,
        &mut writer,
        &OpenGate,
        workers,
    ) {
        Ok((totals, passes)) => Some((writer.into_inner(), totals, passes)),
        Err(_) => None,
    }
}

/// What was written and counted, without the passes.
fn without_passes(served: Option<(Vec<u8>, Totals, Vec<Pass>)>) -> Option<(Vec<u8>, Totals)> {
    match served {
        Some((text, totals, _)) => Some((text, totals)),
        None => None,
    }
}

/// What a new index of so many pages writes for these bytes by so many workers and compressors, and what it counts.
pub fn serve_new<R: Threads + Wait + Sync>(
    rt: &R,
    alloc: Global,
    pages: u32,
    input: &[u8],
    workers: u32,
    compressors: u32,
) -> Option<(Vec<u8>, Totals)>
    requires { (1 ≤ workers) × (workers ≤ 32) × (compressors ≤ 16) }
{
    match opened(alloc, pages, workers + compressors) {
        Some((index, passes)) => without_passes(serve_on(
            rt,
            alloc,
            &index,
            passes,
            input,
            workers as usize,
        )),
        None => None,
    }
}

/// Whether a new index of 8 pages writes these lines for those.
pub fn answers<R: Threads + Wait + Sync>(
    rt: &R,
    alloc: Global,
    input: &[u8],
    output: &[u8],
    workers: u32,
    compressors: u32,
) -> bool
    requires { (1 ≤ workers) × (workers ≤ 32) × (compressors ≤ 16) }
{
    match serve_new(rt, alloc, 8, input, workers, compressors) {
        Some((text, _)) => text.as_slice() == output,
        None => false,
    }
}

/// Whether what a new index writes for these bytes ends with those lines, and what it counts.
pub fn last_lines<R: Threads + Wait + Sync>(
    rt: &R,
    alloc: Global,
    pages: u32,
    input: &[u8],
    last: &[u8],
    workers: u32,
    compressors: u32,
) -> Option<(bool, Totals)>
    requires { (1 ≤ workers) × (workers ≤ 32) × (compressors ≤ 16) }
{
    match serve_new(rt, alloc, pages, input, workers, compressors) {
        Some((text, totals)) => Some((text.as_slice().ends_with(last), totals)),
        None => None,
    }
}

/// Lines that insert the keys from 1 up to the last one, each with its tenfold.
pub fn inserts(alloc: Global, last: u64) -> Result<Vec<u8>, Fail> {
    let mut lines = Vec::new(alloc);
    for key in 1..=last {
        let line = format!(in alloc; "insert {key} {key}0\n")?;
        lines.extend_from_slice(line.as_bytes())?;
    }
    Ok(lines)
}

/// The same lines, and more behind them.
pub fn inserts_before(alloc: Global, last: u64, more: &[u8]) -> Result<Vec<u8>, Fail> {
    let mut lines = inserts(alloc, last)?;
    lines.extend_from_slice(more)?;
    Ok(lines)
}
