//! The server over an index of its own.

ghost use Rattle.std.specs.Prelude.{◌≡◌, ◌+◌, ◌^◌, ◌≤◌, ℕ, List, [], ◌++◌, true, IfOk, MatchResult, false, OnOk};
ghost use Rattle.bl_index.specs.Opened.{IsBegun, IsReopened};
ghost use Rattle.bl_serve_ground.specs.Begun.{IsBegunFrom, IsOwn};
ghost use Rattle.bl_serve_ground.specs.Origins.{HasPages, HasRows, sizes_of};
ghost use Rattle.bl_serve.specs.Origins.{MayServe, ServedFrom, StopsFrom};
ghost use Rattle.bl_serve.specs.Surviving.{Survives};
ghost use Rattle.bl_serve.specs.Serving.{EndsServing};
ghost use Rattle.bl_model.specs.Rows.{map_of};
ghost use Rattle.bl_outside.specs.Crashes.{FindsOnly};
ghost use Rattle.std.specs.Io.KnownBytes.{Consumes};

use crate::serving::serve_with;
use crate::session::{ServePlan, ThreadPlan};
use crate::summary::Summary;
use bl_model::Watched;
use bl_outside::Outside;
use bl_serve_ground::{Origin, ground_of, open_index};
use bl_serve_lines::{Sectioning, ServeFault, Totals};
use bl_serve_worker::{Gate, OpenGate};
use std::alloc::Global;
use std::io::{Read, Write};
use std::sync::Wait;
use std::thread::Threads;

/// Fewer requests than this, of an index that only the server uses, are answered by one thread: to start and to join another takes
/// about as long as they do.
const ALONE: usize = 1_024;

/// The workers and the sections of that plan, where the gate holds no worker.
pub fn plan_of(plan: ServePlan) -> ThreadPlan
    ensures { result.sections ≡ plan.sections }
{
    ThreadPlan {
        workers: plan.workers as usize,
        alone: ALONE,
        sections: plan.sections,
    }
}

/// Serves the request lines of the reader over an index of its own, which begins without rows or with those of a sound image, and keeps its
/// pages, by so many workers (at least 1) and compressors, 64 of both at most. What was written is served for what was read, from the
/// map of those rows on; after a fault the output of the finished sections is written, and no other but a beginning of the open
/// section's after a failed write. A `sync` ends a section.
pub fn serve_index<T: Threads + Wait + Sync, R: Read, W: Write>(
    rt: &T,
    alloc: Global,
    origin: Origin,
    workers: u32,
    compressors: u32,
    reader: &mut Watched<R>,
    writer: &mut Watched<W>,
) -> Result<Totals, ServeFault>
    requires pages { HasPages origin }
    requires passes { (1 ≤ workers) × (workers + compressors ≤ 64) }
    ensures serves { EndsServing (ServedFrom Sectioning.BySync origin 0) (StopsFrom Sectioning.BySync origin 0)
        (R.remaining reader.old.inner) (R.remaining reader.new.inner) (reader.new.failed ≡ true)
        (W.contents writer.old.inner) (W.contents writer.new.inner) (writer.new.failed ≡ true) result }
    ensures flushed { OnOk result (writer.new.pending ≡ false) }
{
    let plan = ServePlan {
        workers,
        compressors,
        sections: Sectioning::BySync,
        most: 0,
    };
    match serve_by_plan(rt, alloc, origin, plan, reader, writer, &OpenGate) {
        Ok(summary) => Ok(summary.totals),
        Err(fault) => Err(fault),
    }
}

/// The same by a plan, and what else was counted. Where each line is a section, its reply is written and flushed before the next line
/// is read, and the history is in the order of the lines. Where the plan has more pages than the index begins with, it grows by two between two
/// chunks of lines, before they lack room: what is served is that of one map, and only `stat` tells of it. Where memory for that is refused it
/// keeps the pages that it has. What is saved goes through the gate.
pub fn serve_by_plan<T: Threads + Wait + Sync, R: Read, O: Outside, G: Gate + Sync>(
    rt: &T,
    alloc: Global,
    origin: Origin,
    plan: ServePlan,
    reader: &mut Watched<R>,
    outside: &mut O,
    gate: &G,
) -> Result<Summary, ServeFault>
    requires pages { HasPages origin }
    requires passes { MayServe plan }
    requires log { O.is_modelled outside.old → (rows : List (ℕ × ℕ)) × HasRows origin rows × O.holds outside.old (map_of rows) }
    ensures serves { EndsServing (λ s. ServedFrom plan.sections origin plan.most s.totals) (StopsFrom plan.sections origin plan.most)
        (R.remaining reader.old.inner) (R.remaining reader.new.inner) (reader.new.failed ≡ true)
        (O.printed outside.old) (O.printed outside.new) (O.has_failed outside.new) result }
    ensures flushed { OnOk result (O.is_flushed outside.new) }
    // What a crash finds at any moment.
    ensures any_moment { O.is_modelled outside.old → (rows : List (ℕ × ℕ)) → HasRows origin rows
        → (read : List ℕ) × Consumes (R.remaining reader.old.inner) (R.remaining reader.new.inner) read
        × FindsOnly O.moment O.finds outside.old outside.new (Survives plan.sections (sizes_of origin plan.most) (map_of rows) read (O.printed outside.old)) }
{
    let threads = plan_of(plan);
    let (index, passes) = open_index(alloc, origin, plan.workers + plan.compressors)?;
    let ground = ground_of(index, plan.most);
    match serve_with(rt, ground, passes, reader, outside, gate, threads) {
        Ok((summary, _ground, _passes)) => Ok(summary),
        Err(fault) => Err(fault),
    }
}
