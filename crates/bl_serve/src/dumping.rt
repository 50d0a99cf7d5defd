//! The server over an index of its own, which leaves the image of that index.

ghost use Rattle.std.specs.Prelude.{◌≡◌, ℕ, List, ◌+◌, ◌<◌, ◌≤◌, true, vec_len, IfOk, false, OnOk};
ghost use Rattle.bl_claims.specs.Trails.{history_of};
ghost use Rattle.bl_claims.specs.Seeing.{first_map};
ghost use Rattle.bl_index.specs.Calls.{first_of, pages_of};
ghost use Rattle.bl_serve_ground.specs.Leaving.{HoldMapAfter};
ghost use Rattle.bl_serve.specs.Dumps.{DumpedFrom};
ghost use Rattle.bl_serve_ground.specs.Origins.{HasPages, HasRows, sizes_of};
ghost use Rattle.bl_serve.specs.Origins.{MayServe, StopsFrom};
ghost use Rattle.bl_serve_ground.specs.Standing.{IsOwned, index_in};
ghost use Rattle.bl_serve.specs.Surviving.{Survives};
ghost use Rattle.bl_serve_ground.specs.Together.{AreTogether, seen_by};
ghost use Rattle.bl_serve.specs.Serving.{EndsServing};
ghost use Rattle.bl_model.specs.Rows.{map_of};
ghost use Rattle.bl_outside.specs.Crashes.{FindsOnly};
ghost use Rattle.std.specs.Io.KnownBytes.{Consumes};

use crate::serving::serve_with;
use crate::session::ServePlan;
use crate::starting::plan_of;
use crate::summary::Summary;
use bl_check::Quiet;
use bl_model::Watched;
use bl_outside::Outside;
use bl_serve_ground::{Origin, ground_of, open_index, own_index, shut};
use bl_serve_lines::{Sectioning, ServeFault, Totals};
use bl_serve_worker::{Gate, OpenGate};
use std::alloc::{AllocError, Global};
use std::io::{Read, Write};
use std::sync::Wait;
use std::thread::Threads;

/// Serves as `serve_index` does, and where that ended without a fault closes the index: behind the totals stands its image,
/// which is sound, or that there was no memory to close it.
///
/// What was written is served for what was read, and the rows of the image are the map after the history of what was served,
/// from the rows on that it began with: each answer that was written has its part in the image, and nothing else has.
pub fn dump_index<T: Threads + Wait + Sync, R: Read, W: Write>(
    rt: &T,
    alloc: Global,
    origin: Origin,
    workers: u32,
    compressors: u32,
    reader: &mut Watched<R>,
    writer: &mut Watched<W>,
) -> Result<(Totals, Result<Quiet, AllocError>), ServeFault>
    requires pages { HasPages origin }
    requires passes { (1 ≤ workers) × (workers + compressors ≤ 64) }
    ensures serves { EndsServing (λ t. DumpedFrom Sectioning.BySync origin 0 t.0 t.1) (StopsFrom Sectioning.BySync origin 0)
        (R.remaining reader.old.inner) (R.remaining reader.new.inner) (reader.new.failed ≡ true)
        (W.contents writer.old.inner) (W.contents writer.new.inner) (writer.new.failed ≡ true) result }
    ensures flushed { OnOk result (writer.new.pending ≡ false) }
{
    let plan = ServePlan {
        workers,
        compressors,
        sections: Sectioning::BySync,
        most: 0,
    };
    match dump_by_plan(rt, alloc, origin, plan, reader, writer, &OpenGate) {
        Ok((summary, closed)) => Ok((summary.totals, closed)),
        Err(fault) => Err(fault),
    }
}

/// The same by a plan, as `serve_by_plan` serves, and what else was counted.
pub fn dump_by_plan<T: Threads + Wait + Sync, R: Read, O: Outside, G: Gate + Sync>(
    rt: &T,
    alloc: Global,
    origin: Origin,
    plan: ServePlan,
    reader: &mut Watched<R>,
    outside: &mut O,
    gate: &G,
) -> Result<(Summary, Result<Quiet, AllocError>), ServeFault>
    requires pages { HasPages origin }
    requires passes { MayServe plan }
    requires log { O.is_modelled outside.old → (rows : List (ℕ × ℕ)) × HasRows origin rows × O.holds outside.old (map_of rows) }
    ensures serves { EndsServing (λ t. DumpedFrom plan.sections origin plan.most t.0.totals t.1) (StopsFrom plan.sections origin plan.most)
        (R.remaining reader.old.inner) (R.remaining reader.new.inner) (reader.new.failed ≡ true)
        (O.printed outside.old) (O.printed outside.new) (O.has_failed outside.new) result }
    ensures flushed { OnOk result (O.is_flushed outside.new) }
    // What a crash finds at any moment.
    ensures any_moment { O.is_modelled outside.old → (rows : List (ℕ × ℕ)) → HasRows origin rows
        → (read : List ℕ) × Consumes (R.remaining reader.old.inner) (R.remaining reader.new.inner) read
        × FindsOnly O.moment O.finds outside.old outside.new (Survives plan.sections (sizes_of origin plan.most) (map_of rows) read (O.printed outside.old)) }
{
    let threads = plan_of(plan);
    let (index, passes) = open_index(alloc, origin, plan.workers + plan.compressors)?;
    let ground = ground_of(index, plan.most);
    match serve_with(rt, ground, passes, reader, outside, gate, threads) {
        Ok((summary, ground, passes)) => Ok((summary, shut(alloc, own_index(ground), passes))),
        Err(fault) => Err(fault),
    }
}
