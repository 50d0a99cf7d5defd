//! What a thread does for a chunk: a worker takes shares of lines from a channel, a compressor follows hints.

ghost use Rattle.std.specs.Prelude.{◌≡◌, suc, [], OnOk};
ghost use Rattle.bl_map.specs.Handles.{IsSameHandle, HasKeptUp, first_map_of, pages_of_map, number_of_seat, seen_by};
ghost use Rattle.bl_serve_worker.specs.Noting.{Notes};
ghost use Rattle.bl_serve_worker.specs.Shares.{Logs, WorksOn};

use crate::answering::answer_share;
use crate::aside::Aside;
use crate::chunk::{Chunk, Role, ShareOutput, Slot};
use crate::gate::Gate;
use crate::wakeup::follow_hints;
use bl_map::Handle;
use std::alloc::AllocError;
use std::sync::Wait;

/// Answers the lines of a share.
fn serve_share<R: Wait, G: Gate>(
    rt: &R,
    chunk: &Chunk<'_, G>,
    aside: &mut Aside<'_>,
    handle: &mut Handle<'_>,
    log: &mut Vec<ShareOutput>,
    share: u8,
) -> Result<(), AllocError>
    ensures same { IsSameHandle handle.old handle.new }
    ensures logs { OnOk result (Logs (first_map_of handle.old) (pages_of_map handle.old) (suc chunk.now.before) chunk.now.deals.now chunk.now.lines.now
        (number_of_seat handle.old) (seen_by handle.old) (seen_by handle.new) log.old.items log.new.items) }
    ensures noted { OnOk result (Notes handle.old aside.old handle.new aside.new) }
{
    let output = answer_share(rt, chunk, aside, handle, share)?;
    log.push(output)?;
    Ok(())
}

/// Takes shares from the channel until there are no more, and answers their lines.
fn serve_shares<R: Wait, G: Gate>(
    rt: &R,
    chunk: &Chunk<'_, G>,
    aside: &mut Aside<'_>,
    handle: &mut Handle<'_>,
    log: &mut Vec<ShareOutput>,
) -> Result<(), AllocError>
    ensures same { IsSameHandle handle.old handle.new }
    ensures logs { OnOk result (Logs (first_map_of handle.old) (pages_of_map handle.old) (suc chunk.now.before) chunk.now.deals.now chunk.now.lines.now
        (number_of_seat handle.old) (seen_by handle.old) (seen_by handle.new) log.old.items log.new.items) }
    ensures noted { OnOk result (Notes handle.old aside.old handle.new aside.new) }
{
    for _ in rt.forever() {
        let Ok(share) = chunk.shares.recv(rt) else {
            return Ok(());
        };
        serve_share(rt, chunk, aside, handle, log, share)?;
        chunk.wakeup.ring_for_hints(chunk.service.hints);
    }
    unreachable!()
}

/// A worker answers lines, and leaves the output and the changes in its slot. Those lines that found no room are added to what the slot
/// has counted.
fn serve_at<R: Wait, G: Gate>(
    rt: &R,
    chunk: &Chunk<'_, G>,
    handle: &mut Handle<'_>,
    slot: &mut Slot,
)
    ensures { WorksOn chunk.now.service.now.keeps (suc chunk.now.before) chunk.now.deals.now chunk.now.lines.now handle.old handle.new slot.new }
{
    let service = chunk.service;
    let mut log = Vec::new(service.alloc);
    let mut aside = Aside::new(service.alloc, service.hints, service.keeps);
    let served = serve_shares(rt, chunk, &mut aside, handle, &mut log);
    slot.failed = served.is_err() | aside.has_failed();
    slot.norooms = slot.norooms.saturating_add(aside.norooms());
    slot.log = log;
    slot.changes = aside.into_changes();
    chunk.wakeup.worker_done();
}

/// A compressor follows hints. It writes nothing, and changes no row.
fn compress_at<R: Wait, G: Gate>(
    rt: &R,
    chunk: &Chunk<'_, G>,
    handle: &mut Handle<'_>,
    slot: &mut Slot,
)
    ensures same { IsSameHandle handle.old handle.new }
    ensures kept { HasKeptUp handle.old handle.new }
    ensures empty { slot.new.log.items ≡ [] }
    ensures unchanged { (slot.new.changes.came.items ≡ []) × (slot.new.changes.went.items ≡ []) }
{
    slot.log.clear();
    slot.changes.clear();
    let service = chunk.service;
    follow_hints(rt, service.hints, chunk.wakeup, handle);
}

/// A handle answers lines or follows hints, as its slot says.
fn work_at<R: Wait, G: Gate>(rt: &R, chunk: &Chunk<'_, G>, handle: &mut Handle<'_>, slot: &mut Slot)
    ensures { WorksOn chunk.now.service.now.keeps (suc chunk.now.before) chunk.now.deals.now chunk.now.lines.now handle.old handle.new slot.new }
{
    match slot.role {
        Role::Serve => serve_at(rt, chunk, handle, slot),
        Role::Compress => compress_at(rt, chunk, handle, slot),
    }
}

/// Behind the last line the last handle puts the index in order, once all workers have ended. All of them have begun: a thread does the
/// work of its handles in their order, and that of the last threads comes behind all others where there is no thread for them.
fn tidy_at_last<R: Wait, G: Gate>(
    rt: &R,
    chunk: &Chunk<'_, G>,
    handle: &mut Handle<'_>,
    slot: &Slot,
)
    ensures same { IsSameHandle handle.old handle.new }
    ensures kept { HasKeptUp handle.old handle.new }
{
    if chunk.last && slot.last {
        chunk.wakeup.wait_for_workers(rt);
        handle.tidy(rt);
    }
}

/// A handle does what its slot says for one chunk, and what is due behind the last line.
pub fn work_on<R: Wait, G: Gate>(
    rt: &R,
    chunk: &Chunk<'_, G>,
    handle: &mut Handle<'_>,
    slot: &mut Slot,
)
    ensures { WorksOn chunk.now.service.now.keeps (suc chunk.now.before) chunk.now.deals.now chunk.now.lines.now handle.old handle.new slot.new }
{
    work_at(rt, chunk, handle, slot);
    tidy_at_last(rt, chunk, handle, slot);
}
