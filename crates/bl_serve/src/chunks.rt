//! A chunk of a section is answered: its lines are dealt into shares, threads work on them, and all are joined.

ghost use Rattle.std.specs.Vec.{vec_capacity};
ghost use Rattle.std.specs.Prelude.{◌≡◌, ℕ, List, [], suc, ◌+◌, ◌<◌, ◌≤◌, ◌^◌, ◌++◌, true, false, length, flat_map, All, IfOk, IfErr, OnOk, vec_len};
ghost use Rattle.bl_index.specs.Calls.{first_of, pages_of};
ghost use Rattle.bl_map.specs.Handles.{seats_of};
ghost use Rattle.bl_map.specs.Meetings.{IsSeated};
ghost use Rattle.bl_serve.specs.Meetings.{AllMeet};
ghost use Rattle.std.specs.Thread.{IsSync};
ghost use Rattle.std.specs.Io.KnownBytes.{Consumes};
ghost use Rattle.bl_serve_reading.specs.Reading.{ReadsOn};
ghost use Rattle.bl_serve.specs.Chunks.{IsChunk, Collects, WorkOn};
ghost use Rattle.bl_serve.specs.Noting.{NoteMore, StillLead};
ghost use Rattle.bl_serve.specs.Holding.{AreMet, HoldsChunk, HoldsSection};
ghost use Rattle.bl_serve.specs.Serving.{IsInside};
ghost use Rattle.bl_serve_ground.specs.Standing.{IsAtRest, index_in, map_in, sizes_in};

use crate::dealing::{deal, shares_for};
use crate::growing::with_room;
use crate::joining::join_outputs;
use crate::meeting::meet_all;
use crate::session::{Crew, Session, ThreadPlan};
use bl_changes::{Changes, histories_lead};
use bl_index::{Index, Pass};
use bl_map::{Handle, give_seats, handles_over};
use bl_model::Watched;
use bl_serve_lines::ServeFault;
use bl_serve_reading::{ParsedLines, ReadAhead, read_on};
use bl_serve_worker::{Chunk, Gate, Role, Service, ShareOutput, Slot, Wakeup, work_on};
use crossbeam_channel::{Receiver, unbounded};
use std::alloc::{AllocError, Global};
use std::io::Read;
use std::sync::Wait;
use std::thread::{Threads, join_mut};

/// A thread takes as long to start and to join as so many requests take, about.
const REQUESTS_A_THREAD: usize = 512;

/// With so many requests, deletions among them, compressors work beside the workers.
const MANY: usize = 4096;

/// Shares of so many lines, one after another, in a channel that takes no more.
fn given_out<R: Wait>(rt: &R, alloc: Global, shares: usize) -> Result<Receiver<u8>, AllocError>
    requires { shares ≤ 256 }
{
    let (sender, receiver) = unbounded(alloc)?;
    for share in 0..shares {
        if sender.send(rt, share as u8).is_err() {
            return Err(AllocError);
        }
    }
    Ok(receiver)
}

/// What the handle of that number does: the first so many serve, the others compress.
fn role_of(number: usize, workers: usize) -> Role {
    if number < workers {
        Role::Serve
    } else {
        Role::Compress
    }
}

/// A slot for each of so many handles, of which the first so many serve.
pub fn new_slots(alloc: Global, count: usize, workers: usize) -> Result<Vec<Slot>, AllocError>
    ensures { IfOk result (λ v. vec_len v ≡ count) }
{
    let mut slots = Vec::with_capacity(alloc, count)?;
    for number in 0..count {
        slots.push(Slot {
            role: role_of(number, workers),
            last: number + 1 == count,
            log: Vec::new(alloc),
            changes: Changes::new(alloc),
            norooms: 0,
            failed: false,
        })?;
    }
    Ok(slots)
}

/// How many threads are worth their time. Few requests are answered by this thread; else there are two at least, and more where
/// there are more requests, up to the number of workers. Where there are many, and deletions among them, all handles work at once.
fn threads_for(lines: &ParsedLines, plan: ThreadPlan, handles: usize) -> usize {
    let operations = lines.operations();
    let deletions = lines.deletions();
    if operations < plan.alone {
        1
    } else if operations >= MANY && deletions > 0 {
        handles
    } else {
        (operations / REQUESTS_A_THREAD).max(2).min(plan.workers)
    }
}

/// Where the share of the last one of so many threads begins: it has as many of the handles as any other, or one more. 0 where one
/// thread has them all.
fn last_share(handles: usize, threads: usize) -> usize {
    handles.saturating_sub(handles.div_ceil(threads.max(1)))
}

/// The handles work one after another, each at its slot.
fn work_in_turn<R: Wait, G: Gate>(
    rt: &R,
    chunk: &Chunk<'_, G>,
    handles: &mut [Handle<'_>],
    slots: &mut [Slot],
)
    requires { length slots.old ≡ length handles.old }
    ensures { WorkOn chunk.now.service.now.keeps (suc chunk.now.before) chunk.now.deals.now chunk.now.lines.now handles.old handles.new slots.new }
{
    for number in 0..handles.len() {
        work_on(rt, chunk, &mut handles[number], &mut slots[number]);
    }
}

/// Reads on, and then all handles work, in this thread.
fn work_alone<R: Wait, G: Gate, I: Read>(
    rt: &R,
    chunk: &Chunk<'_, G>,
    handles: &mut [Handle<'_>],
    slots: &mut [Slot],
    reader: &mut Watched<I>,
    ahead: &mut ReadAhead,
)
    requires { length slots.old ≡ length handles.old }
    ensures turns { WorkOn chunk.now.service.now.keeps (suc chunk.now.before) chunk.now.deals.now chunk.now.lines.now handles.old handles.new slots.new }
    ensures reads { ReadsOn ahead.old ahead.new (I.remaining reader.old.inner) (I.remaining reader.new.inner) (reader.new.failed ≡ true) }
{
    read_on(reader, ahead);
    work_in_turn(rt, chunk, handles, slots);
}

/// The handles work, in so many threads. This thread makes all others, and works as they do: a thread that another new
/// one makes would often wait for a processor. Before it works it reads on. The last ones get a thread first: where none can be
/// made, they work behind all others, so no compressor waits for a worker that has not begun. Where there is no memory to
/// part the handles, this thread does the rest alone.
#[cycle(abreast)]
fn work_abreast<R: Threads + Wait + Sync, G: Gate + Sync, I: Read>(
    rt: &R,
    chunk: &Chunk<'_, G>,
    threads: usize,
    handles: &mut Vec<Handle<'_>>,
    slots: &mut [Slot],
    reader: &mut Watched<I>,
    ahead: &mut ReadAhead,
) -> Result<(), AllocError>
    requires { length slots.old ≡ vec_len handles.old }
    ensures turns { OnOk result (WorkOn chunk.now.service.now.keeps (suc chunk.now.before) chunk.now.deals.now chunk.now.lines.now
        handles.old.items handles.new.items slots.new) }
    ensures reads { ReadsOn ahead.old ahead.new (I.remaining reader.old.inner) (I.remaining reader.new.inner) (reader.new.failed ≡ true) }
{
    let place = last_share(slots.len(), threads);
    if place == 0 || handles.len() <= place {
        work_alone(rt, chunk, handles.as_mut_slice(), slots, reader, ahead);
        return Ok(());
    }
    let Ok(mut some) = handles.split_off(place) else {
        work_alone(rt, chunk, handles.as_mut_slice(), slots, reader, ahead);
        return Ok(());
    };
    let (rest, theirs) = slots.split_at_mut(place);
    let (_, worked) = join_mut(
        rt,
        &mut ||
            requires { length theirs.now ≡ vec_len some }
            ensures { WorkOn chunk.entry.now.service.now.keeps (suc chunk.entry.now.before) chunk.entry.now.deals.now chunk.entry.now.lines.now
                some.entry.items some.exit.items theirs.exit.now }
        { work_in_turn(rt, chunk, some.as_mut_slice(), theirs) },
        &mut ||
            requires { IsSync R.row × IsSync G.row × (length rest.now ≡ vec_len handles.now) }
            ensures turns { OnOk result (WorkOn chunk.entry.now.service.now.keeps (suc chunk.entry.now.before) chunk.entry.now.deals.now
                chunk.entry.now.lines.now handles.entry.now.items handles.exit.now.items rest.exit.now) }
            ensures reads { ReadsOn ahead.entry.now ahead.exit.now (I.remaining reader.entry.now.inner) (I.remaining reader.exit.now.inner)
                (reader.exit.now.failed ≡ true) }
        {
            work_abreast(
                rt,
                chunk,
                threads.saturating_sub(1),
                handles,
                rest,
                reader,
                ahead,
            )
        },
    );
    worked?;
    handles.append(&mut some)
}

/// The outputs in a slot go behind the rest, if there was memory for all of them.
fn take_outputs(slot: &mut Slot, outputs: &mut Vec<ShareOutput>) -> Result<(), AllocError>
    ensures { OnOk result ((slot.old.failed ≡ false) × (outputs.new.items ≡ outputs.old.items ++ slot.old.log.items)) }
{
    if slot.failed {
        return Err(AllocError);
    }
    outputs.append(&mut slot.log)
}

/// The outputs in all slots.
fn collect_outputs(alloc: Global, slots: &mut Vec<Slot>) -> Result<Vec<ShareOutput>, AllocError>
    ensures len { vec_len slots.new ≡ vec_len slots.old }
    ensures collects { IfOk result (λ outputs. Collects slots.old.items outputs.items) }
{
    let mut outputs = Vec::new(alloc);
    for number in 0..slots.len() {
        take_outputs(&mut slots[number], &mut outputs)?;
    }
    Ok(outputs)
}

/// The changes in all slots go behind the rest.
fn collect_changes(slots: &[Slot], changes: &mut Changes) -> Result<(), AllocError>
    ensures came { OnOk result (changes.new.came.items ≡ changes.old.came.items ++ flat_map (λ s. s.changes.came.items) slots.now) }
    ensures went { OnOk result (changes.new.went.items ≡ changes.old.went.items ++ flat_map (λ s. s.changes.went.items) slots.now) }
{
    let mut rest = slots;
    while let [slot, after @ ..] = rest {
        changes.take(&slot.changes)?;
        rest = after;
    }
    Ok(())
}

/// Answers the lines of a chunk, each handle at the slot that has its place. The output goes behind the text, and what was changed behind
/// the changes.
fn answer_chunk<'a, 'b, R: Threads + Wait + Sync, G: Gate + Sync, I: Read>(
    rt: &R,
    service: &'a Service<'a, G>,
    index: &Index,
    session: Crew<'b>,
    lines: &'a ParsedLines,
    reader: &mut Watched<I>,
    ahead: &mut ReadAhead,
) -> Result<Crew<'b>, ServeFault>
    requires met { AreMet index.now session.handles.items }
    requires room { session.totals.requests + length lines.now < 2 ^ 64 }
    ensures totals { IfOk result (λ back. back.totals ≡ session.entry.totals) }
    ensures fault { IfErr result (IsInside session.entry.totals.requests (length lines.now)) }
    ensures reads { OnOk result (ReadsOn ahead.old ahead.new (I.remaining reader.old.inner) (I.remaining reader.new.inner) (reader.new.failed ≡ true)) }
    ensures consumes { (more : List ℕ) × Consumes (I.remaining reader.old.inner) (I.remaining reader.new.inner) more }
    ensures chunk { IfOk result (λ back. (more : List ℕ) × (back.text.items ≡ session.entry.text.items ++ more)
        × IsChunk (first_of index.now) (pages_of index.now) (suc session.entry.totals.requests) lines.now more
        (seats_of session.entry.handles.items) (seats_of back.handles.items)) }
    ensures noted { IfOk result (λ back. service.now.keeps ≡ true
        → NoteMore (seats_of session.entry.handles.items) session.entry.changes (seats_of back.handles.items) back.changes) }
{
    let Crew {
        plan,
        mut handles,
        mut slots,
        totals,
        remarks,
        mut changes,
        mut text,
    } = session;
    let _ = index;
    let (alloc, before) = (service.alloc, totals.requests);
    let threads = threads_for(lines, plan, handles.len());
    let shares = shares_for(lines.len(), threads.min(plan.workers));
    let deals = deal(alloc, lines.as_slice(), shares)?;
    let receiver = given_out(rt, alloc, shares)?;
    let wakeup = Wakeup::new(plan.workers as u64);
    // Lent anew, for as long as the chunk is there.
    let chunk = Chunk {
        service: &*service,
        wakeup: &wakeup,
        shares: &receiver,
        lines: lines.as_slice(),
        names: lines.names(),
        deals: deals.as_slice(),
        before,
        last: ahead.is_last,
    };
    let places = slots.as_mut_slice();
    work_abreast(rt, &chunk, threads, &mut handles, places, reader, ahead)?;
    collect_changes(slots.as_slice(), &mut changes)?;
    let outputs = collect_outputs(alloc, &mut slots)?;
    let dealt = deals.as_slice();
    join_outputs(alloc, outputs, dealt, shares, before, &mut text)?;
    Ok(Crew {
        plan,
        handles,
        slots,
        totals,
        remarks,
        changes,
        text,
    })
}

/// The handles of a session meet.
fn met<'a>(index: &Index, session: Crew<'a>) -> Result<Crew<'a>, AllocError>
    requires { All (IsSeated index.now) session.handles.items }
    ensures { IfOk result (λ back. (back.totals ≡ session.entry.totals) × (back.changes ≡ session.entry.changes)
        × (back.text.items ≡ session.entry.text.items)
        × AllMeet (first_of index.now) (seats_of session.entry.handles.items) (seats_of back.handles.items)) }
{
    let Crew {
        plan,
        mut handles,
        slots,
        totals,
        remarks,
        changes,
        text,
    } = session;
    meet_all(index, &mut handles)?;
    Ok(Crew {
        plan,
        handles,
        slots,
        totals,
        remarks,
        changes,
        text,
    })
}

/// Answers the lines of a chunk by handles of this index that have met, and lets them meet again. The output goes behind the text.
fn work_chunk<'a, R: Threads + Wait + Sync, G: Gate + Sync, I: Read>(
    rt: &R,
    service: &Service<'_, G>,
    index: &Index,
    session: Crew<'a>,
    lines: &ParsedLines,
    reader: &mut Watched<I>,
    ahead: &mut ReadAhead,
) -> Result<Crew<'a>, ServeFault>
    requires met { AreMet index.now session.handles.items }
    requires room { session.totals.requests + length lines.now < 2 ^ 64 }
    ensures totals { IfOk result (λ back. back.totals ≡ session.entry.totals) }
    ensures paired { IfOk result (λ back. (0 < vec_len back.handles) × (vec_len back.slots ≡ vec_len back.handles)) }
    ensures reads { OnOk result (ReadsOn ahead.old ahead.new (I.remaining reader.old.inner) (I.remaining reader.new.inner) (reader.new.failed ≡ true)) }
    ensures consumes { (more : List ℕ) × Consumes (I.remaining reader.old.inner) (I.remaining reader.new.inner) more }
    ensures held { IfOk result (λ back. (more : List ℕ) × (back.text.items ≡ session.entry.text.items ++ more)
        × HoldsChunk index.now session.entry.totals.requests lines.now more
        (seats_of session.entry.handles.items) (seats_of back.handles.items)) }
    ensures fault { IfErr result (IsInside session.entry.totals.requests (length lines.now)) }
    ensures noted { IfOk result (λ back. service.now.keeps ≡ true
        → NoteMore (seats_of session.entry.handles.items) session.entry.changes (seats_of back.handles.items) back.changes) }
{
    let session = answer_chunk(rt, service, index, session, lines, reader, ahead)?;
    Ok(met(index, session)?)
}

/// How many pages are free, where these are the handles of an index and nobody works. They are counted as pages are taken and given back.
fn free_by(handles: &[Handle<'_>]) -> u64 {
    match handles {
        [first, ..] => first.free_pages(),
        [] => 0,
    }
}

/// The seats of handles, in the vector from which they were taken.
fn seats_back(handles: Vec<Handle<'_>>, passes: Vec<Pass>) -> Vec<Pass>
    requires room { vec_len passes + vec_len handles ≤ vec_capacity passes }
    requires none { passes.items ≡ [] }
    ensures { result.items ≡ seats_of handles.entry.items }
{
    let mut passes = passes;
    give_seats(handles, &mut passes);
    passes
}

/// Answers the lines of a chunk by all passes of the index, which have met, and lets them meet again.
fn answer_at<'a, R: Threads + Wait + Sync, G: Gate + Sync, I: Read>(
    rt: &R,
    service: &Service<'_, G>,
    session: Session<'a>,
    lines: &ParsedLines,
    reader: &mut Watched<I>,
    ahead: &mut ReadAhead,
) -> Result<Session<'a>, ServeFault>
    requires rests { IsAtRest session.ground session.passes.items }
    requires room { session.totals.requests + length lines.now < 2 ^ 64 }
    ensures totals { IfOk result (λ back. back.totals ≡ session.entry.totals) }
    ensures reads { OnOk result (ReadsOn ahead.old ahead.new (I.remaining reader.old.inner) (I.remaining reader.new.inner) (reader.new.failed ≡ true)) }
    ensures consumes { (more : List ℕ) × Consumes (I.remaining reader.old.inner) (I.remaining reader.new.inner) more }
    ensures ground { IfOk result (λ back. back.ground ≡ session.entry.ground) }
    ensures held { IfOk result (λ back. (more : List ℕ) × (back.text.items ≡ session.entry.text.items ++ more)
        × HoldsChunk (index_in session.entry.ground) session.entry.totals.requests lines.now more session.entry.passes.items back.passes.items) }
    ensures fault { IfErr result (IsInside session.entry.totals.requests (length lines.now)) }
    ensures noted { IfOk result (λ back. service.now.keeps ≡ true
        → NoteMore session.entry.passes.items session.entry.changes back.passes.items back.changes) }
{
    let Session {
        plan,
        ground,
        mut passes,
        spare,
        slots,
        totals,
        remarks,
        changes,
        text,
    } = session;
    let index = ground.index();
    let handles = handles_over(index, &mut passes)?;
    let crew = Crew {
        plan,
        handles,
        slots,
        totals,
        remarks,
        changes,
        text,
    };
    let Crew {
        plan,
        handles,
        slots,
        totals,
        remarks,
        changes,
        text,
    } = work_chunk(rt, service, index, crew, lines, reader, ahead)?;
    let free = free_by(handles.as_slice());
    let passes = seats_back(handles, passes);
    Ok(Session {
        plan,
        ground,
        passes,
        spare: spare.having(free),
        slots,
        totals,
        remarks,
        changes,
        text,
    })
}

/// Answers the lines of a chunk, once the index has room for them, and where it may grow is larger for that. The output goes behind the text.
/// What was noted leads on to the map that is left.
pub fn run_chunk<'a, R: Threads + Wait + Sync, G: Gate + Sync, I: Read>(
    rt: &R,
    service: &Service<'_, G>,
    session: Session<'a>,
    lines: &ParsedLines,
    reader: &mut Watched<I>,
    ahead: &mut ReadAhead,
) -> Result<Session<'a>, ServeFault>
    requires rests { IsAtRest session.ground session.passes.items }
    requires room { session.totals.requests + length lines.now < 2 ^ 64 }
    ensures totals { IfOk result (λ back. back.totals ≡ session.entry.totals) }
    ensures reads { OnOk result (ReadsOn ahead.old ahead.new (I.remaining reader.old.inner) (I.remaining reader.new.inner) (reader.new.failed ≡ true)) }
    ensures consumes { (more : List ℕ) × Consumes (I.remaining reader.old.inner) (I.remaining reader.new.inner) more }
    ensures held { IfOk result (λ back. (more : List ℕ) × (back.text.items ≡ session.entry.text.items ++ more)
        × HoldsSection (sizes_in session.entry.ground) session.entry.ground session.entry.totals.requests lines.now more
        session.entry.passes.items back.ground back.passes.items) }
    ensures fault { IfErr result (IsInside session.entry.totals.requests (length lines.now)) }
    ensures leads { IfOk result (λ back. service.now.keeps ≡ true
        → StillLead session.entry.changes (map_in session.entry.ground session.entry.passes.items) back.changes (map_in back.ground back.passes.items)) }
{
    // The law by which what was noted leads from map to map.
    histories_lead();
    let session = with_room(service.alloc, session, lines)?;
    let back = answer_at(rt, service, session, lines, reader, ahead)?;
    Ok(back)
}
