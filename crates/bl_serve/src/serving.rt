//! The server: sections are read, answered and written.

ghost use Rattle.std.specs.Prelude.{◌≡◌, ℕ, ◌+◌, ◌-◌, ◌<◌, ◌≤◌, ◌^◌, ◌↔◌, IsTrue, List, [], ◌++◌, length, min, Option, Ok, true, count_by, is_none, vec_len, IfOk, IfErr, OnOk, MatchResult, false};
ghost use Rattle.std.specs.Io.KnownBytes.{Appends, Consumes, IsAtEnd};
ghost use Rattle.bl_serve_lines.specs.Served.{Stops};
ghost use Rattle.bl_index.specs.Calls.{first_of, pages_of, map_after};
ghost use Rattle.bl_journal.specs.Rows.{Leads};
ghost use Rattle.bl_outside.specs.Crashes.{FindsOnly};
ghost use Rattle.bl_serve.specs.Holding.{ServesOn, ServesSection};
ghost use Rattle.bl_serve.specs.Noting.{StillLead};
ghost use Rattle.bl_serve_reading.specs.Reading.{EndsReading, ReadsOn};
ghost use Rattle.bl_serve.specs.Sections.{CountsSection, rests};
ghost use Rattle.bl_serve.specs.Surviving.{Survives};
ghost use Rattle.bl_serve_ground.specs.Together.{AreTogether, seen_by};
ghost use Rattle.bl_serve.specs.Serving.{EndsServing, FailsSection, IsInside, Serves};
ghost use Rattle.bl_serve_ground.specs.Standing.{IsAtRest, map_in, sizes_in};

use crate::chunks::{new_slots, run_chunk};
use crate::session::{Session, ThreadPlan};
use crate::summary::{Remarks, Summary, summed_up};
use bl_changes::Changes;
use bl_hints::Hints;
use bl_index::{Index, Pass};
use bl_model::Watched;
use bl_outside::{Outside, keep_and_print};
use bl_serve_ground::{Ground, Spare};
use bl_serve_lines::print::{Response, push_line};
use bl_serve_lines::request::Request;
use bl_serve_lines::{Sectioning, ServeFault, Totals};
use bl_serve_reading::{ParsedLines, ReadAhead, SectionEnd, read_on};
use bl_serve_worker::{Gate, Service};
use std::alloc::{AllocError, Global};
use std::io::{Read, Write};
use std::mem;
use std::sync::Wait;
use std::thread::Threads;

/// Counts the lines of a section.
fn count(totals: &mut Totals, lines: &ParsedLines, end: SectionEnd)
    requires requests { totals.old.requests + length lines.now + rests end < 2 ^ 64 }
    requires malformed { totals.old.malformed ≤ totals.old.requests }
    requires sections { totals.old.sections ≤ totals.old.requests }
    ensures { CountsSection totals.old totals.new lines.now end }
{
    totals.requests += lines.len() as u64;
    totals.malformed += lines.malformed() as u64;
    totals.sections += lines.syncs() as u64;
    match end {
        SectionEnd::Rest => {
            totals.requests += 1;
            totals.malformed += 1;
        }
        SectionEnd::ByLine | SectionEnd::Finished => {}
    }
}

/// So many lines of a section are read before any is answered: nobody else works meanwhile.
const FIRST_CHUNK: u64 = 4_096;

/// While lines are answered, twice as many are read, and so many at most.
const LONGEST_CHUNK: u64 = 24_576;

/// How many lines are read behind a chunk of so many.
fn chunk_behind(chunk: u64) -> u64 {
    chunk.saturating_mul(2).min(LONGEST_CHUNK)
}

/// How many lines are read next, behind so many others, for a chunk of so many.
fn most_behind(requests: u64, chunk: u64) -> u64
    ensures { result ≡ min chunk (2 ^ 64 - 1 - requests) }
{
    chunk.min(u64::MAX - requests)
}

/// Whether a section may go on behind lines that were read together for a chunk of so many, with that end.
fn goes_on(end: SectionEnd, count: usize, chunk: u64) -> bool
    ensures { IsTrue result ↔ ((end ≡ SectionEnd.Finished) × (chunk ≤ count)) }
{
    end == SectionEnd::Finished && chunk <= count as u64
}

/// Whether the input ends with lines that were read together, with that end, behind which the section is open or not.
fn is_last(open: bool, end: SectionEnd) -> bool {
    !open && end != SectionEnd::ByLine
}

/// Answers lines that were read together, counts them, and reads on meanwhile. Bytes after the last LF are a malformed line. The output
/// goes behind the text.
fn serve_chunk<'a, T: Threads + Wait + Sync, R: Read, G: Gate + Sync>(
    rt: &T,
    service: &Service<'_, G>,
    session: Session<'a>,
    lines: &ParsedLines,
    end: SectionEnd,
    reader: &mut Watched<R>,
    ahead: &mut ReadAhead,
) -> Result<Session<'a>, ServeFault>
    requires rests { IsAtRest session.ground session.passes.items }
    requires requests { session.totals.requests + length lines.now + rests end < 2 ^ 64 }
    ensures counts { IfOk result (λ back. CountsSection session.entry.totals back.totals lines.now end) }
    ensures serves { IfOk result (λ back. (more : List ℕ) × (back.text.items ≡ session.entry.text.items ++ more)
        × ServesSection (sizes_in session.entry.ground) session.entry.ground session.entry.totals.requests lines.now end more
        session.entry.passes.items back.ground back.passes.items) }
    ensures reads { OnOk result (ReadsOn ahead.old ahead.new (R.remaining reader.old.inner) (R.remaining reader.new.inner) (reader.new.failed ≡ true)) }
    ensures consumes { (more : List ℕ) × Consumes (R.remaining reader.old.inner) (R.remaining reader.new.inner) more }
    ensures fault { IfErr result (IsInside session.entry.totals.requests (length lines.now)) }
    ensures leads { IfOk result (λ back. service.now.keeps ≡ true
        → StillLead session.entry.changes (map_in session.entry.ground session.entry.passes.items) back.changes (map_in back.ground back.passes.items)) }
{
    let mut session = run_chunk(rt, service, session, lines, reader, ahead)?;
    let before = session.totals.requests;
    session.remarks.look_at(lines, end, before);
    count(&mut session.totals, lines, end);
    if end != SectionEnd::Rest {
        return Ok(session);
    }
    let number = session.totals.requests;
    push_line(&mut session.text, number, &Response::Malformed)?;
    Ok(session)
}

/// The same session, with no changes and no text. What text it had is measured.
fn emptied(session: Session<'_>) -> Session<'_>
    ensures text { result.text.items ≡ [] }
    ensures came { result.changes.came.items ≡ [] }
    ensures went { result.changes.went.items ≡ [] }
    ensures ground { result.ground ≡ session.entry.ground }
    ensures passes { result.passes.items ≡ session.entry.passes.items }
    ensures totals { result.totals ≡ session.entry.totals }
{
    let mut session = session;
    let bytes = session.text.len();
    session.remarks.measure(bytes);
    session.changes.clear();
    session.text.clear();
    session
}

/// Reads a section, answers it and counts its lines, in chunks: while the lines of one are answered, the next ones are read. The
/// text then holds the output, and nothing else. Where changes are noted, they lead from the map before the section to that behind it.
fn serve_section<'a, T: Threads + Wait + Sync, R: Read, G: Gate + Sync>(
    rt: &T,
    service: &Service<'_, G>,
    session: Session<'a>,
    lines: &mut ParsedLines,
    reader: &mut Watched<R>,
    ahead: &mut ReadAhead,
) -> Result<(Session<'a>, SectionEnd), ServeFault>
    requires rests { IsAtRest session.ground session.passes.items }
    requires requests { session.totals.requests < 2 ^ 64 }
    ensures serves { (requests : List (Option Request)) × (rest : List ℕ) × (more : List ℕ)
        × Consumes (R.remaining reader.old.inner) (R.remaining reader.new.inner) more
        × MatchResult result
        (λ t. EndsReading service.now.sections (Ok t.1) (2 ^ 64 - 1 - session.entry.totals.requests) requests rest (ahead.old.source ++ more) ahead.new.source
        (IsAtEnd (R.remaining reader.new.inner)) (reader.new.failed ≡ true)
        × CountsSection session.entry.totals t.0.totals requests t.1
        × ServesSection (sizes_in session.entry.ground) session.entry.ground session.entry.totals.requests requests t.1 t.0.text.items
        session.entry.passes.items t.0.ground t.0.passes.items)
        (λ fault. (left : List ℕ) × FailsSection service.now.sections fault session.entry.totals.requests (2 ^ 64 - 1 - session.entry.totals.requests) requests rest
        (ahead.old.source ++ more) left (IsAtEnd (R.remaining reader.new.inner)) (reader.new.failed ≡ true)) }
    ensures leads { IfOk result (λ t. service.now.keeps ≡ true → Leads t.0.changes.came.items t.0.changes.went.items
        (map_in session.entry.ground session.entry.passes.items) (map_in t.0.ground t.0.passes.items)) }
{
    let mut session = emptied(session);
    let mut chunk = FIRST_CHUNK;
    let first = session.totals.requests;
    ahead.most = most_behind(first, chunk);
    ahead.sections = service.sections;
    read_on(reader, ahead);
    for _ in rt.forever() {
        let end = ahead.end?;
        mem::swap(lines, &mut ahead.lines);
        let open = goes_on(end, lines.len(), chunk);
        ahead.is_last = is_last(open, end);
        chunk = chunk_behind(chunk);
        let requests = session.totals.requests;
        ahead.most = if open {
            most_behind(requests + lines.len() as u64, chunk)
        } else {
            0
        };
        ahead.sections = ahead.sections.behind(lines.len() as u64);
        let back = serve_chunk(rt, service, session, lines, end, reader, ahead)?;
        session = back;
        if !open {
            return Ok((session, end));
        }
    }
    unreachable!()
}

/// Serves all sections from the first line on. When one has ended, what it has changed is kept, and then its output is printed.
fn serve_sections<'a, T: Threads + Wait + Sync, R: Read, O: Outside, G: Gate + Sync>(
    rt: &T,
    service: &Service<'_, G>,
    session: Session<'a>,
    reader: &mut Watched<R>,
    outside: &mut O,
) -> Result<Session<'a>, ServeFault>
    requires rests { IsAtRest session.ground session.passes.items }
    requires first { (session.totals.requests ≡ 0) × (session.totals.malformed ≡ 0) × (session.totals.sections ≡ 0) }
    requires log { O.is_modelled outside.old → (service.now.keeps ≡ true)
        × O.holds outside.old (map_in session.ground session.passes.items) }
    ensures serves { EndsServing (λ s. ServesOn service.now.sections session.entry.ground session.entry.passes.items s.ground s.passes.items s.totals)
        (Stops service.now.sections (sizes_in session.entry.ground) (map_in session.entry.ground session.entry.passes.items))
        (R.remaining reader.old.inner) (R.remaining reader.new.inner) (reader.new.failed ≡ true)
        (O.printed outside.old) (O.printed outside.new) (O.has_failed outside.new) result }
    ensures flushed { OnOk result (O.is_flushed outside.new) }
    // What a crash finds at any moment.
    ensures any_moment { O.is_modelled outside.old → (read : List ℕ) × Consumes (R.remaining reader.old.inner) (R.remaining reader.new.inner) read
        × FindsOnly O.moment O.finds outside.old outside.new (Survives service.now.sections (sizes_in session.entry.ground)
        (map_in session.entry.ground session.entry.passes.items) read (O.printed outside.old)) }
{
    let mut ahead = ReadAhead::new(service.alloc)?;
    let mut lines = ParsedLines::new(service.alloc);
    let mut session = session;
    for _section in 0..u64::MAX {
        let (back, end) = serve_section(rt, service, session, &mut lines, reader, &mut ahead)?;
        session = back;
        let text = session.text.as_slice();
        match keep_and_print(outside, service.alloc, &session.changes, text) {
            Ok(()) => {}
            Err(_) => return Err(ServeFault::Write),
        }
        if end != SectionEnd::ByLine {
            return Ok(session);
        }
    }
    Ok(session)
}

/// A session on this index with all its passes, in which nothing is served yet.
fn begun(
    alloc: Global,
    plan: ThreadPlan,
    ground: Ground<'_>,
    passes: Vec<Pass>,
) -> Result<Session<'_>, AllocError>
    requires { 0 < vec_len passes }
    ensures ground { IfOk result (λ session. session.ground ≡ ground.entry) }
    ensures passes { IfOk result (λ session. session.passes.items ≡ passes.items) }
    ensures first { IfOk result (λ session. (session.totals.requests ≡ 0) × (session.totals.malformed ≡ 0) × (session.totals.sections ≡ 0)) }
{
    let slots = new_slots(alloc, passes.len(), plan.workers)?;
    let totals = Totals {
        requests: 0,
        malformed: 0,
        sections: 0,
    };
    let spare = Spare::new(u64::from(ground.index().room().free_pages));
    Ok(Session {
        plan,
        ground,
        passes,
        spare,
        slots,
        totals,
        remarks: Remarks::new(),
        changes: Changes::new(alloc),
        text: Vec::new(alloc),
    })
}

/// Serves the requests of the reader by all passes of an index, which have met: the first so many are workers and answer
/// lines, the others are compressors. Lend a reader and a writer on which no call has failed.
///
/// What was written is served for what was read, from the map that the passes have seen on. The entries of what was served
/// are what the passes that come back have seen since, in one order, those of a section before those of the next.
///
/// `Read` and `Write` come only where that stream has failed, `Memory` only where something could not grow, and `Lost` where
/// the answers of a section's lines did not come back exactly once. Then the output of the finished sections is written and
/// no more, but that after `Write` a beginning of the open section's output may be out. The passes come back with Ok alone.
/// A line of 2^64 - 1 bytes, and the line of the number 2^64 - 1, end the input.
///
/// Tested, and in no clause: that the lines of a section are written when it has ended, before the next one is read; that each request
/// goes through the gate once; that a search may get `patience()` pages before it begins again; that splits are posted and hints
/// followed; that memory is wanting only where a growth was refused.
pub fn serve<T: Threads + Wait + Sync, R: Read, W: Write, G: Gate + Sync>(
    rt: &T,
    index: &Index,
    passes: Vec<Pass>,
    reader: &mut Watched<R>,
    writer: &mut Watched<W>,
    gate: &G,
    workers: usize,
) -> Result<(Totals, Vec<Pass>), ServeFault>
    requires together { AreTogether index.now (seen_by passes.items) passes.items }
    requires workers { (1 ≤ workers) × (workers ≤ vec_len passes) }
    ensures serves { EndsServing (λ t. Serves Sectioning.BySync index.now passes.items t.1.items t.0)
        (Stops Sectioning.BySync (pages_of index.now, pages_of index.now) (map_after (first_of index.now) (seen_by passes.items)))
        (R.remaining reader.old.inner) (R.remaining reader.new.inner) (reader.new.failed ≡ true)
        (W.contents writer.old.inner) (W.contents writer.new.inner) (writer.new.failed ≡ true) result }
    ensures flushed { OnOk result (writer.new.pending ≡ false) }
{
    // A gate may hold the first of two requests until the second one has been carried out.
    let plan = ThreadPlan {
        workers,
        alone: 2,
        sections: Sectioning::BySync,
    };
    let ground = Ground::Lent(index);
    match serve_with(rt, ground, passes, reader, writer, gate, plan) {
        Ok((summary, _ground, passes)) => Ok((summary.totals, passes)),
        Err(fault) => Err(fault),
    }
}

/// The same by a plan, which may have fewer threads for few requests, and other sections, and on an index that may grow; and it tells what else
/// was counted. Where the outside keeps a log, this is the log of the map that the passes have seen, and what a section has changed is kept
/// before its replies are printed: after a crash at any moment the log has all operations of each line whose reply was printed, each once; of
/// the section under way all or none; and of lines behind it none.
pub fn serve_with<'a, T: Threads + Wait + Sync, R: Read, O: Outside, G: Gate + Sync>(
    rt: &T,
    ground: Ground<'a>,
    passes: Vec<Pass>,
    reader: &mut Watched<R>,
    outside: &mut O,
    gate: &G,
    plan: ThreadPlan,
) -> Result<(Summary, Ground<'a>, Vec<Pass>), ServeFault>
    requires rests { IsAtRest ground passes.items }
    requires some { 0 < vec_len passes }
    requires log { O.is_modelled outside.old → O.holds outside.old (map_in ground passes.items) }
    ensures serves { EndsServing (λ t. ServesOn plan.sections ground.entry passes.items t.1 t.2.items t.0.totals)
        (Stops plan.sections (sizes_in ground.entry) (map_in ground.entry passes.items))
        (R.remaining reader.old.inner) (R.remaining reader.new.inner) (reader.new.failed ≡ true)
        (O.printed outside.old) (O.printed outside.new) (O.has_failed outside.new) result }
    ensures flushed { OnOk result (O.is_flushed outside.new) }
    // What a crash finds at any moment.
    ensures any_moment { O.is_modelled outside.old → (read : List ℕ) × Consumes (R.remaining reader.old.inner) (R.remaining reader.new.inner) read
        × FindsOnly O.moment O.finds outside.old outside.new
        (Survives plan.sections (sizes_in ground.entry) (map_in ground.entry passes.items) read (O.printed outside.old)) }
{
    let alloc = *passes.allocator();
    let hints = Hints::new(alloc)?;
    let service = Service {
        hints: &hints,
        gate,
        sections: plan.sections,
        keeps: outside.keeps(),
        alloc,
    };
    let fresh = begun(alloc, plan, ground, passes)?;
    let session = serve_sections(rt, &service, fresh, reader, outside)?;
    let Session {
        ground,
        passes,
        slots,
        totals,
        remarks,
        text,
        ..
    } = session;
    let summary = summed_up(totals, remarks, slots.as_slice(), text.len());
    Ok((summary, ground, passes))
}
