//! What calls get, in words.

use bl_check::{Fault, Report};
use bl_index::{CloseFault, Hint, KeyReply, Lowered, OpenFault, OutOfTurns, ScanFault};
use bl_model::Reply;
use bl_proc::{Answer, Posted, Squeezed};
use bl_serve_lines::print::push_number;
use std::alloc::{AllocError, Global};
use test_worked_values::{count, observed, said};

pub fn yes(alloc: Global, is_so: bool) -> Result<Vec<u8>, AllocError> {
    said(alloc, if is_so { "yes" } else { "no" })
}

/// What an insertion or a deletion got.
pub fn changed(
    alloc: Global,
    (reply, hint): (KeyReply, Option<Hint>),
) -> Result<Vec<u8>, AllocError> {
    observed(alloc, &Answer::Op(reply.reply(), hint))
}

/// What an insertion with its posts got.
pub fn climbed(
    alloc: Global,
    (reply, last, left): (KeyReply, Option<Posted>, Option<Hint>),
) -> Result<Vec<u8>, AllocError> {
    observed(alloc, &Answer::InsertPost(reply.reply(), last, left))
}

/// What a change of a value got.
pub fn replied(alloc: Global, reply: KeyReply) -> Result<Vec<u8>, AllocError> {
    observed(alloc, &Answer::Op(reply.reply(), None))
}

/// What a post got.
pub fn posted(
    alloc: Global,
    (posted, hint): (Posted, Option<Hint>),
) -> Result<Vec<u8>, AllocError> {
    observed(alloc, &Answer::Post(posted, hint))
}

/// What a compression got.
pub fn compressed(
    alloc: Global,
    (squeezed, hint): (Squeezed, Option<Hint>),
) -> Result<Vec<u8>, AllocError> {
    observed(alloc, &Answer::Compress(squeezed, hint))
}

/// What a lowering got.
pub fn lowered(alloc: Global, lowered: Lowered) -> Result<Vec<u8>, AllocError> {
    observed(alloc, &Answer::Lower(lowered))
}

/// What a search got.
pub fn found(alloc: Global, reply: Result<KeyReply, OutOfTurns>) -> Result<Vec<u8>, AllocError> {
    match reply {
        Ok(reply) => observed(alloc, &Answer::Op(reply.reply(), None)),
        Err(OutOfTurns) => said(alloc, "out of turns"),
    }
}

/// What a part got.
pub fn listed(alloc: Global, reply: Result<Reply, OutOfTurns>) -> Result<Vec<u8>, AllocError> {
    match reply {
        Ok(reply) => observed(alloc, &Answer::Op(reply, None)),
        Err(OutOfTurns) => said(alloc, "out of turns"),
    }
}

/// What a part got, and the page that it leaves for the next one.
pub fn listed_near(
    alloc: Global,
    reply: Result<Reply, OutOfTurns>,
    near: Option<u32>,
) -> Result<Vec<u8>, AllocError> {
    let mut text = listed(alloc, reply)?;
    if let Some(page) = near {
        push_number(&mut text, b" near ", u64::from(page))?;
    }
    Ok(text)
}

/// What a scan got, and all rows that were listed.
pub fn scanned(
    alloc: Global,
    end: Result<(), ScanFault>,
    rows: &[(u64, u64)],
) -> Result<Vec<u8>, AllocError> {
    let mut text = Vec::new(alloc);
    push_end(&mut text, end)?;
    text.extend_from_slice(b", rows")?;
    push_rows(&mut text, rows)?;
    Ok(text)
}

/// Appends how a scan ended.
fn push_end(text: &mut Vec<u8>, end: Result<(), ScanFault>) -> Result<(), AllocError> {
    match end {
        Ok(()) => text.extend_from_slice(b"done"),
        Err(ScanFault::OutOfTurns(at)) => push_number(text, b"out of turns at ", at),
        Err(ScanFault::Memory(at)) => push_number(text, b"out of memory at ", at),
    }
}

/// Appends rows.
fn push_rows(text: &mut Vec<u8>, rows: &[(u64, u64)]) -> Result<(), AllocError> {
    for (key, value) in rows {
        push_number(text, b" ", *key)?;
        push_number(text, b"=", *value)?;
    }
    Ok(())
}

/// Why no index was opened.
pub fn unopened(alloc: Global, fault: OpenFault) -> Result<Vec<u8>, AllocError> {
    match fault {
        OpenFault::Pages => said(alloc, "pages out of range"),
        OpenFault::Passes => said(alloc, "passes out of range"),
        OpenFault::Memory => said(alloc, "out of memory"),
    }
}

/// Why an index was not closed.
pub fn unclosed(alloc: Global, fault: CloseFault) -> Result<Vec<u8>, AllocError> {
    match fault {
        CloseFault::Pass => said(alloc, "a pass is missing"),
        CloseFault::Memory => said(alloc, "out of memory"),
    }
}

/// How many bytes an image has, and what the checker says of them.
pub fn checked(
    alloc: Global,
    bytes: usize,
    report: Result<Report, Fault>,
) -> Result<Vec<u8>, AllocError> {
    let mut text = count(alloc, bytes as u64)?;
    push_checked(&mut text, report)?;
    Ok(text)
}

/// Appends what the checker says.
fn push_checked(text: &mut Vec<u8>, report: Result<Report, Fault>) -> Result<(), AllocError> {
    match report {
        Ok(report) => push_report(text, report),
        Err(Fault::Rule { rule, page }) => {
            push_number(text, b" bytes, rule ", u64::from(rule))?;
            push_number(text, b" page ", u64::from(page))
        }
        Err(Fault::Memory) => text.extend_from_slice(b" bytes, out of memory"),
    }
}

/// Appends what there is in a sound image.
fn push_report(text: &mut Vec<u8>, report: Report) -> Result<(), AllocError> {
    let counts: [(&[u8], u32); 6] = [
        (b" bytes, ok rows ", report.rows),
        (b" leaves ", report.leaves),
        (b" inners ", report.inners),
        (b" levels ", report.levels),
        (b" unposted ", report.unposted),
        (b" thin ", report.thin),
    ];
    for (name, count) in counts {
        push_number(text, name, u64::from(count))?;
    }
    Ok(())
}
