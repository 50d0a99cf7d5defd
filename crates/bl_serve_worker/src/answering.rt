//! Requests are answered by a handle.

ghost use Rattle.std.specs.Prelude.{◌≡◌, suc, ◌+◌, ◌<◌, ◌≤◌, ◌^◌, ◌++◌, length, Some, IfOk, OnOk};
ghost use Rattle.bl_model.specs.declared.operation.Op.TheVariants as op;
ghost use Rattle.bl_map.specs.Handles.{IsSameHandle, HasCalled, HasKeptUp};
ghost use Rattle.bl_model.specs.Replies.{reply_of};
ghost use Rattle.bl_model.specs.Writes.{write_op, IsRead};
ghost use Rattle.bl_serve_lines.specs.Dealt.{dealt, numbers};
ghost use Rattle.bl_serve_worker.specs.Shares.{IsNextPlace};
ghost use Rattle.bl_serve_worker.specs.Answering.{HasAnswered, HasAnsweredAll};
ghost use Rattle.bl_serve_worker.specs.Noting.{Notes};

use crate::adding::add;
use crate::aside::Aside;
use crate::chunk::{Chunk, ShareOutput};
use crate::gate::Gate;
use crate::saving::save;
use crate::scanning::scan;
use bl_map::{Handle, KeyReply};
use bl_model::{KeyWrite, Op};
use bl_serve_lines::print::{Response, push_key_line, push_line, push_word_line};
use bl_serve_lines::request::Request;
use memchr::memchr;
use std::alloc::AllocError;
use std::sync::Wait;

/// A worker looks each so many lines whether a sweep is due, and behind a chunk of one line. With few pages for each handle one is
/// due after each put; but a sweep reads words that the other workers write, and what it releases is no longer at hand for the next
/// puts of the handle.
const LINES_TO_SWEEP: u64 = 256;

/// Sweeps, where the worker may and a sweep is due.
fn sweep_if_may(handle: &mut Handle<'_>, may_sweep: bool)
    ensures same { IsSameHandle handle.old handle.new }
    ensures kept { HasKeptUp handle.old handle.new }
{
    if may_sweep {
        handle.sweep_if_due();
    }
}

/// Writes a key. A split is posted. The hint of a thin page waits for a compressor, and so does that of a post that found no room.
pub(crate) fn write<R: Wait>(
    rt: &R,
    aside: &mut Aside<'_>,
    handle: &mut Handle<'_>,
    key: u64,
    write: KeyWrite,
) -> KeyReply
    ensures same { IsSameHandle handle.old handle.new }
    ensures called { HasCalled (write_op key write) (reply_of result) handle.old handle.new }
    ensures noted { Notes handle.old aside.old handle.new aside.new }
{
    let (reply, left) = handle.write_leaving(rt, key, write);
    aside.take(rt, key, write, reply, left);
    reply
}

/// Answers a part. Its reply is wide, so it stands apart from the operations on one key.
#[inline(never)]
fn list<R: Wait>(
    rt: &R,
    handle: &mut Handle<'_>,
    number: u64,
    from: u64,
    text: &mut Vec<u8>,
) -> Result<(), AllocError>
    ensures same { IsSameHandle handle.old handle.new }
    ensures answers { OnOk result (HasAnswered number (Some (Request.Ask (op.Part from))) text.old.items text.new.items handle.old handle.new) }
{
    let reply = handle.part(rt, from, &mut None);
    push_line(text, number, &Response::Replied(reply))
}

/// Answers a part downwards.
#[inline(never)]
fn list_down<R: Wait>(
    rt: &R,
    handle: &mut Handle<'_>,
    number: u64,
    from: u64,
    text: &mut Vec<u8>,
) -> Result<(), AllocError>
    ensures same { IsSameHandle handle.old handle.new }
    ensures answers { OnOk result (HasAnswered number (Some (Request.Ask (op.PartDown from))) text.old.items text.new.items handle.old handle.new) }
{
    let reply = handle.part_down(rt, from);
    push_line(text, number, &Response::Replied(reply))
}

/// Answers how much room the index has, as one look over all its pages finds it. No entry of the history tells of that.
#[inline(never)]
fn state(handle: &Handle<'_>, number: u64, text: &mut Vec<u8>) -> Result<(), AllocError>
    ensures { OnOk result (HasAnswered number (Some Request.Stat) text.old.items text.new.items handle.now handle.now) }
{
    let room = handle.room();
    let response = Response::Stated(room.pages, room.used_pages, room.free_pages);
    push_line(text, number, &response)
}

/// Carries a search or a part out, and answers it.
fn look<R: Wait>(
    rt: &R,
    handle: &mut Handle<'_>,
    number: u64,
    op: Op,
    text: &mut Vec<u8>,
) -> Result<(), AllocError>
    requires { IsRead op }
    ensures same { IsSameHandle handle.old handle.new }
    ensures answers { OnOk result (HasAnswered number (Some (Request.Ask op)) text.old.items text.new.items handle.old handle.new) }
{
    match op {
        Op::Find(key) => {
            let reply = handle.find(rt, key);
            push_key_line(text, number, reply)
        }
        Op::Part(from) => list(rt, handle, number, from, text),
        Op::PartDown(from) => list_down(rt, handle, number, from, text),
        _ => unreachable!(),
    }
}

/// Carries an operation out, and answers it.
fn operate<R: Wait>(
    rt: &R,
    aside: &mut Aside<'_>,
    handle: &mut Handle<'_>,
    number: u64,
    op: Op,
    text: &mut Vec<u8>,
) -> Result<(), AllocError>
    ensures same { IsSameHandle handle.old handle.new }
    ensures answers { OnOk result (HasAnswered number (Some (Request.Ask op)) text.old.items text.new.items handle.old handle.new) }
    ensures noted { OnOk result (Notes handle.old aside.old handle.new aside.new) }
{
    match op.write() {
        Some((key, does)) => {
            let reply = write(rt, aside, handle, key, does);
            push_key_line(text, number, reply)
        }
        None => look(rt, handle, number, op, text),
    }
}

/// Answers the line of that number.
fn answer<R: Wait, G: Gate>(
    rt: &R,
    chunk: &Chunk<'_, G>,
    aside: &mut Aside<'_>,
    handle: &mut Handle<'_>,
    number: u64,
    request: Option<Request>,
    text: &mut Vec<u8>,
) -> Result<(), AllocError>
    ensures same { IsSameHandle handle.old handle.new }
    ensures answers { OnOk result (HasAnswered number request text.old.items text.new.items handle.old handle.new) }
    ensures noted { OnOk result (Notes handle.old aside.old handle.new aside.new) }
{
    let gate = chunk.service.gate;
    match request {
        Some(Request::Ask(op)) => {
            gate.before(number);
            let answered = operate(rt, aside, handle, number, op, text);
            gate.after(number);
            answered
        }
        Some(Request::Add(key, added)) => {
            gate.before(number);
            let answered = add(rt, aside, handle, number, key, added, text);
            gate.after(number);
            answered
        }
        Some(Request::Scan(asked)) => {
            gate.before(number);
            let answered = scan(rt, handle, number, asked, text);
            gate.after(number);
            answered
        }
        Some(Request::Save) => {
            gate.before(number);
            let answered = save(rt, chunk, handle, number, text);
            gate.after(number);
            answered
        }
        Some(Request::Stat) => {
            gate.before(number);
            let answered = state(handle, number, text);
            gate.after(number);
            answered
        }
        Some(Request::Sync) => push_word_line(text, number, b"synced"),
        None => push_word_line(text, number, b"malformed"),
    }
}

/// The place of the next line of a share, from that one on.
fn next_place(deals: &[u8], share: u8, from: usize) -> Option<usize>
    ensures { IsNextPlace share deals.now from result }
{
    if deals.len() <= from {
        return None;
    }
    match memchr(share, &deals[from..]) {
        Some(step) => Some(from + step),
        None => None,
    }
}

/// Answers the lines of a share, one after another.
pub(crate) fn answer_share<R: Wait, G: Gate>(
    rt: &R,
    chunk: &Chunk<'_, G>,
    aside: &mut Aside<'_>,
    handle: &mut Handle<'_>,
    share: u8,
) -> Result<ShareOutput, AllocError>
    ensures same { IsSameHandle handle.old handle.new }
    ensures share { IfOk result (λ output. output.share ≡ share) }
    ensures answers { IfOk result (λ output. HasAnsweredAll (dealt share chunk.now.deals.now (numbers (suc chunk.now.before) (length chunk.now.lines.now)))
        (dealt share chunk.now.deals.now chunk.now.lines.now) output.text.items output.lengths.items handle.old handle.new) }
    ensures noted { OnOk result (Notes handle.old aside.old handle.new aside.new) }
{
    let service = chunk.service;
    let mut text = Vec::new(service.alloc);
    let mut lengths = Vec::new(service.alloc);
    let mut from = 0;
    'lines: while let Some(place) = next_place(chunk.deals, share, from) {
        from = place + 1;
        let number = chunk.before + from as u64;
        let asked = chunk.lines[place];
        let bytes = text.len();
        answer(rt, chunk, aside, handle, number, asked, &mut text)?;
        lengths.push(text.len() - bytes)?;
        let may_sweep = number % LINES_TO_SWEEP == 0 || chunk.lines.len() == 1;
        sweep_if_may(handle, may_sweep);
    }
    Ok(ShareOutput {
        share,
        text,
        lengths,
    })
}
