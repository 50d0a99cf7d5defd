//! The printed form of events and answers.

ghost use Rattle.std.specs.Prelude.{◌≡◌, ◌++◌, OnOk, Some};
ghost use Rattle.bl_replay.specs.Texts.{act_text, event_line, hint_text, posted_text, last_text, squeezed_text, reclaimed_text, lowered_text, answer_text, answer_line};

use bl_proc::{Answer, Hint, Lowered, Posted, Reclaimed, Squeezed};
use bl_serve_lines::print::{push_number, push_reply};
use bl_world::{Act, Event};
use std::alloc::AllocError;

/// Appends what an event did.
fn push_act(out: &mut Vec<u8>, act: Act) -> Result<(), AllocError>
    ensures { OnOk result (out.new.items ≡ out.old.items ++ act_text act) }
{
    match act {
        Act::Begin => out.extend_from_slice(b"begin"),
        Act::End => out.extend_from_slice(b"end"),
        Act::Get(at) => push_number(out, b"get ", u64::from(at)),
        Act::Put(at) => push_number(out, b"put ", u64::from(at)),
        Act::Latch(at) => push_number(out, b"latch ", u64::from(at)),
        Act::Take(at) => push_number(out, b"take ", u64::from(at)),
        Act::Open(at) => push_number(out, b"open ", u64::from(at)),
        Act::Retire(at) => push_number(out, b"retire ", u64::from(at)),
        Act::Look(process) => push_number(out, b"look ", process as u64),
        Act::See(at) => push_number(out, b"see ", u64::from(at)),
        Act::Release(at) => push_number(out, b"release ", u64::from(at)),
        Act::Miss => out.extend_from_slice(b"miss"),
    }
}

/// Appends the line of an event.
pub fn push_event(out: &mut Vec<u8>, event: Event) -> Result<(), AllocError>
    ensures { OnOk result (out.new.items ≡ out.old.items ++ event_line event) }
{
    push_number(out, b"", event.process as u64)?;
    out.extend_from_slice(b" ")?;
    push_act(out, event.act)?;
    out.push(b'\n')?;
    Ok(())
}

/// Appends the work that is left for another process.
fn push_work(out: &mut Vec<u8>, hint: &Hint) -> Result<(), AllocError>
    ensures { OnOk result (out.new.items ≡ out.old.items ++ hint_text (Some hint.now)) }
{
    match hint {
        Hint::Post { .. } => push_number(out, b" post ", u64::from(hint.level()))?,
        Hint::Thin { .. } => push_number(out, b" thin ", u64::from(hint.level()))?,
    }
    push_number(out, b" ", hint.key())
}

/// Appends a hint, if there is one.
fn push_hint(out: &mut Vec<u8>, hint: &Option<Hint>) -> Result<(), AllocError>
    ensures { OnOk result (out.new.items ≡ out.old.items ++ hint_text hint.now) }
{
    match hint {
        None => Ok(()),
        Some(hint) => push_work(out, hint),
    }
}

/// Appends what became of a post.
fn push_posted(out: &mut Vec<u8>, posted: Posted) -> Result<(), AllocError>
    ensures { OnOk result (out.new.items ≡ out.old.items ++ posted_text posted) }
{
    match posted {
        Posted::Done => out.extend_from_slice(b"done"),
        Posted::Already => out.extend_from_slice(b"already"),
        Posted::Stale => out.extend_from_slice(b"stale"),
        Posted::NoRoom => out.extend_from_slice(b"noroom"),
        Posted::TooTall => out.extend_from_slice(b"tootall"),
    }
}

/// Appends what became of the last post of an insertion, if it has split anything.
fn push_last(out: &mut Vec<u8>, last: Option<Posted>) -> Result<(), AllocError>
    ensures { OnOk result (out.new.items ≡ out.old.items ++ last_text last) }
{
    match last {
        None => Ok(()),
        Some(posted) => {
            out.extend_from_slice(b" ")?;
            push_posted(out, posted)
        }
    }
}

/// Appends what became of a compression.
fn push_squeezed(out: &mut Vec<u8>, squeezed: Squeezed) -> Result<(), AllocError>
    ensures { OnOk result (out.new.items ≡ out.old.items ++ squeezed_text squeezed) }
{
    match squeezed {
        Squeezed::Merged => out.extend_from_slice(b"merged"),
        Squeezed::Evened => out.extend_from_slice(b"evened"),
        Squeezed::Enough => out.extend_from_slice(b"enough"),
        Squeezed::Alone => out.extend_from_slice(b"alone"),
        Squeezed::Unposted => out.extend_from_slice(b"unposted"),
        Squeezed::NoRoom => out.extend_from_slice(b"noroom"),
    }
}

/// Appends what became of a page that was to be released.
fn push_reclaimed(out: &mut Vec<u8>, what: Reclaimed) -> Result<(), AllocError>
    ensures { OnOk result (out.new.items ≡ out.old.items ++ reclaimed_text what) }
{
    match what {
        Reclaimed::Released => out.extend_from_slice(b"released"),
        Reclaimed::Kept => out.extend_from_slice(b"kept"),
    }
}

/// Appends what became of a top level that was to be taken away.
fn push_lowered(out: &mut Vec<u8>, what: Lowered) -> Result<(), AllocError>
    ensures { OnOk result (out.new.items ≡ out.old.items ++ lowered_text what) }
{
    match what {
        Lowered::Lowered => out.extend_from_slice(b"lowered"),
        Lowered::Needed => out.extend_from_slice(b"needed"),
        Lowered::NoRoom => out.extend_from_slice(b"noroom"),
    }
}

/// Appends an answer, without its line.
fn push_answer(out: &mut Vec<u8>, answer: &Answer) -> Result<(), AllocError>
    ensures { OnOk result (out.new.items ≡ out.old.items ++ answer_text answer.now) }
{
    match answer {
        Answer::Op(reply, hint) => {
            push_reply(out, reply)?;
            push_hint(out, hint)
        }
        Answer::Post(posted, hint) => {
            push_posted(out, *posted)?;
            push_hint(out, hint)
        }
        Answer::Compress(squeezed, hint) => {
            push_squeezed(out, *squeezed)?;
            push_hint(out, hint)
        }
        Answer::Reclaim(what) => push_reclaimed(out, *what),
        Answer::Lower(what) => push_lowered(out, *what),
        Answer::InsertPost(reply, last, hint) => {
            push_reply(out, reply)?;
            push_last(out, *last)?;
            push_hint(out, hint)
        }
    }
}

/// Appends the line of the answer of the process with that number.
pub fn push_answer_line(out: &mut Vec<u8>, number: usize, answer: &Answer) -> Result<(), AllocError>
    ensures { OnOk result (out.new.items ≡ out.old.items ++ answer_line number answer.now) }
{
    push_number(out, b"", number as u64)?;
    out.extend_from_slice(b" answer ")?;
    push_answer(out, answer)?;
    out.push(b'\n')?;
    Ok(())
}
