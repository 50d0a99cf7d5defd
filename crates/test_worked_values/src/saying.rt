//! Answers in words: those of replies are the server's, and a hint is `post` or `thin` with a level and a key.

use bl_answers::{Answer, Hint, Level, Lowered, Posted, Reclaimed, Squeezed};
use bl_serve_lines::print::{push_number, push_reply};
use std::alloc::{AllocError, Global};

/// A text alone.
pub fn said(alloc: Global, text: &str) -> Result<Vec<u8>, AllocError> {
    Vec::from_slice(alloc, text.as_bytes())
}

/// A number alone.
pub fn count(alloc: Global, number: u64) -> Result<Vec<u8>, AllocError> {
    let mut text = Vec::new(alloc);
    push_number(&mut text, b"", number)?;
    Ok(text)
}

/// What a process or a call has answered.
pub fn observed(alloc: Global, answer: &Answer) -> Result<Vec<u8>, AllocError> {
    let mut text = Vec::new(alloc);
    match answer {
        Answer::Op(reply, hint) => {
            push_reply(&mut text, reply)?;
            push_hint(&mut text, hint)?;
        }
        Answer::Post(posted, hint) => {
            text.extend_from_slice(posted_word(*posted).as_bytes())?;
            push_hint(&mut text, hint)?;
        }
        Answer::Compress(squeezed, hint) => {
            text.extend_from_slice(squeezed_word(*squeezed).as_bytes())?;
            push_hint(&mut text, hint)?;
        }
        Answer::Reclaim(what) => text.extend_from_slice(reclaimed_word(*what).as_bytes())?,
        Answer::Lower(what) => text.extend_from_slice(lowered_word(*what).as_bytes())?,
        Answer::InsertPost(reply, last, hint) => {
            push_reply(&mut text, reply)?;
            push_last(&mut text, *last)?;
            push_hint(&mut text, hint)?;
        }
    }
    Ok(text)
}

/// What became of the last post of an insertion, if it has split anything.
fn push_last(text: &mut Vec<u8>, last: Option<Posted>) -> Result<(), AllocError> {
    if let Some(posted) = last {
        text.extend_from_slice(b" ")?;
        text.extend_from_slice(posted_word(posted).as_bytes())?;
    }
    Ok(())
}

fn posted_word(posted: Posted) -> &'static str {
    match posted {
        Posted::Done => "done",
        Posted::Already => "already",
        Posted::Stale => "stale",
        Posted::NoRoom => "noroom",
        Posted::TooTall => "tootall",
    }
}

fn squeezed_word(squeezed: Squeezed) -> &'static str {
    match squeezed {
        Squeezed::Merged => "merged",
        Squeezed::Evened => "evened",
        Squeezed::Enough => "enough",
        Squeezed::Alone => "alone",
        Squeezed::Unposted => "unposted",
        Squeezed::NoRoom => "noroom",
    }
}

fn reclaimed_word(what: Reclaimed) -> &'static str {
    match what {
        Reclaimed::Released => "released",
        Reclaimed::Kept => "kept",
    }
}

fn lowered_word(what: Lowered) -> &'static str {
    match what {
        Lowered::Lowered => "lowered",
        Lowered::Needed => "needed",
        Lowered::NoRoom => "noroom",
    }
}

/// Appends the hint, if there is one.
pub fn push_hint(text: &mut Vec<u8>, hint: &Option<Hint>) -> Result<(), AllocError> {
    match hint {
        Some(Hint::Post { level, key }) => push_named(text, b" post ", *level, *key),
        Some(Hint::Thin { level, key }) => push_named(text, b" thin ", *level, *key),
        None => Ok(()),
    }
}

fn push_named(text: &mut Vec<u8>, kind: &[u8], level: Level, key: u64) -> Result<(), AllocError> {
    push_number(text, kind, u64::from(level.number()))?;
    push_number(text, b" ", key)
}
