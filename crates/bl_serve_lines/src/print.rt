//! The printed form of replies.

ghost use Rattle.std.specs.Prelude.{◌≡◌, [], ◌∷◌, ◌++◌, length, flat_map, IfOk, OnOk, codes, decimal};
ghost use Rattle.bl_model.specs.Parts.{rows_of};
ghost use Rattle.bl_model.specs.Replies.{reply_of};
ghost use Rattle.bl_serve_lines.specs.Scans.{rows_before, shown};
ghost use Rattle.bl_serve_lines.specs.Text.{row_text, next_text, reply_text, room_text, response_text, numbered};

use crate::listing::{Tells, Until};
use bl_model::{KeyReply, Next, Reply};
use itoa::Buffer;
use std::alloc::AllocError;

/// What is printed for a line, behind its number.
#[derive(Debug, PartialEq, Eq, Drop)]
pub enum Response {
    /// The reply to the line's operation.
    Replied(Reply),
    /// How many pages the index has, how many are in use, and how many may be taken.
    Stated(u32, u32, u32),
    /// The line ended a section.
    Synced,
    /// The line spells no request.
    Malformed,
}

/// Appends a word and a number.
pub fn push_number(out: &mut Vec<u8>, word: &[u8], value: u64) -> Result<(), AllocError>
    ensures { OnOk result (out.new.items ≡ out.old.items ++ (word.now ++ decimal value)) }
{
    let mut buffer = Buffer::new();
    out.extend_from_slice(word)?;
    out.extend_from_slice(buffer.format(value).as_bytes())
}

/// Begins an output line: its number and a space.
fn push_line_number(out: &mut Vec<u8>, number: u64) -> Result<(), AllocError>
    ensures { OnOk result (out.new.items ≡ out.old.items ++ (decimal number ++ codes " ")) }
{
    let mut buffer = Buffer::new();
    out.extend_from_slice(buffer.format(number).as_bytes())?;
    out.push(b' ')?;
    Ok(())
}

/// Appends a row.
pub fn push_row(out: &mut Vec<u8>, row: &(u64, u64)) -> Result<(), AllocError>
    ensures { OnOk result (out.new.items ≡ out.old.items ++ row_text row.now) }
{
    push_number(out, b" ", row.0)?;
    push_number(out, b"=", row.1)
}

/// Appends the rows of a part.
fn push_rows(out: &mut Vec<u8>, rows: &[(u64, u64)]) -> Result<(), AllocError>
    ensures { OnOk result (out.new.items ≡ out.old.items ++ flat_map row_text rows.now) }
{
    for row in rows {
        push_row(out, row)?;
    }
    Ok(())
}

/// Appends a row of a scan, if it is told.
fn push_told(out: &mut Vec<u8>, row: &(u64, u64), tells: Tells) -> Result<(), AllocError>
    ensures { OnOk result (out.new.items ≡ out.old.items ++ flat_map row_text (shown tells (row.now ∷ []))) }
{
    match tells {
        Tells::Count | Tells::First(0) => Ok(()),
        Tells::All | Tells::First(_) => push_row(out, row),
    }
}

/// Appends a row, if it lies before the end of a scan and is told. Says how many rows lie there.
fn push_within(
    out: &mut Vec<u8>,
    row: &(u64, u64),
    until: Until,
    tells: Tells,
) -> Result<u64, AllocError>
    ensures pushes { OnOk result (out.new.items ≡ out.old.items ++ flat_map row_text (shown tells (rows_before until (row.now ∷ [])))) }
    ensures counts { IfOk result (λ met. met ≡ length (rows_before until (row.now ∷ []))) }
{
    if !until.is_before(row.0) {
        return Ok(0);
    }
    push_told(out, row, tells)?;
    Ok(1)
}

/// Appends those rows of a part that lie before the end of its scan, as far as they are told. Says how many lie there.
pub fn push_part(
    out: &mut Vec<u8>,
    reply: &Reply,
    until: Until,
    tells: Tells,
) -> Result<u64, AllocError>
    ensures pushes { OnOk result (out.new.items ≡ out.old.items ++ flat_map row_text (shown tells (rows_before until (rows_of reply.now)))) }
    ensures counts { IfOk result (λ met. met ≡ length (rows_before until (rows_of reply.now))) }
{
    let Reply::Rows(rows, _) = reply else {
        return Ok(0);
    };
    let list = rows.as_slice();
    let mut met = 0;
    for row in list {
        met += push_within(out, row, until, tells.behind(met))?;
    }
    Ok(met)
}

/// Appends how far a part went.
fn push_next(out: &mut Vec<u8>, next: Next) -> Result<(), AllocError>
    ensures { OnOk result (out.new.items ≡ out.old.items ++ next_text next) }
{
    match next {
        Next::More(key) => push_number(out, b" more ", key),
        Next::End => out.extend_from_slice(b" end"),
    }
}

/// Appends the text of a reply on one key.
fn push_key_reply(out: &mut Vec<u8>, reply: KeyReply) -> Result<(), AllocError>
    ensures { OnOk result (out.new.items ≡ out.old.items ++ reply_text (reply_of reply)) }
{
    match reply {
        KeyReply::Found(value) => push_number(out, b"found ", value),
        KeyReply::Absent => out.extend_from_slice(b"absent"),
        KeyReply::Inserted => out.extend_from_slice(b"inserted"),
        KeyReply::Present(value) => push_number(out, b"present ", value),
        KeyReply::Replaced(value) => push_number(out, b"replaced ", value),
        KeyReply::Deleted(value) => push_number(out, b"deleted ", value),
        KeyReply::Changed => out.extend_from_slice(b"changed"),
        KeyReply::Differs(value) => push_number(out, b"differs ", value),
        KeyReply::NoRoom => out.extend_from_slice(b"noroom"),
    }
}

/// Appends the reply's text.
pub fn push_reply(out: &mut Vec<u8>, reply: &Reply) -> Result<(), AllocError>
    ensures { OnOk result (out.new.items ≡ out.old.items ++ reply_text reply.now) }
{
    match reply {
        Reply::Found(value) => push_key_reply(out, KeyReply::Found(*value)),
        Reply::Absent => push_key_reply(out, KeyReply::Absent),
        Reply::Inserted => push_key_reply(out, KeyReply::Inserted),
        Reply::Present(value) => push_key_reply(out, KeyReply::Present(*value)),
        Reply::Replaced(value) => push_key_reply(out, KeyReply::Replaced(*value)),
        Reply::Deleted(value) => push_key_reply(out, KeyReply::Deleted(*value)),
        Reply::Changed => push_key_reply(out, KeyReply::Changed),
        Reply::Differs(value) => push_key_reply(out, KeyReply::Differs(*value)),
        Reply::Rows(rows, next) => {
            out.extend_from_slice(b"rows")?;
            push_rows(out, rows.as_slice())?;
            push_next(out, *next)
        }
        Reply::NoRoom => push_key_reply(out, KeyReply::NoRoom),
    }
}

/// Appends how much room there is: all pages, those in use, and those that may be taken.
fn push_room(out: &mut Vec<u8>, all: u32, used: u32, free: u32) -> Result<(), AllocError>
    ensures { OnOk result (out.new.items ≡ out.old.items ++ room_text all used free) }
{
    push_number(out, b"pages ", u64::from(all))?;
    push_number(out, b" used ", u64::from(used))?;
    push_number(out, b" free ", u64::from(free))
}

/// Appends the response's text.
fn push_response(out: &mut Vec<u8>, response: &Response) -> Result<(), AllocError>
    ensures { OnOk result (out.new.items ≡ out.old.items ++ response_text response.now) }
{
    match response {
        Response::Replied(reply) => push_reply(out, reply),
        Response::Stated(all, used, free) => push_room(out, *all, *used, *free),
        Response::Synced => out.extend_from_slice(b"synced"),
        Response::Malformed => out.extend_from_slice(b"malformed"),
    }
}

/// Appends a whole output line.
pub fn push_line(out: &mut Vec<u8>, number: u64, response: &Response) -> Result<(), AllocError>
    ensures { OnOk result (out.new.items ≡ out.old.items ++ numbered number (response_text response.now)) }
{
    push_line_number(out, number)?;
    push_response(out, response)?;
    out.push(b'\n')?;
    Ok(())
}

/// Appends a whole output line of a reply on one key. No reply that has room for rows is made on the way.
pub fn push_key_line(out: &mut Vec<u8>, number: u64, reply: KeyReply) -> Result<(), AllocError>
    ensures { OnOk result (out.new.items ≡ out.old.items ++ numbered number (reply_text (reply_of reply))) }
{
    push_line_number(out, number)?;
    push_key_reply(out, reply)?;
    out.push(b'\n')?;
    Ok(())
}

/// Appends a whole output line of a word.
pub fn push_word_line(out: &mut Vec<u8>, number: u64, word: &[u8]) -> Result<(), AllocError>
    ensures { OnOk result (out.new.items ≡ out.old.items ++ numbered number word.now) }
{
    push_line_number(out, number)?;
    out.extend_from_slice(word)?;
    out.push(b'\n')?;
    Ok(())
}
