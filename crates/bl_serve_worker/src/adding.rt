//! A sum in the place of a key's value.

ghost use Rattle.std.specs.Prelude.{◌≡◌, Some, OnOk};
ghost use Rattle.bl_model.specs.Replies.{reply_of};
ghost use Rattle.bl_map.specs.Handles.{IsSameHandle};
ghost use Rattle.bl_serve_lines.specs.Lines.{sum_reply, value_in as told};
ghost use Rattle.bl_serve_worker.specs.Answering.{HasAdded, HasAnswered};
ghost use Rattle.bl_serve_worker.specs.Noting.{Notes};

use crate::answering::write;
use crate::aside::Aside;
use bl_map::{Handle, KeyReply};
use bl_model::KeyWrite;
use bl_serve_lines::print::push_key_line;
use bl_serve_lines::request::Request;
use std::alloc::AllocError;
use std::sync::Wait;

/// The value that the reply says the key has, if it says one.
fn value_in(reply: KeyReply) -> Option<u64>
    ensures { result ≡ told (reply_of reply) }
{
    match reply {
        KeyReply::Found(value) | KeyReply::Differs(value) => Some(value),
        _ => None,
    }
}

/// The reply to an addition, whose change of that value was answered so.
fn sum_told(value: u64, reply: KeyReply) -> KeyReply
    ensures { reply_of result ≡ sum_reply (Some value) (reply_of reply) }
{
    match reply {
        KeyReply::Changed => KeyReply::Replaced(value),
        other => other,
    }
}

/// Puts the sum of a key's value and a number in its place: finds the value, and changes it; where it is another one by then, changes that.
fn sum_up<R: Wait>(
    rt: &R,
    aside: &mut Aside<'_>,
    handle: &mut Handle<'_>,
    key: u64,
    added: u64,
) -> KeyReply
    ensures same { IsSameHandle handle.old handle.new }
    ensures adds { HasAdded key added (reply_of result) handle.old handle.new }
    ensures noted { Notes handle.old aside.old handle.new aside.new }
{
    let found = handle.find(rt, key);
    let Some(mut value) = value_in(found) else {
        return found;
    };
    for _ in rt.forever() {
        let change = KeyWrite::Change(value, value.wrapping_add(added));
        let reply = write(rt, aside, handle, key, change);
        match value_in(reply) {
            Some(other) => value = other,
            None => return sum_told(value, reply),
        }
    }
    unreachable!()
}

/// Answers an addition.
pub(crate) fn add<R: Wait>(
    rt: &R,
    aside: &mut Aside<'_>,
    handle: &mut Handle<'_>,
    number: u64,
    key: u64,
    added: u64,
    text: &mut Vec<u8>,
) -> Result<(), AllocError>
    ensures same { IsSameHandle handle.old handle.new }
    ensures answers { OnOk result (HasAnswered number (Some (Request.Add key added)) text.old.items text.new.items handle.old handle.new) }
    ensures noted { Notes handle.old aside.old handle.new aside.new }
{
    let reply = sum_up(rt, aside, handle, key, added);
    push_key_line(text, number, reply)
}
