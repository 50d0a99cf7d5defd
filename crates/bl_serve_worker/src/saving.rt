//! All rows go into a file while other workers go on.

ghost use Rattle.std.specs.Prelude.{◌≡◌, Some, OnOk};
ghost use Rattle.bl_map.specs.Handles.{IsSameHandle};
ghost use Rattle.bl_serve_worker.specs.Answering.{HasAnswered};

use crate::chunk::Chunk;
use crate::gate::Gate;
use bl_map::Handle;
use bl_serve_lines::print::{push_number, push_word_line};
use bl_serve_lines::request::Request;
use std::alloc::AllocError;
use std::sync::Wait;

/// Answers a save: scans the whole map, hands the rows over, and tells how many there are, or that they were not saved.
#[inline(never)]
pub(crate) fn save<R: Wait, G: Gate>(
    rt: &R,
    chunk: &Chunk<'_, G>,
    handle: &mut Handle<'_>,
    number: u64,
    text: &mut Vec<u8>,
) -> Result<(), AllocError>
    ensures same { IsSameHandle handle.old handle.new }
    ensures answers { OnOk result (HasAnswered number (Some Request.Save) text.old.items text.new.items handle.old handle.new) }
{
    let service = chunk.service;
    let mut rows = Vec::new(service.alloc);
    handle.scan(rt, 0, None, &mut rows)?;
    let name = chunk.file_name(number);
    if !service.gate.save(name, rows.as_slice()) {
        return push_word_line(text, number, b"unsaved");
    }
    let count = rows.len() as u64;
    push_number(text, b"", number)?;
    push_number(text, b" saved ", count)?;
    text.push(b'\n')?;
    Ok(())
}
