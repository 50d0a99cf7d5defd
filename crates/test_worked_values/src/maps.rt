//! Calls of a plain map.

use bl_model::{Op, PlainMap};
use bl_serve_lines::print::push_reply;
use std::alloc::{AllocError, Global};

/// The operation of this call.
pub fn op_of(call: &str, numbers: &[u64]) -> Option<Op> {
    match (call, numbers) {
        ("find", [key]) => Some(Op::Find(*key)),
        ("insert", [key, value]) => Some(Op::Insert(*key, *value)),
        ("put", [key, value]) => Some(Op::Put(*key, *value)),
        ("delete", [key]) => Some(Op::Delete(*key)),
        ("change", [key, old, new]) => Some(Op::Change(*key, *old, *new)),
        ("part", [from]) => Some(Op::Part(*from)),
        ("partdown", [from]) => Some(Op::PartDown(*from)),
        _ => None,
    }
}

/// Applies the operation, and says what the map replies.
pub fn applied(alloc: Global, map: &mut PlainMap, op: &Op) -> Result<Vec<u8>, AllocError> {
    let reply = map.apply(op)?;
    let mut text = Vec::new(alloc);
    push_reply(&mut text, &reply)?;
    Ok(text)
}
