//! The index has room for the lines to come.

ghost use Rattle.std.specs.Prelude.{◌≡◌, IfOk};
ghost use Rattle.bl_serve_ground.specs.Standing.{IsAtRest, Resettles};

use crate::session::Session;
use bl_serve_ground::{Load, settled};
use bl_serve_reading::ParsedLines;
use std::alloc::{AllocError, Global};

/// The session, with room for those lines, as far as its index may grow; where most of its pages are free, the index may shrink.
pub fn with_room<'a>(
    alloc: Global,
    session: Session<'a>,
    lines: &ParsedLines,
) -> Result<Session<'a>, AllocError>
    requires rests { IsAtRest session.ground session.passes.items }
    ensures totals { IfOk result (λ back. back.totals ≡ session.entry.totals) }
    ensures changes { IfOk result (λ back. back.changes ≡ session.entry.changes) }
    ensures text { IfOk result (λ back. back.text.items ≡ session.entry.text.items) }
    ensures resettles { IfOk result (λ back. Resettles session.entry.ground session.entry.passes.items back.ground back.passes.items) }
{
    let Session {
        plan,
        ground,
        passes,
        spare,
        slots,
        totals,
        remarks,
        changes,
        text,
    } = session;
    let load = Load {
        insertions: lines.insertions() as u64,
        deletions: lines.deletions() as u64,
    };
    let (ground, passes, spare) = settled(alloc, ground, passes, spare, load)?;
    Ok(Session {
        plan,
        ground,
        passes,
        spare,
        slots,
        totals,
        remarks,
        changes,
        text,
    })
}
