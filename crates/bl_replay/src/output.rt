//! Output by way of a buffer.

ghost use Rattle.std.specs.Prelude.{◌≡◌, ◌++◌, true, [], OnOk, OnErr, IfErr, false};
ghost use Rattle.std.specs.Io.KnownBytes.{Appends};
ghost use Rattle.bl_model.specs.Stream.{StartsOut};
ghost use Rattle.bl_replay.specs.declared.fault.ReplayFault.TheVariants as fault;
ghost use Rattle.bl_replay.specs.Emits.{Emits};

use crate::fault::ReplayFault;
use bl_model::{Watched, write_out, write_text};
use std::io::Write;

/// How many bytes are gathered before they are written.
const FULL: usize = 8192;

/// Writes what is pending, if it is much.
pub fn write_much<W: Write>(
    writer: &mut Watched<W>,
    pending: &mut Vec<u8>,
) -> Result<(), ReplayFault>
    ensures ok { OnOk result (Emits (W.contents writer.old.inner) (W.contents writer.new.inner) pending.old.items pending.new.items []) }
    ensures err { OnErr result (StartsOut (W.contents writer.old.inner) (W.contents writer.new.inner) pending.old.items) }
    ensures failed { OnErr result (writer.new.failed ≡ true) }
{
    if pending.len() < FULL {
        return Ok(());
    }
    match write_text(writer, pending.as_slice()) {
        Ok(()) => {
            pending.clear();
            Ok(())
        }
        Err(_) => Err(ReplayFault::Write),
    }
}

/// Writes all that is pending, and flushes the writer.
pub fn write_last<W: Write>(writer: &mut Watched<W>, pending: &Vec<u8>) -> Result<(), ReplayFault>
    ensures ok { OnOk result (Appends (W.contents writer.old.inner) (W.contents writer.new.inner) pending.now.items) }
    ensures flushed { OnOk result (writer.new.pending ≡ false) }
    ensures err { OnErr result (StartsOut (W.contents writer.old.inner) (W.contents writer.new.inner) pending.now.items) }
    ensures failed { OnErr result (writer.new.failed ≡ true) }
{
    match write_out(writer, pending.as_slice()) {
        Ok(()) => Ok(()),
        Err(_) => Err(ReplayFault::Write),
    }
}
