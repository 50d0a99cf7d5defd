//! Whole texts to a watched writer.

ghost use Rattle.std.specs.Prelude.{◌≡◌, true, false, OnOk, OnErr};
ghost use Rattle.std.specs.Io.KnownBytes.{Appends};
ghost use Rattle.bl_model.specs.Stream.{StartsOut};

use crate::stream::{Failed, Watched};
use std::io::{ErrorKind, Write};

/// Writes the whole text. Where the writer fails, a beginning of it is out. An interrupted call is tried again.
pub fn write_text<W: Write>(writer: &mut Watched<W>, text: &[u8]) -> Result<(), Failed>
    ensures ok { OnOk result (Appends (W.contents writer.old.inner) (W.contents writer.new.inner) text.now) }
    ensures err { OnErr result (StartsOut (W.contents writer.old.inner) (W.contents writer.new.inner) text.now) }
    ensures failed { OnErr result (writer.new.failed ≡ true) }
{
    let mut rest = text;
    for _ in 0..u64::MAX {
        if rest.is_empty() {
            return Ok(());
        }
        match writer.write(rest) {
            Ok(0) => return Err(Failed),
            Ok(count) => rest = &rest[count..],
            Err(error) => {
                if error.kind() != ErrorKind::Interrupted {
                    return Err(Failed);
                }
            }
        }
    }
    Err(Failed)
}

/// Writes the whole text and flushes the writer, so that none of it is pending. Where one of these fails, a beginning of
/// the text is out.
pub fn write_out<W: Write>(writer: &mut Watched<W>, text: &[u8]) -> Result<(), Failed>
    ensures ok { OnOk result (Appends (W.contents writer.old.inner) (W.contents writer.new.inner) text.now) }
    ensures flushed { OnOk result (writer.new.pending ≡ false) }
    ensures err { OnErr result (StartsOut (W.contents writer.old.inner) (W.contents writer.new.inner) text.now) }
    ensures failed { OnErr result (writer.new.failed ≡ true) }
{
    write_text(writer, text)?;
    match writer.flush() {
        Ok(()) => Ok(()),
        Err(_) => Err(Failed),
    }
}
