//! The command `rows`.

ghost use Rattle.std.specs.Prelude.{◌≡◌, true, false, ℕ, List, IfErr, OnOk};
ghost use Rattle.bl_cli_commands.specs.Checks.{ReadsAll, HasLength};
ghost use Rattle.bl_cli_commands.specs.RowTexts.{PrintsRows, CannotPrint};

use crate::fault::CommandFault;
use crate::image_file::image_file;
use crate::load::load_image;
use bl_load::rows_of;
use bl_model::Watched;
use bl_row_lines::write_rows;
use std::alloc::Global;
use std::fs;
use std::io::{Read, Write};
use std::rt::Files;

/// Writes a line `K V` for each row of the sound image that the reader gives, by rising keys. Where the image is not sound,
/// `Unsound` names the rule and the page as `check` does. After a failed write, or where memory was refused meanwhile, a beginning of
/// the lines is out.
pub fn print_rows<R: Read, W: Write>(
    alloc: Global,
    reader: &mut Watched<R>,
    length: Option<u64>,
    writer: &mut Watched<W>,
) -> Result<(), CommandFault>
    // All bytes were read, they are a sound image, and its rows were written.
    ensures ok { OnOk result ((bytes : List ℕ)
        × ReadsAll (R.remaining reader.old.inner) (R.remaining reader.new.inner) bytes × HasLength length bytes
        × PrintsRows bytes (W.contents writer.old.inner) (W.contents writer.new.inner)) }
    // Nothing is held back.
    ensures flushed { OnOk result (writer.new.pending ≡ false) }
    // Whose fault it is.
    ensures fault { IfErr result (λ fault. CannotPrint fault length
        (R.remaining reader.old.inner) (R.remaining reader.new.inner) (reader.new.failed ≡ true)
        (writer.new.failed ≡ true)) }
{
    let quiet = load_image(alloc, reader, length)?;
    let rows = rows_of(alloc, &quiet)?;
    match write_rows(alloc, writer, rows.as_slice()) {
        Ok(()) => Ok(()),
        Err(fault) => Err(CommandFault::from(fault)),
    }
}

/// Prints the rows of the image in a file. A missing file, a folder, and a file that is cut while it is read are failed reads.
pub fn print_file<R: Files + AllocGlobal, W: Write>(
    rt: &R,
    path: &str,
    writer: &mut Watched<W>,
) -> Result<(), CommandFault> {
    let Ok(file) = fs::open(rt, path) else {
        return Err(CommandFault::Read);
    };
    let (mut bytes, length) = image_file(rt.alloc(), file)?;
    print_rows(rt.alloc(), &mut bytes, length, writer)
}
