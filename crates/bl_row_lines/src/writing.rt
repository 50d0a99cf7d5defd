//! The text of rows.

ghost use Rattle.std.specs.Prelude.{◌≡◌, ◌++◌, true, false, IfOk, OnOk, OnErr, IfErr};
ghost use Rattle.std.specs.Io.KnownBytes.{Appends};
ghost use Rattle.bl_model.specs.Stream.{StartsOut};
ghost use Rattle.bl_row_lines.specs.RowLines.{line_text, rows_text, IsPrintFault};
ghost use Rattle.bl_row_lines.specs.declared.writing.PrintFault.TheVariants.{Memory};

use bl_model::{Watched, write_text};
use bl_serve_lines::print::push_number;
use std::alloc::{AllocError, Global};
use std::io::Write;

/// Why rows were not written.
#[derive(Clone, Copy, Debug, PartialEq, Eq)]
pub enum PrintFault {
    /// A call on the writer has failed.
    Write,
    /// Memory was refused.
    Memory,
}

impl From<AllocError> for PrintFault {
    ghost from_gives = { λ _ fault. fault ≡ Memory };

    fn from(_error: AllocError) -> PrintFault {
        PrintFault::Memory
    }
}

/// So many rows are written at once.
const PIECE: usize = 1_000;

/// Appends the line of a row.
fn push_row(out: &mut Vec<u8>, row: &(u64, u64)) -> Result<(), AllocError>
    ensures { OnOk result (out.new.items ≡ out.old.items ++ line_text row.now) }
{
    push_number(out, b"", row.0)?;
    push_number(out, b" ", row.1)?;
    out.push(b'\n')?;
    Ok(())
}

/// The lines of rows.
fn text_of(alloc: Global, rows: &[(u64, u64)]) -> Result<Vec<u8>, AllocError>
    ensures { IfOk result (λ text. text.items ≡ rows_text rows.now) }
{
    let mut text = Vec::new(alloc);
    for row in rows {
        push_row(&mut text, row)?;
    }
    Ok(text)
}

/// Writes the lines of some rows.
fn write_piece<W: Write>(
    alloc: Global,
    writer: &mut Watched<W>,
    rows: &[(u64, u64)],
) -> Result<(), PrintFault>
    ensures ok { OnOk result (Appends (W.contents writer.old.inner) (W.contents writer.new.inner) (rows_text rows.now)) }
    ensures begun { OnErr result (StartsOut (W.contents writer.old.inner) (W.contents writer.new.inner) (rows_text rows.now)) }
    ensures fault { IfErr result (IsPrintFault (writer.new.failed ≡ true)) }
{
    let text = text_of(alloc, rows)?;
    match write_text(writer, text.as_slice()) {
        Ok(()) => Ok(()),
        Err(_) => Err(PrintFault::Write),
    }
}

/// Writes a line for each row, `K V` with an LF behind it, and flushes the writer. After a fault a beginning of the text is out.
/// `Write` comes only where a call on the writer has failed, and `Memory` only where a growth was refused.
pub fn write_rows<W: Write>(
    alloc: Global,
    writer: &mut Watched<W>,
    rows: &[(u64, u64)],
) -> Result<(), PrintFault>
    ensures ok { OnOk result (Appends (W.contents writer.old.inner) (W.contents writer.new.inner) (rows_text rows.now)) }
    // Nothing is held back.
    ensures flushed { OnOk result (writer.new.pending ≡ false) }
    ensures begun { OnErr result (StartsOut (W.contents writer.old.inner) (W.contents writer.new.inner) (rows_text rows.now)) }
    ensures fault { IfErr result (IsPrintFault (writer.new.failed ≡ true)) }
{
    let mut rest = rows;
    'pieces: while !rest.is_empty() {
        let (piece, more) = rest.split_at(rest.len().min(PIECE));
        write_piece(alloc, writer, piece)?;
        rest = more;
    }
    match writer.flush() {
        Ok(()) => Ok(()),
        Err(_) => Err(PrintFault::Write),
    }
}
