//! One line.

ghost use Rattle.std.specs.Prelude.{◌≡◌, ℕ, ◌++◌, List, true};
ghost use Rattle.std.specs.Io.KnownBytes.{Consumes, IsAtEnd};
ghost use Rattle.bl_row_lines.specs.RowLines.{IsRowOrNone};
ghost use Rattle.bl_row_lines.specs.Steps.{GivesRow};

use arrayvec::ArrayVec;
use bl_model::{Failed, Watched};
use bl_serve_lines::number::two_numbers;
use bl_serve_lines::source::{Cut, KEPT, Source};
use std::io::Read;

/// What comes next.
#[derive(Clone, Copy, Debug, PartialEq, Eq)]
pub(crate) enum Said {
    /// A row: its key and its value.
    Row(u64, u64),
    /// Nothing.
    End,
    /// Bytes that are no line of a row.
    Bad,
}

/// The row that a line spells.
fn row_in(line: &[u8]) -> Option<(u64, u64)>
    ensures { IsRowOrNone line.now result }
{
    two_numbers(line)
}

/// Cuts the next line off, and reads it as a row.
pub(crate) fn read_row<R: Read>(
    source: &mut Source,
    reader: &mut Watched<R>,
    line: &mut ArrayVec<u8, KEPT>,
) -> Result<Said, Failed>
    ensures { (more : List ℕ)
        × Consumes (R.remaining reader.old.inner) (R.remaining reader.new.inner) more
        × GivesRow (source.old ++ more) result source.new
        (IsAtEnd (R.remaining reader.new.inner)) (reader.new.failed ≡ true) }
{
    match source.next_line(reader, line) {
        Ok(Cut::Whole) => match row_in(line.as_slice()) {
            Some((key, value)) => Ok(Said::Row(key, value)),
            None => Ok(Said::Bad),
        },
        Ok(Cut::End) => Ok(Said::End),
        Ok(Cut::Long) => Ok(Said::Bad),
        Ok(Cut::Rest) => Ok(Said::Bad),
        Err(failed) => Err(failed),
    }
}
