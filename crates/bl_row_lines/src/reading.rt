//! The rows that a reader gives.

ghost use Rattle.std.specs.Prelude.{◌≡◌, ◌<◌, ◌≤◌, ◌-◌, ◌++◌, ◌∷◌, ℕ, List, [], length, true, OnOk, MatchResult};
ghost use Rattle.std.specs.Bool.{MatchBool};
ghost use Rattle.std.specs.Io.KnownBytes.{Consumes, IsAtEnd};
ghost use Rattle.bl_model.specs.Rows.{key_at, HasRisingKeys};
ghost use Rattle.bl_row_lines.specs.declared.reading.RowsFault.TheVariants.{Memory};
ghost use Rattle.bl_row_lines.specs.RowLines.{rows_text, IsAbove, IsFaultOf};

use crate::row::{Said, read_row};
use arrayvec::ArrayVec;
use bl_model::Watched;
use bl_serve_lines::source::Source;
use std::alloc::{AllocError, Global};
use std::io::Read;

/// Why a reader gave no rows.
#[derive(Clone, Copy, Debug, PartialEq, Eq, thiserror::Error)]
pub enum RowsFault {
    /// This line, counted from 1, is the first that is bad: it is no row.
    #[error("line {0}: no row `K V` of two numbers")]
    NoRow(u64),
    /// This line, counted from 1, is the first that is bad: its key is not above the one before.
    #[error("line {0}: its key is not above the key before it")]
    NotAbove(u64),
    /// The reader failed.
    #[error("read failed")]
    Read,
    /// Memory was refused.
    #[error("out of memory")]
    Memory,
}

impl From<AllocError> for RowsFault {
    ghost from_gives = { λ _ fault. fault ≡ Memory };

    fn from(_error: AllocError) -> RowsFault {
        RowsFault::Memory
    }
}

/// Whether a key is above those of rows whose keys rise.
fn is_above(rows: &[(u64, u64)], key: u64) -> bool
    ensures { MatchBool result (IsAbove key rows.now) ((0 < length rows.now) × (key ≤ key_at rows.now (length rows.now - 1))) }
{
    match rows.last() {
        Some((last, _)) => *last < key,
        None => true,
    }
}

/// Puts a row behind the others.
fn add(rows: &mut Vec<(u64, u64)>, row: (u64, u64)) -> Result<(), AllocError>
    ensures { OnOk result (rows.new.items ≡ rows.old.items ++ row ∷ []) }
{
    rows.push(row)?;
    Ok(())
}

/// The rows of all lines that the reader gives, each `K V` with an LF behind it, by rising keys. Else the first line that is bad.
/// Lend a reader on which no call has failed: `Read` comes only where it has failed. `Memory` comes only where a growth was
/// refused. Behind a bad line nothing is cut into lines, but the reader may have been read ahead.
pub fn read_rows<R: Read>(
    alloc: Global,
    reader: &mut Watched<R>,
) -> Result<Vec<(u64, u64)>, RowsFault>
    ensures { (bytes : List ℕ)
        × Consumes (R.remaining reader.old.inner) (R.remaining reader.new.inner) bytes
        × MatchResult result
        (λ rows. (bytes ≡ rows_text rows.items) × HasRisingKeys rows.items × IsAtEnd (R.remaining reader.new.inner))
        (λ fault. IsFaultOf bytes (IsAtEnd (R.remaining reader.new.inner)) (reader.new.failed ≡ true) fault) }
{
    let mut source = Source::new(alloc)?;
    let mut line = ArrayVec::new();
    let mut rows = Vec::new(alloc);
    for number in 1..u64::MAX {
        match read_row(&mut source, reader, &mut line) {
            Ok(Said::Row(key, value)) => {
                if !is_above(rows.as_slice(), key) {
                    return Err(RowsFault::NotAbove(number));
                }
                match add(&mut rows, (key, value)) {
                    Ok(()) => {}
                    Err(_) => return Err(RowsFault::Memory),
                }
            }
            Ok(Said::End) => return Ok(rows),
            Ok(Said::Bad) => return Err(RowsFault::NoRow(number)),
            Err(_) => return Err(RowsFault::Read),
        }
    }
    // As many rows have no room in any memory.
    Err(RowsFault::Memory)
}
