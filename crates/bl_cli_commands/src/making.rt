//! The command `load`: an image of rows.

ghost use Rattle.std.specs.Prelude.{◌≡◌, true, ℕ, List, length, IfOk, MatchResult};
ghost use Rattle.std.specs.Io.KnownBytes.{Consumes, IsAtEnd};
ghost use Rattle.bl_cli_commands.specs.Made.{Makes, CannotMake, status_of_rows};

use bl_check::Quiet;
use bl_load::{LoadFault, image_of};
use bl_model::Watched;
use bl_row_lines::{RowsFault, read_rows};
use std::alloc::{AllocError, Global};
use std::io::Read;

/// Why no image was made of rows. Its text is the line on standard error.
#[derive(Clone, Copy, Debug, PartialEq, Eq, thiserror::Error)]
pub enum MakeFault {
    /// The rows could not be read.
    #[error("blink: {0}")]
    Rows(RowsFault),
    /// There is no such image of the rows.
    #[error("blink: {0}")]
    Image(LoadFault),
}

impl MakeFault {
    /// The exit status of the program.
    pub fn status(self) -> u8
        ensures { result ≡ status_of_rows self }
    {
        match self {
            MakeFault::Rows(RowsFault::Memory) | MakeFault::Image(LoadFault::Memory) => 4,
            MakeFault::Rows(_) | MakeFault::Image(_) => 3,
        }
    }

    /// The number of the line that is no row, where one is not.
    pub fn bad_row(self) -> Option<u64> {
        match self {
            MakeFault::Rows(RowsFault::NoRow(line)) => Some(line),
            _ => None,
        }
    }

    /// The second line on standard error: what helps where rows had no room, and what an image without
    /// memory takes. None of another fault.
    pub fn advice(
        self,
        alloc: Global,
        pages: u32,
        fill: u32,
    ) -> Result<Option<String>, AllocError> {
        match self {
            MakeFault::Image(LoadFault::Room) => Ok(Some(format!(in alloc;
                "blink: more pages than {pages}, by --pages or --large, may help"
            )?)),
            MakeFault::Image(LoadFault::Levels) => Ok(Some(format!(in alloc;
                "blink: a greater --fill than {fill} may help"
            )?)),
            MakeFault::Image(LoadFault::Memory) => {
                let bytes = u64::from(pages).saturating_mul(256).saturating_add(32);
                Ok(Some(format!(in alloc;
                    "blink: an image of {pages} pages has {bytes} bytes, and more than these are wanted"
                )?))
            }
            MakeFault::Rows(_) | MakeFault::Image(_) => Ok(None),
        }
    }
}

/// An image of the rows that the reader gives, of so many pages, 4 to 2^28, in which each leaf has `fill` rows, 1 to 14, and each page
/// above as many children. The rows are lines `K V` by rising keys.
pub fn make_image<R: Read>(
    alloc: Global,
    reader: &mut Watched<R>,
    pages: u32,
    fill: u32,
) -> Result<Quiet, MakeFault>
    ensures made { (bytes : List ℕ)
        × Consumes (R.remaining reader.old.inner) (R.remaining reader.new.inner) bytes
        × MatchResult result
        (λ quiet. Makes fill bytes quiet.image.pages.items × IsAtEnd (R.remaining reader.new.inner))
        (λ fault. CannotMake fault bytes (IsAtEnd (R.remaining reader.new.inner)) (reader.new.failed ≡ true) pages fill) }
    ensures pages { IfOk result (λ quiet. length quiet.image.pages.items ≡ pages) }
{
    let rows = match read_rows(alloc, reader) {
        Ok(rows) => rows,
        Err(fault) => return Err(MakeFault::Rows(fault)),
    };
    match image_of(alloc, rows.as_slice(), pages, fill) {
        Ok(quiet) => Ok(quiet),
        Err(fault) => Err(MakeFault::Image(fault)),
    }
}
