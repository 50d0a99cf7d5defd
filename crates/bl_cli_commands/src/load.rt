//! The image that a server begins with.

ghost use Rattle.std.specs.Prelude.{◌≡◌, true, ℕ, List, IfOk, IfErr};
ghost use Rattle.bl_image.specs.Images.{IsImage};
ghost use Rattle.bl_cli_commands.specs.Checks.{ReadsAll, HasLength, CannotLoad};

use crate::check::read_observed;
use crate::fault::CommandFault;
use crate::image_file::image_file;
use bl_check::{Fault, Quiet, load};
use bl_model::Watched;
use std::alloc::Global;
use std::fs;
use std::io::Read;
use std::rt::Files;

/// The sound image that the reader gives. Where it is not sound, `Unsound` names the rule and the page as `check` does; where
/// the number of its bytes is known and another number is read, the read has failed. `Memory` comes only where a growth was
/// refused.
pub fn load_image<R: Read>(
    alloc: Global,
    reader: &mut Watched<R>,
    length: Option<u64>,
) -> Result<Quiet, CommandFault>
    // All bytes were read, and they are this image, which is sound by its type.
    ensures ok { IfOk result (λ quiet. (bytes : List ℕ)
        × ReadsAll (R.remaining reader.old.inner) (R.remaining reader.new.inner) bytes × HasLength length bytes
        × IsImage quiet.image.pages.items bytes) }
    ensures fault { IfErr result (λ fault. CannotLoad fault length
        (R.remaining reader.old.inner) (R.remaining reader.new.inner) (reader.new.failed ≡ true)) }
{
    let bytes = read_observed(alloc, reader, length)?;
    match load(alloc, bytes.as_slice()) {
        Ok(quiet) => Ok(quiet),
        Err(Fault::Rule { rule, page }) => Err(CommandFault::Unsound(rule, page)),
        Err(Fault::Memory) => Err(CommandFault::Memory),
    }
}

/// The sound image in a file. A missing file, a folder, and a file that is cut while it is read are failed reads.
pub fn load_file<R: Files + AllocGlobal>(rt: &R, path: &str) -> Result<Quiet, CommandFault> {
    let Ok(file) = fs::open(rt, path) else {
        return Err(CommandFault::Read);
    };
    let (mut bytes, length) = image_file(rt.alloc(), file)?;
    load_image(rt.alloc(), &mut bytes, length)
}
