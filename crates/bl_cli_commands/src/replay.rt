//! The command `replay`.

ghost use Rattle.std.specs.Prelude.{◌≡◌, ℕ, List, true, false, MatchResult, OnOk};
ghost use Rattle.std.specs.Io.KnownBytes.{Consumes, IsAtEnd};
ghost use Rattle.bl_cli_commands.specs.Replays.{Replays, StopsReplay};

use crate::fault::CommandFault;
use bl_cli_streams::ScriptFile;
use bl_model::Watched;
use bl_replay::{PLAYED, replay};
use bl_replay_script::read_script;
use std::alloc::Global;
use std::fs;
use std::io::{Read, Write};
use std::rt::Files;

/// Reads a whole script, carries it out, and prints each event, with what stands in each page that is put where that is wanted. Nothing is written where the script is bad or the reader
/// fails. Lend a reader and a writer on which no call has failed.
pub fn replay_script<R: Read, W: Write>(
    alloc: Global,
    with_pages: bool,
    reader: &mut Watched<R>,
    writer: &mut Watched<W>,
) -> Result<(), CommandFault>
    ensures replays { (bytes : List ℕ)
        × Consumes (R.remaining reader.old.inner) (R.remaining reader.new.inner) bytes
        × MatchResult result
        (λ done. Replays with_pages bytes (IsAtEnd (R.remaining reader.new.inner))
        (W.contents writer.old.inner) (W.contents writer.new.inner))
        (λ fault. StopsReplay with_pages fault bytes (IsAtEnd (R.remaining reader.new.inner)) (reader.new.failed ≡ true)
        (writer.new.failed ≡ true) (W.contents writer.old.inner) (W.contents writer.new.inner)) }
    // What was printed is not held back.
    ensures flushed { OnOk result (writer.new.pending ≡ false) }
{
    let script = match read_script(alloc, reader, PLAYED) {
        Ok(script) => script,
        Err(fault) => return Err(CommandFault::from(fault)),
    };
    match replay(alloc, &script, with_pages, writer) {
        Ok(()) => Ok(()),
        Err(fault) => Err(CommandFault::from(fault)),
    }
}

/// Carries out the script in a file. A missing file and a folder are failed reads. What stands behind a line that is too long is
/// not read: so a device that has no end is a bad script.
pub fn replay_file<R: Files + AllocGlobal, W: Write>(
    rt: &R,
    path: &str,
    with_pages: bool,
    writer: &mut Watched<W>,
) -> Result<(), CommandFault> {
    let Ok(file) = fs::open(rt, path) else {
        return Err(CommandFault::Read);
    };
    let mut reader = Watched::new(ScriptFile::new(file));
    replay_script(rt.alloc(), with_pages, &mut reader, writer)
}
