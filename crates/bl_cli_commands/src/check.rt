//! The command `check`.

ghost use Rattle.std.specs.Prelude.{◌≡◌, ◌↔◌, ◌++◌, ℕ, List, Bool, true, IfOk, IfErr, IsTrue, codes, decimal, string_bytes, false, OnOk};
ghost use Rattle.std.specs.Io.KnownBytes.{Appends};
ghost use Rattle.bl_check.specs.Faults.{AreSoundImage};
ghost use Rattle.bl_cli_commands.specs.Checks.{report_text, fault_text, IsVerdict, ReadsAll, HasLength, CannotRead, ComesFrom, Leaves};
ghost use Rattle.bl_cli_commands.specs.declared.fault.CommandFault.TheVariants as command;

use crate::fault::CommandFault;
use crate::image_file::image_file;
use bl_check::{Fault, Report, check};
use bl_model::{Watched, write_out};
use bl_serve_lines::source::read_some;
use std::alloc::{AllocError, Global};
use std::fs;
use std::io::{Read, Write};
use std::rt::Files;

/// How many bytes one call reads at most.
const PIECE: usize = 16_384;

/// All bytes of a reader. Where their number is known and another number is read, the read has failed.
pub(crate) fn read_observed<R: Read>(
    alloc: Global,
    reader: &mut Watched<R>,
    length: Option<u64>,
) -> Result<Vec<u8>, CommandFault>
    ensures ok { IfOk result (λ bytes. ReadsAll (R.remaining reader.old.inner) (R.remaining reader.new.inner) bytes.items
        × HasLength length bytes.items) }
    ensures fault { IfErr result (λ fault. ComesFrom fault
        (CannotRead length (R.remaining reader.old.inner) (R.remaining reader.new.inner) (reader.new.failed ≡ true)) ⊥) }
{
    let bytes = read_whole(alloc, reader)?;
    if length.is_some_and(|length| length != bytes.len() as u64) {
        return Err(CommandFault::Read);
    }
    Ok(bytes)
}

/// All bytes of a reader.
fn read_whole<R: Read>(alloc: Global, reader: &mut Watched<R>) -> Result<Vec<u8>, CommandFault>
    ensures ok { IfOk result (λ bytes.
        ReadsAll (R.remaining reader.old.inner) (R.remaining reader.new.inner) bytes.items) }
    // Only a reader that has failed is a failed read.
    ensures fault { IfErr result (λ fault. ComesFrom fault (reader.new.failed ≡ true) ⊥) }
{
    let mut bytes = Vec::new(alloc);
    let mut piece = [0; PIECE];
    for _ in 0..u64::MAX {
        match read_some(reader, &mut piece) {
            Ok(0) => return Ok(bytes),
            Ok(count) => bytes.extend_from_slice(&piece[..count])?,
            Err(_) => return Err(CommandFault::Read),
        }
    }
    // As many bytes have no room in any memory.
    Err(CommandFault::Memory)
}

/// The first half of a report's line.
fn pages_text(alloc: Global, rows: u32, leaves: u32, inners: u32) -> Result<String, AllocError>
    ensures { IfOk result (λ text. string_bytes text ≡ codes "ok rows " ++ (decimal rows
        ++ (codes " leaves " ++ (decimal leaves ++ (codes " inners " ++ decimal inners))))) }
{
    format!(in alloc; "ok rows {rows} leaves {leaves} inners {inners}")
}

/// The other half.
fn shape_text(alloc: Global, levels: u32, unposted: u32, thin: u32) -> Result<String, AllocError>
    ensures { IfOk result (λ text. string_bytes text ≡ codes " levels " ++ (decimal levels
        ++ (codes " unposted " ++ (decimal unposted ++ (codes " thin " ++ (decimal thin ++ codes "\n")))))) }
{
    format!(in alloc; " levels {levels} unposted {unposted} thin {thin}\n")
}

/// The line that a check prints of a sound image.
fn report_line(alloc: Global, report: &Report) -> Result<String, AllocError>
    ensures { IfOk result (λ line. string_bytes line ≡ report_text report.now) }
{
    let mut line = pages_text(alloc, report.rows, report.leaves, report.inners)?;
    let shape = shape_text(alloc, report.levels, report.unposted, report.thin)?;
    line.push_str(shape.as_str())?;
    Ok(line)
}

/// The line that a check prints of a fault: which rule the page breaks.
fn fault_line(alloc: Global, rule: u32, page: u32) -> Result<String, AllocError>
    ensures { IfOk result (λ line. string_bytes line ≡ fault_text rule page) }
{
    format!(in alloc; "fault C{rule} page {page}\n")
}

/// Whether the bytes are a sound image, and the line that says so.
fn verdict(alloc: Global, bytes: &[u8]) -> Result<(bool, String), CommandFault>
    ensures line { IfOk result (λ found. IsVerdict found.0 bytes.now (string_bytes found.1)) }
    ensures sound { IfOk result (λ found. IsTrue found.0 ↔ AreSoundImage bytes.now) }
    ensures fault { IfErr result (λ fault. fault ≡ command.Memory) }
{
    match check(alloc, bytes) {
        Ok(report) => Ok((true, report_line(alloc, &report)?)),
        Err(Fault::Rule { rule, page }) => Ok((false, fault_line(alloc, rule, page)?)),
        Err(Fault::Memory) => Err(CommandFault::Memory),
    }
}

/// Checks the image that the reader gives, and writes what was found as one line: whether it is sound. Where the
/// number of its bytes is known and another number is read, the read has failed. `Memory` comes only where a growth was
/// refused.
pub fn check_image<R: Read, W: Write>(
    alloc: Global,
    reader: &mut Watched<R>,
    length: Option<u64>,
    writer: &mut Watched<W>,
) -> Result<bool, CommandFault>
    // All bytes were read, and the line that was written tells whether they are a sound image.
    ensures ok { IfOk result (λ sound. (bytes : List ℕ) × (line : List ℕ)
        × ReadsAll (R.remaining reader.old.inner) (R.remaining reader.new.inner) bytes × HasLength length bytes
        × IsVerdict sound bytes line × (IsTrue sound ↔ AreSoundImage bytes)
        × Appends (W.contents writer.old.inner) (W.contents writer.new.inner) line) }
    // The line is not held back.
    ensures flushed { OnOk result (writer.new.pending ≡ false) }
    // Whose fault it is.
    ensures fault { IfErr result (λ fault. ComesFrom fault
        (CannotRead length (R.remaining reader.old.inner) (R.remaining reader.new.inner) (reader.new.failed ≡ true))
        (writer.new.failed ≡ true)) }
    // What is written then: of such a line a beginning at most.
    ensures left { IfErr result (λ fault. (line : List ℕ)
        × Leaves fault (W.contents writer.old.inner) (W.contents writer.new.inner) line
        × (fault ≡ command.Write → (sound : Bool) × (bytes : List ℕ)
        × ReadsAll (R.remaining reader.old.inner) (R.remaining reader.new.inner) bytes × IsVerdict sound bytes line)) }
{
    let bytes = read_observed(alloc, reader, length)?;
    let (sound, line) = verdict(alloc, bytes.as_slice())?;
    match write_out(writer, line.as_bytes()) {
        Ok(()) => Ok(sound),
        Err(_) => Err(CommandFault::Write),
    }
}

/// Checks the image in a file. A missing file, a folder, and a file that is cut while it is read are failed reads.
pub fn check_file<R: Files + AllocGlobal, W: Write>(
    rt: &R,
    path: &str,
    writer: &mut Watched<W>,
) -> Result<bool, CommandFault> {
    let Ok(file) = fs::open(rt, path) else {
        return Err(CommandFault::Read);
    };
    let (mut bytes, length) = image_file(rt.alloc(), file)?;
    check_image(rt.alloc(), &mut bytes, length, writer)
}
