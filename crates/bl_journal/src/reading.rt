//! A log is read: the rows of its map.

ghost use Rattle.std.specs.Prelude.{◌≡◌, ◌≤◌, ℕ, List, [], Option, length, IfOk, OnOk};
ghost use Rattle.bl_journal.specs.Files.{LeavesOnly, Only};
ghost use Rattle.bl_journal.specs.Rows.{IsLeft, AreLeft, Rises};
ghost use Rattle.bl_journal.specs.Logs.{IsLogOf};
ghost use Rattle.bl_journal.specs.Parts.{TellsRows};

use crate::device::Device;
use crate::fault::LogFault;
use crate::record::{HEAD, body_in, take_body};
use crate::rows::rows_left;
use crate::words::{WORD, words_in};
use std::alloc::{AllocError, Global};

/// The first word of a log: `BLNKLOG1` in ASCII.
pub(crate) const MARK: u64 = 0x3147_4f4c_4b4e_4c42;

/// So many words stand before the first record: the mark and the salt.
const FRONT: usize = 2;

/// What the records of a log say.
#[derive(Drop)]
pub(crate) struct Told {
    pub(crate) came: Vec<(u64, u64)>,
    pub(crate) went: Vec<(u64, u64)>,
    /// How many words the records have.
    pub(crate) end: usize,
}

/// Reads the records of a log with that salt, up to what is none.
fn told_by(alloc: Global, salt: u64, words: &[u64]) -> Result<Told, AllocError>
    ensures tells { IfOk result (λ told. TellsRows salt words.now told.came.items told.went.items) }
    ensures end { IfOk result (λ told. told.end ≤ length words.now) }
{
    let mut came = Vec::new(alloc);
    let mut went = Vec::new(alloc);
    let mut rest = words;
    while let Some(body) = body_in(salt, rest) {
        take_body(body, &mut came, &mut went)?;
        rest = &rest[body.len() + HEAD..];
    }
    Ok(Told {
        came,
        went,
        end: words.len() - rest.len(),
    })
}

/// Whether a record stands anywhere behind the first of these words, which begin with none.
fn has_record_behind(salt: u64, words: &[u64]) -> bool {
    let mut rest = words;
    while let [_, after @ ..] = rest {
        rest = after;
        if body_in(salt, rest).is_some() {
            return true;
        }
    }
    false
}

/// The rows of the map, by rising keys, of the records of a log with that salt.
fn rows_told(alloc: Global, salt: u64, words: &[u64]) -> Result<Vec<(u64, u64)>, LogFault>
    ensures left { IfOk result (λ rows. (came : List (ℕ × ℕ)) × (went : List (ℕ × ℕ)) × TellsRows salt words.now came went × AreLeft came went rows.items) }
    ensures rises { IfOk result (λ rows. Rises rows.items) }
{
    let told = told_by(alloc, salt, words)?;
    let end = told.end;
    let has_none = end == 0 && !words.is_empty();
    if has_none || has_record_behind(salt, &words[end..]) {
        return Err(LogFault::Damaged(((FRONT + end) as u64).saturating_mul(WORD as u64)));
    }
    let Told { came, went, end: _ } = told;
    match rows_left(alloc, came, went)? {
        Some(rows) => Ok(rows),
        None => Err(LogFault::Broken),
    }
}

/// The rows of the map of a log, by rising keys: none where there is no log yet. No room is needed on a disk for it.
pub fn rows_in(alloc: Global, bytes: &[u8]) -> Result<Vec<(u64, u64)>, LogFault>
    ensures left { (m : ℕ → Option ℕ) → IsLogOf bytes.now m → IfOk result (λ rows. IsLeft rows.items [] m) }
    ensures rises { IfOk result (λ rows. Rises rows.items) }
{
    let Some(words) = words_in(alloc, bytes)? else {
        return Err(LogFault::Alien);
    };
    match words.as_slice() {
        [] => Ok(Vec::new(alloc)),
        [mark, salt, records @ ..] if *mark == MARK => {
            let rows = rows_told(alloc, *salt, records)?;
            Ok(rows)
        }
        _ => Err(LogFault::Alien),
    }
}

/// The rows of the map whose log a crash may have left in the file, by rising keys. It syncs the file before, so what it tells is on the
/// disk; it writes nothing.
pub fn read<D: Device>(alloc: Global, device: &mut D) -> Result<Vec<(u64, u64)>, LogFault>
    ensures same { D.is_modelled device.old → D.is_modelled device.new }
    ensures left { D.is_modelled device.old → (m : ℕ → Option ℕ) → IsLogOf (D.seen device.old) m → IfOk result (λ rows. IsLeft rows.items [] m) }
    ensures rises { IfOk result (λ rows. Rises rows.items) }
    ensures seen { D.is_modelled device.old → D.seen device.new ≡ D.seen device.old }
    ensures durable { D.is_modelled device.old → IfOk result (λ rows. Only (D.seen device.new) (D.leaves device.new (D.moment device.new))) }
    // A crash at any moment of the call leaves what one before it might have left.
    ensures any_moment { D.is_modelled device.old → LeavesOnly D.moment D.leaves device.old device.new (D.leaves device.old (D.moment device.old)) }
{
    device.sync()?;
    let bytes = device.read(alloc)?;
    rows_in(alloc, bytes.as_slice())
}
