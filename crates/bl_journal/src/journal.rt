//! A journal: a log to which records are put.

ghost use Rattle.std.specs.Prelude.{◌≡◌, ◌⊎◌, ◌+◌, ◌*◌, ◌%◌, ◌^◌, ◌≤◌, ◌<◌, ℕ, List, [], Option, length, IfOk, OnOk};
ghost use Rattle.bl_journal.specs.Files.{LeavesOnly, Only};
ghost use Rattle.bl_journal.specs.Records.{Begins, body_words};
ghost use Rattle.bl_journal.specs.Rows.{IsLeft, Leads};
ghost use Rattle.bl_journal.specs.Logs.{IsLogOf, EndsIn, KeepsMap, device_of};
ghost use Rattle.bl_journal.specs.Parts.{IsNewLog};

use crate::device::Device;
use crate::fault::LogFault;
use crate::reading::{MARK, read};
use crate::record::record_of;
use crate::rows::rows_left;
use crate::words::{WORD, spell};
use std::alloc::{AllocError, Global};

/// So many zeros stand behind the first record of a log at least: 1 MiB.
const LEAST_ROOM: usize = 1 << 20;

/// How many zeros stand behind a head and records of so many bytes: room for as many again.
fn room_behind(bytes: usize) -> usize
    requires { (bytes % 8 ≡ 0) × (bytes < 2 ^ 63) }
    ensures { (result % 8 ≡ 0) × (result < 2 ^ 63) }
{
    bytes.max(LEAST_ROOM)
}

/// The bytes of a new log with that salt, whose one record has these rows.
fn new_log(alloc: Global, salt: u64, rows: &[(u64, u64)]) -> Result<Vec<u8>, AllocError>
    ensures { IfOk result (λ bytes. IsNewLog salt rows.now bytes.items) }
{
    let record = record_of(alloc, salt, rows, &[])?;
    let mut words = Vec::with_capacity(alloc, record.len().saturating_add(2))?;
    words.push(MARK)?;
    words.push(salt)?;
    words.extend_from_slice(record.as_slice())?;
    spell(alloc, words.as_slice())
}

/// The rows of a map that has these, once others came and went. None where they are those of no map.
fn changed_rows(
    alloc: Global,
    rows: Vec<(u64, u64)>,
    came: &[(u64, u64)],
    went: &[(u64, u64)],
) -> Result<Vec<(u64, u64)>, LogFault>
    ensures { IfOk result (λ after. (old new : ℕ → Option ℕ) → IsLeft rows.items [] old → Leads came.now went.now old new → IsLeft after.items [] new) }
{
    let mut all = rows;
    all.extend_from_slice(came)?;
    let mut gone = Vec::new(alloc);
    gone.extend_from_slice(went)?;
    match rows_left(alloc, all, gone)? {
        Some(after) => Ok(after),
        None => Err(LogFault::Broken),
    }
}

/// A log to which records are put.
#[derive(Drop)]
pub struct Journal<D> {
    device: D,
    /// The word that each record has, so that no rows can spell a record of this log.
    salt: u64,
    /// How many bytes of the file the head and the records have; none where it is to be written anew first.
    end: usize,
    /// How many bytes the file has.
    size: usize,
}

impl<D: Device + Drop> Journal<D> {
    /// A journal over a log that was read, or over no file. With the first commit the log is written anew, with that salt: a number that
    /// nobody can foresee who chooses keys and values. Until then nothing is written, so it needs no room.
    pub fn over(device: D, salt: u64) -> Journal<D>
        ensures modelled { D.is_modelled device → D.is_modelled (device_of result) }
        ensures keeps { D.is_modelled device → Only (D.seen device) (D.leaves device (D.moment device)) → (m : ℕ → Option ℕ) → IsLogOf (D.seen device) m
            → KeepsMap D.seen D.moment D.leaves m result }
        ensures same { device_of result ≡ device }
    {
        Journal {
            device,
            salt,
            end: 0,
            size: 0,
        }
    }

    /// Its file.
    pub fn into_device(self) -> D
        ensures { result ≡ device_of self }
    {
        self.device
    }

    /// Writes the log anew, with one record of these rows.
    fn begin_anew(&mut self, alloc: Global, rows: &[(u64, u64)]) -> Result<(), LogFault>
        ensures modelled { D.is_modelled (device_of self.old) → D.is_modelled (device_of self.new) }
        ensures kept { D.is_modelled (device_of self.old) → (m : ℕ → Option ℕ) → IsLeft rows.now [] m → OnOk result (KeepsMap D.seen D.moment D.leaves m self.new) }
        ensures ends { D.is_modelled (device_of self.old) → (last : List ℕ) → OnOk result (EndsIn (D.seen (device_of self.new)) last) }
        ensures any_moment { D.is_modelled (device_of self.old) → (m : ℕ → Option ℕ) → IsLeft rows.now [] m
            → LeavesOnly D.moment D.leaves (device_of self.old) (device_of self.new) (λ c. D.leaves (device_of self.old) (D.moment (device_of self.old)) c ⊎ IsLogOf c m) }
    {
        let bytes = new_log(alloc, self.salt, rows)?;
        let zeros = room_behind(bytes.len());
        self.device.replace(bytes.as_slice(), zeros)?;
        self.end = bytes.len();
        self.size = bytes.len() + zeros;
        Ok(())
    }

    /// Writes a record over the zeros, of which there are enough.
    fn append(&mut self, alloc: Global, words: &[u64]) -> Result<(), LogFault>
        requires kept { D.is_modelled (device_of self.old) → (m : ℕ → Option ℕ) × KeepsMap D.seen D.moment D.leaves m self.old }
        requires room { (self.old.end + 8 * length words.now ≤ self.old.size) × (self.old.size < 2 ^ 64) }
        requires some { 0 < length words.now }
        ensures modelled { D.is_modelled (device_of self.old) → D.is_modelled (device_of self.new) }
        ensures kept { D.is_modelled (device_of self.old) → (old new : ℕ → Option ℕ) (came went : List (ℕ × ℕ)) → KeepsMap D.seen D.moment D.leaves old self.old
            → Begins self.old.salt words.now (body_words came went) [] → Leads came went old new → OnOk result (KeepsMap D.seen D.moment D.leaves new self.new) }
        ensures ends { D.is_modelled (device_of self.old) → (came went : List (ℕ × ℕ)) → Begins self.old.salt words.now (body_words came went) []
            → OnOk result (EndsIn (D.seen (device_of self.new)) (body_words came went)) }
        ensures any_moment { D.is_modelled (device_of self.old) → (old new : ℕ → Option ℕ) (came went : List (ℕ × ℕ)) → KeepsMap D.seen D.moment D.leaves old self.old
            → Begins self.old.salt words.now (body_words came went) [] → Leads came went old new
            → LeavesOnly D.moment D.leaves (device_of self.old) (device_of self.new) (λ c. IsLogOf c old ⊎ IsLogOf c new) }
    {
        let bytes = spell(alloc, words)?;
        self.device.fill(self.end, bytes.as_slice())?;
        self.device.sync()?;
        self.end += bytes.len();
        Ok(())
    }

    /// Writes the log anew, with one record of the rows that are left once these came and those went.
    fn change_anew(
        &mut self,
        alloc: Global,
        came: &[(u64, u64)],
        went: &[(u64, u64)],
    ) -> Result<(), LogFault>
        requires kept { D.is_modelled (device_of self.old) → (m : ℕ → Option ℕ) × KeepsMap D.seen D.moment D.leaves m self.old }
        ensures modelled { D.is_modelled (device_of self.old) → D.is_modelled (device_of self.new) }
        ensures kept { D.is_modelled (device_of self.old) → (old new : ℕ → Option ℕ) → KeepsMap D.seen D.moment D.leaves old self.old
            → Leads came.now went.now old new → OnOk result (KeepsMap D.seen D.moment D.leaves new self.new) }
        ensures ends { D.is_modelled (device_of self.old) → (last : List ℕ) → OnOk result (EndsIn (D.seen (device_of self.new)) last) }
        ensures any_moment { D.is_modelled (device_of self.old) → (old new : ℕ → Option ℕ) → KeepsMap D.seen D.moment D.leaves old self.old
            → Leads came.now went.now old new → LeavesOnly D.moment D.leaves (device_of self.old) (device_of self.new) (λ c. IsLogOf c old ⊎ IsLogOf c new) }
    {
        let rows = read(alloc, &mut self.device)?;
        let after = changed_rows(alloc, rows, came, went)?;
        self.begin_anew(alloc, after.as_slice())
    }

    /// Puts a record of rows that came and rows that went to the log, which is written anew where there is no room behind its records.
    fn put(
        &mut self,
        alloc: Global,
        came: &[(u64, u64)],
        went: &[(u64, u64)],
    ) -> Result<(), LogFault>
        requires kept { D.is_modelled (device_of self.old) → (m : ℕ → Option ℕ) × KeepsMap D.seen D.moment D.leaves m self.old }
        ensures modelled { D.is_modelled (device_of self.old) → D.is_modelled (device_of self.new) }
        ensures kept { D.is_modelled (device_of self.old) → (old new : ℕ → Option ℕ) → KeepsMap D.seen D.moment D.leaves old self.old
            → Leads came.now went.now old new → OnOk result (KeepsMap D.seen D.moment D.leaves new self.new) }
        ensures ends { D.is_modelled (device_of self.old) → OnOk result (EndsIn (D.seen (device_of self.new)) (body_words came.now went.now)) }
        ensures any_moment { D.is_modelled (device_of self.old) → (old new : ℕ → Option ℕ) → KeepsMap D.seen D.moment D.leaves old self.old
            → Leads came.now went.now old new → LeavesOnly D.moment D.leaves (device_of self.old) (device_of self.new) (λ c. IsLogOf c old ⊎ IsLogOf c new) }
    {
        let record = record_of(alloc, self.salt, came, went)?;
        if record.len() > self.size.saturating_sub(self.end) / WORD {
            return self.change_anew(alloc, came, went);
        }
        self.append(alloc, record.as_slice())
    }

    /// Puts rows that came and rows that went to the log. Once this has answered Ok, each crash leaves the log of the changed map. Where
    /// nothing came and nothing went, nothing is written. At `Err` the log is to be read again.
    pub fn commit(
        &mut self,
        alloc: Global,
        came: &[(u64, u64)],
        went: &[(u64, u64)],
    ) -> Result<(), LogFault>
        requires kept { D.is_modelled (device_of self.old) → (m : ℕ → Option ℕ) × KeepsMap D.seen D.moment D.leaves m self.old }
        ensures modelled { D.is_modelled (device_of self.old) → D.is_modelled (device_of self.new) }
        ensures kept { D.is_modelled (device_of self.old) → (old new : ℕ → Option ℕ) → KeepsMap D.seen D.moment D.leaves old self.old
            → Leads came.now went.now old new → OnOk result (KeepsMap D.seen D.moment D.leaves new self.new) }
        // A crash at any moment of the call leaves the log of the map from before it, or of the changed one.
        ensures any_moment { D.is_modelled (device_of self.old) → (old new : ℕ → Option ℕ) → KeepsMap D.seen D.moment D.leaves old self.old
            → Leads came.now went.now old new → LeavesOnly D.moment D.leaves (device_of self.old) (device_of self.new) (λ c. IsLogOf c old ⊎ IsLogOf c new) }
    {
        if came.is_empty() && went.is_empty() {
            return Ok(());
        }
        self.put(alloc, came, went)
    }

    /// Puts a record without rows to the log, for a clean end: what was committed last is no longer the last record, so that damage to it is
    /// not taken for a write that a crash has cut short.
    pub fn seal(&mut self, alloc: Global) -> Result<(), LogFault>
        requires kept { D.is_modelled (device_of self.old) → (m : ℕ → Option ℕ) × KeepsMap D.seen D.moment D.leaves m self.old }
        ensures modelled { D.is_modelled (device_of self.old) → D.is_modelled (device_of self.new) }
        ensures kept { D.is_modelled (device_of self.old) → (m : ℕ → Option ℕ) → KeepsMap D.seen D.moment D.leaves m self.old
            → OnOk result (KeepsMap D.seen D.moment D.leaves m self.new) }
        ensures ends { D.is_modelled (device_of self.old) → OnOk result (EndsIn (D.seen (device_of self.new)) (body_words [] [])) }
        ensures any_moment { D.is_modelled (device_of self.old) → (m : ℕ → Option ℕ) → KeepsMap D.seen D.moment D.leaves m self.old
            → LeavesOnly D.moment D.leaves (device_of self.old) (device_of self.new) (λ c. IsLogOf c m) }
    {
        self.put(alloc, &[], &[])
    }
}
