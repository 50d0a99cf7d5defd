//! The log of a map.

ghost use Rattle.std.specs.Prelude.{◌≡◌, ℕ, List, [], ◌∷◌, Option, All, IfOk, IfErr, OnOk, OnErr, vec_len};
ghost use Rattle.std.specs.List.{AllZip};
ghost use Rattle.std.specs.Vec.{vec_capacity};
ghost use Rattle.bl_model.specs.Map.{SameMap};
ghost use Rattle.bl_claims.specs.Seeing.{first_map};
ghost use Rattle.bl_index.specs.Calls.{first_of};
ghost use Rattle.bl_journal.specs.Files.{LeavesOnly, Only};
ghost use Rattle.bl_journal.specs.Logs.{IsLogOf, EndsIn, KeepsMap};
ghost use Rattle.bl_journal.specs.Records.{body_words};
ghost use Rattle.bl_map.specs.Maps.{AreSeatsOf, IsLoaded};
ghost use Rattle.bl_map_log.specs.Notes.{IsNotingOf, IsNewNoting, KeepsNotes};
ghost use Rattle.bl_map_log.specs.Meetings.{MakesNoCall};
ghost use Rattle.bl_map_log.specs.Commits.{file_of, journal_of, HasLog, Commits, AreNewSeats, IsOpenLogFault, CallsKeepLog};

use crate::collecting::{clear_all, collected};
use crate::fault::OpenLogFault;
use crate::handle::NotingHandle;
use crate::meeting::meet_all;
use bl_changes::{histories_lead, rows_are_map};
use bl_journal::{Device, Journal, LogFault, read};
use bl_map::{Map, Seat};
use std::alloc::{AllocError, Global};

/// The log of a map, to which its handles commit.
#[derive(Drop)]
pub struct MapLog<D> {
    journal: Journal<D>,
}

/// Says that calls of handles which note what they change leave a log as it stands to them: what they have changed is noted still. It does
/// nothing when it runs.
pub fn calls_keep_log<D: Device>()
    ensures { CallsKeepLog D.seen D.moment D.leaves }
{}

impl<D: Device + Drop> MapLog<D> {
    /// A map with the rows of a log, and a seat for each of so many threads, 1 to 64: see [`Map::load`] for `pages` and `fill`. Of a file that is
    /// not there yet it has none. The log is read and not written, so it needs no room; with the first commit it is written anew, with that
    /// salt: a number that nobody can foresee who chooses keys and values.
    pub fn open(
        alloc: Global,
        device: D,
        salt: u64,
        pages: u32,
        fill: u32,
        seats: u32,
    ) -> Result<(MapLog<D>, Map, Vec<Seat>), OpenLogFault>
        ensures modelled { D.is_modelled device → IfOk result (λ t. D.is_modelled (file_of t.0)) }
        ensures keeps { D.is_modelled device → (m : ℕ → Option ℕ) → IsLogOf (D.seen device) m
            → IfOk result (λ t. KeepsMap D.seen D.moment D.leaves m (journal_of t.0) × SameMap m (first_map (first_of t.1.index))) }
        ensures loaded { IfOk result (λ t. (rows : List (ℕ × ℕ)) × IsLoaded rows pages fill seats t.1 t.2.items) }
        ensures seats { IfOk result (λ t. AreSeatsOf t.1 t.2.items) }
        ensures any_moment { D.is_modelled device → IfOk result (λ t. LeavesOnly D.moment D.leaves device (file_of t.0) (D.leaves device (D.moment device))) }
        ensures fault { IfErr result (IsOpenLogFault pages fill seats) }
    {
        let mut device = device;
        let rows = match read(alloc, &mut device) {
            Ok(rows) => rows,
            Err(fault) => return Err(OpenLogFault::Log(fault)),
        };
        rows_are_map();
        match Map::load(alloc, rows.as_slice(), pages, fill, seats) {
            Ok((map, seats)) => {
                let journal = Journal::over(device, salt);
                Ok((MapLog { journal }, map, seats))
            }
            Err(why) => Err(OpenLogFault::Map(why)),
        }
    }

    /// Takes all seats out of a vector, and gives a handle of the map for each, in their order, which notes what it changes for this log. The
    /// vector keeps its room, so the seats can be given back: see [`crate::give_seats`].
    pub fn handles<'a>(
        &self,
        alloc: Global,
        map: &'a Map,
        seats: &mut Vec<Seat>,
    ) -> Result<Vec<NotingHandle<'a>>, AllocError>
        requires { AreSeatsOf map.now seats.old.items }
        ensures over { IfOk result (λ handles. AllZip (IsNewNoting map.now) seats.old.items handles.items) }
        ensures of_map { IfOk result (λ handles. All (IsNotingOf map.now) handles.items) }
        ensures log { (m : ℕ → Option ℕ) → KeepsMap D.seen D.moment D.leaves m (journal_of self.now) → AreNewSeats map.now seats.old.items
            → SameMap m (first_map (first_of map.now.index)) → IfOk result (λ handles. HasLog D.seen D.moment D.leaves map.now [] handles.items self.now) }
        ensures taken { OnOk result (seats.new.items ≡ []) }
        ensures room { vec_capacity seats.new ≡ vec_capacity seats.old }
    {
        let mut handles = Vec::with_capacity(alloc, seats.len())?;
        while !seats.is_empty() {
            let seat = seats.remove(0);
            handles.push(NotingHandle::over(alloc, map.handle(seat)))?;
        }
        Ok(handles)
    }

    /// Puts to the log what the handles of all seats have changed, and returns once that is on the disk. It takes the handles between two calls
    /// of each, so threads have to come together for it. Where nothing has changed, nothing is written. At `Err` the log is not gone on with,
    /// and is to be read again.
    pub fn commit<'a>(
        &mut self,
        alloc: Global,
        map: &Map,
        first: &mut NotingHandle<'a>,
        others: &mut [NotingHandle<'a>],
    ) -> Result<(), LogFault>
        requires own { IsNotingOf map.now first.old × All (IsNotingOf map.now) others.old }
        requires log { D.is_modelled (file_of self.old) → (base : _) × HasLog D.seen D.moment D.leaves map.now base (first.old ∷ others.old) self.old }
        ensures modelled { D.is_modelled (file_of self.old) → D.is_modelled (file_of self.new) }
        ensures of_map { IsNotingOf map.now first.new × All (IsNotingOf map.now) others.new }
        ensures idle { AllZip MakesNoCall (first.old ∷ others.old) (first.new ∷ others.new) }
        ensures commits { D.is_modelled (file_of self.old) → (base : _) → HasLog D.seen D.moment D.leaves map.now base (first.old ∷ others.old) self.old
            → Commits D.seen D.moment D.leaves map.now base result (first.old ∷ others.old) (first.new ∷ others.new) self.old self.new }
    {
        histories_lead();
        meet_all(first, others);
        let changes = collected(alloc, first, others)?;
        let (came, went) = (changes.came.as_slice(), changes.went.as_slice());
        self.journal.commit(alloc, came, went)?;
        clear_all(first, others);
        Ok(())
    }

    /// Puts a record without rows to the log, for a clean end: see [`Journal::seal`].
    pub fn seal(&mut self, alloc: Global) -> Result<(), LogFault>
        requires log { D.is_modelled (file_of self.old) → (m : ℕ → Option ℕ) × KeepsMap D.seen D.moment D.leaves m (journal_of self.old) }
        ensures modelled { D.is_modelled (file_of self.old) → D.is_modelled (file_of self.new) }
        ensures kept { D.is_modelled (file_of self.old) → (m : ℕ → Option ℕ) → KeepsMap D.seen D.moment D.leaves m (journal_of self.old)
            → OnOk result (KeepsMap D.seen D.moment D.leaves m (journal_of self.new)) }
        ensures ends { D.is_modelled (file_of self.old) → OnOk result (EndsIn (D.seen (file_of self.new)) (body_words [] [])) }
        ensures any_moment { D.is_modelled (file_of self.old) → (m : ℕ → Option ℕ) → KeepsMap D.seen D.moment D.leaves m (journal_of self.old)
            → LeavesOnly D.moment D.leaves (file_of self.old) (file_of self.new) (λ c. IsLogOf c m) }
    {
        self.journal.seal(alloc)
    }

    /// Its file.
    pub fn into_device(self) -> D
        ensures { result ≡ file_of self }
    {
        self.journal.into_device()
    }
}
