//! A handle that notes what it changes.

ghost use Rattle.std.specs.Prelude.{◌≡◌, ℕ, ◌+◌, ◌-◌, ◌<◌, Ok, IfOk, OnErr, length, vec_len};
ghost use Rattle.std.specs.Vec.{vec_capacity};
ghost use Rattle.bl_model.specs.declared.operation.Op.TheVariants as op;
ghost use Rattle.bl_model.specs.declared.deciding.KeyWrite.TheVariants as key_write;
ghost use Rattle.bl_model.specs.declared.operation.KeyReply.TheVariants as replies;
ghost use Rattle.bl_model.specs.Replies.{reply_of};
ghost use Rattle.bl_model.specs.Writes.{write_op};
ghost use Rattle.bl_proc.specs.declared.parts.Direction.TheVariants as directions;

use crate::notes::note;
use bl_changes::Changes;
use bl_map::{Backlog, Handle, KeyReply, KeyWrite, RangeRefusal, Seat};
use std::alloc::{AllocError, Global};
use std::sync::Wait;

/// One thread's way into a map that has a log. It notes what its calls change, until a commit puts that to the log.
#[derive(Drop)]
pub struct NotingHandle<'a> {
    pub(crate) handle: Handle<'a>,
    pub(crate) changes: Changes,
}

impl<'a> NotingHandle<'a> {
    ghost use Rattle.bl_map.specs.Handles.{HasCalled, HasOnlySearched, HasChanged, HasFoundNoRoom, HasFoundLeast, HasFoundGreatest, HasRanged, HasKeptUp, HasTriedAgain, NoneUnswept, KeepsHints};
    ghost use Rattle.bl_map.specs.Handles.{first_map_of, pages_of_map, number_of_seat, seat_of, seen_by, waiting_of, dropped_of};
    ghost use Rattle.bl_map_calls.specs.Scans.{Scanned};
    ghost use Rattle.bl_index_read.specs.Sinks.{Appends};
    ghost use Rattle.bl_index_read.specs.LeafRows.{IsBelow};
    ghost use Rattle.bl_map_log.specs.Notes.{handle_of, came_noted, went_noted, KeepsNotes, NotesReply, NotesNone, IsCleared};

    /// A handle that has noted nothing.
    pub(crate) fn over(alloc: Global, handle: Handle<'a>) -> NotingHandle<'a>
        ensures handle { handle_of result ≡ handle.entry }
        ensures cleared { IsCleared result }
    {
        NotingHandle {
            handle,
            changes: Changes::new(alloc),
        }
    }

    /// Does one write of a key, and notes what it changes: see [`Handle::write`]. Where there is no memory for the note, nothing is done.
    pub fn write<R: Wait>(
        &mut self,
        rt: &R,
        key: u64,
        does: KeyWrite,
    ) -> Result<KeyReply, AllocError>
        ensures called { IfOk result (λ reply. HasCalled (write_op key does) (reply_of reply) (handle_of self.old) (handle_of self.new)) }
        ensures changed { IfOk result (λ reply. HasChanged (write_op key does) (reply_of reply) (handle_of self.old) (handle_of self.new)) }
        ensures no_room { IfOk result (λ reply. reply ≡ replies.NoRoom → HasFoundNoRoom key does (handle_of self.old) (handle_of self.new)) }
        ensures noted { IfOk result (λ reply. NotesReply (write_op key does) (reply_of reply) self.old self.new) }
        ensures keeps { KeepsNotes self.old self.new }
        ensures err { OnErr result ((handle_of self.new ≡ handle_of self.old) × NotesNone self.old self.new) }
    {
        self.changes.came.reserve(1)?;
        self.changes.went.reserve(1)?;
        let reply = self.handle.write(rt, key, does);
        note(&mut self.changes, key, does, reply);
        Ok(reply)
    }

    /// Inserts the value if the key is absent: `Inserted`, or `Present` with the value that stays, or `NoRoom`.
    pub fn insert<R: Wait>(&mut self, rt: &R, key: u64, value: u64) -> Result<KeyReply, AllocError>
        ensures called { IfOk result (λ reply. HasCalled (op.Insert key value) (reply_of reply) (handle_of self.old) (handle_of self.new)) }
        ensures changed { IfOk result (λ reply. HasChanged (op.Insert key value) (reply_of reply) (handle_of self.old) (handle_of self.new)) }
        ensures no_room { IfOk result (λ reply. reply ≡ replies.NoRoom → HasFoundNoRoom key (key_write.Insert value) (handle_of self.old) (handle_of self.new)) }
        ensures noted { IfOk result (λ reply. NotesReply (op.Insert key value) (reply_of reply) self.old self.new) }
        ensures keeps { KeepsNotes self.old self.new }
        ensures err { OnErr result ((handle_of self.new ≡ handle_of self.old) × NotesNone self.old self.new) }
    {
        self.write(rt, key, KeyWrite::Insert(value))
    }

    /// Puts the value at the key, in place of what is there: `Inserted`, or `Replaced` with the value that the key had, or `NoRoom`.
    pub fn put<R: Wait>(&mut self, rt: &R, key: u64, value: u64) -> Result<KeyReply, AllocError>
        ensures called { IfOk result (λ reply. HasCalled (op.Put key value) (reply_of reply) (handle_of self.old) (handle_of self.new)) }
        ensures changed { IfOk result (λ reply. HasChanged (op.Put key value) (reply_of reply) (handle_of self.old) (handle_of self.new)) }
        ensures no_room { IfOk result (λ reply. reply ≡ replies.NoRoom → HasFoundNoRoom key (key_write.Put value) (handle_of self.old) (handle_of self.new)) }
        ensures noted { IfOk result (λ reply. NotesReply (op.Put key value) (reply_of reply) self.old self.new) }
        ensures keeps { KeepsNotes self.old self.new }
        ensures err { OnErr result ((handle_of self.new ≡ handle_of self.old) × NotesNone self.old self.new) }
    {
        self.write(rt, key, KeyWrite::Put(value))
    }

    /// Takes a key away: `Deleted` with its value, or `Absent`, or `NoRoom`.
    pub fn delete<R: Wait>(&mut self, rt: &R, key: u64) -> Result<KeyReply, AllocError>
        ensures called { IfOk result (λ reply. HasCalled (op.Delete key) (reply_of reply) (handle_of self.old) (handle_of self.new)) }
        ensures changed { IfOk result (λ reply. HasChanged (op.Delete key) (reply_of reply) (handle_of self.old) (handle_of self.new)) }
        ensures no_room { IfOk result (λ reply. reply ≡ replies.NoRoom → HasFoundNoRoom key key_write.Delete (handle_of self.old) (handle_of self.new)) }
        ensures noted { IfOk result (λ reply. NotesReply (op.Delete key) (reply_of reply) self.old self.new) }
        ensures keeps { KeepsNotes self.old self.new }
        ensures err { OnErr result ((handle_of self.new ≡ handle_of self.old) × NotesNone self.old self.new) }
    {
        self.write(rt, key, KeyWrite::Delete)
    }

    /// Puts the new value at a key that has the old one: `Changed`, or `Differs` with the value that stays, or `Absent`, or `NoRoom`.
    pub fn change<R: Wait>(
        &mut self,
        rt: &R,
        key: u64,
        old: u64,
        new: u64,
    ) -> Result<KeyReply, AllocError>
        ensures called { IfOk result (λ reply. HasCalled (op.Change key old new) (reply_of reply) (handle_of self.old) (handle_of self.new)) }
        ensures changed { IfOk result (λ reply. HasChanged (op.Change key old new) (reply_of reply) (handle_of self.old) (handle_of self.new)) }
        ensures no_room { IfOk result (λ reply. reply ≡ replies.NoRoom → HasFoundNoRoom key (key_write.Change old new) (handle_of self.old) (handle_of self.new)) }
        ensures noted { IfOk result (λ reply. NotesReply (op.Change key old new) (reply_of reply) self.old self.new) }
        ensures keeps { KeepsNotes self.old self.new }
        ensures err { OnErr result ((handle_of self.new ≡ handle_of self.old) × NotesNone self.old self.new) }
    {
        self.write(rt, key, KeyWrite::Change(old, new))
    }

    /// The value of a key: `Found`, or `Absent`.
    pub fn find<R: Wait>(&mut self, rt: &R, key: u64) -> KeyReply
        ensures called { HasCalled (op.Find key) (reply_of result) (handle_of self.old) (handle_of self.new) }
        ensures searched { HasOnlySearched (op.Find key) (reply_of result) (handle_of self.old) (handle_of self.new) }
        ensures keeps { KeepsNotes self.old self.new }
        ensures none { NotesNone self.old self.new }
        ensures hints { KeepsHints (handle_of self.old) (handle_of self.new) }
    {
        self.handle.find(rt, key)
    }

    /// Appends the rows from a key on and below an end, if there is one, by rising keys: see [`Handle::scan`].
    pub fn scan<R: Wait>(
        &mut self,
        rt: &R,
        from: u64,
        to: Option<u64>,
        rows: &mut Vec<(u64, u64)>,
    ) -> Result<(), AllocError>
        ensures scanned { Scanned Appends (λ many. vec_capacity rows.new - vec_len rows.new < many) (first_map_of (handle_of self.old)) (pages_of_map (handle_of self.old))
            (number_of_seat (handle_of self.old)) directions.Up from to result rows.old.items rows.new.items (seen_by (handle_of self.old)) (seen_by (handle_of self.new)) }
        ensures keeps { KeepsNotes self.old self.new }
        ensures none { NotesNone self.old self.new }
        ensures hints { KeepsHints (handle_of self.old) (handle_of self.new) }
    {
        self.handle.scan(rt, from, to, rows)
    }

    /// Appends the rows from a key on and below an end, if there is one, by rising keys, all of them as the map had them at one moment: see
    /// [`Handle::range`].
    pub fn range<R: Wait>(
        &mut self,
        rt: &R,
        from: u64,
        to: Option<u64>,
        rounds: u32,
        rows: &mut Vec<(u64, u64)>,
    ) -> Result<u32, RangeRefusal>
        ensures ranged { IsBelow to from → HasRanged from to rounds result rows.old.items rows.new.items (handle_of self.old) (handle_of self.new) }
        ensures empty { ¬ IsBelow to from → (result ≡ Ok 0) × (rows.new.items ≡ rows.old.items) × (seen_by (handle_of self.new) ≡ seen_by (handle_of self.old)) }
        ensures keeps { KeepsNotes self.old self.new }
        ensures none { NotesNone self.old self.new }
        ensures hints { KeepsHints (handle_of self.old) (handle_of self.new) }
    {
        self.handle.range(rt, from, to, rounds, rows)
    }

    /// The row of the least key that is not below this one, if there is one: see [`Handle::first_from`].
    pub fn first_from<R: Wait>(&mut self, rt: &R, key: u64) -> Option<(u64, u64)>
        ensures found { HasFoundLeast key result (handle_of self.old) (handle_of self.new) }
        ensures keeps { KeepsNotes self.old self.new }
        ensures none { NotesNone self.old self.new }
        ensures hints { KeepsHints (handle_of self.old) (handle_of self.new) }
    {
        self.handle.first_from(rt, key)
    }

    /// The row of the greatest key that is not above this one, if there is one: see [`Handle::last_to`].
    pub fn last_to<R: Wait>(&mut self, rt: &R, key: u64) -> Option<(u64, u64)>
        ensures found { HasFoundGreatest key result (handle_of self.old) (handle_of self.new) }
        ensures keeps { KeepsNotes self.old self.new }
        ensures none { NotesNone self.old self.new }
        ensures hints { KeepsHints (handle_of self.old) (handle_of self.new) }
    {
        self.handle.last_to(rt, key)
    }

    /// Gives idle time to the map: see [`Handle::upkeep`].
    pub fn upkeep<R: Wait>(&mut self, rt: &R, most: u32) -> Backlog
        ensures kept { HasKeptUp (handle_of self.old) (handle_of self.new) }
        ensures tried { HasTriedAgain most (handle_of self.old) (handle_of self.new) }
        ensures swept { NoneUnswept (handle_of self.new) }
        ensures waits { (result.waiting ≡ waiting_of (handle_of self.new)) × (result.dropped ≡ dropped_of (handle_of self.new)) }
        ensures keeps { KeepsNotes self.old self.new }
        ensures none { NotesNone self.old self.new }
    {
        self.handle.upkeep(rt, most)
    }

    /// Whether fewer than a sixteenth of the pages are free, about: see [`Handle::is_short`].
    pub fn is_short(&self) -> bool {
        self.handle.is_short()
    }

    /// How many rows it has noted: those that came, and those that went. Each takes 16 bytes of memory until a commit, and of the log then.
    pub fn noted(&self) -> usize
        ensures { result ≡ length (came_noted self.now) + length (went_noted self.now) }
    {
        self.changes.came.len() + self.changes.went.len()
    }

    /// The seat that it worked from. What it has noted is given up, so it is for after a commit.
    pub fn into_seat(self) -> Seat
        ensures { result ≡ seat_of (handle_of self.entry) }
    {
        let NotingHandle { handle, .. } = self;
        handle.into_seat()
    }
}
