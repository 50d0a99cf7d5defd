//! What a thread works with.

ghost use Rattle.std.specs.Prelude.{◌≡◌, ℕ, ◌<◌, ◌≤◌, ◌+◌, ◌-◌, ◌^◌, None, Ok, length, take, vec_len};
ghost use Rattle.std.specs.List.{FoldsTo};
ghost use Rattle.std.specs.Vec.{vec_capacity};
ghost use Rattle.bl_model.specs.declared.operation.Op.TheVariants as op;
ghost use Rattle.bl_model.specs.declared.deciding.KeyWrite.TheVariants as key_write;
ghost use Rattle.bl_model.specs.declared.operation.KeyReply.TheVariants as replies;
ghost use Rattle.bl_model.specs.Replies.{reply_of};
ghost use Rattle.bl_model.specs.Writes.{write_op};
ghost use Rattle.bl_proc.specs.declared.parts.Direction.TheVariants as directions;
ghost use Rattle.bl_index.specs.Calls.{IsPassOf, Sweeps};
ghost use Rattle.bl_map_calls.specs.Seats.{IsPassOf-prop};
ghost use Rattle.bl_map_calls.specs.declared.updating.Updated.TheVariants as updated;

use bl_check::Quiet;
use bl_index::{Direction, Hint, Index, KeyReply, KeyWrite, Pass, Reply, RoomSeen};
use bl_load::LoadFault;
use bl_map_calls::many::{Deletions, Insertions, Puts};
use bl_map_calls::ranging::{self, RangeRefusal};
use bl_map_calls::updating::{self, Updated};
use bl_map_calls::upkeep::{self, Followed};
use bl_map_calls::{calls, copying, counting, least, limiting, many, room, telling, writes};
use bl_waiting::Waiting;
use std::alloc::{AllocError, Global};
use std::sync::Wait;

/// Upkeep that is not done.
#[derive(Clone, Copy, Debug, PartialEq, Eq)]
pub struct Backlog {
    /// So many pieces wait for room, 32 at most.
    pub waiting: u32,
    /// So many were dropped, since 32 waited.
    pub dropped: u64,
}

/// One thread's way into a map.
#[derive(Drop)]
pub struct Handle<'a> {
    pub(crate) index: &'a Index,
    pub(crate) pass: Pass,
    waiting: Waiting,
    ghost own: { IsPassOf index.now pass } by { IsPassOf-prop index.now pass },
}

impl<'a> Handle<'a> {
    ghost use Rattle.bl_map.specs.Handles.{IsSameHandle, HasCalled, HasOnlySearched, HasFoundMany, HasChanged, HasWritten, HasFoundNoRoom, HasFoundLeast, HasFoundGreatest, HasCounted, HasRanged, HasCountedRange, HasKeptUp, HasFollowed, HasSwept, HasTriedAgain, HasTidied};
    ghost use Rattle.bl_map.specs.Handles.{HasWrittenMany, HasStoppedFull};
    ghost use Rattle.bl_map_calls.specs.Many.{insertion_of, put_of, deletion_of, HadRoomBefore};
    ghost use Rattle.bl_map.specs.Handles.{HasUpdated, HasCopied};
    ghost use Rattle.bl_map.specs.Handles.{HaveMet, KeepsHints, AreOfOne, IsHandleOver, released_in, NoneUnswept, HasSweptAgain};
    ghost use Rattle.bl_map.specs.Handles.{first_map_of, pages_of_map, frames_of_map, number_of_seat, seat_of, seen_by, waiting_of, dropped_of};
    ghost use Rattle.bl_map_calls.specs.Scans.{key_below, Scanned};
    ghost use Rattle.bl_map_calls.specs.Limits.{ScannedAtMost};
    ghost use Rattle.bl_index_read.specs.Sinks.{Appends};
    ghost use Rattle.bl_index_read.specs.LeafRows.{IsBelow};

    /// The handle that works on an index from a seat of it. For a map see [`crate::Map::handle`].
    pub fn over(index: &'a Index, seat: Pass) -> Handle<'a>
        requires { IsPassOf index.now seat }
        ensures { IsHandleOver index.now seat result }
    {
        Handle {
            index,
            pass: seat,
            waiting: Waiting::new(),
        }
    }

    /// The value of a key: `Found`, or `Absent`.
    pub fn find<R: Wait>(&mut self, rt: &R, key: u64) -> KeyReply
        ensures same { IsSameHandle self.old self.new }
        ensures called { HasCalled (op.Find key) (reply_of result) self.old self.new }
        ensures searched { HasOnlySearched (op.Find key) (reply_of result) self.old self.new }
        ensures keeps { KeepsHints self.old self.new }
    {
        calls::find(rt, self.index, &mut self.pass, key, None)
    }

    /// Fetches from memory, side by side, the pages that calls about these keys will read, 8 keys at most, so that they are near when the
    /// calls come: searches, changes and scans alike. It changes nothing and tells nothing.
    pub fn fetch(&self, keys: &[u64]) {
        let _pages = self.index.fetch(keys);
    }

    /// The values of keys, one after another: each reply is `Found`, or `Absent`. The pages of some keys at a time are fetched from memory
    /// side by side, so in a large map this takes less time than a call for each key.
    pub fn find_many<R: Wait>(&mut self, rt: &R, keys: &[u64], replies: &mut [KeyReply])
        requires { length replies.old ≡ length keys.now }
        ensures same { IsSameHandle self.old self.new }
        ensures found { HasFoundMany keys.now replies.new self.old self.new }
        ensures keeps { KeepsHints self.old self.new }
    {
        calls::find_many(rt, self.index, &mut self.pass, keys, replies);
    }

    /// The rows of one leaf from a key on, in a `Rows` that says where it ends. It looks first at the page that is near, if there is
    /// one, and leaves there the page to which the leaf links.
    pub fn part<R: Wait>(&mut self, rt: &R, from: u64, near: &mut Option<u32>) -> Reply
        ensures same { IsSameHandle self.old self.new }
        ensures called { HasCalled (op.Part from) result self.old self.new }
        ensures searched { HasOnlySearched (op.Part from) result self.old self.new }
        ensures keeps { KeepsHints self.old self.new }
    {
        calls::part(rt, self.index, &mut self.pass, Direction::Up, from, near)
    }

    /// The rows of one leaf from a key on downwards, in falling order, in a `Rows` that says where it ends.
    pub fn part_down<R: Wait>(&mut self, rt: &R, from: u64) -> Reply
        ensures same { IsSameHandle self.old self.new }
        ensures called { HasCalled (op.PartDown from) result self.old self.new }
        ensures searched { HasOnlySearched (op.PartDown from) result self.old self.new }
        ensures keeps { KeepsHints self.old self.new }
    {
        let index = self.index;
        calls::part(rt, index, &mut self.pass, Direction::Down, from, &mut None)
    }

    /// Writes a key: what each of the calls below does.
    pub fn write<R: Wait>(&mut self, rt: &R, key: u64, write: KeyWrite) -> KeyReply
        ensures same { IsSameHandle self.old self.new }
        ensures called { HasCalled (write_op key write) (reply_of result) self.old self.new }
        ensures changed { HasChanged (write_op key write) (reply_of result) self.old self.new }
        ensures no_room { result ≡ replies.NoRoom → HasFoundNoRoom key write self.old self.new }
    {
        let index = self.index;
        writes::write(rt, index, &mut self.pass, &mut self.waiting, key, write)
    }

    /// Writes a key, and lists the pages that it has split, but merges none and gives nothing back. What is left to do then comes with
    /// the reply and does not wait here: whoever shares upkeep out hands it on, to [`Handle::follow`] in the end.
    pub fn write_leaving<R: Wait>(
        &mut self,
        rt: &R,
        key: u64,
        write: KeyWrite,
    ) -> (KeyReply, Option<Hint>)
        ensures same { IsSameHandle self.old self.new }
        ensures called { HasCalled (write_op key write) (reply_of result.0) self.old self.new }
        ensures written { HasWritten (write_op key write) (reply_of result.0) result.1 self.old self.new }
        ensures no_room { result.0 ≡ replies.NoRoom → HasFoundNoRoom key write self.old self.new }
        ensures keeps { KeepsHints self.old self.new }
    {
        writes::write_leaving(rt, self.index, &mut self.pass, key, write)
    }

    /// Inserts the value if the key is absent: `Inserted`, or `Present` with the value that stays, or `NoRoom`.
    pub fn insert<R: Wait>(&mut self, rt: &R, key: u64, value: u64) -> KeyReply
        ensures same { IsSameHandle self.old self.new }
        ensures called { HasCalled (op.Insert key value) (reply_of result) self.old self.new }
        ensures changed { HasChanged (op.Insert key value) (reply_of result) self.old self.new }
        ensures no_room { result ≡ replies.NoRoom → HasFoundNoRoom key (key_write.Insert value) self.old self.new }
    {
        self.write(rt, key, KeyWrite::Insert(value))
    }

    /// Puts the value at the key, in place of what is there: `Inserted`, or `Replaced` with the value that the key had, or `NoRoom`.
    pub fn put<R: Wait>(&mut self, rt: &R, key: u64, value: u64) -> KeyReply
        ensures same { IsSameHandle self.old self.new }
        ensures called { HasCalled (op.Put key value) (reply_of result) self.old self.new }
        ensures changed { HasChanged (op.Put key value) (reply_of result) self.old self.new }
        ensures no_room { result ≡ replies.NoRoom → HasFoundNoRoom key (key_write.Put value) self.old self.new }
    {
        self.write(rt, key, KeyWrite::Put(value))
    }

    /// Takes a key away: `Deleted` with its value, or `Absent`, or `NoRoom`.
    pub fn delete<R: Wait>(&mut self, rt: &R, key: u64) -> KeyReply
        ensures same { IsSameHandle self.old self.new }
        ensures called { HasCalled (op.Delete key) (reply_of result) self.old self.new }
        ensures changed { HasChanged (op.Delete key) (reply_of result) self.old self.new }
        ensures no_room { result ≡ replies.NoRoom → HasFoundNoRoom key key_write.Delete self.old self.new }
    {
        self.write(rt, key, KeyWrite::Delete)
    }

    /// Puts the new value at a key that has the old one: `Changed`, or `Differs` with the value that stays, or `Absent`, or `NoRoom`.
    pub fn change<R: Wait>(&mut self, rt: &R, key: u64, old: u64, new: u64) -> KeyReply
        ensures same { IsSameHandle self.old self.new }
        ensures called { HasCalled (op.Change key old new) (reply_of result) self.old self.new }
        ensures changed { HasChanged (op.Change key old new) (reply_of result) self.old self.new }
        ensures no_room { result ≡ replies.NoRoom → HasFoundNoRoom key (key_write.Change old new) self.old self.new }
    {
        self.write(rt, key, KeyWrite::Change(old, new))
    }

    /// Puts in place of a key's value what a function gives for it: finds the value, and changes it as [`Handle::change`] does; where another
    /// value is there by then, the function is called again, with that. So the row that is changed had the value for which the function
    /// gave the new one. It should not wait for other threads: each change of the key by another one meanwhile calls it once more.
    pub fn update<R: Wait, F: FnMut(u64) -> u64>(
        &mut self,
        rt: &R,
        key: u64,
        give: &mut F,
    ) -> Updated
        requires { F.IsAlwaysCallable give.old }
        ensures same { IsSameHandle self.old self.new }
        ensures updated { HasUpdated (λ f v w g. F.step f v w g) key result give.old give.new self.old self.new }
        ensures no_room { result ≡ updated.NoRoom → (value : ℕ) × (next : ℕ) × HasFoundNoRoom key (key_write.Change value next) self.old self.new }
    {
        let index = self.index;
        updating::update(rt, index, &mut self.pass, &mut self.waiting, key, give)
    }

    /// Inserts rows one after another, each as [`Handle::insert`] does, up to the first that finds no room. The pages of some rows at a time
    /// are fetched from memory side by side. Says how many were answered: their replies stand first, and where not all rows were, the last of
    /// them is `NoRoom`.
    pub fn insert_many<R: Wait>(
        &mut self,
        rt: &R,
        rows: &[(u64, u64)],
        replies: &mut [KeyReply],
    ) -> usize
        requires { length replies.old ≡ length rows.now }
        ensures same { IsSameHandle self.old self.new }
        ensures most { result ≤ length rows.now }
        ensures written { HasWrittenMany insertion_of (take result rows.now) (take result replies.new) self.old self.new }
        ensures first { HadRoomBefore result replies.new }
        ensures stops { result < length rows.now → HasStoppedFull insertion_of rows.now replies.new result self.old self.new }
    {
        let index = self.index;
        many::write::<_, _, Insertions>(rt, index, &mut self.pass, &mut self.waiting, rows, replies)
    }

    /// Puts rows one after another, each as [`Handle::put`] does: see [`Handle::insert_many`].
    pub fn put_many<R: Wait>(
        &mut self,
        rt: &R,
        rows: &[(u64, u64)],
        replies: &mut [KeyReply],
    ) -> usize
        requires { length replies.old ≡ length rows.now }
        ensures same { IsSameHandle self.old self.new }
        ensures most { result ≤ length rows.now }
        ensures written { HasWrittenMany put_of (take result rows.now) (take result replies.new) self.old self.new }
        ensures first { HadRoomBefore result replies.new }
        ensures stops { result < length rows.now → HasStoppedFull put_of rows.now replies.new result self.old self.new }
    {
        let index = self.index;
        many::write::<_, _, Puts>(rt, index, &mut self.pass, &mut self.waiting, rows, replies)
    }

    /// Takes keys away one after another, each as [`Handle::delete`] does: see [`Handle::insert_many`].
    pub fn delete_many<R: Wait>(&mut self, rt: &R, keys: &[u64], replies: &mut [KeyReply]) -> usize
        requires { length replies.old ≡ length keys.now }
        ensures same { IsSameHandle self.old self.new }
        ensures most { result ≤ length keys.now }
        ensures written { HasWrittenMany deletion_of (take result keys.now) (take result replies.new) self.old self.new }
        ensures first { HadRoomBefore result replies.new }
        ensures stops { result < length keys.now → HasStoppedFull deletion_of keys.now replies.new result self.old self.new }
    {
        let index = self.index;
        many::write::<_, _, Deletions>(rt, index, &mut self.pass, &mut self.waiting, keys, replies)
    }

    /// Appends the rows from a key on and below an end, if there is one, by rising keys. It is no snapshot: each key is answered as the
    /// map stood at some moment of the scan. Where memory is refused, the rows so far stay, and none before their end is left out.
    pub fn scan<R: Wait>(
        &mut self,
        rt: &R,
        from: u64,
        to: Option<u64>,
        rows: &mut Vec<(u64, u64)>,
    ) -> Result<(), AllocError>
        ensures same { IsSameHandle self.old self.new }
        ensures scanned { Scanned Appends (λ many. vec_capacity rows.new - vec_len rows.new < many) (first_map_of self.old) (pages_of_map self.old)
            (number_of_seat self.old) directions.Up from to result rows.old.items rows.new.items (seen_by self.old) (seen_by self.new) }
        ensures keeps { KeepsHints self.old self.new }
    {
        let index = self.index;
        calls::scan(rt, index, &mut self.pass, Direction::Up, from, to, rows)
    }

    /// Appends the first of the rows that [`Handle::scan`] lists, so many at most, and says with which key a scan for the next ones begins:
    /// that of the first row which it met and left, or the key to which it has come. `None` says that nothing is left, and where there are
    /// fewer rows it is always said. Of no rows it looks for none, and says the first key, or `None` where that is not below the end. It
    /// reads no leaf that is not wanted for its rows. Where memory is refused, the rows so far stay, and none before their end is left out.
    pub fn scan_at_most<R: Wait>(
        &mut self,
        rt: &R,
        from: u64,
        to: Option<u64>,
        most: usize,
        rows: &mut Vec<(u64, u64)>,
    ) -> Result<Option<u64>, AllocError>
        ensures same { IsSameHandle self.old self.new }
        ensures scanned { ScannedAtMost (first_map_of self.old) (pages_of_map self.old) (number_of_seat self.old) from to most
            (vec_capacity rows.new - vec_len rows.new) result rows.old.items rows.new.items (seen_by self.old) (seen_by self.new) }
        ensures keeps { KeepsHints self.old self.new }
    {
        limiting::scan_at_most(rt, self.index, &mut self.pass, from, to, most, rows)
    }

    /// Tells a callback the rows from a key on and below an end, if there is one, by rising keys: the rows of [`Handle::scan`], each
    /// once, and without a vector that holds them all. It should not wait: while it is told the rows of a leaf, nothing is given back
    /// that was swapped out since the leaf was read.
    pub fn scan_with<R: Wait, F: FnMut((u64, u64))>(
        &mut self,
        rt: &R,
        from: u64,
        to: Option<u64>,
        visit: &mut F,
    )
        requires { F.IsAlwaysCallable visit.old }
        ensures same { IsSameHandle self.old self.new }
        ensures tells { Scanned (FoldsTo (λ p x q. F.step p x tt q)) (λ many. ⊥) (first_map_of self.old) (pages_of_map self.old)
            (number_of_seat self.old) directions.Up from to (Ok tt) visit.old visit.new (seen_by self.old) (seen_by self.new) }
        ensures keeps { KeepsHints self.old self.new }
    {
        let index = self.index;
        telling::tell(rt, index, &mut self.pass, Direction::Up, from, to, visit);
    }

    /// The row of the least key, if there is one. No key below it was in the map all the while: each was absent at some moment of the call. It
    /// goes along the leaves until one has a row, so it takes longer where many at the front are empty.
    pub fn first<R: Wait>(&mut self, rt: &R) -> Option<(u64, u64)>
        ensures same { IsSameHandle self.old self.new }
        ensures found { HasFoundLeast 0 result self.old self.new }
        ensures keeps { KeepsHints self.old self.new }
    {
        self.first_from(rt, 0)
    }

    /// The row of the least key that is not below this one, if there is one: see [`Handle::first`].
    pub fn first_from<R: Wait>(&mut self, rt: &R, key: u64) -> Option<(u64, u64)>
        ensures same { IsSameHandle self.old self.new }
        ensures found { HasFoundLeast key result self.old self.new }
        ensures keeps { KeepsHints self.old self.new }
    {
        least::first_toward(rt, self.index, &mut self.pass, Direction::Up, key)
    }

    /// The row of the least key above this one, if there is one: see [`Handle::first`]. Above the greatest number there is none, and nothing is
    /// looked for.
    pub fn next<R: Wait>(&mut self, rt: &R, key: u64) -> Option<(u64, u64)>
        ensures same { IsSameHandle self.old self.new }
        ensures found { key + 1 < 2 ^ 64 → HasFoundLeast (key + 1) result self.old self.new }
        ensures none { key + 1 ≡ 2 ^ 64 → (result ≡ None) × (seen_by self.new ≡ seen_by self.old) }
        ensures keeps { KeepsHints self.old self.new }
    {
        match key.checked_add(1) {
            Some(from) => self.first_from(rt, from),
            None => None,
        }
    }

    /// Appends the rows from a key on downwards to another one, both included, by falling keys. It is no snapshot: each key is answered as the
    /// map stood at some moment of the scan. Where memory is refused, the rows so far stay, and none above their end is left out. Where the
    /// first key is below the last one, nothing is looked for.
    pub fn scan_down<R: Wait>(
        &mut self,
        rt: &R,
        from: u64,
        low: u64,
        rows: &mut Vec<(u64, u64)>,
    ) -> Result<(), AllocError>
        ensures same { IsSameHandle self.old self.new }
        ensures scanned { Scanned Appends (λ many. vec_capacity rows.new - vec_len rows.new < many) (first_map_of self.old) (pages_of_map self.old)
            (number_of_seat self.old) directions.Down from (key_below low) result rows.old.items rows.new.items (seen_by self.old) (seen_by self.new) }
        ensures none { from < low → (result ≡ Ok tt) × (rows.new.items ≡ rows.old.items) × (seen_by self.new ≡ seen_by self.old) }
        ensures keeps { KeepsHints self.old self.new }
    {
        if from < low {
            return Ok(());
        }
        let index = self.index;
        let to = calls::end_below(low);
        calls::scan(rt, index, &mut self.pass, Direction::Down, from, to, rows)
    }

    /// Tells a callback the rows from a key on downwards to another one, both included, by falling keys: the rows of [`Handle::scan_down`],
    /// each once, and without a vector that holds them all. Where the first key is below the last one, nothing is looked for.
    pub fn scan_down_with<R: Wait, F: FnMut((u64, u64))>(
        &mut self,
        rt: &R,
        from: u64,
        low: u64,
        visit: &mut F,
    )
        requires { F.IsAlwaysCallable visit.old }
        ensures same { IsSameHandle self.old self.new }
        ensures tells { Scanned (FoldsTo (λ p x q. F.step p x tt q)) (λ many. ⊥) (first_map_of self.old) (pages_of_map self.old)
            (number_of_seat self.old) directions.Down from (key_below low) (Ok tt) visit.old visit.new (seen_by self.old) (seen_by self.new) }
        ensures none { from < low → (visit.new ≡ visit.old) × (seen_by self.new ≡ seen_by self.old) }
        ensures keeps { KeepsHints self.old self.new }
    {
        if low > from {
            return;
        }
        let index = self.index;
        let to = calls::end_below(low);
        telling::tell(rt, index, &mut self.pass, Direction::Down, from, to, visit);
    }

    /// The row of the greatest key, if there is one. No key above it was in the map all the while: each was absent at some moment of the call.
    pub fn last<R: Wait>(&mut self, rt: &R) -> Option<(u64, u64)>
        ensures same { IsSameHandle self.old self.new }
        ensures found { HasFoundGreatest (2 ^ 64 - 1) result self.old self.new }
        ensures keeps { KeepsHints self.old self.new }
    {
        self.last_to(rt, u64::MAX)
    }

    /// The row of the greatest key that is not above this one, if there is one: see [`Handle::last`].
    pub fn last_to<R: Wait>(&mut self, rt: &R, key: u64) -> Option<(u64, u64)>
        ensures same { IsSameHandle self.old self.new }
        ensures found { HasFoundGreatest key result self.old self.new }
        ensures keeps { KeepsHints self.old self.new }
    {
        least::first_toward(rt, self.index, &mut self.pass, Direction::Down, key)
    }

    /// The row of the greatest key below this one, if there is one: see [`Handle::last`]. Below 0 there is none, and nothing is looked for.
    pub fn previous<R: Wait>(&mut self, rt: &R, key: u64) -> Option<(u64, u64)>
        ensures same { IsSameHandle self.old self.new }
        ensures found { 0 < key → HasFoundGreatest (key - 1) result self.old self.new }
        ensures none { key ≡ 0 → (result ≡ None) × (seen_by self.new ≡ seen_by self.old) }
        ensures keeps { KeepsHints self.old self.new }
    {
        match key.checked_sub(1) {
            Some(from) => self.last_to(rt, from),
            None => None,
        }
    }

    /// How many rows there are from a key on and below an end, if there is one: as many as [`Handle::scan`] lists, and no snapshot either.
    pub fn count<R: Wait>(&mut self, rt: &R, from: u64, to: Option<u64>) -> u64
        ensures same { IsSameHandle self.old self.new }
        ensures counted { HasCounted from to result self.old self.new }
        ensures keeps { KeepsHints self.old self.new }
    {
        counting::count(rt, self.index, &mut self.pass, from, to)
    }

    /// Appends the rows from a key on and below an end, if there is one, by rising keys: all of them as the map had them at one moment of the
    /// call. Where others have changed a leaf since it was read, it begins again from there, so many times at most, and says how often it did.
    /// Where it is refused, the rows stay as they were. Until it ends nothing is given back that was swapped out since it began, so it is for
    /// ranges of some hundred leaves, and [`Handle::scan`] for longer ones.
    pub fn range<R: Wait>(
        &mut self,
        rt: &R,
        from: u64,
        to: Option<u64>,
        rounds: u32,
        rows: &mut Vec<(u64, u64)>,
    ) -> Result<u32, RangeRefusal>
        ensures same { IsSameHandle self.old self.new }
        ensures ranged { IsBelow to from → HasRanged from to rounds result rows.old.items rows.new.items self.old self.new }
        ensures none { ¬ IsBelow to from → (result ≡ Ok 0) × (rows.new.items ≡ rows.old.items) × (seen_by self.new ≡ seen_by self.old) }
        ensures keeps { KeepsHints self.old self.new }
    {
        ranging::range(rt, self.index, &mut self.pass, from, to, rounds, rows)
    }

    /// How many rows [`Handle::range`] would list. It takes memory for them.
    pub fn count_range<R: Wait>(
        &mut self,
        rt: &R,
        alloc: Global,
        from: u64,
        to: Option<u64>,
        rounds: u32,
    ) -> Result<u64, RangeRefusal>
        ensures same { IsSameHandle self.old self.new }
        ensures counted { IsBelow to from → HasCountedRange from to rounds result self.old self.new }
        ensures none { ¬ IsBelow to from → (result ≡ Ok 0) × (seen_by self.new ≡ seen_by self.old) }
        ensures keeps { KeepsHints self.old self.new }
    {
        ranging::count(rt, alloc, self.index, &mut self.pass, from, to, rounds)
    }

    /// A copy of the map while other threads go on: a sound image with as many pages, whose leaves have `fill` rows each, 1 to 14. Its rows are
    /// those of [`Handle::scan`], and no snapshot either: each key is answered as the map stood at some moment of the call. It takes memory for
    /// the rows and for the image. `Room` says that the rows need more pages at this fill, which 14 makes least, and `Memory` that memory was
    /// refused, for the rows or for an image that the map has room for: no clause says that it was, see [`LoadFault`].
    pub fn copy<R: Wait>(&mut self, rt: &R, alloc: Global, fill: u32) -> Result<Quiet, LoadFault>
        ensures same { IsSameHandle self.old self.new }
        ensures copied { HasCopied fill result self.old self.new }
        ensures keeps { KeepsHints self.old self.new }
    {
        copying::copy(rt, alloc, self.index, &mut self.pass, fill)
    }

    /// Gives idle time to the map: tries again at most so many pieces of upkeep that had found no room, and gives back what was
    /// swapped out. Says how many pieces wait still, and how many were dropped, since as many waited as can.
    pub fn upkeep<R: Wait>(&mut self, rt: &R, most: u32) -> Backlog
        ensures same { IsSameHandle self.old self.new }
        ensures kept { HasKeptUp self.old self.new }
        ensures tried { HasTriedAgain most self.old self.new }
        ensures swept { NoneUnswept self.new }
        ensures waits { (result.waiting ≡ waiting_of self.new) × (result.dropped ≡ dropped_of self.new) }
    {
        writes::try_again(rt, self.index, &mut self.pass, &mut self.waiting, most);
        self.backlog()
    }

    /// Puts the map in order: tries all pieces again that had found no room, looks at all pages, merges those that are half full at most
    /// with their neighbours or evens them out, level by level, takes top levels away that are not needed, and gives back what was swapped
    /// out. It takes time with each page of the map, so it is for when rows have gone and nobody hurries. Where others change the map
    /// meanwhile it does what it comes to. Says what waits still, as [`Handle::upkeep`] does.
    pub fn tidy<R: Wait>(&mut self, rt: &R) -> Backlog
        ensures same { IsSameHandle self.old self.new }
        ensures kept { HasKeptUp self.old self.new }
        ensures tidied { HasTidied self.old self.new }
        ensures waits { (result.waiting ≡ waiting_of self.new) × (result.dropped ≡ dropped_of self.new) }
    {
        room::tidy(rt, self.index, &mut self.pass, &mut self.waiting);
        self.backlog()
    }

    /// How many pages of the map are free, about: others take and release some meanwhile.
    pub fn free_pages(&self) -> u64 {
        self.index.tree().store.room.free()
    }

    /// Whether fewer than a sixteenth of the pages are free, about: a map that is to grow is resized then, before changes look long for
    /// room.
    pub fn is_short(&self) -> bool {
        self.free_pages() < u64::from(self.index.patience() / 16)
    }

    /// How full the map is, as one look over all its pages and frames finds it: see [`RoomSeen`]. It takes time with each of them, and is
    /// exact where no other handle works.
    pub fn room(&self) -> RoomSeen
        ensures pages { (result.pages ≡ pages_of_map self.now) × (result.used_pages + result.free_pages ≤ result.pages) }
        ensures frames { (result.frames ≡ frames_of_map self.now) × (result.free_frames ≤ result.frames) }
    {
        self.index.room()
    }

    /// Whether so few are free that changes by all handles at once may want more.
    pub fn lacks_pages(&self) -> bool {
        self.index.tree().store.room.lacks_pages()
    }

    /// What waits, and what was dropped.
    fn backlog(&self) -> Backlog
        ensures { (result.waiting ≡ waiting_of self.now) × (result.dropped ≡ dropped_of self.now) }
    {
        Backlog {
            waiting: self.waiting.len(),
            dropped: self.waiting.dropped,
        }
    }

    /// Does what a hint asks, one post or one compression, and takes top levels away that are not needed then. What that has left comes
    /// back, and does not wait here; where there was no room, nothing is done.
    pub fn follow<R: Wait>(&mut self, rt: &R, hint: Hint) -> Followed
        ensures same { IsSameHandle self.old self.new }
        ensures kept { HasKeptUp self.old self.new }
        ensures follows { HasFollowed hint result self.old self.new }
        ensures keeps { KeepsHints self.old self.new }
    {
        upkeep::follow_hint(rt, self.index, &mut self.pass, hint)
    }

    /// Gives back what was swapped out. Says how many pages and frames were released.
    pub fn sweep(&mut self) -> u32
        ensures same { IsSameHandle self.old self.new }
        ensures kept { HasKeptUp self.old self.new }
        ensures sweeps { Sweeps (first_map_of self.old) (number_of_seat self.old) result (seen_by self.old) (seen_by self.new) }
        ensures count { released_in self.new ≡ released_in self.old + result }
        ensures swept { HasSweptAgain self.old self.new }
        ensures keeps { KeepsHints self.old self.new }
    {
        self.index.sweep(&mut self.pass)
    }

    /// The same, where enough was swapped out that it is due.
    pub fn sweep_if_due(&mut self)
        ensures same { IsSameHandle self.old self.new }
        ensures kept { HasKeptUp self.old self.new }
        ensures swept { HasSwept self.old self.new }
        ensures keeps { KeepsHints self.old self.new }
    {
        upkeep::sweep_if_due(self.index, &mut self.pass);
    }

    /// The two handles meet: each then has seen all that has happened in the map, and so all that the other one had seen.
    pub fn meet(&mut self, other: &mut Handle<'a>)
        requires { AreOfOne self.old other.old }
        ensures same { IsSameHandle self.old self.new × IsSameHandle other.old other.new }
        ensures met { HaveMet self.old other.old self.new other.new }
        ensures keeps { KeepsHints self.old self.new × KeepsHints other.old other.new }
    {
        self.index.meet(&mut self.pass, &mut other.pass);
    }

    /// The seat that it worked from. Upkeep that waits still is given up: see [`Handle::upkeep`].
    pub fn into_seat(self) -> Pass
        ensures { result ≡ seat_of self.entry }
    {
        let Handle { pass, .. } = self;
        pass
    }
}
