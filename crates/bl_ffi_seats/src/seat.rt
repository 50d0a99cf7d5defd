//! A seat, and what is done from it.

ghost use Rattle.std.specs.Arc.{arc_value};
ghost use Rattle.bl_index.specs.Calls.{IsPassOf};
ghost use Rattle.bl_map_calls.specs.Seats.{IsPassOf-prop};

use bl_index::{Direction, Index, KeyReply, KeyWrite, OutOfTurns, Pass, Reply, RoomSeen};
use bl_map_tries::trying;
use bl_map_tries::walking::Walk;
use bl_waiting::Waiting;
use std::alloc::Global;
use std::ptr;
use std::sync::Arc;

/// One thread's place at an index.
#[derive(Drop)]
pub struct Seat {
    pub(crate) index: Arc<Index, Global>,
    pub(crate) pass: Pass,
    pub(crate) waiting: Waiting,
    pub(crate) walk: Walk,
    pub ghost own: { IsPassOf (arc_value index) pass } by { IsPassOf-prop (arc_value index) pass },
}

impl Seat {
    ghost use Rattle.std.specs.Prelude.{◌≡◌, ◌+◌, ◌≤◌, ◌↔◌, MatchOption, IfOk, IfErr, length, true};
    ghost use Rattle.bl_model.specs.declared.operation.Op.TheVariants as op;
    ghost use Rattle.bl_model.specs.Replies.{reply_of};
    ghost use Rattle.bl_model.specs.Writes.{write_op};
    ghost use Rattle.bl_proc.specs.Parts.{op_toward};
    ghost use Rattle.bl_index.specs.Calls.{pages_of, frames_of};
    ghost use Rattle.bl_waiting.specs.Queue.{hints_of};
    ghost use Rattle.bl_ffi_seats.specs.Seats.{IsSameSeat, KeepsUpkeep, AreOfOne, HasFound, HasRunOut, HasWritten, HasNotWritten, HasKeptUp, IsDone, HaveMet};

    /// The value of a key, or that the key is absent. None: it ran out of turns, and is to be made again.
    pub fn find(&mut self, key: u64) -> Option<KeyReply>
        ensures same { IsSameSeat self.old self.new }
        ensures keeps { KeepsUpkeep self.old self.new }
        ensures found { MatchOption result (HasRunOut self.old self.new) (λ reply. HasFound (op.Find key) (reply_of reply) self.old self.new) }
    {
        let turns = self.index.patience();
        match self.index.find_near(&mut self.pass, key, None, turns) {
            Ok(reply) => Some(reply),
            Err(_) => None,
        }
    }

    /// Fetches from memory, side by side, the pages that calls about these keys will read, 8 keys at most, so that they are near when the calls
    /// come. It changes nothing and tells nothing.
    pub fn fetch(&self, keys: &[u64]) {
        let _pages = self.index.fetch(keys);
    }

    /// The rows of one leaf from a key on, and where the next part begins, upwards or downwards. With a page in mind it looks at that one
    /// first, and leaves there the one from which the way to the next part is short, if there is one. An error: as for a search.
    pub fn part(
        &mut self,
        direction: Direction,
        from: u64,
        near: &mut Option<u32>,
    ) -> Result<Reply, OutOfTurns>
        ensures same { IsSameSeat self.old self.new }
        ensures keeps { KeepsUpkeep self.old self.new }
        ensures found { IfOk result (λ reply. HasFound (op_toward direction from) reply self.old self.new) }
        ensures runs_out { IfErr result (λ fault. HasRunOut self.old self.new) }
    {
        let turns = self.index.patience();
        self.index
            .part_toward(&mut self.pass, direction, from, near, turns)
    }

    /// Writes a key. Before that it does upkeep, some pieces at most, and looks for room; what it has left to do waits. None: it found no room
    /// yet, or a page was another thread's. It has not been done, and nothing of it is left: it is to be made again, or not.
    pub fn write(&mut self, key: u64, write: KeyWrite) -> Option<KeyReply>
        ensures same { IsSameSeat self.old self.new }
        ensures written { MatchOption result (HasNotWritten self.old self.new) (λ reply. HasWritten (write_op key write) key write reply self.old self.new) }
    {
        trying::try_write(
            &self.index,
            &mut self.pass,
            &mut self.waiting,
            &mut self.walk,
            key,
            write,
        )
    }

    /// Does so many pieces of upkeep at most, and gives back what was swapped out. Says whether nothing is left to do.
    pub fn upkeep(&mut self, most: u32) -> bool
        ensures same { IsSameSeat self.old self.new }
        ensures kept { HasKeptUp most self.old self.new }
        ensures done { result ≡ true ↔ IsDone self.new }
    {
        let index = &self.index;
        let done = trying::try_upkeep(
            index,
            &mut self.pass,
            &mut self.waiting,
            &mut self.walk,
            most,
        );
        self.index.sweep(&mut self.pass);
        done
    }

    /// The seats meet: each then has seen all that has happened in the index, and so all that the other one had.
    pub fn meet(&mut self, other: &mut Seat)
        requires { AreOfOne self.old other.old }
        ensures same { IsSameSeat self.old self.new × IsSameSeat other.old other.new }
        ensures keeps { KeepsUpkeep self.old self.new × KeepsUpkeep other.old other.new }
        ensures met { HaveMet self.old other.old self.new other.new }
    {
        self.index.meet(&mut self.pass, &mut other.pass);
    }

    /// How many pages its index has.
    pub fn pages(&self) -> u32
        ensures { result ≡ pages_of (arc_value self.now.index) }
    {
        self.index.patience()
    }

    /// How many of them are free, about: others take and release some meanwhile.
    pub fn free_pages(&self) -> u64 {
        self.index.tree().store.room.free()
    }

    /// How full its index is, as one look over all its pages and frames finds it: see [`RoomSeen`].
    pub fn room(&self) -> RoomSeen
        ensures pages { (result.pages ≡ pages_of (arc_value self.now.index)) × (result.used_pages + result.free_pages ≤ result.pages) }
        ensures frames { (result.frames ≡ frames_of (arc_value self.now.index)) × (result.free_frames ≤ result.frames) }
    {
        self.index.room()
    }

    /// A place in the memory of its index. Seats of one index have one place, and seats of two that are open have two: no clause says so.
    pub fn place(&self) -> *const u32 {
        ptr::from_ref(&self.index.tree().pages)
    }

    /// How many pieces of upkeep wait, 32 at most.
    pub fn waiting(&self) -> u32
        ensures { result ≡ length (hints_of self.now.waiting) }
    {
        self.waiting.len()
    }

    /// How many were dropped, since 32 waited.
    pub fn dropped(&self) -> u64
        ensures { result ≡ self.now.waiting.dropped }
    {
        self.waiting.dropped
    }
}
