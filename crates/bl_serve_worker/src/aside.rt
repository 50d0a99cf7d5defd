//! What a worker does beside its replies.

ghost use Rattle.std.specs.Prelude.{◌≡◌, [], true, false};
ghost use Rattle.bl_model.specs.Replies.{reply_of};
ghost use Rattle.bl_model.specs.Writes.{write_op};
ghost use Rattle.bl_serve_worker.specs.Noting.{NotesWrite};

use crate::compressing::enqueue;
use bl_changes::Changes;
use bl_hints::Hints;
use bl_map::{Hint, KeyReply};
use bl_model::KeyWrite;
use std::alloc::Global;
use std::sync::Wait;

/// What the writes of a worker leave beside their replies: hints, which wait for compressors, how many found no room, and, where that is
/// wanted, the rows that came and went.
#[derive(Drop)]
pub(crate) struct Aside<'a> {
    hints: &'a Hints,
    norooms: u64,
    /// Whether changes are noted.
    keeps: bool,
    changes: Changes,
    /// There was no memory for a change that was to be noted.
    failed: bool,
}

impl<'a> Aside<'a> {
    /// Hints go there, and nothing was written yet.
    pub(crate) fn new(alloc: Global, hints: &'a Hints, keeps: bool) -> Aside<'a>
        ensures keeps { result.keeps ≡ keeps }
        ensures failed { result.failed ≡ false }
        ensures came { result.changes.came.items ≡ [] }
        ensures went { result.changes.went.items ≡ [] }
    {
        Aside {
            hints,
            norooms: 0,
            keeps,
            changes: Changes::new(alloc),
            failed: false,
        }
    }

    /// Notes what a write has changed, by its reply, where changes are noted.
    fn note(&mut self, key: u64, does: KeyWrite, reply: KeyReply)
        ensures { NotesWrite (write_op key does) (reply_of reply) self.old self.new }
    {
        if self.keeps && self.changes.note(key, does, reply).is_err() {
            self.failed = true;
        }
    }

    /// Takes what a write has left that was answered so.
    pub(crate) fn take<R: Wait>(
        &mut self,
        rt: &R,
        key: u64,
        does: KeyWrite,
        reply: KeyReply,
        hint: Option<Hint>,
    )
        ensures { NotesWrite (write_op key does) (reply_of reply) self.old self.new }
    {
        if reply == KeyReply::NoRoom {
            self.norooms = self.norooms.saturating_add(1);
        }
        self.note(key, does, reply);
        enqueue(rt, self.hints, hint);
    }

    /// How many writes found no room.
    pub(crate) fn norooms(&self) -> u64 {
        self.norooms
    }

    /// Whether there was no memory for a change.
    pub(crate) fn has_failed(&self) -> bool
        ensures { result ≡ self.now.failed }
    {
        self.failed
    }

    /// The changes that were noted.
    pub(crate) fn into_changes(self) -> Changes
        ensures { result ≡ self.entry.changes }
    {
        let Aside { changes, .. } = self;
        changes
    }
}
