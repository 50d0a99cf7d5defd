//! Insertions, puts, deletions and changes.

ghost use Rattle.std.specs.Prelude.{◌≡◌, ℕ, None, IfSome, IfNone};
ghost use Rattle.bl_model.specs.declared.deciding.KeyWrite.TheVariants as key_write;
ghost use Rattle.bl_model.specs.declared.operation.Op.TheVariants as op;
ghost use Rattle.bl_model.specs.declared.operation.KeyReply.TheVariants as replies;
ghost use Rattle.bl_model.specs.Replies.{reply_of};
ghost use Rattle.bl_model.specs.Writes.{write_op};

use crate::index::{Index, Pass};
use bl_index_write::{try_write, write_key};
use bl_model::{KeyReply, KeyWrite};
use bl_proc::Hint;
use std::sync::Wait;

impl Index {
    ghost use Rattle.bl_store.specs.Hands.{WasRefused};
    ghost use Rattle.bl_index_events.specs.Answered.{WritesNothing};
    ghost use Rattle.bl_index.specs.Calls.{first_of, IsPassOf, IsSamePass, number_of, trail, Writes, Inserts, InsertLacks, WriteLacks, StepsAlone, GivesUp};

    /// Writes the key so: an insertion, a put, a deletion or a change, each of which is also a call of its own, below. It answers what that
    /// call answers.
    pub fn write<R: Wait>(
        &self,
        rt: &R,
        pass: &mut Pass,
        key: u64,
        write: KeyWrite,
    ) -> (KeyReply, Option<Hint>)
        requires { IsPassOf self.now pass.old }
        ensures same { IsSamePass pass.old pass.new }
        ensures writes { Writes (first_of self.now) (number_of pass.old) (write_op key write) (reply_of result.0) result.1 (trail pass.old) (trail pass.new) }
        ensures unhinted { (old : ℕ) (new : ℕ) → write ≡ key_write.Change old new → result.1 ≡ None }
        ensures no_room { result.0 ≡ replies.NoRoom → WriteLacks pass.old key write pass.new }
        ensures alone { StepsAlone (first_of self.now) self.now (write_op key write) (reply_of result.0) (trail pass.old) (trail pass.new) }
    {
        write_key(&self.tree, rt, &mut pass.hand, key, write)
    }

    /// The same, or gives up: it waits for nothing, and gets so many pages at most on its way to the leaf. None: a page that it was to latch is
    /// another process's, or its way was longer. It has not been done, and nothing of it is left.
    pub fn try_write(
        &self,
        pass: &mut Pass,
        key: u64,
        write: KeyWrite,
        turns: u32,
    ) -> Option<(KeyReply, Option<Hint>)>
        requires { IsPassOf self.now pass.old }
        ensures same { IsSamePass pass.old pass.new }
        ensures writes { IfSome result (λ said. Writes (first_of self.now) (number_of pass.old) (write_op key write) (reply_of said.0) said.1
            (trail pass.old) (trail pass.new)) }
        ensures no_room { IfSome result (λ said. said.0 ≡ replies.NoRoom → WriteLacks pass.old key write pass.new) }
        ensures alone { IfSome result (λ said. StepsAlone (first_of self.now) self.now (write_op key write) (reply_of said.0) (trail pass.old)
            (trail pass.new)) }
        ensures undone { IfNone result (GivesUp WritesNothing (first_of self.now) (number_of pass.old) (trail pass.old) (trail pass.new)) }
    {
        try_write(&self.tree, &mut pass.hand, key, write, turns)
    }

    /// Puts the value at the key, where the key has none. It answers `Inserted`; `Present` with the value that the key has, which stays;
    /// or `NoRoom` where no page or frame was left, and nothing has changed then. Where the leaf was split, there is a hint to post its
    /// upper half.
    pub fn insert<R: Wait>(
        &self,
        rt: &R,
        pass: &mut Pass,
        key: u64,
        value: u64,
    ) -> (KeyReply, Option<Hint>)
        requires { IsPassOf self.now pass.old }
        ensures same { IsSamePass pass.old pass.new }
        ensures inserts { Inserts (first_of self.now) (number_of pass.old) key value (reply_of result.0) result.1 (trail pass.old) (trail pass.new) }
        ensures no_room { result.0 ≡ replies.NoRoom → InsertLacks pass.old key pass.new }
        ensures alone { StepsAlone (first_of self.now) self.now (op.Insert key value) (reply_of result.0) (trail pass.old) (trail pass.new) }
    {
        self.write(rt, pass, key, KeyWrite::Insert(value))
    }

    /// Puts the value at the key, in place of what is there, in one step: no other call sees the key without a value meanwhile. It
    /// answers `Inserted`; `Replaced` with the value that the key had; or `NoRoom` where no page or frame was left, and nothing has
    /// changed then. Where the key was not there and the leaf was split, there is a hint to post its upper half.
    pub fn put<R: Wait>(
        &self,
        rt: &R,
        pass: &mut Pass,
        key: u64,
        value: u64,
    ) -> (KeyReply, Option<Hint>)
        requires { IsPassOf self.now pass.old }
        ensures same { IsSamePass pass.old pass.new }
        ensures puts { Writes (first_of self.now) (number_of pass.old) (op.Put key value) (reply_of result.0) result.1 (trail pass.old) (trail pass.new) }
        ensures no_room { result.0 ≡ replies.NoRoom → WriteLacks pass.old key (key_write.Put value) pass.new }
        ensures alone { StepsAlone (first_of self.now) self.now (op.Put key value) (reply_of result.0) (trail pass.old) (trail pass.new) }
    {
        self.write(rt, pass, key, KeyWrite::Put(value))
    }

    /// Takes the key and its value away. It answers `Deleted` with the value that the key had; `Absent`; or `NoRoom` where no frame was
    /// left, and nothing has changed then. Where the leaf is thin then, there is a hint to merge it or even it out.
    pub fn delete<R: Wait>(&self, rt: &R, pass: &mut Pass, key: u64) -> (KeyReply, Option<Hint>)
        requires { IsPassOf self.now pass.old }
        ensures same { IsSamePass pass.old pass.new }
        ensures deletes { Writes (first_of self.now) (number_of pass.old) (op.Delete key) (reply_of result.0) result.1 (trail pass.old) (trail pass.new) }
        ensures no_room { result.0 ≡ replies.NoRoom → WasRefused pass.new.hand.seat 0 1 }
        ensures alone { StepsAlone (first_of self.now) self.now (op.Delete key) (reply_of result.0) (trail pass.old) (trail pass.new) }
    {
        self.write(rt, pass, key, KeyWrite::Delete)
    }

    /// Puts the new value at the key in place of the old one, where the key has that, in one step: no other call sees the key
    /// without a value meanwhile. It answers `Changed`; `Differs` with the value that the key has, where that is another one;
    /// `Absent`; or `NoRoom`. A change takes one frame, also where the new value is the old one; the other answers take none.
    pub fn change<R: Wait>(&self, rt: &R, pass: &mut Pass, key: u64, old: u64, new: u64) -> KeyReply
        requires { IsPassOf self.now pass.old }
        ensures same { IsSamePass pass.old pass.new }
        ensures changes { Writes (first_of self.now) (number_of pass.old) (op.Change key old new) (reply_of result) None (trail pass.old) (trail pass.new) }
        ensures no_room { result ≡ replies.NoRoom → WasRefused pass.new.hand.seat 0 1 }
        ensures alone { StepsAlone (first_of self.now) self.now (op.Change key old new) (reply_of result) (trail pass.old) (trail pass.new) }
    {
        self.write(rt, pass, key, KeyWrite::Change(old, new)).0
    }
}
