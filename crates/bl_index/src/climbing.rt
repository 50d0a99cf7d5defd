//! Insertions and puts that post what they split.

ghost use Rattle.std.specs.Prelude.{◌≡◌, Some};
ghost use Rattle.bl_model.specs.declared.deciding.KeyWrite.TheVariants as key_write;
ghost use Rattle.bl_model.specs.declared.operation.KeyReply.TheVariants as replies;
ghost use Rattle.bl_model.specs.declared.operation.Op.TheVariants as op;
ghost use Rattle.bl_model.specs.Replies.{reply_of};
ghost use Rattle.bl_model.specs.Writes.{write_op};
ghost use Rattle.bl_answers.specs.declared.answers.Hint.TheVariants as hints;
ghost use Rattle.bl_proc_writes.specs.Placings.{write_of};

use crate::index::{Index, Pass};
use bl_index_write::write_key_posting;
use bl_model::KeyReply;
use bl_proc::{Hint, Posted};
use bl_proc_writes::Placing;
use std::sync::Wait;

impl Index {
    ghost use Rattle.std.specs.Prelude.{ℕ};
    ghost use Rattle.bl_index.specs.Calls.{first_of, IsPassOf, IsSamePass, number_of, trail, Climbs, InsertLacks, WriteLacks, ClimbLacks, StepsAlone};

    /// An insertion or a put, each of which is also a call of its own, below, that posts what it splits: from the page by which it came
    /// down to each level, as Lehman and Yao's inserter does. Beside the reply stands what became of its last post, if it has split its
    /// leaf, and the post that met no room, which is to be made again. The write takes effect before its posts.
    pub fn write_posting<R: Wait>(
        &self,
        rt: &R,
        pass: &mut Pass,
        key: u64,
        placing: Placing,
    ) -> (KeyReply, Option<Posted>, Option<Hint>)
        requires own { IsPassOf self.now pass.old }
        ensures same { IsSamePass pass.old pass.new }
        ensures climbs { Climbs (first_of self.now) (number_of pass.old) (write_op key (write_of placing)) (reply_of result.0) result.1 result.2 (trail pass.old) (trail pass.new) }
        ensures no_room { result.0 ≡ replies.NoRoom → WriteLacks pass.old key (write_of placing) pass.new }
        ensures left { (level : ℕ) → (separator : ℕ) → result.2 ≡ Some (hints.Post level separator) → ClimbLacks pass.old level separator pass.new }
        ensures alone { StepsAlone (first_of self.now) self.now (write_op key (write_of placing)) (reply_of result.0) (trail pass.old) (trail pass.new) }
    {
        write_key_posting(&self.tree, rt, &mut pass.hand, key, placing)
    }

    /// Puts the value at the key, where the key has none, and posts what it splits.
    pub fn insert_posting<R: Wait>(
        &self,
        rt: &R,
        pass: &mut Pass,
        key: u64,
        value: u64,
    ) -> (KeyReply, Option<Posted>, Option<Hint>)
        requires own { IsPassOf self.now pass.old }
        ensures same { IsSamePass pass.old pass.new }
        ensures climbs { Climbs (first_of self.now) (number_of pass.old) (op.Insert key value) (reply_of result.0) result.1 result.2 (trail pass.old) (trail pass.new) }
        ensures no_room { result.0 ≡ replies.NoRoom → InsertLacks pass.old key pass.new }
        ensures left { (level : ℕ) → (separator : ℕ) → result.2 ≡ Some (hints.Post level separator) → ClimbLacks pass.old level separator pass.new }
        ensures alone { StepsAlone (first_of self.now) self.now (op.Insert key value) (reply_of result.0) (trail pass.old) (trail pass.new) }
    {
        self.write_posting(rt, pass, key, Placing::Insert(value))
    }

    /// Puts the value at the key, in place of what is there, and posts what it splits.
    pub fn put_posting<R: Wait>(
        &self,
        rt: &R,
        pass: &mut Pass,
        key: u64,
        value: u64,
    ) -> (KeyReply, Option<Posted>, Option<Hint>)
        requires own { IsPassOf self.now pass.old }
        ensures same { IsSamePass pass.old pass.new }
        ensures climbs { Climbs (first_of self.now) (number_of pass.old) (op.Put key value) (reply_of result.0) result.1 result.2 (trail pass.old) (trail pass.new) }
        ensures no_room { result.0 ≡ replies.NoRoom → WriteLacks pass.old key (key_write.Put value) pass.new }
        ensures left { (level : ℕ) → (separator : ℕ) → result.2 ≡ Some (hints.Post level separator) → ClimbLacks pass.old level separator pass.new }
        ensures alone { StepsAlone (first_of self.now) self.now (op.Put key value) (reply_of result.0) (trail pass.old) (trail pass.new) }
    {
        self.write_posting(rt, pass, key, Placing::Put(value))
    }
}
