//! The sum of all kinds of processes.

ghost use Rattle.std.specs.Prelude.{◌≡◌, ◌<◌, ◌≤◌};
ghost use Rattle.bl_model.specs.declared.deciding.KeyWrite.TheVariants as key_write;
ghost use Rattle.bl_proc_steps.specs.declared.acts.Action.TheVariants as act;
ghost use Rattle.bl_proc.specs.Parts.{up, down};
ghost use Rattle.bl_proc_writes.specs.declared.insert_post.Placing.TheVariants as place;
ghost use Rattle.bl_proc.specs.Processes.{next_of, needs_of, answer_of, Takes, IsFind, IsWrite, IsPost, IsPart, IsCompress, IsReclaim, IsLower, IsInsertPost};

use crate::lowering::Lower;
use crate::parts::Part;
use crate::reclaiming::Reclaim;
use crate::searching::Find;
use bl_model::KeyWrite;
use bl_proc_compress::Compress;
use bl_proc_steps::{Action, Answer, Process, Seen};
use bl_proc_writes::{InsertPost, Placing, Post, Write};

/// A process of any kind.
#[derive(Drop)]
pub enum Proc {
    /// Looks a key up.
    Find(Find),
    /// Inserts, puts, deletes or changes a key.
    Write(Write),
    /// Lists a child in its parent.
    Post(Post),
    /// Lists pairs from a key on, upwards or downwards.
    Part(Part),
    /// Merges or evens out two children of a parent.
    Compress(Compress),
    /// Releases a page that was retired.
    Reclaim(Reclaim),
    /// Takes the top level away.
    Lower(Lower),
    /// Inserts or puts a key, and posts what it splits.
    InsertPost(InsertPost),
}

impl Proc {
    /// A process that is to look the key up.
    pub fn find(key: u64) -> Proc
        ensures made { IsFind key result }
        ensures begins { next_of result ≡ act.Begin }
    {
        Proc::Find(Find::new(key))
    }

    /// A process that is to write the key so.
    pub fn write(key: u64, write: KeyWrite) -> Proc
        ensures made { IsWrite key write result }
        ensures begins { next_of result ≡ act.Begin }
    {
        Proc::Write(Write::new(key, write))
    }

    /// A process that is to put the value at the key, where the key has none.
    pub fn insert(key: u64, value: u64) -> Proc
        ensures made { IsWrite key (key_write.Insert value) result }
        ensures begins { next_of result ≡ act.Begin }
    {
        Proc::write(key, KeyWrite::Insert(value))
    }

    /// A process that is to put the value at the key, where the key has none, and then to list in its parent each page
    /// that it splits, from the pages on that it has gone down by.
    pub fn insert_posting(key: u64, value: u64) -> Proc
        ensures made { IsInsertPost key (place.Insert value) result }
        ensures begins { next_of result ≡ act.Begin }
    {
        Proc::InsertPost(InsertPost::new(key, Placing::Insert(value)))
    }

    /// A process that is to put the value at the key, in place of what is there.
    pub fn put(key: u64, value: u64) -> Proc
        ensures made { IsWrite key (key_write.Put value) result }
        ensures begins { next_of result ≡ act.Begin }
    {
        Proc::write(key, KeyWrite::Put(value))
    }

    /// The same, which then lists each page that it splits, as an insertion that posts does.
    pub fn put_posting(key: u64, value: u64) -> Proc
        ensures made { IsInsertPost key (place.Put value) result }
        ensures begins { next_of result ≡ act.Begin }
    {
        Proc::InsertPost(InsertPost::new(key, Placing::Put(value)))
    }

    /// A process that is to take the key and its value away.
    pub fn delete(key: u64) -> Proc
        ensures made { IsWrite key key_write.Delete result }
        ensures begins { next_of result ≡ act.Begin }
    {
        Proc::write(key, KeyWrite::Delete)
    }

    /// A process that is to put the new value at the key in place of the old one, where the key has that.
    pub fn change(key: u64, old: u64, new: u64) -> Proc
        ensures made { IsWrite key (key_write.Change old new) result }
        ensures begins { next_of result ≡ act.Begin }
    {
        Proc::write(key, KeyWrite::Change(old, new))
    }

    /// A process that is to list the page whose low is the key in its parent, which is of that level.
    pub fn post(level: u32, key: u64) -> Proc
        requires least { 0 < level }
        requires most { level ≤ 12 }
        ensures made { IsPost level key result }
        ensures begins { next_of result ≡ act.Begin }
    {
        Proc::Post(Post::new(level, key))
    }

    /// A process that is to list pairs from the key on.
    pub fn part(from: u64) -> Proc
        ensures made { IsPart (up from) result }
        ensures begins { next_of result ≡ act.Begin }
    {
        Proc::Part(Part::new(from))
    }

    /// A process that is to list pairs from the key on downwards.
    pub fn part_down(from: u64) -> Proc
        ensures made { IsPart (down from) result }
        ensures begins { next_of result ≡ act.Begin }
    {
        Proc::Part(Part::downwards(from))
    }

    /// A process that is to merge or even out two children of the parent of that level that covers the key.
    pub fn compress(level: u32, key: u64) -> Proc
        requires least { 0 < level }
        requires most { level ≤ 12 }
        ensures made { IsCompress level key result }
        ensures begins { next_of result ≡ act.Begin }
    {
        Proc::Compress(Compress::new(level, key))
    }

    /// A process that is to release the page, if that is retired and no process may still read it. It has neither a begin
    /// nor an end.
    pub fn reclaim(page: u32) -> Proc
        ensures made { IsReclaim page result }
        ensures sees { next_of result ≡ act.See page }
    {
        Proc::Reclaim(Reclaim::new(page))
    }

    /// A process that is to take the top level of the tree away, if that is one page with one pair.
    pub fn lower() -> Proc
        ensures made { IsLower result }
        ensures begins { next_of result ≡ act.Begin }
    {
        Proc::Lower(Lower::new())
    }
}

impl Process for Proc {
    ghost next_of = { next_of };

    ghost needs_of = { needs_of };

    ghost answer_of = { answer_of };

    ghost Takes = { Takes };

    fn next(&self) -> Action {
        match self {
            Proc::Find(process) => process.next(),
            Proc::Write(process) => process.next(),
            Proc::Post(process) => process.next(),
            Proc::Part(process) => process.next(),
            Proc::Compress(process) => process.next(),
            Proc::Reclaim(process) => process.next(),
            Proc::Lower(process) => process.next(),
            Proc::InsertPost(process) => process.next(),
        }
    }

    fn needs(&self) -> Option<(u32, u32)> {
        match self {
            Proc::Find(process) => process.needs(),
            Proc::Write(process) => process.needs(),
            Proc::Post(process) => process.needs(),
            Proc::Part(process) => process.needs(),
            Proc::Compress(process) => process.needs(),
            Proc::Reclaim(process) => process.needs(),
            Proc::Lower(process) => process.needs(),
            Proc::InsertPost(process) => process.needs(),
        }
    }

    fn answer(&self) -> Option<Answer> {
        match self {
            Proc::Find(process) => process.answer(),
            Proc::Write(process) => process.answer(),
            Proc::Post(process) => process.answer(),
            Proc::Part(process) => process.answer(),
            Proc::Compress(process) => process.answer(),
            Proc::Reclaim(process) => process.answer(),
            Proc::Lower(process) => process.answer(),
            Proc::InsertPost(process) => process.answer(),
        }
    }

    fn took(&mut self, seen: Seen) {
        match self {
            Proc::Find(process) => process.took(seen),
            Proc::Write(process) => process.took(seen),
            Proc::Post(process) => process.took(seen),
            Proc::Part(process) => process.took(seen),
            Proc::Compress(process) => process.took(seen),
            Proc::Reclaim(process) => process.took(seen),
            Proc::Lower(process) => process.took(seen),
            Proc::InsertPost(process) => process.took(seen),
        }
    }
}
