//! A map in a sorted vector.

ghost use Rattle.std.specs.Prelude.{◌≡◌, ◌≢◌, [], IfOk, IfErr, OnErr, reverse};
ghost use Rattle.bl_model.specs.declared.operation.Op.TheVariants as op;
ghost use Rattle.bl_model.specs.Map.{IsMapStep, SameMap, empty};
ghost use Rattle.bl_model.specs.Plain.{BeginsPart, FillsPart, NeedsRoom};
ghost use Rattle.bl_model.specs.Rows.{HasRisingKeys, IsAt, IsGapFor, map_of};

use crate::operation::{Next, Op, Reply};
use arrayvec::ArrayVec;
use std::alloc::{AllocError, Global};
use std::marker::Model;

/// A map that answers one operation at a time, for tests and replay.
#[derive(Debug, Drop)]
pub struct PlainMap {
    rows: Vec<(u64, u64)>,
}

// A clause sees the rows in the order of their keys, so that two maps with the same pairs are equal.
impl Model for PlainMap {
    ghost use Rattle.std.specs.Prelude.{ℕ, List};
    ghost use Rattle.bl_model.specs.Rows.{HasRisingKeys};

    ghost Value = { List (ℕ × ℕ) };

    ghost view = { λ map. map.rows.items };

    ghost invariant = { λ map. HasRisingKeys map.rows.items };
}

/// The rows of a part that begins with the first of `rows`.
fn part(rows: &[(u64, u64)]) -> Reply
    ensures { BeginsPart rows.now result }
{
    let mut part = ArrayVec::new();
    for row in rows {
        if part.is_full() {
            return Reply::Rows(part, Next::More(row.0));
        }
        part.push(*row);
    }
    Reply::Rows(part, Next::End)
}

/// The rows of a part downwards that begins with the last of `rows`.
fn part_down(rows: &[(u64, u64)]) -> Reply
    ensures { BeginsPart (reverse rows.now) result }
{
    let mut part = ArrayVec::new();
    for i in 0..rows.len() {
        let row = rows[rows.len() - 1 - i];
        if part.is_full() {
            return Reply::Rows(part, Next::More(row.0));
        }
        part.push(row);
    }
    Reply::Rows(part, Next::End)
}

impl PlainMap {
    /// The map with no key. It takes no memory until the first insert.
    pub fn new(alloc: Global) -> PlainMap
        ensures rows { result ≡ [] }
        ensures map { SameMap empty (map_of result) }
    {
        PlainMap {
            rows: Vec::new(alloc),
        }
    }

    /// Answers the operation. Memory can fail only where a key that isn't there is entered, and then the map stays as it
    /// was. `NoRoom` is never answered. A part has the first 14 rows from its key, upwards or downwards, and goes on at
    /// the fifteenth's key.
    pub fn apply(&mut self, op: &Op) -> Result<Reply, AllocError>
        ensures step { IfOk result (λ reply. IsMapStep (map_of self.old) op.now reply (map_of self.new)) }
        ensures room { IfOk result (λ reply. reply ≢ Reply.NoRoom) }
        ensures part { IfOk result (FillsPart (map_of self.old)) }
        ensures memory { OnErr result (NeedsRoom (map_of self.old) op.now) }
        ensures err { OnErr result (self.new ≡ self.old) }
    {
        match *op {
            Op::Find(key) => match self.search(key) {
                Ok(place) => Ok(Reply::Found(self.rows[place].1)),
                Err(_) => Ok(Reply::Absent),
            },
            Op::Insert(key, value) => match self.search(key) {
                Ok(place) => {
                    let there = self.rows[place].1;
                    Ok(Reply::Present(there))
                }
                Err(place) => {
                    self.rows.insert(place, (key, value))?;
                    Ok(Reply::Inserted)
                }
            },
            Op::Put(key, value) => self.put(key, value),
            Op::Delete(key) => match self.search(key) {
                Ok(place) => Ok(Reply::Deleted(self.rows.remove(place).1)),
                Err(_) => Ok(Reply::Absent),
            },
            Op::Change(key, old, new) => Ok(self.change(key, old, new)),
            Op::Part(from) => {
                let place = match self.search(from) {
                    Ok(place) => place,
                    Err(place) => place,
                };
                Ok(part(&self.rows[place..]))
            }
            Op::PartDown(from) => {
                let count = match self.search(from) {
                    Ok(place) => place + 1,
                    Err(place) => place,
                };
                Ok(part_down(&self.rows[..count]))
            }
        }
    }

    /// Puts the value at the key, in place of what is there.
    fn put(&mut self, key: u64, value: u64) -> Result<Reply, AllocError>
        ensures step { IfOk result (λ reply. IsMapStep (map_of self.old) (op.Put key value) reply (map_of self.new)) }
        ensures room { IfOk result (λ reply. reply ≢ Reply.NoRoom) }
        ensures part { IfOk result (FillsPart (map_of self.old)) }
        ensures memory { OnErr result (NeedsRoom (map_of self.old) (op.Put key value)) }
        ensures err { OnErr result (self.new ≡ self.old) }
    {
        match self.search(key) {
            Ok(place) => {
                let there = self.rows[place].1;
                self.rows[place] = (key, value);
                Ok(Reply::Replaced(there))
            }
            Err(place) => {
                self.rows.insert(place, (key, value))?;
                Ok(Reply::Inserted)
            }
        }
    }

    /// Puts the new value at the key in place of the old one, where the key has that.
    fn change(&mut self, key: u64, old: u64, new: u64) -> Reply
        ensures step { IsMapStep (map_of self.old) (op.Change key old new) result (map_of self.new) }
        ensures room { result ≢ Reply.NoRoom }
        ensures part { FillsPart (map_of self.old) result }
    {
        match self.search(key) {
            Ok(place) => {
                let there = self.rows[place].1;
                if there == old {
                    self.rows[place] = (key, new);
                    Reply::Changed
                } else {
                    Reply::Differs(there)
                }
            }
            Err(_) => Reply::Absent,
        }
    }

    /// Where the key is, or where it would stand.
    fn search(&self, key: u64) -> Result<usize, usize>
        ensures found { IfOk result (IsAt self.now key) }
        ensures absent { IfErr result (IsGapFor self.now key) }
    {
        self.rows.binary_search_by_key(&key, |row| row.0)
    }
}
