//! An index with its passes, and calls of it.

ghost use Rattle.bl_index.specs.Calls.{IsPassOf};

use crate::answers::{
    changed, climbed, compressed, found, listed, listed_near, lowered, posted, replied, scanned,
    yes,
};
use crate::calls::PassCall;
use crate::races::{Race, raced};
use bl_check::Quiet;
use bl_index::{CloseFault, Config, Index, OpenFault, Pass};
use std::alloc::{AllocError, Global};
use std::sync::Wait;
use std::thread::Threads;
use test_worked_values::{count, said};

/// An index that calls are made of. That the passes are its own is what each call asks for and leaves.
#[derive(Drop)]
pub struct Stage {
    index: Index,
    passes: Vec<Pass>,
    /// What scans have listed.
    rows: Vec<(u64, u64)>,
}

/// What a call of the pass gets. A scan appends its rows.
fn answer<R: Wait>(
    rt: &R,
    alloc: Global,
    index: &Index,
    pass: &mut Pass,
    rows: &mut Vec<(u64, u64)>,
    call: PassCall,
) -> Result<Vec<u8>, AllocError>
    requires { IsPassOf index.now pass.old }
    ensures { IsPassOf index.now pass.new }
{
    match call {
        PassCall::Insert(key, value) => changed(alloc, index.insert(rt, pass, key, value)),
        PassCall::InsertPost(key, value) => {
            climbed(alloc, index.insert_posting(rt, pass, key, value))
        }
        PassCall::Put(key, value) => changed(alloc, index.put(rt, pass, key, value)),
        PassCall::PutPost(key, value) => climbed(alloc, index.put_posting(rt, pass, key, value)),
        PassCall::Delete(key) => changed(alloc, index.delete(rt, pass, key)),
        PassCall::Change(key, old, new) => replied(alloc, index.change(rt, pass, key, old, new)),
        PassCall::Find(key, turns) => found(alloc, index.find(pass, key, turns)),
        PassCall::Part(from, turns) => listed(alloc, index.part(pass, from, turns)),
        PassCall::Near(from, page, turns) => {
            let mut near = Some(page);
            let reply = index.part_near(pass, from, &mut near, turns);
            listed_near(alloc, reply, near)
        }
        PassCall::Scan(from, end, turns) => {
            let end = index.scan_into(pass, from, end, turns, rows);
            scanned(alloc, end, rows.as_slice())
        }
        PassCall::Post(hint) => posted(alloc, index.post(rt, pass, hint)),
        PassCall::Compress(hint) => compressed(alloc, index.compress(rt, pass, hint)),
        PassCall::Lower => lowered(alloc, index.lower(rt, pass)),
        PassCall::Sweep => count(alloc, u64::from(index.sweep(pass))),
        PassCall::Lacks => yes(alloc, index.lacks_frames(pass)),
    }
}

impl Stage {
    ghost use Rattle.std.specs.Prelude.{◌≡◌, IfOk, IfErr};
    ghost use Rattle.test_worked.specs.Owning.{IsOwner};

    /// A new index.
    pub fn open(alloc: Global, config: Config) -> Result<Stage, OpenFault>
        ensures { IfOk result IsOwner }
    {
        let (index, passes) = Index::open(alloc, config)?;
        Ok(Stage {
            index,
            passes,
            rows: Vec::new(alloc),
        })
    }

    /// An index that begins with the image, which comes back where there is none.
    pub fn reopen(alloc: Global, quiet: Quiet, passes: u32) -> Result<Stage, (Quiet, OpenFault)>
        ensures { IfOk result IsOwner }
    {
        match Index::open_image(alloc, quiet, passes) {
            Ok((index, passes)) => Ok(Stage {
                index,
                passes,
                rows: Vec::new(alloc),
            }),
            Err(refused) => Err(refused),
        }
    }

    /// So many turns answer every search, where nothing is put meanwhile.
    pub fn patience(&self) -> u32 {
        self.index.patience()
    }

    /// What a call of the pass with that number gets. Passes are numbered from 1.
    pub fn answer<R: Wait>(
        &mut self,
        rt: &R,
        alloc: Global,
        number: usize,
        call: PassCall,
    ) -> Result<Vec<u8>, AllocError>
        requires { IsOwner self.old }
        ensures { IsOwner self.new }
    {
        if number < 1 || number > self.passes.len() {
            return said(alloc, "no such pass");
        }
        let pass = &mut self.passes[number - 1];
        answer(rt, alloc, &self.index, pass, &mut self.rows, call)
    }

    /// What the passes get in a race, each in a thread of its own.
    pub fn race<R: Threads + Wait + Sync>(
        &mut self,
        rt: &R,
        alloc: Global,
        what: Race,
    ) -> Result<Vec<u8>, AllocError>
        requires { IsOwner self.old }
        ensures { IsOwner self.new }
    {
        raced(rt, alloc, &self.index, self.passes.as_mut_slice(), what)
    }

    /// The image that the index leaves. Where it is not closed, all comes back.
    pub fn close(self, alloc: Global) -> Result<Quiet, (Stage, CloseFault)>
        requires { IsOwner self }
        ensures { IfErr result (λ t. IsOwner t.0 × (t.0.index ≡ self.index)) }
    {
        let Stage {
            index,
            passes,
            rows,
        } = self;
        match index.close(alloc, passes) {
            Ok(quiet) => Ok(quiet),
            Err((index, passes, fault)) => Err((
                Stage {
                    index,
                    passes,
                    rows,
                },
                fault,
            )),
        }
    }

    /// The same without the last pass, which is beside the others again where the index is not closed.
    pub fn close_early(mut self, alloc: Global) -> Result<Quiet, (Stage, CloseFault)>
        requires { IsOwner self }
        ensures { IfErr result (λ t. IsOwner t.0) }
    {
        let Some(last) = self.passes.pop() else {
            return Err((self, CloseFault::Pass));
        };
        match self.close(alloc) {
            Ok(quiet) => Ok(quiet),
            Err((stage, fault)) => Err(stage.with_last(last, fault)),
        }
    }

    /// The pass is beside the others again, behind a fault. Where memory is refused for that, this is the fault.
    fn with_last(mut self, last: Pass, fault: CloseFault) -> (Stage, CloseFault)
        requires own { IsOwner self }
        requires last { IsPassOf self.index last }
        ensures { IsOwner result.0 }
    {
        match self.passes.push(last) {
            Ok(()) => (self, fault),
            Err(_) => (self, CloseFault::Memory),
        }
    }
}
