//! A file in memory. Each call is done at once, so a crash leaves what is there. It keeps what it has been.

ghost use Rattle.std.specs.Prelude.{◌≡◌, [], ◌∷◌, ◌++◌, length, replicate, OnOk, OnErr};
ghost use Rattle.bl_journal.specs.Memory.{content_at};

use crate::device::{Device, DeviceFault};
use std::alloc::{AllocError, Global};

/// A file in memory.
#[derive(Drop)]
pub struct Memory {
    alloc: Global,
    bytes: Vec<u8>,
    past: Vec<Vec<u8>>,
}

impl Memory {
    ghost use Rattle.bl_journal.specs.Memory.{memory_bytes};

    /// A file of these bytes.
    pub fn new(alloc: Global, bytes: Vec<u8>) -> Memory
        ensures { memory_bytes result ≡ bytes.items }
    {
        Memory {
            alloc,
            bytes,
            past: Vec::new(alloc),
        }
    }

    /// Its bytes.
    pub fn bytes(&self) -> &[u8]
        ensures { result.now ≡ memory_bytes self.now }
    {
        &self.bytes
    }
}

/// Puts other bytes in the place of those that are there, which it keeps.
fn exchange(
    alloc: Global,
    bytes: &mut Vec<u8>,
    past: &mut Vec<Vec<u8>>,
    next: Vec<u8>,
) -> Result<(), AllocError>
    ensures ok { OnOk result (bytes.new.items ≡ next.items) }
    ensures err { OnErr result (bytes.new.items ≡ bytes.old.items) }
    ensures past { OnOk result ((v : _) × (v.items ≡ bytes.old.items) × (past.new.items ≡ past.old.items ++ v ∷ [])) }
    ensures past_err { OnErr result (past.new.items ≡ past.old.items) }
{
    past.push(bytes.to_vec(alloc)?)?;
    *bytes = next;
    Ok(())
}

/// Puts so many zeros behind bytes.
fn push_zeros(bytes: &mut Vec<u8>, count: usize) -> Result<(), AllocError>
    ensures { OnOk result (bytes.new.items ≡ bytes.old.items ++ replicate count 0) }
{
    for place in 0..count {
        bytes.push(0)?;
    }
    Ok(())
}

impl From<AllocError> for DeviceFault {
    fn from(_error: AllocError) -> DeviceFault {
        DeviceFault::Memory
    }
}

impl Device for Memory {
    ghost is_modelled = { λ m. Unit {0} };

    ghost seen = { λ m. m.bytes.items };

    ghost moment = { λ m. length m.past.items };

    ghost leaves = { λ m t c. c ≡ content_at m.past.items m.bytes.items t };

    fn read(&mut self, alloc: Global) -> Result<Vec<u8>, DeviceFault> {
        Ok(self.bytes.to_vec(alloc)?)
    }

    fn replace(&mut self, bytes: &[u8], zeros: usize) -> Result<(), DeviceFault> {
        let mut next = bytes.to_vec(self.alloc)?;
        push_zeros(&mut next, zeros)?;
        exchange(self.alloc, &mut self.bytes, &mut self.past, next)?;
        Ok(())
    }

    fn fill(&mut self, at: usize, bytes: &[u8]) -> Result<(), DeviceFault> {
        let mut next = self.bytes[..at].to_vec(self.alloc)?;
        next.extend_from_slice(bytes)?;
        next.extend_from_slice(&self.bytes[at + bytes.len()..])?;
        exchange(self.alloc, &mut self.bytes, &mut self.past, next)?;
        Ok(())
    }

    fn sync(&mut self) -> Result<(), DeviceFault> {
        Ok(())
    }
}
