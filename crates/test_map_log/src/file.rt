//! A file in memory of which no clause speaks, as none does of a file of a system.

ghost use Rattle.std.specs.Prelude.{[]};

use bl_map_log::{Device, DeviceFault};
use std::alloc::{AllocError, Global};

#[derive(Drop)]
pub struct File {
    pub alloc: Global,
    pub bytes: Vec<u8>,
    // How often it was replaced or synced.
    pub syncs: u32,
}

impl Device for File {
    ghost is_modelled = { λ file. ⊥ };

    ghost seen = { λ file. file.bytes.items };

    ghost moment = { λ file. 0 };

    ghost leaves = { λ file t c. ⊥ };

    fn read(&mut self, alloc: Global) -> Result<Vec<u8>, DeviceFault> {
        copied(alloc, self.bytes.as_slice()).map_err(|_| DeviceFault::Memory)
    }

    fn replace(&mut self, bytes: &[u8], zeros: usize) -> Result<(), DeviceFault> {
        self.bytes = with_zeros(self.alloc, bytes, zeros).map_err(|_| DeviceFault::Memory)?;
        self.syncs = self.syncs.saturating_add(1);
        Ok(())
    }

    fn fill(&mut self, at: usize, bytes: &[u8]) -> Result<(), DeviceFault> {
        for (place, byte) in bytes.iter().enumerate() {
            if let Some(there) = self.bytes.get_mut(at.saturating_add(place)) {
                *there = *byte;
            }
        }
        Ok(())
    }

    fn sync(&mut self) -> Result<(), DeviceFault> {
        self.syncs = self.syncs.saturating_add(1);
        Ok(())
    }
}

// A file without bytes.
pub fn empty(alloc: Global) -> File {
    File {
        alloc,
        bytes: Vec::new(alloc),
        syncs: 0,
    }
}

// A copy of bytes.
fn copied(alloc: Global, bytes: &[u8]) -> Result<Vec<u8>, AllocError> {
    let mut copy = Vec::with_capacity(alloc, bytes.len())?;
    copy.extend_from_slice(bytes)?;
    Ok(copy)
}

// Bytes, and so many zeros behind them.
fn with_zeros(alloc: Global, bytes: &[u8], zeros: usize) -> Result<Vec<u8>, AllocError> {
    let mut all = copied(alloc, bytes)?;
    for _ in 0..zeros {
        all.push(0)?;
    }
    Ok(all)
}
