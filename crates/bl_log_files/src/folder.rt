//! Who has the log of a folder.

use crate::fault::LogError;
use std::alloc::Global;
use std::fs;
use std::fs::File;
use std::io::Read;
use std::rt::Files;

/// Has the log of a folder for this process alone, until what it gives is dropped or the process ends. It waits for nobody.
pub fn claim(rt: &HostRuntime, folder: &str) -> Result<File, LogError> {
    let alloc = rt.alloc();
    let held = match File::open(rt, folder) {
        Ok(held) => held,
        Err(error) => return Err(LogError::Log(format!(in alloc; "{folder}: {error}")?)),
    };
    match held.try_lock() {
        Ok(()) => Ok(held),
        Err(_) => Err(LogError::Log(format!(in alloc; "{folder}: another process has this log")?)),
    }
}

/// A number that nobody can foresee, for the records of a new log.
pub fn salt_of<R: Files>(rt: &R, alloc: Global) -> Result<u64, LogError> {
    let mut bytes = [0u8; 8];
    let got = match fs::open(rt, "/dev/urandom") {
        Ok(mut file) => file.read(&mut bytes),
        Err(error) => Err(error),
    };
    match got {
        Ok(8) => Ok(u64::from_le_bytes(bytes)),
        Ok(count) => Err(LogError::Log(format!(in alloc;
            "/dev/urandom: gave {count} bytes of 8"
        )?)),
        Err(error) => Err(LogError::Log(format!(in alloc; "/dev/urandom: {error}")?)),
    }
}
