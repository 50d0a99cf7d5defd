//! The file of a log.

ghost use Rattle.std.specs.Prelude.{[]};

use bl_journal::{Device, DeviceFault};
use std::alloc::{AllocError, Global};
use std::fs::{File, OpenFile};
use std::io::{ErrorKind, Read, Seek, SeekFrom, Write};
use std::rt::Files;
use std::{fs, io};

/// So many zeros are written at once.
const PIECE: usize = 65_536;

/// The file `log` of a folder, beside which a new one is written as `log.new` and then renamed. One process at a time has the folder: see
/// [`crate::claim`].
#[derive(Drop)]
pub struct LogFile<'a, R: Files> {
    rt: &'a R,
    alloc: Global,
    folder: String,
    path: String,
    new: String,
    /// The file that this process has made, once there is one. It alone is written to.
    made: Option<R::File>,
    /// What the system has refused last, and why.
    why: Option<String>,
}

impl<'a, R: Files> LogFile<'a, R> {
    /// The log of a folder. Nothing is opened yet.
    pub fn new(rt: &'a R, alloc: Global, folder: &str) -> Result<LogFile<'a, R>, AllocError> {
        Ok(LogFile {
            rt,
            alloc,
            folder: String::from_str(alloc, folder)?,
            path: format!(in alloc; "{folder}/log")?,
            new: format!(in alloc; "{folder}/log.new")?,
            made: None,
            why: None,
        })
    }

    /// Whether the folder has a log, or something of that name.
    pub fn is_there(&self) -> bool {
        match fs::symlink_metadata(self.rt, self.path.as_str()) {
            Ok(_) => true,
            Err(error) => error.kind() != ErrorKind::NotFound,
        }
    }

    /// What the system has refused last, and why; None before that.
    pub fn why(&self) -> Option<&str> {
        self.why.as_deref()
    }

    /// Keeps what the system has refused to do with the log, and why.
    fn refused_log(&mut self, what: &str, error: &io::Error) -> DeviceFault {
        let path = self.path.as_str();
        match format!(in self.alloc; "cannot {what} {path}: {error}") {
            Ok(why) => {
                self.why = Some(why);
                DeviceFault::Refused
            }
            Err(_) => DeviceFault::Memory,
        }
    }

    /// A new file with these bytes and so many zeros, all of it on the disk, which has not the name of the log yet.
    fn make(&self, bytes: &[u8], zeros: usize) -> io::Result<R::File> {
        let mut options = File::options();
        options.write(true).create(true).truncate(true);
        let mut file = options.open(self.rt, self.new.as_str())?;
        file.write_all(bytes)?;
        write_zeros(&mut file, zeros)?;
        file.sync_all()?;
        Ok(file)
    }
}

/// Writes so many zeros.
fn write_zeros<F: Write>(file: &mut F, count: usize) -> io::Result<()> {
    let zeros = [0u8; PIECE];
    for _ in 0..count / PIECE {
        file.write_all(&zeros)?;
    }
    file.write_all(&zeros[..count % PIECE])
}

/// All the bytes of a file.
fn read_all<F: Read>(alloc: Global, file: &mut F) -> io::Result<Vec<u8>> {
    let mut bytes = Vec::new(alloc);
    file.read_to_end(&mut bytes)?;
    Ok(bytes)
}

/// Waits until the system says that the names in a folder are kept.
fn sync_folder<R: Files>(rt: &R, folder: &str) -> io::Result<()> {
    fs::open(rt, folder)?.sync_all()
}

/// Writes bytes to a file from that place on.
fn write_at<F: Write + Seek>(file: &mut F, at: usize, bytes: &[u8]) -> io::Result<()> {
    file.seek(SeekFrom::Start(at as u64))?;
    file.write_all(bytes)
}

/// What the system says, where it is not that there is no such file.
fn unless_missing<T>(told: io::Result<T>) -> io::Result<Option<T>> {
    match told {
        Ok(found) => Ok(Some(found)),
        Err(error) if error.kind() == ErrorKind::NotFound => Ok(None),
        Err(error) => Err(error),
    }
}

impl<'a, R: Files> LogFile<'a, R> {
    /// All the bytes of the log; none where there is no log.
    fn bytes(&self, alloc: Global) -> io::Result<Vec<u8>> {
        match unless_missing(fs::open(self.rt, self.path.as_str()))? {
            Some(mut file) => read_all(alloc, &mut file),
            None => Ok(Vec::new(alloc)),
        }
    }

    /// Gives the new file the name of the log, and waits until that is on the disk.
    fn put_in_place(&self) -> io::Result<()> {
        fs::rename(self.rt, self.new.as_str(), self.path.as_str())?;
        sync_folder(self.rt, self.folder.as_str())
    }

    /// Waits until what is written is on the disk. A log that another process has left may not be there yet.
    fn settle(&self) -> io::Result<()> {
        if let Some(file) = &self.made {
            return file.sync_data();
        }
        match unless_missing(fs::open(self.rt, self.path.as_str()))? {
            Some(file) => file.sync_all(),
            None => Ok(()),
        }
    }
}

impl<'a, R: Files> Device for LogFile<'a, R> {
    ghost is_modelled = { λ file. ⊥ };

    ghost seen = { λ file. [] };

    ghost moment = { λ file. 0 };

    ghost leaves = { λ file t c. ⊥ };

    fn read(&mut self, alloc: Global) -> Result<Vec<u8>, DeviceFault> {
        match self.bytes(alloc) {
            Ok(bytes) => Ok(bytes),
            Err(error) if error.kind() == ErrorKind::OutOfMemory => Err(DeviceFault::Memory),
            Err(error) => Err(self.refused_log("read", &error)),
        }
    }

    fn replace(&mut self, bytes: &[u8], zeros: usize) -> Result<(), DeviceFault> {
        self.made = None;
        let made = match self.make(bytes, zeros) {
            Ok(file) => file,
            Err(error) => {
                // What is there of it takes room, which the next one may want.
                let _ = fs::remove_file(self.rt, self.new.as_str());
                return Err(self.refused_log("write", &error));
            }
        };
        match self.put_in_place() {
            Ok(()) => {
                self.made = Some(made);
                Ok(())
            }
            Err(error) => Err(self.refused_log("rename", &error)),
        }
    }

    fn fill(&mut self, at: usize, bytes: &[u8]) -> Result<(), DeviceFault> {
        let Some(file) = &mut self.made else {
            return Err(DeviceFault::Refused);
        };
        match write_at(file, at, bytes) {
            Ok(()) => Ok(()),
            Err(error) => Err(self.refused_log("write", &error)),
        }
    }

    fn sync(&mut self) -> Result<(), DeviceFault> {
        match self.settle() {
            Ok(()) => Ok(()),
            Err(error) => Err(self.refused_log("sync", &error)),
        }
    }
}
