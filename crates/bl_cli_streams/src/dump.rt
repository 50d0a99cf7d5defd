//! The file of a dump: it is replaced as a whole, and nothing else is. This is tested.

ghost use Rattle.std.specs.Prelude.{◌≡◌};
ghost use Rattle.bl_cli_streams.specs.DumpStatuses.{status_of_dump};

use crate::kinds::kind_of;
use crate::piped::Piped;
use bl_image::Image;
use bl_model::Watched;
use std::alloc::{AllocError, Global};
use std::fs::{File, Metadata, OpenFile};
use std::io::{ErrorKind, Write};
use std::os::unix::fs::{MetadataExt, OpenOptionsExt, lchown};
use std::rt::Files;
use std::{fs, io};

/// Why a dump failed. Its text is the first line on standard error. But after `Sync` the file is as it was. Each keeps a path, and
/// where the system says why, that.
#[derive(Debug, PartialEq, Eq, Drop, thiserror::Error)]
pub enum DumpFault {
    #[error("blink: out of memory")]
    Memory,
    /// What stands at the path is nothing that may be replaced.
    #[error("blink: write failed")]
    Refuse(String),
    /// The new file could not be made.
    #[error("blink: write failed")]
    Make(String),
    /// The image could not be written to it.
    #[error("blink: write failed")]
    Fill(String),
    /// It could not be given the name of the file.
    #[error("blink: write failed")]
    Rename(String),
    /// The image stands in its file, but the system does not say that the folder is kept: it may be gone after a power failure.
    #[error("blink: write failed")]
    Sync(String),
}

impl DumpFault {
    /// The exit status of the program.
    pub fn status(&self) -> u8
        ensures { result ≡ status_of_dump self.now }
    {
        match self {
            DumpFault::Memory => 4,
            DumpFault::Refuse(_)
            | DumpFault::Make(_)
            | DumpFault::Fill(_)
            | DumpFault::Rename(_)
            | DumpFault::Sync(_) => 3,
        }
    }

    /// The second line on standard error: what could not be done, and why. None where there was no memory.
    pub fn reason(&self, alloc: Global) -> Result<Option<String>, AllocError> {
        let (what, why) = match self {
            DumpFault::Memory => return Ok(None),
            DumpFault::Refuse(why) => ("replace", why),
            DumpFault::Make(why) => ("make", why),
            DumpFault::Fill(why) => ("write", why),
            DumpFault::Rename(why) => ("rename", why),
            DumpFault::Sync(why) => ("sync the folder of the new image,", why),
        };
        Ok(Some(format!(in alloc; "blink: cannot {what} {why}")?))
    }
}

impl From<AllocError> for DumpFault {
    fn from(_error: AllocError) -> DumpFault {
        DumpFault::Memory
    }
}

/// What a dump replaces.
#[derive(Drop)]
struct Target {
    /// The path of the file, where a link leads.
    path: String,
    /// What the system says of the file that is there.
    old: Option<Metadata>,
}

/// How many names a new file may have: others may be left by dumps that were killed.
const NAMES: u32 = 100;

/// A path, and what is said of it.
fn observed(alloc: Global, path: &str, error: &io::Error) -> Result<String, AllocError> {
    format!(in alloc; "{path}: {error}")
}

/// The refusal of a path, of which the system says this.
fn refused(alloc: Global, path: &str, error: &io::Error) -> Result<DumpFault, AllocError> {
    Ok(DumpFault::Refuse(observed(alloc, path, error)?))
}

/// The target at a path where something is.
fn there(alloc: Global, path: &str, old: Metadata) -> Result<Target, DumpFault> {
    if !old.is_file() {
        let kind = kind_of(old.file_type());
        return Err(DumpFault::Refuse(format!(in alloc; "{path}: is {kind}")?));
    }
    let path = String::from_str(alloc, path)?;
    Ok(Target {
        path,
        old: Some(old),
    })
}

/// The target at the end of a symbolic link, which stays.
fn behind_link<R: Files + AllocGlobal>(rt: &R, link: &str) -> Result<Target, DumpFault> {
    let alloc = rt.alloc();
    let old = match fs::metadata(rt, link) {
        Ok(old) => old,
        Err(error) if error.kind() == ErrorKind::NotFound => {
            return Err(DumpFault::Refuse(format!(in alloc; "{link}: is a link to nothing")?));
        }
        Err(error) => return Err(refused(alloc, link, &error)?),
    };
    if !old.is_file() {
        // Where a link leads may have no path, as a pipe that is open.
        return there(alloc, link, old);
    }
    match fs::canonicalize(rt, link) {
        Ok(path) => there(alloc, path.as_str(), old),
        Err(error) => Err(refused(alloc, link, &error)?),
    }
}

/// What a dump to this path replaces. Only a regular file is replaced.
fn target_of<R: Files + AllocGlobal>(rt: &R, path: &str) -> Result<Target, DumpFault> {
    let alloc = rt.alloc();
    if path.is_empty() {
        return Err(DumpFault::Refuse(String::from_str(alloc, "an empty path")?));
    }
    match fs::symlink_metadata(rt, path) {
        Ok(found) if found.is_symlink() => behind_link(rt, path),
        Ok(found) => there(alloc, path, found),
        Err(error) if error.kind() == ErrorKind::NotFound => Ok(Target {
            path: String::from_str(alloc, path)?,
            old: None,
        }),
        Err(error) => Err(refused(alloc, path, &error)?),
    }
}

/// The path of the new file, which no other process takes; another one for each attempt.
fn new_path(alloc: Global, path: &str, process: u32, attempt: u32) -> Result<String, AllocError> {
    if attempt == 0 {
        format!(in alloc; "{path}.{process}.new")
    } else {
        format!(in alloc; "{path}.{process}.{attempt}.new")
    }
}

/// Makes a file that is not there yet. Where it replaces another one, nobody else may read it until it has the mode of that.
fn make<R: Files>(rt: &R, path: &str, replaces: bool) -> io::Result<R::File> {
    let mut options = File::options();
    options.write(true).create_new(true);
    options.mode(if replaces { 0o600 } else { 0o666 });
    options.open(rt, path)
}

/// Makes the new file beside the target.
fn make_beside<R: Files + AllocGlobal>(
    rt: &R,
    target: &Target,
    process: u32,
) -> Result<(R::File, String), DumpFault> {
    let alloc = rt.alloc();
    for attempt in 0..NAMES {
        let new = new_path(alloc, target.path.as_str(), process, attempt)?;
        match make(rt, new.as_str(), target.old.is_some()) {
            Ok(file) => return Ok((file, new)),
            Err(error) if error.kind() == ErrorKind::AlreadyExists => {}
            Err(error) => return Err(DumpFault::Make(observed(alloc, new.as_str(), &error)?)),
        }
    }
    let path = target.path.as_str();
    Err(DumpFault::Make(format!(in alloc; "{path}.{process}.new: {NAMES} such files are there")?))
}

/// Gives the new file the mode of the old one, and its owner and group as far as this process may give them.
fn keep_rights<R: Files>(rt: &R, file: &R::File, new: &str, old: &Metadata) -> io::Result<()> {
    if lchown(rt, new, Some(old.uid()), Some(old.gid())).is_err() {
        // Only the system's administrator may give a file to another owner; its owner may give it to a group that they are in.
        let _ = lchown(rt, new, None, Some(old.gid()));
    }
    file.set_permissions(old.permissions())
}

/// Writes the image to a file, and waits until the system says that it is kept.
fn fill<F: Write + OpenFile + Drop>(file: F, image: &Image) -> io::Result<()> {
    let mut writer = Watched::new(Piped::new(file));
    let written = image.write(&mut writer);
    let piped = writer.into_inner();
    if written.is_err() {
        return Err(piped.why());
    }
    piped.into_inner().sync_all()
}

/// Has the new file hold the image, with the rights of the old file.
fn complete<R: Files>(
    rt: &R,
    file: R::File,
    new: &str,
    target: &Target,
    image: &Image,
) -> io::Result<()> {
    if let Some(old) = &target.old {
        keep_rights(rt, &file, new, old)?;
    }
    fill(file, image)
}

/// The folder of a file.
fn folder_of(path: &str) -> &str {
    match path.rsplit_once('/') {
        Some(("", _)) => "/",
        Some((folder, _)) => folder,
        None => ".",
    }
}

/// Waits until the system says that the folder is kept. Nothing is to be had where a folder may not be read, or is of a system of
/// files that does not sync folders.
fn sync_folder<R: Files>(rt: &R, folder: &str) -> io::Result<()> {
    let Ok(file) = fs::open(rt, folder) else {
        return Ok(());
    };
    match file.sync_all() {
        Err(error) if error.kind() != ErrorKind::InvalidInput => Err(error),
        _ => Ok(()),
    }
}

/// Whether `replace_file` could do its work now: there is a regular file at the path, or nothing, and a new file can be made. It is
/// made, and removed again. So a server need not answer all its requests before that is said.
pub fn may_replace<R: Files + AllocGlobal>(
    rt: &R,
    path: &str,
    process: u32,
) -> Result<(), DumpFault> {
    let target = target_of(rt, path)?;
    let (_, new) = make_beside(rt, &target, process)?;
    // Where it cannot be removed, it is left.
    let _ = fs::remove_file(rt, new.as_str());
    Ok(())
}

/// Replaces the regular file at the path, if there is one, by the image; a symbolic link is followed. The image is written to a new
/// file beside it, whose name ends in the number of this process and `.new`, and that is then renamed: at the path there is the
/// whole image or what there was. The new file has the mode of the old one. One that was made and not renamed is removed where that
/// is possible.
///
/// Where this answers Ok, the system has said that file and name are kept, as far as it says so of folders.
pub fn replace_file<R: Files + AllocGlobal>(
    rt: &R,
    path: &str,
    process: u32,
    image: &Image,
) -> Result<(), DumpFault> {
    let alloc = rt.alloc();
    let target = target_of(rt, path)?;
    let (file, new) = make_beside(rt, &target, process)?;
    if let Err(error) = complete(rt, file, new.as_str(), &target, image) {
        // Where it cannot be removed either, it is left.
        let _ = fs::remove_file(rt, new.as_str());
        return Err(DumpFault::Fill(observed(alloc, new.as_str(), &error)?));
    }
    if let Err(error) = fs::rename(rt, new.as_str(), target.path.as_str()) {
        let _ = fs::remove_file(rt, new.as_str());
        return Err(DumpFault::Rename(observed(alloc, new.as_str(), &error)?));
    }
    let folder = folder_of(target.path.as_str());
    match sync_folder(rt, folder) {
        Ok(()) => Ok(()),
        Err(error) => Err(DumpFault::Sync(observed(alloc, folder, &error)?)),
    }
}
