//! Images of rows, and the files into which a server saves them.

use bl_check::Quiet;
use bl_cli_streams::{DumpFault, replace_file};
use bl_load::{LoadFault, image_of};
use bl_model::limits::MOST_LARGE_PAGES;
use bl_serve::Gate;
use std::alloc::{AllocError, Global};
use std::{process, str};

/// Each leaf has so many rows at first.
const FILL: u32 = 14;

/// An image of rows with so many pages, doubled up to the most until the rows have room.
pub(crate) fn image_within(
    alloc: Global,
    rows: &[(u64, u64)],
    pages: u32,
    most: u32,
) -> Result<Quiet, LoadFault> {
    let mut pages = pages;
    for _ in 0..32 {
        if pages >= most {
            break;
        }
        match image_of(alloc, rows, pages, FILL) {
            Err(LoadFault::Room) => pages = pages.saturating_mul(2).min(most),
            other => return other,
        }
    }
    image_of(alloc, rows, pages, FILL)
}

/// Why rows were not saved: the line that says so.
type Reason = String;

/// What a server saves goes into files of the system, each in the place of the one that was there.
#[derive(Drop)]
pub(crate) struct Saver<'a> {
    rt: &'a HostRuntime,
    /// An image has so many pages, or as many more as its rows need.
    pages: u32,
}

/// Why an image could not be written to its file.
fn reason_of(alloc: Global, fault: &DumpFault) -> Result<Reason, AllocError> {
    match fault.reason(alloc)? {
        Some(reason) => Ok(reason),
        None => format!(in alloc; "{fault}"),
    }
}

impl<'a> Saver<'a> {
    /// Saves images that have so many pages at least.
    pub(crate) fn new(rt: &'a HostRuntime, pages: u32) -> Saver<'a> {
        Saver { rt, pages }
    }

    /// Writes an image of the rows to the file of that name; or else the reason why it does not stand there.
    fn write(&self, name: &[u8], rows: &[(u64, u64)]) -> Result<Option<Reason>, AllocError> {
        let (rt, alloc) = (self.rt, self.rt.alloc());
        let Ok(file) = str::from_utf8(name) else {
            return Ok(Some(format!(in alloc;
                "blink: cannot save to a file whose name is no UTF-8"
            )?));
        };
        let quiet = match image_within(alloc, rows, self.pages, MOST_LARGE_PAGES) {
            Ok(quiet) => quiet,
            Err(fault) => return Ok(Some(format!(in alloc; "blink: cannot save {file}: {fault}")?)),
        };
        match replace_file(rt, file, process::id(rt.process()), quiet.image()) {
            Ok(()) => Ok(None),
            Err(fault) => Ok(Some(reason_of(alloc, &fault)?)),
        }
    }
}

/// It holds no request. That a file was written is tested, and in no clause.
impl Gate for Saver<'_> {
    fn before(&self, _request: u64) {}

    fn after(&self, _request: u64) {}

    fn save(&self, name: &[u8], rows: &[(u64, u64)]) -> bool {
        match self.write(name, rows) {
            Ok(None) => true,
            Ok(Some(reason)) => {
                let _ = eprintln!(self.rt; "{reason}");
                false
            }
            Err(_) => {
                let _ = eprintln!(self.rt; "blink: out of memory");
                false
            }
        }
    }
}
