//! Which file or argument a fault is of, and why. These lines are tested.

use crate::fault::CommandFault;
use crate::image_file::image_file;
use bl_draw::rule_words;
use bl_model::limits::{LEAST_PAGES, MOST_PAGES};
use bl_serve_lines::request::LINE_LIMIT;
use bl_serve_lines::source::read_some;
use std::alloc::{AllocError, Global};
use std::env::FillError;
use std::fs;
use std::fs::OpenFile;
use std::io::Read;
use std::rt::{Env, Files};
use std::str::from_utf8;

/// How many bytes one call reads at most.
const PIECE: usize = 16_384;

/// How many bytes a file gives, as far as its image may go. None where reading it fails.
fn count_bytes<F: OpenFile + Read + Drop>(alloc: Global, file: F) -> Option<u64> {
    let (mut reader, _) = image_file(alloc, file).ok()?;
    let mut piece = [0; PIECE];
    let mut count = 0u64;
    for _ in 0..u64::MAX {
        match read_some(&mut reader, &mut piece) {
            Ok(0) => break,
            Ok(more) => count = count.saturating_add(more as u64),
            Err(_) => return None,
        }
    }
    Some(count)
}

/// Why a regular file cannot be read whole: it gives another number of bytes than the system tells, or reading it fails.
fn unread_file<F: OpenFile + Read + Drop>(
    alloc: Global,
    path: &str,
    file: F,
    told: u64,
) -> Result<String, AllocError> {
    match count_bytes(alloc, file) {
        Some(count) if count != told => format!(in alloc;
            "blink: {path}: has {count} bytes, and the system tells a length of {told}"
        ),
        _ => format!(in alloc; "blink: {path}: cannot be read to its end"),
    }
}

/// Why a file cannot be read: what the system says when it is opened, or what it is.
fn unread<R: Files + AllocGlobal>(rt: &R, path: &str) -> Result<String, AllocError> {
    let alloc = rt.alloc();
    let file = match fs::open(rt, path) {
        Ok(file) => file,
        Err(error) => return format!(in alloc; "blink: {path}: {error}"),
    };
    match file.metadata() {
        Ok(metadata) if metadata.is_dir() => format!(in alloc; "blink: {path}: is a folder"),
        Ok(metadata) if metadata.is_file() => unread_file(alloc, path, file, metadata.len()),
        _ => format!(in alloc; "blink: {path}: cannot be read to its end"),
    }
}

/// How many bytes a file has that there was no memory for, as far as the system tells.
fn wanted<R: Files + AllocGlobal>(rt: &R, path: &str) -> Result<Option<String>, AllocError> {
    let alloc = rt.alloc();
    match fs::metadata(rt, path) {
        Ok(metadata) if metadata.is_file() => {
            let bytes = metadata.len();
            Ok(Some(format!(in alloc;
                "blink: {path}: has {bytes} bytes, and more than these are wanted"
            )?))
        }
        _ => Ok(None),
    }
}

/// The line behind that of a fault: the file that it is of, and why. None of a fault of no file. It is made after the fault, by
/// another look at the file.
pub fn reason_of<R: Files + AllocGlobal>(
    rt: &R,
    path: &str,
    fault: CommandFault,
) -> Result<Option<String>, AllocError> {
    let alloc = rt.alloc();
    match fault {
        CommandFault::Read => Ok(Some(unread(rt, path)?)),
        CommandFault::Script(1) => Ok(Some(format!(in alloc;
            "blink: {path}: line 1 is not `pages N`, with a number of pages from {LEAST_PAGES} to {MOST_PAGES} (see blink help replay)"
        )?)),
        CommandFault::Script(line) => Ok(Some(format!(in alloc;
            "blink: {path}: line {line} is no valid line there, of {LINE_LIMIT} bytes at most (see blink help replay)"
        )?)),
        CommandFault::Unsound(rule, page) => {
            let words = rule_words(rule);
            Ok(Some(format!(in alloc;
                "blink: {path}: not a sound image: page {page} breaks the rule that {words}"
            )?))
        }
        CommandFault::Memory => wanted(rt, path),
        CommandFault::Write | CommandFault::Lost(_) => Ok(None),
    }
}

/// Linux takes no argument of more bytes.
const LONGEST_ARGUMENT: usize = 131_072;

/// The number of the first argument that is no UTF-8 text, and None where there is none. The name of the program has the number 0.
fn wrong_argument<R: Env>(rt: &R, buffer: &mut [u8]) -> Option<usize> {
    for number in 0..usize::MAX {
        match rt.arg(number, buffer) {
            Ok(count) => {
                if from_utf8(buffer.get(..count)?).is_err() {
                    return Some(number);
                }
            }
            Err(FillError::TooLong) => {}
            Err(FillError::NotPresent) => return None,
        }
    }
    None
}

/// The line that names the argument that is no UTF-8 text, where there is one.
pub fn argument_line<R: Env + AllocGlobal>(rt: &R) -> Result<Option<String>, AllocError> {
    let alloc = rt.alloc();
    let mut buffer = vec![in alloc; 0; LONGEST_ARGUMENT]?;
    match wrong_argument(rt, buffer.as_mut_slice()) {
        Some(number) => Ok(Some(format!(in alloc; "blink: argument {number} is no UTF-8 text")?)),
        None => Ok(None),
    }
}
