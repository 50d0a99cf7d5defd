//! Streams that fail.

ghost use Rattle.std.specs.Prelude.{◌≡◌, ◌≤◌, vec_len};
ghost use Rattle.bl_serve_ground.specs.Together.{AreTogether, seen_by};

use crate::served::opened;
use bl_index::{Index, Pass};
use bl_model::Watched;
use bl_serve::{OpenGate, ServeFault, serve};
use std::alloc::Global;
use std::io;
use std::io::{ErrorKind, Read, Write};
use std::sync::Wait;
use std::thread::Threads;

// two sections, of 17 and of 9 bytes
const INPUT: &[u8] = b"insert 1 10\nsync\nfind 1\nx\n";

// and what is written for them: 20 bytes and 23
const OUTPUT: &[u8] = b"1 inserted\n2 synced\n3 found 10\n4 malformed\n";

/// Gives at most three bytes a call, is interrupted before each, and fails behind the last one if it is to.
#[derive(Drop)]
struct Halting {
    text: &'static [u8],
    interrupts: bool,
    fails: bool,
}

impl Read for Halting {
    fn read(&mut self, buf: &mut [u8]) -> io::Result<usize> {
        self.interrupts = !self.interrupts;
        if self.interrupts {
            return Err(io::Error::from(ErrorKind::Interrupted));
        }
        if self.text.is_empty() && self.fails {
            return Err(io::Error::from(ErrorKind::BrokenPipe));
        }
        let count = self.text.len().min(buf.len()).min(3);
        buf[..count].copy_from_slice(&self.text[..count]);
        self.text = &self.text[count..];
        Ok(count)
    }
}

/// Takes at most two bytes a call and `room` bytes in all, is interrupted before each call, and counts flushes, of
/// which one fails.
#[derive(Drop)]
struct Narrow {
    taken: [u8; 64],
    count: usize,
    room: usize,
    interrupts: bool,
    flushes: usize,
    good_flushes: usize,
    ghost within: { count ≤ room },
    ghost room_within: { room ≤ 64 },
}

impl Narrow {
    fn new(room: usize, good_flushes: usize) -> Narrow {
        Narrow {
            taken: [0; 64],
            count: 0,
            room: room.min(64),
            interrupts: false,
            flushes: 0,
            good_flushes,
        }
    }
}

impl Write for Narrow {
    fn write(&mut self, buf: &[u8]) -> io::Result<usize> {
        self.interrupts = !self.interrupts;
        if self.interrupts {
            return Err(io::Error::from(ErrorKind::Interrupted));
        }
        let count = buf.len().min(self.room - self.count).min(2);
        let start = self.count;
        self.taken[start..start + count].copy_from_slice(&buf[..count]);
        self.count = start + count;
        Ok(count)
    }

    fn flush(&mut self) -> io::Result<()> {
        if self.flushes >= self.good_flushes {
            return Err(io::Error::from(ErrorKind::BrokenPipe));
        }
        self.flushes += 1;
        Ok(())
    }
}

/// How two workers and a compressor end whose passes have met, and the writer.
fn end_on<R: Threads + Wait + Sync, I: Read + Drop, O: Write + Drop>(
    rt: &R,
    index: &Index,
    passes: Vec<Pass>,
    reader: I,
    writer: O,
) -> (Option<ServeFault>, O)
    requires many { vec_len passes ≡ 3 }
    requires together { AreTogether index.now (seen_by passes.items) passes.items }
{
    let mut reader = Watched::new(reader);
    let mut writer = Watched::new(writer);
    let fault = match serve(rt, index, passes, &mut reader, &mut writer, &OpenGate, 2) {
        Ok(_) => None,
        Err(fault) => Some(fault),
    };
    (fault, writer.into_inner())
}

/// The same on a new index.
fn end<R: Threads + Wait + Sync, I: Read + Drop, O: Write + Drop>(
    rt: &R,
    alloc: Global,
    reader: I,
    writer: O,
) -> Option<(Option<ServeFault>, O)> {
    match opened(alloc, 8, 3) {
        Some((index, passes)) => Some(end_on(rt, &index, passes, reader, writer)),
        None => None,
    }
}

/// How they end where the reader is that one, and whether they have written so many bytes of the output.
fn end_reading<R: Threads + Wait + Sync>(
    rt: &R,
    alloc: Global,
    reader: Halting,
    written: usize,
) -> Option<(Option<ServeFault>, bool)> {
    match end(rt, alloc, reader, Vec::new(alloc)) {
        Some((fault, text)) => Some((
            fault,
            text.as_slice() == &OUTPUT[..OUTPUT.len().min(written)],
        )),
        None => None,
    }
}

// Wherever the reader fails, the finished sections are written.
#[test]
fn a_read_that_fails_at_each_place(rt: HostRuntime) {
    for place in 0..27usize {
        let reader = Halting {
            text: &INPUT[..INPUT.len().min(place)],
            interrupts: false,
            fails: true,
        };
        let finished = if place < 17 { 0 } else { 20 };
        let ended = end_reading(&rt, rt.alloc(), reader, finished);
        assert_eq!(rt; ended, Some((Some(ServeFault::Read), true)));
    }
    let whole = Halting {
        text: INPUT,
        interrupts: false,
        fails: false,
    };
    let ended = end_reading(&rt, rt.alloc(), whole, OUTPUT.len());
    assert_eq!(rt; ended, Some((None, true)));
}

/// How they end where the writer has so much room and so many good flushes, how many bytes it has taken, whether these are a
/// beginning of the output, and how often it was flushed.
fn end_writing<R: Threads + Wait + Sync>(
    rt: &R,
    alloc: Global,
    room: usize,
    good_flushes: usize,
) -> Option<(Option<ServeFault>, usize, bool, usize)> {
    match end(rt, alloc, INPUT, Narrow::new(room, good_flushes)) {
        Some((fault, narrow)) => Some((
            fault,
            narrow.count,
            OUTPUT.starts_with(&narrow.taken[..narrow.count]),
            narrow.flushes,
        )),
        None => None,
    }
}

// Wherever the writer is full, what it has taken is a beginning of the output. Each section is flushed when it is written.
#[test]
fn a_write_that_fails_at_each_place(rt: HostRuntime) {
    for room in 0..44usize {
        let (fault, flushes) = if room < 20 {
            (Some(ServeFault::Write), 0)
        } else if room < 43 {
            (Some(ServeFault::Write), 1)
        } else {
            (None, 2)
        };
        let ended = end_writing(&rt, rt.alloc(), room, 9);
        assert_eq!(rt; ended, Some((fault, room, true, flushes)));
    }
}

#[test]
fn a_failed_flush_stops_the_server(rt: HostRuntime) {
    let ended = end_writing(&rt, rt.alloc(), 64, 0);
    assert!(rt; matches!(ended, Some((Some(ServeFault::Write), 20, _, _))));
}
