//! Each line is a section.

ghost use Rattle.std.specs.Prelude.{◌≤◌, ◌^◌};

use bl_check::{Report, check};
use bl_model::Watched;
use bl_serve::{
    OpenGate, Origin, Sectioning, ServeFault, ServePlan, Totals, dump_by_plan, serve_by_plan,
};
use std::alloc::Global;
use std::io;
use std::io::{Read, Write};
use std::sync::Wait;
use std::sync::atomic::{AtomicBool, AtomicU64, Ordering};
use std::thread::Threads;

/// How such a server ends that reads from there and writes to there, and the writer.
fn end<R: Threads + Wait + Sync, I: Read + Drop, O: Write + Drop>(
    rt: &R,
    alloc: Global,
    plan: ServePlan,
    reader: I,
    writer: O,
) -> (Result<Totals, ServeFault>, O)
    requires { (1 ≤ plan.workers) × (plan.workers ≤ 32) × (plan.compressors ≤ 16) × (plan.most ≤ 2 ^ 28) }
{
    let mut reader = Watched::new(reader);
    let mut writer = Watched::new(writer);
    let origin = Origin::Empty(8);
    let ended = serve_by_plan(rt, alloc, origin, plan, &mut reader, &mut writer, &OpenGate);
    (ended.map(|summary| summary.totals), writer.into_inner())
}

/// Whether so many workers and compressors write these lines for those, and what they count.
fn answer<R: Threads + Wait + Sync>(
    rt: &R,
    alloc: Global,
    input: &[u8],
    output: &[u8],
    workers: u32,
    compressors: u32,
) -> Option<(bool, Totals)>
    requires { (1 ≤ workers) × (workers ≤ 32) × (compressors ≤ 16) }
{
    let plan = ServePlan {
        workers,
        compressors,
        sections: Sectioning::AtMost(1),
        most: 0,
    };
    match end(rt, alloc, plan, input, Vec::new(alloc)) {
        (Ok(totals), text) => Some((text.as_slice() == output, totals)),
        (Err(_), _) => None,
    }
}

// By however many workers, each line sees what those before it have done. Two of the eight are malformed, and one is a sync.
#[test]
fn lines_are_answered_in_their_order(rt: HostRuntime) {
    let input = b"insert 1 10\ndelete 1\nsync\nx\nput 1 11\nfind 1\nstat\nscan 0 9".as_slice();
    let output =
        b"1 inserted\n2 deleted 10\n3 synced\n4 malformed\n5 inserted\n6 found 11\n7 pages 8 used 2 free 6\n8 malformed\n".as_slice();
    let totals = Totals {
        requests: 8,
        malformed: 2,
        sections: 1,
    };
    for (workers, compressors) in [(1, 0), (4, 0), (4, 1)] {
        let answered = answer(&rt, rt.alloc(), input, output, workers, compressors);
        assert_eq!(rt; answered, Some((true, totals)));
    }
}

/// How many replies were flushed, and whether a line was asked for before the replies to all others were.
#[derive(Drop)]
struct Course {
    flushed: AtomicU64,
    early: AtomicBool,
}

/// How many bytes one of its lines has.
const LINE: usize = 8;

/// Gives a line of 8 bytes a call.
#[derive(Drop)]
struct Asking<'a> {
    text: &'static [u8],
    given: u64,
    course: &'a Course,
}

impl Read for Asking<'_> {
    fn read(&mut self, buf: &mut [u8]) -> io::Result<usize> {
        if self.course.flushed.load(Ordering::SeqCst) != self.given {
            self.course.early.store(true, Ordering::SeqCst);
        }
        let count = self.text.len().min(buf.len()).min(LINE);
        buf[..count].copy_from_slice(&self.text[..count]);
        self.text = &self.text[count..];
        self.given = self.given.saturating_add(1);
        Ok(count)
    }
}

/// Takes all bytes.
#[derive(Drop)]
struct Answered<'a> {
    lines: u64,
    course: &'a Course,
}

impl Write for Answered<'_> {
    fn write(&mut self, buf: &[u8]) -> io::Result<usize> {
        for byte in buf {
            if *byte == b'\n' {
                self.lines = self.lines.saturating_add(1);
            }
        }
        Ok(buf.len())
    }

    fn flush(&mut self) -> io::Result<()> {
        self.course.flushed.store(self.lines, Ordering::SeqCst);
        Ok(())
    }
}

/// Whether a line is asked for before the replies to all others are flushed, and how many are at the end.
fn asks_early<R: Threads + Wait + Sync>(
    rt: &R,
    alloc: Global,
    workers: u32,
    sections: Sectioning,
) -> (bool, u64)
    requires { (1 ≤ workers) × (workers ≤ 32) }
{
    let course = Course {
        flushed: AtomicU64::new(0),
        early: AtomicBool::new(false),
    };
    let reader = Asking {
        text: b"find 11\nput 1 1\nx      \nfind 11\n",
        given: 0,
        course: &course,
    };
    let writer = Answered {
        lines: 0,
        course: &course,
    };
    let plan = ServePlan {
        workers,
        compressors: 1,
        sections,
        most: 0,
    };
    let (_ended, _writer) = end(rt, alloc, plan, reader, writer);
    (
        course.early.load(Ordering::SeqCst),
        course.flushed.load(Ordering::SeqCst),
    )
}

// The reply to a line is out before the next one is asked for. Where a sync ends a section, or the second of two lines does, that is
// not so.
#[test]
fn a_line_is_asked_for_behind_the_reply_to_the_last(rt: HostRuntime) {
    for workers in [1, 4] {
        let at_once = asks_early(&rt, rt.alloc(), workers, Sectioning::AtMost(1));
        assert_eq!(rt; at_once, (false, 4));
        let by_two = asks_early(&rt, rt.alloc(), workers, Sectioning::AtMost(2));
        assert_eq!(rt; by_two, (true, 4));
        let by_sync = asks_early(&rt, rt.alloc(), workers, Sectioning::BySync);
        assert_eq!(rt; by_sync, (true, 4));
    }
}

// A section ends behind two lines, and behind a sync: the third line sees what the first two have done, and so does the sixth.
#[test]
fn sections_of_two_lines(rt: HostRuntime) {
    let input = b"insert 1 10\ninsert 2 20\nfind 1\nsync\ndelete 2\nfind 1\nfind 2\n".as_slice();
    let output =
        b"1 inserted\n2 inserted\n3 found 10\n4 synced\n5 deleted 20\n6 found 10\n7 absent\n".as_slice();
    let totals = Totals {
        requests: 7,
        malformed: 0,
        sections: 1,
    };
    for workers in [1, 4] {
        let plan = ServePlan {
            workers,
            compressors: 1,
            sections: Sectioning::AtMost(2),
            most: 0,
        };
        let (ended, text) = end(&rt, rt.alloc(), plan, input, Vec::new(rt.alloc()));
        assert_eq!(rt; ended, Ok(totals));
        assert!(rt; text.as_slice() == output, "{workers} workers");
    }
}

/// How many rows the image has that two workers and a compressor leave who answer line by line.
fn rows_left<R: Threads + Wait + Sync>(rt: &R, alloc: Global, input: &[u8]) -> Option<u32> {
    let plan = ServePlan {
        workers: 2,
        compressors: 1,
        sections: Sectioning::AtMost(1),
        most: 0,
    };
    let mut reader = Watched::new(input);
    let mut writer = Watched::new(Vec::new(alloc));
    let origin = Origin::Empty(8);
    let Ok((_, Ok(quiet))) = dump_by_plan(
        rt,
        alloc,
        origin,
        plan,
        &mut reader,
        &mut writer,
        &OpenGate,
    ) else {
        return None;
    };
    let mut image = Watched::new(Vec::new(alloc));
    if quiet.image().write(&mut image).is_err() {
        return None;
    }
    match check(alloc, image.into_inner().as_slice()) {
        Ok(Report { rows, .. }) => Some(rows),
        Err(_) => None,
    }
}

#[test]
fn a_dump_has_the_rows_behind_the_last_line(rt: HostRuntime) {
    let input = b"insert 1 10\ninsert 2 20\ndelete 1\ninsert 3 30\n".as_slice();
    assert_eq!(rt; rows_left(&rt, rt.alloc(), input), Some(2));
}
