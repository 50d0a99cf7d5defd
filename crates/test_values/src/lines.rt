//! Request lines, printed answers, and how a reader is cut into its lines.

use arrayvec::ArrayVec;
use bl_model::{Next, Reply, Watched};
use bl_serve_lines::number::{number, three_numbers, two_numbers};
use bl_serve_lines::print::{Response, push_line, push_row};
use bl_serve_lines::source::{Cut, KEPT, Source};
use bl_serve_lines::{ServeFault, lines_alone_keep_order};
use std::alloc::Global;
use std::io;
use std::io::{ErrorKind, Read};
use std::test::Fail;

#[test]
fn numbers_have_one_spelling(rt: HostRuntime) {
    assert!(rt; are_numbers() && are_two_numbers() && are_three_numbers());
}

fn are_numbers() -> bool {
    number(b"0") == Some(0) && number(b"10") == Some(10) && number(b"007").is_none()
}

fn are_two_numbers() -> bool {
    two_numbers(b"1 20") == Some((1, 20)) && two_numbers(b"1  20").is_none()
}

fn are_three_numbers() -> bool {
    three_numbers(b"1 20 3") == Some((1, 20, 3))
        && three_numbers(b"1 20").is_none()
        && three_numbers(b"1 20 3 4").is_none()
}

/// The response to the seventh line is printed so.
fn is_printed(alloc: Global, response: &Response, line: &str) -> Result<bool, Fail> {
    let mut out = Vec::new(alloc);
    push_line(&mut out, 7, response)?;
    Ok(out.as_slice() == line.as_bytes())
}

#[test]
fn answers_are_printed_by_number(rt: HostRuntime) -> Result<(), Fail> {
    for (response, line) in [
        (Response::Replied(Reply::Found(5)), "7 found 5\n"),
        (Response::Replied(Reply::Absent), "7 absent\n"),
        (Response::Replied(Reply::Inserted), "7 inserted\n"),
        (Response::Replied(Reply::Present(0)), "7 present 0\n"),
        (Response::Replied(Reply::Deleted(8)), "7 deleted 8\n"),
        (Response::Replied(Reply::Replaced(50)), "7 replaced 50\n"),
        (Response::Replied(Reply::Changed), "7 changed\n"),
        (Response::Replied(Reply::Differs(60)), "7 differs 60\n"),
        (Response::Replied(Reply::NoRoom), "7 noroom\n"),
        (Response::Stated(8, 4, 3), "7 pages 8 used 4 free 3\n"),
        (Response::Synced, "7 synced\n"),
        (Response::Malformed, "7 malformed\n"),
    ] {
        assert!(rt; is_printed(rt.alloc(), &response, line)?);
    }
    Ok(())
}

#[test]
fn rows_are_printed_by_number(rt: HostRuntime) -> Result<(), Fail> {
    let mut rows = ArrayVec::new();
    let _ = rows.try_push((1, 10));
    let response = Response::Replied(Reply::Rows(rows, Next::More(2)));
    assert!(rt; is_printed(rt.alloc(), &response, "7 rows 1=10 more 2\n")?);
    Ok(())
}

/// Rows, and the text that ends with each.
const ROWS: [((u64, u64), &str); 3] = [
    ((7, 70), " 7=70"),
    ((8, 0), " 7=70 8=0"),
    ((u64::MAX, 1), " 7=70 8=0 18446744073709551615=1"),
];

#[test]
fn rows_are_printed_behind_each_other(rt: HostRuntime) -> Result<(), Fail> {
    let mut out = Vec::new(rt.alloc());
    for (row, wanted) in ROWS {
        push_row(&mut out, &row)?;
        assert!(rt; out.as_slice() == wanted.as_bytes());
    }
    Ok(())
}

/// Gives at most three bytes a call, is interrupted before each, and fails where the text ends if it is to.
#[derive(Drop)]
struct Halting {
    text: &'static [u8],
    interrupts: bool,
    fails: bool,
}

impl Read for Halting {
    fn read(&mut self, buf: &mut [u8]) -> io::Result<usize> {
        self.interrupts = !self.interrupts;
        if self.interrupts {
            return Err(io::Error::from(ErrorKind::Interrupted));
        }
        if self.text.is_empty() && self.fails {
            return Err(io::Error::from(ErrorKind::BrokenPipe));
        }
        let count = self.text.len().min(buf.len()).min(3);
        buf[..count].copy_from_slice(&self.text[..count]);
        self.text = &self.text[count..];
        Ok(count)
    }
}

/// A line that is kept.
type Line = ArrayVec<u8, KEPT>;

/// The next line of the reader is this one, cut so.
fn gives<R: Read>(
    source: &mut Source,
    reader: &mut Watched<R>,
    line: &mut Line,
    wanted: (Cut, &str),
) -> bool {
    let (cut, text) = wanted;
    source.next_line(reader, line) == Ok(cut) && line.as_slice() == text.as_bytes()
}

/// A reader of three lines and the beginning of one.
fn reader_of_lines(fails: bool) -> Watched<Halting> {
    Watched::new(Halting {
        text: b"find 1\n\nsync\nfind",
        interrupts: false,
        fails,
    })
}

/// The reader's three lines are cut whole.
fn has_three_lines(source: &mut Source, reader: &mut Watched<Halting>, line: &mut Line) -> bool {
    gives(source, reader, line, (Cut::Whole, "find 1"))
        && gives(source, reader, line, (Cut::Whole, ""))
        && gives(source, reader, line, (Cut::Whole, "sync"))
}

/// Behind the reader's lines are the beginning of one and the end.
fn is_cut_whole(source: &mut Source) -> bool {
    let mut reader = reader_of_lines(false);
    let mut line = ArrayVec::new();
    has_three_lines(source, &mut reader, &mut line)
        && source.next_line(&mut reader, &mut line) == Ok(Cut::Rest)
        && source.next_line(&mut reader, &mut line) == Ok(Cut::End)
}

/// The reader fails behind its lines.
fn is_cut_and_fails(source: &mut Source) -> bool {
    let mut reader = reader_of_lines(true);
    let mut line = ArrayVec::new();
    has_three_lines(source, &mut reader, &mut line)
        && source.next_line(&mut reader, &mut line).is_err()
}

#[test]
fn a_reader_is_cut_into_lines(rt: HostRuntime) -> Result<(), Fail> {
    let mut source = Source::new(rt.alloc())?;
    assert!(rt; is_cut_whole(&mut source));
    Ok(())
}

#[test]
fn a_reader_fails_behind_its_lines(rt: HostRuntime) -> Result<(), Fail> {
    let mut source = Source::new(rt.alloc())?;
    assert!(rt; is_cut_and_fails(&mut source));
    Ok(())
}

/// The line is seen, and seen again, and goes where it is passed over.
fn stands_until_passed(source: &mut Source) -> bool {
    for _look in 0..2 {
        if source.front() != Some(b"find 66".as_slice()) {
            return false;
        }
    }
    if source.front() == Some(b"find 66".as_slice()) {
        source.pass_over(b"find 66\n".len());
    }
    source.front().is_none()
}

/// Nothing stands in front before the first of three lines, the second line does behind it, and the third is a rest.
fn has_a_line_in_front(source: &mut Source) -> bool {
    let is_bare = source.front().is_none();
    let mut reader = Watched::new(b"sync\nfind 66\nfind".as_slice());
    let mut line = ArrayVec::new();
    is_bare
        && source.next_line(&mut reader, &mut line) == Ok(Cut::Whole)
        && stands_until_passed(source)
        && gives(source, &mut reader, &mut line, (Cut::Rest, "find"))
}

// A line that was read ahead is seen where it stands, and goes only where it is passed over.
#[test]
fn the_first_line_is_seen_where_it_stands(rt: HostRuntime) -> Result<(), Fail> {
    let mut source = Source::new(rt.alloc())?;
    assert!(rt; has_a_line_in_front(&mut source));
    Ok(())
}

/// A line of that length, at least that of its first word and a digit, and behind it another line.
fn long_line(alloc: Global, length: usize) -> Result<Vec<u8>, Fail> {
    let mut input = Vec::from_slice(alloc, b"find 1")?;
    for _ in 6..length {
        input.push(b'0')?;
    }
    input.extend_from_slice(b"\nsync\n")?;
    Ok(input)
}

/// A line of that length is cut so, and the line behind it is whole.
fn is_cut(alloc: Global, length: usize, cut: Cut) -> Result<bool, Fail> {
    let input = long_line(alloc, length)?;
    let mut source = Source::new(alloc)?;
    Ok(is_cut_from(&mut source, input.as_slice(), cut))
}

/// The first line of the input is cut so, and the second one is whole.
fn is_cut_from(source: &mut Source, input: &[u8], cut: Cut) -> bool {
    let mut reader = Watched::new(input);
    let mut line = ArrayVec::new();
    source.next_line(&mut reader, &mut line) == Ok(cut)
        && gives(source, &mut reader, &mut line, (Cut::Whole, "sync"))
}

// The longest request has 69 bytes, and so has the longest line that is kept.
#[test]
fn long_lines_are_cut_whole(rt: HostRuntime) -> Result<(), Fail> {
    for length in [69usize, 70, 71, 65_535, 65_536, 65_537, 3_000_000] {
        let cut = if length > 69 { Cut::Long } else { Cut::Whole };
        assert!(rt; is_cut(rt.alloc(), length, cut)?);
    }
    Ok(())
}

fn has_words(alloc: Global, fault: &ServeFault, words: &str) -> Result<bool, Fail> {
    Ok(fault.to_string(alloc)?.as_str() == words)
}

#[test]
fn faults_have_words(rt: HostRuntime) -> Result<(), Fail> {
    for (fault, words) in [
        (ServeFault::Read, "read failed"),
        (ServeFault::Write, "write failed"),
        (ServeFault::Memory, "out of memory"),
        (ServeFault::Lost(7), "lost request 7"),
    ] {
        assert!(rt; has_words(rt.alloc(), &fault, words)?);
    }
    Ok(())
}

#[test]
fn the_law_of_lines_does_nothing() {
    lines_alone_keep_order();
}
