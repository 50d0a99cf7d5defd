//! Sections are read.

ghost use Rattle.std.specs.Prelude.{◌≡◌, ℕ, ◌+◌, ◌≤◌, List, [], ◌∷◌, ◌++◌, ◌↔◌, IsTrue, Some, true, IfOk, OnOk};
ghost use Rattle.std.specs.Io.KnownBytes.{Consumes, IsAtEnd};
ghost use Rattle.bl_serve_lines.specs.declared.request.Request.TheVariants.{Sync};
ghost use Rattle.bl_serve_reading.specs.Reading.{AsksEnd, EndsReading, ReadsLine, ReadsOn};

use crate::parsed_lines::ParsedLines;
use arrayvec::ArrayVec;
use bl_model::{Failed, Watched};
use bl_serve_lines::request::{Request, parse};
use bl_serve_lines::source::{Cut, KEPT, Source, keep};
use bl_serve_lines::{Sectioning, ServeFault};
use std::alloc::{AllocError, Global};
use std::io::Read;

/// How a section ended.
#[derive(Clone, Copy, Debug, PartialEq, Eq)]
pub enum SectionEnd {
    /// By the line that ends it: a `sync`, or the last one of as many as there may be.
    ByLine,
    /// With bytes after the last LF.
    Rest,
    /// With the input.
    Finished,
}

/// Lines that are read while those before them are answered.
#[derive(Drop)]
pub struct ReadAhead {
    /// What was read and is not cut into lines yet.
    pub source: Source,
    /// How many lines are to be read at most.
    pub most: u64,
    /// Which of them ends their section.
    pub sections: Sectioning,
    /// What was read of them so far: the requests that are to be answered next.
    pub lines: ParsedLines,
    /// How reading of them ended.
    pub end: Result<SectionEnd, ServeFault>,
    /// Whether the input ends with the lines before them.
    pub is_last: bool,
}

/// What came next.
#[derive(Clone, Copy, Debug, PartialEq, Eq)]
enum Reading {
    /// A whole line, and what it asks for.
    Line(Option<Request>),
    /// Bytes after the last LF.
    Rest,
    /// Nothing.
    End,
}

/// Whether the bytes of a line are wanted behind what it asks for.
fn is_remembered(request: Option<Request>) -> bool {
    matches!(request, None | Some(Request::Save))
}

/// Reads the next line. Where its bytes are wanted, they are put into `line`.
fn read_line<R: Read>(
    source: &mut Source,
    reader: &mut Watched<R>,
    line: &mut ArrayVec<u8, KEPT>,
) -> Result<Reading, Failed>
    ensures { (bytes : List ℕ) × (more : List ℕ)
        × Consumes (R.remaining reader.old.inner) (R.remaining reader.new.inner) more
        × ReadsLine (source.old ++ more) bytes result source.new
        (IsAtEnd (R.remaining reader.new.inner)) (reader.new.failed ≡ true) }
{
    if let Some(front) = source.front() {
        let request = parse(front);
        if is_remembered(request) {
            line.clear();
            keep(line, front);
        }
        let taken = front.len() + 1;
        source.pass_over(taken);
        return Ok(Reading::Line(request));
    }
    match source.next_line(reader, line) {
        Ok(Cut::Whole) => Ok(Reading::Line(parse(line.as_slice()))),
        Ok(Cut::Long) => Ok(Reading::Line(None)),
        Ok(Cut::Rest) => Ok(Reading::Rest),
        Ok(Cut::End) => Ok(Reading::End),
        Err(failed) => Err(failed),
    }
}

/// Whether a line is a `sync`.
fn is_sync(asked: Option<Request>) -> bool
    ensures { IsTrue result ↔ (asked ≡ Some Sync) }
{
    matches!(asked, Some(Request::Sync))
}

/// Whether a line that asks for this, the last one of so many, ends their section.
fn ends_section(sections: Sectioning, count: u64, asked: Option<Request>) -> bool
    ensures { IsTrue result ↔ AsksEnd sections count asked }
{
    match sections {
        Sectioning::BySync => is_sync(asked),
        Sectioning::AtMost(most) => is_sync(asked) || most <= count,
    }
}

/// Reads the lines of a section, at most so many. Bytes after the last LF are one of them, but are not kept. Behind the line that
/// ends it nothing is read.
pub fn read_section<R: Read>(
    source: &mut Source,
    reader: &mut Watched<R>,
    lines: &mut ParsedLines,
    sections: Sectioning,
    most: u64,
) -> Result<SectionEnd, ServeFault>
    requires { lines.old ≡ [] }
    ensures { (rest : List ℕ) × (more : List ℕ)
        × Consumes (R.remaining reader.old.inner) (R.remaining reader.new.inner) more
        × EndsReading sections result most lines.new rest (source.old ++ more) source.new
        (IsAtEnd (R.remaining reader.new.inner)) (reader.new.failed ≡ true) }
{
    let mut line = ArrayVec::new();
    for _taken in 0..most {
        match read_line(source, reader, &mut line) {
            Ok(Reading::Line(request)) => {
                lines.push(request, line.as_slice())?;
                let ended = ends_section(sections, lines.len() as u64, request);
                if ended {
                    return Ok(SectionEnd::ByLine);
                }
            }
            Ok(Reading::Rest) => return Ok(SectionEnd::Rest),
            Ok(Reading::End) => return Ok(SectionEnd::Finished),
            Err(_) => return Err(ServeFault::Read),
        }
    }
    Ok(SectionEnd::Finished)
}

impl ReadAhead {
    /// Nothing is read yet.
    pub fn new(alloc: Global) -> Result<ReadAhead, AllocError>
        ensures { IfOk result (λ ahead. (ahead.source ≡ []) × (ahead.lines ≡ [])) }
    {
        Ok(ReadAhead {
            source: Source::new(alloc)?,
            most: 0,
            sections: Sectioning::BySync,
            lines: ParsedLines::new(alloc),
            end: Ok(SectionEnd::Finished),
            is_last: false,
        })
    }
}

/// Reads the next lines of a section, as many as are wanted; where none are, nothing is read.
pub fn read_on<R: Read>(reader: &mut Watched<R>, ahead: &mut ReadAhead)
    ensures { ReadsOn ahead.old ahead.new (R.remaining reader.old.inner) (R.remaining reader.new.inner) (reader.new.failed ≡ true) }
{
    ahead.lines.clear();
    ahead.end = Ok(SectionEnd::Finished);
    if ahead.most > 0 {
        let (source, lines) = (&mut ahead.source, &mut ahead.lines);
        ahead.end = read_section(source, reader, lines, ahead.sections, ahead.most);
    }
}
