//! The lines of a script, one after another.

ghost use Rattle.std.specs.Prelude.{◌≡◌, ℕ, ◌<◌, List, ◌++◌, true};
ghost use Rattle.std.specs.Io.KnownBytes.{Consumes, IsAtEnd};
ghost use Rattle.bl_replay_script.specs.Steps.{GivesLine, GivesHead, GivesCommand};

use crate::command::{Command, Kinds};
use crate::parse::{command_of, head_of};
use arrayvec::ArrayVec;
use bl_model::{Failed, Watched};
use bl_serve_lines::source::{Cut, KEPT, Source};
use std::io::Read;

/// What comes next.
#[derive(Clone, Copy, Debug, PartialEq, Eq)]
pub enum Next {
    /// A line of at most 69 bytes.
    Line,
    /// Nothing.
    End,
    /// Bytes that are no line of a script: too many, or with no LF behind them.
    NoLine,
}

/// What the next line says.
#[derive(Clone, Copy, Debug, PartialEq, Eq)]
pub enum Said {
    /// A command that may stand there.
    Command(Command),
    /// There is no line.
    End,
    /// Nothing that may stand there.
    Bad,
}

/// Cuts the next line off.
fn next_line<R: Read>(
    source: &mut Source,
    reader: &mut Watched<R>,
    line: &mut ArrayVec<u8, KEPT>,
) -> Result<Next, Failed>
    ensures { (more : List ℕ)
        × Consumes (R.remaining reader.old.inner) (R.remaining reader.new.inner) more
        × GivesLine (source.old ++ more) line.new.items result source.new
        (IsAtEnd (R.remaining reader.new.inner)) (reader.new.failed ≡ true) }
{
    match source.next_line(reader, line) {
        Ok(Cut::Whole) => Ok(Next::Line),
        Ok(Cut::End) => Ok(Next::End),
        Ok(Cut::Long) => Ok(Next::NoLine),
        Ok(Cut::Rest) => Ok(Next::NoLine),
        Err(failed) => Err(failed),
    }
}

/// Reads the first line: how many pages it asks for, or None where it is bad.
pub fn read_head<R: Read>(
    source: &mut Source,
    reader: &mut Watched<R>,
    line: &mut ArrayVec<u8, KEPT>,
) -> Result<Option<u32>, Failed>
    ensures { (more : List ℕ)
        × Consumes (R.remaining reader.old.inner) (R.remaining reader.new.inner) more
        × GivesHead (source.old ++ more) result source.new
        (IsAtEnd (R.remaining reader.new.inner)) (reader.new.failed ≡ true) }
{
    match next_line(source, reader, line) {
        Ok(Next::Line) => Ok(head_of(line.as_slice())),
        Ok(Next::End) => Ok(None),
        Ok(Next::NoLine) => Ok(None),
        Err(failed) => Err(failed),
    }
}

/// Reads the next line behind the first, where so many processes have been started.
pub fn read_command<R: Read>(
    source: &mut Source,
    reader: &mut Watched<R>,
    line: &mut ArrayVec<u8, KEPT>,
    kinds: Kinds,
    pages: u32,
    started: u64,
) -> Result<Said, Failed>
    requires { 0 < pages }
    ensures { (more : List ℕ)
        × Consumes (R.remaining reader.old.inner) (R.remaining reader.new.inner) more
        × GivesCommand kinds pages started (source.old ++ more) result source.new
        (IsAtEnd (R.remaining reader.new.inner)) (reader.new.failed ≡ true) }
{
    match next_line(source, reader, line) {
        Ok(Next::Line) => match command_of(kinds, pages, started, line.as_slice()) {
            Some(command) => Ok(Said::Command(command)),
            None => Ok(Said::Bad),
        },
        Ok(Next::End) => Ok(Said::End),
        Ok(Next::NoLine) => Ok(Said::Bad),
        Err(failed) => Err(failed),
    }
}
