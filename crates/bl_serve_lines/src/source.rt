//! The lines of a reader, in constant memory: of requests, of rows that are loaded, and of scripts that are replayed.

ghost use Rattle.std.specs.Prelude.{◌≡◌, ℕ, ◌+◌, ◌-◌, ◌≤◌, ◌↔◌, length, List, [], ◌∷◌, ◌++◌, take, drop, true, IsTrue, IfOk, IfSome, OnErr, MatchResult};
ghost use Rattle.std.specs.Bool.{MatchBool};
ghost use Rattle.std.specs.Io.{ReadsAtMost};
ghost use Rattle.std.specs.Io.KnownBytes.{Consumes, IsAtEnd, Keeps};
ghost use Rattle.bl_serve_lines.specs.Lines.{HasNoLf};
ghost use Rattle.bl_serve_lines.specs.Streams.{CutsLine, GivesMore, IsFirstLine, ReadsSome};

use crate::request::LINE_LIMIT;
use arrayvec::ArrayVec;
use bl_model::{Failed, Watched};
use memchr::{memchr, memchr_iter};
use std::alloc::{AllocError, Global};
use std::io::{ErrorKind, Read};
use std::marker::Model;

/// How many bytes are read ahead at most.
const BUFFER: usize = 65_536;

/// How many bytes of a line are kept: one more than a request may have, so that a longer line shows.
pub const KEPT: usize = 70;

/// How a line was cut.
#[derive(Clone, Copy, Debug, PartialEq, Eq)]
pub enum Cut {
    /// A line of at most 69 bytes with its LF.
    Whole,
    /// A line of more bytes with its LF.
    Long,
    /// Bytes with no LF behind them.
    Rest,
    /// No byte is left.
    End,
}

/// Bytes that were read ahead, of requests, rows or a script alike.
#[derive(Drop)]
pub struct Source {
    bytes: Vec<u8>,
    from: usize,
    upto: usize,
}

// A clause sees the bytes that are read and not yet cut into lines.
impl Model for Source {
    ghost use Rattle.std.specs.Prelude.{◌≡◌, ℕ, ◌-◌, ◌≤◌, List, length, take, drop};

    ghost Value = { List ℕ };

    ghost view = { λ source. take (source.upto - source.from) (drop source.from source.bytes.items) };

    ghost invariant = { λ source. (source.from ≤ source.upto)
        × (source.upto ≤ length source.bytes.items) × (length source.bytes.items ≡ 65536) };
}

/// Puts the bytes behind the line, as far as there is room.
pub fn keep(line: &mut ArrayVec<u8, KEPT>, piece: &[u8])
    ensures { line.new.items ≡ take KEPT (line.old.items ++ piece.now) }
{
    let kept = piece.len().min(line.remaining_capacity());
    line.try_extend_from_slice(&piece[..kept]).unwrap();
}

/// Reads once, and again where the call was interrupted. Gives how many bytes are now at the front of the buffer; none only
/// where the reader is at its end, or the buffer has no room.
pub fn read_some<R: Read>(reader: &mut Watched<R>, buffer: &mut [u8]) -> Result<usize, Failed>
    ensures { ReadsSome result (R.remaining reader.old.inner) (R.remaining reader.new.inner) buffer.new
        (reader.new.failed ≡ true) }
{
    for _ in 0..u64::MAX {
        match reader.read(buffer) {
            Ok(count) => return Ok(count),
            Err(error) => {
                if error.kind() != ErrorKind::Interrupted {
                    return Err(Failed);
                }
            }
        }
    }
    Err(Failed)
}

impl Source {
    /// Nothing is read ahead. This makes the only buffer.
    pub fn new(alloc: Global) -> Result<Source, AllocError>
        ensures { IfOk result (λ source. source ≡ []) }
    {
        Ok(Source {
            bytes: vec![in alloc; 0; BUFFER]?,
            from: 0,
            upto: 0,
        })
    }

    /// Whether nothing is left of what was read ahead.
    fn is_empty(&self) -> bool
        ensures { IsTrue result ↔ (self.now ≡ []) }
    {
        self.from == self.upto
    }

    /// Reads ahead, where nothing is left.
    fn fill<R: Read>(&mut self, reader: &mut Watched<R>) -> Result<(), Failed>
        ensures { MatchResult result
            (λ _. Consumes (R.remaining reader.old.inner) (R.remaining reader.new.inner) self.new
            × (self.new ≡ [] → IsAtEnd (R.remaining reader.new.inner)))
            (λ _. Keeps (R.remaining reader.old.inner) (R.remaining reader.new.inner) × (self.new ≡ [])
            × (reader.new.failed ≡ true)) }
    {
        self.from = 0;
        self.upto = 0;
        self.upto = read_some(reader, self.bytes.as_mut_slice())?;
        Ok(())
    }

    /// Reads ahead where nothing is left, and says whether a byte is there.
    fn is_ready<R: Read>(&mut self, reader: &mut Watched<R>) -> Result<bool, Failed>
        ensures { (more : List ℕ)
            × Consumes (R.remaining reader.old.inner) (R.remaining reader.new.inner) more
            × GivesMore self.old more result self.new
            (IsAtEnd (R.remaining reader.new.inner)) (reader.new.failed ≡ true) }
    {
        if self.is_empty() {
            self.fill(reader)?;
        }
        Ok(!self.is_empty())
    }

    /// Takes the bytes before the first LF and that LF, or all bytes where there is none, and says whether there was
    /// one. The bytes before it go behind the line.
    fn take_piece(&mut self, line: &mut ArrayVec<u8, KEPT>) -> bool
        ensures { (piece : List ℕ) × HasNoLf piece
            × (line.new.items ≡ take KEPT (line.old.items ++ piece))
            × MatchBool result (self.old ≡ piece ++ 10 ∷ self.new) ((self.old ≡ piece) × (self.new ≡ [])) }
    {
        let ahead = &self.bytes[self.from..self.upto];
        match memchr(b'\n', ahead) {
            Some(place) => {
                keep(line, &ahead[..place]);
                self.from += place + 1;
                true
            }
            None => {
                keep(line, ahead);
                self.from = self.upto;
                false
            }
        }
    }

    /// The first line of what was read ahead, without its LF, where that LF was read too. Its end is looked for near its beginning
    /// first, since most lines are short.
    pub fn front(&self) -> Option<&[u8]>
        ensures { IfSome result (λ line. IsFirstLine line.now self.now) }
    {
        let ahead = &self.bytes[self.from..self.upto];
        let mut ends = memchr_iter(b'\n', ahead);
        let place = ends.next()?;
        Some(&ahead[..place])
    }

    /// Lets the first bytes go that were read ahead.
    pub fn pass_over(&mut self, count: usize)
        requires { count ≤ length self.old }
        ensures { self.new ≡ drop count self.old }
    {
        self.from += count;
    }

    /// Cuts the next line off. Its first bytes are put into `line`, and the others are let go.
    pub fn next_line<R: Read>(
        &mut self,
        reader: &mut Watched<R>,
        line: &mut ArrayVec<u8, KEPT>,
    ) -> Result<Cut, Failed>
        ensures { (bytes : List ℕ) × (more : List ℕ)
            × Consumes (R.remaining reader.old.inner) (R.remaining reader.new.inner) more
            × (line.new.items ≡ take KEPT bytes)
            × CutsLine (self.old ++ more) bytes result self.new
            (IsAtEnd (R.remaining reader.new.inner)) (reader.new.failed ≡ true) }
    {
        line.clear();
        for _ in 0..u64::MAX {
            if !self.is_ready(reader)? {
                return Ok(if line.is_empty() { Cut::End } else { Cut::Rest });
            }
            if self.take_piece(line) {
                return Ok(if line.len() <= LINE_LIMIT {
                    Cut::Whole
                } else {
                    Cut::Long
                });
            }
        }
        Ok(Cut::Rest)
    }
}
