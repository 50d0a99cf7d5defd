//! What the lines of a chunk ask for, counted as they are read.

ghost use Rattle.std.specs.Prelude.{◌≡◌, List, [], ◌∷◌, ◌++◌, Option, length, is_none, count_by, OnOk};
ghost use Rattle.bl_serve_reading.specs.Syncs.{is_sync};

use arrayvec::ArrayVec;
use bl_model::Op;
use bl_serve_lines::request::{Request, file_name};
use bl_serve_lines::source::{KEPT, keep};
use bl_serve_lines::{Wrong, wrong_in};
use std::alloc::{AllocError, Global};
use std::marker::Model;

/// A malformed line.
#[derive(Clone, Copy, Debug, PartialEq, Eq)]
pub struct Malformed {
    /// How many lines stand before it.
    pub place: usize,
    pub wrong: Wrong,
}

/// A line that names a file.
#[derive(Debug, PartialEq, Eq, Drop)]
pub struct Named {
    /// How many lines stand before it.
    pub place: usize,
    /// The file's name, byte by byte.
    pub name: ArrayVec<u8, KEPT>,
}

/// What lines ask for, in their order; None stands for a malformed one. Whoever reads them counts them too: else the thread that does
/// so would go over all of them once more while no other works.
#[derive(Drop)]
pub struct ParsedLines {
    requests: Vec<Option<Request>>,
    malformed: usize,
    first_malformed: Option<Malformed>,
    names: Vec<Named>,
    syncs: usize,
    operations: usize,
    deletions: usize,
    insertions: usize,
}

// A clause sees what the lines ask for. Of the counts it sees how many lines are malformed, and how many are a sync: what the others
// say decides only how many threads there are.
impl Model for ParsedLines {
    ghost use Rattle.std.specs.Prelude.{◌≡◌, List, Option, is_none, count_by};
    ghost use Rattle.bl_serve_lines.specs.declared.request.Request.{Request};
    ghost use Rattle.bl_serve_reading.specs.Syncs.{is_sync};

    ghost Value = { List (Option Request) };

    ghost view = { λ lines. lines.requests.items };

    ghost invariant = { λ lines. (lines.malformed ≡ count_by is_none lines.requests.items)
        × (lines.syncs ≡ count_by is_sync lines.requests.items) };
}

/// A malformed line behind so many others.
fn malformed_at(place: usize, line: &[u8]) -> Malformed {
    Malformed {
        place,
        wrong: wrong_in(line),
    }
}

/// A line of a save behind so many others.
fn named_at(place: usize, line: &[u8]) -> Option<Named> {
    let mut name = ArrayVec::new();
    keep(&mut name, file_name(line)?);
    Some(Named { place, name })
}

impl ParsedLines {
    /// No lines.
    pub fn new(alloc: Global) -> ParsedLines
        ensures { result ≡ [] }
    {
        ParsedLines {
            requests: Vec::new(alloc),
            malformed: 0,
            first_malformed: None,
            names: Vec::new(alloc),
            syncs: 0,
            operations: 0,
            deletions: 0,
            insertions: 0,
        }
    }

    /// Puts a line behind the others. Of a malformed one and of a save these are its bytes before the LF, as far as they are kept; of others
    /// they are not wanted.
    pub fn push(&mut self, request: Option<Request>, line: &[u8]) -> Result<(), AllocError>
        ensures { OnOk result (self.new ≡ self.old ++ request ∷ []) }
    {
        let place = self.requests.len();
        self.requests.push(request)?;
        match request {
            None => {
                self.first_malformed = self.first_malformed.or(Some(malformed_at(place, line)));
                self.malformed += 1;
            }
            Some(Request::Sync) => self.syncs += 1,
            Some(Request::Save) => {
                self.operations = self.operations.saturating_add(1);
                self.names.extend(named_at(place, line))?;
            }
            Some(Request::Ask(Op::Delete(_))) => {
                self.operations = self.operations.saturating_add(1);
                self.deletions = self.deletions.saturating_add(1);
            }
            Some(Request::Ask(Op::Insert(_, _) | Op::Put(_, _))) => {
                self.operations = self.operations.saturating_add(1);
                self.insertions = self.insertions.saturating_add(1);
            }
            Some(_) => self.operations = self.operations.saturating_add(1),
        }
        Ok(())
    }

    /// Lets all lines go. The room for them stays.
    pub fn clear(&mut self)
        ensures { self.new ≡ [] }
    {
        self.requests.clear();
        self.malformed = 0;
        self.first_malformed = None;
        self.names.clear();
        self.syncs = 0;
        self.operations = 0;
        self.deletions = 0;
        self.insertions = 0;
    }

    /// What the lines ask for, in their order: none where a line is malformed.
    pub fn as_slice(&self) -> &[Option<Request>]
        ensures { result.now ≡ self.now }
    {
        self.requests.as_slice()
    }

    /// How many lines there are.
    pub fn len(&self) -> usize
        ensures { result ≡ length self.now }
    {
        self.requests.len()
    }

    /// How many of the lines are malformed.
    pub fn malformed(&self) -> usize
        ensures { result ≡ count_by is_none self.now }
    {
        self.malformed
    }

    /// The first one of these. It is tested, and in no clause.
    pub fn first_malformed(&self) -> Option<Malformed> {
        self.first_malformed
    }

    /// The lines that name a file, in their order. They are tested, and in no clause.
    pub fn names(&self) -> &[Named] {
        self.names.as_slice()
    }

    /// How many of them are a sync.
    pub fn syncs(&self) -> usize
        ensures { result ≡ count_by is_sync self.now }
    {
        self.syncs
    }

    /// How many ask for something that a worker does.
    pub fn operations(&self) -> usize {
        self.operations
    }

    /// How many of these delete.
    pub fn deletions(&self) -> usize {
        self.deletions
    }

    /// How many of these may enter a key.
    pub fn insertions(&self) -> usize {
        self.insertions
    }
}
