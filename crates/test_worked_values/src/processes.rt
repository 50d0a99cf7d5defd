//! Calls on processes, by their words.

use crate::saying::said;
use crate::trees::{Tree, miss, refuse};
use crate::words::numbers_in;
use bl_proc::{Find, Proc};
use std::alloc::{AllocError, Global};

/// More turns than any process of a small tree has.
const ENOUGH: u64 = 99;

/// The tree, the process that waits, and the search that is told of words.
#[derive(Drop)]
pub struct Bench {
    tree: Tree,
    waits: Option<Proc>,
    seeks: Find,
}

/// The process that the words name.
fn process_of(call: &str, numbers: &[u64]) -> Option<Proc> {
    match (call, numbers) {
        ("find", [key]) => Some(Proc::find(*key)),
        ("insert", [key, value]) => Some(Proc::insert(*key, *value)),
        ("delete", [key]) => Some(Proc::delete(*key)),
        ("change", [key, old, new]) => Some(Proc::change(*key, *old, *new)),
        ("part", [key]) => Some(Proc::part(*key)),
        ("lower", []) => Some(Proc::lower()),
        (_, [level, key]) => helper_of(call, *level, *key),
        _ => None,
    }
}

fn helper_of(call: &str, level: u64, key: u64) -> Option<Proc> {
    if level == 0 || level > 12 {
        return None;
    }
    match call {
        "post" => Some(Proc::post(level as u32, key)),
        "compress" => Some(Proc::compress(level as u32, key)),
        _ => None,
    }
}

fn done(alloc: Global, is_done: bool) -> Result<Vec<u8>, AllocError> {
    said(alloc, if is_done { "done" } else { "not fit" })
}

/// Makes a call on the process that waits.
fn go_on(
    alloc: Global,
    tree: &mut Tree,
    process: &mut Proc,
    call: &str,
    numbers: &[u64],
) -> Result<Vec<u8>, AllocError> {
    match (call, numbers) {
        ("go", [most]) => tree.run(alloc, process, *most),
        ("refuse", []) => done(alloc, refuse(process)),
        ("miss", []) => done(alloc, miss(process)),
        _ => said(alloc, "no such call"),
    }
}

impl Bench {
    /// There are no pages yet.
    pub fn new(alloc: Global) -> Bench {
        Bench {
            tree: Tree::empty(alloc),
            waits: None,
            seeks: Find::new(0),
        }
    }

    /// Makes the call, and says what it gives.
    pub fn answer(&mut self, alloc: Global, line: &str) -> Result<Vec<u8>, AllocError> {
        let (call, rest) = line.split_once(' ').unwrap_or((line, ""));
        let numbers = numbers_in(alloc, rest)?;
        match call {
            "wait" => self.wait(alloc, rest, numbers.as_slice()),
            _ => self.make(alloc, call, numbers.as_slice()),
        }
    }

    /// Makes a call of these numbers.
    fn make(&mut self, alloc: Global, call: &str, numbers: &[u64]) -> Result<Vec<u8>, AllocError> {
        match (call, numbers) {
            ("opening", []) => self.open(alloc),
            ("page", [number]) => self.tree.show(alloc, *number),
            ("put", [number, words @ ..]) => self.tree.put(alloc, *number, words),
            ("seek", [key]) => self.begin_search(alloc, *key),
            ("seek-on", [most]) => self.tree.seek(alloc, &mut self.seeks, *most),
            _ => self.run(alloc, call, numbers),
        }
    }

    /// The pages of an opening tree are in place of those before.
    fn open(&mut self, alloc: Global) -> Result<Vec<u8>, AllocError> {
        self.tree = Tree::opening(alloc)?;
        said(alloc, "done")
    }

    /// Begins a search that is told of words.
    fn begin_search(&mut self, alloc: Global, key: u64) -> Result<Vec<u8>, AllocError> {
        self.seeks = Find::new(key);
        said(alloc, "done")
    }

    /// Starts a process that waits.
    fn wait(&mut self, alloc: Global, rest: &str, numbers: &[u64]) -> Result<Vec<u8>, AllocError> {
        let kind = rest.split_whitespace().next().unwrap_or("");
        self.waits = process_of(kind, numbers);
        done(alloc, self.waits.is_some())
    }

    /// Runs a process, or the one that waits.
    fn run(&mut self, alloc: Global, call: &str, numbers: &[u64]) -> Result<Vec<u8>, AllocError> {
        match process_of(call, numbers) {
            Some(mut process) => self.tree.run(alloc, &mut process, ENOUGH),
            None => self.go_on(alloc, call, numbers),
        }
    }

    /// Runs the process that waits.
    fn go_on(&mut self, alloc: Global, call: &str, numbers: &[u64]) -> Result<Vec<u8>, AllocError> {
        match &mut self.waits {
            Some(process) => go_on(alloc, &mut self.tree, process, call, numbers),
            None => said(alloc, "nothing waits"),
        }
    }
}
