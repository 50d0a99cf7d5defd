//! The calls on values, and behind a line of their own those on processes.

use crate::saying::said;
use crate::{calls, processes};
use std::alloc::{AllocError, Global};

/// What the calls on values and those on processes are made on, and which of them are made now.
#[derive(Drop)]
pub struct Benches {
    values: calls::Bench,
    processes: processes::Bench,
    on_processes: bool,
}

impl Benches {
    /// The first calls are on values.
    pub fn new(alloc: Global) -> Benches {
        Benches {
            values: calls::Bench::new(alloc),
            processes: processes::Bench::new(alloc),
            on_processes: false,
        }
    }

    /// Makes the call, and says what it gives.
    pub fn answer(&mut self, alloc: Global, line: &str) -> Result<Vec<u8>, AllocError> {
        if line == "processes" {
            self.on_processes = true;
            return said(alloc, "chosen");
        }
        if self.on_processes {
            self.processes.answer(alloc, line)
        } else {
            self.values.answer(alloc, line)
        }
    }
}
