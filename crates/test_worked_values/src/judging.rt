//! Lines that are judged, one after another.

use crate::benches::Benches;
use crate::tally::{Tally, call_of};
use std::alloc::Global;
use std::io::Print;

/// What the calls are made on, and how many were answered as they should be.
#[derive(Drop)]
pub struct Judge {
    benches: Benches,
    tally: Tally,
}

impl Judge {
    /// Nothing was asked.
    pub fn new(alloc: Global) -> Judge {
        Judge {
            benches: Benches::new(alloc),
            tally: Tally::new(),
        }
    }

    /// Makes the call of a line, if it has one. An answer that is another than the line's is printed.
    pub fn judge<P: Print>(&mut self, rt: &P, alloc: Global, line: &str) -> anyhow::Result<()> {
        let Some((call, wanted)) = call_of(line) else {
            return Ok(());
        };
        let found = self.benches.answer(alloc, call)?;
        let is_right = found.as_slice() == wanted.as_bytes();
        if !is_right {
            show(rt, alloc, call, found.as_slice(), wanted)?;
        }
        self.tally = self.tally.with(is_right);
        Ok(())
    }

    /// Prints how many were right.
    pub fn sum_up<P: Print>(&self, rt: &P) -> anyhow::Result<()> {
        println!(rt;
            "{} of {} calls answered as they should",
            self.tally.right, self.tally.lines
        )?;
        Ok(())
    }
}

/// Prints a call that is answered otherwise.
fn show<P: Print>(
    rt: &P,
    alloc: Global,
    call: &str,
    found: &[u8],
    wanted: &str,
) -> anyhow::Result<()> {
    let found = String::from_utf8_lossy(alloc, found)?;
    println!(rt; "{call} = {found}, and not {wanted}")?;
    Ok(())
}
