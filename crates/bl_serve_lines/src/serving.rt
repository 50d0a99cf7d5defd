//! Which lines a server answers together, what it counts, and why it stops.

ghost use Rattle.std.specs.Prelude.{◌≡◌};
ghost use Rattle.bl_serve_lines.specs.Served.{after_lines, LinesAloneKeepOrder};
ghost use Rattle.bl_serve_lines.specs.declared.serving.ServeFault.TheVariants.{Memory};

use std::alloc::AllocError;
use thiserror::Error;

/// Which lines end a section.
#[derive(Clone, Copy, Debug, PartialEq, Eq)]
pub enum Sectioning {
    /// A `sync`.
    BySync,
    /// A `sync`, and the last one of so many lines, at least one: with 1 each line is a section of its own.
    AtMost(u64),
}

impl Sectioning {
    /// Which lines end a section of which so many are there already, and none of them has ended it.
    pub fn behind(self, lines: u64) -> Sectioning
        ensures { result ≡ after_lines self lines }
    {
        match self {
            Sectioning::BySync => Sectioning::BySync,
            Sectioning::AtMost(most) => Sectioning::AtMost(most.saturating_sub(lines)),
        }
    }
}

/// What was served.
#[derive(Clone, Copy, Debug, PartialEq, Eq)]
pub struct Totals {
    /// Lines of the input, the malformed ones and the syncs among them.
    pub requests: u64,
    /// Lines that spell no request.
    pub malformed: u64,
    /// Lines that are a `sync`.
    pub sections: u64,
}

/// Why the server stopped.
#[derive(Clone, Copy, Debug, PartialEq, Eq, Error)]
pub enum ServeFault {
    #[error("read failed")]
    Read,
    #[error("write failed")]
    Write,
    #[error("out of memory")]
    Memory,
    /// The least number of a line whose answer was not given back exactly once.
    #[error("lost request {0}")]
    Lost(u64),
}

impl From<AllocError> for ServeFault {
    ghost from_gives = { λ _ fault. fault ≡ Memory };

    fn from(_error: AllocError) -> ServeFault {
        ServeFault::Memory
    }
}

/// Says that where each line is a section, the history has the entries of the lines in their order. It does nothing when it runs.
pub fn lines_alone_keep_order()
    ensures { LinesAloneKeepOrder }
{}
