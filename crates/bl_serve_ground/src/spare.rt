//! What is known of the room of an index.

ghost use Rattle.std.specs.Prelude.{◌≡◌, ◌+◌, ◌-◌, ◌^◌, ◌<◌, ◌≤◌, min, true};

/// What is known of the room of an index while nobody works.
#[derive(Clone, Copy, Debug, PartialEq, Eq)]
pub struct Spare {
    /// So many pages are free, as they are counted.
    pub free: u64,
    /// So many were to be free for insertions, lately.
    pub wanted: u64,
    /// Memory for a larger index was refused, so it is not asked for again before the index has shrunk.
    pub is_refused: bool,
    /// Rows were not laid out anew in fewer pages, so that is not tried again.
    pub is_fixed: bool,
}

/// Of what was wanted, each chunk of lines forgets such a part: a size is kept for a while, though some chunks want less.
const FORGOTTEN: u64 = 16;

impl Spare {
    /// So many pages are free, and nothing was wanted yet.
    pub fn new(free: u64) -> Spare {
        Spare {
            free,
            wanted: 0,
            is_refused: false,
            is_fixed: false,
        }
    }

    /// The same where so many pages are free by now.
    pub fn having(self, free: u64) -> Spare {
        Spare { free, ..self }
    }

    /// How many are used, of so many.
    pub(crate) fn used(self, pages: u32) -> u64
        ensures { result ≡ pages - self.free }
    {
        u64::from(pages).saturating_sub(self.free)
    }

    /// The same where so many are wanted by now.
    pub(crate) fn wanting(self, wanted: u64) -> Spare {
        let lately = self.wanted.saturating_sub(1 + self.wanted / FORGOTTEN);
        Spare {
            wanted: lately.max(wanted),
            ..self
        }
    }

    /// Behind an attempt to have so many pages in place of those before, after which there are so many.
    pub(crate) fn behind(self, before: u32, wanted: u32, pages: u32) -> Spare
        ensures refused { pages < wanted → result.is_refused ≡ true }
        ensures free { min (2 ^ 64 - 1) (self.free + (pages - before)) ≤ result.free }
    {
        let more = pages.saturating_sub(before);
        Spare {
            free: self.free.saturating_add(u64::from(more)),
            is_refused: pages < wanted,
            ..self
        }
    }
}
