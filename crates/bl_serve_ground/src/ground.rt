//! The index of a server, which may grow and shrink.

ghost use Rattle.std.specs.Prelude.{◌≡◌};
ghost use Rattle.bl_serve_ground.specs.Standing.{index_in};

use bl_index::Index;

/// How many pages an index of a server's own has.
#[derive(Clone, Copy, Debug, PartialEq, Eq)]
pub struct Limits {
    /// So many at least: with as many it began.
    pub least: u32,
    /// So many at most.
    pub most: u32,
}

/// The index on which a server works.
#[derive(Drop)]
pub enum Ground<'a> {
    /// One that was lent: it stays as it is.
    Lent(&'a Index),
    /// The server's own: it may go on with more pages or with fewer, within these limits.
    Own(Index, Limits),
}

impl Ground<'_> {
    /// The index.
    pub fn index(&self) -> &Index
        ensures { result.now ≡ index_in self.now }
    {
        match self {
            Ground::Lent(index) => index,
            Ground::Own(index, _) => index,
        }
    }
}
