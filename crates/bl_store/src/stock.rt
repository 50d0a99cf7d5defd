//! What a hand has reserved, and why a reservation is refused.

/// Frames, and at most one page, that a hand has reserved. It serves for as many puts as it has frames.
///
/// Its fields are public for who reserves. A put asks that they are what the hand has reserved, by `IsStockOf`.
#[derive(Drop)]
pub struct Stock {
    pub page: Option<u32>,
    /// The last of so many is used first.
    pub frames: [u32; 3],
    pub count: u32,
}

/// Why a reservation is refused. What was reserved for it has been given back.
#[derive(Clone, Copy, PartialEq, Eq, Debug)]
pub enum NoRoom {
    /// Each page from 1 upward was seen taken.
    Pages,
    /// Each frame that the call did not get was seen taken.
    Frames,
    /// The clock has come to its end, 2^60: the store is worn out for writers.
    Clock,
}

impl Stock {
    ghost use Rattle.std.specs.Prelude.{◌≡◌};

    /// The page that was reserved.
    pub fn page(&self) -> Option<u32>
        ensures { result ≡ self.now.page }
    {
        self.page
    }

    /// For how many more puts it serves.
    pub fn frames(&self) -> u32
        ensures { result ≡ self.now.count }
    {
        self.count
    }
}
