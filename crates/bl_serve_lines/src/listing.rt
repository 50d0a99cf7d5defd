//! Which rows a line asks for.

ghost use Rattle.std.specs.Prelude.{◌≡◌};
ghost use Rattle.bl_serve_lines.specs.Scans.{is_before, key_above, key_below, less, limited, place_of, scan_of, wants_more};

/// Rows that a line asks for, or their number.
#[derive(Clone, Copy, Debug, PartialEq, Eq)]
pub enum Listing {
    /// Those from the first key on, below the second one, by rising keys: so many at most, if there is a limit.
    Scan(u64, u64, Option<u32>),
    /// All from the key on, by rising keys.
    ScanFrom(u64, Option<u32>),
    /// Those of a `Scan` with these keys, by falling keys.
    ScanDown(u64, u64, Option<u32>),
    /// All from the key on, by falling keys.
    ScanDownFrom(u64, Option<u32>),
    /// That of the least key.
    First,
    /// That of the greatest key.
    Last,
    /// That of the least key above this one.
    Next(u64),
    /// That of the greatest key below this one.
    Previous(u64),
    /// How many a `Scan` with these keys lists.
    Count(u64, u64),
}

/// Where a scan ends, and so whether its keys rise or fall.
#[derive(Clone, Copy, Debug, PartialEq, Eq)]
pub enum Until {
    /// They rise to the greatest one.
    Top,
    /// They rise, and are below this one.
    Below(u64),
    /// They fall to this one, which is among them.
    DownTo(u64),
}

/// What is told of the rows of a scan.
#[derive(Clone, Copy, Debug, PartialEq, Eq)]
pub enum Tells {
    /// All of them.
    All,
    /// The first ones, so many at most. No leaf is read that is not wanted for them.
    First(u64),
    /// How many there are.
    Count,
}

impl Until {
    /// Whether the key lies before the end.
    pub fn is_before(self, key: u64) -> bool
        ensures { result ≡ is_before self key }
    {
        match self {
            Until::Top => true,
            Until::Below(high) => key < high,
            Until::DownTo(low) => low <= key,
        }
    }
}

impl Tells {
    /// Whether rows are wanted.
    pub fn wants_more(self) -> bool
        ensures { result ≡ wants_more self }
    {
        match self {
            Tells::All | Tells::Count => true,
            Tells::First(most) => 0 < most,
        }
    }

    /// What is told behind so many rows.
    pub fn behind(self, met: u64) -> Tells
        ensures { result ≡ less self met }
    {
        match self {
            Tells::First(most) => Tells::First(most.saturating_sub(met)),
            Tells::All | Tells::Count => self,
        }
    }
}

/// A scan.
#[derive(Clone, Copy, Debug, PartialEq, Eq)]
pub struct Scan {
    /// The key from which it goes. Where there is none, it has no rows.
    pub from: Option<u64>,
    pub until: Until,
    pub tells: Tells,
}

impl Scan {
    /// The key from which it goes on: none, where it is over, or no rows are wanted.
    pub fn place(self) -> Option<u64>
        ensures { result ≡ place_of self }
    {
        let from = self.from?;
        if self.until.is_before(from) && self.tells.wants_more() {
            Some(from)
        } else {
            None
        }
    }
}

/// What is told of the rows of a scan that has this limit.
fn told_within(limit: Option<u32>) -> Tells
    ensures { result ≡ limited limit }
{
    match limit {
        None => Tells::All,
        Some(most) => Tells::First(u64::from(most)),
    }
}

/// The greatest key below this one.
fn below(key: u64) -> Option<u64>
    ensures { result ≡ key_below key }
{
    key.checked_sub(1)
}

/// The least key above this one.
fn above(key: u64) -> Option<u64>
    ensures { result ≡ key_above key }
{
    key.checked_add(1)
}

impl Listing {
    /// The scan that lists these rows.
    pub fn scan(self) -> Scan
        ensures { result ≡ scan_of self }
    {
        let (from, until, tells) = match self {
            Listing::Scan(low, high, limit) => {
                (Some(low), Until::Below(high), told_within(limit))
            }
            Listing::ScanFrom(low, limit) => (Some(low), Until::Top, told_within(limit)),
            Listing::ScanDown(low, high, limit) => {
                (below(high), Until::DownTo(low), told_within(limit))
            }
            Listing::ScanDownFrom(high, limit) => {
                (Some(high), Until::DownTo(0), told_within(limit))
            }
            Listing::First => (Some(0), Until::Top, Tells::First(1)),
            Listing::Last => (Some(u64::MAX), Until::DownTo(0), Tells::First(1)),
            Listing::Next(key) => (above(key), Until::Top, Tells::First(1)),
            Listing::Previous(key) => (below(key), Until::DownTo(0), Tells::First(1)),
            Listing::Count(low, high) => (Some(low), Until::Below(high), Tells::Count),
        };
        Scan { from, until, tells }
    }
}
