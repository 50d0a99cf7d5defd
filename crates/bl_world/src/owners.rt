//! Owners of pages.

/// Who has a page.
#[derive(Clone, Copy, Debug, PartialEq, Eq)]
pub enum Owner {
    /// Nobody, so that it may be taken.
    Released,
    /// Anybody may latch it.
    Open,
    /// The process with that number.
    Held(usize),
    /// Nobody any more: it was retired by the event at that place.
    Retired(usize),
}
