//! Turns, and the events that they are.

/// A turn of the process with that number. Numbers count from 1.
#[derive(Clone, Copy, Debug, PartialEq, Eq)]
pub enum Turn {
    /// Its next action, unless that is to take a page.
    Step(usize),
    /// It is to take a page, and this is the page.
    Take(usize, u32),
    /// What it is about to reserve is refused.
    Refuse(usize),
}

/// An event, by what it did to which page.
#[derive(Clone, Copy, Debug, PartialEq, Eq)]
pub enum Act {
    Begin,
    End,
    Get(u32),
    Put(u32),
    Latch(u32),
    Take(u32),
    Open(u32),
    Retire(u32),
    /// It looked at a process.
    Look(usize),
    /// It looked at a page's owner.
    See(u32),
    Release(u32),
    /// Nothing was changed but the state of the process itself, where it missed a latch or a release or was refused.
    Miss,
}

/// One event of the process with that number.
#[derive(Clone, Copy, Debug, PartialEq, Eq)]
pub struct Event {
    pub process: usize,
    pub act: Act,
}

/// Why a world could not be made, or did not go on.
#[derive(Clone, Copy, Debug, PartialEq, Eq)]
pub enum WorldFault {
    /// There was no memory. What stands is what stood after the turns before.
    Memory,
    /// A turn is of a process that was not started. No turn was carried out.
    NoSuchProcess,
    /// The number of pages is not 4 to 65,536.
    BadPages,
}
