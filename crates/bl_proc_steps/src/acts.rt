//! What a process does, and what it is told of it.

use bl_page::Page;

/// The next action of a process: one event, mostly on the page with that number.
#[derive(Drop)]
pub enum Action {
    /// Begins; no page that is retired from then on is released before the process has ended.
    Begin,
    /// Ends.
    End,
    /// Reads the page.
    Get(u32),
    /// Writes the page, which the process holds.
    Put(u32, Page),
    /// Tries to become the page's holder.
    Latch(u32),
    /// Becomes the holder of a page that nobody uses.
    Take,
    /// Lets go of the page.
    Open(u32),
    /// Lets go of the page for good, as no page names it any more.
    Retire(u32),
    /// Looks at the process with that number: may it still read what was retired?
    Look(usize),
    /// Looks at the page's owner.
    See(u32),
    /// Looks whether the page is open. It may be any page, also one of which the process knows nothing.
    Probe(u32),
    /// Makes the retired page one that may be taken.
    Release(u32),
}

/// What an action gave.
#[derive(Drop)]
pub enum Seen {
    /// It is done.
    Done,
    /// The page that was read.
    Words(Page),
    /// The number of the page that was taken.
    Took(u32),
    /// The owner of the page that was looked at.
    Owner {
        /// The page is retired.
        retired: bool,
        /// How many processes have been started.
        started: usize,
        /// The number of the process that looks.
        own: usize,
    },
    /// The page that was looked at is open.
    Probed(bool),
    /// The process that was looked at may still read what was retired.
    Blocks(bool),
    /// The page was not there to be latched or released.
    Missed,
    /// What the action needs could not be reserved.
    Refused,
}
