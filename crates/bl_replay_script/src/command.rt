//! Scripts and their commands.

use bl_model::Op;

/// A process that a script starts.
#[derive(Clone, Copy, Debug, PartialEq, Eq)]
pub enum Start {
    /// An operation on the map.
    Operation(Op),
    /// A search, which looks at a page first.
    FindNear {
        /// The key.
        key: u64,
        /// The page, from which its way may be short.
        page: u32,
    },
    /// A part of the map, which looks at a page first.
    PartNear {
        /// The key that it begins with.
        from: u64,
        /// The page, from which its way may be short.
        page: u32,
    },
    /// Inserts a key, and posts what it splits.
    InsertPost {
        /// The key.
        key: u64,
        /// Its value.
        value: u64,
    },
    /// Puts a key, and posts what it splits.
    PutPost {
        /// The key.
        key: u64,
        /// Its value.
        value: u64,
    },
    /// Lists a child in its parent.
    Post {
        /// The level of the parent, 1 to 12.
        level: u32,
        /// The least key of the child.
        key: u64,
    },
    /// Merges two neighbours or evens them out.
    Compress {
        /// The level of their parent, 1 to 12.
        level: u32,
        /// A key that the parent covers.
        key: u64,
    },
    /// Releases this page, if it is retired and no process may still read it.
    Reclaim(u32),
    /// Takes the top level away, if that is one page with one pair.
    Lower,
}

/// A line of a script behind the first. Processes are numbered from 1, in the order in which they are started.
#[derive(Clone, Copy, Debug, PartialEq, Eq)]
pub enum Command {
    /// Starts a process.
    Start(Start),
    /// One turn of a process. A take tries the least released page.
    Turn(u64),
    /// One turn of a process. A take tries this page; at another action the page is not looked at.
    TurnAt(u64, u32),
    /// One turn in which a process is refused what it is about to reserve.
    Refuse(u64),
    /// Turns of a process, at most so many, until it has answered.
    Run(u64, u64),
    /// Turns of processes that wait for none, at most so many, until all have answered.
    Settle(u64),
}

/// A whole script.
#[derive(Debug, PartialEq, Eq, Drop)]
pub struct Script {
    /// How many pages there are, 4 to 65,536.
    pub pages: u32,
    /// The lines behind the first.
    pub commands: Vec<Command>,
}

/// Which kinds of process a script may start, beside searches, insertions, deletions, changes and posts.
#[derive(Clone, Copy, Debug, PartialEq, Eq)]
pub struct Kinds {
    /// `part`, `partdown` and `partnear` lines.
    pub part: bool,
    /// `compress` lines.
    pub compress: bool,
    /// `reclaim` lines.
    pub reclaim: bool,
    /// `lower` lines.
    pub lower: bool,
}
