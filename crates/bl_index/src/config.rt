//! How an index is made, and what may be refused.

/// How large an index is.
#[derive(Clone, Copy, Debug, PartialEq, Eq)]
pub struct Config {
    /// How many pages there are, 4 to 65,536, and up to 2^28 of a large index.
    pub pages: u32,
    /// How many passes there are, 1 to 64: one for each thread that works at once.
    pub passes: u32,
}

/// Why an index could not be made.
#[derive(Clone, Copy, Debug, PartialEq, Eq)]
pub enum OpenFault {
    /// The number of pages is not 4 to 65,536, or of a large index not 4 to 2^28.
    Pages,
    /// The number of passes is not 1 to 64.
    Passes,
    /// There was no memory.
    Memory,
}

/// Why an index could not be closed.
#[derive(Clone, Copy, Debug, PartialEq, Eq)]
pub enum CloseFault {
    /// A pass is missing.
    Pass,
    /// There was no memory.
    Memory,
}

/// Why an index does not go on with so many pages.
#[derive(Clone, Copy, Debug, PartialEq, Eq)]
pub enum ResizeFault {
    /// The number of pages is smaller than it was, or larger than 2^28.
    Pages,
    /// A pass is missing.
    Pass,
    /// There was no memory.
    Memory,
}
