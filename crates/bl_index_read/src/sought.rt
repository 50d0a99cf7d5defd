//! What is looked for at a leaf.

use bl_proc::Direction;

/// What a process that only looks goes down to a leaf for, by a key that the leaf covers.
#[derive(Clone, Copy)]
pub enum Sought {
    /// The value of the key: it is a search.
    Value,
    /// The rows from the key on, upwards or downwards: it is a part.
    Rows(Direction),
}
