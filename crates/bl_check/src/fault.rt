//! Why an image is not sound.

/// What the checker found.
#[derive(Clone, Copy, Debug, PartialEq, Eq)]
pub enum Fault {
    /// The least rule that is broken, 1 to 8, and the least page that breaks it.
    Rule { rule: u32, page: u32 },
    /// Memory was refused.
    Memory,
}
