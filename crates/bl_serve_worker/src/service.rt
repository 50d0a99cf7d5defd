//! What the threads of a server share.

use bl_hints::Hints;
use bl_serve_lines::Sectioning;
use std::alloc::Global;

/// What all threads of a server share for its whole life.
#[derive(Drop)]
pub struct Service<'a, G> {
    /// Hints that wait for a compressor.
    pub hints: &'a Hints,
    /// Each request goes through it.
    pub gate: &'a G,
    /// Whoever reads lines ends a section behind these.
    pub sections: Sectioning,
    /// Whether workers note the rows that their writes change.
    pub keeps: bool,
    pub alloc: Global,
}
