//! Hints that could not be followed at once wait here: pages that are to be listed by a parent, and pages that are to be
//! merged or evened out. Workers give them, and compressors take them.
//!
//! Promised to both, whatever threads call: a hint to list a page stands only in one queue and a hint of a thin page only in
//! the other, each of 1,024 places, and what is taken from a queue is a hint of its kind. A queue that is full refuses, and
//! the hint is lost, and that one was is told to who asks. Which hints come out, in which order and how many, is not
//! promised, and need not be: a hint does no harm when it comes late, twice or not at all.
#![tactic(auto)]

mod hints;
mod kinds;

pub use hints::Hints;
