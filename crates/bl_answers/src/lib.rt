//! What a process over the pages of a B-link tree answers, and the hint that it may leave for another one.
//!
//! Promised to the processes, which make answers, and to `bl_claims`, which says what each means: types alone, with the words
//! for the hints that a page, a split or a post leaves. A level is 1 to 12, and what a hint names is what it was made with.
//! Nothing is allocated.
#![tactic(auto)]

mod answers;

pub use answers::{Answer, Hint, Level, Lowered, Posted, Reclaimed, Squeezed};
