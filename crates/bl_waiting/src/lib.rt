//! A queue of hints: those that could not be followed at once wait here, the oldest first.
//!
//! Promised to handles and seats, of which each has one: a hint that is kept waits behind the others, and the oldest comes out first, once.
//! Where 32 wait a further one is dropped, and counted, so none is lost unseen (`specs/Queue`). Nothing is allocated.
#![tactic(auto)]

mod waiting;

pub use waiting::Waiting;
