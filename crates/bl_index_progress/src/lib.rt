//! What the threads of an index wait for.
//!
//! The crate has no code: its one function is a law of the rule that every atomic step of every thread keeps. Behind the words of
//! an index stands one world, whose processes are the calls of all passes; so what is proved of good worlds holds of it.
#![tactic(auto)]

mod laws;

pub use laws::waits_end;
