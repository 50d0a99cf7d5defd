//! Tests of maps with a log: what a commit puts there, what a crash leaves of it, and what is found when it is opened again.
//!
//! They stand apart from the crate that they test, which would be proved once more for them, and nothing else uses them.
#![tactic(auto)]

#[cfg(test)]
mod file;
#[cfg(test)]
mod logs;
