//! Tests of logs of what a map has changed: their bytes, what a crash leaves of them, what is refused, and a log in a folder.
//!
//! They stand apart from the crates that they test, each of which would be proved once more for its tests, and nothing else uses them.
#![tactic(auto)]

#[cfg(test)]
mod files;
#[cfg(test)]
mod logs;
