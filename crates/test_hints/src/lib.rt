//! Tests of a compressor's step in the server: the hints that writes leave are followed, and what is left of them.
//!
//! They stand apart from `bl_serve`, and nothing else uses them. What the server writes is tested in `test_serve`.
#![tactic(auto)]

#[cfg(test)]
mod hints;
