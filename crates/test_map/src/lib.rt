//! Tests of what programs call: the map of `bl_map`, by one thread and by two, from an image, and while rows come and go.
//!
//! They stand apart from what they test, and nothing else uses them. The index below has tests of its own, in `test_index`, and the seats of
//! C in `test_seats`.
#![tactic(auto)]

#[cfg(test)]
mod maps;
