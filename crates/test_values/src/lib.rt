//! Tests of values, texts and processes: watched streams, the layout and the room of a store, images that are written and read again, refused memory in
//! the checker; request lines and their replies, and scripts; compressions that meet a latch, processes that release a page, and hints that
//! wait. Pages and what becomes of them, damaged images, the plain map, what processes read of a page and each other kind of process are
//! calls of `test_worked_values`, which cost no proof.
//!
//! They stand apart from the crates that they test, each of which would be proved once more for its tests, and nothing else uses them.
#![tactic(auto)]

#[cfg(test)]
mod checker;
#[cfg(test)]
mod compressions;
#[cfg(test)]
mod hints;
#[cfg(test)]
mod images;
#[cfg(test)]
mod layout;
#[cfg(test)]
mod lines;
#[cfg(test)]
mod model;
#[cfg(test)]
mod pages;
#[cfg(test)]
mod releases;
#[cfg(test)]
mod room;
#[cfg(test)]
mod scripts;
#[cfg(test)]
mod waiting;
