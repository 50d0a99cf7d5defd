//! Ranges over the pages that threads share: the rows between two keys, as the map had them at one moment.
//!
//! Promised to the index: a range that ends has the rows that the map had where the last of its parts stands in the history, all of them,
//! behind those that there were; it has begun again no oftener than it was allowed. One that stops says why, and leaves the rows of before.
//! A leaf that was put since it was read is read again, and those behind it.
#![tactic(auto)]

mod ranging;

pub use ranging::{Gathering, Kept, RangeFault, RangeLimits, gather};
