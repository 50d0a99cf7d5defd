//! Threads work at a map in rounds, and between two rounds it grows: for a program that chooses no size, and whose threads can stop.
//!
//! Promised to its caller: in each round each job that is not done has a turn, by a handle of its own, and does there what its [`Job`] says;
//! one that is done has none. Behind a round that leaves work a map of twice as many pages goes on with the rows that this one has, as
//! [`bl_map::Map::resize`] says, so the lives of all rounds are one history. It ends once all jobs are done, or behind the round that
//! follows the last growth, and each job comes back with whether it is done.
#![tactic(auto)]

mod fault;
mod job;
mod rounds;
mod working;

pub use fault::{Unworked, WorkFault};
pub use job::{Job, Task};
pub use working::work;
