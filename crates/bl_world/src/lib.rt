//! Worlds of processes over plain pages: any list of turns of any processes, event by event.
//!
//! Promised to whoever wants to see an interleaving: each turn is one event of the page machine, by what its process does
//! next, and at every moment there is one legal history of the map in which each answered operation stands at its point.
//! No processes wait for one another in a circle, and a world that is left to itself comes to rest after few turns.
#![tactic(auto)]

mod carrying;
mod choosing;
mod lists;
mod looking;
mod opening;
mod owners;
mod ready;
mod settling;
mod turns;
mod walking;
mod world;

pub use owners::Owner;
pub use turns::{Act, Event, Turn, WorldFault};
pub use world::World;
