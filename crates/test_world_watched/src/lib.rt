//! What `test_world` watches in worlds that it draws: their processes, the owners of their pages, and how often each kind of thing was met.
//!
//! A world shows its events and answers, and not its pages. So a plain model takes the same turns, step by step, without the
//! world: each event and each answer of the world has to be the model's, and the walks go over the model's pages.
#![tactic(auto)]

mod crew;
mod model;
mod owners;
mod tally;
mod twins;

pub use crew::{
    Crew, change_of, goes_on, lists_first, lists_own, lowers, parts, puts_in_compression,
};
pub use owners::{held_page, keeps_owners, number_of, owns, page_of};
pub use tally::{NONE, Pages, Tally, one_more};
pub use twins::Twins;
