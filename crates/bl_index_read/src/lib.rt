//! Searches over the pages that threads share: of a key, and of a part of the map, which is the rows of one leaf.
//!
//! Promised to the index: what a search answers, with its entry at its point, or that it ran out of turns; and how many pages it
//! got. Both go by their events, and what they answer is read from their leaf's words, so a scan that lists many parts makes no page
//! of any.
#![tactic(auto)]

mod cutting;
mod finding;
mod leaf_rows;
mod leaf_ways;
mod listing;
mod sinks;
mod sought;

pub use cutting::{Cut, first_rows};
pub use finding::{OutOfTurns, find_from, find_key, find_keys};
pub use leaf_rows::{Behind, Portion, give_rows, portion_in, portion_toward};
pub use leaf_ways::{descend_to_leaf, descend_to_page, end_at_leaf, set_off, set_off_keeping};
pub use listing::{fetch_behind, go_behind, list_part};
pub use sinks::{Appending, Sink, Telling};
pub use sought::Sought;
