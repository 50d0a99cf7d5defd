//! What a process reads off a page of a B-link tree, from its value or from its words: where the way to a key leads, which row
//! has the key, which level the page is of, which page is the top; and the words of a page with a pair more, less, or another value.
//!
//! Promised to the processes above: what is read from words is what the page says that has these words, and words that are
//! made are those of the page that `bl_rearrange` makes. The way by links is that of Lehman and Yao, "Efficient locking for
//! concurrent operations on B-trees" (ACM TODS 6(4), 1981). Nothing is allocated.
#![tactic(auto)]

mod page_reads;
mod routes;
mod word_edits;
mod word_reads;

pub use page_reads::{count_of, level_of, levels_of, listed, low_of, top_page};
pub use routes::{Step, way_from};
pub use word_edits::{words_with, words_with_value, words_without};
pub use word_reads::{level_in, levels_in, row_in, step_in, top_in};
