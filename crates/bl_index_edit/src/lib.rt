//! What a writer does at the page that it holds, a leaf or a parent, over the pages that threads share.
//!
//! Promised to `bl_index_write`, whose writers these are: at its leaf a writer writes as the decision says, and at a parent it lists a
//! child, each time by a put that the process of that writer makes there, and opens the page then. A page that is full is split: the new
//! page is put first. All goes by the words of pages, and no page is made of words that are only looked at. Who writes at a leaf, and who
//! posts at a parent, is a trait here, so that a write, a post and an insertion that posts share what they have in common.
#![tactic(auto)]

mod editors;
mod halves;
mod leaves;
mod parents;
mod placing;
mod posters;
mod splitting;
mod walks;
mod writers;

pub use leaves::write_there;
pub use parents::post_there;
pub use posters::Poster;
pub use walks::{Far, post_there_within};
pub use writers::{Left, Writer};
