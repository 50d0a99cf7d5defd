//! How a writer comes down to the page that it changes, over the pages that threads share.
//!
//! Promised to those that write and compress: a writer comes to the page of its level that covers its key, and holds it then, or gives up
//! before it waits, and holds none. One that looks for a parent may come to the anchor of a tree that has no such level. All goes by the
//! words of pages, and no page is made of them. What a writer comes for is a trait here, and what begins there another, so that a write, a
//! post, an insertion that posts and a compression share the way.
#![tactic(auto)]

mod coming;
mod reaching;
mod targets;

pub use coming::{begin_descent, descend, descend_within};
pub use reaching::{Neared, Reached, reach, reach_within};
pub use targets::{Target, Unborn};
