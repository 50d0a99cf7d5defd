//! Writers over the pages that threads share: writes of one key, those that post what they split, and posts. What they have in common
//! is in `bl_index_edit`.
//!
//! Promised to the index: what each answers, with its hint, and that its process did what a process of its kind does. They go by their
//! events and by the words of the pages, so that no page is made of words that are only looked at. Where a tree is to get one more level,
//! which is rare, a post goes by a process value. A write of one key and a post may also go without waiting: they give up where they would
//! wait, and say where they stand; or they end there, and have not been done. A process that holds pages for few events is carried out so too.
#![tactic(auto)]

mod briefs;
mod carrying;
mod climbing;
mod posting;
mod rising;
mod spinning;
mod targets;
mod writing;

pub use briefs::Brief;
pub use carrying::carry_briefly;
pub use climbing::write_key_posting;
pub use posting::{post_key, post_within, try_post};
pub use spinning::Spinning;
pub use writing::{begin_write, end_write, try_write, write_key, write_within};
