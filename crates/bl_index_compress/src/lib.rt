//! Compressions over the pages that threads share.
//!
//! Promised to the index: what a compression answers, with its hint, and that its process did what a compression does. It goes by its
//! events and by the words of the pages: two children are merged or evened out from words to words, so that no page is made of them, and
//! there is no process value. One that may not wait opens what it holds where it misses a latch, and gives up: it has not been done then.
#![tactic(auto)]

mod children;
mod compressing;
mod events;
mod families;
mod pages;
mod shares;
mod targets;

pub use compressing::{compress_children, try_compress};
