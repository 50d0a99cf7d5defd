//! The steps of one process over the pages that threads share: each is one event of the store, and what a hand knows after it.
//!
//! Promised to the crates of readers and writers: an event is that of the process which the hand runs, and the process then stands
//! where it has to, whatever the event gave. A process that has a value goes by [`Tree::step`], one event at a time, or by
//! [`Tree::carry_out`] from its begin to its end; one that has none goes by its events alone, as [`Tree::look`], and its hand knows
//! where it stands. Nothing here knows passes.
#![tactic(auto)]

mod carrying;
mod events;
mod fetching;
mod frame_view;
mod guessing;
mod kinds;
mod pausing;
mod running;
mod stepping;
mod sweeping;
mod tree;

pub use fetching::ABREAST;
pub use frame_view::FrameView;
pub use kinds::Kind;
pub use pausing::Pause;
pub use stepping::Stepped;
pub use tree::Tree;
