//! The process that compresses: it merges two neighbouring children of a parent, or evens them out, and retires a page that
//! was merged away.
//!
//! Promised to `bl_proc`: what a compression does next, and what follows from what that gave, is exactly what `specs/` says of
//! its state. The idea of compression processes that hold a parent and two of its children is Sagiv's, "Concurrent operations
//! on B*-trees with overtaking" (JCSS 33, 1986). Nothing is allocated.
#![tactic(auto)]

mod compress;
mod compress_steps;
mod compression;
mod compression_steps;
mod families;

pub use bl_rearrange::{Family, Siblings};
pub use compress::{Compress, CompressReply, CompressStage};
pub use compression::{Compressed, Compression, Decision, Puts};
