//! Processes that write pairs, as state machines: the insertion, deletion or change of a key at its leaf, the post of a new page
//! in its parent, and the insertion or put that posts its splits itself, by the path that it remembers.
//!
//! Promised to `bl_proc`, which has them beside the other kinds: what a process does next, and where it goes by what it sees,
//! is exactly what `specs/` says of its state. A writer holds one latch at a time and waits for it while it holds none, as in
//! Sagiv, "Concurrent operations on B*-trees with overtaking" (JCSS 33, 1986). Nothing is allocated.
#![tactic(auto)]

mod insert_post;
mod insert_post_steps;
mod paths;
mod post;
mod post_steps;
mod walking;
mod writing;

pub use insert_post::{ClimbStage, Climbed, InsertPost, Placing};
pub use paths::Path;
pub use post::{Post, PostReply, PostStage};
pub use walking::Walk;
pub use writing::{Noted, Write, WriteReply, WriteStage};
