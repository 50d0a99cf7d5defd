//! Processes over the pages of a B-link tree, as state machines: each says which action it does next, is told what that
//! action gave, and answers in the end. An action is one event on one page; between two of them any other process may act.
//!
//! Promised to whoever carries processes out: what a process does next, and where it goes by what it sees, is exactly
//! what `specs/` says of its state. The ways are those of Lehman and Yao, "Efficient locking for concurrent operations on
//! B-trees" (ACM TODS 6(4), 1981), with writers that wait for a latch only while they hold none, as in Sagiv, "Concurrent
//! operations on B*-trees with overtaking" (JCSS 33, 1986). Nothing is allocated, and a search carries no pages.
#![tactic(auto)]

mod kinds;
mod lowering;
mod parts;
mod reclaiming;
mod searching;

pub use bl_page::Words;
pub use bl_proc_compress::{Compress, CompressReply, CompressStage};
pub use bl_proc_routes::{Step, row_in, step_in};
pub use bl_proc_steps::{
    Action, Answer, Hint, Level, Lowered, Posted, Process, Reader, Reclaimed, Seen, Squeezed,
};
pub use kinds::Proc;
pub use lowering::{Lower, LowerStage};
pub use parts::{Direction, Part, PartRows, PartStage, PartStart, first_way};
pub use reclaiming::{Reclaim, ReclaimStage, Round};
pub use searching::{Find, FindStage};
