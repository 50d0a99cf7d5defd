//! What all processes over the pages of a B-link tree share: their actions, the way to the page that covers a key, the
//! change of a page with its split, and the growth of the tree by a level, each a small state machine.
//!
//! Promised to `bl_proc`, which builds each kind of process from them: what is done next, and what follows from what it
//! gave, is exactly what `specs/` says of the state. The ways are those of Lehman and Yao, "Efficient locking for
//! concurrent operations on B-trees" (ACM TODS 6(4), 1981), with writers that wait for a latch only while they hold none,
//! as in Sagiv, "Concurrent operations on B*-trees with overtaking" (JCSS 33, 1986). Nothing is allocated.
#![tactic(auto)]

mod acts;
mod approach;
mod approach_words;
mod descent;
mod edit;
mod edit_steps;
mod growth;
mod growth_steps;
mod lowering;
mod lowering_steps;
mod machine;
mod thin;

pub use acts::{Action, Seen};
pub use approach::{Approach, Approached, Came, approach_by};
pub use bl_answers::{Answer, Hint, Level, Lowered, Posted, Reclaimed, Squeezed};
pub use descent::{Descended, Descent};
pub use edit::{Edit, Edited, Full, Outcome, Splitting};
pub use edit_steps::{dropping, entering, replacing};
pub use growth::{Grew, Growth, Raising, Rise};
pub use lowering::{Lowering, Sank, Sinking, Summit};
pub use machine::{Process, Reader, took_page};
pub use thin::{hint_of_thin, thin_in, thin_low};
