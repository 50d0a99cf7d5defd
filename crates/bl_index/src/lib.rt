//! An ordered index from `u64` keys to `u64` values that many threads use at once: the B-link tree of Lehman and Yao,
//! "Efficient locking for concurrent operations on B-trees" (ACM TODS 6(4), 1981), with the inserter and the
//! compression of Sagiv, "Concurrent operations on B*-trees with overtaking" (JCSS 33, 1986), over a store of pages.
//!
//! Each thread works with a [`Pass`], which knows all that has happened in the index up to its own last event. Promised
//! to its caller: after each call there is one legal list of events and one legal history of the map, in which each
//! answer stands at its point; both begin with those that the pass knew before, and the call's own entry is the only new
//! one of this pass. A call that may give up and gives no answer was not done, and adds none. The events begin with what
//! the index began with: with nothing, or with the pages of a sound image, and so with the map of its rows. A post, a
//! compression, a lowering and a sweep have no entry; what the first three answer, and their hints, mean what they did.
#![tactic(auto)]

mod climbing;
mod closing;
mod compressing;
mod config;
mod editing;
mod finding;
mod image_words;
mod index;
mod limiting;
mod listing;
mod lowering;
mod meeting;
mod opening;
mod posting;
mod ranging;
mod resizing;
mod scanning;
mod sweeping;

pub use bl_index_events::ABREAST;
pub use bl_index_range::{Kept, RangeFault, RangeLimits};
pub use bl_index_read::{Appending, OutOfTurns, Sink, Telling};
pub use bl_model::{KeyReply, KeyWrite, Next, Reply};
pub use bl_proc::{Direction, Hint, Level, Lowered, Posted, Squeezed};
pub use bl_reserve::RoomSeen;
pub use closing::CloseRoom;
pub use config::{CloseFault, Config, OpenFault, ResizeFault};
pub use index::{Index, Pass};
pub use limiting::ScanLimits;
pub use resizing::{Unresized, lives_are_one_history};
pub use scanning::{OutOfTurnsAt, ScanFault};
