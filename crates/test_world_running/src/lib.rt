//! What a process of a world that runs may do and answer, by the plain walks of `test_world_walks` and apart from all definitions and
//! proofs. What it promises is in the words of each law that it finds broken.
#![tactic(auto)]

mod compressions;
mod running;

pub use compressions::{Compression, Way};
pub use running::{Job, Running, hint_of, is_to_post};
