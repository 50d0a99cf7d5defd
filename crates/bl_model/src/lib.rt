//! Operations on one ordered map from `u64` keys to `u64` values, and their replies.
//!
//! Every other crate of the index stands on the definitions of this one: what an operation may answer, the map after
//! it, a part of a map, and a legal history (`specs/Map.antt`, `specs/History.antt`). `decide` says what a write of one
//! key does and answers by what the key has. `PlainMap` is the map at its
//! simplest, for tests and replay, and its contract is those definitions and nothing more. `Watched` tells a caller
//! whether a reader or a writer that it lends has failed; `write_text` and `write_out` write whole texts to one.
#![tactic(auto)]

pub mod deciding;
pub mod limits;
pub mod operation;
pub mod plain;
pub mod stream;
pub mod writing;

pub use deciding::{Decided, Effect, KeyWrite, decide};
pub use operation::{Entry, KeyReply, Next, Op, Reply};
pub use plain::PlainMap;
pub use stream::{Failed, Watched};
pub use writing::{write_out, write_text};
