//! One worker of the server: what a thread does by its handle of the index.
//!
//! A worker answers the lines of a share, one after another: it carries a request out and prints the reply. What a call takes and what
//! keeps the tree in order is `bl_map`'s, whose handles give back the hint that a change has left. A compressor follows the hints that
//! workers leave, and rests where none waits; where hints were dropped it looks at all pages. Behind the last line of the input the last handle
//! puts the index in order. A worker sweeps now and then, a compressor behind each hint.
//!
//! Promised to `bl_serve`, which makes threads of them: the work of a handle adds to what it has seen the entries of the lines that it
//! answered, in their order, and no others, and the output of a share prints their answers. How hints are followed, and when a handle
//! sweeps, adds no entry.
#![tactic(auto)]

mod adding;
mod answering;
mod aside;
mod chunk;
mod compressing;
mod gate;
mod saving;
mod scanning;
mod service;
mod wakeup;
mod working;

pub use chunk::{Chunk, Role, ShareOutput, Slot};
pub use compressing::follow_hint;
pub use gate::{Gate, OpenGate};
pub use service::Service;
pub use wakeup::Wakeup;
pub use working::work_on;
