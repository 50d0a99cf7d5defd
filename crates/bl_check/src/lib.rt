//! The checker of images: whether the pages of an index at rest are a sound tree.
//!
//! Promised to whoever opens an index from an image, or must trust a stored one: `check` is Ok exactly on the bytes of a
//! sound image, with numbers of it, and else names the least rule that is broken and the least page that breaks it;
//! `load` says the same, and `sound` of an image, and both give a `Quiet`, which is sound by its type. The rules stand in
//! `specs/Rules.antt`. Each page is looked at a fixed number of times, and each chain is walked once.
#![tactic(auto)]

mod anchor;
mod chains;
mod checker;
mod children;
mod counts;
mod dead;
mod fault;
mod laws;
mod quiet;
mod report;
mod span;

pub use checker::{check, load, sound};
pub use fault::Fault;
pub use laws::chains_end;
pub use quiet::Quiet;
pub use report::Report;
