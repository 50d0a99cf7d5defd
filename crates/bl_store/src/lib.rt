//! A store of fixed-size pages that many threads read without waiting and write under one latch a page.
//!
//! A page is 32 words of 64 bits. Its contents stand in a frame, which is written once and named by the
//! page's word, so a reader takes one word and then copies at leisure. Frames that a put swaps out, and
//! pages that are retired, are used again only when no process is left that may still read them: each hand
//! stamps its process word with the clock when it begins, and a sweep looks at all process words.
//!
//! A user states a rule over the words and owners of all pages, the time, and what each hand knows
//! ([`PageRule`]). The rule holds between any two events. Each call is one event, and asks only that the
//! user's rule survives it; [`Store::renew`] is two, an end and a begin, at one load. What the event tells
//! the hand is the caller's choice ([`PagePlay`] and its kin). No call waits, and none takes memory once the
//! store is made. A hand may learn of another that it meets ([`MeetPlay`]), and at the end all hands come
//! back for the words of all pages.
//!
//! These are the calls that begin and end, read, latch and put, and release what nobody can read any more. Those that reserve what
//! is put are of `bl_reserve`, which stands on this crate's public fields.
//!
//! The latches and right links that such pages serve are those of Lehman and Yao, "Efficient locking for
//! concurrent operations on B-trees" (1981). Stamps, frames and their release are this project's own.
#![tactic(auto)]

mod closing;
mod meeting;
mod opening;
mod owner;
mod put;
mod stock;
mod store;
mod sweep;

pub use put::Splice;
pub use stock::{NoRoom, Stock};
pub use store::{Glance, Hand, Peek, Store};
