//! The rule by which hands share the words of a store: what stands in frames, pages, owners and process words, what each hand knows of
//! them, and what each event on a word tells its hand.
//!
//! Promised to `bl_store`, which does the events: each of them keeps the rule, whatever the others do meanwhile, if the user's
//! own rule of pages ([`PageRule`]) survives what it tells ([`PagePlay`] and its kin). Here are no functions and no words, only
//! the rule, the events and their proofs. Stamps, frames and their release are this project's own.
#![tactic(auto)]

pub mod plays;
mod rule;
mod view;

pub use rule::{KeepPlay, MeetPlay, PagePlay, PageRule, SweepPlay, TellPlay, TimePlay};
pub use view::{
    Draft, Dropping, Framed, Ground, Look, Reading, Sealing, Stamp, Sweep, View, Wanted,
};
