//! Each process, told what its action gave, goes on, and in one way alone.
//!
//! So the state of a process after an event is known as soon as the event is. The crate has no code; it is for whoever
//! runs processes of which each is in a thread of its own.
#![tactic(auto)]
