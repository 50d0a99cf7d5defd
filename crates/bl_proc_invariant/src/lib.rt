//! What a process knows in each of its states, and that every turn of one process keeps a world good.
//!
//! `specs/Tables` says of each state of a process what it holds, where it may go and what it has said. `proofs/` shows
//! that each turn which the process takes, told truly, leads from a good world to a good world, which is given. The crate
//! has no code; it is for whoever runs processes.
#![tactic(auto)]
