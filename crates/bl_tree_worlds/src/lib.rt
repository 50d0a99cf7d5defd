//! Worlds of processes of any kind over the pages of a tree.
//!
//! `specs/Worlds` says when a world is good: its pages are a tree, and what each process knows of them is true. `specs/Blank` and
//! `specs/Observed` say what a process that has not begun knows, and what a get tells; `specs/Puts` and `specs/Compressions` what is
//! known before a put. `proofs/` shows what becomes of a trail that goes on by one mark, that an event of one process leaves true
//! what all others know, where work may begin, and that each put keeps a world good and its laws. The crate has no code; the kinds of
//! processes are those of `bl_proc`, of which it knows nothing.
#![tactic(auto)]
