//! How long searches go on, and what processes hold when they latch a page.
//!
//! `specs/Bounds` says what is counted: the gets of a process since its begin, and the puts of all others since then; and
//! what bound a search keeps at every moment. `specs/Latches` says what a process keeps, by what it has done, and of each kind
//! how much that may be when it latches a page. `proofs/` shows that every turn of every process keeps both. The crate has no
//! code; it is for the worlds and the passes.
#![tactic(auto)]
