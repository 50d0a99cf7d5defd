//! What a reader of the index's promises has to believe, beside maps, pages and the page machine: definitions alone.
//!
//! `specs/Snapshots` is a moment of the tree, whose nodes `bl_page` tells; `specs/Laws` has the agreement of leaves and map, the overlap
//! law, the chain of a level and the listing of children, told of one snapshot; `specs/Walks` the lone walk of a key.
//! `specs/Trails` has what has happened, event by event, with the point of each answered operation; step list and history are its
//! projections. `specs/Moments` says by owners and trail which pages are live and which are in the middle of a compression,
//! `specs/States` that the laws hold in every state. `specs/Opening` is what an index begins with, and `specs/Seeing` what a pass has
//! seen. `specs/Bounds` says how long a search may go on, `specs/Latches` what a process holds when it latches.
//!
//! What the answers and hints of writers mean, which are types of `bl_answers`, is told by what their processes have done, and not by
//! their states: `specs/Meanings` says what a process has written, page by page, `specs/Hinted` what a write of one key has, with the hint
//! beside its reply, `specs/Answers` what the answers of a post mean, `specs/Climbed` what an insertion that posts has done,
//! `specs/Squeezed` the answers of a compression, `specs/Lowered` those of a lowering, and `specs/Families` what a compression holds when
//! it latches a page.
//!
//! `proofs/` has worked examples alone: the laws on a small tree, the trail of a search, and posts by what they did. The promises
//! are proved by the crates above; invariants, which only those proofs need, stand there.
#![tactic(auto)]
