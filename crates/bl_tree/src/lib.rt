//! The moves of the tree, without processes, and the laws of the tree.
//!
//! `specs/Trees` is an invariant of local facts: about one page, or a page and its neighbour. `specs/Moves` has each change of a
//! page as a relation between two trees: a row, a split, growth, the puts of a merge and of an evening, and what happens to a page
//! that is not in the tree. `specs/Starts` has sound pages, with which work may begin. `proofs/` shows that each of them keeps the
//! invariant; that the invariant implies each law that `bl_claims` tells a reader; that the opening tree and every tree of sound
//! pages have it; and that the lone walk of each key ends at the live leaf that covers it. The crate has no code; it is for
//! `bl_tree_worlds` and the crates above, whose processes make these moves.
//!
//! The tree is that of Lehman and Yao, "Efficient locking for concurrent operations on B-trees" (ACM TODS 6(4), 1981),
//! with compression in the background after Sagiv (JCSS 33, 1986).
#![tactic(auto)]
