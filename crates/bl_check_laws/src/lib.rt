//! Sound images and the laws of the tree: an index may begin with the pages of a sound image.
//!
//! Promised to whoever opens an index from a `Quiet`: its live pages are sound pages in the words of the tree; the image
//! has one list of rows, whose keys rise; and where its pages are open and nothing has happened yet, the laws of the tree
//! hold with the map of these rows. The checker does not stand on the tree, so this stands in a crate of its own.
#![tactic(auto)]

mod laws;

pub use laws::{begins_with_rows, has_rows, may_begin};
