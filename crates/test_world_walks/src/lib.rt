//! The laws of the tree by plain walks over the pages of a world, apart from all definitions and proofs; and worlds whose number
//! of pages is known.
//!
//! For `test_world`, whose tests are proved and run apart from these. What it promises is in the words of each law that it finds
//! broken.
#![tactic(auto)]

mod laws;
mod lists;
mod sized;
mod trees;

pub use laws::{Law, add, holds};
pub use lists::Lists;
pub use sized::SizedWorld;
pub use trees::{Fresh, Listed, Live, Moment, Tree, descends, is_same_page, leads_back, walked};
