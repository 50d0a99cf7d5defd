//! Rearranging the pairs of pages: one page with a pair more, in two pages where it is full, with a pair less, or with
//! another value in one; two neighbours merged into one page, or evened out; and the parent that lists both.
//!
//! Promised to whoever moves pages of a tree: the pairs together are kept, with the new one or without the dropped one,
//! seen as a map from keys; kind, level, bounds and links are said page by page. Nothing is allocated, and no page is
//! copied.
#![tactic(auto)]

mod families;
mod fitted;
mod joining;
mod neighbours;
mod pairs;
mod sides;

pub use families::{Family, Siblings};
pub use fitted::{Fitted, with_pair, with_value, without};
pub use neighbours::{evened, merged};
pub use sides::{Evened, Side};
