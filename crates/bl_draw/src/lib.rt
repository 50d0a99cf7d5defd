//! Pictures of the tree in an image, for people: as text that fits a terminal, and as SVG.
//!
//! Promised: an image is told to be sound, or to break a rule, as the checker tells it. What else is printed is tested and not
//! promised; that no bytes make the drawing fail is proved, as of all code. An image that breaks a rule is drawn as far as its
//! pages can be read: the chain of each level as far as its links lead, and behind it the pages of the level that stand on none.
#![tactic(auto)]

mod chart;
mod image_pages;
mod node;
mod page_text;
mod rules;
mod sheet;
mod svg;
mod text;
mod tree;

pub use rules::{rule_words, verdict};
pub use svg::svg_of;
pub use text::text_of;
