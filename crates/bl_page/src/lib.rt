//! Pages of a B-link tree, and their 32 words.
#![tactic(auto)]

mod copies;
mod keys;
mod machine;
mod page;
mod pairs;
mod parse;
mod places;
mod seeking;
mod source;
mod spelling;

pub use keys::is_within;
pub use machine::Missed;
pub use page::{Anchor, Dead, Inner, Leaf, Page, Pairs, WordFault};
pub use pairs::{listed_with, place_of};
pub use parse::{from_wide_words, from_words, from_words_below};
pub use places::{
    ENTRIES, FIRST_KEY, FIRST_WORD, HEAD, HIGH, KEY_BEFORE, LEVEL_BEFORE, LOW, LOWER_PAIRS, RIGHT,
    UPPER_PAIRS, WORD_BEFORE,
};
pub use seeking::{child_in, listed_in, place_in};
pub use source::{Words, word, words_from};
pub use spelling::{KIND_UNIT, LEVEL_UNIT};
