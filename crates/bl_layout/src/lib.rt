//! The numbers of the words in which a store of pages keeps everything that threads share.
//!
//! A store of `pages` pages that `passes` passes use has `2 * pages + 8 * passes` frames, each with room for the 32 words of one page; with
//! more than 65,536 pages it has fewer beside one for each page.
//! Its words are numbered in this order: the clock, a process word for each pass, a word for each page, an owner for each page, an
//! owner for each frame, and the words of the frames. The numbers are this project's own format.
//!
//! They stand in one table, each in a cell. Words that are written often have cache lines of their own there, so that threads that
//! read others do not wait for them: the clock stands alone, and the process words stand behind all others, two lines for each. The
//! others follow each other as their numbers do.
//!
//! It promises to a store that each word has a number below the total, which no other word has, and where its cell is.
#![tactic(auto)]

mod cells;
mod layout;
mod owners;
mod word;

pub use cells::PROCESS_CELLS;
pub use layout::Layout;
pub use owners::{held_by, retired_at};
pub use word::Word;
