//! Makes the calls that lines name, and compares what each gives with what the line says: on pages, on images and on a plain
//! map, and behind the line `processes` on processes, each of which runs alone over plain pages. A line is a call and its answer,
//! with ` = ` between them, as in `row 7 8589934593 0 0 0 7 70 = 70` and `find 5 = begin get 0 get 1 end: absent`. Lines without
//! ` = ` are comments. Pages are given by their words, of which zeros at the end are left out; two pages have ` | ` between them.
//!
//! Each line that is answered otherwise is printed with that answer, and at the end how many were right. It is a part of `test_worked`, which has the
//! lines.
//!
//! | Call | What it gives |
//! |---|---|
//! | `page WORDS` | `is one` where the words are a page's that is spelled so, and so is its copy; else the fault |
//! | `covers KEY WORDS`, `row KEY WORDS`, `child KEY WORDS` | whether the page covers the key, and what it has of it |
//! | `with KEY WORD WORDS` | the page with that pair more, or the two pages into which it is split, of which the new one is page 2 |
//! | `without KEY WORDS` | the leaf without that row |
//! | `merge WORDS \| WORDS`, `even WORDS \| WORDS` | one page for both; both with as many pairs, with the separator and the side that gains |
//! | `levels WORDS`, `top WORDS`, `level WORDS`, `pairs WORDS` | what the words of a page say: how many levels, the page on top, its level; and how many pairs the page has |
//! | `step LEVEL KEY WORDS`, `step-reads LEVEL KEY WORDS` | where the page leads on the way to the key on a level, and how many of its words are read |
//! | `listed KEY WORDS`, `listed-reads KEY WORDS` | what the words of a leaf list with the key, and how many of them are read |
//! | `enter LEVEL KEY WORDS`, `onward PAGE LEVEL KEY WORDS`, `latched PAGE LEVEL KEY WORDS` | where a writer to a level goes by the words: at the anchor, at a page, and where it holds one |
//! | `image PAGES` | begins an image with so many pages that are not in use |
//! | `put PAGE WORDS` | writes a page's words into it |
//! | `bytes FROM` | eight bytes of it |
//! | `check [PAGE PLACE WORD]..` | what the checker finds in it, with these words of pages made others |
//! | `version NUMBER [PAGE PLACE WORD]..` | the same with another version in its head |
//! | `read [PAGE PLACE WORD]..` | how many pages are read of it, and which are in use, or the fault |
//! | `spelled PAGE` | the words of a page that was read |
//! | `cut`, `alter` | how many images are refused for their head: beginnings of it, and with one of the first 32 bytes altered in any way |
//! | `map` | begins a map without rows |
//! | `find KEY`, `insert KEY VALUE`, `delete KEY`, `change KEY OLD NEW`, `part FROM` | what the map replies |
//! | `processes` | from here on the calls are these |
//! | `opening` | the pages of an opening tree, of which there are 8, in place of those before |
//! | `page NUMBER`, `put NUMBER WORDS` | the words of a page, up to the last that is not 0; writes a page |
//! | `find KEY`, `insert KEY VALUE`, `delete KEY`, `change KEY OLD NEW`, `part KEY`, `post LEVEL KEY`, `compress LEVEL KEY`, `lower` | runs such a process: its events and its answer |
//! | `wait PROCESS` | starts one of these, which waits |
//! | `go TURNS` | so many turns of the process that waits, and its answer if it has one |
//! | `refuse`, `miss` | it is refused what it needs for its next action, or misses its latch |
//! | `seek KEY`, `seek-on TURNS` | the same of a search that is told of pages by their words |
#![tactic(auto)]

mod answers;
mod benches;
mod calls;
mod checks;
mod judging;
mod maps;
mod pages;
mod processes;
mod saying;
mod tally;
mod trees;
mod ways;
mod words;

pub use judging::Judge;
pub use saying::{count, observed, push_hint, said};
pub use words::shown_words;
