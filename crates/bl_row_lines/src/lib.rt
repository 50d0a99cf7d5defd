//! Rows as lines of text: `K V`, the key and its value, by rising keys.
//!
//! Promised to the commands `rows` and `load`: each list of rows has one text, which `write_rows` writes and `read_rows` reads;
//! of another text the first bad line is named, and what is wrong with it.
#![tactic(auto)]

mod reading;
mod row;
mod writing;

pub use reading::{RowsFault, read_rows};
pub use writing::{PrintFault, write_rows};
