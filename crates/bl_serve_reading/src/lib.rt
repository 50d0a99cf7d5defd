//! Request lines are read, a section or a part of one at a time.
//!
//! Promised to the server (`bl_serve`): what is read are the lines of the input in their order, each with what it asks for, up to the line that
//! ends their section, as many as are wanted at most; no byte is lost between two reads, and behind the line that ends a section nothing is
//! read. How many lines are malformed, and how many are a `sync`, is counted on the way.
#![tactic(auto)]

mod parsed_lines;
mod section_reader;

pub use parsed_lines::{Malformed, Named, ParsedLines};
pub use section_reader::{ReadAhead, SectionEnd, read_on, read_section};
