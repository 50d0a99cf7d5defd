//! Tests of the server: what it writes and counts, that workers work at once, that a section ends before the next begins,
//! streams that fail at each place, and the image of a dump.
//!
//! They stand apart from `bl_serve`, and nothing else uses them: whatever is built on the server need not wait until these
//! tests are proved. That hints are followed is tested in `test_hints`.
#![tactic(auto)]

#[cfg(test)]
mod dumps;
#[cfg(test)]
mod gates;
#[cfg(test)]
mod growing;
#[cfg(test)]
mod lines;
#[cfg(test)]
mod logs;
#[cfg(test)]
mod passes;
#[cfg(test)]
mod served;
#[cfg(test)]
mod streams;
#[cfg(test)]
mod summaries;
#[cfg(test)]
mod texts;
