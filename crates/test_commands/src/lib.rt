//! Tests of the commands `check`, `draw`, `rows`, `load` and `replay`: images and damages, rows, streams that fail, memory that is refused,
//! paths that are no file, what a server counts, and words. Scripts with all that they print are data of `test_worked`.
//!
//! They stand apart from `bl_cli_streams`, `bl_cli_commands` and `bl_replay`, and nothing else uses them: the program need not wait until these tests are proved.
#![tactic(auto)]

#[cfg(test)]
mod checking;
#[cfg(test)]
mod counts;
#[cfg(test)]
mod drawing;
#[cfg(test)]
mod plays;
#[cfg(test)]
mod replaying;
#[cfg(test)]
mod rows;
#[cfg(test)]
mod streams;
#[cfg(test)]
mod words;
