//! The command line of `blink`: its options and their limits, its commands, and its texts.
//!
//! Promised to `bl_cli`: what the command line gives is within the limits. It stands apart from what the commands do, since
//! whatever loads clap takes long to prove.
#![tactic(auto)]

mod command;
mod logging;
mod texts;

pub use bl_serve_lines::{Sectioning, ServeOptions};
pub use command::{Invocation, Loading, Server, read_words};
pub use logging::LogAction;
