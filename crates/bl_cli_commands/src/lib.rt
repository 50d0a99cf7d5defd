//! The commands `check`, `draw`, `rows`, `load` and `replay` of `blink` over readers and writers, the image that a server begins with,
//! and why a command ends early.
//!
//! Promised to `bl_cli`: a check tells whether the bytes that it read are a sound image, an image that was loaded is what was
//! read, and a replay prints one run of the script that it read; `rows` prints the rows of the sound image that it read, and `load`
//! makes a sound image that has exactly the rows that it read; each fault has its exit status and its words. Which file a
//! fault is of, and why it cannot be read, is said by a second line, which is tested.
#![tactic(auto)]

mod check;
mod draw;
mod fault;
mod image_file;
mod load;
mod making;
mod reason;
mod replay;
mod rows;

pub use check::{check_file, check_image};
pub use draw::{Form, draw_file, draw_image};
pub use fault::CommandFault;
pub use load::{load_file, load_image};
pub use making::{MakeFault, make_image};
pub use reason::{argument_line, reason_of};
pub use replay::{replay_file, replay_script};
pub use rows::{print_file, print_rows};
