//! The index on which a server works: it is opened, and between two chunks of lines it grows or shrinks by two, with its rows.
//!
//! Promised to `bl_serve`: an index of the server's own goes on with the map after all that has happened, in as many pages as it began with,
//! doubled some times, up to a bound; and where insertions may take more pages than are free, it has more of them, if there may be more and
//! memory for them was not refused.
#![tactic(auto)]

mod closing;
mod ground;
mod opening;
mod origin;
mod resizing;
mod settling;
mod shrinking;
mod sizing;
mod spare;

pub use closing::{own_index, shut};
pub use ground::{Ground, Limits};
pub use opening::{ground_of, open_index};
pub use origin::Origin;
pub use settling::settled;
pub use sizing::Load;
pub use spare::Spare;
