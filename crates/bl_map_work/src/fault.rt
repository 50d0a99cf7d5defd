//! Why jobs were not worked at.

use crate::job::Task;
use bl_check::Quiet;
use bl_map::{Map, Seat};

/// Why a round was not begun.
#[derive(Clone, Copy, Debug, PartialEq, Eq)]
pub enum WorkFault {
    /// There are more jobs than seats, or fewer.
    Seats,
    /// There was no memory for the handles of the round.
    Memory,
}

/// What there is in place of a map at which all jobs have been worked.
#[derive(Drop)]
pub enum Unworked<J> {
    /// A round was not begun: the map, its seats and the jobs as they were then.
    Kept(Map, Vec<Seat>, Vec<Task<J>>, WorkFault),
    /// There was no memory for a larger map behind the close of the one of the last round: its image, from which another one may be opened,
    /// and the jobs as that round has left them.
    Closed(Quiet, Vec<Task<J>>),
}
