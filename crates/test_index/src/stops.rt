//! Processes that stand still in the middle: a deletion that holds its leaf while another waits for that leaf and an insertion into
//! another one goes on, a search that has a page in mind while that is merged away and sweeps go on beside it, and calls that may not wait
//! beside a write that holds a leaf. They go by the events of a process, which a caller of `bl_index` does not see.

pub(crate) mod begun;
pub(crate) mod searching;
pub(crate) mod turning;
mod waiting;
