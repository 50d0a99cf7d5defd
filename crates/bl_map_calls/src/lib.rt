//! The calls of a map over a seat: each goes on until it has its answer, and whoever changes the map keeps it in order.
//!
//! A search or a part that ran out of turns is made again. A write waits for room before it begins, lists the pages that it has split,
//! merges those that it has left with few rows, takes top levels away that are not needed, and gives back what was swapped out. What finds
//! no room waits, 32 pieces at most.
//!
//! Who may not wait has calls of his own, in `bl_map_tries`.
//!
//! Promised to `bl_map`, whose handles are a pass with what waits (`bl_waiting`): a call adds one entry to what
//! the pass has seen, this operation with this reply (`specs/Works`), or those of its keys, one after another (`specs/Finds`, `Many`,
//! `Updates`); a scan is parts and nothing else (`specs/Scans`, `Limits`, `Leasts`, `Copies`), and so is a range,
//! whose rows are those of one moment (`specs/Ranges`). Upkeep adds no entry: it is posts, compressions,
//! lowerings and sweeps of the pass's own (`specs/Follows`), and a piece is carried out, waits, or is counted as dropped (`specs/Waits`).
#![tactic(auto)]

pub mod calls;
pub mod copying;
pub mod counting;
pub mod least;
pub mod limiting;
pub mod many;
pub mod ranging;
pub mod room;
pub mod telling;
pub mod updating;
pub mod upkeep;
pub mod writes;
