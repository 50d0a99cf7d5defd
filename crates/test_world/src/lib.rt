//! Tests of calls of a world that no script makes: lone walks, chosen turns, turns that are not fit, faults; and of worlds whose processes and
//! turns are drawn by lot: after each turn the laws of the tree are checked by the plain walks of `test_world_walks`, over the pages
//! of the model of `test_world_watched`. Runs with all events of each process and its answer are scripts of `test_worked`, a
//! tree of four levels among them.
//!
//! They stand apart from `bl_world`, and nothing else uses them: whatever is built on worlds need not wait until these tests
//! are proved.
#![tactic(auto)]

#[cfg(test)]
mod calls;
#[cfg(test)]
mod draws;
#[cfg(test)]
mod quiet;
#[cfg(test)]
mod reached;
#[cfg(test)]
mod trial;
#[cfg(test)]
mod turns;
#[cfg(test)]
mod worlds;
