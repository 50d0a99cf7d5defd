//! Tests of the calls of an index that need threads or want of memory: a scan whose memory is refused, ranges, of which some go beside a writer, an
//! image that is opened larger, searches that begin at any page, writers that stop half-way. Calls of one thread are lines of `test_worked`, and races too.
//!
//! They stand apart from what they test, and nothing else uses them: whatever is built on the index need not wait until these tests
//! are proved. What a process on its way holds back is tested with the hands of a store, in `test_store_rule`. What stands on the index
//! is tested in `test_map`.
#![tactic(auto)]

#[cfg(test)]
mod calls;
#[cfg(test)]
mod large;
#[cfg(test)]
mod near;
#[cfg(test)]
mod ranges;
#[cfg(test)]
mod resizing;
#[cfg(test)]
mod scans;
#[cfg(test)]
mod stops;
#[cfg(test)]
mod trials;
