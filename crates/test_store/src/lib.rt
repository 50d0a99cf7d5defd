//! Tests of the hands of a store: latches, glances, what a begun hand holds back, meetings and closes, under the rule of `test_store_rule`.
//!
//! They stand apart from `test_store_rule` and `bl_store_events`, each of which would be proved once more for its tests.
#![tactic(auto)]

#[cfg(test)]
mod hands;
