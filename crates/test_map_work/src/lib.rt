//! Tests of jobs that threads work at in rounds. They stand apart from what they test, and nothing else uses them.
#![tactic(auto)]

#[cfg(test)]
mod rounds;
