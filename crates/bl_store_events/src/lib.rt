//! The events of a store of pages, read as events of the page machine.
//!
//! It has no code: its one function promises that each event of a store leads, in the machine, from what the pages show
//! before it to what they show after it. So what is known of legal step lists holds of any structure over the store.
#![tactic(auto)]

ghost use Rattle.bl_store_events.specs.Shown.{IsTied};

/// Each event of a store is the event of that name of the page machine.
pub fn tied<D>()
    ensures { IsTied D }
{}
