//! What the events tell of the retirement of a page, and of those who look at it.

ghost use Rattle.std.specs.Prelude.{◌≡◌, ◌≢◌, ◌↔◌, ◌<◌, ℕ, Some, None, IsTrue, length};
ghost use Rattle.bl_world.specs.declared.turns.Act.TheVariants as shown;
ghost use Rattle.bl_world.specs.Retirements.{HasSeen, Blocks};

use crate::turns::{Act, Event};

/// The acts are the same.
fn is_act(act: Act, other: Act) -> bool
    ensures { IsTrue result ↔ (act ≡ other) }
{
    act == other
}

/// The events are the same.
fn is_event(event: Event, other: Event) -> bool
    ensures { IsTrue result ↔ (event ≡ other) }
{
    event == other
}

/// The event at that place is that one, and stands before another place.
fn stands_before(event: Event, other: Event, place: usize, end: usize) -> bool
    ensures { IsTrue result ↔ ((place < end) × (event ≡ other)) }
{
    place < end && is_event(event, other)
}

/// Since which event the page is retired, after one more act at that place.
fn retired_after(retired: Option<usize>, place: usize, act: Act, page: u32) -> Option<usize>
    ensures retires { act ≡ shown.Retire page → result ≡ Some place }
    ensures releases { act ≡ shown.Release page → result ≡ None }
    ensures others { act ≢ shown.Retire page → act ≢ shown.Release page → result ≡ retired }
{
    if is_act(act, Act::Retire(page)) {
        return Some(place);
    }
    if is_act(act, Act::Release(page)) {
        return None;
    }
    retired
}

/// Since which event the page is retired, as the process with that number has seen it.
pub fn retirement_seen(events: &[Event], number: usize, page: u32) -> Option<usize>
    ensures some { (k : ℕ) → result ≡ Some k → HasSeen events.now number page k (length events.now) }
    ensures only { (k : ℕ) → HasSeen events.now number page k (length events.now) → result ≡ Some k }
{
    let look = Event {
        process: number,
        act: Act::See(page),
    };
    let mut retired = None;
    let mut seen = None;
    for (i, event) in events.iter().enumerate() {
        if is_event(*event, look) {
            seen = retired;
        }
        retired = retired_after(retired, i, event.act, page);
    }
    seen
}

/// The process with that number began before the event at that place, and has not ended.
pub fn is_blocking(events: &[Event], number: usize, place: usize) -> bool
    ensures { IsTrue result ↔ Blocks events.now number place (length events.now) }
{
    let begin = Event {
        process: number,
        act: Act::Begin,
    };
    let end = Event {
        process: number,
        act: Act::End,
    };
    let mut began = false;
    for (i, event) in events.iter().enumerate() {
        if is_event(*event, end) {
            return false;
        }
        if stands_before(*event, begin, i, place) {
            began = true;
        }
    }
    began
}
