//! What becomes of the owners of pages.

use bl_world::{Act, Event, Owner, Turn};
use test_world_walks::{Law, holds, keep};

/// The process whose turn it is.
pub fn number_of(turn: Turn) -> usize {
    match turn {
        Turn::Step(number) | Turn::Take(number, _) | Turn::Refuse(number) => number,
    }
}

/// The page that an event names.
pub fn page_of(act: Act) -> Option<u32> {
    match act {
        Act::Get(at) | Act::Put(at) | Act::Latch(at) | Act::Take(at) | Act::Open(at) => Some(at),
        Act::See(at) | Act::Release(at) | Act::Retire(at) => Some(at),
        _ => None,
    }
}

/// The first of two laws that is broken.
pub(crate) fn both(first: bool, law: Law, second: bool, other: Law) -> Result<(), Law> {
    if first {
        holds(second, other)
    } else {
        Err(law)
    }
}

/// Who gets or sees a page leaves its owner as it is.
fn looks_at_page(before: Option<Owner>, after: Option<Owner>) -> Result<(), Law> {
    both(
        before.is_some(),
        "a page is got that is there",
        after == before,
        "who gets a page changes no owner",
    )
}

/// A retired page becomes a released one.
fn releases(before: Option<Owner>, after: Option<Owner>) -> Result<(), Law> {
    both(
        matches!(before, Some(Owner::Retired(_))),
        "a retired page is released",
        after == Some(Owner::Released),
        "a page is released",
    )
}

/// The owner of a page that an event changes, and the laws of it before and after.
#[derive(Clone, Copy)]
struct Change {
    before: Owner,
    law_before: Law,
    after: Owner,
    law_after: Law,
}

impl Change {
    fn new(before: Owner, law_before: Law, after: Owner, law_after: Law) -> Option<Change> {
        Some(Change {
            before,
            law_before,
            after,
            law_after,
        })
    }

    fn is_kept(&self, before: Option<Owner>, after: Option<Owner>) -> Result<(), Law> {
        both(
            before == Some(self.before),
            self.law_before,
            after == Some(self.after),
            self.law_after,
        )
    }
}

/// What a process that takes or opens a page changes, where this is a page in its hands.
fn change_in_hand(act: Act, held: Owner) -> Option<Change> {
    match act {
        Act::Latch(_) => Change::new(
            Owner::Open,
            "an open page is latched",
            held,
            "who latches a page holds it",
        ),
        Act::Take(_) => Change::new(
            Owner::Released,
            "a released page is taken",
            held,
            "who takes a page holds it",
        ),
        Act::Open(_) => Change::new(
            held,
            "who opens a page holds it",
            Owner::Open,
            "a page is opened",
        ),
        _ => None,
    }
}

/// The same where it puts or retires a page, by the event at that place.
fn change_of_page(act: Act, held: Owner, place: usize) -> Option<Change> {
    match act {
        Act::Put(_) => Change::new(
            held,
            "who puts a page holds it",
            held,
            "a put changes no owner",
        ),
        Act::Retire(_) => Change::new(
            held,
            "who retires a page holds it",
            Owner::Retired(place),
            "a page is retired",
        ),
        _ => change_in_hand(act, held),
    }
}

/// What becomes of the owner of the page that the event at that place names.
pub fn owns(
    event: Event,
    place: usize,
    before: Option<Owner>,
    after: Option<Owner>,
) -> Result<(), Law> {
    match event.act {
        Act::Get(_) if before == Some(Owner::Released) => Err("no released page is got"),
        Act::Get(_) => looks_at_page(before, after),
        // a part may look at a number of no page
        Act::See(_) => holds(after == before, "who sees a page changes no owner"),
        Act::Take(0) => Err("page 0 is not taken"),
        Act::Release(_) => releases(before, after),
        act => match change_of_page(act, Owner::Held(event.process), place) {
            Some(change) => change.is_kept(before, after),
            None => Ok(()),
        },
    }
}

/// No page but those that an event names has got another owner.
pub fn keeps_owners(after: &[Owner], before: &[Owner], named: Option<u32>) -> Result<(), Law> {
    keep!(
        after.len() == before.len(),
        "there are as many pages as before"
    );
    for (at, owner) in before.iter().enumerate() {
        let same = after.get(at) == Some(owner);
        let is_named = named.map(|page| page as usize) == Some(at);
        keep!(
            same || is_named,
            "an event changes the owner of its own page alone"
        );
    }
    Ok(())
}

/// How many pages the process with that number holds.
pub(crate) fn held_by(number: usize, owners: &[Owner]) -> usize {
    let mut held = 0usize;
    for owner in owners {
        if *owner == Owner::Held(number) {
            held = held.saturating_add(1);
        }
    }
    held
}

/// The one page that the process with that number holds, which takes another one.
pub fn held_page(number: usize, owners: &[Owner]) -> Result<u32, Law> {
    let mut page = None;
    for (at, owner) in owners.iter().enumerate() {
        if *owner == Owner::Held(number) {
            keep!(page.is_none(), "who takes a page holds one");
            page = u32::try_from(at).ok();
        }
    }
    page.ok_or("who takes a page holds one")
}
