//! Trials of the one handle of a new map, of which each says whether all came as it must. One function owns the map for all of them, as in
//! [`crate::maps::tables`].

use crate::maps::calls::opened;
use crate::maps::{calls, counts, groups, limits, room, updates};
use bl_map::Handle;
use std::alloc::Global;
use std::sync::Wait;

/// What is tried.
#[derive(Clone, Copy)]
enum Trial {
    ManyRows,
    Callback,
    Downwards,
    CallbackDownwards,
    ManyFound,
    NoneFound,
    ManyInserted,
    ManyPut,
    InsertedUntilFull,
    PutUntilFull,
    Pages,
    LastPages,
    GreatestKey,
    Ranges,
    Waves,
    FullMap,
    Room,
    Function,
    Copy,
}

fn holds<R: Wait>(rt: &R, alloc: Global, handle: &mut Handle<'_>, trial: Trial) -> bool {
    match trial {
        Trial::ManyRows => calls::many_come_and_go(rt, alloc, handle),
        Trial::Callback => calls::callback_is_told(rt, handle),
        Trial::Downwards => counts::are_listed_downwards(rt, alloc, handle),
        Trial::CallbackDownwards => counts::are_told_downwards(rt, alloc, handle),
        Trial::ManyFound => groups::many_are_found(rt, handle),
        Trial::NoneFound => groups::none_are_found(rt, handle),
        Trial::ManyInserted => groups::many_are_inserted(rt, handle),
        Trial::ManyPut => groups::many_are_put(rt, handle),
        Trial::InsertedUntilFull => groups::are_inserted_until_full(rt, handle),
        Trial::PutUntilFull => groups::are_put_until_full(rt, handle),
        Trial::Pages => limits::are_listed_by_pages(rt, alloc, handle),
        Trial::LastPages => limits::last_pages_are_listed(rt, alloc, handle),
        Trial::GreatestKey => limits::greatest_key_is_listed(rt, alloc, handle),
        Trial::Ranges => limits::ranges_are_read(rt, alloc, handle),
        Trial::Waves => room::waves_find_room(rt, handle),
        Trial::FullMap => room::full_map_refuses(rt, handle),
        Trial::Room => room::room_is_right(rt, handle),
        Trial::Function => updates::function_changes(rt, handle),
        Trial::Copy => updates::copy_opens(rt, alloc, handle),
    }
}

/// Whether a trial comes as it must in a new map of so many pages; nothing, where none is opened.
fn holds_in<R: Wait>(rt: &R, alloc: Global, pages: u32, trial: Trial) -> Option<bool> {
    let (map, seat) = opened(alloc, pages)?;
    let mut handle = map.handle(seat);
    Some(holds(rt, alloc, &mut handle, trial))
}

/// Each trial, with the pages of the map in which it is made.
const TRIALS: [(&str, u32, Trial); 19] = [
    ("many rows come and go", 1_024, Trial::ManyRows),
    ("a callback is told each row once", 1_024, Trial::Callback),
    ("rows are listed downwards", 1_024, Trial::Downwards),
    (
        "a callback is told rows downwards",
        1_024,
        Trial::CallbackDownwards,
    ),
    ("many keys are found at once", 1_024, Trial::ManyFound),
    ("keys are looked up in an empty map", 4, Trial::NoneFound),
    (
        "many rows are inserted and taken away",
        64,
        Trial::ManyInserted,
    ),
    ("many rows are put", 64, Trial::ManyPut),
    (
        "rows are inserted up to the first that finds no room",
        4,
        Trial::InsertedUntilFull,
    ),
    (
        "rows are put up to the first that finds no room",
        4,
        Trial::PutUntilFull,
    ),
    ("rows are listed seven at a time", 64, Trial::Pages),
    ("nothing is left behind the last row", 64, Trial::LastPages),
    ("the greatest key is listed last", 64, Trial::GreatestKey),
    ("a range has the rows between two keys", 64, Trial::Ranges),
    ("waves find room and leave one leaf", 256, Trial::Waves),
    ("a full map refuses until a row goes", 256, Trial::FullMap),
    ("room is counted at rest", 64, Trial::Room),
    ("a row is changed by a function", 4, Trial::Function),
    ("a copy opens as a map", 1_024, Trial::Copy),
];

#[test]
fn a_new_map_comes_through_each_trial(rt: HostRuntime) {
    for (name, pages, trial) in TRIALS {
        assert!(rt;
            holds_in(&rt, rt.alloc(), pages, trial) == Some(true),
            "{name}"
        );
    }
}
