//! A map is closed, and another one opened from its image.

use crate::maps::calls::opened;
use bl_check::Quiet;
use bl_map::{KeyReply, LoadFault, Map, MapLoadFault, OpenFault};
use std::alloc::Global;
use std::sync::Wait;

/// A find of a key, and the image of the map when it is closed; nothing, where memory is refused.
fn closed<R: Wait>(rt: &R, alloc: Global) -> Option<(KeyReply, Quiet)> {
    let (map, seat) = opened(alloc, 64)?;
    let mut handle = map.handle(seat);
    handle.insert(rt, 11, 33);
    handle.insert(rt, 99, 297);
    let found = handle.find(rt, 11);
    let mut seats = Vec::new(alloc);
    seats.push(handle.into_seat()).ok()?;
    let image = map.close(alloc, seats).ok()?;
    Some((found, image))
}

/// What a map of this image answers to a find of a key; nothing, where none is opened.
fn found_in<R: Wait>(rt: &R, alloc: Global, image: Quiet, key: u64) -> Option<KeyReply> {
    let (map, mut seats) = Map::open_image(alloc, image, 1).ok()?;
    let seat = seats.pop()?;
    let mut handle = map.handle(seat);
    Some(handle.find(rt, key))
}

/// The values of two keys, one before and one behind a close and an opening from the image; nothing, where memory is refused.
fn values<R: Wait>(rt: &R, alloc: Global) -> Option<(KeyReply, KeyReply)> {
    let (before, image) = closed(rt, alloc)?;
    Some((before, found_in(rt, alloc, image, 99)?))
}

#[test]
fn a_map_goes_on_from_its_image(rt: HostRuntime) {
    let found = values(&rt, rt.alloc());
    assert!(rt; found == Some((KeyReply::Found(33), KeyReply::Found(297))));
}

/// What a map that is loaded with three rows answers to a find of the last, to one of a key between them, and to an insertion of that.
fn answers<R: Wait>(rt: &R, alloc: Global) -> Option<[KeyReply; 3]> {
    let rows = [(11, 33), (12, 36), (99, 297)];
    let (map, mut seats) = Map::load(alloc, &rows, 64, 2, 1).ok()?;
    let seat = seats.pop()?;
    let mut handle = map.handle(seat);
    let last = handle.find(rt, 99);
    let between = handle.find(rt, 13);
    Some([last, between, handle.insert(rt, 13, 39)])
}

#[test]
fn a_map_is_loaded_with_rows(rt: HostRuntime) {
    let found = answers(&rt, rt.alloc());
    let wanted = [KeyReply::Found(297), KeyReply::Absent, KeyReply::Inserted];
    assert!(rt; found == Some(wanted));
}

/// Why no map is loaded with these rows, of so many pages, so full and with so many seats.
fn refusal(alloc: Global, rows: &[(u64, u64)], sizes: (u32, u32, u32)) -> Option<MapLoadFault> {
    let (pages, fill, seats) = sizes;
    Map::load(alloc, rows, pages, fill, seats).err()
}

const RISING: [(u64, u64); 3] = [(11, 33), (12, 36), (99, 297)];

#[test]
fn rows_that_do_not_rise_are_not_loaded(rt: HostRuntime) {
    let twice = [(11, 33), (12, 36), (12, 37)];
    let wanted = Some(MapLoadFault::Rows(LoadFault::Order(2)));
    assert!(rt; refusal(rt.alloc(), &twice, (64, 14, 1)) == wanted);
}

/// Pages, rows a leaf and seats with which rows that rise are not loaded, and why.
const REFUSED: [((u32, u32, u32), MapLoadFault); 5] = [
    ((3, 14, 1), MapLoadFault::Rows(LoadFault::Pages)),
    ((64, 0, 1), MapLoadFault::Rows(LoadFault::Fill)),
    ((64, 15, 1), MapLoadFault::Rows(LoadFault::Fill)),
    ((4, 1, 1), MapLoadFault::Rows(LoadFault::Room)),
    ((64, 14, 0), MapLoadFault::Open(OpenFault::Passes)),
];

#[test]
fn a_map_is_not_loaded(rt: HostRuntime) {
    let alloc = rt.alloc();
    for (sizes, fault) in REFUSED {
        assert!(rt; refusal(alloc, &RISING, sizes) == Some(fault));
    }
}
