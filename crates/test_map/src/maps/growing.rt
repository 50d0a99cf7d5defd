//! A map grows and shrinks at rest: it goes on with more pages once few are free, and with fewer once most of its rows have gone.

ghost use Rattle.std.specs.Prelude.{IfOk, IfSome};
ghost use Rattle.bl_map.specs.Maps.{IsSeatOf};

use crate::maps::calls::shared;
use bl_load::LoadFault;
use bl_map::{
    KeyReply, Map, MapLoadFault, ResizeFault, Seat, UnresizedMap, UnshrunkMap,
    shrinking_adds_a_life,
};
use std::alloc::Global;
use std::sync::Wait;

/// So many rows want 1,429 leaves at least, and 2,858 at most: a map of 1,024 pages has no room for them, and one of 4,096 has more than a
/// sixteenth left.
const ROWS: u64 = 20_000;

/// Inserts rows from a key on while the map is not short of pages. Gives the seat back, with the key at which it stopped.
fn fill<R: Wait>(rt: &R, map: &Map, seat: Seat, from: u64) -> (Seat, u64)
    requires { IsSeatOf map.now seat }
    ensures { IsSeatOf map.now result.0 }
{
    let mut handle = map.handle(seat);
    for key in from..ROWS {
        if handle.is_short() || handle.insert(rt, key, key + 5) != KeyReply::Inserted {
            return (handle.into_seat(), key);
        }
    }
    (handle.into_seat(), ROWS)
}

/// A map of 1,024 pages with one seat.
fn opened(alloc: Global) -> Option<(Map, Seat)>
    ensures { IfSome result (λ t. IsSeatOf t.0 t.1) }
{
    let (map, mut seats) = Map::new(alloc, 1).ok()?;
    let seat = seats.pop()?;
    Some((map, seat))
}

/// The map with 4,096 pages, and its seat.
fn larger(alloc: Global, map: Map, seat: Seat) -> Option<(Map, Seat)>
    requires { IsSeatOf map seat }
    ensures { IfSome result (λ t. IsSeatOf t.0 t.1) }
{
    let mut seats = Vec::new(alloc);
    seats.push(seat).ok()?;
    match map.resize(alloc, seats, 4_096) {
        Ok((map, mut seats)) => {
            let seat = seats.pop()?;
            Some((map, seat))
        }
        Err(_) => None,
    }
}

/// Whether the first row, the last, and those on both sides of a key are there.
fn are_there<R: Wait>(rt: &R, map: &Map, seat: Seat, seam: u64) -> bool
    requires { IsSeatOf map.now seat }
{
    let mut handle = map.handle(seat);
    let before = seam.saturating_sub(1);
    let first = handle.find(rt, 0) == KeyReply::Found(5);
    let near = handle.find(rt, before) == KeyReply::Found(before.saturating_add(5));
    let next = handle.find(rt, seam) == KeyReply::Found(seam.saturating_add(5));
    let last = handle.find(rt, 19_999) == KeyReply::Found(20_004);
    first && near && next && last
}

/// Whether a map of 1,024 pages gets short of them, and where it stops once it is resized; and whether the rows are there.
fn grown<R: Wait>(rt: &R, alloc: Global) -> Option<(bool, u64, bool)> {
    let (map, seat) = opened(alloc)?;
    let (seat, seam) = fill(rt, &map, seat, 0);
    let (map, seat) = larger(alloc, map, seat)?;
    let (seat, end) = fill(rt, &map, seat, seam);
    let there = map.pages() == 4_096 && are_there(rt, &map, seat, seam);
    Some((0 < seam && seam < ROWS, end, there))
}

#[test]
fn a_map_grows_when_it_is_short_of_pages(rt: HostRuntime) {
    let seen = grown(&rt, rt.alloc());
    assert!(rt; seen == Some((true, ROWS, true)));
}

/// Why a map of 64 pages with two seats does not go on with so many pages by one of them.
fn fault(alloc: Global, pages: u32) -> Option<ResizeFault> {
    let (map, one, _two) = shared(alloc, 64)?;
    let mut seats = Vec::new(alloc);
    seats.push(one).ok()?;
    match map.resize(alloc, seats, pages) {
        Err(UnresizedMap::Kept(_map, _seats, why)) => Some(why),
        Err(UnresizedMap::Closed(_)) => None,
        Ok(_) => None,
    }
}

#[test]
fn a_map_is_kept_that_is_not_resized(rt: HostRuntime) {
    assert!(rt; fault(rt.alloc(), 128) == Some(ResizeFault::Pass));
    assert!(rt; fault(rt.alloc(), 63) == Some(ResizeFault::Pages));
}

/// The map with so many pages, and its seat; or why it is closed.
fn smaller(
    alloc: Global,
    map: Map,
    seat: Seat,
    pages: u32,
) -> Option<Result<(Map, Seat), MapLoadFault>>
    requires { IsSeatOf map seat }
    ensures { IfSome result (λ r. IfOk r (λ t. IsSeatOf t.0 t.1)) }
{
    let mut seats = Vec::new(alloc);
    seats.push(seat).ok()?;
    match map.shrink(alloc, seats, pages) {
        Ok((map, mut seats)) => {
            let seat = seats.pop()?;
            Some(Ok((map, seat)))
        }
        Err(UnshrunkMap::Closed(_image, why)) => Some(Err(why)),
        Err(UnshrunkMap::Kept(_map, _seats, _why)) => None,
    }
}

/// Whether a map of 1,024 pages is sparse with a hundred rows; whether these are all that is found of it once it has 64 pages, and whether it has
/// room for one more.
fn shrunk<R: Wait>(rt: &R, alloc: Global) -> Option<[bool; 3]> {
    let (map, seat) = opened(alloc)?;
    let (seat, _end) = fill(rt, &map, seat, ROWS - 100);
    let handle = map.handle(seat);
    let sparse = handle.is_sparse();
    let seat = handle.into_seat();
    let (map, seat) = smaller(alloc, map, seat, 64)?.ok()?;
    // The law by which the history goes on.
    shrinking_adds_a_life();
    let mut handle = map.handle(seat);
    let last = handle.last(rt) == Some((19_999, 20_004));
    let all = handle.count(rt, 0, None) == 100;
    Some([
        sparse,
        last && all,
        handle.insert(rt, 7, 1) == KeyReply::Inserted,
    ])
}

#[test]
fn a_map_of_few_rows_shrinks(rt: HostRuntime) {
    assert!(rt; shrunk(&rt, rt.alloc()) == Some([true, true, true]));
}

/// Why a map of 100 rows does not go on with 8 pages: nine leaves and the anchor at least.
fn too_small<R: Wait>(rt: &R, alloc: Global) -> Option<MapLoadFault> {
    let (map, seat) = opened(alloc)?;
    let (seat, _end) = fill(rt, &map, seat, ROWS - 100);
    smaller(alloc, map, seat, 8)?.err()
}

#[test]
fn a_map_whose_rows_want_more_pages_gives_its_image(rt: HostRuntime) {
    assert!(rt; too_small(&rt, rt.alloc()) == Some(MapLoadFault::Rows(LoadFault::Room)));
}
