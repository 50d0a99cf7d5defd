//! Stamps, which put calls of different handles in order.

ghost use Rattle.std.specs.Prelude.{IfSome};
ghost use Rattle.bl_map.specs.Maps.{IsSeatOf};

use bl_map::{KeyReply, Map, Seat, stamps_keep_order};
use std::alloc::Global;
use std::sync::Wait;

/// A map of 64 pages with a seat for each of two handles and for a stamp.
fn opened(alloc: Global) -> Option<(Map, Seat, Seat, Seat)>
    ensures { IfSome result (λ t. IsSeatOf t.0 t.1 × IsSeatOf t.0 t.2 × IsSeatOf t.0 t.3) }
{
    let (map, mut seats) = Map::open(alloc, 64, 3).ok()?;
    let three = seats.pop()?;
    let two = seats.pop()?;
    let one = seats.pop()?;
    Some((map, one, two, three))
}

/// The one handle inserts a row and stamps, and the other one heeds the stamp and finds the row, puts another value and stamps; then the first
/// one finds that. Its seat comes back from the stamp.
fn hand_over<R: Wait>(rt: &R, alloc: Global) -> Option<[KeyReply; 4]> {
    let (map, one, two, three) = opened(alloc)?;
    let mut one = map.handle(one);
    let mut two = map.handle(two);
    let mut stamp = map.stamp(three);
    let inserted = one.insert(rt, 7, 70);
    one.stamp(&mut stamp);
    two.heed(&mut stamp);
    let found = two.find(rt, 7);
    let replaced = two.put(rt, 7, 71);
    two.stamp(&mut stamp);
    one.heed(&mut stamp);
    let last = one.find(rt, 7);
    let mut three = map.handle(stamp.into_seat());
    // The law by which these calls are in order.
    stamps_keep_order();
    if three.find(rt, 7) == last {
        Some([inserted, found, replaced, last])
    } else {
        None
    }
}

#[test]
fn calls_behind_a_stamp_are_behind_those_before(rt: HostRuntime) {
    let replies = [
        KeyReply::Inserted,
        KeyReply::Found(70),
        KeyReply::Replaced(70),
        KeyReply::Found(71),
    ];
    assert!(rt; hand_over(&rt, rt.alloc()) == Some(replies));
}
