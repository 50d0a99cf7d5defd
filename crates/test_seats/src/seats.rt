//! Calls of seats.

ghost use Rattle.std.specs.Prelude.{◌≡◌, [], ◌∷◌, IfSome};
ghost use Rattle.bl_ffi_seats.specs.Closed.{values};
ghost use Rattle.bl_ffi_seats.specs.Seats.{AreOfOne};
ghost use Rattle.bl_index_read.specs.LeafRows.{IsBelow};

use bl_ffi_seats::{
    CloseFault, Direction, ImageFault, KeyReply, KeyWrite, Next, OpenFault, OutOfTurns, Reply,
    Seat, close, open, open_image, open_larger,
};
use bl_image::image_length;
use std::alloc::Global;

/// How many rows are inserted where there are many.
const MANY: u64 = 2_000;

/// A seat of an index of so many pages.
fn opened(alloc: Global, pages: u32) -> Option<Seat> {
    let mut seats = open(alloc, pages, 1).ok()?;
    seats.pop()
}

/// Whether a write is answered so.
fn is_written(seat: &mut Seat, key: u64, write: KeyWrite, wanted: KeyReply) -> bool {
    seat.write(key, write) == Some(wanted)
}

/// Writes of keys, and what a seat alone answers to each at once.
const ROW: [(u64, KeyWrite, KeyReply); 8] = [
    (5, KeyWrite::Insert(50), KeyReply::Inserted),
    (5, KeyWrite::Insert(60), KeyReply::Present(50)),
    (5, KeyWrite::Change(50, 70), KeyReply::Changed),
    (5, KeyWrite::Change(50, 80), KeyReply::Differs(70)),
    (5, KeyWrite::Put(90), KeyReply::Replaced(70)),
    (5, KeyWrite::Delete, KeyReply::Deleted(90)),
    (5, KeyWrite::Delete, KeyReply::Absent),
    (6, KeyWrite::Put(60), KeyReply::Inserted),
];

/// Makes the writes up to the first that is not answered as it must be. Says how many are.
fn count_right(seat: &mut Seat, writes: &[(u64, KeyWrite, KeyReply)]) -> u64 {
    let mut count = 0u64;
    for write in writes {
        if !is_written(seat, write.0, write.1, write.2) {
            return count;
        }
        count = count.saturating_add(1);
    }
    count
}

/// Whether a row is there neither before it comes nor when it has gone.
fn row_comes_and_goes(seat: &mut Seat) -> bool {
    seat.find(5) == Some(KeyReply::Absent)
        && count_right(seat, &ROW) == 8
        && seat.find(5) == Some(KeyReply::Absent)
}

#[test]
fn a_row_comes_and_goes(rt: HostRuntime) {
    let mut seat = opened(rt.alloc(), 64).expect(&rt, "it is opened");
    assert!(rt; row_comes_and_goes(&mut seat));
}

/// How many of so many rising keys are inserted.
fn insert_many(seat: &mut Seat, count: u64) -> u64 {
    let mut inserted = 0u64;
    for key in 0..count {
        if seat.write(key, KeyWrite::Insert(key)) == Some(KeyReply::Inserted) {
            inserted = inserted.saturating_add(1);
        }
    }
    inserted
}

/// How many rows the parts have together.
fn count_rows(seat: &mut Seat) -> u64 {
    let mut count = 0u64;
    let mut at = 0;
    let mut near = None;
    for _part in 0..MANY {
        let Ok(Reply::Rows(rows, next)) = seat.part(Direction::Up, at, &mut near) else {
            return 0;
        };
        count = count.saturating_add(rows.len() as u64);
        match next {
            Next::More(key) => at = key,
            Next::End => return count,
        }
    }
    0
}

/// Whether parts tell all rows that were inserted, and nothing is left to do.
fn parts_tell_all(seat: &mut Seat) -> bool {
    insert_many(seat, MANY) == MANY
        && count_rows(seat) == MANY
        && seat.upkeep(64)
        && seat.waiting() == 0
        && seat.dropped() == 0
}

#[test]
fn parts_tell_all_rows(rt: HostRuntime) {
    let mut seat = opened(rt.alloc(), 1_024).expect(&rt, "it is opened");
    assert!(rt; parts_tell_all(&mut seat));
}

/// Whether there is nothing to do in an empty index, nor when what many rows left was done.
fn upkeep_ends(seat: &mut Seat) -> bool {
    if !seat.upkeep(0) || insert_many(seat, MANY) != MANY {
        return false;
    }
    seat.upkeep(1_024);
    seat.upkeep(0) && seat.waiting() == 0
}

#[test]
fn upkeep_comes_to_its_end(rt: HostRuntime) {
    let mut seat = opened(rt.alloc(), 1_024).expect(&rt, "it is opened");
    assert!(rt; upkeep_ends(&mut seat));
}

/// How many frames are free, of 136 that a seat alone has with 64 pages.
fn free_frames(seat: &Seat) -> u32 {
    seat.room().free_frames
}

/// Whether upkeep gives back what a write has swapped out: its leaf has a frame and gets another one.
fn gives_back(seat: &mut Seat) -> bool {
    let before = free_frames(seat);
    if !is_written(seat, 1, KeyWrite::Insert(10), KeyReply::Inserted) {
        return false;
    }
    let meanwhile = free_frames(seat);
    seat.upkeep(0);
    meanwhile < before && free_frames(seat) == before
}

#[test]
fn a_seat_gives_back_what_was_swapped_out(rt: HostRuntime) {
    let mut seat = opened(rt.alloc(), 64).expect(&rt, "it is opened");
    assert!(rt; gives_back(&mut seat));
}

/// Whether a part has these rows, and goes to the end of the map.
fn is_last(part: Result<Reply, OutOfTurns>, wanted: &[(u64, u64)]) -> bool {
    match part {
        Ok(Reply::Rows(rows, next)) => rows.as_slice() == wanted && next == Next::End,
        _ => false,
    }
}

#[test]
fn a_part_has_the_rows_from_its_key_on(rt: HostRuntime) {
    let mut seat = opened(rt.alloc(), 64).expect(&rt, "it is opened");
    let count = insert_many(&mut seat, 5);
    let part = seat.part(Direction::Up, 3, &mut None);
    assert!(rt; count == 5 && is_last(part, &[(3, 3), (4, 4)]));
}

/// The rows from a key on and below an end, read once.
fn ranged(alloc: Global, seat: &mut Seat, from: u64, to: Option<u64>) -> Vec<(u64, u64)>
    requires { IsBelow to from }
{
    match seat.range(alloc, from, to, 0, 8) {
        Ok(rows) => rows,
        Err(_) => Vec::new(alloc),
    }
}

#[test]
fn a_range_has_the_rows_between_its_keys(rt: HostRuntime) {
    let mut seat = opened(rt.alloc(), 1_024).expect(&rt, "it is opened");
    let count = insert_many(&mut seat, 300);
    assert!(rt; count == 300 && ranged(rt.alloc(), &mut seat, 0, None).len() == 300);
    let some = ranged(rt.alloc(), &mut seat, 97, Some(100));
    assert!(rt; some.as_slice() == [(97, 97), (98, 98), (99, 99)].as_slice());
}

#[test]
fn a_scan_has_so_many_rows_and_tells_where_the_next_begin(rt: HostRuntime) {
    let mut seat = opened(rt.alloc(), 1_024).expect(&rt, "it is opened");
    let count = insert_many(&mut seat, 300);
    let (some, next) = seat.scan(rt.alloc(), Direction::Up, 97, None, 100);
    assert!(rt; count == 300 && some.len() == 100 && next == Ok(Some(197)));
    let (some, next) = seat.scan(rt.alloc(), Direction::Down, 97, Some(94), 100);
    assert!(rt; some.as_slice() == [(97, 97), (96, 96), (95, 95)].as_slice() && next == Ok(None));
}

#[test]
fn a_part_downwards_has_the_rows_up_to_its_key(rt: HostRuntime) {
    let mut seat = opened(rt.alloc(), 64).expect(&rt, "it is opened");
    let count = insert_many(&mut seat, 5);
    let part = seat.part(Direction::Down, 3, &mut None);
    assert!(rt; count == 5 && is_last(part, &[(3, 3), (2, 2), (1, 1), (0, 0)]));
    // The anchor and one leaf are not free.
    assert!(rt; seat.free_pages() == 62);
}

/// How many rows the parts downwards have together, from a key on.
fn count_rows_down(seat: &mut Seat, from: u64) -> u64 {
    let mut count = 0u64;
    let mut at = from;
    for _part in 0..MANY {
        let Ok(Reply::Rows(rows, next)) = seat.part(Direction::Down, at, &mut None) else {
            return 0;
        };
        count = count.saturating_add(rows.len() as u64);
        match next {
            Next::More(key) => at = key,
            Next::End => return count,
        }
    }
    0
}

/// Whether parts downwards tell all rows that were inserted, and half of them.
fn parts_tell_all_down(seat: &mut Seat) -> bool {
    insert_many(seat, MANY) == MANY
        && count_rows_down(seat, u64::MAX) == MANY
        && count_rows_down(seat, MANY / 2) == MANY / 2 + 1
}

#[test]
fn parts_downwards_tell_all_rows(rt: HostRuntime) {
    let mut seat = opened(rt.alloc(), 1_024).expect(&rt, "it is opened");
    assert!(rt; parts_tell_all_down(&mut seat));
}

/// Why no index of so many pages and seats is opened.
fn refusal(alloc: Global, pages: u32, seats: u32) -> Option<OpenFault> {
    open(alloc, pages, seats).err()
}

#[test]
fn what_is_not_opened_says_why(rt: HostRuntime) {
    let alloc = rt.alloc();
    assert!(rt; refusal(alloc, 3, 1) == Some(OpenFault::Pages));
    assert!(rt; refusal(alloc, 4, 0) == Some(OpenFault::Passes));
    assert!(rt; refusal(alloc, 4, 65) == Some(OpenFault::Passes));
}

#[test]
fn what_is_no_image_is_not_opened(rt: HostRuntime) {
    let fault = open_image(rt.alloc(), b"no image", 1).err();
    assert!(rt; fault == Some(ImageFault::Image));
}

/// Two seats of one index.
fn two_of_one(alloc: Global) -> Option<(Seat, Seat)>
    ensures { IfSome result (λ t. AreOfOne t.0 t.1) }
{
    let Ok(mut seats) = open(alloc, 64, 2) else {
        return None;
    };
    let two = seats.pop()?;
    let one = seats.pop()?;
    Some((one, two))
}

/// A seat in a box, alone in a vector.
fn boxed(alloc: Global, seat: Seat) -> Option<Vec<Box<Seat, Global>>>
    ensures { IfSome result (λ boxes. values boxes.items ≡ seat ∷ []) }
{
    let seat = Box::new(alloc, seat).ok()?;
    let mut boxes = Vec::new(alloc);
    boxes.push(seat).ok()?;
    Some(boxes)
}

#[test]
fn two_seats_see_one_index(rt: HostRuntime) {
    let (mut one, mut two) = two_of_one(rt.alloc()).expect(&rt, "there are two");
    let is_there = is_written(&mut one, 1, KeyWrite::Insert(10), KeyReply::Inserted);
    drop(one);
    assert!(rt; is_there && two.find(1) == Some(KeyReply::Found(10)));
}

#[test]
fn seats_meet(rt: HostRuntime) {
    let (mut one, mut two) = two_of_one(rt.alloc()).expect(&rt, "there are two");
    let reply = one.write(1, KeyWrite::Insert(10));
    one.meet(&mut two);
    let found = two.find(1);
    assert!(rt; reply == Some(KeyReply::Inserted) && found == Some(KeyReply::Found(10)));
    assert!(rt; one.pages() == 64);
}

/// The image of an index of 64 pages and a hundred rows that is closed; nothing, where it is not.
fn spelled(alloc: Global) -> Option<[u8; 32 + 256 * 64]> {
    let mut seats = open(alloc, 64, 1).ok()?;
    let mut seat = seats.pop()?;
    if insert_many(&mut seat, 100) != 100 {
        return None;
    }
    let seats = boxed(alloc, seat)?;
    let quiet = close(alloc, seats).ok()?;
    if quiet.image().size() != 32 + 256 * 64 {
        return None;
    }
    let mut bytes = [0; 32 + 256 * 64];
    quiet.image().spell(&mut bytes);
    Some(bytes)
}

/// How many pages and rows an index has, and what is found at key 7; nothing, where it was not opened.
fn found_in(opened: Result<Vec<Seat>, ImageFault>) -> Option<(u32, u64, Option<KeyReply>)> {
    let mut seat = opened.ok()?.pop()?;
    Some((seat.pages(), count_rows(&mut seat), seat.find(7)))
}

#[test]
fn seats_close_to_an_image_that_opens_again(rt: HostRuntime) {
    let alloc = rt.alloc();
    assert!(rt; image_length(64) == 32 + 256 * 64);
    let bytes = spelled(alloc).expect(&rt, "it is closed");
    let seven = Some(KeyReply::Found(7));
    assert!(rt; found_in(open_image(alloc, &bytes, 1)) == Some((64, 100, seven)));
    assert!(rt; found_in(open_larger(alloc, &bytes, 128, 1)) == Some((128, 100, seven)));
    assert!(rt; open_larger(alloc, &bytes, 63, 1).err() == Some(ImageFault::Pages));
}

/// Why an index of two seats is not closed by one of them, how many come back, and what the one finds then.
fn refused(alloc: Global) -> Option<(CloseFault, usize, Option<KeyReply>)> {
    let mut seats = open(alloc, 64, 2).ok()?;
    let seat = seats.pop()?;
    let boxes = boxed(alloc, seat)?;
    let (mut back, why) = close(alloc, boxes).err()?;
    let count = back.len();
    let mut seat = back.pop()?;
    Some((why, count, seat.find(1)))
}

#[test]
fn a_close_without_all_seats_is_refused(rt: HostRuntime) {
    let seen = refused(rt.alloc()).expect(&rt, "one is missing");
    assert!(rt; seen == (CloseFault::Missing, 1, Some(KeyReply::Absent)));
}

/// A window of so many living rows moves over so many insertions, with 256 pages.
const LIVING: u64 = 1_222;

const INSERTIONS: u64 = 12_000;

/// Writes a key, and makes the call again while it is to be made again, so often at most.
fn written(seat: &mut Seat, key: u64, write: KeyWrite) -> Option<KeyReply> {
    for _call in 0..4_096 {
        let reply = seat.write(key, write);
        if reply.is_some() {
            return reply;
        }
    }
    None
}

/// How many keys of a window are not inserted, or not deleted when so many came behind them.
fn moved_in_vain(seat: &mut Seat) -> u64 {
    let mut wrong = 0u64;
    for key in 0..INSERTIONS + LIVING {
        let new = key >= INSERTIONS
            || written(seat, key, KeyWrite::Insert(key)) == Some(KeyReply::Inserted);
        let old = key < LIVING
            || written(seat, key - LIVING, KeyWrite::Delete)
                == Some(KeyReply::Deleted(key - LIVING));
        if !new || !old {
            wrong = wrong.saturating_add(1);
        }
    }
    wrong
}

/// How many of the rows are inserted that surely fit 256 pages.
fn filled(seat: &mut Seat) -> u64 {
    let mut inserted = 0u64;
    for key in 0..1_528 {
        if written(seat, key, KeyWrite::Insert(key)) == Some(KeyReply::Inserted) {
            inserted = inserted.saturating_add(1);
        }
    }
    inserted
}

/// Whether a window moves, leaves nothing to do, and room for the rows that surely fit.
fn window_moves(seat: &mut Seat) -> bool {
    moved_in_vain(seat) == 0 && seat.upkeep(4_096) && seat.waiting() == 0 && filled(seat) == 1_528
}

#[test]
fn a_window_moves_and_leaves_nothing_to_do(rt: HostRuntime) {
    let mut seat = opened(rt.alloc(), 256).expect(&rt, "it is opened");
    assert!(rt; window_moves(&mut seat));
}
