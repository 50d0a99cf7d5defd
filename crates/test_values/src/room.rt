//! How much room a store has and where, and what a hand keeps in sight.

use bl_layout::Layout;
use bl_room::{Room, Sight, is_all_zeros};
use std::alloc::{AllocError, Global};
use std::test::Fail;

// The words of so many pages in use.
fn used(alloc: Global, pages: u32) -> Result<Vec<[u64; 32]>, AllocError> {
    let mut first = Vec::new(alloc);
    for _ in 0..pages {
        first.push([1u64; 32])?;
    }
    Ok(first)
}

// Of 5,000 pages the first three have words, and all others are free. Pages 0 to 4,095 are counted together, and so are those behind them.
#[test]
fn free_pages_stand_in_two_blocks(rt: HostRuntime) -> Result<(), Fail> {
    let room = Room::new(rt.alloc(), Layout::of(5_000, 2), &used(rt.alloc(), 3)?)?;
    assert!(rt; room.free() == 4_997 && room.retiring() == 0);
    assert!(rt; room.near(5_000) == (1, 4_096));
    assert!(rt; room.next_block(4_096, 5_000) == (4_096, 5_000));
    assert!(rt; room.next_block(7, 5_000) == (1, 4_096));
    Ok(())
}

// A page that is taken is the last one of which the next hand thinks, and one that is released the first.
#[test]
fn released_page_is_the_least(rt: HostRuntime) -> Result<(), Fail> {
    let room = Room::new(rt.alloc(), Layout::of(5_000, 2), &used(rt.alloc(), 3)?)?;
    room.note_taken(3);
    assert!(rt; room.free() == 4_996 && room.near(5_000) == (4, 4_096));
    room.note_retired();
    assert!(rt; room.free() == 4_996 && room.retiring() == 1);
    room.note_released(3);
    assert!(rt; room.free() == 4_997 && room.retiring() == 0);
    assert!(rt; room.near(5_000) == (3, 4_096));
    Ok(())
}

// Each of two hands begins with 1,024 frames of its own. What is taken then stands behind these, as many frames at once, or those that are left.
#[test]
fn chunks_follow_each_other(rt: HostRuntime) -> Result<(), Fail> {
    let room = Room::new(rt.alloc(), Layout::of(5_000, 2), &used(rt.alloc(), 3)?)?;
    assert!(rt; room.take_chunk(4_000) == (2_048, 3_072));
    assert!(rt; room.take_chunk(4_000) == (3_072, 4_000));
    assert!(rt; room.take_chunk(4_000) == (4_000, 4_000));
    Ok(())
}

// 5,000 pages and two hands have 10,016 frames: nine chunks of 1,024, and one of 800. The first three are in use. Of those in a chunk that are
// released or taken each is counted, and whoever has looked at a chunk says how many it has.
#[test]
fn spare_frames_are_counted(rt: HostRuntime) -> Result<(), Fail> {
    let room = Room::new(rt.alloc(), Layout::of(5_000, 2), &used(rt.alloc(), 3)?)?;
    assert!(rt; room.has_spare(0, 10_016, 10_013, 10) && !room.has_spare(0, 10_016, 10_014, 10));
    assert!(rt; room.has_spare(0, 10_016, 1_021, 1) && !room.has_spare(0, 10_016, 1_022, 1));
    assert!(rt; room.next_spare(9_300, 10_016) == (9_216, 10_016));
    room.note_counted(9_300, 801, 2);
    assert!(rt; room.has_spare(0, 10_016, 10_013, 10));
    let mark = room.mark(9_300);
    room.note_counted(9_300, mark, 2);
    assert!(rt; room.has_spare(0, 10_016, 9_215, 10) && !room.has_spare(0, 10_016, 9_216, 10));
    room.note_spent(9_216, 3);
    assert!(rt; room.next_spare(9_300, 10_016) == (0, 1_024));
    room.note_spent(9_216, 1);
    room.note_spare(10_015);
    assert!(rt; room.next_spare(9_300, 10_016) == (9_216, 10_016));
    assert!(rt; room.has_spare(0, 10_016, 9_214, 10) && !room.has_spare(0, 10_016, 9_215, 10));
    // Who has looked before some were taken and released says nothing any more.
    room.note_counted(9_300, mark, 700);
    assert!(rt; !room.has_spare(0, 10_016, 9_215, 10));
    assert!(rt; room.next_to_count(1, 10_016) == (1_024, 2_048));
    assert!(rt; room.next_to_count(1, 10_016) == (2_048, 3_072));
    Ok(())
}

// The pages of an image fill the first frames: 3,000 of them leave nothing in the first two chunks, and 72 frames in the third. A look over so many
// chunks passes by those that have none.
#[test]
fn a_look_passes_by_full_chunks(rt: HostRuntime) -> Result<(), Fail> {
    let first = vec![in rt.alloc(); [1u64; 32]; 3_000]
        .ok()
        .ok_or("no memory")?;
    let room = Room::new(rt.alloc(), Layout::of(5_000, 2), &first)?;
    assert!(rt; room.has_spare(0, 10_016, 72, 1) && !room.has_spare(0, 10_016, 73, 1));
    assert!(rt; room.has_spare(0, 10_016, 1_096, 2) && !room.has_spare(0, 10_016, 1_097, 2));
    Ok(())
}

// Of a large store no frame is counted that nobody has used: as long as each hand finds a chunk of them, it is told so.
#[test]
fn fresh_frames_are_left(rt: HostRuntime) -> Result<(), Fail> {
    let layout = Layout::of(70_000, 2);
    let room = Room::new(rt.alloc(), layout, &used(rt.alloc(), 0)?)?;
    assert!(rt; room.has_fresh(layout) && !room.has_spare(0, layout.frames(), 1, 1_000));
    // A hand that has gone on into them leaves its chunk behind.
    room.note_spent(5_000, 1);
    assert!(rt; room.take_chunk(layout.frames()) == (5_120, 6_144));
    for _ in 0..1_000 {
        if room.take_chunk(layout.frames()).0 >= 132_096 {
            break;
        }
    }
    assert!(rt; room.has_fresh(layout));
    room.take_chunk(layout.frames());
    assert!(rt; !room.has_fresh(layout));
    assert!(rt;
        !Room::new(rt.alloc(), Layout::of(5_000, 2), &used(rt.alloc(), 0)?)?.has_fresh(Layout::of(
            5_000, 2
        ))
    );
    Ok(())
}

// A look has seen the frames of 128 puts. Two hands take 64 each, and a third finds none left. What a look says that began before another
// one ended counts for nothing, and where a hand was refused nobody goes by what was seen before.
#[test]
fn puts_are_seen_ahead(rt: HostRuntime) -> Result<(), Fail> {
    let room = Room::new(rt.alloc(), Layout::of(5_000, 2), &used(rt.alloc(), 3)?)?;
    assert!(rt; !room.take_ahead(64));
    let mark = room.ahead();
    room.note_ahead(mark, 128);
    assert!(rt; room.take_ahead(64) && room.take_ahead(64) && !room.take_ahead(64));
    room.note_ahead(mark, 128);
    assert!(rt; !room.take_ahead(64));
    room.note_ahead(room.ahead(), 64);
    room.note_refused(1);
    assert!(rt; !room.take_ahead(64));
    Ok(())
}

// A walk that found nothing counts until something comes, and where no other one has begun meanwhile.
#[test]
fn walks_tell_that_there_is_none(rt: HostRuntime) -> Result<(), Fail> {
    let room = Room::new(rt.alloc(), Layout::of(5_000, 2), &used(rt.alloc(), 1)?)?;
    let first = room.begin_walk();
    let second = room.begin_walk();
    room.end_walk(first);
    assert!(rt; !room.has_none());
    room.end_walk(second);
    assert!(rt; room.has_none());
    room.note_change();
    assert!(rt; !room.has_none());
    Ok(())
}

// Two hands want six free pages. With two free ones pages are scarce, and with four retired ones they are not for long; with one free page
// not each hand finds one.
#[test]
fn pages_are_scarce(rt: HostRuntime) -> Result<(), Fail> {
    let room = Room::new(rt.alloc(), Layout::of(5, 2), &used(rt.alloc(), 3)?)?;
    assert!(rt; room.lacks_pages() && !room.is_freeing_enough() && !room.is_short_of_pages());
    for _ in 0..4 {
        room.note_retired();
    }
    assert!(rt; room.is_freeing_enough());
    room.note_taken(3);
    assert!(rt; room.is_short_of_pages());
    Ok(())
}

// 100 pages and two hands have 216 frames, and 316 owners. In a large store each hand begins with 1,024 frames of its own.
#[test]
fn hands_begin_apart(rt: HostRuntime) {
    let second = Sight::of(1, Layout::of(100, 2));
    assert!(rt; second.frame() == 108 && second.owner() == 158);
    let third = Sight::of(2, Layout::of(70_000, 4));
    assert!(rt; third.frame() == 2_048);
}

// Frame 7 is retired and released, and taken again. With few frames to spare a sweep is due after each put.
#[test]
fn retired_frames_stay_in_sight(rt: HostRuntime) {
    let mut sight = Sight::of(0, Layout::of(100, 2));
    sight.note_retired(7, 1, Layout::of(100, 2));
    assert!(rt; sight.puts() == 1 && sight.is_due(1) && !sight.is_to_recycle(1));
    assert!(rt; sight.begin_recycling() == 1 && sight.retired(0) == 7);
    sight.keep_retired(0, 8);
    assert!(rt; sight.retired(0) == 8);
    sight.end_recycling(0);
    sight.note_released(7, 128);
    assert!(rt; sight.has_released(1) && sight.ready() == 1 && sight.released(0) == 7);
    assert!(rt; sight.take_released() == Some(7) && sight.take_released().is_none());
    sight.go_on_at(9);
    assert!(rt; sight.frame() == 9 && sight.begin_recycling() == 0);
}

// Page 9 is retired. The first sweep goes from it, and leads the next one nowhere; the second has no such page, and leads it on.
#[test]
fn sweeps_go_on(rt: HostRuntime) {
    let mut sight = Sight::of(0, Layout::of(100, 2));
    sight.note_gone(9);
    let first = sight.begin_sweep();
    sight.go_on_from(first, 73);
    assert!(rt; first == Some(9) && sight.owner() == 0 && !sight.is_due(0));
    let second = sight.begin_sweep();
    sight.go_on_from(second, 64);
    assert!(rt; second.is_none() && sight.owner() == 64);
}

#[test]
fn blank_pages(rt: HostRuntime) {
    let mut words = [0u64; 32];
    assert!(rt; is_all_zeros(&words));
    words[31] = 1;
    assert!(rt; !is_all_zeros(&words));
}
