//! Numbers of the words of a store.

use bl_layout::{Layout, Word, held_by, retired_at};

#[test]
fn small_store(rt: HostRuntime) {
    let layout = Layout::of(4, 1);
    let numbers = [
        layout.frames() as usize,
        layout.words(),
        layout.clock(),
        layout.process(0),
        layout.page(0),
        layout.page_owner(0),
        layout.frame_owner(0),
        layout.frame_word(0, 0),
        layout.frame_word(15, 31),
    ];
    assert!(rt; numbers == [16, 538, 0, 1, 2, 6, 10, 26, 537]);
}

#[test]
fn cells_of_a_small_store(rt: HostRuntime) {
    let layout = Layout::of(4, 2);
    let cells = [
        layout.clock_cell(),
        layout.page_cell(0),
        layout.page_cell(3),
        layout.page_owner_cell(0),
        layout.frame_owner_cell(0),
        layout.frame_word_cell(0, 0),
        layout.frame_word_cell(23, 31),
        layout.process_cell(0),
        layout.process_cell(1),
        layout.cells(),
    ];
    assert!(rt; cells == [0, 38, 41, 42, 46, 70, 837, 854, 870, 886]);
}

#[test]
fn largest_store(rt: HostRuntime) {
    let layout = Layout::of(65_536, 64);
    let last = layout.number(Word::FrameWord(131_583, 31));
    let numbers = [layout.frames() as usize, layout.words(), last];
    assert!(rt; numbers == [131_584, 4_473_409, 4_473_408]);
}

#[test]
fn words_of_owners(rt: HostRuntime) {
    assert!(rt; [held_by(0), held_by(1), held_by(63)] == [2, 6, 254]);
    assert!(rt; [retired_at(0), retired_at(1), retired_at(1 << 40)] == [3, 7, 4_398_046_511_107]);
}
