//! Whether frames are scarce. All of it is a hint, of which nothing is promised: others take and release meanwhile.

ghost use Rattle.std.specs.Prelude.{◌≤◌};
ghost use Rattle.bl_layout.specs.Words.{frame_count};

use bl_layout::Layout;
use bl_room::RING;
use bl_store::{Hand, Store};
use bl_store_rule::PageRule;
use std::alloc::Allocator;

/// How many frames a reservation asks for at most.
const MOST: u32 = 3;

/// So many frames a process may take from its begin to its end: an insertion takes one or two for its leaf, and as many for each level to
/// which it posts. The layout has so many to spare for each hand beside those of pages.
const FRAMES_A_HAND: u32 = 8;

/// So many puts a hand makes at most between two looks for frames.
const PUTS_A_LOOK: u32 = 64;

/// A look by counts sees the frames of so many looks of each hand, so that others need not look.
const LOOKS_AHEAD: u32 = 2;

/// So many frames are counted together, and so many stand near that which the hand would try first.
const FRAMES_NEAR: u32 = 1_024;

/// With so many frames to spare for each hand they are ample: the rings of all hands are full before frames are scarce. With fewer some find
/// frames in their rings, and take them, which others have counted.
const AMPLE: u32 = 1_024;

/// Whether a process that begins now may find too few frames while some wait to be released: fewer are free than all hands together
/// may take before they look again, and some are retired. So whoever has looked finds what it takes, though it loses its processor
/// and others go on meanwhile. It looks at the frames that the hand would try first, and no further than it has to; a hand that has
/// seen enough looks again some puts later. It is a hint of which nothing is promised: others reserve and release meanwhile.
///
/// Where frames are ample a look takes no longer in a longer table, though another thread has lost its processor within a process and
/// holds all back that was retired since: it goes by counts.
pub fn lacks_frames<D, R: PageRule<D>, A: Allocator>(
    store: &Store<D, R, A>,
    hand: &Hand<D>,
) -> bool {
    if !store.room.is_to_look(hand.number, hand.sight.puts()) || has_ready(store, hand) {
        return false;
    }
    let puts = puts_a_look(store);
    let wanted = (FRAMES_A_HAND + puts) * store.layout.passes;
    if is_ample(store) {
        if !store.room.take_ahead(puts) && !counts_enough(store, hand, wanted) {
            return true;
        }
    } else {
        let (free, retired) = look_around(store, hand, wanted);
        if free < wanted {
            return retired;
        }
    }
    store.room.note_looked(
        hand.number,
        hand.sight.puts().saturating_add(u64::from(puts)),
    );
    false
}

// How many puts a hand makes between two looks. All hands together may take so many frames, and are to see them free: so it is what half
// of the frames to spare is for each.
fn puts_a_look<D, R: PageRule<D>, A: Allocator>(store: &Store<D, R, A>) -> u32
    ensures { result ≤ 64 }
{
    let half = store.layout.spare / 2 / store.layout.passes;
    half.saturating_sub(FRAMES_A_HAND).min(PUTS_A_LOOK)
}

// Whether so many frames are free where they are ample, and as many more as all hands keep in sight and take without a look: it sees them
// near by, or goes by counts and then looks. Where too few are counted it counts one more chunk, so that each is found in the end; some
// are retired then, as more are to spare than all hands keep in sight.
#[inline(never)]
fn counts_enough<D, R: PageRule<D>, A: Allocator>(
    store: &Store<D, R, A>,
    hand: &Hand<D>,
    wanted: u32,
) -> bool {
    if store.room.has_fresh(store.layout) {
        return true;
    }
    let mark = store.room.ahead();
    let more = LOOKS_AHEAD * PUTS_A_LOOK * store.layout.passes;
    let all = wanted
        .saturating_add(RING as u32 * store.layout.passes)
        .saturating_add(more);
    let frames = store.layout.frames();
    if all <= FRAMES_NEAR && sees_frames_near(store, hand, all) {
        store.room.note_ahead(mark, more);
        return true;
    }
    let chunks = chunks_a_look(store.layout, all);
    if store
        .room
        .has_spare(hand.sight.frame(), frames, all, chunks)
    {
        if !sees_counted(store, hand, all, chunks) {
            return false;
        }
        store.room.note_ahead(mark, more);
        return true;
    }
    let (from, to) = store.room.next_to_count(hand.number, frames);
    count_chunk(store, from, to, frames);
    false
}

// How many chunks a look for so many frames goes over: they have four times as many to spare, where all are free. So it ends early where few
// are, and does not begin where too few are counted there.
fn chunks_a_look(layout: Layout, wanted: u32) -> u32 {
    let chunks = layout.frames() / FRAMES_NEAR + 1;
    let most = u64::from(wanted)
        .saturating_mul(4)
        .saturating_mul(u64::from(chunks));
    let share = (most / u64::from(layout.spare)).saturating_add(1);
    share.min(u64::from(chunks)) as u32
}

// Whether so many frames are free in the chunks that have some as they are counted, so many chunks at most. It counts them anew.
fn sees_counted<D, R: PageRule<D>, A: Allocator>(
    store: &Store<D, R, A>,
    hand: &Hand<D>,
    wanted: u32,
    chunks: u32,
) -> bool {
    let frames = store.layout.frames();
    let mut missing = wanted;
    let mut frame = hand.sight.frame() / FRAMES_NEAR * FRAMES_NEAR;
    let mut passed = 0u32;
    for _ in 0..chunks {
        let (from, to) = store.room.next_spare(frame, frames);
        passed = passed.saturating_add(way(frame, to, frames));
        // It has come around to where it began.
        if from == to || passed > frames {
            return false;
        }
        missing = missing.saturating_sub(count_chunk(store, from, to, missing));
        if missing == 0 {
            return true;
        }
        frame = if to == frames { 0 } else { to };
    }
    false
}

// How far it is from one frame to another, where the first follows the last.
fn way(from: u32, to: u32, frames: u32) -> u32 {
    if to >= from {
        to.saturating_sub(from)
    } else {
        to.saturating_add(frames).saturating_sub(from)
    }
}

// How many frames of a chunk are free, so many at most. Where there are fewer, all know it then.
fn count_chunk<D, R: PageRule<D>, A: Allocator>(
    store: &Store<D, R, A>,
    from: u32,
    to: u32,
    most: u32,
) -> u32
    requires { (from ≤ to) × (to ≤ frame_count store.now.layout) }
{
    if from == to {
        return 0;
    }
    let mark = store.room.mark(from);
    let (free, _) = look_over(store, from, to, most);
    if free < most {
        store.room.note_counted(from, mark, free);
    }
    free
}

// How many frames are free, so many at most, from those that the hand would try first on and around; and whether one that it looked at
// is retired.
fn look_around<D, R: PageRule<D>, A: Allocator>(
    store: &Store<D, R, A>,
    hand: &Hand<D>,
    most: u32,
) -> (u32, bool)
    ensures few { result.0 ≤ most }
{
    let total = store.layout.frames();
    let first = hand.sight.frame().min(total);
    let (free, retired) = look_over(store, first, total, most);
    let (more, others) = look_over(store, 0, first, most - free);
    (free + more, retired || others)
}

/// Whether a reservation that begins now finds its frames, as far as is seen. It is a hint as well.
///
/// Where frames are ample a hand that has released as many as a reservation asks for is taken at its word: to look whether others have
/// taken them would cost each change, and such a look is a hint at best.
#[inline(always)]
pub fn finds_frames<D, R: PageRule<D>, A: Allocator>(
    store: &Store<D, R, A>,
    hand: &Hand<D>,
) -> bool {
    (hand.sight.has_released(MOST) && is_ample(store)) || sees_frames(store, hand)
}

// Whether so many frames are to spare that those which a hand has released stand for all.
#[inline(always)]
fn is_ample<D, R: PageRule<D>, A: Allocator>(store: &Store<D, R, A>) -> bool {
    store.layout.spare / AMPLE >= store.layout.passes
}

// Whether as many frames are free as a reservation asks for at most: those that the hand would try first, some that nobody has used yet,
// or some of a chunk that has as many as it is counted. Else it looks at all.
fn sees_frames<D, R: PageRule<D>, A: Allocator>(store: &Store<D, R, A>, hand: &Hand<D>) -> bool {
    sees_frames_near(store, hand, MOST)
        || store.room.has_fresh(store.layout)
        || sees_frames_counted(store, hand)
        || look_around(store, hand, MOST).0 >= MOST
}

// Whether so many are free of those that the hand would try first.
fn sees_frames_near<D, R: PageRule<D>, A: Allocator>(
    store: &Store<D, R, A>,
    hand: &Hand<D>,
    wanted: u32,
) -> bool {
    let total = store.layout.frames();
    let first = hand.sight.frame().min(total);
    look_over(store, first, total.min(first + FRAMES_NEAR), wanted).0 >= wanted
}

// Whether as many are free in a chunk that has some, as it is counted.
fn sees_frames_counted<D, R: PageRule<D>, A: Allocator>(
    store: &Store<D, R, A>,
    hand: &Hand<D>,
) -> bool {
    let (from, to) = store
        .room
        .next_spare(hand.sight.frame(), store.layout.frames());
    look_over(store, from, to, MOST).0 >= MOST
}

// Whether frames are ample, and the hand has released as many as a reservation asks for, of which nobody has taken those that it would
// try first.
fn has_ready<D, R: PageRule<D>, A: Allocator>(store: &Store<D, R, A>, hand: &Hand<D>) -> bool {
    let ready = hand.sight.ready();
    if ready < MOST || !is_ample(store) {
        return false;
    }
    for place in ready - MOST..ready {
        if !is_free(store, hand.sight.released(place)) {
            return false;
        }
    }
    true
}

// Whether the number is that of a free frame.
fn is_free<D, R: PageRule<D>, A: Allocator>(store: &Store<D, R, A>, frame: u32) -> bool {
    if frame >= store.layout.frames() {
        return false;
    }
    store
        .table
        .shared
        .peek(store.layout.frame_owner_cell(frame))
        == 0
}

// How many of the frames of a range are free, so many at most, and whether one that it looked at is retired.
pub(crate) fn look_over<D, R: PageRule<D>, A: Allocator>(
    store: &Store<D, R, A>,
    from: u32,
    to: u32,
    wanted: u32,
) -> (u32, bool)
    requires range { (from ≤ to) × (to ≤ frame_count store.now.layout) }
    ensures few { result.0 ≤ wanted }
{
    let mut free = 0;
    let mut retired = false;
    for frame in from..to {
        if free == wanted {
            return (free, retired);
        }
        let state = store
            .table
            .shared
            .peek(store.layout.frame_owner_cell(frame));
        if state == 0 {
            free += 1;
        }
        retired = retired || state % 4 == 3;
    }
    (free, retired)
}
