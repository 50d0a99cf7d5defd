//! Reservations of frames and of a page.
ghost use Rattle.std.specs.Prelude.{◌≡◌, ℕ, ◌+◌, ◌<◌, ◌≤◌, true, false, List, length, IfOk, IfErr, IfSome, IfNone, Some, None};
ghost use Rattle.bl_layout.specs.Words.{frame_count};
ghost use Rattle.bl_store_rule.specs.Pages.{Released, Takes, Refuses};
ghost use Rattle.bl_store_rule.specs.Frames.{owner_at};
ghost use Rattle.bl_store_rule.specs.Observed.{wanted};
ghost use Rattle.bl_store.specs.Owners.{IsHandOf};
ghost use Rattle.bl_store.specs.Hands.{known, IsSameHand, IsSameReading, IsSameStamp, IsSameStock, IsQuiet, HasNoStock, IsStockOf, MayRetire, SawTaken, IsTried, IsWhy, WasRefused};

use bl_layout::held_by;
use bl_room::end_near;
use bl_store::{Hand, NoRoom, Stock, Store};
use bl_store_rule::plays::{Allot, Ask, Note, Refuse, Reserve, Return, Take};
use bl_store_rule::{PagePlay, PageRule, TimePlay};
use std::alloc::Allocator;
use std::marker::Brand;

/// At this time and later no reservation is given.
const END_OF_TIME: u64 = 1 << 60;

/// A reservation tries so many chunks that have free frames as they are counted, before it tries each frame.
const CHUNKS_A_SEARCH: u32 = 16;

/// Reserves as many frames, and as many pages. It is refused where each frame, or each page from 1 upward, was tried. A refused
/// reservation is one event, and leaves nothing reserved.
pub fn reserve<D, R: PageRule<D>, A: Allocator, T: PagePlay<D>, M: TimePlay<D>>(
    store: &Store<D, R, A>,
    hand: &mut Hand<D>,
    pages: u32,
    frames: u32,
) -> Result<Stock, NoRoom>
    requires own { IsHandOf store.now hand.old }
    requires few { (pages ≤ 1) × (frames ≤ 3) }
    requires empty { HasNoStock hand.old.seat }
    requires takes { pages ≡ 1 → (x : ℕ) → Takes R.holds store.now.layout hand.old.number (known hand.old.seat) x T.then }
    requires refuses { Refuses R.holds store.now.layout hand.old.number (known hand.old.seat) M.then }
    ensures same { IsSameHand hand.old.seat hand.new.seat × IsSameStamp hand.old.seat hand.new.seat }
    ensures stock { IfOk result (λ s. IsStockOf hand.new.seat s × (s.count ≡ frames) × MayRetire hand.new.seat) }
    ensures no_page { pages ≡ 0 → IfOk result (λ s. (s.page ≡ None) × (known hand.new.seat ≡ known hand.old.seat)) }
    ensures page { pages ≡ 1
        → IfOk result (λ s. (x : ℕ) × (s.page ≡ Some x) × (0 < x) × (x < store.now.layout.pages)
        × ((words : List ℕ) × T.then (known hand.old.seat) x Released words (known hand.new.seat))) }
    ensures refused { IfErr result (λ _. HasNoStock hand.new.seat × ((now : ℕ) × M.then (known hand.old.seat) now (known hand.new.seat))) }
    ensures why { IfErr result (IsWhy hand.new.seat pages frames) }
    ensures asked { IfErr result (λ _. WasRefused hand.new.seat pages frames) }
    ensures reads { pages ≡ 0 → IfOk result (λ _. IsSameReading hand.old.seat hand.new.seat) }
{
    prepare(store, hand, frames);
    let clock = store
        .table
        .shared
        .load::<Allot>(&mut hand.seat, store.layout.clock_cell());
    if clock >= END_OF_TIME {
        refuse::<_, _, _, M, Brand>(store, hand, pages, frames);
        return Err(NoRoom::Clock);
    }
    let mut stock = Stock {
        page: None,
        frames: [0; 3],
        count: 0,
    };
    reserve_frames(store, hand, &mut stock, frames);
    if stock.count < frames {
        give_back(store, hand, &mut stock);
        store.room.note_refused(hand.number);
        refuse::<_, _, _, M, Brand>(store, hand, pages, frames);
        return Err(NoRoom::Frames);
    }
    if pages > 0 {
        stock.page = take::<_, _, _, T>(store, hand);
        if stock.page.is_none() {
            give_back(store, hand, &mut stock);
            refuse::<_, _, _, M, Brand>(store, hand, pages, frames);
            return Err(NoRoom::Pages);
        }
    }
    Ok(stock)
}

// The reservation's one event, where it is refused.
fn refuse<D, R: PageRule<D>, A: Allocator, M: TimePlay<D>, J: Ask>(
    store: &Store<D, R, A>,
    hand: &mut Hand<D>,
    pages: u32,
    frames: u32,
)
    requires own { IsHandOf store.now hand.old }
    requires asked { (pages ≡ J.pages) × (frames ≡ J.frames) }
    requires refuses { Refuses R.holds store.now.layout hand.old.number (known hand.old.seat) M.then }
    ensures same { IsSameHand hand.old.seat hand.new.seat × IsSameStamp hand.old.seat hand.new.seat }
    ensures stock { (hand.new.seat.me.0.stock ≡ hand.old.seat.me.0.stock) × (hand.new.seat.me.0.seen ≡ hand.old.seat.me.0.seen)
        × (hand.new.seat.me.0.got ≡ hand.old.seat.me.0.got) }
    ensures refused { hand.new.seat.me.0.refused ≡ Some (wanted pages frames) }
    ensures observed { (now : ℕ) × M.then (known hand.old.seat) now (known hand.new.seat) }
{
    store
        .table
        .shared
        .load::<Refuse<M, J>>(&mut hand.seat, store.layout.clock_cell());
}

// Tries the frames that it has released itself, then each frame once, until there are enough.
#[inline(always)]
fn reserve_frames<D, R: PageRule<D>, A: Allocator>(
    store: &Store<D, R, A>,
    hand: &mut Hand<D>,
    stock: &mut Stock,
    wanted: u32,
)
    requires own { IsHandOf store.now hand.old }
    requires wanted { (wanted ≤ 3) × (wanted ≤ hand.old.seat.me.0.puts) }
    requires stock { IsStockOf hand.old.seat stock.old × (stock.old.count ≤ wanted) }
    ensures same { IsQuiet hand.old.seat hand.new.seat × (stock.new.page ≡ stock.old.page) }
    ensures stock { IsStockOf hand.new.seat stock.new × (stock.new.count ≤ wanted) }
    ensures got { length hand.new.seat.me.0.got + stock.old.count ≡ length hand.old.seat.me.0.got + stock.new.count }
    ensures seen { stock.new.count < wanted → (f : ℕ) → f < frame_count hand.new.seat.me.0.layout → IsTried hand.new.seat f }
    ensures reads { IsSameReading hand.old.seat hand.new.seat }
{
    try_released(store, hand, stock, wanted);
    if stock.count < wanted {
        search_frames(store, hand, stock, wanted);
    }
}

// Tries frames from the hand's cursor on until there are enough, in a large store some of them and then such as nobody has used yet, then
// those of chunks that have some as they are counted, and at last each one. Frames of the ring leave the cursor where it is, as most of
// those around them are in use.
#[inline(never)]
fn search_frames<D, R: PageRule<D>, A: Allocator>(
    store: &Store<D, R, A>,
    hand: &mut Hand<D>,
    stock: &mut Stock,
    wanted: u32,
)
    requires own { IsHandOf store.now hand.old }
    requires wanted { (wanted ≤ 3) × (wanted ≤ hand.old.seat.me.0.puts) }
    requires stock { IsStockOf hand.old.seat stock.old × (stock.old.count < wanted) }
    ensures same { IsQuiet hand.old.seat hand.new.seat × (stock.new.page ≡ stock.old.page) }
    ensures stock { IsStockOf hand.new.seat stock.new × (stock.new.count ≤ wanted) }
    ensures got { length hand.new.seat.me.0.got + stock.old.count ≡ length hand.old.seat.me.0.got + stock.new.count }
    ensures seen { stock.new.count < wanted → (f : ℕ) → f < frame_count hand.new.seat.me.0.layout → IsTried hand.new.seat f }
    ensures reads { IsSameReading hand.old.seat hand.new.seat }
{
    let ready = stock.count;
    let total = store.layout.frames();
    let first = hand.sight.frame().min(total);
    let end = end_near(store.layout, first);
    try_frames(store, hand, stock, first, end, wanted);
    let (from, to) = fresh_frames(store, stock.count < wanted);
    try_frames(store, hand, stock, from, to, wanted);
    try_counted(store, hand, stock, first, wanted);
    try_frames(store, hand, stock, first, total, wanted);
    try_frames(store, hand, stock, 0, total, wanted);
    if stock.count > ready {
        let last = stock.frames[stock.count as usize - 1];
        hand.sight.go_on_at(last);
        store.room.note_spent(last, stock.count - ready);
    }
}

// Tries the frames of the chunks that have some as they are counted, from that frame on and around, until there are enough, and of so many
// chunks at most. A chunk that has fewer has none any more.
fn try_counted<D, R: PageRule<D>, A: Allocator>(
    store: &Store<D, R, A>,
    hand: &mut Hand<D>,
    stock: &mut Stock,
    first: u32,
    wanted: u32,
)
    requires own { IsHandOf store.now hand.old }
    requires wanted { (wanted ≤ 3) × (wanted ≤ hand.old.seat.me.0.puts) }
    requires stock { IsStockOf hand.old.seat stock.old × (stock.old.count ≤ wanted) }
    ensures same { IsQuiet hand.old.seat hand.new.seat × (stock.new.page ≡ stock.old.page) }
    ensures stock { IsStockOf hand.new.seat stock.new × (stock.new.count ≤ wanted) }
    ensures got { length hand.new.seat.me.0.got + stock.old.count ≡ length hand.old.seat.me.0.got + stock.new.count }
    ensures more { stock.old.count ≤ stock.new.count }
    ensures reads { IsSameReading hand.old.seat hand.new.seat }
{
    for _ in 0..CHUNKS_A_SEARCH {
        if stock.count == wanted {
            return;
        }
        let (from, to) = store.room.next_spare(first, store.layout.frames());
        if from == to {
            return;
        }
        let mark = store.room.mark(from);
        try_frames(store, hand, stock, from, to, wanted);
        if stock.count < wanted {
            store.room.note_counted(from, mark, 0);
        }
    }
}

// Frames of a large store that nobody has used yet, where they are wanted.
fn fresh_frames<D, R: PageRule<D>, A: Allocator>(
    store: &Store<D, R, A>,
    are_wanted: bool,
) -> (u32, u32)
    ensures { (result.0 ≤ result.1) × (result.1 ≤ frame_count store.now.layout) }
{
    if are_wanted && store.layout.is_large() {
        store.room.take_chunk(store.layout.frames())
    } else {
        (0, 0)
    }
}

// Releases what it has retired, where it has too few frames at hand. This is no part of the reservation, and comes before it.
#[inline(always)]
fn prepare<D, R: PageRule<D>, A: Allocator>(store: &Store<D, R, A>, hand: &mut Hand<D>, frames: u32)
    requires own { IsHandOf store.now hand.old }
    ensures same { IsSameHand hand.old.seat hand.new.seat × IsSameStamp hand.old.seat hand.new.seat × IsSameStock hand.old.seat hand.new.seat
        × (known hand.new.seat ≡ known hand.old.seat) }
    ensures reads { IsSameReading hand.old.seat hand.new.seat }
{
    if hand.sight.is_to_recycle(frames) {
        store.recycle(hand);
    }
}

// Tries the frames that it has released itself, the last one first.
fn try_released<D, R: PageRule<D>, A: Allocator>(
    store: &Store<D, R, A>,
    hand: &mut Hand<D>,
    stock: &mut Stock,
    wanted: u32,
)
    requires own { IsHandOf store.now hand.old }
    requires wanted { (wanted ≤ 3) × (wanted ≤ hand.old.seat.me.0.puts) }
    requires stock { IsStockOf hand.old.seat stock.old × (stock.old.count ≤ wanted) }
    ensures same { IsQuiet hand.old.seat hand.new.seat × (stock.new.page ≡ stock.old.page) }
    ensures stock { IsStockOf hand.new.seat stock.new × (stock.new.count ≤ wanted) }
    ensures got { length hand.new.seat.me.0.got + stock.old.count ≡ length hand.old.seat.me.0.got + stock.new.count }
    ensures reads { IsSameReading hand.old.seat hand.new.seat }
{
    let total = store.layout.frames();
    for _ in 0..wanted {
        if stock.count == wanted {
            return;
        }
        let Some(frame) = hand.sight.take_released() else {
            return;
        };
        if frame < total {
            try_frame(store, hand, stock, frame);
        }
    }
}

// Tries the frames of a range, until there are enough.
fn try_frames<D, R: PageRule<D>, A: Allocator>(
    store: &Store<D, R, A>,
    hand: &mut Hand<D>,
    stock: &mut Stock,
    from: u32,
    to: u32,
    wanted: u32,
)
    requires own { IsHandOf store.now hand.old }
    requires range { (from ≤ to) × (to ≤ frame_count store.now.layout) }
    requires wanted { (wanted ≤ 3) × (wanted ≤ hand.old.seat.me.0.puts) }
    requires stock { IsStockOf hand.old.seat stock.old × (stock.old.count ≤ wanted) }
    ensures same { IsQuiet hand.old.seat hand.new.seat × (stock.new.page ≡ stock.old.page) }
    ensures stock { IsStockOf hand.new.seat stock.new × (stock.new.count ≤ wanted) }
    ensures got { length hand.new.seat.me.0.got + stock.old.count ≡ length hand.old.seat.me.0.got + stock.new.count }
    ensures seen { stock.new.count < wanted → (f : ℕ) → from ≤ f → f < to → IsTried hand.new.seat f }
    ensures kept { (f : ℕ) → IsTried hand.old.seat f → IsTried hand.new.seat f }
    ensures more { stock.old.count ≤ stock.new.count }
    ensures reads { IsSameReading hand.old.seat hand.new.seat }
{
    for frame in from..to {
        if stock.count == wanted {
            return;
        }
        try_frame(store, hand, stock, frame);
    }
}

// Reserves a frame, where it is free.
fn try_frame<D, R: PageRule<D>, A: Allocator>(
    store: &Store<D, R, A>,
    hand: &mut Hand<D>,
    stock: &mut Stock,
    frame: u32,
)
    requires own { IsHandOf store.now hand.old }
    requires frame { frame < frame_count store.now.layout }
    requires stock { IsStockOf hand.old.seat stock.old × (stock.old.count < 3) × (stock.old.count < hand.old.seat.me.0.puts) }
    ensures same { IsQuiet hand.old.seat hand.new.seat × (stock.new.page ≡ stock.old.page) }
    ensures stock { IsStockOf hand.new.seat stock.new × (stock.old.count ≤ stock.new.count) × (stock.new.count ≤ stock.old.count + 1) }
    ensures got { length hand.new.seat.me.0.got + stock.old.count ≡ length hand.old.seat.me.0.got + stock.new.count }
    ensures tried { IsTried hand.new.seat frame }
    ensures kept { (f : ℕ) → IsTried hand.old.seat f → IsTried hand.new.seat f }
    ensures reads { IsSameReading hand.old.seat hand.new.seat }
{
    let at = store.layout.frame_owner_cell(frame);
    if store.table.shared.load::<Note>(&mut hand.seat, at) != 0 {
        return;
    }
    let mine = held_by(hand.number);
    let found = store
        .table
        .shared
        .compare_exchange::<Reserve>(&mut hand.seat, at, 0, mine);
    if found == 0 {
        stock.frames[stock.count as usize] = frame;
        stock.count += 1;
    }
}

// All frames of the stock are free again.
fn give_back<D, R: PageRule<D>, A: Allocator>(
    store: &Store<D, R, A>,
    hand: &mut Hand<D>,
    stock: &mut Stock,
)
    requires own { IsHandOf store.now hand.old }
    requires stock { IsStockOf hand.old.seat stock.old }
    ensures same { IsQuiet hand.old.seat hand.new.seat × (hand.new.seat.me.0.seen ≡ hand.old.seat.me.0.seen)
        × (hand.new.seat.me.0.got ≡ hand.old.seat.me.0.got) }
    ensures stock { HasNoStock hand.new.seat }
{
    while stock.count > 0 {
        stock.count -= 1;
        let frame = stock.frames[stock.count as usize];
        let mine = held_by(hand.number);
        store.table.shared.compare_exchange::<Return>(
            &mut hand.seat,
            store.layout.frame_owner_cell(frame),
            mine,
            0,
        );
        store.room.note_spare(frame);
    }
}

// Takes the least page that is released, as far as the hints go that all hands share, and where they lead to none, tries each.
fn take<D, R: PageRule<D>, A: Allocator, T: PagePlay<D>>(
    store: &Store<D, R, A>,
    hand: &mut Hand<D>,
) -> Option<u32>
    requires own { IsHandOf store.now hand.old }
    requires takes { (x : ℕ) → Takes R.holds store.now.layout hand.old.number (known hand.old.seat) x T.then }
    ensures same { IsSameHand hand.old.seat hand.new.seat × IsSameStamp hand.old.seat hand.new.seat × IsSameStock hand.old.seat hand.new.seat }
    ensures page { IfSome result (λ x. (0 < x) × (x < store.now.layout.pages)
        × ((words : List ℕ) × T.then (known hand.old.seat) x Released words (known hand.new.seat))) }
    ensures none { IfNone result ((known hand.new.seat ≡ known hand.old.seat)
        × ((x : ℕ) → 0 < x → x < store.now.layout.pages → SawTaken hand.new.seat (owner_at store.now.layout x))) }
{
    let pages = store.layout.pages;
    let (first, end) = store.room.near(pages);
    if let Some(page) = take_from::<_, _, _, T>(store, hand, first, end) {
        return Some(page);
    }
    let (from, to) = store.room.next_block(end, pages);
    if let Some(page) = take_from::<_, _, _, T>(store, hand, from, to) {
        return Some(page);
    }
    take_from::<_, _, _, T>(store, hand, 1, pages)
}

fn take_from<D, R: PageRule<D>, A: Allocator, T: PagePlay<D>>(
    store: &Store<D, R, A>,
    hand: &mut Hand<D>,
    from: u32,
    to: u32,
) -> Option<u32>
    requires own { IsHandOf store.now hand.old }
    requires range { (0 < from) × (from ≤ to) × (to ≤ store.now.layout.pages) }
    requires takes { (x : ℕ) → Takes R.holds store.now.layout hand.old.number (known hand.old.seat) x T.then }
    ensures same { IsSameHand hand.old.seat hand.new.seat × IsSameStamp hand.old.seat hand.new.seat × IsSameStock hand.old.seat hand.new.seat }
    ensures page { IfSome result (λ x. (0 < x) × (x < store.now.layout.pages)
        × ((words : List ℕ) × T.then (known hand.old.seat) x Released words (known hand.new.seat))) }
    ensures none { IfNone result ((known hand.new.seat ≡ known hand.old.seat)
        × ((x : ℕ) → from ≤ x → x < to → SawTaken hand.new.seat (owner_at store.now.layout x))
        × ((i : ℕ) → SawTaken hand.old.seat i → SawTaken hand.new.seat i)) }
{
    for page in from..to {
        if try_page::<_, _, _, T>(store, hand, page) {
            store.room.note_taken(page);
            return Some(page);
        }
    }
    None
}

// Takes a page, where it is released.
fn try_page<D, R: PageRule<D>, A: Allocator, T: PagePlay<D>>(
    store: &Store<D, R, A>,
    hand: &mut Hand<D>,
    page: u32,
) -> bool
    requires own { IsHandOf store.now hand.old }
    requires page { page < store.now.layout.pages }
    requires takes { Takes R.holds store.now.layout hand.old.number (known hand.old.seat) page T.then }
    ensures same { IsSameHand hand.old.seat hand.new.seat × IsSameStamp hand.old.seat hand.new.seat × IsSameStock hand.old.seat hand.new.seat }
    ensures taken { result ≡ true → (words : List ℕ) × T.then (known hand.old.seat) page Released words (known hand.new.seat) }
    ensures missed { result ≡ false → (known hand.new.seat ≡ known hand.old.seat) × SawTaken hand.new.seat (owner_at store.now.layout page)
        × ((i : ℕ) → SawTaken hand.old.seat i → SawTaken hand.new.seat i) }
{
    let at = store.layout.page_owner_cell(page);
    if store.table.shared.load::<Note>(&mut hand.seat, at) != 0 {
        return false;
    }
    let mine = held_by(hand.number);
    store
        .table
        .shared
        .compare_exchange::<Take<T>>(&mut hand.seat, at, 0, mine)
        == 0
}
