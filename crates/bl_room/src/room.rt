//! The counts of pages and frames that all hands of a store share.

ghost use Rattle.std.specs.Prelude.{◌<◌, ◌≤◌, ◌^◌};
ghost use Rattle.bl_layout.specs.Words.{frame_count};

use crate::blank::is_all_zeros;
use crate::first_words::FirstWords;
use bl_layout::Layout;
use std::alloc::{AllocError, Global};
use std::sync::atomic::{AtomicU64, Ordering};

/// So many pages are counted together: to find the least free one is to look at a count for each such block, and then at one block.
const BLOCK: u32 = 4_096;

/// So many frames that nobody has used yet a hand takes at once, and it looks at so many before it does. As many are counted together.
const CHUNK: u32 = 1_024;

/// A count of free frames has in its upper half how often some were taken.
const ONCE_TAKEN: u64 = 1 << 32;

/// Words of two hands lie so many apart, so that no two stand in one line of a cache.
const LINE: usize = 16;

/// Nobody has walked since room may have come.
const UNKNOWN: u64 = 0;

/// A walk over all pages has found no room, and none has come since.
const NONE: u64 = 1;

/// The first walk has this number: the two above are none of a walk.
const FIRST_WALK: u64 = 2;

/// Pages are scarce where fewer are free than so many for each hand: one for a leaf, and one for each of two levels above it.
const PAGES_A_HAND: u64 = 3;

/// What all hands of a store know of its room: how many pages are free, and whether a walk over all pages may find more.
#[derive(Drop)]
pub struct Room {
    // How many pages are released, and may be taken.
    free: AtomicU64,
    // How many pages are retired, and not released yet.
    retiring: AtomicU64,
    // How many hands share it, and below how many free pages these are scarce.
    hands: u64,
    scarce: u64,
    // The walks that have begun.
    walks: AtomicU64,
    // `UNKNOWN`, `NONE`, or the number of the last walk that has begun. It is written where pages are scarce, and read elsewhere.
    last: AtomicU64,
    // The least page that may be free, as one thread alone sees it.
    least: AtomicU64,
    // How many pages of each block are free.
    blocks: Vec<AtomicU64>,
    // The least frame that nobody has used yet, of a large store.
    fresh: AtomicU64,
    // How many frames of each chunk are free, of those that no hand keeps in sight. A put that finds its frame in sight writes to none of
    // these words.
    spare: Vec<AtomicU64>,
    // How many puts hands may make of which the last look by counts has seen the frames, beside those of which each hand has looked itself;
    // and in the upper half how many such looks there were.
    ahead: AtomicU64,
    // How many puts each hand has made when it looks for frames next, and the chunk that it counts next, in a line of its own.
    looks_at: Vec<AtomicU64>,
}

impl Room {
    /// A store of that layout, of which the first pages have these words. Those with only zeros are free, and so are all others.
    pub fn new<F: FirstWords>(
        alloc: Global,
        layout: Layout,
        first: &F,
    ) -> Result<Room, AllocError> {
        let (free, blocks) = free_in_blocks(alloc, layout.pages, first)?;
        let passes = layout.passes;
        let spare = spare_in_chunks(alloc, layout, first.count() as u64)?;
        let words = passes as usize * LINE;
        let mut looks_at = Vec::with_capacity(alloc, words)?;
        for _ in 0..words {
            looks_at.push(AtomicU64::new(0))?;
        }
        Ok(Room {
            free: AtomicU64::new(free),
            retiring: AtomicU64::new(0),
            hands: u64::from(passes),
            scarce: PAGES_A_HAND * u64::from(passes),
            walks: AtomicU64::new(FIRST_WALK),
            last: AtomicU64::new(UNKNOWN),
            least: AtomicU64::new(1),
            blocks,
            fresh: AtomicU64::new((first.count() as u64).max(u64::from(first_frame(passes)))),
            spare,
            ahead: AtomicU64::new(0),
            looks_at,
        })
    }

    /// How many pages are free, about: others take and release some meanwhile.
    #[inline(always)]
    pub fn free(&self) -> u64 {
        self.free.load(Ordering::SeqCst)
    }

    /// How many pages are retired and not released yet, about.
    pub fn retiring(&self) -> u64 {
        self.retiring.load(Ordering::SeqCst)
    }

    /// Whether pages are scarce: so few are free that changes by all hands at once may want more.
    #[inline(always)]
    pub fn lacks_pages(&self) -> bool {
        self.free() < self.scarce
    }

    /// Whether pages are not scarce any more, once those are released that are retired.
    pub fn is_freeing_enough(&self) -> bool {
        self.free().saturating_add(self.retiring()) >= self.scarce
    }

    /// Whether they are so scarce that not each hand finds one.
    pub fn is_short_of_pages(&self) -> bool {
        self.free() < self.hands
    }

    /// A page is retired.
    pub fn note_retired(&self) {
        self.retiring.fetch_add(1, Ordering::SeqCst);
    }

    /// A page was taken. Pages that splits have left are half full at least, so a walk is to look at them only where no page is left.
    pub fn note_taken(&self, page: u32) {
        self.least.store(u64::from(page) + 1, Ordering::SeqCst);
        if let Some(block) = self.blocks.get((page / BLOCK) as usize) {
            block.fetch_sub(1, Ordering::SeqCst);
        }
        if self.free.fetch_sub(1, Ordering::SeqCst) == 1 {
            self.note_change();
        }
    }

    /// A page was released.
    pub fn note_released(&self, page: u32) {
        self.least.fetch_min(u64::from(page), Ordering::SeqCst);
        if let Some(block) = self.blocks.get((page / BLOCK) as usize) {
            block.fetch_add(1, Ordering::SeqCst);
        }
        self.free.fetch_add(1, Ordering::SeqCst);
        self.retiring.fetch_sub(1, Ordering::SeqCst);
    }

    /// The pages in whose order the least free one stands, as one thread alone sees it: from the least that may be free to the end of its
    /// block. There are none where the block has no free page.
    pub fn near(&self, pages: u32) -> (u32, u32)
        requires { (0 < pages) × (pages ≤ 2 ^ 28) }
        ensures { (0 < result.0) × (result.0 ≤ result.1) × (result.1 ≤ pages) }
    {
        let least = self.least.load(Ordering::SeqCst);
        if least == 0 || least >= u64::from(pages) {
            return (1, 1);
        }
        let first = least as u32;
        if !self.has_free(first / BLOCK) {
            return (first, first);
        }
        (first, pages.min(first / BLOCK * BLOCK + BLOCK))
    }

    /// The pages of the next block that has a free one, from the block of that page on and around. There are none where no block has one.
    pub fn next_block(&self, page: u32, pages: u32) -> (u32, u32)
        requires { (0 < pages) × (pages ≤ 2 ^ 28) × (page ≤ pages) }
        ensures { (0 < result.0) × (result.0 ≤ result.1) × (result.1 ≤ pages) }
    {
        let count = pages / BLOCK + 1;
        for step in 0..count {
            let block = (page / BLOCK + step) % count;
            let from = (block * BLOCK).max(1);
            if from < pages && self.has_free(block) {
                return (from, pages.min(block * BLOCK + BLOCK));
            }
        }
        (1, 1)
    }

    // Whether a block has free pages, as it is counted.
    fn has_free(&self, block: u32) -> bool {
        match self.blocks.get(block as usize) {
            Some(free) => free.load(Ordering::SeqCst) > 0,
            None => false,
        }
    }

    /// The next frames that nobody has used yet, from the first to before the second.
    pub fn take_chunk(&self, frames: u32) -> (u32, u32)
        requires { frames ≤ 2 ^ 30 }
        ensures { (result.0 ≤ result.1) × (result.1 ≤ frames) }
    {
        if self.fresh.load(Ordering::SeqCst) >= u64::from(frames) {
            return (frames, frames);
        }
        let first = self.fresh.fetch_add(u64::from(CHUNK), Ordering::SeqCst);
        if first >= u64::from(frames) {
            return (frames, frames);
        }
        (first as u32, frames.min(first as u32 + CHUNK))
    }

    /// Whether each hand finds a chunk of frames that nobody has used yet.
    pub fn has_fresh(&self, layout: Layout) -> bool {
        let all = self.hands.saturating_mul(u64::from(CHUNK));
        layout.is_large()
            && self.fresh.load(Ordering::SeqCst).saturating_add(all) <= u64::from(layout.frames())
    }

    /// A frame was released that no hand keeps in sight.
    pub fn note_spare(&self, frame: u32) {
        if let Some(spare) = self.spare.get((frame / CHUNK) as usize) {
            spare.fetch_add(1, Ordering::SeqCst);
        }
    }

    /// So many frames were taken that no hand kept in sight, the last of them this one. What another hand counts at the same moment may be
    /// lost, but no count goes below none. All frames of its chunk may be in use by now, so those that nobody has used begin behind it.
    pub fn note_spent(&self, frame: u32, many: u32) {
        let end = u64::from(frame / CHUNK)
            .saturating_add(1)
            .saturating_mul(u64::from(CHUNK));
        if end > self.fresh.load(Ordering::SeqCst) {
            self.fresh.fetch_max(end, Ordering::SeqCst);
        }
        if let Some(spare) = self.spare.get((frame / CHUNK) as usize) {
            let before = spare.load(Ordering::SeqCst);
            let free = (before % ONCE_TAKEN).saturating_sub(u64::from(many));
            let taken = (before / ONCE_TAKEN).wrapping_add(1);
            let after = taken.wrapping_mul(ONCE_TAKEN).wrapping_add(free);
            let _ = spare.compare_exchange(before, after, Ordering::SeqCst, Ordering::SeqCst);
        }
    }

    /// Somebody has looked at all frames of the chunk in which this one stands, of which so many were free; before that its mark was this one.
    /// Where others have counted some meanwhile it is not to be known how many are free now, and their count stands.
    pub fn note_counted(&self, frame: u32, mark: u64, free: u32) {
        if let Some(spare) = self.spare.get((frame / CHUNK) as usize) {
            let taken = mark / ONCE_TAKEN;
            let after = taken.wrapping_mul(ONCE_TAKEN).wrapping_add(u64::from(free));
            let _ = spare.compare_exchange(mark, after, Ordering::SeqCst, Ordering::SeqCst);
        }
    }

    /// The mark of the chunk in which this frame stands. It changes where some are released or taken.
    pub fn mark(&self, frame: u32) -> u64 {
        match self.spare.get((frame / CHUNK) as usize) {
            Some(spare) => spare.load(Ordering::SeqCst),
            None => 0,
        }
    }

    /// Whether so many frames are free, as they are counted, from the chunk of that frame on and around, in so many of the chunks that have some.
    pub fn has_spare(&self, frame: u32, frames: u32, wanted: u32, chunks: u32) -> bool
        requires { frames ≤ 2 ^ 30 }
    {
        let count = frames / CHUNK + 1;
        let mut free = 0u64;
        let mut left = chunks;
        for step in 0..count {
            let here = self.spare_at(around(frame / CHUNK, step, count));
            if here == 0 {
                continue;
            }
            free = free.saturating_add(here);
            if free >= u64::from(wanted) {
                return true;
            }
            left = left.saturating_sub(1);
            if left == 0 {
                return false;
            }
        }
        false
    }

    /// The frames of the next chunk that has a free one, as they are counted, from the chunk of that frame on and around. There are none where
    /// no chunk has one.
    pub fn next_spare(&self, frame: u32, frames: u32) -> (u32, u32)
        requires { frames ≤ 2 ^ 30 }
        ensures { (result.0 ≤ result.1) × (result.1 ≤ frames) }
    {
        let count = frames / CHUNK + 1;
        for step in 0..count {
            let chunk = around(frame / CHUNK, step, count);
            if self.spare_at(chunk) > 0 {
                return chunk_of(chunk, frames);
            }
        }
        (0, 0)
    }

    /// The frames of the chunk that the hand of that number is to count next, where it knows of none that is free.
    pub fn next_to_count(&self, number: u32, frames: u32) -> (u32, u32)
        requires { frames ≤ 2 ^ 30 }
        ensures { (result.0 ≤ result.1) × (result.1 ≤ frames) }
    {
        let Some(next) = self.looks_at.get(number as usize * LINE + 1) else {
            return (0, 0);
        };
        let count = frames / CHUNK + 1;
        let step = next.fetch_add(1, Ordering::SeqCst) % u64::from(count);
        chunk_of(around(number, step as u32, count), frames)
    }

    // How many free frames a chunk has, as they are counted.
    fn spare_at(&self, chunk: u32) -> u64 {
        match self.spare.get(chunk as usize) {
            Some(spare) => spare.load(Ordering::SeqCst) % ONCE_TAKEN,
            None => 0,
        }
    }

    /// Whether the hand of that number, which has made so many puts, is to look for frames.
    #[inline(always)]
    pub fn is_to_look(&self, number: u32, puts: u64) -> bool {
        match self.looks_at.get(number as usize * LINE) {
            Some(next) => puts >= next.load(Ordering::SeqCst),
            None => true,
        }
    }

    /// The hand of that number has seen enough frames for all, and looks again when it has made so many puts.
    pub fn note_looked(&self, number: u32, puts: u64) {
        if let Some(next) = self.looks_at.get(number as usize * LINE) {
            next.store(puts, Ordering::SeqCst);
        }
    }

    /// What the last look by counts has left, as it stands when one begins.
    pub fn ahead(&self) -> u64 {
        self.ahead.load(Ordering::SeqCst)
    }

    /// A look that began at that mark has seen the frames of so many puts more than each hand may make before it looks. Where another look
    /// has ended meanwhile, what that one has seen stands.
    pub fn note_ahead(&self, mark: u64, puts: u32) {
        let looks = (mark / ONCE_TAKEN).wrapping_add(1);
        let after = looks.wrapping_mul(ONCE_TAKEN).wrapping_add(u64::from(puts));
        let _ = self
            .ahead
            .compare_exchange(mark, after, Ordering::SeqCst, Ordering::SeqCst);
    }

    /// Takes so many of the puts of which another hand has seen the frames. Says whether as many were left.
    pub fn take_ahead(&self, puts: u32) -> bool {
        let before = self.ahead.load(Ordering::SeqCst);
        if before % ONCE_TAKEN < u64::from(puts) {
            return false;
        }
        let after = before.wrapping_sub(u64::from(puts));
        self.ahead
            .compare_exchange(before, after, Ordering::SeqCst, Ordering::SeqCst)
            .is_ok()
    }

    /// The hand of that number was refused. It looks at once, and nobody goes by what others have seen before.
    pub fn note_refused(&self, number: u32) {
        self.note_looked(number, 0);
        self.note_ahead(self.ahead(), 0);
    }

    /// A walk may find room that the last one did not.
    #[inline(always)]
    pub fn note_change(&self) {
        if self.last.load(Ordering::SeqCst) != UNKNOWN {
            self.last.store(UNKNOWN, Ordering::SeqCst);
        }
    }

    /// A walk begins. Its number.
    pub fn begin_walk(&self) -> u64 {
        let number = self.walks.fetch_add(1, Ordering::SeqCst);
        self.last.store(number, Ordering::SeqCst);
        number
    }

    /// The walk of that number has found nothing. That counts where no room may have come and no other walk has begun since it did.
    pub fn end_walk(&self, number: u64) {
        let _ = self
            .last
            .compare_exchange(number, NONE, Ordering::SeqCst, Ordering::SeqCst);
    }

    /// Whether the last walk has found nothing, and no room may have come since.
    pub fn has_none(&self) -> bool {
        self.last.load(Ordering::SeqCst) == NONE
    }
}

// The frame at which the hand of that number begins to look, in a large store.
pub(crate) fn first_frame(number: u32) -> u32 {
    number.wrapping_mul(CHUNK)
}

/// The end of what a hand looks at from a frame on, before it takes frames that nobody has used. A small store keeps the frames in use close
/// together, and all are looked at; in a large one it would take too long to pass by all that are in use.
pub fn end_near(layout: Layout, frame: u32) -> u32
    requires { frame ≤ frame_count layout }
    ensures { (frame ≤ result) × (result ≤ frame_count layout) }
{
    if layout.is_large() {
        layout.frames().min(frame + CHUNK)
    } else {
        layout.frames()
    }
}

// How many pages are free, and how many of each block.
fn free_in_blocks<F: FirstWords>(
    alloc: Global,
    pages: u32,
    first: &F,
) -> Result<(u64, Vec<AtomicU64>), AllocError>
    requires { pages ≤ 2 ^ 28 }
{
    let count = pages / BLOCK + 1;
    let mut blocks = Vec::with_capacity(alloc, count as usize)?;
    let mut free = 0u64;
    for block in 0..count {
        let from = (block * BLOCK).max(1);
        let blank = blanks(first, from, pages.min(block * BLOCK + BLOCK));
        free = free.wrapping_add(blank);
        blocks.push(AtomicU64::new(blank))?;
    }
    Ok((free, blocks))
}

// How many frames of each chunk are free: those behind so many, and in a large store none, as hands begin with frames that nobody has used.
fn spare_in_chunks(
    alloc: Global,
    layout: Layout,
    first: u64,
) -> Result<Vec<AtomicU64>, AllocError> {
    let frames = layout.frames();
    let mut spare = Vec::with_capacity(alloc, frames as usize / CHUNK as usize + 1)?;
    for chunk in 0..frames / CHUNK + 1 {
        let (from, to) = chunk_of(chunk, frames);
        let free = if layout.is_large() {
            0
        } else {
            u64::from(to).saturating_sub(first.max(u64::from(from)))
        };
        spare.push(AtomicU64::new(free))?;
    }
    Ok(spare)
}

// The chunk so many behind that one, where the first follows the last.
fn around(chunk: u32, steps: u32, count: u32) -> u32 {
    chunk.wrapping_add(steps).checked_rem(count).unwrap_or(0)
}

// The frames of a chunk.
fn chunk_of(chunk: u32, frames: u32) -> (u32, u32)
    requires { frames ≤ 2 ^ 30 }
    ensures { (result.0 ≤ result.1) × (result.1 ≤ frames) }
{
    let from = chunk.saturating_mul(CHUNK).min(frames);
    (from, frames.min(from + CHUNK))
}

// How many of the pages of a range have only zeros.
fn blanks<F: FirstWords>(first: &F, from: u32, to: u32) -> u64 {
    let count = first.count();
    let mut blank = 0u64;
    for page in from..to {
        let is_blank = page as usize >= count || is_all_zeros(&first.words_of(page));
        blank = blank.wrapping_add(u64::from(is_blank));
    }
    blank
}
