//! Whether a page is in use, and how many pages and frames are, by one look over all of them.

ghost use Rattle.std.specs.Prelude.{◌≡◌, ◌+◌, ◌≤◌};
ghost use Rattle.bl_layout.specs.Words.{frame_count};

use crate::scarce::look_over;
use bl_room::RoomSeen;
use bl_store::Store;
use bl_store_rule::PageRule;
use std::alloc::Allocator;

/// How many pages and frames are in use, and how many are free. It loads the owner of each, so it takes time with their number: some
/// nanoseconds for each. It is no event, and of how many are free nothing is promised: others take and release meanwhile.
pub fn room<D, R: PageRule<D>, A: Allocator>(store: &Store<D, R, A>) -> RoomSeen
    ensures pages { (result.pages ≡ store.now.layout.pages) × (result.used_pages + result.free_pages ≤ result.pages) }
    ensures frames { (result.frames ≡ frame_count store.now.layout) × (result.free_frames ≤ result.frames) }
{
    let pages = store.layout.pages;
    let frames = store.layout.frames();
    let (used_pages, free_pages) = look_over_pages(store, pages);
    let (free_frames, _) = look_over(store, 0, frames, frames);
    RoomSeen {
        pages,
        used_pages,
        free_pages,
        frames,
        free_frames,
    }
}

// How many of the first pages are in use, and how many are free.
fn look_over_pages<D, R: PageRule<D>, A: Allocator>(
    store: &Store<D, R, A>,
    pages: u32,
) -> (u32, u32)
    requires { pages ≤ store.now.layout.pages }
    ensures { result.0 + result.1 ≤ pages }
{
    let mut used = 0;
    let mut free = 0;
    for page in 0..pages {
        let owner = store.table.shared.peek(store.layout.page_owner_cell(page));
        if owner == 0 {
            free += 1;
        } else if owner % 4 != 3 {
            used += 1;
        }
    }
    (used, free)
}

/// Whether a page is neither released nor retired now.
pub fn is_in_use<D, R: PageRule<D>, A: Allocator>(store: &Store<D, R, A>, page: u32) -> bool {
    if page >= store.layout.pages {
        return false;
    }
    let state = store.table.shared.peek(store.layout.page_owner_cell(page));
    state != 0 && state % 4 != 3
}
