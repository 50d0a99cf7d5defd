//! What the pages of a tree seem to be: guesses by words that are read as they stand, one by one. They are no events and tell nothing, so
//! whoever acts by a guess does what is right if the guess is wrong.

use crate::tree::Tree;
use bl_model::KeyWrite;
use bl_model::limits::{MOST_LEVELS, MOST_PAIRS};
use bl_page::{FIRST_KEY, FIRST_WORD, HEAD, HIGH, KIND_UNIT, LEVEL_BEFORE, LEVEL_UNIT, LOW, RIGHT};
use bl_proc_steps::{Hint, Level};
use bl_reserve::is_in_use;

/// How many pairs a page has that is half full: two such pages fit one.
const HALF: u64 = MOST_PAIRS as u64 / 2;

/// How many pairs a full page has.
const FULL: u64 = MOST_PAIRS as u64;

/// The greatest level of a parent.
const TOP: u64 = MOST_LEVELS as u64;

/// So many pages are looked at on the way to a leaf at most.
const STEPS: u32 = 64;

/// The kinds of pages, as word 0 names them.
const ANCHOR: u64 = 1;

const LEAF: u64 = 2;

const INNER: u64 = 3;

/// The kind in word 0, the level, and the count of pairs.
#[derive(Clone, Copy)]
struct Head {
    kind: u64,
    level: u64,
    count: u64,
}

impl Head {
    /// Reads the head of a page.
    fn of(word: u64) -> Head {
        Head {
            kind: word / KIND_UNIT,
            level: word % KIND_UNIT / LEVEL_UNIT,
            count: word % LEVEL_UNIT,
        }
    }

    /// Whether it is a leaf or an inner page with half of its entries at most.
    fn is_half_full_at_most(self) -> bool {
        (self.kind == LEAF || self.kind == INNER) && self.count <= HALF
    }
}

/// The hint of a thin page of that level that covers the key, if a parent can have it.
fn thin(level: u64, key: u64) -> Option<Hint> {
    if level >= TOP {
        return None;
    }
    let level = Level::new(level as u32 + 1);
    Some(Hint::Thin { level, key })
}

/// The number of a page in a word.
fn page_in(word: u64) -> u32 {
    (word % KIND_UNIT) as u32
}

impl Tree {
    /// The hint to follow for a page that seems to be less than half full, or half full beside one to its right that is no fuller: the
    /// two fit one page.
    pub fn thin_at(&self, page: u32) -> Option<Hint> {
        // A released page has words of before, and a hint of it would be followed for nothing.
        if !is_in_use(&self.store, page) {
            return None;
        }
        let head = Head::of(self.store.peek(page, HEAD));
        if !head.is_half_full_at_most() {
            return None;
        }
        if head.count == HALF && !self.is_beside_half_full(page) {
            return None;
        }
        thin(head.level, self.store.peek(page, LOW))
    }

    // Whether the page to which one links seems to be half full at most.
    fn is_beside_half_full(&self, page: u32) -> bool {
        let right = page_in(self.store.peek(page, RIGHT));
        right > 0 && Head::of(self.store.peek(right, HEAD)).is_half_full_at_most()
    }

    /// Whether a write may split a leaf while pages are scarce.
    pub fn may_lack_pages(&self, key: u64, write: KeyWrite) -> bool {
        match write {
            KeyWrite::Insert(_) | KeyWrite::Put(_) => self.store.room.lacks_pages()
                && self.may_split(key),
            KeyWrite::Delete | KeyWrite::Change(..) => false,
        }
    }

    // Whether an insertion or a put of the key may split a leaf: the leaf that seems to cover it seems to be full, or none is found.
    fn may_split(&self, key: u64) -> bool {
        let mut page = 0;
        for _step in 0..STEPS {
            let next = self.page_behind(page, key);
            if next == page {
                return Head::of(self.store.peek(page, HEAD)).count >= FULL;
            }
            page = next;
        }
        true
    }

    // Where a search for the key seems to go on from a page: down, or by the link. From a leaf that covers the key it goes nowhere else.
    fn page_behind(&self, page: u32, key: u64) -> u32 {
        let head = Head::of(self.store.peek(page, HEAD));
        if head.kind == ANCHOR {
            return self.top_page(head.count);
        }
        if head.kind == LEAF && !self.ends_before(page, key) {
            return page;
        }
        if head.kind == INNER && !self.ends_before(page, key) {
            return self.child_at(page, head.count, key);
        }
        page_in(self.store.peek(page, RIGHT))
    }

    // The leftmost page of the top level, where the anchor has so many.
    fn top_page(&self, levels: u64) -> u32 {
        page_in(self.store.peek(0, levels.min(TOP) as usize + LEVEL_BEFORE))
    }

    // Whether a page seems to end before the key.
    fn ends_before(&self, page: u32, key: u64) -> bool {
        let high = self.store.peek(page, HIGH);
        high != 0 && high <= key
    }

    // The child that an inner page of so many seems to have for the key.
    fn child_at(&self, page: u32, count: u64, key: u64) -> u32 {
        let mut child = 0;
        for place in 0..count.min(FULL) as usize {
            if self.store.peek(page, FIRST_KEY + 2 * place) <= key {
                child = page_in(self.store.peek(page, FIRST_WORD + 2 * place));
            }
        }
        child
    }
}
