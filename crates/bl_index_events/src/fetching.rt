//! Pages that calls about some keys will read are fetched from memory ahead, side by side, by peeks: loads that are no events, of whose words
//! nothing is believed. What they tell is a guess at the leaf that covers a key. A search looks first at the page that was guessed, and any
//! page will do for that: where it is wrong the search takes longer, and answers the same.

ghost use Rattle.std.specs.Prelude.{◌≤◌};
ghost use Rattle.bl_store.specs.Owners.{IsPeekIn};

use crate::tree::Tree;
use bl_model::limits::MOST_LEVELS;
use bl_page::{HEAD, KEY_BEFORE, KIND_UNIT, LEVEL_BEFORE, LEVEL_UNIT, WORD_BEFORE};
use bl_store::Peek;

/// So many keys are looked after side by side.
pub const ABREAST: usize = 8;

/// No tree has more levels.
const TOP: u64 = MOST_LEVELS as u64;

/// 1 where that key of a page, counted from 1, is at or below a key, and 0 where it is above it or stands behind the pairs. Only the
/// first key may be 0, so the zeros behind the pairs are told from the others by what is one less. A branch would be missed for a third of
/// the keys.
#[inline(always)]
fn reached(tree: &Tree, peek: Peek, which: usize, key: u64) -> usize
    requires there { IsPeekIn tree.now.store peek }
    requires which { which ≤ 14 }
    ensures most { result ≤ 1 }
{
    let one_less = tree
        .store
        .peek_word(peek, KEY_BEFORE + 2 * which)
        .wrapping_sub(1);
    if one_less < key { 1 } else { 0 }
}

/// The place before the part of a page in which the place of a key is: each part has three keys.
#[inline(always)]
fn part_of(tree: &Tree, peek: Peek, key: u64) -> usize
    requires there { IsPeekIn tree.now.store peek }
    ensures most { result ≤ 11 }
{
    let fourth = reached(tree, peek, 4, key);
    let eighth = reached(tree, peek, 8, key);
    let eleventh = reached(tree, peek, 11, key);
    4 * fourth + 4 * eighth + 3 * eleventh
}

/// The child to which the way to a key goes on, if the words are those of an inner page that covers it.
#[inline(always)]
fn child_at(tree: &Tree, peek: Peek, key: u64) -> u32
    requires there { IsPeekIn tree.now.store peek }
{
    let before = part_of(tree, peek, key);
    let below = reached(tree, peek, before + 1, key);
    let first = if before == 0 { 1 } else { below };
    let second = reached(tree, peek, before + 2, key);
    let third = reached(tree, peek, before + 3, key);
    let place = before + first + second + third;
    page_in(tree.store.peek_word(peek, WORD_BEFORE + 2 * place))
}

/// The number of a page in a word.
#[inline(always)]
fn page_in(word: u64) -> u32 {
    (word % KIND_UNIT) as u32
}

/// The leftmost page of the top level, and how many levels there are.
#[inline(always)]
fn top_of(tree: &Tree) -> (u32, u64)
    ensures { result.1 ≤ 12 }
{
    let Some(peek) = tree.store.peek_page(0) else {
        return (0, 0);
    };
    let levels = (tree.store.peek_word(peek, HEAD) % LEVEL_UNIT).min(TOP);
    let top = tree.store.peek_word(peek, LEVEL_BEFORE + levels as usize);
    (page_in(top), levels)
}

impl Tree {
    /// The leaves that seem to cover the first of these keys, eight at most. They are fetched. The ways to them go down side by side, so that
    /// the thread waits for the lines of all at once: on each level first for the words of all pages, then for their frames.
    pub fn fetch_leaves(&self, keys: &[u64]) -> [u32; ABREAST] {
        let (top, levels) = top_of(self);
        let mut pages = [top; ABREAST];
        for _level in 1..levels {
            for page in pages {
                self.store.peek_page(page);
            }
            for (page, key) in pages.iter_mut().zip(keys) {
                if let Some(peek) = self.store.peek_page(*page) {
                    *page = child_at(self, peek, *key);
                }
            }
        }
        for page in pages {
            self.store.fetch_whole(page);
        }
        pages
    }
}
