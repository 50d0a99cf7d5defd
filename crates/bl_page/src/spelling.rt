//! Pages as 32 words.

ghost use Rattle.std.specs.Prelude.{◌≡◌, ◌≤◌, length};
ghost use Rattle.bl_page.specs.Words.{words_of, head, layout, entries_of};

use crate::page::Page;
use crate::places::{ENTRIES, FIRST_KEY, FIRST_WORD, HEAD, HIGH, LOW, RIGHT};

/// What the kind counts in word 0.
pub const KIND_UNIT: u64 = 1 << 32;

/// What the level counts in word 0.
pub const LEVEL_UNIT: u64 = 1 << 16;

/// The words of a page with these pairs.
fn pair_words(first: u64, low: u64, high: u64, right: u32, pairs: &[(u64, u64)]) -> [u64; 32]
    requires { length pairs.now ≤ 14 }
    ensures { result ≡ layout first low high right (entries_of pairs.now) }
{
    let mut words = [0; 32];
    words[HEAD] = first;
    words[LOW] = low;
    words[HIGH] = high;
    words[RIGHT] = u64::from(right);
    for (i, pair) in pairs.iter().enumerate() {
        words[FIRST_KEY + 2 * i] = pair.0;
        words[FIRST_WORD + 2 * i] = pair.1;
    }
    words
}

/// The words of an anchor with these leftmost pages.
fn anchor_words(leftmost: &[u32]) -> [u64; 32]
    requires { length leftmost.now ≤ 12 }
    ensures { result ≡ layout (head 1 0 (length leftmost.now)) 0 0 0 leftmost.now }
{
    let mut words = [0; 32];
    words[HEAD] = KIND_UNIT + leftmost.len() as u64;
    for (i, page) in leftmost.iter().enumerate() {
        words[ENTRIES + i] = u64::from(*page);
    }
    words
}

impl Page {
    /// The 32 words of the page, its one spelling.
    pub fn to_words(&self) -> [u64; 32]
        ensures { result ≡ words_of self.now }
    {
        match self {
            Page::Anchor(anchor) => anchor_words(anchor.leftmost.as_slice()),
            Page::Leaf(leaf) => {
                let first = 2 * KIND_UNIT + leaf.rows.len() as u64;
                pair_words(first, leaf.low, leaf.high, leaf.right, leaf.rows.as_slice())
            }
            Page::Inner(inner) => {
                let first = 3 * KIND_UNIT
                    + u64::from(inner.level) * LEVEL_UNIT
                    + inner.children.len() as u64;
                pair_words(
                    first,
                    inner.low,
                    inner.high,
                    inner.right,
                    inner.children.as_slice(),
                )
            }
            Page::Dead(dead) => {
                let first = 4 * KIND_UNIT + u64::from(dead.level) * LEVEL_UNIT;
                pair_words(first, dead.low, 0, dead.right, &[])
            }
        }
    }
}
