//! The words of the pages that a merge and an evening put, without pages being made of them.

ghost use Rattle.std.specs.Prelude.{◌≡◌, ◌+◌, ◌*◌, ◌<◌, ◌≤◌, ◌++◌, ◌↔◌, true, false, IsTrue, Option, Some, None, slice_index, take, drop};
ghost use Rattle.bl_page.specs.declared.page.Page.{Page};
ghost use Rattle.bl_page.specs.declared.page.Page.TheVariants.{Inner};
ghost use Rattle.bl_page.specs.Words.{words_of, entries_of, layout};
ghost use Rattle.bl_page.specs.Nodes.{IsTreePage};
ghost use Rattle.bl_rearrange.specs.declared.sides.Evened.{Evened};
ghost use Rattle.bl_rearrange.specs.Rearranged.{pairs_of};
ghost use Rattle.bl_rearrange.specs.Neighbours.{AreNeighbours, together, IsMerged, IsEvened};
ghost use Rattle.bl_rearrange.specs.declared.families.Family.{Family};
ghost use Rattle.bl_proc_compress.specs.Compressions.{IsBuried, merge_hint, Relists};
ghost use Rattle.bl_index_compress.specs.Shares.{AreSharesOf, IsRelisted};

use crate::shares::Shares;
use bl_page::{ENTRIES, HEAD, HIGH, KIND_UNIT, LEVEL_UNIT, LOW, RIGHT, is_within};
use bl_proc_routes::{row_in, words_with, words_without};
use bl_proc_steps::{Hint, Level, hint_of_thin, thin_in};
use bl_rearrange::Side;

/// What the words of a page begin with.
#[derive(Clone, Copy)]
struct Head {
    first: u64,
    low: u64,
    high: u64,
    right: u64,
}

/// Whether the pages with these words are two leaves, or inner pages of one level, and the one begins where the other ends.
#[inline(always)]
pub(crate) fn neighbours_in(left: &[u64; 32], right: &[u64; 32]) -> bool
    ensures { (c d : Page) → left.now ≡ words_of c → right.now ≡ words_of d → IsTrue result ↔ AreNeighbours c d }
{
    let kind = left[HEAD] / KIND_UNIT;
    (kind == 2 || kind == 3)
        && right[HEAD] / KIND_UNIT == kind
        && right[HEAD] / LEVEL_UNIT % LEVEL_UNIT == left[HEAD] / LEVEL_UNIT % LEVEL_UNIT
        && left[HIGH] != 0
        && right[LOW] == left[HIGH]
}

/// One of the words of the entries that two pages with these words list together.
#[inline(always)]
fn entry_of(left: &[u64; 32], right: &[u64; 32], at: usize) -> u64
    requires pages { (c d : Page) × IsTreePage c × IsTreePage d × (left.now ≡ words_of c) × (right.now ≡ words_of d) × (at < 2 * together c d) }
    ensures { (c d : Page) → IsTreePage c → IsTreePage d → left.now ≡ words_of c → right.now ≡ words_of d
        → result ≡ slice_index (entries_of (pairs_of c ++ pairs_of d)) at }
{
    let split = 2 * (left[HEAD] % LEVEL_UNIT) as usize;
    if at < split {
        left[ENTRIES + at]
    } else {
        right[ENTRIES + (at - split)]
    }
}

/// The words of a page that begins so, with so many of the pairs that two pages with these words list together, from that one
/// on.
fn part_of(left: &[u64; 32], right: &[u64; 32], from: usize, count: usize, head: Head) -> [u64; 32]
    requires pages { (c d : Page) × IsTreePage c × IsTreePage d × (left.now ≡ words_of c) × (right.now ≡ words_of d)
        × (from + count ≤ together c d) }
    requires few { count ≤ 14 }
    ensures { (c d : Page) → IsTreePage c → IsTreePage d → left.now ≡ words_of c → right.now ≡ words_of d
        → result ≡ layout head.first head.low head.high head.right (entries_of (take count (drop from (pairs_of c ++ pairs_of d)))) }
{
    let mut words = [0; 32];
    words[HEAD] = head.first;
    words[LOW] = head.low;
    words[HIGH] = head.high;
    words[RIGHT] = head.right;
    for i in 0..2 * count {
        words[ENTRIES + i] = entry_of(left, right, 2 * from + i);
    }
    words
}

/// The words of the one page in place of two neighbours with these words.
pub(crate) fn merged_words(left: &[u64; 32], right: &[u64; 32]) -> [u64; 32]
    requires pages { (c d : Page) × AreNeighbours c d × (together c d ≤ 14) × (left.now ≡ words_of c) × (right.now ≡ words_of d) }
    ensures { (c d p : Page) → left.now ≡ words_of c → right.now ≡ words_of d → IsMerged c d (Some p) → result ≡ words_of p }
{
    let right_count = right[HEAD] % LEVEL_UNIT;
    let count = (left[HEAD] % LEVEL_UNIT + right_count) as usize;
    let head = Head {
        first: left[HEAD] + right_count,
        low: left[LOW],
        high: right[HIGH],
        right: right[RIGHT],
    };
    part_of(left, right, 0, count, head)
}

/// The words of what is put in place of a page with these words that was merged into another one.
pub(crate) fn buried_words(page: &[u64; 32], into: u32) -> [u64; 32]
    requires { (c : Page) × (page.now ≡ words_of c) }
    ensures { (c p : Page) → page.now ≡ words_of c → IsBuried into c p → result ≡ words_of p }
{
    let mut words = [0; 32];
    words[HEAD] = 4 * KIND_UNIT + page[HEAD] / LEVEL_UNIT % LEVEL_UNIT * LEVEL_UNIT;
    words[LOW] = page[LOW];
    words[RIGHT] = into as u64;
    words
}

/// The hint after a merge, by the words of the parent of that level and of the left child as they are put.
pub(crate) fn merge_hint_in(level: u32, parent: &[u64; 32], left: &[u64; 32]) -> Option<Hint>
    requires least { 0 < level }
    requires most { level < 12 }
    ensures { (p q : Page) → IsTreePage p → IsTreePage q → parent.now ≡ words_of p → left.now ≡ words_of q → result ≡ merge_hint level p q }
{
    if let Some(low) = thin_in(parent) {
        let above = Level::new(level + 1);
        return Some(hint_of_thin(above, low));
    }
    let own = Level::new(level);
    match thin_in(left) {
        Some(low) => Some(hint_of_thin(own, low)),
        None => None,
    }
}

/// The words of two neighbours with these words, evened out.
pub(crate) fn evened_words(left: &[u64; 32], right: &[u64; 32]) -> Shares
    requires pages { (c d : Page) × AreNeighbours c d × (14 < together c d) × (left.now ≡ words_of c) × (right.now ≡ words_of d) }
    ensures { (c d : Page) (e : Evened) → left.now ≡ words_of c → right.now ≡ words_of d → IsEvened c d e → AreSharesOf e result }
{
    let left_count = (left[HEAD] % LEVEL_UNIT) as usize;
    let right_count = (right[HEAD] % LEVEL_UNIT) as usize;
    let half = (left_count + right_count + 1) / 2;
    let rest = left_count + right_count - half;
    let separator = entry_of(left, right, 2 * half);
    let lower = Head {
        first: left[HEAD] - left_count as u64 + half as u64,
        low: left[LOW],
        high: separator,
        right: left[RIGHT],
    };
    let upper = Head {
        first: right[HEAD] - right_count as u64 + rest as u64,
        low: separator,
        high: right[HIGH],
        right: right[RIGHT],
    };
    Shares {
        left: part_of(left, right, 0, half, lower),
        right: part_of(left, right, half, rest, upper),
        separator,
        gains: if left_count <= half {
            Side::Left
        } else {
            Side::Right
        },
    }
}

/// The words of the parent with these words, which lists the child by the new key in place of the old one. It may not do so.
pub(crate) fn relisted_words(
    parent: &[u64; 32],
    old: u64,
    new: u64,
    child: u32,
    words: &mut [u64; 32],
) -> bool
    requires family { (f : Family) × (parent.now ≡ words_of (Inner f.parent)) × (f.key ≡ old) × (f.at.right ≡ child) }
    ensures { (f : Family) (r : Option Page) → parent.now ≡ words_of (Inner f.parent) → f.key ≡ old → f.at.right ≡ child
        → Relists f.parent old new child r → IsRelisted r words.new result }
{
    if !is_within(parent[LOW], parent[HIGH], new) {
        return false;
    }
    let mut without = [0; 32];
    words_without(parent, &mut (), old, &mut without);
    if let Some(_other) = row_in(&without, &mut (), &mut 0, new) {
        return false;
    }
    words_with(&without, &mut (), new, child as u64, words);
    true
}
