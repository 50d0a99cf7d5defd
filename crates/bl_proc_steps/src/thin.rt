//! Which pages have few pairs.

ghost use Rattle.std.specs.Prelude.{◌≡◌, Some};
ghost use Rattle.bl_page.specs.declared.page.Page.{Page};
ghost use Rattle.bl_page.specs.Words.{words_of};
ghost use Rattle.bl_page.specs.Nodes.{IsTreePage};
ghost use Rattle.bl_answers.specs.Thin.{low_if_thin, thin_low, thin_hint};

use bl_answers::{Hint, Level};
use bl_model::limits::ENOUGH_PAIRS;
use bl_page::{HEAD, HIGH, LEVEL_UNIT, LOW, Page};

/// The low of a page with so many pairs and these bounds, if it is thin.
fn low_if_thin(pairs: usize, low: u64, high: u64) -> Option<u64>
    ensures { result ≡ low_if_thin pairs low high }
{
    if pairs < ENOUGH_PAIRS && !(low == 0 && high == 0) {
        Some(low)
    } else {
        None
    }
}

/// The low of the page, if it is a leaf or an inner page that is thin.
pub fn thin_low(page: &Page) -> Option<u64>
    ensures { result ≡ thin_low page.now }
{
    match page {
        Page::Leaf(leaf) => low_if_thin(leaf.rows.len(), leaf.low, leaf.high),
        Page::Inner(inner) => low_if_thin(inner.children.len(), inner.low, inner.high),
        Page::Anchor(_) | Page::Dead(_) => None,
    }
}

/// The same, by the words of a leaf or an inner page.
pub fn thin_in(words: &[u64; 32]) -> Option<u64>
    ensures { (c : Page) → IsTreePage c → words.now ≡ words_of c → result ≡ thin_low c }
{
    let count = (words[HEAD] % LEVEL_UNIT) as usize;
    low_if_thin(count, words[LOW], words[HIGH])
}

/// The hint that the page with that low is thin, for its parent of that level.
pub fn hint_of_thin(level: Level, low: u64) -> Hint
    ensures { Some result ≡ thin_hint level (Some low) }
{
    Hint::Thin { level, key: low }
}
