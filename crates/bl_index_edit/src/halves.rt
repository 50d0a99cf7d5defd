//! The words of a full page that is split, with a pair more, without pages being made of them.

ghost use Rattle.std.specs.Prelude.{◌≡◌, ◌≤◌, length};
ghost use Rattle.bl_page.specs.declared.page.Page.{Page};
ghost use Rattle.bl_page.specs.Words.{layout, entries_of, words_of};
ghost use Rattle.bl_page.specs.Nodes.{IsTreePage};
ghost use Rattle.bl_rearrange.specs.Entered.{entered};
ghost use Rattle.bl_rearrange.specs.Rearranged.{pairs_of};
ghost use Rattle.bl_index_edit.specs.Halves.{AreSpread};

use bl_model::limits::MOST_PAIRS;
use bl_page::{ENTRIES, HEAD, HIGH, LOW, RIGHT, place_in};

/// Copies the entries of a full page, with a pair at that place among them.
#[inline(always)]
fn spread_entries(words: &[u64; 32], place: usize, key: u64, word: u64, entries: &mut [u64; 30])
    requires place { place ≤ 14 }
    ensures { AreSpread place key word words.now entries.new }
{
    for i in 0..2 * place {
        entries[i] = words[ENTRIES + i];
    }
    entries[2 * place] = key;
    entries[1 + 2 * place] = word;
    for j in 2 * place..28 {
        entries[j + 2] = words[ENTRIES + j];
    }
}

/// The entries of a full leaf or inner page with a pair more, two words for each.
pub(crate) fn entries_with(words: &[u64; 32], key: u64, word: u64, entries: &mut [u64; 30])
    requires page { (c : Page) × IsTreePage c × (words.now ≡ words_of c) × (14 ≤ length (pairs_of c)) }
    ensures { (c : Page) → words.now ≡ words_of c → entries.new ≡ entries_of (entered key word (pairs_of c)) }
{
    let place = place_in(words, &mut (), &mut 0, MOST_PAIRS, key);
    spread_entries(words, place, key, word, entries);
}

/// The words of a page: its first one, its bounds, its link and its entries, with zeros behind them.
pub(crate) fn laid_out(first: u64, low: u64, high: u64, right: u64, entries: &[u64]) -> [u64; 32]
    requires { length entries.now ≤ 28 }
    ensures { result ≡ layout first low high right entries.now }
{
    let mut words = [0; 32];
    words[HEAD] = first;
    words[LOW] = low;
    words[HIGH] = high;
    words[RIGHT] = right;
    for i in 0..entries.len() {
        words[ENTRIES + i] = entries[i];
    }
    words
}
