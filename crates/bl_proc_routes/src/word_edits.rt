//! The words of a page with a pair more or less, or with another value in one, without a page being made of them.

ghost use Rattle.std.specs.Prelude.{◌≡◌, ◌+◌, ◌<◌, ◌≤◌, length, None, IsSome};
ghost use Rattle.bl_model.specs.Rows.{map_of};
ghost use Rattle.bl_page.specs.declared.page.Page.{Page};
ghost use Rattle.bl_page.specs.Words.{words_of};
ghost use Rattle.bl_page.specs.Nodes.{IsTreePage};
ghost use Rattle.bl_rearrange.specs.Entered.{entered, dropped, replaced};
ghost use Rattle.bl_rearrange.specs.Rearranged.{pairs_of};
ghost use Rattle.bl_proc_routes.specs.WordEdits.{words_by, IsShiftedUp, IsShiftedDown, HasValueAt};

use bl_page::{FIRST_KEY, FIRST_WORD, HEAD, KEY_BEFORE, LEVEL_UNIT, WORD_BEFORE, Words, place_in};

/// Copies the words, with a pair at that place among the entries.
#[inline(always)]
fn shifted_up<W: Words>(
    source: &W,
    hand: &mut W::Hand,
    place: usize,
    key: u64,
    word: u64,
    words: &mut [u64; 32],
)
    requires sees { W.Sees source.now hand.old }
    requires place { place < 14 }
    ensures same { hand.new ≡ hand.old }
    ensures shifted { IsShiftedUp place key word (W.shown source.now hand.old) words.new }
{
    for i in 0..FIRST_KEY + 2 * place {
        words[i] = bl_page::word(source, hand, i);
    }
    words[FIRST_KEY + 2 * place] = key;
    words[FIRST_WORD + 2 * place] = word;
    for j in FIRST_KEY + 2 * place..30 {
        words[j + 2] = bl_page::word(source, hand, j);
    }
}

/// Copies the words, without the pair before that place.
#[inline(always)]
fn shifted_down<W: Words>(source: &W, hand: &mut W::Hand, place: usize, words: &mut [u64; 32])
    requires sees { W.Sees source.now hand.old }
    requires place { (0 < place) × (place ≤ 14) }
    ensures same { hand.new ≡ hand.old }
    ensures shifted { IsShiftedDown place (W.shown source.now hand.old) words.new }
{
    for i in 0..KEY_BEFORE + 2 * place {
        words[i] = bl_page::word(source, hand, i);
    }
    for j in KEY_BEFORE + 2 * place..30 {
        words[j] = bl_page::word(source, hand, j + 2);
    }
    words[30] = 0;
    words[31] = 0;
}

/// The words of a leaf or an inner page with a pair more, which has room.
#[inline(always)]
pub fn words_with<W: Words>(
    source: &W,
    hand: &mut W::Hand,
    key: u64,
    word: u64,
    words: &mut [u64; 32],
)
    requires sees { W.Sees source.now hand.old }
    requires page { (c : Page) × IsTreePage c × (W.shown source.now hand.old ≡ words_of c) × (length (pairs_of c) < 14) }
    ensures same { hand.new ≡ hand.old }
    ensures words { (c : Page) → W.shown source.now hand.old ≡ words_of c → words.new ≡ words_by c (entered key word (pairs_of c)) }
{
    let head = bl_page::word(source, hand, HEAD);
    let count = (head % LEVEL_UNIT) as usize;
    let place = place_in(source, hand, &mut 0, count, key);
    shifted_up(source, hand, place, key, word, words);
    words[HEAD] = head + 1;
}

/// The words of a leaf or an inner page without the pair of a key that it lists.
#[inline(always)]
pub fn words_without<W: Words>(source: &W, hand: &mut W::Hand, key: u64, words: &mut [u64; 32])
    requires sees { W.Sees source.now hand.old }
    requires page { (c : Page) × IsTreePage c × (W.shown source.now hand.old ≡ words_of c) × IsSome (map_of (pairs_of c) key) }
    ensures same { hand.new ≡ hand.old }
    ensures words { (c : Page) → W.shown source.now hand.old ≡ words_of c → words.new ≡ words_by c (dropped key (pairs_of c)) }
{
    let head = bl_page::word(source, hand, HEAD);
    let count = (head % LEVEL_UNIT) as usize;
    let place = place_in(source, hand, &mut 0, count, key);
    shifted_down(source, hand, place, words);
    words[HEAD] = head - 1;
}

/// Copies the words, with that word in the pair before that place.
#[inline(always)]
fn with_value_at<W: Words>(
    source: &W,
    hand: &mut W::Hand,
    place: usize,
    word: u64,
    words: &mut [u64; 32],
)
    requires sees { W.Sees source.now hand.old }
    requires place { (0 < place) × (place ≤ 14) }
    ensures same { hand.new ≡ hand.old }
    ensures replaced { HasValueAt place word (W.shown source.now hand.old) words.new }
{
    for i in 0..32 {
        words[i] = bl_page::word(source, hand, i);
    }
    words[WORD_BEFORE + 2 * place] = word;
}

/// The words of a leaf or an inner page with that value at a key that it lists.
#[inline(always)]
pub fn words_with_value<W: Words>(
    source: &W,
    hand: &mut W::Hand,
    key: u64,
    value: u64,
    words: &mut [u64; 32],
)
    requires sees { W.Sees source.now hand.old }
    requires page { (c : Page) × IsTreePage c × (W.shown source.now hand.old ≡ words_of c) × IsSome (map_of (pairs_of c) key) }
    ensures same { hand.new ≡ hand.old }
    ensures words { (c : Page) → W.shown source.now hand.old ≡ words_of c → words.new ≡ words_by c (replaced key value (pairs_of c)) }
{
    let head = bl_page::word(source, hand, HEAD);
    let count = (head % LEVEL_UNIT) as usize;
    let place = place_in(source, hand, &mut 0, count, key);
    with_value_at(source, hand, place, value, words);
}
