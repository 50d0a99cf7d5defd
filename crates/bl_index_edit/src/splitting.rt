//! A pair enters a page. Where the page is full it is split: the new page is put first, which no page reaches yet, then the old
//! one, which links to it.

ghost use Rattle.std.specs.Prelude.{◌≡◌, ◌≤◌, slice_index};
ghost use Rattle.bl_page.specs.declared.page.Page.{Page};
ghost use Rattle.bl_page.specs.Words.{words_of};
ghost use Rattle.bl_proc_steps.specs.declared.edit.Full.{Full};
ghost use Rattle.bl_proc_steps.specs.declared.edit.Edit.{Edit};
ghost use Rattle.bl_proc_steps.specs.declared.edit.Edit.TheVariants as edit;
ghost use Rattle.bl_store.specs.Hands.{known, IsRunning, IsSameHand, IsSameStamp, IsStockOf, HasNoStock, WasRefused};
ghost use Rattle.bl_store.specs.Owners.{IsHandOf};
ghost use Rattle.bl_index_events.specs.Runs.{Runs, IsOn, IsSameProcess};
ghost use Rattle.bl_index_edit.specs.Events.{IsToEnter};
ghost use Rattle.bl_index_edit.specs.Halves.{AreHalvesOf};
ghost use Rattle.bl_proc_steps.specs.declared.edit.Outcome.TheVariants as outcomes;
ghost use Rattle.bl_index_events.specs.Refused.{GotHeld};
ghost use Rattle.bl_index_events.specs.Held.{IsFull, own_marks};
ghost use Rattle.bl_index_events.specs.Rooms.{LacksPage};

use crate::editors::Editor;
use crate::halves::{entries_with, laid_out};
use bl_index_events::Tree;
use bl_index_rule::PassState;
use bl_model::limits::MOST_PAIRS;
use bl_page::{HEAD, HIGH, LEVEL_UNIT, LOW, LOWER_PAIRS, RIGHT, UPPER_PAIRS};
use bl_proc_routes::words_with;
use bl_proc_steps::Outcome;
use bl_store::{Hand, Stock};

/// A full page has so many pairs.
const FULL: u64 = MOST_PAIRS as u64;
/// The words of the entries of the lower half.
const SPLIT: usize = 2 * LOWER_PAIRS;
/// By so many the lower half has fewer pairs than a full page.
const FEWER_BELOW: u64 = (MOST_PAIRS - LOWER_PAIRS) as u64;
/// And by so many the upper half.
const FEWER_ABOVE: u64 = (MOST_PAIRS - UPPER_PAIRS) as u64;

/// The page that is split, and the new one, which was taken for its upper half.
#[derive(Clone, Copy)]
struct SplitPages {
    at: u32,
    new: u32,
}

/// Puts the two halves of the page with these words, whose entries with a pair more are those, and opens the new one.
fn put_halves<J: Editor>(
    tree: &Tree,
    hand: &mut Hand<PassState>,
    editor: &J,
    pages: SplitPages,
    words: &[u64; 32],
    entries: &[u64; 30],
    stock: Stock,
) -> Outcome
    requires own { IsHandOf tree.now.store hand.old }
    requires running { IsRunning hand.old.seat }
    requires stock { IsStockOf hand.old.seat stock × (stock.count ≡ 2) }
    requires process { (left : Page) × (right : Page) × AreHalvesOf pages.new words.now entries.now left right
        × IsOn tree.now.store.layout (known hand.old.seat) (J.editing editor.now (edit.PuttingNew (record {
          at = pages.at;
          new = pages.new;
          left = left;
          right = right;
          separator = slice_index entries.now 16;
        }))) }
    requires head { 14 ≤ slice_index words.now 0 }
    ensures same { IsSameHand hand.old.seat hand.new.seat × IsSameStamp hand.old.seat hand.new.seat }
    ensures empty { HasNoStock hand.new.seat }
    ensures runs { Runs tree.now hand.new (J.editing editor.now (edit.Opening pages.at result)) }
    ensures since { IsSameProcess (known hand.old.seat) (known hand.new.seat) }
    ensures split { result ≡ outcomes.SplitAt (slice_index entries.now 16) }
{
    let _ = editor;
    let SplitPages { at, new } = pages;
    let mut stock = stock;
    let separator = entries[SPLIT];
    let upper = laid_out(
        words[HEAD] - FEWER_ABOVE,
        separator,
        words[HIGH],
        words[RIGHT],
        &entries[SPLIT..],
    );
    tree.put_reserved(hand, new, &upper, &mut stock);
    let lower = laid_out(
        words[HEAD] - FEWER_BELOW,
        words[LOW],
        separator,
        new as u64,
        &entries[..SPLIT],
    );
    tree.put_reserved(hand, at, &lower, &mut stock);
    tree.reopen(hand, new);
    Outcome::SplitAt(separator)
}

/// Parts the full page that the process holds and has got, with these words, for a pair more. Without room it stays as it
/// is.
#[inline(never)]
pub(crate) fn split_full<J: Editor>(
    tree: &Tree,
    hand: &mut Hand<PassState>,
    editor: &J,
    at: u32,
    words: &[u64; 32],
    key: u64,
    word: u64,
) -> Outcome
    requires own { IsHandOf tree.now.store hand.old }
    requires running { IsRunning hand.old.seat × HasNoStock hand.old.seat }
    requires full { (f : Full) × (f.at ≡ at) × (f.key ≡ key) × (f.word ≡ word) × (words.now ≡ words_of f.page)
        × IsOn tree.now.store.layout (known hand.old.seat) (J.editing editor.now (edit.Taking f)) }
    ensures same { IsSameHand hand.old.seat hand.new.seat × IsSameStamp hand.old.seat hand.new.seat }
    ensures empty { HasNoStock hand.new.seat }
    ensures runs { Runs tree.now hand.new (J.editing editor.now (edit.Opening at result)) }
    ensures since { IsSameProcess (known hand.old.seat) (known hand.new.seat) }
    ensures asked { result ≡ outcomes.Refused → WasRefused hand.new.seat 1 2
        × GotHeld (J.level_at editor.now) (J.key_at editor.now) (own_marks (known hand.new.seat)) IsFull }
{
    match tree.take_page(hand) {
        Some((new, stock)) => {
            let mut entries = [0; 30];
            entries_with(words, key, word, &mut entries);
            let pages = SplitPages { at, new };
            put_halves(tree, hand, editor, pages, words, &entries, stock)
        }
        None => Outcome::Refused,
    }
}

/// The pair enters the page that the process holds and has got, with these words. Without room the page stays as it is.
pub(crate) fn enter_page<J: Editor>(
    tree: &Tree,
    hand: &mut Hand<PassState>,
    editor: &J,
    at: u32,
    words: &[u64; 32],
    key: u64,
    word: u64,
) -> Outcome
    requires own { IsHandOf tree.now.store hand.old }
    requires running { IsRunning hand.old.seat × HasNoStock hand.old.seat }
    requires page { (c : Edit) × IsToEnter at key word words.now c × IsOn tree.now.store.layout (known hand.old.seat) (J.editing editor.now c) }
    ensures same { IsSameHand hand.old.seat hand.new.seat × IsSameStamp hand.old.seat hand.new.seat }
    ensures empty { HasNoStock hand.new.seat }
    ensures runs { Runs tree.now hand.new (J.editing editor.now (edit.Opening at result)) }
    ensures since { IsSameProcess (known hand.old.seat) (known hand.new.seat) }
    ensures asked { result ≡ outcomes.Refused → LacksPage (J.level_at editor.now) (J.key_at editor.now) hand.new.seat }
{
    if words[HEAD] % LEVEL_UNIT >= FULL {
        return split_full(tree, hand, editor, at, words, key, word);
    }
    let mut new = [0; 32];
    words_with(words, &mut (), key, word, &mut new);
    if tree.replace(hand, at, &new) {
        Outcome::Edited
    } else {
        Outcome::Refused
    }
}
