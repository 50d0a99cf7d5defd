//! At a leaf that a writer holds, by the words of pages: one that is not split gets its new words from those that were read.

ghost use Rattle.std.specs.Prelude.{◌≡◌, ◌+◌, ◌*◌, ◌<◌, ◌≤◌, None, slice_index};
ghost use Rattle.bl_model.specs.declared.deciding.Effect.TheVariants as effects;
ghost use Rattle.bl_model.specs.Writes.{effect_of};
ghost use Rattle.bl_page.specs.declared.page.Page.{Page};
ghost use Rattle.bl_page.specs.Faults.{count_in, pairs_of as pairs_in};
ghost use Rattle.bl_page.specs.Pairs.{place as place_among};
ghost use Rattle.bl_page.specs.Words.{words_of};
ghost use Rattle.bl_proc_steps.specs.declared.approach.Approach.TheVariants as approach;
ghost use Rattle.bl_proc_steps.specs.declared.edit.Edit.TheVariants as edit;
ghost use Rattle.bl_proc_writes.specs.declared.writing.WriteStage.TheVariants as stages;
ghost use Rattle.bl_store.specs.Hands.{known, read_words, IsRunning, IsSameHand, IsSameRefusal, HasNoStock, ReadsFrom};
ghost use Rattle.bl_store.specs.Owners.{IsHandOf};
ghost use Rattle.bl_index_events.specs.Held.{KeepsLatch};
ghost use Rattle.bl_index_events.specs.Runs.{Runs, IsOn, IsSameProcess, OpensTo};
ghost use Rattle.bl_index_descend.specs.Events.{IsThere};
ghost use Rattle.bl_index_edit.specs.Events.{outcome_by, IsAtLeaf, LeavesLeaf};

use crate::editors::Entering;
use crate::placing::listed_at;
use crate::splitting::split_full;
use crate::writers::{Left, Writer};
use bl_index_events::{FrameView, Tree};
use bl_index_rule::PassState;
use bl_model::limits::MOST_PAIRS;
use bl_model::{Effect, decide};
use bl_page::{FIRST_KEY, HEAD, LEVEL_UNIT, place_in, word, words_from};
use bl_proc_routes::{words_with_value, words_without};
use bl_proc_steps::{Outcome, thin_in};
use bl_proc_writes::Noted;
use bl_store::{Glance, Hand, Splice};

/// What became of a leaf that was to be put, by whether there was room.
#[inline(always)]
fn outcome_of(changed: bool) -> Outcome
    ensures { result ≡ outcome_by changed }
{
    if changed {
        Outcome::Edited
    } else {
        Outcome::Refused
    }
}

/// Opens the leaf that it holds.
#[inline(always)]
fn open_leaf<W: Writer>(
    tree: &Tree,
    hand: &mut Hand<PassState>,
    at: u32,
    writer: &W,
    left: Left,
) -> Left
    requires runs { Runs tree.now hand.old (known hand.old.seat).state }
    requires opens { OpensTo (known hand.old.seat).state at (W.opened writer.now left) }
    requires empty { HasNoStock hand.old.seat }
    ensures same { IsSameHand hand.old.seat hand.new.seat }
    ensures empty { HasNoStock hand.new.seat }
    ensures runs { Runs tree.now hand.new (W.opened writer.now result) }
    ensures since { IsSameProcess (known hand.old.seat) (known hand.new.seat) }
    ensures refusal { IsSameRefusal hand.old.seat hand.new.seat }
    ensures keeps { KeepsLatch (known hand.old.seat) (known hand.new.seat) }
    ensures left { result ≡ left }
{
    let _ = writer;
    tree.reopen(hand, at);
    left
}

/// The leaf that it holds gets these words, of which it has noted that.
#[inline(always)]
fn put_leaf<W: Writer>(
    tree: &Tree,
    hand: &mut Hand<PassState>,
    at: u32,
    writer: &W,
    noted: Noted,
    words: &[u64; 32],
) -> Left
    requires own { IsHandOf tree.now.store hand.old }
    requires running { IsRunning hand.old.seat × HasNoStock hand.old.seat }
    requires page { (p : Page) × (words.now ≡ words_of p)
        × IsOn tree.now.store.layout (known hand.old.seat) (W.staged writer.now (stages.Editing noted (edit.Putting at p))) }
    ensures { LeavesLeaf tree.now hand.old.seat hand.new (W.opened writer.now) (W.key_of writer.now) (W.write_of writer.now) result }
{
    let changed = tree.replace(hand, at, words);
    open_leaf(tree, hand, at, writer, Left::by(noted, outcome_of(changed)))
}

/// The key, which the leaf that it holds lists, leaves it.
#[inline(always)]
fn remove<W: Writer>(
    tree: &Tree,
    hand: &mut Hand<PassState>,
    at: u32,
    writer: &W,
    there: Option<u64>,
    glance: Glance,
) -> Left
    requires runs { Runs tree.now hand.old (known hand.old.seat).state }
    requires empty { HasNoStock hand.old.seat }
    requires reads { ReadsFrom hand.old.seat glance }
    requires leaf { IsAtLeaf (W.key_of writer.now) (W.staged writer.now) at there (read_words hand.old.seat) (known hand.old.seat) }
    requires effect { effect_of (W.write_of writer.now) there ≡ effects.Remove }
    ensures { LeavesLeaf tree.now hand.old.seat hand.new (W.opened writer.now) (W.key_of writer.now) (W.write_of writer.now) result }
{
    let shown = FrameView {
        store: &tree.store,
        glance,
    };
    let mut words = [0; 32];
    words_without(&shown, hand, writer.key(), &mut words);
    let thin = thin_in(&words);
    put_leaf(tree, hand, at, writer, Noted { there, thin }, &words)
}

/// The key, which the leaf that it holds lists, gets the value there.
#[inline(always)]
fn replace_value<W: Writer>(
    tree: &Tree,
    hand: &mut Hand<PassState>,
    at: u32,
    writer: &W,
    there: Option<u64>,
    value: u64,
    glance: Glance,
) -> Left
    requires runs { Runs tree.now hand.old (known hand.old.seat).state }
    requires empty { HasNoStock hand.old.seat }
    requires reads { ReadsFrom hand.old.seat glance }
    requires leaf { IsAtLeaf (W.key_of writer.now) (W.staged writer.now) at there (read_words hand.old.seat) (known hand.old.seat) }
    requires effect { effect_of (W.write_of writer.now) there ≡ effects.Replace value }
    ensures { LeavesLeaf tree.now hand.old.seat hand.new (W.opened writer.now) (W.key_of writer.now) (W.write_of writer.now) result }
{
    let shown = FrameView {
        store: &tree.store,
        glance,
    };
    let mut words = [0; 32];
    words_with_value(&shown, hand, writer.key(), value, &mut words);
    put_leaf(tree, hand, at, writer, Noted { there, thin: None }, &words)
}

/// The pair enters the leaf that it holds, which has room: its words are changed so.
#[inline(always)]
fn enter<W: Writer>(
    tree: &Tree,
    hand: &mut Hand<PassState>,
    at: u32,
    writer: &W,
    glance: Glance,
    splice: Splice,
) -> Left
    requires runs { Runs tree.now hand.old (known hand.old.seat).state }
    requires empty { HasNoStock hand.old.seat }
    requires reads { ReadsFrom hand.old.seat glance }
    requires leaf { IsAtLeaf (W.key_of writer.now) (W.staged writer.now) at None (read_words hand.old.seat) (known hand.old.seat) }
    requires effect { effect_of (W.write_of writer.now) None ≡ effects.Enter (slice_index splice.words 1) }
    requires room { count_in (read_words hand.old.seat) < 14 }
    requires head { splice.head ≡ slice_index (read_words hand.old.seat) 0 + 1 }
    requires at { (splice.at ≡ 4 + 2 * place_among (W.key_of writer.now) (pairs_in (read_words hand.old.seat))) × (splice.at ≤ 30) }
    requires key { slice_index splice.words 0 ≡ W.key_of writer.now }
    ensures { LeavesLeaf tree.now hand.old.seat hand.new (W.opened writer.now) (W.key_of writer.now) (W.write_of writer.now) result }
{
    let noted = Noted {
        there: None,
        thin: None,
    };
    let changed = tree.replace_splice(hand, at, glance, splice);
    open_leaf(tree, hand, at, writer, Left::by(noted, outcome_of(changed)))
}

/// The leaf that it holds is full, and is split for the pair.
#[inline(never)]
fn split_leaf<W: Writer>(
    tree: &Tree,
    hand: &mut Hand<PassState>,
    at: u32,
    writer: &W,
    value: u64,
    glance: Glance,
) -> Left
    requires runs { Runs tree.now hand.old (known hand.old.seat).state }
    requires empty { HasNoStock hand.old.seat }
    requires reads { ReadsFrom hand.old.seat glance }
    requires leaf { IsAtLeaf (W.key_of writer.now) (W.staged writer.now) at None (read_words hand.old.seat) (known hand.old.seat) }
    requires effect { effect_of (W.write_of writer.now) None ≡ effects.Enter value }
    requires full { 14 ≤ count_in (read_words hand.old.seat) }
    ensures { LeavesLeaf tree.now hand.old.seat hand.new (W.opened writer.now) (W.key_of writer.now) (W.write_of writer.now) result }
{
    let shown = FrameView {
        store: &tree.store,
        glance,
    };
    let noted = Noted {
        there: None,
        thin: None,
    };
    let words = words_from(&shown, hand);
    let key = writer.key();
    let entering = Entering { writer, value };
    let outcome = split_full(tree, hand, &entering, at, &words, key, value);
    open_leaf(tree, hand, at, writer, Left::by(noted, outcome))
}

/// At the leaf that it holds, which covers the key.
#[inline(always)]
pub fn write_there<W: Writer>(
    tree: &Tree,
    hand: &mut Hand<PassState>,
    at: u32,
    writer: &W,
    glance: Glance,
) -> Left
    requires runs { Runs tree.now hand.old (known hand.old.seat).state }
    requires empty { HasNoStock hand.old.seat }
    requires reads { ReadsFrom hand.old.seat glance }
    requires there { IsThere 0 (W.key_of writer.now) (W.staged writer.now (stages.Coming (approach.Latched at)))
        (read_words hand.old.seat) (known hand.old.seat) }
    ensures { LeavesLeaf tree.now hand.old.seat hand.new (W.opened writer.now) (W.key_of writer.now) (W.write_of writer.now) result }
{
    let shown = FrameView {
        store: &tree.store,
        glance,
    };
    let key = writer.key();
    let head = word(&shown, hand, HEAD);
    let count = (head % LEVEL_UNIT) as usize;
    let place = place_in(&shown, hand, &mut 0, count, key);
    let there = listed_at(&shown, hand, place, key);
    match decide(writer.write(), there).effect {
        Effect::Keep => open_leaf(tree, hand, at, writer, Left::Kept(there)),
        Effect::Remove => remove(tree, hand, at, writer, there, glance),
        Effect::Replace(value) => replace_value(tree, hand, at, writer, there, value, glance),
        Effect::Enter(value) => {
            if count < MOST_PAIRS {
                let splice = Splice {
                    head: head + 1,
                    at: FIRST_KEY + 2 * place,
                    words: [key, value],
                };
                enter(tree, hand, at, writer, glance, splice)
            } else {
                split_leaf(tree, hand, at, writer, value, glance)
            }
        }
    }
}
