//! What processes read of a page in its words, without a page being made of them.

ghost use Rattle.std.specs.Prelude.{◌≡◌, ◌+◌, ◌≤◌, slice_index};
ghost use Rattle.bl_page.specs.declared.page.Page.{Page};
ghost use Rattle.bl_page.specs.Words.{words_of};
ghost use Rattle.bl_page.specs.Nodes.{node_of, roots_of, IsTreePage};
ghost use Rattle.bl_proc_routes.specs.declared.routes.Step.TheVariants as onward;
ghost use Rattle.bl_proc_routes.specs.Routes.{Leads};
ghost use Rattle.bl_page.specs.Tops.{top_of};

use crate::routes::Step;
use bl_page::{
    HEAD, HIGH, KIND_UNIT, LEVEL_BEFORE, LEVEL_UNIT, LOW, RIGHT, Words, child_in, is_within,
    listed_in, word,
};

/// Where a leaf or an inner page leads, whose word 0 is the head.
#[inline(always)]
fn step_within<W: Words>(
    source: &W,
    hand: &mut W::Hand,
    used: &mut u32,
    head: u64,
    key: u64,
    level: u32,
) -> Step
    requires sees { W.Sees source.now hand.old }
    requires head { head ≡ slice_index (W.shown source.now hand.old) 0 }
    requires page { (c : Page) × IsTreePage c × (W.shown source.now hand.old ≡ words_of c) }
    requires room { used.old + 9 ≤ 4294967295 }
    ensures same { hand.new ≡ hand.old }
    ensures few { used.new ≤ used.old + 9 }
    ensures here { result ≡ onward.Here → used.new ≤ used.old + 2 }
    ensures leads { (c : Page) → IsTreePage c → W.shown source.now hand.old ≡ words_of c → Leads c key level result }
{
    let own = (head / LEVEL_UNIT % LEVEL_UNIT) as u32;
    let low = source.word(hand, used, LOW);
    let high = source.word(hand, used, HIGH);
    if key < low {
        Step::Again
    } else if !is_within(low, high, key) {
        Step::Right(source.word(hand, used, RIGHT) as u32)
    } else if level < own {
        let count = (head % LEVEL_UNIT) as usize;
        Step::Down(child_in(source, hand, used, count, key))
    } else if level == own {
        Step::Here
    } else {
        Step::Again
    }
}

/// Where the page with these words leads on the way to the page of that level that covers the key.
#[inline(always)]
pub fn step_in<W: Words>(
    source: &W,
    hand: &mut W::Hand,
    used: &mut u32,
    key: u64,
    level: u32,
) -> Step
    requires sees { W.Sees source.now hand.old }
    requires page { (c : Page) × (W.shown source.now hand.old ≡ words_of c) }
    requires room { used.old + 10 ≤ 4294967295 }
    ensures same { hand.new ≡ hand.old }
    ensures few { used.new ≤ used.old + 10 }
    ensures here { result ≡ onward.Here → used.new ≤ used.old + 3 }
    ensures leads { (c : Page) → W.shown source.now hand.old ≡ words_of c → Leads c key level result }
{
    let head = source.word(hand, used, HEAD);
    let kind = head / KIND_UNIT;
    if kind == 1 {
        Step::Again
    } else if kind == 4 {
        let right = source.word(hand, used, RIGHT) as u32;
        if right == 0 {
            Step::Again
        } else {
            Step::Right(right)
        }
    } else {
        step_within(source, hand, used, head, key, level)
    }
}

/// What the leaf or the inner page with these words lists with the key.
#[inline(always)]
pub fn row_in<W: Words>(source: &W, hand: &mut W::Hand, used: &mut u32, key: u64) -> Option<u64>
    requires sees { W.Sees source.now hand.old }
    requires page { (c : Page) × IsTreePage c × (W.shown source.now hand.old ≡ words_of c) }
    requires room { used.old + 8 ≤ 4294967295 }
    ensures same { hand.new ≡ hand.old }
    ensures few { used.new ≤ used.old + 8 }
    ensures row { (c : Page) → W.shown source.now hand.old ≡ words_of c → result ≡ (node_of c).look key }
{
    listed_in(source, hand, used, key)
}

/// The leftmost page of the top level, by the anchor's words.
#[inline(always)]
pub fn top_in<W: Words>(source: &W, hand: &mut W::Hand) -> u32
    requires sees { W.Sees source.now hand.old }
    requires page { (c : Page) × (W.shown source.now hand.old ≡ words_of c) }
    ensures same { hand.new ≡ hand.old }
    ensures top { (c : Page) → W.shown source.now hand.old ≡ words_of c → result ≡ top_of (roots_of c) }
{
    let head = word(source, hand, HEAD);
    if head / KIND_UNIT == 1 {
        word(source, hand, LEVEL_BEFORE + (head % LEVEL_UNIT) as usize) as u32
    } else {
        0
    }
}

/// How many levels the tree has, by the anchor's words.
#[inline(always)]
pub fn levels_in<W: Words>(source: &W, hand: &mut W::Hand) -> u32
    requires sees { W.Sees source.now hand.old }
    requires page { (c : Page) × (W.shown source.now hand.old ≡ words_of c) }
    ensures same { hand.new ≡ hand.old }
    ensures levels { (c : Page) → W.shown source.now hand.old ≡ words_of c → result ≡ (roots_of c).levels }
{
    let head = word(source, hand, HEAD);
    if head / KIND_UNIT == 1 {
        (head % LEVEL_UNIT) as u32
    } else {
        0
    }
}

/// The level of the page with these words: that of a leaf is 0, and so is that of the anchor.
#[inline(always)]
pub fn level_in<W: Words>(source: &W, hand: &mut W::Hand) -> u32
    requires sees { W.Sees source.now hand.old }
    requires page { (c : Page) × (W.shown source.now hand.old ≡ words_of c) }
    ensures same { hand.new ≡ hand.old }
    ensures level { (c : Page) → W.shown source.now hand.old ≡ words_of c → result ≡ (node_of c).shape.level }
{
    (word(source, hand, HEAD) / LEVEL_UNIT % LEVEL_UNIT) as u32
}
