//! What the words of a page list with a key, without a page being made of them.

ghost use Rattle.std.specs.Prelude.{◌≡◌, ◌+◌, ◌*◌, ◌<◌, ◌≤◌, slice_index};
ghost use Rattle.bl_model.specs.Rows.{map_of};
ghost use Rattle.bl_page.specs.Pairs.{BeginsWith, NameChildren, IsChildFor, place};
ghost use Rattle.bl_page.specs.Faults.{count_in, pairs_of, HasPairs};

use crate::places::{HEAD, KEY_BEFORE, WORD_BEFORE};
use crate::source::Words;
use crate::spelling::LEVEL_UNIT;

/// 1 where that key, counted from 1, is at or below a key, and 0 where it is above it or stands behind the pairs. Only the
/// first key may be 0; so the zeros behind the pairs are told from the others by what is one less.
#[inline(always)]
fn reached<W: Words>(
    source: &W,
    hand: &mut W::Hand,
    used: &mut u32,
    which: usize,
    key: u64,
) -> usize
    requires sees { W.Sees source.now hand.old }
    requires pairs { HasPairs (W.shown source.now hand.old) }
    requires which { (2 ≤ which) × (which ≤ 14) }
    requires room { used.old < 4294967295 }
    ensures same { hand.new ≡ hand.old }
    ensures counted { used.new ≡ used.old + 1 }
    ensures one { which ≤ place key (pairs_of (W.shown source.now hand.old)) → result ≡ 1 }
    ensures none { place key (pairs_of (W.shown source.now hand.old)) < which → result ≡ 0 }
    ensures most { result ≤ 1 }
{
    let one_less = source
        .word(hand, used, KEY_BEFORE + 2 * which)
        .wrapping_sub(1);
    if one_less < key { 1 } else { 0 }
}

/// The same of any key, where there are so many.
#[inline(always)]
fn reached_within<W: Words>(
    source: &W,
    hand: &mut W::Hand,
    used: &mut u32,
    count: usize,
    which: usize,
    key: u64,
) -> usize
    requires sees { W.Sees source.now hand.old }
    requires count { count ≡ count_in (W.shown source.now hand.old) }
    requires pairs { HasPairs (W.shown source.now hand.old) }
    requires which { (1 ≤ which) × (which ≤ 14) }
    requires room { used.old < 4294967295 }
    ensures same { hand.new ≡ hand.old }
    ensures counted { used.new ≡ used.old + 1 }
    ensures one { which ≤ place key (pairs_of (W.shown source.now hand.old)) → result ≡ 1 }
    ensures none { place key (pairs_of (W.shown source.now hand.old)) < which → result ≡ 0 }
    ensures most { result ≤ 1 }
{
    let there = source.word(hand, used, KEY_BEFORE + 2 * which);
    if which <= count && there <= key { 1 } else { 0 }
}

/// The same of any key, but 1 at the first one, whatever it is.
#[inline(always)]
fn reached_behind<W: Words>(
    source: &W,
    hand: &mut W::Hand,
    used: &mut u32,
    which: usize,
    key: u64,
) -> usize
    requires sees { W.Sees source.now hand.old }
    requires pairs { HasPairs (W.shown source.now hand.old) }
    requires which { (1 ≤ which) × (which ≤ 14) }
    requires room { used.old < 4294967295 }
    ensures same { hand.new ≡ hand.old }
    ensures counted { used.new ≡ used.old + 1 }
    ensures one { which ≤ place key (pairs_of (W.shown source.now hand.old)) → result ≡ 1 }
    ensures first { which ≡ 1 → result ≡ 1 }
    ensures none { 2 ≤ which → place key (pairs_of (W.shown source.now hand.old)) < which → result ≡ 0 }
    ensures most { result ≤ 1 }
{
    let one_less = source
        .word(hand, used, KEY_BEFORE + 2 * which)
        .wrapping_sub(1);
    if which == 1 {
        1
    } else if one_less < key {
        1
    } else {
        0
    }
}

/// The place before the part of a page in which the place of a key is. Each part has three keys.
#[inline(always)]
fn third_in<W: Words>(source: &W, hand: &mut W::Hand, used: &mut u32, key: u64) -> usize
    requires sees { W.Sees source.now hand.old }
    requires pairs { HasPairs (W.shown source.now hand.old) }
    requires room { used.old + 3 ≤ 4294967295 }
    ensures same { hand.new ≡ hand.old }
    ensures counted { used.new ≡ used.old + 3 }
    ensures low { result ≤ place key (pairs_of (W.shown source.now hand.old)) }
    ensures high { place key (pairs_of (W.shown source.now hand.old)) ≤ result + 3 }
    ensures most { result ≤ 11 }
{
    let fourth = reached(source, hand, used, 4, key);
    let eighth = reached(source, hand, used, 8, key);
    let eleventh = reached(source, hand, used, 11, key);
    4 * fourth + 4 * eighth + 3 * eleventh
}

/// How many keys are at or below a key, where there are so many. Three keys say in which part of the page the place is, and three
/// of that part say which it is: two steps, each without a branch, where halving takes four, of which each waits for the one before.
#[inline(always)]
pub fn place_in<W: Words>(
    source: &W,
    hand: &mut W::Hand,
    used: &mut u32,
    count: usize,
    key: u64,
) -> usize
    requires sees { W.Sees source.now hand.old }
    requires count { count ≡ count_in (W.shown source.now hand.old) }
    requires pairs { HasPairs (W.shown source.now hand.old) }
    requires room { used.old + 6 ≤ 4294967295 }
    ensures same { hand.new ≡ hand.old }
    ensures counted { used.new ≡ used.old + 6 }
    ensures place { result ≡ place key (pairs_of (W.shown source.now hand.old)) }
    ensures within { result ≤ count }
{
    let before = third_in(source, hand, used, key);
    let first = reached_within(source, hand, used, count, before + 1, key);
    let second = reached(source, hand, used, before + 2, key);
    let third = reached(source, hand, used, before + 3, key);
    before + first + second + third
}

/// The only place where a key other than 0 may be listed: the same, but 1 where no key is at or below it. For this
/// nobody has to know how many there are.
#[inline(always)]
fn only_place_in<W: Words>(source: &W, hand: &mut W::Hand, used: &mut u32, key: u64) -> usize
    requires sees { W.Sees source.now hand.old }
    requires pairs { HasPairs (W.shown source.now hand.old) }
    requires room { used.old + 6 ≤ 4294967295 }
    ensures same { hand.new ≡ hand.old }
    ensures counted { used.new ≡ used.old + 6 }
    ensures place { 0 < place key (pairs_of (W.shown source.now hand.old)) → result ≡ place key (pairs_of (W.shown source.now hand.old)) }
    ensures within { result ≤ 14 }
{
    let before = third_in(source, hand, used, key);
    let first = reached_behind(source, hand, used, before + 1, key);
    let second = reached(source, hand, used, before + 2, key);
    let third = reached(source, hand, used, before + 3, key);
    before + first + second + third
}

/// The only place where a key may be listed, or 0 where there is none. Only the first key may be 0, and it is told from the
/// zero behind no pairs by their count.
#[inline(always)]
fn sought_in<W: Words>(source: &W, hand: &mut W::Hand, used: &mut u32, key: u64) -> usize
    requires sees { W.Sees source.now hand.old }
    requires pairs { HasPairs (W.shown source.now hand.old) }
    requires room { used.old + 6 ≤ 4294967295 }
    ensures same { hand.new ≡ hand.old }
    ensures few { used.new ≤ used.old + 6 }
    ensures place { 0 < place key (pairs_of (W.shown source.now hand.old)) → result ≡ place key (pairs_of (W.shown source.now hand.old)) }
    ensures there { 0 < result → slice_index (W.shown source.now hand.old) (2 + 2 * result) ≡ key → result ≤ count_in (W.shown source.now hand.old) }
    ensures within { result ≤ 14 }
{
    if key > 0 {
        only_place_in(source, hand, used, key)
    } else if source.word(hand, used, HEAD) % LEVEL_UNIT > 0 {
        1
    } else {
        0
    }
}

/// What the words of a leaf or an inner page list with a key.
#[inline(always)]
pub fn listed_in<W: Words>(source: &W, hand: &mut W::Hand, used: &mut u32, key: u64) -> Option<u64>
    requires sees { W.Sees source.now hand.old }
    requires pairs { HasPairs (W.shown source.now hand.old) }
    requires room { used.old + 8 ≤ 4294967295 }
    ensures same { hand.new ≡ hand.old }
    ensures few { used.new ≤ used.old + 8 }
    ensures listed { result ≡ map_of (pairs_of (W.shown source.now hand.old)) key }
{
    let place = sought_in(source, hand, used, key);
    if place > 0 && source.word(hand, used, KEY_BEFORE + 2 * place) == key {
        Some(source.word(hand, used, WORD_BEFORE + 2 * place))
    } else {
        None
    }
}

/// The child of the greatest key that is not above a covered key, in the words of an inner page with so many pairs.
#[inline(always)]
pub fn child_in<W: Words>(
    source: &W,
    hand: &mut W::Hand,
    used: &mut u32,
    count: usize,
    key: u64,
) -> u32
    requires sees { W.Sees source.now hand.old }
    requires count { count ≡ count_in (W.shown source.now hand.old) }
    requires pairs { HasPairs (W.shown source.now hand.old) }
    requires first { BeginsWith (slice_index (W.shown source.now hand.old) 1) (pairs_of (W.shown source.now hand.old)) }
    requires pages { NameChildren (pairs_of (W.shown source.now hand.old)) }
    requires covers { slice_index (W.shown source.now hand.old) 1 ≤ key }
    requires room { used.old + 7 ≤ 4294967295 }
    ensures same { hand.new ≡ hand.old }
    ensures counted { used.new ≡ used.old + 7 }
    ensures child { IsChildFor (pairs_of (W.shown source.now hand.old)) key result }
{
    let place = place_in(source, hand, used, count, key);
    source.word(hand, used, WORD_BEFORE + 2 * place) as u32
}
