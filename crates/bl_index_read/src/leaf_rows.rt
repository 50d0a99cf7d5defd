//! The rows of a leaf from a key on, upwards or downwards, by the leaf's words.

ghost use Rattle.std.specs.Prelude.{◌≡◌, ◌+◌, ◌-◌, ◌^◌, ◌<◌, ◌≤◌, ℕ, Option, Some, IsTrue, OnOk, OnErr, length, slice_index_or, take, drop, reverse};
ghost use Rattle.bl_model.proofs.Parts.{IsPlaceOf};
ghost use Rattle.bl_model.proofs.Falling.{IsCountTo};
ghost use Rattle.bl_model.specs.Map.{ListsPairs};
ghost use Rattle.bl_model.specs.Parts.{next_key};
ghost use Rattle.bl_model.specs.Rows.{map_of};
ghost use Rattle.bl_model.specs.declared.operation.Next.{Next};
ghost use Rattle.bl_page.specs.declared.page.Page.{Page};
ghost use Rattle.bl_page.specs.Faults.{HasPairs, count_in, pairs_of};
ghost use Rattle.bl_page.specs.Pairs.{end_of};
ghost use Rattle.bl_page.specs.Words.{words_of};
ghost use Rattle.bl_page.specs.Nodes.{node_of, IsTreePage};
ghost use Rattle.bl_proc_routes.specs.declared.routes.Step.TheVariants as onward;
ghost use Rattle.bl_proc_routes.specs.Routes.{Leads};
ghost use Rattle.bl_proc_steps.specs.Descents.{Descends};
ghost use Rattle.bl_proc.specs.declared.parts.Direction.TheVariants as directions;
ghost use Rattle.bl_proc.specs.Parts.{GoesOnAt, GoesOnBelow, IsPartToward};
ghost use Rattle.bl_index_read.specs.LeafRows.{IsBelow, IsBefore, first_above, GoesOnWithin, GoesOnToward, rows_from, EndsBefore, IsLastBelow, toward, portion_of};

use crate::sinks::Sink;
use arrayvec::ArrayVec;
use bl_model::Next;
use bl_page::{
    FIRST_KEY, FIRST_WORD, HEAD, HIGH, KEY_BEFORE, KIND_UNIT, LEVEL_UNIT, LOW, Pairs, RIGHT, Words,
    word,
};
use bl_proc::{Direction, PartRows};
use bl_proc_steps::{Descended, Descent};
use std::alloc::AllocError;

/// The head of each leaf has so many units of levels: its kind, which is 2, and level 0.
const LEAF_UNITS: u64 = 2 * (KIND_UNIT / LEVEL_UNIT);

/// No page has this number.
const NO_PAGE: u32 = u32::MAX;

/// The place of the first of so many rows whose key is not below that one.
#[inline(always)]
fn place_from<W: Words>(source: &W, hand: &mut W::Hand, count: usize, from: u64) -> usize
    requires sees { W.Sees source.now hand.old }
    requires count { count ≡ count_in (W.shown source.now hand.old) }
    requires pairs { HasPairs (W.shown source.now hand.old) }
    ensures same { hand.new ≡ hand.old }
    ensures place { IsPlaceOf (pairs_of (W.shown source.now hand.old)) from result }
{
    for place in 0..count {
        if from <= word(source, hand, FIRST_KEY + 2 * place) {
            return place;
        }
    }
    count
}

/// The place behind the last of so many rows, from that one on, whose key is below the end. It looks at them from the back, since
/// most leaves of a scan lie below its end.
#[inline(always)]
fn place_below<W: Words>(
    source: &W,
    hand: &mut W::Hand,
    first: usize,
    count: usize,
    end: u64,
) -> usize
    requires sees { W.Sees source.now hand.old }
    requires count { count ≡ count_in (W.shown source.now hand.old) }
    requires pairs { HasPairs (W.shown source.now hand.old) }
    requires first { first ≤ count }
    ensures same { hand.new ≡ hand.old }
    ensures ends { EndsBefore (pairs_of (W.shown source.now hand.old)) (Some end) first result }
{
    for behind in 0..count - first {
        let last = count - behind;
        if word(source, hand, KEY_BEFORE + 2 * last) < end {
            return last;
        }
    }
    first
}

/// The same, where there may be no end.
#[inline(always)]
fn place_before<W: Words>(
    source: &W,
    hand: &mut W::Hand,
    first: usize,
    count: usize,
    to: Option<u64>,
) -> usize
    requires sees { W.Sees source.now hand.old }
    requires count { count ≡ count_in (W.shown source.now hand.old) }
    requires pairs { HasPairs (W.shown source.now hand.old) }
    requires first { first ≤ count }
    ensures same { hand.new ≡ hand.old }
    ensures ends { EndsBefore (pairs_of (W.shown source.now hand.old)) to first result }
{
    match to {
        Some(end) => place_below(source, hand, first, count, end),
        None => count,
    }
}

/// The row at a place.
#[inline(always)]
pub(crate) fn row_at<W: Words>(source: &W, hand: &mut W::Hand, place: usize) -> (u64, u64)
    requires sees { W.Sees source.now hand.old }
    requires pairs { HasPairs (W.shown source.now hand.old) }
    requires place { place < count_in (W.shown source.now hand.old) }
    ensures same { hand.new ≡ hand.old }
    ensures row { result ≡ slice_index_or (pairs_of (W.shown source.now hand.old)) place (0, 0) }
{
    let key = word(source, hand, FIRST_KEY + 2 * place);
    let value = word(source, hand, FIRST_WORD + 2 * place);
    (key, value)
}

/// How a scan goes on behind a leaf.
#[derive(Clone, Copy)]
pub enum Behind {
    /// By the part from that key on, which looks at that page first, if there is such a page: upwards the leaf links to it.
    Part(u64, u32),
    /// It is over: it has come to its end, or to the end of the map.
    Nothing,
}

/// What a scan takes of a leaf: the rows from one place up to another, and how it goes on behind them.
#[derive(Clone, Copy)]
pub struct Portion {
    pub first: usize,
    pub last: usize,
    pub behind: Behind,
}

/// Whether the page with these words is a leaf that begins with that key.
#[inline(always)]
fn begins_with<W: Words>(source: &W, hand: &mut W::Hand, key: u64) -> bool
    requires sees { W.Sees source.now hand.old }
    ensures same { hand.new ≡ hand.old }
    ensures leads { (c : Page) → IsTrue result → W.shown source.now hand.old ≡ words_of c → Leads c key 0 onward.Here }
{
    let head = word(source, hand, HEAD);
    let low = word(source, hand, LOW);
    head / LEVEL_UNIT == LEAF_UNITS && low == key
}

/// What becomes of the way of a part by the page that it got. Where it goes by the link of a leaf, that page mostly begins with its
/// key.
#[inline(always)]
pub(crate) fn descended<W: Words>(
    way: Descent,
    source: &W,
    hand: &mut W::Hand,
    from: u64,
) -> Descended
    requires sees { W.Sees source.now hand.old }
    requires page { (c : Page) × (W.shown source.now hand.old ≡ words_of c) }
    ensures same { hand.new ≡ hand.old }
    ensures goes { (c : Page) → W.shown source.now hand.old ≡ words_of c → Descends from way c result }
{
    if let Descent::At(_) = way
        && begins_with(source, hand, from)
    {
        return Descended::Here;
    }
    way.took_words(source, hand, from)
}

/// The place of the leaf's first row whose key is not below that one. Mostly the leaf begins with it.
#[inline(always)]
fn first_from<W: Words>(source: &W, hand: &mut W::Hand, count: usize, from: u64) -> usize
    requires sees { W.Sees source.now hand.old }
    requires count { count ≡ count_in (W.shown source.now hand.old) }
    requires leaf { (c : Page) × IsTreePage c × (W.shown source.now hand.old ≡ words_of c) }
    ensures same { hand.new ≡ hand.old }
    ensures place { IsPlaceOf (pairs_of (W.shown source.now hand.old)) from result }
{
    if word(source, hand, LOW) == from {
        0
    } else {
        place_from(source, hand, count, from)
    }
}

/// The greatest key below an end, if there is one.
#[inline(always)]
fn last_below(to: Option<u64>) -> u64
    requires { IsBelow to 0 }
    ensures { IsLastBelow to result }
{
    match to {
        Some(end) => end - 1,
        None => u64::MAX,
    }
}

/// What a scan upwards takes of a leaf, from a key on and below an end, if there is one. It looks for its last row only where the leaf goes
/// on behind that.
#[inline(always)]
pub fn portion_in<W: Words>(source: &W, hand: &mut W::Hand, from: u64, to: Option<u64>) -> Portion
    requires sees { W.Sees source.now hand.old }
    requires leaf { (c : Page) × IsTreePage c × (W.shown source.now hand.old ≡ words_of c) }
    requires below { IsBelow to 0 }
    ensures same { hand.new ≡ hand.old }
    ensures first { IsPlaceOf (pairs_of (W.shown source.now hand.old)) from result.first }
    ensures last { EndsBefore (pairs_of (W.shown source.now hand.old)) to result.first result.last }
    ensures behind { (c : Page) (next : Next) → IsTreePage c → W.shown source.now hand.old ≡ words_of c → GoesOnAt (node_of c).shape.end next
        → GoesOnWithin directions.Up to (next_key next) result.behind }
{
    let count = (word(source, hand, HEAD) % LEVEL_UNIT) as usize;
    let first = first_from(source, hand, count, from);
    let high = word(source, hand, HIGH);
    if high.wrapping_sub(1) < last_below(to) {
        let behind = Behind::Part(high, link_in(source, hand));
        Portion {
            first,
            last: count,
            behind,
        }
    } else {
        Portion {
            first,
            last: place_before(source, hand, first, count, to),
            behind: Behind::Nothing,
        }
    }
}

/// The least key above an end, if there is one.
#[inline(always)]
fn least_above(to: Option<u64>) -> u64
    requires { IsBefore directions.Down to (2 ^ 64 - 1) }
    ensures { result ≡ first_above to }
{
    match to {
        Some(end) => end + 1,
        None => 0,
    }
}

/// How a scan downwards to a least key goes on behind a leaf that begins with that one. Leaves do not link downwards.
#[inline(always)]
fn behind_down(low: u64, least: u64) -> Behind
    ensures { (to : Option ℕ) (next : Next) → least ≡ first_above to → GoesOnBelow low next → GoesOnWithin directions.Down to (next_key next) result }
{
    if least < low {
        Behind::Part(low - 1, NO_PAGE)
    } else {
        Behind::Nothing
    }
}

/// What a scan downwards takes of a leaf, from a key on and above an end, if there is one.
#[inline(always)]
fn portion_down_in<W: Words>(source: &W, hand: &mut W::Hand, from: u64, to: Option<u64>) -> Portion
    requires sees { W.Sees source.now hand.old }
    requires pairs { HasPairs (W.shown source.now hand.old) }
    requires above { IsBefore directions.Down to from }
    ensures same { hand.new ≡ hand.old }
    ensures first { IsPlaceOf (pairs_of (W.shown source.now hand.old)) (first_above to) result.first }
    ensures last { EndsBefore (pairs_of (W.shown source.now hand.old)) (Some (from + 1)) result.first result.last }
    ensures behind { (c : Page) (next : Next) → IsTreePage c → W.shown source.now hand.old ≡ words_of c → GoesOnBelow (node_of c).shape.low next
        → GoesOnWithin directions.Down to (next_key next) result.behind }
{
    let least = least_above(to);
    let count = (word(source, hand, HEAD) % LEVEL_UNIT) as usize;
    let first = place_from(source, hand, count, least);
    let end = count_to(source, hand, count, from);
    let low = word(source, hand, LOW);
    let behind = behind_down(low, least);
    Portion {
        first,
        last: end,
        behind,
    }
}

/// What a scan takes of a leaf in that direction, from a key on and before an end, if there is one.
#[inline(always)]
pub fn portion_toward<W: Words>(
    source: &W,
    hand: &mut W::Hand,
    direction: Direction,
    from: u64,
    to: Option<u64>,
) -> Portion
    requires sees { W.Sees source.now hand.old }
    requires leaf { (c : Page) × IsTreePage c × (W.shown source.now hand.old ≡ words_of c) }
    requires before { IsBefore direction to from }
    ensures same { hand.new ≡ hand.old }
    ensures order { result.first ≤ result.last }
    ensures within { result.last ≤ length (pairs_of (W.shown source.now hand.old)) }
    ensures rows { toward direction (take (result.last - result.first) (drop result.first (pairs_of (W.shown source.now hand.old))))
        ≡ portion_of direction from to (pairs_of (W.shown source.now hand.old)) }
    ensures behind { (c : Page) (next : Next) → IsTreePage c → W.shown source.now hand.old ≡ words_of c → GoesOnToward direction c next
        → GoesOnWithin direction to (next_key next) result.behind }
{
    match direction {
        Direction::Up => portion_in(source, hand, from, to),
        Direction::Down => portion_down_in(source, hand, from, to),
    }
}

/// Gives the leaf's rows from one place up to another, two at a time, for which there is room.
#[inline(always)]
fn give_between<W: Words, S, K: Sink<S>>(
    source: &W,
    hand: &mut W::Hand,
    first: usize,
    last: usize,
    state: &mut S,
)
    requires sees { W.Sees source.now hand.old }
    requires pairs { HasPairs (W.shown source.now hand.old) }
    requires order { first ≤ last }
    requires within { last ≤ length (pairs_of (W.shown source.now hand.old)) }
    requires ready { K.IsReady state.old }
    requires room { K.HasRoom state.old (last - first) }
    ensures same { hand.new ≡ hand.old }
    ensures ready { K.IsReady state.new }
    ensures takes { K.Takes (K.held state.old) (take (last - first) (drop first (pairs_of (W.shown source.now hand.old)))) (K.held state.new) }
{
    let many = last - first;
    for pair in 0..many / 2 {
        let place = first + 2 * pair;
        let row = row_at(source, hand, place);
        let next = row_at(source, hand, place + 1);
        K::accept(state, row);
        K::accept(state, next);
    }
    if many % 2 == 1 {
        let row = row_at(source, hand, last - 1);
        K::accept(state, row);
    }
}

/// Gives the leaf's rows from one place up to another, the last one first, for which there is room.
#[inline(always)]
fn give_down<W: Words, S, K: Sink<S>>(
    source: &W,
    hand: &mut W::Hand,
    first: usize,
    last: usize,
    state: &mut S,
)
    requires sees { W.Sees source.now hand.old }
    requires pairs { HasPairs (W.shown source.now hand.old) }
    requires order { first ≤ last }
    requires within { last ≤ length (pairs_of (W.shown source.now hand.old)) }
    requires ready { K.IsReady state.old }
    requires room { K.HasRoom state.old (last - first) }
    ensures same { hand.new ≡ hand.old }
    ensures ready { K.IsReady state.new }
    ensures takes { K.Takes (K.held state.old) (reverse (take (last - first) (drop first (pairs_of (W.shown source.now hand.old))))) (K.held state.new) }
{
    for gone in 0..last - first {
        let row = row_at(source, hand, last - 1 - gone);
        K::accept(state, row);
    }
}

/// Gives the leaf's rows from one place up to another in that direction, for which there is room.
#[inline(always)]
fn give_toward<W: Words, S, K: Sink<S>>(
    source: &W,
    hand: &mut W::Hand,
    direction: Direction,
    first: usize,
    last: usize,
    state: &mut S,
)
    requires sees { W.Sees source.now hand.old }
    requires pairs { HasPairs (W.shown source.now hand.old) }
    requires order { first ≤ last }
    requires within { last ≤ length (pairs_of (W.shown source.now hand.old)) }
    requires ready { K.IsReady state.old }
    requires room { K.HasRoom state.old (last - first) }
    ensures same { hand.new ≡ hand.old }
    ensures ready { K.IsReady state.new }
    ensures takes { K.Takes (K.held state.old) (toward direction (take (last - first) (drop first (pairs_of (W.shown source.now hand.old)))))
        (K.held state.new) }
{
    match direction {
        Direction::Up => give_between::<_, _, K>(source, hand, first, last, state),
        Direction::Down => give_down::<_, _, K>(source, hand, first, last, state),
    }
}

/// Gives the leaf's rows from one place up to another in that direction; or none of them, where there is no room.
#[inline(always)]
pub fn give_rows<W: Words, S, K: Sink<S>>(
    source: &W,
    hand: &mut W::Hand,
    direction: Direction,
    first: usize,
    last: usize,
    state: &mut S,
) -> Result<(), AllocError>
    requires sees { W.Sees source.now hand.old }
    requires pairs { HasPairs (W.shown source.now hand.old) }
    requires order { first ≤ last }
    requires within { last ≤ length (pairs_of (W.shown source.now hand.old)) }
    requires ready { K.IsReady state.old }
    ensures same { hand.new ≡ hand.old }
    ensures ready { K.IsReady state.new }
    ensures takes { OnOk result (K.Takes (K.held state.old) (toward direction (take (last - first) (drop first (pairs_of (W.shown source.now hand.old)))))
        (K.held state.new)) }
    ensures kept { OnErr result (K.held state.new ≡ K.held state.old) }
    ensures lacks { OnErr result (K.Lacks state.new (last - first)) }
{
    match K::make_room(state, last - first) {
        Ok(()) => {
            give_toward::<_, _, K>(source, hand, direction, first, last, state);
            Ok(())
        }
        Err(full) => Err(full),
    }
}

/// The leaf's rows from a key on.
#[inline(always)]
fn rows_in<W: Words>(source: &W, hand: &mut W::Hand, from: u64) -> Pairs
    requires sees { W.Sees source.now hand.old }
    requires pairs { HasPairs (W.shown source.now hand.old) }
    ensures same { hand.new ≡ hand.old }
    ensures rows { result.items ≡ rows_from from (pairs_of (W.shown source.now hand.old)) }
{
    let count = (word(source, hand, HEAD) % LEVEL_UNIT) as usize;
    let first = place_from(source, hand, count, from);
    let mut rows = ArrayVec::new();
    for place in first..count {
        let row = row_at(source, hand, place);
        rows.push(row);
    }
    rows
}

/// Where the part behind a leaf with that bound begins.
#[inline(always)]
fn next_after(high: u64) -> Next
    ensures { GoesOnAt (end_of high) result }
{
    if high == 0 {
        Next::End
    } else {
        Next::More(high)
    }
}

/// Where the part behind a leaf begins.
#[inline(always)]
fn next_in<W: Words>(source: &W, hand: &mut W::Hand) -> Next
    requires sees { W.Sees source.now hand.old }
    ensures same { hand.new ≡ hand.old }
    ensures next { (c : Page) → IsTreePage c → W.shown source.now hand.old ≡ words_of c → GoesOnAt (node_of c).shape.end result }
{
    next_after(word(source, hand, HIGH))
}

/// How many of so many rows there are up to a key. It looks at them from the back, since a scan downwards mostly takes the whole leaf.
#[inline(always)]
fn count_to<W: Words>(source: &W, hand: &mut W::Hand, count: usize, from: u64) -> usize
    requires sees { W.Sees source.now hand.old }
    requires count { count ≡ count_in (W.shown source.now hand.old) }
    requires pairs { HasPairs (W.shown source.now hand.old) }
    ensures same { hand.new ≡ hand.old }
    ensures most { result ≤ count }
    ensures count { IsCountTo (pairs_of (W.shown source.now hand.old)) from result }
{
    for behind in 0..count {
        let last = count - behind;
        if word(source, hand, KEY_BEFORE + 2 * last) <= from {
            return last;
        }
    }
    0
}

/// The leaf's rows from a key on downwards, in falling order.
#[inline(always)]
fn rows_down_in<W: Words>(source: &W, hand: &mut W::Hand, from: u64) -> Pairs
    requires sees { W.Sees source.now hand.old }
    requires pairs { HasPairs (W.shown source.now hand.old) }
    ensures same { hand.new ≡ hand.old }
    ensures rows { ListsPairs (map_of (pairs_of (W.shown source.now hand.old))) (λ key. key ≤ from) (reverse result.items) }
{
    let count = (word(source, hand, HEAD) % LEVEL_UNIT) as usize;
    let last = count_to(source, hand, count, from);
    let mut rows = ArrayVec::new();
    for done in 0..last {
        let row = row_at(source, hand, last - 1 - done);
        rows.push(row);
    }
    rows
}

/// Where the part under a leaf that begins with that key begins, downwards.
#[inline(always)]
fn next_below(low: u64) -> Next
    ensures { GoesOnBelow low result }
{
    if low == 0 {
        Next::End
    } else {
        Next::More(low - 1)
    }
}

/// Where the part under a leaf begins, downwards.
#[inline(always)]
fn next_below_in<W: Words>(source: &W, hand: &mut W::Hand) -> Next
    requires sees { W.Sees source.now hand.old }
    ensures same { hand.new ≡ hand.old }
    ensures next { (c : Page) → IsTreePage c → W.shown source.now hand.old ≡ words_of c → GoesOnBelow (node_of c).shape.low result }
{
    next_below(word(source, hand, LOW))
}

/// What a part lists of its leaf in that direction, from a key on, and where the next one begins.
#[inline(always)]
pub(crate) fn part_in<W: Words>(
    source: &W,
    hand: &mut W::Hand,
    direction: Direction,
    from: u64,
) -> PartRows
    requires sees { W.Sees source.now hand.old }
    requires pairs { HasPairs (W.shown source.now hand.old) }
    ensures same { hand.new ≡ hand.old }
    ensures part { (c : Page) → IsTreePage c → W.shown source.now hand.old ≡ words_of c → IsPartToward direction c from result }
{
    match direction {
        Direction::Up => {
            let rows = rows_in(source, hand, from);
            let next = next_in(source, hand);
            PartRows { rows, next }
        }
        Direction::Down => {
            let rows = rows_down_in(source, hand, from);
            let next = next_below_in(source, hand);
            PartRows { rows, next }
        }
    }
}

/// The page at which the part behind a leaf may look first, if the leaf links to it. Nothing is said of it.
#[inline(always)]
pub(crate) fn near_in<W: Words>(source: &W, hand: &mut W::Hand, direction: Direction) -> Option<u32>
    requires sees { W.Sees source.now hand.old }
    ensures same { hand.new ≡ hand.old }
{
    match direction {
        Direction::Up => Some(link_in(source, hand)),
        Direction::Down => None,
    }
}

/// The page to which the leaf links. Nothing is said of it.
#[inline(always)]
fn link_in<W: Words>(source: &W, hand: &mut W::Hand) -> u32
    requires sees { W.Sees source.now hand.old }
    ensures same { hand.new ≡ hand.old }
{
    (word(source, hand, RIGHT) % KIND_UNIT) as u32
}
