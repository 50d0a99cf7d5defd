//! Pairs with rising keys, with one more or one less, or with another word in one.

ghost use Rattle.std.specs.Prelude.{◌≡◌, ◌+◌, ◌<◌, ◌++◌, length, MatchOption, None, IsSome};
ghost use Rattle.std.specs.List.{remove};
ghost use Rattle.bl_model.specs.Rows.{map_of};
ghost use Rattle.bl_page.specs.Pairs.{RisesFrom, AllWithin, IsWithin};
ghost use Rattle.bl_rearrange.specs.Entered.{entered, dropped, replaced, IsEntered, IsDropped, IsReplaced, AreHalves};

use arrayvec::ArrayVec;
use bl_page::{Pairs, place_of};

/// The pairs with one more in its place, where there is room.
fn entered_at_place(pairs: Pairs, key: u64, word: u64) -> Pairs
    requires { length pairs.items < 14 }
    ensures pairs { result.items ≡ entered key word pairs.items }
    ensures count { length result.items ≡ length pairs.items + 1 }
{
    let mut pairs = pairs;
    let place = place_of(pairs.as_slice(), key);
    pairs.insert(place, (key, word));
    pairs
}

/// The pairs of a slice.
pub fn collected(slice: &[(u64, u64)]) -> Pairs
    requires { length slice.now < 15 }
    ensures { result.items ≡ slice.now }
{
    let mut pairs = ArrayVec::new();
    for pair in slice {
        pairs.push(*pair);
    }
    pairs
}

/// Full pairs with one more: the lower 8 and the upper 7 of them.
fn split(pairs: &[(u64, u64)], key: u64, word: u64) -> (Pairs, Pairs)
    requires { length pairs.now ≡ 14 }
    ensures pairs { result.0.items ++ result.1.items ≡ entered key word pairs.now }
    ensures lower { length result.0.items ≡ 8 }
    ensures upper { length result.1.items ≡ 7 }
{
    let middle = if place_of(pairs, key) < 8 { 7 } else { 8 };
    let (lower, upper) = pairs.split_at(middle);
    if middle == 7 {
        (
            entered_at_place(collected(lower), key, word),
            collected(upper),
        )
    } else {
        (
            collected(lower),
            entered_at_place(collected(upper), key, word),
        )
    }
}

/// The two halves of what does not fit into one page.
pub struct Halves {
    pub lower: Pairs,
    pub upper: Pairs,
    /// The first key of the upper half.
    pub separator: u64,
}

/// Full pairs within these bounds, split, with one more.
pub fn split_with(pairs: &[(u64, u64)], low: u64, high: u64, key: u64, word: u64) -> Halves
    requires full { length pairs.now ≡ 14 }
    requires rising { RisesFrom 0 pairs.now }
    requires within { AllWithin low high pairs.now }
    requires covers { IsWithin low high key }
    requires absent { map_of pairs.now key ≡ None }
    ensures { AreHalves low high key word pairs.now result.lower.items result.upper.items result.separator }
{
    let (lower, upper) = split(pairs, key, word);
    let separator = upper.as_slice()[0].0;
    Halves {
        lower,
        upper,
        separator,
    }
}

/// The pairs within these bounds with one more, where there is room.
pub fn entered_pair(pairs: Pairs, low: u64, high: u64, key: u64, word: u64) -> Pairs
    requires room { length pairs.items < 14 }
    requires rising { RisesFrom 0 pairs.items }
    requires within { AllWithin low high pairs.items }
    requires covers { IsWithin low high key }
    requires absent { map_of pairs.items key ≡ None }
    ensures { IsEntered low high key word pairs.items result.items }
{
    entered_at_place(pairs, key, word)
}

/// Where the key is listed.
fn index_of(pairs: &[(u64, u64)], key: u64) -> Option<usize>
    ensures { MatchOption result (dropped key pairs.now ≡ pairs.now) (λ i. (i < length pairs.now) × (dropped key pairs.now ≡ remove pairs.now i)) }
{
    for (i, pair) in pairs.iter().enumerate() {
        if pair.0 == key {
            return Some(i);
        }
    }
    None
}

/// The pairs without the one with the key, if there is one.
fn dropped_at_place(pairs: Pairs, key: u64) -> Pairs
    ensures { result.items ≡ dropped key pairs.items }
{
    let mut pairs = pairs;
    match index_of(pairs.as_slice(), key) {
        Some(i) => {
            pairs.remove(i);
        }
        None => {}
    }
    pairs
}

/// The pairs within these bounds without the one with the key, if there is one.
pub fn dropped_pair(pairs: Pairs, low: u64, high: u64, key: u64) -> Pairs
    requires rising { RisesFrom 0 pairs.items }
    requires within { AllWithin low high pairs.items }
    ensures { IsDropped low high key pairs.items result.items }
{
    dropped_at_place(pairs, key)
}

/// The pairs with that word in the one with the key.
fn replaced_at_place(pairs: Pairs, key: u64, word: u64) -> Pairs
    requires rising { RisesFrom 0 pairs.items }
    requires listed { IsSome (map_of pairs.items key) }
    ensures { result.items ≡ replaced key word pairs.items }
{
    let mut pairs = pairs;
    let place = place_of(pairs.as_slice(), key);
    pairs.as_mut_slice()[place - 1] = (key, word);
    pairs
}

/// The pairs within these bounds with that word in the one with the key.
pub fn replaced_pair(pairs: Pairs, low: u64, high: u64, key: u64, word: u64) -> Pairs
    requires rising { RisesFrom 0 pairs.items }
    requires within { AllWithin low high pairs.items }
    requires listed { IsSome (map_of pairs.items key) }
    ensures { IsReplaced low high key word pairs.items result.items }
{
    replaced_at_place(pairs, key, word)
}
