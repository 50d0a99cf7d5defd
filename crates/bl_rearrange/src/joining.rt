//! Pairs of two neighbours: all in one list, or split in the middle.

ghost use Rattle.std.specs.Prelude.{◌≡◌, ◌≢◌, ◌+◌, ◌/◌, ◌<◌, ◌≤◌, ◌++◌, length, drop, take, MatchOption};
ghost use Rattle.bl_rearrange.specs.Joined.{AreSides, IsJoined, AreShares, MovesTo};
ghost use Rattle.bl_rearrange.specs.Neighbours.{Gains};

use crate::pairs::collected;
use crate::sides::Side;
use bl_page::Pairs;

/// Pairs and then those of a slice, if a page has room for all: a merge joins two pages so, and evening out fills the one that gains.
fn extended(pairs: Pairs, slice: &[(u64, u64)]) -> Option<Pairs>
    ensures { MatchOption result (14 < length pairs.items + length slice.now)
        (λ all. (length pairs.items + length slice.now ≤ 14) × (all.items ≡ pairs.items ++ slice.now)) }
{
    let mut pairs = pairs;
    match pairs.try_extend_from_slice(slice) {
        Ok(()) => Some(pairs),
        Err(_) => None,
    }
}

/// The pairs on both sides of the bound `middle`, if there is room.
pub fn joined_pairs(left: Pairs, right: Pairs, low: u64, middle: u64, high: u64) -> Option<Pairs>
    requires { AreSides low middle high left.items right.items }
    ensures { MatchOption result (14 < length left.items + length right.items)
        (λ all. (length left.items + length right.items ≤ 14) × IsJoined low high left.items right.items all.items) }
{
    extended(left, right.as_slice())
}

/// The lower pairs up to that many, where the left ones are no more, and the others.
fn moved_left(left: Pairs, right: Pairs, half: usize) -> (Pairs, Pairs)
    requires gains { length left.items ≤ half }
    requires some { half ≤ length left.items + length right.items }
    requires few { half ≤ 14 }
    ensures pairs { result.0.items ++ result.1.items ≡ left.items ++ right.items }
    ensures half { length result.0.items ≡ half }
{
    let (front, back) = right.as_slice().split_at(half - left.len());
    match extended(left, front) {
        Some(lower) => (lower, collected(back)),
        None => unreachable!(),
    }
}

/// The lower pairs up to that many, where the left ones are more, and the others.
fn moved_right(left: Pairs, right: Pairs, half: usize) -> (Pairs, Pairs)
    requires gains { half < length left.items }
    requires room { length left.items + length right.items ≤ half + 14 }
    ensures pairs { result.0.items ++ result.1.items ≡ left.items ++ right.items }
    ensures half { length result.0.items ≡ half }
{
    let mut lower = left;
    let back = collected(lower.as_slice().split_at(half).1);
    lower.truncate(half);
    match extended(back, right.as_slice()) {
        Some(upper) => (lower, upper),
        None => unreachable!(),
    }
}

/// The half of the pairs, rounded up, the others, and the side to which pairs move.
fn halves(left: Pairs, right: Pairs) -> (Pairs, Pairs, Side)
    requires { 14 < length left.items + length right.items }
    ensures pairs { result.0.items ++ result.1.items ≡ left.items ++ right.items }
    ensures half { length result.0.items ≡ (length left.items + length right.items + 1) / 2 }
    ensures gains { MovesTo result.2 (length left.items) (length result.0.items) }
{
    let half = (left.len() + right.len() + 1) / 2;
    if left.len() <= half {
        let (lower, upper) = moved_left(left, right, half);
        (lower, upper, Side::Left)
    } else {
        let (lower, upper) = moved_right(left, right, half);
        (lower, upper, Side::Right)
    }
}

/// The pairs of two neighbours, split in the middle.
pub struct Shares {
    /// The half of the pairs, rounded up.
    pub lower: Pairs,
    pub upper: Pairs,
    /// The first key of the upper pairs.
    pub separator: u64,
    /// The side to which pairs move.
    pub gains: Side,
}

/// The pairs on both sides of the bound `middle`, more than fit into one page, split in the middle.
pub fn evened_pairs(left: Pairs, right: Pairs, low: u64, middle: u64, high: u64) -> Shares
    requires sides { AreSides low middle high left.items right.items }
    requires left_few { length left.items ≤ 14 }
    requires right_few { length right.items ≤ 14 }
    requires past { 14 < length left.items + length right.items }
    ensures shares { AreShares low high left.items right.items result.lower.items result.upper.items result.separator }
    ensures gains { Gains result.gains (length left.items) (length result.lower.items) middle result.separator }
{
    let (lower, upper, gains) = halves(left, right);
    let separator = upper.as_slice()[0].0;
    Shares {
        lower,
        upper,
        separator,
        gains,
    }
}
