//! The first rows of a portion of a leaf, where a scan wants no more.

ghost use Rattle.std.specs.Prelude.{◌≡◌, ◌-◌, ◌≤◌, length, take, drop};
ghost use Rattle.bl_page.specs.Faults.{HasPairs, pairs_of};
ghost use Rattle.bl_index_read.specs.LeafRows.{first_key, toward};

use crate::leaf_rows::row_at;
use bl_page::Words;
use bl_proc::Direction;

/// Rows of a leaf from one place up to another, and the key of the first row that is left behind them, if one is.
#[derive(Clone, Copy)]
pub struct Cut {
    pub first: usize,
    pub last: usize,
    pub left: Option<u64>,
}

/// The first rows in that direction of those from one place up to another, so many at most.
#[inline(always)]
pub fn first_rows<W: Words>(
    source: &W,
    hand: &mut W::Hand,
    direction: Direction,
    first: usize,
    last: usize,
    most: usize,
) -> Cut
    requires sees { W.Sees source.now hand.old }
    requires pairs { HasPairs (W.shown source.now hand.old) }
    requires order { first ≤ last }
    requires within { last ≤ length (pairs_of (W.shown source.now hand.old)) }
    ensures same { hand.new ≡ hand.old }
    ensures order { result.first ≤ result.last }
    ensures within { result.last ≤ length (pairs_of (W.shown source.now hand.old)) }
    ensures rows { toward direction (take (result.last - result.first) (drop result.first (pairs_of (W.shown source.now hand.old))))
        ≡ take most (toward direction (take (last - first) (drop first (pairs_of (W.shown source.now hand.old))))) }
    ensures left { result.left ≡ first_key (drop most (toward direction (take (last - first) (drop first (pairs_of (W.shown source.now hand.old)))))) }
{
    if last - first <= most {
        return Cut {
            first,
            last,
            left: None,
        };
    }
    match direction {
        Direction::Up => {
            let end = first + most;
            let row = row_at(source, hand, end);
            Cut {
                first,
                last: end,
                left: Some(row.0),
            }
        }
        Direction::Down => {
            let begin = last - most;
            let row = row_at(source, hand, begin - 1);
            Cut {
                first: begin,
                last,
                left: Some(row.0),
            }
        }
    }
}
