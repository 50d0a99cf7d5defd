//! A search that has a page in mind stands still while that page is merged away and sweeps go on beside it.

ghost use Rattle.bl_index.specs.Calls.{IsPassOf};

use crate::stops::begun::fill;
use bl_index::{Index, KeyReply, Pass};
use bl_index_read::{Sought, find_from, set_off};
use bl_proc::Squeezed;
use std::sync::Wait;

/// It finds its key in the page into which the other one was merged, and that one is not released before it has ended.
pub(crate) fn search_stands_still<R: Wait>(
    rt: &R,
    index: &Index,
    first: &mut Pass,
    second: &mut Pass,
    third: Pass,
) -> bool
    requires { IsPassOf index.now first.old × IsPassOf index.now second.old × IsPassOf index.now third }
{
    if !fill(rt, index, first) {
        return false;
    }
    let (KeyReply::Deleted(90), Some(hint)) = index.delete(rt, first, 9) else {
        return false;
    };
    let swept = index.sweep(first);
    let mut hand = third.into_hand();
    let way = set_off(index.tree(), &mut hand, Sought::Value, 12, Some(2));
    let merged = index.compress(rt, second, hint);
    let kept = index.sweep(second);
    let found = find_from(index.tree(), &mut hand, 12, way, 2);
    merged == (Squeezed::Merged, None)
        && found == Ok(KeyReply::Found(120))
        && [swept, kept, index.sweep(second)] == [18, 0, 4]
}
