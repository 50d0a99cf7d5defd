//! Calls that may not wait, of one index on one thread: each is done, or has not been done, and nothing of it is left.

ghost use Rattle.bl_index.specs.Calls.{IsPassOf};

use crate::stops::begun::fill;
use bl_index::{Hint, Index, KeyReply, KeyWrite, Level, Lowered, Pass, Posted, Squeezed};
use bl_index_write::{begin_write, end_write};
use std::sync::Wait;

/// Where nobody is met, a write is done.
pub(crate) fn write_meets_nobody(index: &Index, pass: &mut Pass) -> bool
    requires { IsPassOf index.now pass.old }
{
    index.try_write(pass, 5, KeyWrite::Insert(50), 8) == Some((KeyReply::Inserted, None))
}

/// An insertion holds the leaf. A deletion is told that it has not been done, and nothing stays underway: it begins anew.
pub(crate) fn write_is_done_or_not<R: Wait>(
    rt: &R,
    index: &Index,
    second: &mut Pass,
    third: Pass,
) -> bool
    requires { IsPassOf index.now second.old × IsPassOf index.now third }
{
    let tree = index.tree();
    let mut hand = third.into_hand();
    let insert = KeyWrite::Insert(50);
    let (at, glance) = begin_write(tree, rt, &mut hand, 5, insert);
    let refused = index.try_write(second, 5, KeyWrite::Delete, 256);
    let before = index.find(second, 5, 8);
    let inserted = end_write(tree, &mut hand, at, 5, insert, glance);
    let after = index.find(second, 5, 8);
    refused.is_none()
        && before == Ok(KeyReply::Absent)
        && inserted == (KeyReply::Inserted, None)
        && after == Ok(KeyReply::Found(50))
        && index.try_write(second, 5, KeyWrite::Delete, 256) == Some((KeyReply::Deleted(50), None))
}

/// The tree has one level: there is nothing to compress. A write that holds the only leaf is not in its way.
pub(crate) fn compression_is_alone<R: Wait>(
    rt: &R,
    index: &Index,
    second: &mut Pass,
    third: Pass,
) -> bool
    requires { IsPassOf index.now second.old × IsPassOf index.now third }
{
    let tree = index.tree();
    let mut hand = third.into_hand();
    let insert = KeyWrite::Insert(50);
    let (at, glance) = begin_write(tree, rt, &mut hand, 5, insert);
    let thin = Hint::Thin {
        level: Level::new(1),
        key: 5,
    };
    let alone = index.try_compress(second, thin, 256);
    let inserted = end_write(tree, &mut hand, at, 5, insert, glance);
    alone == Some((Squeezed::Alone, None)) && inserted == (KeyReply::Inserted, None)
}

/// A write holds the left one of two leaves. A compression of both is given up, and has opened their parent: it is done once the leaf is open.
fn gives_up_beside<R: Wait>(
    rt: &R,
    index: &Index,
    second: &mut Pass,
    third: Pass,
    thin: Hint,
) -> bool
    requires { IsPassOf index.now second.old × IsPassOf index.now third }
    ensures { IsPassOf index.now second.new }
{
    let tree = index.tree();
    let mut hand = third.into_hand();
    let change = KeyWrite::Change(20, 21);
    let (at, glance) = begin_write(tree, rt, &mut hand, 2, change);
    let again = thin;
    let refused = index.try_compress(second, thin, 256);
    let changed = end_write(tree, &mut hand, at, 2, change, glance);
    refused.is_none()
        && changed == (KeyReply::Changed, None)
        && index.try_compress(second, again, 256) == Some((Squeezed::Merged, None))
}

/// Then the tree is lowered.
pub(crate) fn compression_gives_up<R: Wait>(
    rt: &R,
    index: &Index,
    first: &mut Pass,
    second: &mut Pass,
    third: Pass,
) -> bool
    requires { IsPassOf index.now first.old × IsPassOf index.now second.old × IsPassOf index.now third }
{
    if !fill(rt, index, first) {
        return false;
    }
    let (KeyReply::Deleted(90), Some(thin)) = index.delete(rt, first, 9) else {
        return false;
    };
    gives_up_beside(rt, index, second, third, thin)
        && index.try_lower(second) == Some(Lowered::Lowered)
}

/// The tree has one level. A post makes the next one, and then its way begins again: it has listed nothing. The next one finds that the page
/// below has another low.
pub(crate) fn post_begins_anew(index: &Index, pass: &mut Pass) -> bool
    requires { IsPassOf index.now pass.old }
{
    let post = Hint::Post {
        level: Level::new(1),
        key: 5,
    };
    let again = post;
    index.try_post(pass, post, 256).is_none()
        && index.try_post(pass, again, 256) == Some((Posted::Stale, None))
}
