//! Searches that have a page in mind.

ghost use Rattle.bl_index.specs.Calls.{IsPassOf};

use crate::stops::begun::fill;
use bl_index::{Index, KeyReply, Pass};
use bl_proc::Squeezed;
use std::sync::Wait;

/// Whether a search of the key finds ten times itself, with that page in mind, by so many pages.
fn is_found(index: &Index, pass: &mut Pass, key: u64, near: Option<u32>, turns: u32) -> bool
    requires { IsPassOf index.now pass.old }
    ensures { IsPassOf index.now pass.new }
{
    index.find_near(pass, key, near, turns) == Ok(KeyReply::Found(key.wrapping_mul(10)))
}

/// A key, a page, and in how many pages the key is found: any page will do, the leaf itself, one to its left, one to its right, the parent, the
/// anchor, one that is not in use, one that there is not, and none.
const FOUND: [(u64, Option<u32>, u32); 9] = [
    (12, Some(2), 1),
    (12, Some(1), 2),
    (3, Some(2), 4),
    (12, Some(3), 2),
    (12, Some(0), 3),
    (12, Some(7), 3),
    (12, Some(8), 3),
    (12, Some(u32::MAX), 3),
    (12, None, 3),
];

/// A search begins at any page, and takes no fewer pages than it must.
pub(crate) fn any_page_will_do<R: Wait>(rt: &R, index: &Index, pass: &mut Pass) -> bool
    requires { IsPassOf index.now pass.old }
{
    if !fill(rt, index, pass) || is_found(index, pass, 3, Some(2), 3) {
        return false;
    }
    for place in FOUND {
        if !is_found(index, pass, place.0, place.1, place.2) {
            return false;
        }
    }
    index.find_near(pass, 16, Some(2), 1) == Ok(KeyReply::Absent)
}

/// What is found of keys 12, 3 and 16, with these pages in mind, each by three pages at most, up to the first that is not answered.
fn found_at(index: &Index, pass: &mut Pass, near: [u32; 3]) -> (usize, [KeyReply; 3])
    requires { IsPassOf index.now pass.old }
    ensures { IsPassOf index.now pass.new }
{
    let mut replies = [KeyReply::NoRoom; 3];
    let count = index.find_many(pass, &[12, 3, 16], &near, 3, &mut replies);
    (count, replies)
}

/// Each of many keys is answered in its place, whatever page it has in mind, and one that runs out of turns stops those behind it.
pub(crate) fn many_go_in_turn<R: Wait>(rt: &R, index: &Index, pass: &mut Pass) -> bool
    requires { IsPassOf index.now pass.old }
{
    let first = KeyReply::Found(120);
    let all = [first, KeyReply::Found(30), KeyReply::Absent];
    fill(rt, index, pass)
        && found_at(index, pass, [2, 8, 2]) == (3, all)
        && found_at(index, pass, [2, 2, 2]) == (1, [first, KeyReply::NoRoom, KeyReply::NoRoom])
}

/// Whether key 12, which has moved to page 1, is found by three pages and not by two, where the search has page 2 in mind.
fn is_begun_anew(index: &Index, pass: &mut Pass) -> bool
    requires { IsPassOf index.now pass.old }
    ensures { IsPassOf index.now pass.new }
{
    !is_found(index, pass, 12, Some(2), 2) && is_found(index, pass, 12, Some(2), 3)
}

/// A page that was merged away is not open any more, nor is it once it is released.
pub(crate) fn retired_page_is_left<R: Wait>(
    rt: &R,
    index: &Index,
    pass: &mut Pass,
    second: &mut Pass,
) -> bool
    requires { IsPassOf index.now pass.old × IsPassOf index.now second.old }
{
    if !fill(rt, index, pass) {
        return false;
    }
    let (KeyReply::Deleted(90), Some(hint)) = index.delete(rt, pass, 9) else {
        return false;
    };
    index.compress(rt, second, hint) == (Squeezed::Merged, None)
        && is_begun_anew(index, pass)
        && index.sweep(second) > 0
        && is_begun_anew(index, pass)
}
