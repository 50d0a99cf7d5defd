//! Room is made before an insertion that may lack a page, and a map is put in order: thin pages are looked for and merged.

ghost use Rattle.std.specs.Prelude.{◌≡◌, false};
ghost use Rattle.bl_index.specs.Calls.{first_of, IsPassOf, IsSamePass, number_of, trail};
ghost use Rattle.bl_map_calls.specs.Follows.{KeptUp};
ghost use Rattle.bl_map_calls.specs.declared.room.Extent.TheVariants as extents;
ghost use Rattle.bl_map_calls.specs.Waits.{Tidies};

use crate::upkeep::{Followed, LEVELS, Want, follow_hint, wait_for};
use crate::writes::try_again;
use bl_index::{Hint, Index, KeyWrite, Pass};
use bl_waiting::Waiting;
use std::sync::Wait;

/// How often all pages are walked over at most before an insertion that lacks a page. A walk that finds nothing is the last one.
pub const WALKS: u32 = 4;

/// And how often to put a map in order.
const ROUNDS: u32 = 64;

/// Where pages are scarce, but there is one for each hand, a walk before an insertion looks at so many pages at most: it is to take no
/// time that anybody feels.
pub const PIECE: u32 = 64;

/// How many pieces of upkeep wait at most.
const WAITING: u32 = 32;

/// How far a walk over pages goes.
#[derive(Clone, Copy, Debug, PartialEq, Eq)]
pub enum Extent {
    /// To the end.
    Whole,
    /// Until pages are no longer scarce, as soon as those are released that are retired.
    Enough,
}

/// Whether a walk over all pages is to be made for an insertion: not each hand may find a page, and it is not known that a walk would find
/// nothing.
pub fn wants_walk(index: &Index) -> bool {
    let room = &index.tree().store.room;
    room.is_short_of_pages() && !room.has_none()
}

/// Whether a walk has come as far as it is to go before its end.
pub fn is_enough(index: &Index, extent: Extent) -> bool
    ensures { extent ≡ extents.Whole → result ≡ false }
{
    match extent {
        Extent::Whole => false,
        Extent::Enough => index.tree().store.room.is_freeing_enough(),
    }
}

/// Looks for frames before a write. Where it may split a leaf while pages are scarce, thin pages are merged before, and what is retired is
/// released.
pub(crate) fn make_room<R: Wait>(rt: &R, index: &Index, pass: &mut Pass, key: u64, write: KeyWrite)
    requires { IsPassOf index.now pass.old }
    ensures same { IsSamePass pass.old pass.new }
    ensures readies { KeptUp (first_of index.now) (number_of pass.old) (trail pass.old) (trail pass.new) }
{
    wait_for(rt, index, pass, Want::Frames);
    if index.tree().may_lack_pages(key, write) {
        find_pages(rt, index, pass);
    }
}

/// Merges thin pages while pages are scarce: those of some pages, where each hand finds one still, and else of all.
#[inline(never)]
fn find_pages<R: Wait>(rt: &R, index: &Index, pass: &mut Pass)
    requires { IsPassOf index.now pass.old }
    ensures same { IsSamePass pass.old pass.new }
    ensures readies { KeptUp (first_of index.now) (number_of pass.old) (trail pass.old) (trail pass.new) }
{
    wait_for(rt, index, pass, Want::Pages);
    for _walk in 0..WALKS {
        if !wants_walk(index) {
            walk_piece(rt, index, pass);
            return;
        }
        walk_all(rt, index, pass, Extent::Enough);
        wait_for(rt, index, pass, Want::Pages);
    }
}

/// Looks at some of the pages, where pages are scarce still. Which ones it begins with changes with each put of the pass.
fn walk_piece<R: Wait>(rt: &R, index: &Index, pass: &mut Pass)
    requires { IsPassOf index.now pass.old }
    ensures same { IsSamePass pass.old pass.new }
    ensures readies { KeptUp (first_of index.now) (number_of pass.old) (trail pass.old) (trail pass.new) }
{
    let room = &index.tree().store.room;
    if room.has_none() || !room.lacks_pages() {
        return;
    }
    let pages = index.patience();
    let from = (pass.puts() % 65_536) as u32 * 61 % pages.max(1);
    walk(
        rt,
        index,
        pass,
        from,
        pages.min(from + PIECE),
        Extent::Enough,
    );
}

/// Puts the map in order: tries the hints again that wait, and then follows one for each page that is half full at most, until nothing
/// changes any more.
pub fn tidy<R: Wait>(rt: &R, index: &Index, pass: &mut Pass, waiting: &mut Waiting)
    requires { IsPassOf index.now pass.old }
    ensures same { IsSamePass pass.old pass.new }
    ensures tidies { Tidies (first_of index.now) (number_of pass.old) waiting.old waiting.new (trail pass.old) (trail pass.new) }
{
    try_again(rt, index, pass, waiting, WAITING);
    merge_all(rt, index, pass);
}

/// Walks over all pages until nothing changes any more, and gives back what was retired.
fn merge_all<R: Wait>(rt: &R, index: &Index, pass: &mut Pass)
    requires { IsPassOf index.now pass.old }
    ensures same { IsSamePass pass.old pass.new }
    ensures readies { KeptUp (first_of index.now) (number_of pass.old) (trail pass.old) (trail pass.new) }
{
    merge_in_rounds(rt, index, pass);
    wait_for(rt, index, pass, Want::Nothing);
}

/// Walks over all pages until nothing changes any more.
fn merge_in_rounds<R: Wait>(rt: &R, index: &Index, pass: &mut Pass)
    requires { IsPassOf index.now pass.old }
    ensures same { IsSamePass pass.old pass.new }
    ensures readies { KeptUp (first_of index.now) (number_of pass.old) (trail pass.old) (trail pass.new) }
{
    for _round in 0..ROUNDS {
        if !walk_all(rt, index, pass, Extent::Whole) {
            return;
        }
    }
}

/// Walks over all pages. Says whether that has changed any, or has not come to the last one. Where it has neither, all know that there is
/// nothing to find.
fn walk_all<R: Wait>(rt: &R, index: &Index, pass: &mut Pass, extent: Extent) -> bool
    requires { IsPassOf index.now pass.old }
    ensures same { IsSamePass pass.old pass.new }
    ensures readies { KeptUp (first_of index.now) (number_of pass.old) (trail pass.old) (trail pass.new) }
{
    let room = &index.tree().store.room;
    let number = room.begin_walk();
    let puts = pass.puts();
    let ended = walk(rt, index, pass, 1, index.patience(), extent);
    if !ended || pass.puts() != puts {
        return true;
    }
    room.end_walk(number);
    false
}

/// Looks at the pages from one on and below another, and mends those that are thin. Says whether it has come to the end.
fn walk<R: Wait>(rt: &R, index: &Index, pass: &mut Pass, from: u32, to: u32, extent: Extent) -> bool
    requires { IsPassOf index.now pass.old }
    ensures same { IsSamePass pass.old pass.new }
    ensures readies { KeptUp (first_of index.now) (number_of pass.old) (trail pass.old) (trail pass.new) }
{
    for page in from..to {
        if is_enough(index, extent) {
            return false;
        }
        mend(rt, index, pass, index.tree().thin_at(page));
    }
    true
}

/// Follows a hint, if there is one, and those that following it gives.
fn mend<R: Wait>(rt: &R, index: &Index, pass: &mut Pass, hint: Option<Hint>)
    requires { IsPassOf index.now pass.old }
    ensures same { IsSamePass pass.old pass.new }
    ensures readies { KeptUp (first_of index.now) (number_of pass.old) (trail pass.old) (trail pass.new) }
{
    let mut hint = hint;
    for _level in 0..LEVELS {
        let Some(next) = hint else {
            return;
        };
        hint = mend_one(rt, index, pass, next);
    }
}

/// Follows a hint, and gives back what was swapped out. Gives what following it has left.
fn mend_one<R: Wait>(rt: &R, index: &Index, pass: &mut Pass, hint: Hint) -> Option<Hint>
    requires { IsPassOf index.now pass.old }
    ensures same { IsSamePass pass.old pass.new }
    ensures readies { KeptUp (first_of index.now) (number_of pass.old) (trail pass.old) (trail pass.new) }
{
    let followed = follow_hint(rt, index, pass, hint);
    index.sweep(pass);
    left_by(followed)
}

/// What following a hint has left.
fn left_by(followed: Followed) -> Option<Hint> {
    match followed {
        Followed::Done(next) => next,
        Followed::NoRoom => None,
    }
}
