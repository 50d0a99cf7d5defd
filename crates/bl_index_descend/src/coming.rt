//! The way of a writer to the page that covers its key, by the words of the pages on it.

ghost use Rattle.std.specs.Prelude.{◌≡◌, true, false};
ghost use Rattle.bl_page.specs.declared.page.Page.{Page};
ghost use Rattle.bl_proc_steps.specs.declared.approach.Approach.TheVariants as approach;
ghost use Rattle.bl_store.specs.Hands.{known, read_words, IsIdle, IsSameHand, IsSameStock, ReadsFrom};
ghost use Rattle.bl_store.specs.Owners.{IsHandOf};
ghost use Rattle.bl_index_rule.specs.Observed.{IsUnborn};
ghost use Rattle.bl_index_events.specs.Runs.{Runs, KeepsHand, IsOn, IsSince, IsSameProcess};
ghost use Rattle.bl_index_descend.specs.Events.{HoldsNone, IsSought, IsThere, HasArrived, HasCome, HasComeWithin};

use crate::targets::{Target, Unborn};
use bl_index_events::{FrameView, Tree};
use bl_index_rule::PassState;
use bl_proc_routes::{Step, level_in, step_in};
use bl_proc_steps::{Approach, approach_by};
use bl_store::{Glance, Hand};
use crossbeam_utils::Backoff;
use std::marker::Brand;
use std::sync::Wait;

/// How often a writer that may not wait tries to come to its page before it gives up. It needs more than one try even where no other thread
/// writes: it has to move right from a page that it has latched.
const TRIES: u32 = 16;

/// What a writer sees at a page that it holds.
#[derive(Clone, Copy)]
pub(crate) enum Arrived {
    /// It covers the key, and has been looked at.
    There(Glance),
    /// It doesn't, and is to be opened. The way goes on at the other page, or from its beginning.
    Away(Option<u32>),
}

/// The process of this kind begins.
#[inline(always)]
pub fn begin_descent<J: Unborn>(tree: &Tree, hand: &mut Hand<PassState>, unborn: &J)
    requires own { IsHandOf tree.now.store hand.old }
    requires idle { IsIdle hand.old.seat }
    requires unborn { IsUnborn (J.unborn unborn.now) }
    ensures same { IsSameHand hand.old.seat hand.new.seat × IsSameStock hand.old.seat hand.new.seat }
    ensures runs { Runs tree.now hand.new (J.begun unborn.now) }
    ensures begun { IsSince hand.old.number (known hand.old.seat) (known hand.new.seat) }
{
    tree.begin_as::<Brand, J>(hand, unborn);
}

/// It gets the anchor, and goes on by its words.
#[inline(always)]
fn read_anchor<J: Target>(
    tree: &Tree,
    hand: &mut Hand<PassState>,
    target: &J,
    path: &J::Path,
) -> Approach
    requires runs { Runs tree.now hand.old (J.at target.now path.now approach.Start) }
    requires led { (c : Page) → J.IsLedBy target.now c }
    ensures same { KeepsHand hand.old.seat hand.new.seat }
    ensures runs { Runs tree.now hand.new (J.at target.now path.now result) }
    ensures free { HoldsNone result }
    ensures since { IsSameProcess (known hand.old.seat) (known hand.new.seat) }
{
    let _ = path;
    let glance = tree.look(hand, 0);
    let shown = FrameView {
        store: &tree.store,
        glance,
    };
    Approach::Start.took_words(target.level(), target.key(), &shown, hand)
}

/// It gets the page on its way, notes it where the way goes down from there, and goes on by its words.
#[inline(always)]
fn read_next<J: Target>(
    tree: &Tree,
    hand: &mut Hand<PassState>,
    target: &J,
    path: &mut J::Path,
    page: u32,
) -> Approach
    requires runs { Runs tree.now hand.old (J.at target.now path.old (approach.At page)) }
    ensures same { KeepsHand hand.old.seat hand.new.seat }
    ensures runs { Runs tree.now hand.new (J.at target.now path.new result) }
    ensures free { HoldsNone result }
    ensures since { IsSameProcess (known hand.old.seat) (known hand.new.seat) }
{
    let level = target.level();
    let key = target.key();
    let glance = tree.look(hand, page);
    let shown = FrameView {
        store: &tree.store,
        glance,
    };
    let own = level_in(&shown, hand);
    let way = step_in(&shown, hand, &mut 0, key, level);
    target.note(path, page, own, way);
    approach_by(way, level, own, page)
}

/// It goes on to the page that is to be latched. Where the way begins again, or after so many turns, it says where it stands.
#[inline(always)]
fn seek<J: Target>(
    tree: &Tree,
    hand: &mut Hand<PassState>,
    target: &J,
    path: &mut J::Path,
    from: Approach,
    turns: u32,
) -> Result<u32, Approach>
    requires runs { Runs tree.now hand.old (J.at target.now path.old from) }
    requires free { HoldsNone from }
    ensures same { KeepsHand hand.old.seat hand.new.seat }
    ensures sought { IsSought (J.at target.now path.new) tree.now.store.layout (known hand.new.seat) result }
    ensures since { IsSameProcess (known hand.old.seat) (known hand.new.seat) }
{
    let mut approach = from;
    for _turn in 0..turns {
        match approach {
            Approach::At(page) => approach = read_next(tree, hand, target, path, page),
            Approach::Latching(page) => return Ok(page),
            Approach::Start => return Err(Approach::Start),
            Approach::Latched(_) | Approach::Leaving(_, _) => unreachable!(),
        }
    }
    Err(approach)
}

/// It tries to latch the page that it has come to.
#[inline(always)]
fn latch_there<J: Target>(
    tree: &Tree,
    hand: &mut Hand<PassState>,
    target: &J,
    path: &J::Path,
    page: u32,
) -> bool
    requires runs { Runs tree.now hand.old (J.at target.now path.now (approach.Latching page)) }
    ensures same { KeepsHand hand.old.seat hand.new.seat }
    ensures done { result ≡ true → IsOn tree.now.store.layout (known hand.new.seat) (J.at target.now path.now (approach.Latched page)) }
    ensures missed { result ≡ false → IsOn tree.now.store.layout (known hand.new.seat) (J.at target.now path.now (approach.At page)) }
    ensures since { IsSameProcess (known hand.old.seat) (known hand.new.seat) }
{
    let _ = target;
    let _ = path;
    tree.try_latch(hand, page)
}

/// It gets the page that it holds, and sees by its words whether it is there.
#[inline(always)]
fn read_latched<J: Target>(
    tree: &Tree,
    hand: &mut Hand<PassState>,
    target: &J,
    path: &J::Path,
    page: u32,
) -> Arrived
    requires runs { Runs tree.now hand.old (J.at target.now path.now (approach.Latched page)) }
    ensures same { KeepsHand hand.old.seat hand.new.seat }
    ensures arrived { HasArrived (J.level_of target.now) (J.key_of target.now) (J.at target.now path.now) page tree.now.store.layout hand.new.seat result }
    ensures since { IsSameProcess (known hand.old.seat) (known hand.new.seat) }
{
    let _ = path;
    let glance = tree.look(hand, page);
    let shown = FrameView {
        store: &tree.store,
        glance,
    };
    match step_in(&shown, hand, &mut 0, target.key(), target.level()) {
        Step::Here => Arrived::There(glance),
        Step::Right(next) => Arrived::Away(Some(next)),
        Step::Down(_child) => Arrived::Away(None),
        Step::Again => Arrived::Away(None),
    }
}

/// It opens the page that it holds, and goes on at the other one or from the beginning.
fn move_on<J: Target>(
    tree: &Tree,
    hand: &mut Hand<PassState>,
    target: &J,
    path: &J::Path,
    page: u32,
    to: Option<u32>,
) -> Approach
    requires runs { Runs tree.now hand.old (J.at target.now path.now (approach.Leaving page to)) }
    ensures same { KeepsHand hand.old.seat hand.new.seat }
    ensures runs { Runs tree.now hand.new (J.at target.now path.now result) }
    ensures free { HoldsNone result }
    ensures since { IsSameProcess (known hand.old.seat) (known hand.new.seat) }
{
    let _ = target;
    let _ = path;
    tree.reopen(hand, page);
    match to {
        Some(next) => Approach::Latching(next),
        None => Approach::Start,
    }
}

/// From there it comes to the page of its level that covers its key, which it holds then and got last. It gives up where the way begins
/// again, where it misses the latch or has latched another page, and after so many turns: it holds no page then, and says where it stands.
#[inline(always)]
pub(crate) fn come_within<J: Target>(
    tree: &Tree,
    hand: &mut Hand<PassState>,
    target: &J,
    path: &mut J::Path,
    from: Approach,
    turns: u32,
) -> Result<(u32, Glance), Approach>
    requires runs { Runs tree.now hand.old (J.at target.now path.old from) }
    requires free { HoldsNone from }
    ensures same { KeepsHand hand.old.seat hand.new.seat }
    ensures came { HasComeWithin (J.level_of target.now) (J.key_of target.now) (J.at target.now path.new) tree.now.store.layout hand.new.seat result }
    ensures since { IsSameProcess (known hand.old.seat) (known hand.new.seat) }
{
    let page = match seek(tree, hand, target, path, from, turns) {
        Ok(page) => page,
        Err(way) => return Err(way),
    };
    if !latch_there(tree, hand, target, path, page) {
        return Err(Approach::At(page));
    }
    match read_latched(tree, hand, target, path, page) {
        Arrived::There(glance) => Ok((page, glance)),
        Arrived::Away(to) => Err(move_on(tree, hand, target, path, page, to)),
    }
}

/// The same, which goes on where it has missed the latch, and to the right of a page that it has latched, so many times at most. It spins
/// meanwhile, and lets no other thread run.
#[inline(always)]
pub(crate) fn come_trying<J: Target>(
    tree: &Tree,
    hand: &mut Hand<PassState>,
    target: &J,
    path: &mut J::Path,
    from: Approach,
    turns: u32,
) -> Result<(u32, Glance), Approach>
    requires runs { Runs tree.now hand.old (J.at target.now path.old from) }
    requires free { HoldsNone from }
    ensures same { KeepsHand hand.old.seat hand.new.seat }
    ensures came { HasComeWithin (J.level_of target.now) (J.key_of target.now) (J.at target.now path.new) tree.now.store.layout hand.new.seat result }
    ensures since { IsSameProcess (known hand.old.seat) (known hand.new.seat) }
{
    let backoff = Backoff::new();
    let mut from = from;
    for _round in 0..TRIES {
        match come_within(tree, hand, target, path, from, turns) {
            Ok(found) => return Ok(found),
            Err(Approach::Start) => return Err(Approach::Start),
            Err(way) => from = way,
        }
        backoff.spin();
    }
    Err(from)
}

/// Pauses after a miss. After a latch the next miss is a first one.
fn pause_after(backoff: &Backoff, way: &Approach) {
    match way {
        Approach::At(_) => backoff.snooze(),
        _ => backoff.reset(),
    }
}

/// From there it comes to the page of its level that covers its key, which it holds then and got last, unless the way
/// begins again. After a miss the thread pauses.
#[inline(always)]
pub(crate) fn come_from<J: Target, R: Wait>(
    tree: &Tree,
    rt: &R,
    hand: &mut Hand<PassState>,
    target: &J,
    path: &mut J::Path,
    from: Approach,
) -> Option<(u32, Glance)>
    requires runs { Runs tree.now hand.old (J.at target.now path.old from) }
    requires free { HoldsNone from }
    ensures same { KeepsHand hand.old.seat hand.new.seat }
    ensures came { HasCome (J.level_of target.now) (J.key_of target.now) (J.at target.now path.new) tree.now.store.layout hand.new.seat result }
    ensures since { IsSameProcess (known hand.old.seat) (known hand.new.seat) }
{
    let backoff = Backoff::new();
    let mut from = from;
    for _ in rt.forever() {
        match come_within(tree, hand, target, path, from, u32::MAX) {
            Ok(found) => return Some(found),
            Err(Approach::Start) => return None,
            Err(way) => {
                pause_after(&backoff, &way);
                from = way;
            }
        }
    }
    unreachable!()
}

/// It comes to the page of its level that covers its key, as above, or gives up: where its way begins again, and after so many tries, each
/// of so many turns.
#[inline(always)]
pub fn descend_within<J: Target>(
    tree: &Tree,
    hand: &mut Hand<PassState>,
    target: &J,
    path: &mut J::Path,
    turns: u32,
) -> Result<(u32, Glance), Approach>
    requires runs { Runs tree.now hand.old (J.at target.now path.old approach.Start) }
    requires led { (c : Page) → J.IsLedBy target.now c }
    ensures same { KeepsHand hand.old.seat hand.new.seat }
    ensures came { HasComeWithin (J.level_of target.now) (J.key_of target.now) (J.at target.now path.new) tree.now.store.layout hand.new.seat result }
    ensures since { IsSameProcess (known hand.old.seat) (known hand.new.seat) }
{
    let from = read_anchor(tree, hand, target, path);
    come_trying(tree, hand, target, path, from, turns)
}

/// It comes to the page of its level that covers its key, which it holds then and got last.
#[inline(always)]
pub fn descend<J: Target, R: Wait>(
    tree: &Tree,
    rt: &R,
    hand: &mut Hand<PassState>,
    target: &J,
    path: &mut J::Path,
) -> (u32, Glance)
    requires runs { Runs tree.now hand.old (J.at target.now path.old approach.Start) }
    requires led { (c : Page) → J.IsLedBy target.now c }
    ensures same { KeepsHand hand.old.seat hand.new.seat }
    ensures runs { Runs tree.now hand.new (known hand.new.seat).state }
    ensures reads { ReadsFrom hand.new.seat result.1 }
    ensures there { IsThere (J.level_of target.now) (J.key_of target.now) (J.at target.now path.new (approach.Latched result.0))
        (read_words hand.new.seat) (known hand.new.seat) }
    ensures since { IsSameProcess (known hand.old.seat) (known hand.new.seat) }
{
    for _ in rt.forever() {
        let from = read_anchor(tree, hand, target, path);
        if let Some(found) = come_from(tree, rt, hand, target, path, from) {
            return found;
        }
    }
    unreachable!()
}
