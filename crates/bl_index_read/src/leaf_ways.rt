//! The ways of searches and parts to their leaves, by the words of pages: each goes by its events.

ghost use Rattle.std.specs.Prelude.{◌≡◌, ℕ, ◌+◌, ◌<◌, List, Option, None, Some, MatchOption, IfSome};
ghost use Rattle.bl_page.specs.declared.page.Page.{Page};
ghost use Rattle.bl_page.specs.Words.{words_of};
ghost use Rattle.bl_page.specs.Machine.Act.{Get, Look};
ghost use Rattle.bl_page.specs.Machine.Looked.{Page as OfPage};
ghost use Rattle.bl_proc_steps.specs.declared.acts.Action.TheVariants as act;
ghost use Rattle.bl_proc_steps.specs.declared.acts.Seen.TheVariants as seen;
ghost use Rattle.bl_proc_steps.specs.declared.descent.Descent.TheVariants as descent;
ghost use Rattle.bl_proc_steps.specs.Descents.{descent_page, Descends};
ghost use Rattle.bl_proc.specs.Processes.{next_of};
ghost use Rattle.bl_proc_deterministic.specs.Courses.{GoesOn};
ghost use Rattle.bl_store.specs.Hands.{known, read_words, IsIdle, IsRunning, IsSameHand, IsSameStock, ReadsFrom};
ghost use Rattle.bl_store.specs.Owners.{IsHandOf};
ghost use Rattle.bl_index_rule.specs.declared.known.PassState.{PassState as Knows};
ghost use Rattle.bl_index_rule.specs.Observed.{Begins, Steps, ends, IsUnborn};
ghost use Rattle.bl_index_events.specs.Runs.{Runs, KeepsHand, IsSince, IsWithin};
ghost use Rattle.bl_index_read.specs.Turns.{IsAtTurn};
ghost use Rattle.bl_index_read.specs.declared.sought.Sought.{Sought as Seeks};
ghost use Rattle.bl_index_read.specs.LeafWays.{fresh, probing, going, IsAtLeaf, HasReached, HasLeaf, HasGivenUp, HasSetOff};
ghost use Rattle.bl_index_read.specs.Keeping.{KeepsStill, KeepsLeaf, IsKeptLeaf};

use crate::leaf_rows::descended;
use crate::sought::Sought;
use bl_index_events::{FrameView, Tree};
use bl_index_rule::{Began, Ended, Launch, PassState, Relayed};
use bl_page::Words;
use bl_proc::first_way;
use bl_proc_steps::{Descended, Descent};
use bl_store::{Glance, Hand};
use std::marker::Brand;

/// Where a search or a part has come by a get.
#[derive(Clone, Copy)]
pub(crate) enum Reached {
    /// It is to get another page.
    Further(Descent),
    /// It has its leaf.
    Leaf(Glance),
}

/// It begins, and is to get the anchor.
#[inline(always)]
fn begin_far(tree: &Tree, hand: &mut Hand<PassState>, sought: Sought, key: u64)
    requires own { IsHandOf tree.now.store hand.old }
    requires idle { IsIdle hand.old.seat }
    ensures same { IsSameHand hand.old.seat hand.new.seat × IsSameStock hand.old.seat hand.new.seat }
    ensures runs { Runs tree.now hand.new (going sought key descent.AtAnchor) }
    ensures observed { Begins hand.old.number tree.now.store.layout.pages tree.now.store.layout.passes (fresh sought key None) (known hand.old.seat)
        (known hand.new.seat) }
{
    tree.begin_as::<Brand, (Sought, u64, Option<u32>)>(hand, &(sought, key, None));
}

/// It begins, and has that page in mind.
#[inline(always)]
fn begin_near(tree: &Tree, hand: &mut Hand<PassState>, sought: Sought, key: u64, page: u32)
    requires own { IsHandOf tree.now.store hand.old }
    requires idle { IsIdle hand.old.seat }
    ensures same { IsSameHand hand.old.seat hand.new.seat × IsSameStock hand.old.seat hand.new.seat }
    ensures runs { Runs tree.now hand.new (probing sought key page) }
    ensures observed { Begins hand.old.number tree.now.store.layout.pages tree.now.store.layout.passes (fresh sought key (Some page)) (known hand.old.seat)
        (known hand.new.seat) }
{
    tree.begin_as::<Brand, (Sought, u64, Option<u32>)>(hand, &(sought, key, Some(page)));
}

/// It looks whether that page is open, and where it is, its way begins there.
#[inline(always)]
fn probe(tree: &Tree, hand: &mut Hand<PassState>, sought: Sought, key: u64, page: u32) -> Descent
    requires runs { Runs tree.now hand.old (probing sought key page) }
    requires page { page < tree.now.store.layout.pages }
    ensures same { KeepsHand hand.old.seat hand.new.seat }
    ensures still { KeepsStill hand.old.seat hand.new.seat }
    ensures runs { Runs tree.now hand.new (going sought key result) }
    ensures looked { Steps (Look (OfPage page)) (known hand.old.seat) (known hand.new.seat) }
{
    let _ = sought;
    let _ = key;
    let free = tree.is_open(hand, page);
    first_way(page, free)
}

/// It begins, and looks at that page first, if there is one. Any number will do for it.
#[inline(always)]
pub fn set_off(
    tree: &Tree,
    hand: &mut Hand<PassState>,
    sought: Sought,
    key: u64,
    near: Option<u32>,
) -> Descent
    requires own { IsHandOf tree.now.store hand.old }
    requires idle { IsIdle hand.old.seat }
    ensures same { IsSameHand hand.old.seat hand.new.seat × IsSameStock hand.old.seat hand.new.seat }
    ensures set_off { HasSetOff tree.now hand.new hand.old.number sought key result (known hand.old.seat) }
{
    match near {
        Some(page) => {
            if page < tree.pages {
                begin_near(tree, hand, sought, key, page);
                return probe(tree, hand, sought, key, page);
            }
        }
        None => {}
    }
    begin_far(tree, hand, sought, key);
    Descent::AtAnchor
}

/// What becomes of its way by the page that it got. A part mostly goes by the link of a leaf, to a page that begins with its key, and a
/// search does not.
#[inline(always)]
fn went<W: Words>(
    sought: Sought,
    way: Descent,
    source: &W,
    hand: &mut W::Hand,
    key: u64,
) -> Descended
    requires sees { W.Sees source.now hand.old }
    requires page { (c : Page) × (W.shown source.now hand.old ≡ words_of c) }
    ensures same { hand.new ≡ hand.old }
    ensures goes { (c : Page) → W.shown source.now hand.old ≡ words_of c → Descends key way c result }
{
    match sought {
        Sought::Value => way.took_words(source, hand, key),
        Sought::Rows(_) => descended(way, source, hand, key),
    }
}

/// It gets the page that is next, and goes on by its words.
#[inline(always)]
fn go_on(tree: &Tree, hand: &mut Hand<PassState>, sought: Sought, key: u64, way: Descent) -> Reached
    requires runs { Runs tree.now hand.old (going sought key way) }
    ensures same { KeepsHand hand.old.seat hand.new.seat }
    ensures reached { HasReached sought key tree.now.store.layout hand.new.seat result }
    ensures got { Steps (Get (descent_page way)) (known hand.old.seat) (known hand.new.seat) }
{
    let glance = tree.look(hand, way.page());
    let shown = FrameView {
        store: &tree.store,
        glance,
    };
    match went(sought, way, &shown, hand, key) {
        Descended::On(next) => Reached::Further(next),
        Descended::Here => Reached::Leaf(glance),
    }
}

/// It gets so many pages at most, until it has its leaf. Where it runs out of turns, it ends. In a scan only its first part comes here,
/// and one that has lost its way; but a call of it would cost each leaf the zeros of what the call gives.
#[inline(always)]
fn seek_leaf(
    tree: &Tree,
    hand: &mut Hand<PassState>,
    sought: Sought,
    key: u64,
    way: Descent,
    turns: u32,
) -> Option<Glance>
    requires runs { Runs tree.now hand.old (going sought key way) }
    ensures same { IsSameHand hand.old.seat hand.new.seat × IsSameStock hand.old.seat hand.new.seat }
    ensures came { (old : Knows) (pass got : ℕ) → IsSince pass old (known hand.old.seat)
        → IsAtTurn tree.now.store.layout.pages pass (old.number + 1) got (known hand.old.seat).trail
        → MatchOption result (HasGivenUp tree.now.store.layout pass (got + turns) old hand.new.seat)
        (HasLeaf tree.now.store.layout pass sought key (got + turns) old hand.new.seat) }
{
    let mut way = way;
    for _turn in 0..turns {
        match go_on(tree, hand, sought, key, way) {
            Reached::Further(next) => way = next,
            Reached::Leaf(glance) => return Some(glance),
        }
    }
    tree.give_up(hand);
    None
}

/// One that has set off gets so many pages at most, until it has its leaf. Where it runs out of turns, it ends.
#[inline(always)]
pub fn descend_to_leaf(
    tree: &Tree,
    hand: &mut Hand<PassState>,
    sought: Sought,
    key: u64,
    way: Descent,
    turns: u32,
) -> Option<Glance>
    requires off { (old : Knows) × (pass : ℕ) × HasSetOff tree.now hand.old pass sought key way old }
    ensures same { IsSameHand hand.old.seat hand.new.seat × IsSameStock hand.old.seat hand.new.seat }
    ensures reads { IfSome result (λ glance. ReadsFrom hand.new.seat glance × Runs tree.now hand.new (known hand.new.seat).state) }
    ensures came { (old : Knows) (pass : ℕ) → HasSetOff tree.now hand.old pass sought key way old
        → MatchOption result (HasGivenUp tree.now.store.layout pass turns old hand.new.seat)
        (HasLeaf tree.now.store.layout pass sought key turns old hand.new.seat) }
{
    // The first page of the way is looked at here, since one that has a page in mind mostly finds its leaf there.
    if turns == 0 {
        let glance = seek_leaf(tree, hand, sought, key, way, 0)?;
        return Some(glance);
    }
    let glance = match go_on(tree, hand, sought, key, way) {
        Reached::Further(next) => seek_leaf(tree, hand, sought, key, next, turns - 1)?,
        Reached::Leaf(glance) => glance,
    };
    Some(glance)
}

/// It ends, and it has its leaf.
#[inline(always)]
pub fn end_at_leaf(tree: &Tree, hand: &mut Hand<PassState>)
    requires runs { Runs tree.now hand.old (known hand.old.seat).state }
    requires leaf { (sought : Seeks) × (key : ℕ) × (words : List ℕ) × IsAtLeaf sought key words (known hand.old.seat) }
    ensures same { IsSameHand hand.old.seat hand.new.seat × IsSameStock hand.old.seat hand.new.seat }
    ensures idle { IsIdle hand.new.seat }
    ensures within { IsWithin hand.new.seat }
    ensures ended { ends (known hand.old.seat) 0 (known hand.new.seat) }
{
    tree.store.end::<Ended>(hand);
}

// It ends, and it has its leaf; and the next one begins. The bound names it beside its pass.
#[inline(always)]
fn relaunch<J: Launch>(
    tree: &Tree,
    hand: &mut Hand<PassState>,
    sought: Sought,
    key: u64,
    near: Option<u32>,
)
    requires runs { Runs tree.now hand.old (known hand.old.seat).state }
    requires leaf { (kind : Seeks) × (at : ℕ) × (words : List ℕ) × IsAtLeaf kind at words (known hand.old.seat) }
    requires names { (hand.old.number ≡ J.pass) × (tree.now.store.layout.pages ≡ J.pages) × (tree.now.store.layout.passes ≡ J.passes)
        × (fresh sought key near ≡ J.process) }
    requires next { next_of J.process ≡ act.Begin }
    requires unborn { IsUnborn J.process }
    requires course { GoesOn J.process seen.Done }
    ensures same { IsSameHand hand.old.seat hand.new.seat × IsSameStock hand.old.seat hand.new.seat }
    ensures running { IsRunning hand.new.seat }
    ensures observed { (between : Knows) × ends (known hand.old.seat) 0 between
        × Begins J.pass J.pages J.passes J.process between (known hand.new.seat) }
{
    let _ = sought;
    let _ = key;
    let _ = near;
    tree.store.renew::<Ended, Began<J>>(hand);
}

/// It ends, and it has its leaf; and at the same event the next one begins, which has that page in mind.
#[inline(always)]
fn renew_near(tree: &Tree, hand: &mut Hand<PassState>, sought: Sought, key: u64, page: u32)
    requires runs { Runs tree.now hand.old (known hand.old.seat).state }
    requires leaf { (kind : Seeks) × (at : ℕ) × (words : List ℕ) × IsAtLeaf kind at words (known hand.old.seat) }
    ensures same { IsSameHand hand.old.seat hand.new.seat × IsSameStock hand.old.seat hand.new.seat }
    ensures runs { Runs tree.now hand.new (probing sought key page) }
    ensures observed { (between : Knows) × ends (known hand.old.seat) 0 between
        × Begins hand.old.number tree.now.store.layout.pages tree.now.store.layout.passes (fresh sought key (Some page)) between
        (known hand.new.seat) }
{
    relaunch::<Brand>(tree, hand, sought, key, Some(page));
}

/// The same of one that is to get the anchor.
#[inline(always)]
fn renew_far(tree: &Tree, hand: &mut Hand<PassState>, sought: Sought, key: u64)
    requires runs { Runs tree.now hand.old (known hand.old.seat).state }
    requires leaf { (kind : Seeks) × (at : ℕ) × (words : List ℕ) × IsAtLeaf kind at words (known hand.old.seat) }
    ensures same { IsSameHand hand.old.seat hand.new.seat × IsSameStock hand.old.seat hand.new.seat }
    ensures runs { Runs tree.now hand.new (going sought key descent.AtAnchor) }
    ensures observed { (between : Knows) × ends (known hand.old.seat) 0 between
        × Begins hand.old.number tree.now.store.layout.pages tree.now.store.layout.passes (fresh sought key None) between (known hand.new.seat) }
{
    relaunch::<Brand>(tree, hand, sought, key, None);
}

/// It ends, and it has its leaf; and at the same event the next one sets off, which looks at that page first, if there is such a page.
#[inline(always)]
pub(crate) fn set_off_behind(
    tree: &Tree,
    hand: &mut Hand<PassState>,
    sought: Sought,
    key: u64,
    link: u32,
) -> Descent
    requires runs { Runs tree.now hand.old (known hand.old.seat).state }
    requires leaf { (kind : Seeks) × (at : ℕ) × (words : List ℕ) × IsAtLeaf kind at words (known hand.old.seat) }
    ensures same { IsSameHand hand.old.seat hand.new.seat × IsSameStock hand.old.seat hand.new.seat }
    ensures set_off { (between : Knows) × ends (known hand.old.seat) 0 between × HasSetOff tree.now hand.new hand.old.number sought key result between }
{
    if link < tree.pages {
        renew_near(tree, hand, sought, key, link);
        return probe(tree, hand, sought, key, link);
    }
    renew_far(tree, hand, sought, key);
    Descent::AtAnchor
}

/// It gets the page that is next, keeps it in mind, and goes on by its words.
#[inline(always)]
fn go_on_keeping(
    tree: &Tree,
    hand: &mut Hand<PassState>,
    sought: Sought,
    key: u64,
    way: Descent,
) -> Reached
    requires runs { Runs tree.now hand.old (going sought key way) }
    ensures same { KeepsHand hand.old.seat hand.new.seat }
    ensures still { KeepsStill hand.old.seat hand.new.seat }
    ensures reached { HasReached sought key tree.now.store.layout hand.new.seat result }
    ensures got { (c : Page) × (read_words hand.new.seat ≡ words_of c)
        × ((steps : Steps (Get (descent_page way)) (known hand.old.seat) (known hand.new.seat)) × (steps.notes.last.saw ≡ Some c)) }
    ensures keeps { KeepsLeaf (descent_page way) hand.new.seat result }
{
    let glance = tree.look_keeping(hand, way.page());
    let shown = FrameView {
        store: &tree.store,
        glance,
    };
    match went(sought, way, &shown, hand, key) {
        Descended::On(next) => Reached::Further(next),
        Descended::Here => Reached::Leaf(glance),
    }
}

/// The same as [`descend_to_leaf`], with the page of the leaf. Each page that it got is kept in mind, the leaf too, and what was kept before.
#[inline(always)]
pub fn descend_to_page(
    tree: &Tree,
    hand: &mut Hand<PassState>,
    sought: Sought,
    key: u64,
    way: Descent,
    turns: u32,
) -> Option<(u32, Glance)>
    requires off { (old : Knows) × (pass : ℕ) × HasSetOff tree.now hand.old pass sought key way old }
    ensures same { IsSameHand hand.old.seat hand.new.seat × IsSameStock hand.old.seat hand.new.seat }
    ensures reads { IfSome result (λ at. ReadsFrom hand.new.seat at.1 × Runs tree.now hand.new (known hand.new.seat).state) }
    ensures still { IfSome result (λ at. KeepsStill hand.old.seat hand.new.seat) }
    ensures came { (old : Knows) (pass : ℕ) → HasSetOff tree.now hand.old pass sought key way old
        → MatchOption result (HasGivenUp tree.now.store.layout pass turns old hand.new.seat)
        (λ at. HasLeaf tree.now.store.layout pass sought key turns old hand.new.seat at.1
        × IsKeptLeaf tree.now.store.layout.pages pass old at.0 hand.new.seat at.1) }
{
    let mut way = way;
    for _got in 0..turns {
        let page = way.page();
        match go_on_keeping(tree, hand, sought, key, way) {
            Reached::Further(next) => way = next,
            Reached::Leaf(glance) => return Some((page, glance)),
        }
    }
    tree.give_up(hand);
    None
}

// It ends, and it has its leaf; and the next one begins, for which the time of the first one counts, so what is kept in mind stays so. The
// bound names it beside its pass.
#[inline(always)]
fn relaunch_keeping<J: Launch>(
    tree: &Tree,
    hand: &mut Hand<PassState>,
    sought: Sought,
    key: u64,
    near: Option<u32>,
)
    requires runs { Runs tree.now hand.old (known hand.old.seat).state }
    requires leaf { (kind : Seeks) × (at : ℕ) × (words : List ℕ) × IsAtLeaf kind at words (known hand.old.seat) }
    requires names { (hand.old.number ≡ J.pass) × (tree.now.store.layout.pages ≡ J.pages) × (tree.now.store.layout.passes ≡ J.passes)
        × (fresh sought key near ≡ J.process) }
    requires next { next_of J.process ≡ act.Begin }
    requires unborn { IsUnborn J.process }
    requires course { GoesOn J.process seen.Done }
    ensures same { IsSameHand hand.old.seat hand.new.seat × IsSameStock hand.old.seat hand.new.seat }
    ensures running { IsRunning hand.new.seat }
    ensures still { KeepsStill hand.old.seat hand.new.seat }
    ensures observed { (between : Knows) × ends (known hand.old.seat) 0 between
        × Begins J.pass J.pages J.passes J.process between (known hand.new.seat) }
{
    let _ = sought;
    let _ = key;
    let _ = near;
    tree.store.relay::<Relayed<J>>(hand);
}

/// It ends, and it has its leaf; and at the same event the next one begins, which has that page in mind. What is kept in mind stays so.
#[inline(always)]
fn relay_near(tree: &Tree, hand: &mut Hand<PassState>, sought: Sought, key: u64, page: u32)
    requires runs { Runs tree.now hand.old (known hand.old.seat).state }
    requires leaf { (kind : Seeks) × (at : ℕ) × (words : List ℕ) × IsAtLeaf kind at words (known hand.old.seat) }
    ensures same { IsSameHand hand.old.seat hand.new.seat × IsSameStock hand.old.seat hand.new.seat }
    ensures runs { Runs tree.now hand.new (probing sought key page) }
    ensures still { KeepsStill hand.old.seat hand.new.seat }
    ensures observed { (between : Knows) × ends (known hand.old.seat) 0 between
        × Begins hand.old.number tree.now.store.layout.pages tree.now.store.layout.passes (fresh sought key (Some page)) between
        (known hand.new.seat) }
{
    relaunch_keeping::<Brand>(tree, hand, sought, key, Some(page));
}

/// The same of one that is to get the anchor.
#[inline(always)]
fn relay_far(tree: &Tree, hand: &mut Hand<PassState>, sought: Sought, key: u64)
    requires runs { Runs tree.now hand.old (known hand.old.seat).state }
    requires leaf { (kind : Seeks) × (at : ℕ) × (words : List ℕ) × IsAtLeaf kind at words (known hand.old.seat) }
    ensures same { IsSameHand hand.old.seat hand.new.seat × IsSameStock hand.old.seat hand.new.seat }
    ensures runs { Runs tree.now hand.new (going sought key descent.AtAnchor) }
    ensures still { KeepsStill hand.old.seat hand.new.seat }
    ensures observed { (between : Knows) × ends (known hand.old.seat) 0 between
        × Begins hand.old.number tree.now.store.layout.pages tree.now.store.layout.passes (fresh sought key None) between (known hand.new.seat) }
{
    relaunch_keeping::<Brand>(tree, hand, sought, key, None);
}

/// It ends, and it has its leaf; and at the same event the next one sets off, which looks at that page first, if there is such a page. What
/// is kept in mind stays so.
#[inline(always)]
pub fn set_off_keeping(
    tree: &Tree,
    hand: &mut Hand<PassState>,
    sought: Sought,
    key: u64,
    near: u32,
) -> Descent
    requires runs { Runs tree.now hand.old (known hand.old.seat).state }
    requires leaf { (kind : Seeks) × (at : ℕ) × (words : List ℕ) × IsAtLeaf kind at words (known hand.old.seat) }
    ensures same { IsSameHand hand.old.seat hand.new.seat × IsSameStock hand.old.seat hand.new.seat }
    ensures still { KeepsStill hand.old.seat hand.new.seat }
    ensures set_off { (between : Knows) × ends (known hand.old.seat) 0 between × HasSetOff tree.now hand.new hand.old.number sought key result between }
{
    if near < tree.pages {
        relay_near(tree, hand, sought, key, near);
        return probe(tree, hand, sought, key, near);
    }
    relay_far(tree, hand, sought, key);
    Descent::AtAnchor
}
