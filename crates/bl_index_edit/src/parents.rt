//! At a parent that who posts holds, by the words of pages.

ghost use Rattle.std.specs.Prelude.{◌≡◌, ◌≢◌, ◌<◌, ◌-◌, MatchOption, IfOk, IfErr};
ghost use Rattle.bl_page.specs.declared.page.Page.{Page};
ghost use Rattle.bl_page.specs.Words.{words_of};
ghost use Rattle.bl_page.specs.Nodes.{node_of, IsTreePage};
ghost use Rattle.bl_proc_steps.specs.declared.approach.Approach.TheVariants as approach;
ghost use Rattle.bl_proc_steps.specs.declared.edit.Edit.{Edit};
ghost use Rattle.bl_proc_routes.specs.declared.routes.Step.TheVariants as onward;
ghost use Rattle.bl_proc_routes.specs.Routes.{Leads};
ghost use Rattle.bl_proc_writes.specs.declared.post.PostStage.TheVariants as post;
ghost use Rattle.bl_proc_writes.specs.Levels.{MayReply};
ghost use Rattle.bl_proc_writes.specs.Posts.{post_reply};
ghost use Rattle.bl_store.specs.Hands.{known, read_words, IsRunning, HasNoStock, ReadsFrom};
ghost use Rattle.bl_store.specs.Owners.{IsHandOf};
ghost use Rattle.bl_index_events.specs.Runs.{Runs, KeepsHand, IsOn, IsSameProcess};
ghost use Rattle.bl_index_descend.specs.Events.{IsThere};
ghost use Rattle.bl_index_edit.specs.Events.{IsToEnter, IsWalking, HasWalked, LeavesParent, WalksOn};
ghost use Rattle.bl_proc_writes.specs.declared.post.PostReply.TheVariants as replies;

use crate::editors::Listing;
use crate::posters::Poster;
use crate::splitting::enter_page;
use bl_index_events::{FrameView, Tree};
use bl_index_rule::PassState;
use bl_page::{LOW, Words, word, words_from};
use bl_proc_routes::{Step, row_in, step_in};
use bl_proc_steps::Outcome;
use bl_proc_writes::PostReply;
use bl_store::{Glance, Hand};
use std::sync::Wait;

/// What a walk from a parent to a child sees at a page.
#[derive(Clone, Copy)]
pub(crate) enum Walked {
    /// It is to get that page.
    On(u32),
    /// It is the child that the parent is to list.
    Found,
    /// It is the child that covers the key, and has another low.
    Stale,
    /// The way begins again.
    Lost,
}

/// The reply of a post, by what became of its parent.
fn reply_by(outcome: Outcome) -> PostReply
    ensures { result ≡ post_reply outcome }
{
    match outcome {
        Outcome::Edited => PostReply::Done(None),
        Outcome::SplitAt(separator) => PostReply::Done(Some(separator)),
        Outcome::Refused => PostReply::NoRoom,
    }
}

/// The child that a walk begins with, by the words of its parent, which covers the key.
fn first_child(parent: &[u64; 32], level: u32, key: u64) -> u32
    requires least { 0 < level }
    requires page { (c : Page) × (parent.now ≡ words_of c) × Leads c key level onward.Here }
    ensures { (c : Page) → parent.now ≡ words_of c → Leads c key (level - 1) (onward.Down result) }
{
    match step_in(parent, &mut (), &mut 0, key, level - 1) {
        Step::Down(child) => child,
        _ => unreachable!(),
    }
}

/// The low of a leaf or an inner page with these words.
fn low_in<W: Words>(source: &W, hand: &mut W::Hand) -> u64
    requires sees { W.Sees source.now hand.old }
    ensures same { hand.new ≡ hand.old }
    ensures low { (c : Page) → IsTreePage c → W.shown source.now hand.old ≡ words_of c → result ≡ (node_of c).shape.low }
{
    word(source, hand, LOW)
}

/// The parent that it holds stays as it is.
pub(crate) fn stay<P: Poster>(
    tree: &Tree,
    hand: &mut Hand<PassState>,
    poster: &P,
    at: u32,
    reply: PostReply,
) -> Option<PostReply>
    requires runs { Runs tree.now hand.old (known hand.old.seat).state }
    requires empty { HasNoStock hand.old.seat }
    requires reply { reply ≢ replies.NoRoom }
    requires process { (may : MayReply (P.level_of poster.now) reply) × ((known hand.old.seat).state ≡ P.staged poster.now (post.Staying at reply) may tt) }
    ensures { LeavesParent tree.now hand.old.seat hand.new (P.level_of poster.now) (P.key_of poster.now) (P.staged poster.now) (P.opened poster.now) result }
{
    let _ = poster;
    tree.reopen(hand, at);
    Some(reply)
}

/// The parent that it holds, with these words, lists the child.
fn list<P: Poster>(
    tree: &Tree,
    hand: &mut Hand<PassState>,
    poster: &P,
    at: u32,
    parent: &[u64; 32],
    child: u32,
) -> Option<PostReply>
    requires own { IsHandOf tree.now.store hand.old }
    requires running { IsRunning hand.old.seat × HasNoStock hand.old.seat }
    requires page { (below : P.level_of poster.now < 12) × (c : Edit) × IsToEnter at (P.key_of poster.now) child parent.now c
        × IsOn tree.now.store.layout (known hand.old.seat) (P.staged poster.now (post.Editing c) below tt) }
    ensures { LeavesParent tree.now hand.old.seat hand.new (P.level_of poster.now) (P.key_of poster.now) (P.staged poster.now) (P.opened poster.now) result }
{
    let listing = Listing { poster };
    let key = poster.key();
    let outcome = enter_page(tree, hand, &listing, at, parent, key, child as u64);
    tree.reopen(hand, at);
    Some(reply_by(outcome))
}

/// It gets the next page on its way from the parent, with these words, to the child that covers its key.
fn walk_on<P: Poster>(
    tree: &Tree,
    hand: &mut Hand<PassState>,
    poster: &P,
    at: u32,
    parent: &[u64; 32],
    child: u32,
) -> Walked
    requires runs { Runs tree.now hand.old (known hand.old.seat).state }
    requires walking { IsWalking (P.level_of poster.now) (P.key_of poster.now) (P.staged poster.now) at parent.now child (known hand.old.seat).state }
    ensures same { KeepsHand hand.old.seat hand.new.seat }
    ensures walked { HasWalked (P.level_of poster.now) (P.key_of poster.now) (P.staged poster.now) tree.now.store.layout at parent.now child
        (known hand.new.seat) result }
    ensures since { IsSameProcess (known hand.old.seat) (known hand.new.seat) }
{
    let _ = at;
    let _ = parent;
    let level = poster.level();
    let key = poster.key();
    let glance = tree.look(hand, child);
    let shown = FrameView {
        store: &tree.store,
        glance,
    };
    match step_in(&shown, hand, &mut 0, key, level - 1) {
        Step::Here => {
            if low_in(&shown, hand) == key {
                Walked::Found
            } else {
                Walked::Stale
            }
        }
        Step::Right(next) => {
            if next == 0 {
                Walked::Lost
            } else {
                Walked::On(next)
            }
        }
        Step::Again => Walked::Lost,
        Step::Down(_child) => Walked::Lost,
    }
}

/// It walks from the parent, with these words, to the child that covers its key. What it replies, unless its way begins
/// again. Where it has not come to the child after so many turns, it gives the page that it is to get next, and holds the parent still.
pub(crate) fn walk_within<P: Poster>(
    tree: &Tree,
    hand: &mut Hand<PassState>,
    poster: &P,
    at: u32,
    parent: &[u64; 32],
    child: u32,
    turns: u32,
) -> Result<Option<PostReply>, u32>
    requires runs { Runs tree.now hand.old (known hand.old.seat).state }
    requires empty { HasNoStock hand.old.seat }
    requires walking { IsWalking (P.level_of poster.now) (P.key_of poster.now) (P.staged poster.now) at parent.now child (known hand.old.seat).state }
    ensures left { IfOk result (λ replies. LeavesParent tree.now hand.old.seat hand.new (P.level_of poster.now) (P.key_of poster.now) (P.staged poster.now)
        (P.opened poster.now) replies) }
    ensures walks { IfErr result (λ next. WalksOn tree.now hand.old.seat hand.new (P.level_of poster.now) (P.key_of poster.now) (P.staged poster.now) at
        parent.now next) }
{
    let mut child = child;
    for _turn in 0..turns {
        match walk_on(tree, hand, poster, at, parent, child) {
            Walked::On(next) => child = next,
            Walked::Found => return Ok(list(tree, hand, poster, at, parent, child)),
            Walked::Stale => return Ok(stay(tree, hand, poster, at, PostReply::Stale)),
            Walked::Lost => {
                tree.reopen(hand, at);
                return Ok(None);
            }
        }
    }
    Err(child)
}

/// The same, however long it takes.
fn walk<P: Poster, R: Wait>(
    tree: &Tree,
    rt: &R,
    hand: &mut Hand<PassState>,
    poster: &P,
    at: u32,
    parent: &[u64; 32],
    child: u32,
) -> Option<PostReply>
    requires runs { Runs tree.now hand.old (known hand.old.seat).state }
    requires empty { HasNoStock hand.old.seat }
    requires walking { IsWalking (P.level_of poster.now) (P.key_of poster.now) (P.staged poster.now) at parent.now child (known hand.old.seat).state }
    ensures { LeavesParent tree.now hand.old.seat hand.new (P.level_of poster.now) (P.key_of poster.now) (P.staged poster.now) (P.opened poster.now) result }
{
    let mut child = child;
    for _ in rt.forever() {
        match walk_within(tree, hand, poster, at, parent, child, u32::MAX) {
            Ok(replies) => return replies,
            Err(next) => child = next,
        }
    }
    unreachable!()
}

/// At the parent that it holds, which covers the key. Notes the parent's words. Gives the child that its walk begins with, unless the
/// parent lists the key.
pub(crate) fn begin_walk<P: Poster>(
    tree: &Tree,
    hand: &mut Hand<PassState>,
    poster: &P,
    at: u32,
    glance: Glance,
    parent: &mut [u64; 32],
) -> Option<u32>
    requires runs { Runs tree.now hand.old (known hand.old.seat).state }
    requires reads { ReadsFrom hand.old.seat glance }
    requires there { IsThere (P.level_of poster.now) (P.key_of poster.now) (P.staged poster.now (post.Coming (approach.Latched at)) tt tt)
        (read_words hand.old.seat) (known hand.old.seat) }
    ensures same { hand.new ≡ hand.old }
    ensures begins { MatchOption result ((known hand.old.seat).state ≡ P.staged poster.now (post.Staying at replies.Already) tt tt)
        (λ child. IsWalking (P.level_of poster.now) (P.key_of poster.now) (P.staged poster.now) at parent.new child (known hand.old.seat).state) }
{
    let _ = at;
    let key = poster.key();
    let shown = FrameView {
        store: &tree.store,
        glance,
    };
    if let Some(_child) = row_in(&shown, hand, &mut 0, key) {
        return None;
    }
    *parent = words_from(&shown, hand);
    Some(first_child(parent, poster.level(), key))
}

/// Posts at the parent that it holds, which covers the key. What it replies; or `None` where it has lost its walk to the child: then it
/// holds no page any more, and its way begins anew.
pub fn post_there<P: Poster, R: Wait>(
    tree: &Tree,
    rt: &R,
    hand: &mut Hand<PassState>,
    poster: &P,
    at: u32,
    glance: Glance,
) -> Option<PostReply>
    requires runs { Runs tree.now hand.old (known hand.old.seat).state }
    requires empty { HasNoStock hand.old.seat }
    requires reads { ReadsFrom hand.old.seat glance }
    requires there { IsThere (P.level_of poster.now) (P.key_of poster.now) (P.staged poster.now (post.Coming (approach.Latched at)) tt tt)
        (read_words hand.old.seat) (known hand.old.seat) }
    ensures { LeavesParent tree.now hand.old.seat hand.new (P.level_of poster.now) (P.key_of poster.now) (P.staged poster.now) (P.opened poster.now) result }
{
    let mut parent = [0; 32];
    match begin_walk(tree, hand, poster, at, glance, &mut parent) {
        Some(child) => walk(tree, rt, hand, poster, at, &parent, child),
        None => stay(tree, hand, poster, at, PostReply::Already),
    }
}
