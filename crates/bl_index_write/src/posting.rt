//! Posts, by the words of pages.

ghost use Rattle.std.specs.Prelude.{◌≡◌, ◌<◌, ◌≤◌, ℕ, Some, IfOk, IfErr, IfSome, IfNone};
ghost use Rattle.bl_page.specs.declared.page.Page.{Page};
ghost use Rattle.bl_page.specs.Words.{words_of};
ghost use Rattle.bl_proc_steps.specs.declared.acts.Seen.TheVariants as seen;
ghost use Rattle.bl_answers.specs.declared.answers.Answer.TheVariants as answers;
ghost use Rattle.bl_proc_steps.specs.declared.approach.Approach.TheVariants as approach;
ghost use Rattle.bl_proc.specs.declared.kinds.Proc.{Proc};
ghost use Rattle.bl_proc.specs.declared.kinds.Proc.TheVariants as proc;
ghost use Rattle.bl_proc.specs.Processes.{Takes};
ghost use Rattle.bl_proc_writes.specs.declared.post.PostStage.TheVariants as post;
ghost use Rattle.bl_proc_writes.specs.Levels.{MayReply};
ghost use Rattle.bl_proc_writes.specs.Posts.{posted_answer};
ghost use Rattle.bl_proc_deterministic.specs.Frames.{work_of};
ghost use Rattle.bl_store.specs.Hands.{known, read_words, IsIdle, IsSameHand, HasNoStock, ReadsFrom};
ghost use Rattle.bl_store.specs.Owners.{IsHandOf};
ghost use Rattle.bl_claims.specs.Seeing.{IsSeen};
ghost use Rattle.bl_index_rule.specs.declared.known.PassState.{PassState as Knows};
ghost use Rattle.bl_claims.specs.Meanings.{HasRaised};
ghost use Rattle.bl_index_events.specs.Answered.{Undone};
ghost use Rattle.bl_index_events.specs.Runs.{Runs, Rests, IsSince, IsSameProcess};
ghost use Rattle.bl_index_descend.specs.Events.{HasGotAnchor, IsThere};
ghost use Rattle.bl_index_write.specs.Events.{posting, HasPosted, IsPostOver, IsPostUnderway, IsPostAnswer};
ghost use Rattle.bl_index_events.specs.Rooms.{LacksPost};
ghost use Rattle.bl_answers.specs.declared.answers.Posted.TheVariants as postings;
ghost use Rattle.bl_proc_writes.specs.declared.post.PostReply.TheVariants as replies;

use crate::briefs::begins_again;
use crate::carrying::carry_briefly;
use crate::targets::Posting;
use bl_index_descend::{Neared, Reached, begin_descent, reach, reach_within};
use bl_index_edit::{post_there, post_there_within};
use bl_index_events::{FrameView, Tree};
use bl_index_rule::PassState;
use bl_proc::{Answer, Hint, Posted, Process, Reader};
use bl_proc_steps::{Approach, Level};
use bl_proc_writes::{Post, PostReply, PostStage};
use bl_store::{Glance, Hand};
use std::sync::Wait;

/// How many pages a post that may not wait gets at most on its walk from a parent that it holds to the child, before it opens that. Until
/// then it has made no more than 64 events while it held the parent: that one's own get is one, and a parent that is split takes five.
const WALK: u32 = 58;

/// What became of a post, and its hint.
fn posted(answer: Option<Answer>) -> (Posted, Option<Hint>)
    requires { IsPostAnswer answer }
    ensures { answer ≡ Some (answers.Post result.0 result.1) }
{
    match answer {
        Some(Answer::Post(posted, hint)) => (posted, hint),
        _ => unreachable!(),
    }
}

/// The same of a post to that level, by its reply.
pub(crate) fn posted_by(level: u32, reply: PostReply) -> (Posted, Option<Hint>)
    requires { MayReply level reply }
    ensures answer { posted_answer level reply ≡ answers.Post result.0 result.1 }
    ensures no_room { result.0 ≡ postings.NoRoom → reply ≡ replies.NoRoom }
{
    match reply {
        PostReply::Done(None) => (Posted::Done, None),
        PostReply::Done(Some(separator)) => {
            let hint = Hint::Post {
                level: Level::new(level + 1),
                key: separator,
            };
            (Posted::Done, Some(hint))
        }
        PostReply::Already => (Posted::Already, None),
        PostReply::Stale => (Posted::Stale, None),
        PostReply::NoRoom => (Posted::NoRoom, None),
        PostReply::TooTall => (Posted::TooTall, None),
    }
}

/// It has opened its parent, and ends.
fn end_post(
    tree: &Tree,
    hand: &mut Hand<PassState>,
    target: Posting,
    reply: PostReply,
) -> (Posted, Option<Hint>)
    requires empty { HasNoStock hand.old.seat }
    requires process { (may : MayReply target.level reply) × Runs tree.now hand.old (posting target (post.Ending reply) may) }
    requires no_room { reply ≡ replies.NoRoom → LacksPost target.level target.key hand.old.seat }
    ensures same { IsSameHand hand.old.seat hand.new.seat }
    ensures over { IsPostOver target (known hand.old.seat) hand.new.seat result.0 result.1 }
{
    tree.conclude(hand);
    posted_by(target.level, reply)
}

/// A post that has come so far on its way to its parent.
fn on_way(target: Posting, way: Approach) -> Post
    ensures { proc.Post result ≡ posting target (post.Coming way) tt }
{
    Post {
        level: target.level,
        key: target.key,
        stage: PostStage::Coming(way),
    }
}

/// The tree has no such level: the post has got the anchor, and goes on as a value.
fn looked_up(tree: &Tree, hand: &mut Hand<PassState>, target: Posting, glance: Glance) -> Post
    requires runs { Runs tree.now hand.old (known hand.old.seat).state }
    requires reads { ReadsFrom hand.old.seat glance }
    requires empty { HasNoStock hand.old.seat }
    requires anchor { HasGotAnchor (posting target (post.Coming approach.Start) tt) (read_words hand.old.seat) (known hand.old.seat) }
    ensures same { hand.new ≡ hand.old }
    ensures underway { IsPostUnderway tree.now hand.new target.level target.key result }
    ensures takes { (c : Page) → read_words hand.old.seat ≡ words_of c → Takes (posting target (post.Coming approach.Start) tt) (seen.Words c) (proc.Post result) }
{
    let shown = FrameView {
        store: &tree.store,
        glance,
    };
    let mut process = Post {
        level: target.level,
        key: target.key,
        stage: PostStage::Coming(Approach::Start),
    };
    process.took_words(&shown, hand);
    process
}

/// The tree has no such level: it gets one more, or the post ends. This is rare, and goes by a process value.
#[inline(never)]
fn post_above<R: Wait>(
    tree: &Tree,
    rt: &R,
    hand: &mut Hand<PassState>,
    target: Posting,
    glance: Glance,
) -> (Posted, Option<Hint>)
    requires runs { Runs tree.now hand.old (known hand.old.seat).state }
    requires empty { HasNoStock hand.old.seat }
    requires reads { ReadsFrom hand.old.seat glance }
    requires since { (pass : ℕ) × (old : Knows) × IsSince pass old (known hand.old.seat) }
    requires anchor { HasGotAnchor (posting target (post.Coming approach.Start) tt) (read_words hand.old.seat) (known hand.old.seat) }
    ensures same { IsSameHand hand.old.seat hand.new.seat }
    ensures over { IsPostOver target (known hand.old.seat) hand.new.seat result.0 result.1 }
{
    let process = looked_up(tree, hand, target, glance);
    let process = tree.carry_on(rt, hand, process);
    posted(process.answer())
}

/// From the anchor on, to its end.
fn post_until<R: Wait>(
    tree: &Tree,
    rt: &R,
    hand: &mut Hand<PassState>,
    target: Posting,
) -> (Posted, Option<Hint>)
    requires runs { Runs tree.now hand.old (posting target (post.Coming approach.Start) tt) }
    requires empty { HasNoStock hand.old.seat }
    requires since { (pass : ℕ) × (old : Knows) × IsSince pass old (known hand.old.seat) }
    ensures same { IsSameHand hand.old.seat hand.new.seat }
    ensures over { IsPostOver target (known hand.old.seat) hand.new.seat result.0 result.1 }
{
    for _ in rt.forever() {
        match reach(tree, rt, hand, &target, &mut (), Approach::Start) {
            Reached::Parent(at, glance) => {
                tree.await_frames(hand);
                // Where its walk to the child was lost, it holds no page, and begins anew.
                if let Some(reply) = post_there(tree, rt, hand, &target, at, glance) {
                    return end_post(tree, hand, target, reply);
                }
            }
            Reached::Again => {}
            Reached::NoLevel(glance) => return post_above(tree, rt, hand, target, glance),
        }
    }
    unreachable!()
}

/// Carries a post out, from its begin to its end.
pub fn post_key<R: Wait>(
    tree: &Tree,
    rt: &R,
    hand: &mut Hand<PassState>,
    level: u32,
    key: u64,
) -> (Posted, Option<Hint>)
    requires own { IsHandOf tree.now.store hand.old }
    requires idle { IsIdle hand.old.seat × HasNoStock hand.old.seat }
    requires least { 0 < level }
    requires most { level ≤ 12 }
    ensures same { IsSameHand hand.old.seat hand.new.seat }
    ensures rests { Rests hand.new.seat }
    ensures empty { HasNoStock hand.new.seat }
    ensures posted { (first : Proc) × (work_of first ≡ Some (level, key))
        × HasPosted hand.old.number (known hand.old.seat) (known hand.new.seat) first result.0 result.1 }
    ensures no_room { result.0 ≡ postings.NoRoom → LacksPost level key hand.new.seat }
{
    let target = Posting { level, key };
    begin_descent(tree, hand, &target);
    post_until(tree, rt, hand, target)
}

/// At the parent that it holds, which covers the key. It waits for nothing.
fn post_at(
    tree: &Tree,
    hand: &mut Hand<PassState>,
    target: Posting,
    at: u32,
    glance: Glance,
) -> Result<(Posted, Option<Hint>), Post>
    requires runs { Runs tree.now hand.old (known hand.old.seat).state }
    requires empty { HasNoStock hand.old.seat }
    requires reads { ReadsFrom hand.old.seat glance }
    requires there { IsThere target.level target.key (posting target (post.Coming (approach.Latched at)) tt) (read_words hand.old.seat)
        (known hand.old.seat) }
    ensures same { IsSameHand hand.old.seat hand.new.seat }
    ensures over { IfOk result (λ said. IsPostOver target (known hand.old.seat) hand.new.seat said.0 said.1) }
    ensures underway { IfErr result (λ process. IsPostUnderway tree.now hand.new target.level target.key process
        × IsSameProcess (known hand.old.seat) (known hand.new.seat)) }
{
    match post_there_within(tree, hand, &target, at, glance, WALK) {
        Ok(Some(reply)) => Ok(end_post(tree, hand, target, reply)),
        Ok(None) => Err(on_way(target, Approach::Start)),
        Err(_far) => {
            tree.leave_walk(hand, at);
            Err(on_way(target, Approach::Start))
        }
    }
}

/// Carries a post out, from its begin to its end, unless it would wait. Where it gives up on its way to the parent, after so many turns at
/// most, where its walk from there to the child is long, and where the tree has no such level, it is underway, as the value that it
/// gives, and holds no page.
pub fn post_within(
    tree: &Tree,
    hand: &mut Hand<PassState>,
    level: u32,
    key: u64,
    turns: u32,
) -> Result<(Posted, Option<Hint>), Post>
    requires own { IsHandOf tree.now.store hand.old }
    requires idle { IsIdle hand.old.seat × HasNoStock hand.old.seat }
    requires least { 0 < level }
    requires most { level ≤ 12 }
    ensures same { IsSameHand hand.old.seat hand.new.seat }
    ensures ended { IfOk result (λ said. Rests hand.new.seat × HasNoStock hand.new.seat × ((first : Proc) × (work_of first ≡ Some (level, key))
        × HasPosted hand.old.number (known hand.old.seat) (known hand.new.seat) first said.0 said.1)) }
    ensures no_room { IfOk result (λ said. said.0 ≡ postings.NoRoom → LacksPost level key hand.new.seat) }
    ensures underway { IfErr result (λ process. IsPostUnderway tree.now hand.new level key process
        × IsSince hand.old.number (known hand.old.seat) (known hand.new.seat)) }
{
    let target = Posting { level, key };
    begin_descent(tree, hand, &target);
    match reach_within(tree, hand, &target, &mut (), turns) {
        Neared::Parent(at, glance) => post_at(tree, hand, target, at, glance),
        Neared::Underway(way) => Err(on_way(target, way)),
        Neared::NoLevel(glance) => Err(looked_up(tree, hand, target, glance)),
    }
}

/// Carries a post out, or gives up: it waits for nothing. None: it has listed nothing, and nothing of it is left but a new top level, where it
/// has made one.
pub fn try_post(
    tree: &Tree,
    hand: &mut Hand<PassState>,
    level: u32,
    key: u64,
    turns: u32,
) -> Option<(Posted, Option<Hint>)>
    requires own { IsHandOf tree.now.store hand.old }
    requires idle { IsIdle hand.old.seat × HasNoStock hand.old.seat }
    requires least { 0 < level }
    requires most { level ≤ 12 }
    ensures same { IsSameHand hand.old.seat hand.new.seat }
    ensures rests { Rests hand.new.seat }
    ensures empty { HasNoStock hand.new.seat }
    ensures posted { IfSome result (λ said. (first : Proc) × (work_of first ≡ Some (level, key))
        × HasPosted hand.old.number (known hand.old.seat) (known hand.new.seat) first said.0 said.1) }
    ensures no_room { IfSome result (λ said. said.0 ≡ postings.NoRoom → LacksPost level key hand.new.seat) }
    ensures undone { IfNone result (Undone (HasRaised level) hand.old.number (known hand.old.seat) (known hand.new.seat)) }
    ensures first { (known hand.new.seat).first ≡ (known hand.old.seat).first }
    ensures seen { IsSeen (known hand.new.seat).first (known hand.new.seat).trail }
{
    match post_within(tree, hand, level, key, turns) {
        Ok(said) => Some(said),
        Err(process) => {
            let mut process = process;
            if begins_again(&process.stage) {
                tree.give_up(hand);
                return None;
            }
            if carry_briefly(tree, hand, &mut process) {
                return Some(posted(process.answer()));
            }
            tree.give_up(hand);
            None
        }
    }
}
