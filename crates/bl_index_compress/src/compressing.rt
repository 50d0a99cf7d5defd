//! Compressions, by the words of pages.

ghost use Rattle.std.specs.Prelude.{◌≡◌, ◌<◌, ◌≤◌, ℕ, Some, IfNone, IfSome, true, false};
ghost use Rattle.bl_answers.specs.declared.answers.Answer.TheVariants as answers;
ghost use Rattle.bl_answers.specs.declared.answers.Squeezed.TheVariants as said;
ghost use Rattle.bl_proc_steps.specs.declared.approach.Approach.TheVariants as approach;
ghost use Rattle.bl_proc_compress.specs.declared.compress.CompressReply.{CompressReply};
ghost use Rattle.bl_proc_compress.specs.declared.compress.CompressReply.TheVariants as replies;
ghost use Rattle.bl_proc_compress.specs.declared.compress.CompressStage.TheVariants as stages;
ghost use Rattle.bl_proc_compress.specs.Compresses.{compressed_answer};
ghost use Rattle.bl_proc.specs.declared.kinds.Proc.{Proc};
ghost use Rattle.bl_proc_deterministic.specs.Frames.{work_of};
ghost use Rattle.bl_store.specs.Hands.{known, read_words, IsIdle, IsSameHand, HasNoStock, ReadsFrom, WasRefused};
ghost use Rattle.bl_store.specs.Owners.{IsHandOf};
ghost use Rattle.bl_claims.specs.Seeing.{IsSeen};
ghost use Rattle.bl_index_rule.specs.declared.known.PassState.{PassState as Knows};
ghost use Rattle.bl_index_events.specs.Answered.{Undone, WritesNothing};
ghost use Rattle.bl_index_events.specs.Runs.{Runs, Rests, IsOn, IsSince, IsSameProcess};
ghost use Rattle.bl_index_descend.specs.Events.{HasGotAnchor, HoldsNone};
ghost use Rattle.bl_index_compress.specs.CompressStands.{compress_of, HasCompressed, HasTurnedBack, IsCompressOver};

use crate::families::{compress_there, compress_there_within};
use crate::targets::CompressTarget;
use bl_index_descend::{Neared, Reached, begin_descent, reach, reach_within};
use bl_index_events::{FrameView, Tree};
use bl_index_rule::PassState;
use bl_proc_routes::levels_in;
use bl_proc_steps::{Approach, Hint, Squeezed};
use bl_store::{Glance, Hand};
use std::sync::Wait;

/// From the anchor that it has looked at: on its way, unless the tree has no such level.
fn way_from_anchor(
    tree: &Tree,
    hand: &mut Hand<PassState>,
    target: CompressTarget,
    glance: Glance,
) -> Option<Approach>
    requires runs { Runs tree.now hand.old (known hand.old.seat).state }
    requires reads { ReadsFrom hand.old.seat glance }
    requires anchor { HasGotAnchor (compress_of target (stages.Coming approach.Start)) (read_words hand.old.seat) (known hand.old.seat) }
    ensures same { hand.new ≡ hand.old }
    ensures on { IfSome result (λ a. HoldsNone a × IsOn tree.now.store.layout (known hand.new.seat) (compress_of target (stages.Coming a))) }
    ensures none { IfNone result (IsOn tree.now.store.layout (known hand.new.seat) (compress_of target (stages.Ending replies.Alone))) }
{
    let shown = FrameView {
        store: &tree.store,
        glance,
    };
    if levels_in(&shown, hand) <= target.level {
        return None;
    }
    Some(Approach::Start.took_words(target.level, target.key, &shown, hand))
}

/// It is to end with that answer, and ends.
fn end_compression(
    tree: &Tree,
    hand: &mut Hand<PassState>,
    target: CompressTarget,
    answer: (Squeezed, Option<Hint>),
) -> (Squeezed, Option<Hint>)
    requires empty { HasNoStock hand.old.seat }
    requires process { (r : CompressReply) × (compressed_answer r ≡ answers.Compress answer.0 answer.1)
        × Runs tree.now hand.old (compress_of target (stages.Ending r)) }
    requires no_room { answer.0 ≡ said.NoRoom → WasRefused hand.old.seat 0 3 }
    ensures same { IsSameHand hand.old.seat hand.new.seat }
    ensures over { IsCompressOver target (known hand.old.seat) hand.new.seat result.0 result.1 }
{
    let _ = target;
    tree.conclude(hand);
    answer
}

/// From the anchor on, to its end.
fn compress_until<R: Wait>(
    tree: &Tree,
    rt: &R,
    hand: &mut Hand<PassState>,
    target: CompressTarget,
) -> (Squeezed, Option<Hint>)
    requires runs { Runs tree.now hand.old (compress_of target (stages.Coming approach.Start)) }
    requires empty { HasNoStock hand.old.seat }
    requires waits { target.waits ≡ true }
    ensures same { IsSameHand hand.old.seat hand.new.seat }
    ensures over { IsCompressOver target (known hand.old.seat) hand.new.seat result.0 result.1 }
{
    let mut from = Approach::Start;
    for _ in rt.forever() {
        match reach(tree, rt, hand, &target, &mut (), from) {
            Reached::Parent(at, glance) => {
                if let Some(answer) = compress_there(tree, rt, hand, target, at, glance) {
                    return end_compression(tree, hand, target, answer);
                }
                from = Approach::Start;
            }
            Reached::Again => from = Approach::Start,
            Reached::NoLevel(glance) => match way_from_anchor(tree, hand, target, glance) {
                Some(way) => from = way,
                None => return end_compression(tree, hand, target, (Squeezed::Alone, None)),
            },
        }
    }
    unreachable!()
}

/// Carries a compression out, from its begin to its end.
pub fn compress_children<R: Wait>(
    tree: &Tree,
    rt: &R,
    hand: &mut Hand<PassState>,
    level: u32,
    key: u64,
) -> (Squeezed, Option<Hint>)
    requires own { IsHandOf tree.now.store hand.old }
    requires idle { IsIdle hand.old.seat × HasNoStock hand.old.seat }
    requires least { 0 < level }
    requires most { level ≤ 12 }
    ensures same { IsSameHand hand.old.seat hand.new.seat }
    ensures rests { Rests hand.new.seat }
    ensures empty { HasNoStock hand.new.seat }
    ensures compressed { (first : Proc) × (work_of first ≡ Some (level, key))
        × HasCompressed hand.old.number (known hand.old.seat) (known hand.new.seat) first result.0 result.1 }
    ensures no_room { result.0 ≡ said.NoRoom → WasRefused hand.new.seat 0 3 }
{
    let target = CompressTarget {
        level,
        key,
        waits: true,
    };
    begin_descent(tree, hand, &target);
    compress_until(tree, rt, hand, target)
}

/// From the anchor on, to its end, or until it would wait: then it holds no page, and has done nothing.
fn compress_once(
    tree: &Tree,
    hand: &mut Hand<PassState>,
    target: CompressTarget,
    turns: u32,
) -> Option<(Squeezed, Option<Hint>)>
    requires runs { Runs tree.now hand.old (compress_of target (stages.Coming approach.Start)) }
    requires empty { HasNoStock hand.old.seat }
    requires yields { target.waits ≡ false }
    ensures same { IsSameHand hand.old.seat hand.new.seat }
    ensures over { IfSome result (λ answer. IsCompressOver target (known hand.old.seat) hand.new.seat answer.0 answer.1) }
    ensures back { IfNone result (HasTurnedBack tree.now (known hand.old.seat) hand.new target) }
{
    match reach_within(tree, hand, &target, &mut (), turns) {
        Neared::Parent(at, glance) => match compress_there_within(tree, hand, target, at, glance) {
            Some(answer) => Some(end_compression(tree, hand, target, answer)),
            None => None,
        },
        Neared::Underway(_way) => None,
        Neared::NoLevel(glance) => match way_from_anchor(tree, hand, target, glance) {
            Some(_way) => None,
            None => Some(end_compression(tree, hand, target, (Squeezed::Alone, None))),
        },
    }
}

/// Carries a compression out, or gives up: it waits for nothing. None: it has not been done, and nothing of it is left.
pub fn try_compress(
    tree: &Tree,
    hand: &mut Hand<PassState>,
    level: u32,
    key: u64,
    turns: u32,
) -> Option<(Squeezed, Option<Hint>)>
    requires own { IsHandOf tree.now.store hand.old }
    requires idle { IsIdle hand.old.seat × HasNoStock hand.old.seat }
    requires least { 0 < level }
    requires most { level ≤ 12 }
    ensures same { IsSameHand hand.old.seat hand.new.seat }
    ensures rests { Rests hand.new.seat }
    ensures empty { HasNoStock hand.new.seat }
    ensures compressed { IfSome result (λ answer. (first : Proc) × (work_of first ≡ Some (level, key))
        × HasCompressed hand.old.number (known hand.old.seat) (known hand.new.seat) first answer.0 answer.1) }
    ensures no_room { IfSome result (λ answer. answer.0 ≡ said.NoRoom → WasRefused hand.new.seat 0 3) }
    ensures undone { IfNone result (Undone WritesNothing hand.old.number (known hand.old.seat) (known hand.new.seat)) }
    ensures first { (known hand.new.seat).first ≡ (known hand.old.seat).first }
    ensures seen { IsSeen (known hand.new.seat).first (known hand.new.seat).trail }
{
    let target = CompressTarget {
        level,
        key,
        waits: false,
    };
    begin_descent(tree, hand, &target);
    match compress_once(tree, hand, target, turns) {
        Some(answer) => Some(answer),
        None => {
            tree.give_up(hand);
            None
        }
    }
}
