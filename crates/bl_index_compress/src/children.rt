//! A compression that holds its parent, and latches two children of it.

ghost use Rattle.std.specs.Prelude.{◌≡◌, ◌≢◌, ◌<◌, ◌≤◌, ◌⊎◌, ◌↔◌, IsTrue, IfSome, IfNone, get_or, true, false};
ghost use Rattle.bl_page.specs.declared.page.Page.{Page};
ghost use Rattle.bl_page.specs.Words.{words_of};
ghost use Rattle.bl_rearrange.specs.Neighbours.{AreNeighbours, together};
ghost use Rattle.bl_proc_compress.specs.declared.compression.Compression.TheVariants.{LatchingLeft, LatchedLeft, LatchedRight, PuttingFirst, OpeningRight, OpeningLeft};
ghost use Rattle.bl_proc_compress.specs.declared.compression.Decision.TheVariants as decisions;
ghost use Rattle.bl_answers.specs.declared.answers.Hint.TheVariants as hints;
ghost use Rattle.bl_rearrange.specs.declared.families.Family.{Family};
ghost use Rattle.bl_proc_compress.specs.declared.compression.Puts.{Puts as PutsIs};
ghost use Rattle.bl_proc_compress.specs.Compressions.{MayEven, after_puts};
ghost use Rattle.bl_store.specs.Hands.{known, IsSameHand, IsSameStamp, HasNoStock, MayRetire, WasRefused};
ghost use Rattle.bl_index_events.specs.Runs.{Runs, IsOn, IsSameProcess};
ghost use Rattle.bl_index_compress.specs.declared.targets.CompressTarget.{CompressTarget as CompressTargetIs};
ghost use Rattle.bl_index_compress.specs.CompressStands.{compression_of, Answers, ArePuts, HasBoth, IsDecided, IsKin, LeavesParent, on_side};

use crate::events::{latch, put_first, put_next, retire, words_at};
use crate::pages::{
    buried_words, evened_words, merge_hint_in, merged_words, neighbours_in, relisted_words,
};
use crate::targets::{CompressTarget, Kin};
use bl_index_events::Tree;
use bl_index_rule::PassState;
use bl_model::limits::{ENOUGH_PAIRS, MOST_PAIRS};
use bl_page::{HEAD, HIGH, LEVEL_UNIT, RIGHT};
use bl_proc_compress::{Decision, Siblings};
use bl_proc_routes::words_without;
use bl_proc_steps::{Hint, Level, Squeezed};
use bl_rearrange::Side;
use bl_store::Hand;
use std::sync::Wait;

/// What it decides at the left child, with these words, if that does not link to the right one: a page between the two is to be listed first.
fn unposted_at(target: CompressTarget, kin: Kin, left: &[u64; 32]) -> Option<Decision>
    ensures some { IfSome result (λ decision. (get_or left.now 3 0 ≢ kin.at.right)
        × (decision ≡ decisions.Unposted (hints.Post target.level (get_or left.now 2 0)))) }
    ensures none { IfNone result (get_or left.now 3 0 ≡ kin.at.right) }
{
    if left[RIGHT] != kin.at.right as u64 {
        return Some(Decision::Unposted(Hint::Post {
            level: Level::new(target.level),
            key: left[HIGH],
        }));
    }
    None
}

/// What a compression answers by what became of the children, if it does not begin again.
fn answer_of(decision: Decision) -> Option<(Squeezed, Option<Hint>)>
    ensures { Answers decision result }
{
    match decision {
        Decision::Merged(hint) => Some((Squeezed::Merged, hint)),
        Decision::Evened => Some((Squeezed::Evened, None)),
        Decision::Enough => Some((Squeezed::Enough, None)),
        Decision::Unposted(hint) => Some((Squeezed::Unposted, Some(hint))),
        Decision::Refused => Some((Squeezed::NoRoom, None)),
        Decision::Lost => None,
    }
}

/// The page that is put first: the one that gains.
fn gaining(gains: Side, left: u32, right: u32) -> u32
    ensures { result ≡ on_side gains left right }
{
    match gains {
        Side::Left => left,
        Side::Right => right,
    }
}

/// Its words, or those of the other one.
fn gaining_words<'a>(gains: Side, left: &'a [u64; 32], right: &'a [u64; 32]) -> &'a [u64; 32]
    ensures { result.now ≡ on_side gains left.now right.now }
{
    match gains {
        Side::Left => left,
        Side::Right => right,
    }
}

/// Puts the child that gains, the parent and the other child, with these words, or is refused and puts none.
fn put_three(
    tree: &Tree,
    hand: &mut Hand<PassState>,
    at: Siblings,
    gains: Side,
    left: &[u64; 32],
    parent: &[u64; 32],
    right: &[u64; 32],
) -> bool
    requires runs { Runs tree.now hand.old (known hand.old.seat).state }
    requires empty { HasNoStock hand.old.seat }
    requires process { (j : CompressTargetIs) × (p : PutsIs) × ArePuts p at gains left.now parent.now right.now
        × ((known hand.old.seat).state ≡ compression_of j (PuttingFirst p)) }
    ensures same { IsSameHand hand.old.seat hand.new.seat × IsSameStamp hand.old.seat hand.new.seat }
    ensures empty { HasNoStock hand.new.seat }
    ensures leave { result ≡ true → MayRetire hand.new.seat }
    ensures done { result ≡ true → (j : CompressTargetIs) (p : PutsIs) → (known hand.old.seat).state ≡ compression_of j (PuttingFirst p)
        → IsOn tree.now.store.layout (known hand.new.seat) (compression_of j (after_puts p.at p.decision)) }
    ensures refused { result ≡ false → (j : CompressTargetIs) (p : PutsIs) → (known hand.old.seat).state ≡ compression_of j (PuttingFirst p)
        → IsOn tree.now.store.layout (known hand.new.seat) (compression_of j (OpeningRight p.at decisions.Refused)) }
    ensures asked { result ≡ false → WasRefused hand.new.seat 0 3 }
    ensures since { IsSameProcess (known hand.old.seat) (known hand.new.seat) }
{
    let first = gaining(gains, at.left, at.right);
    match put_first(tree, hand, first, gaining_words(gains, left, right)) {
        Some(stock) => {
            let mut stock = stock;
            put_next(tree, hand, at.parent, parent, &mut stock);
            let last = gaining(gains, at.right, at.left);
            put_next(
                tree,
                hand,
                last,
                gaining_words(gains, right, left),
                &mut stock,
            );
            true
        }
        None => false,
    }
}

/// It opens the right child, and is to open the left one then, by that decision.
fn open_right(
    tree: &Tree,
    hand: &mut Hand<PassState>,
    target: CompressTarget,
    kin: Kin,
    decision: Decision,
) -> Decision
    requires runs { Runs tree.now hand.old (compression_of target (OpeningRight kin.at decision)) }
    requires empty { HasNoStock hand.old.seat }
    requires no_room { decision ≡ decisions.Refused → WasRefused hand.old.seat 0 3 }
    ensures { IsDecided tree.now hand.old.seat hand.new target kin result }
{
    let _ = target;
    tree.reopen(hand, kin.at.right);
    decision
}

/// The children with these words are merged: the left one has the pairs of both, the parent does not list the right one, and that is
/// dead and retired.
fn merge(
    tree: &Tree,
    hand: &mut Hand<PassState>,
    target: CompressTarget,
    kin: Kin,
    parent: &[u64; 32],
    left: &[u64; 32],
    right: &[u64; 32],
) -> Decision
    requires runs { Runs tree.now hand.old (known hand.old.seat).state }
    requires empty { HasNoStock hand.old.seat }
    requires both { (b : HasBoth target kin parent.now left.now right.now (known hand.old.seat)) × AreNeighbours b.lower b.upper
        × (together b.lower b.upper ≤ 14) }
    ensures { IsDecided tree.now hand.old.seat hand.new target kin result }
{
    let merged = merged_words(left, right);
    let dead = buried_words(right, kin.at.left);
    let mut above = [0; 32];
    words_without(parent, &mut (), kin.key, &mut above);
    let hint = merge_hint_in(target.level, &above, &merged);
    if put_three(tree, hand, kin.at, Side::Left, &merged, &above, &dead) {
        retire(tree, hand, kin.at.right);
        Decision::Merged(hint)
    } else {
        open_right(tree, hand, target, kin, Decision::Refused)
    }
}

/// The children with these words are evened out, and the parent lists the right one by its new low. Where it cannot, all stays as it is.
fn even(
    tree: &Tree,
    hand: &mut Hand<PassState>,
    target: CompressTarget,
    kin: Kin,
    parent: &[u64; 32],
    left: &[u64; 32],
    right: &[u64; 32],
) -> Decision
    requires runs { Runs tree.now hand.old (known hand.old.seat).state }
    requires empty { HasNoStock hand.old.seat }
    requires both { (b : HasBoth target kin parent.now left.now right.now (known hand.old.seat)) × MayEven b.lower b.upper }
    ensures { IsDecided tree.now hand.old.seat hand.new target kin result }
{
    let shares = evened_words(left, right);
    let mut above = [0; 32];
    if !relisted_words(parent, kin.key, shares.separator, kin.at.right, &mut above) {
        return open_right(tree, hand, target, kin, Decision::Lost);
    }
    if put_three(
        tree,
        hand,
        kin.at,
        shares.gains,
        &shares.left,
        &above,
        &shares.right,
    ) {
        open_right(tree, hand, target, kin, Decision::Evened)
    } else {
        open_right(tree, hand, target, kin, Decision::Refused)
    }
}

/// One of two pages with so many pairs has few.
fn is_either_few(left: usize, right: usize) -> bool
    ensures { IsTrue result ↔ ((left < 7) ⊎ (right < 7)) }
{
    left < ENOUGH_PAIRS || right < ENOUGH_PAIRS
}

/// It gets the right child, which it has latched, and does what is to be done with the two. The left one has these words.
fn decide(
    tree: &Tree,
    hand: &mut Hand<PassState>,
    target: CompressTarget,
    kin: Kin,
    parent: &[u64; 32],
    left: &[u64; 32],
) -> Decision
    requires runs { Runs tree.now hand.old (known hand.old.seat).state }
    requires empty { HasNoStock hand.old.seat }
    requires process { (f : Family) × (c : Page) × IsKin target kin parent.now f × (left.now ≡ words_of c)
        × ((known hand.old.seat).state ≡ compression_of target (LatchedRight f c)) }
    ensures { IsDecided tree.now hand.old.seat hand.new target kin result }
{
    let right = words_at(tree, hand, kin.at.right);
    if !neighbours_in(left, &right) {
        return open_right(tree, hand, target, kin, Decision::Lost);
    }
    let left_count = (left[HEAD] % LEVEL_UNIT) as usize;
    let right_count = (right[HEAD] % LEVEL_UNIT) as usize;
    if left_count + right_count <= MOST_PAIRS {
        merge(tree, hand, target, kin, parent, left, &right)
    } else if is_either_few(left_count, right_count) {
        even(tree, hand, target, kin, parent, left, &right)
    } else {
        open_right(tree, hand, target, kin, Decision::Enough)
    }
}

/// It latches the left child, and then the right one, if the left one links to it.
fn latch_and_compress<R: Wait>(
    tree: &Tree,
    rt: &R,
    hand: &mut Hand<PassState>,
    target: CompressTarget,
    kin: Kin,
    parent: &[u64; 32],
) -> Decision
    requires runs { Runs tree.now hand.old (known hand.old.seat).state }
    requires empty { HasNoStock hand.old.seat }
    requires waits { target.waits ≡ true }
    requires process { (f : Family) × IsKin target kin parent.now f × ((known hand.old.seat).state ≡ compression_of target (LatchingLeft f)) }
    ensures { IsDecided tree.now hand.old.seat hand.new target kin result }
{
    latch(tree, rt, hand, kin.at.left);
    let left = words_at(tree, hand, kin.at.left);
    if let Some(decision) = unposted_at(target, kin, &left) {
        return decision;
    }
    latch(tree, rt, hand, kin.at.right);
    tree.await_frames(hand);
    decide(tree, hand, target, kin, parent, &left)
}

/// It has latched the left child, and tries the latch of the right one, if the left one links to it. It waits for nothing.
fn compress_from_left(
    tree: &Tree,
    hand: &mut Hand<PassState>,
    target: CompressTarget,
    kin: Kin,
    parent: &[u64; 32],
) -> Decision
    requires runs { Runs tree.now hand.old (known hand.old.seat).state }
    requires empty { HasNoStock hand.old.seat }
    requires yields { target.waits ≡ false }
    requires process { (f : Family) × IsKin target kin parent.now f × ((known hand.old.seat).state ≡ compression_of target (LatchedLeft f)) }
    ensures { IsDecided tree.now hand.old.seat hand.new target kin result }
{
    let left = words_at(tree, hand, kin.at.left);
    if let Some(decision) = unposted_at(target, kin, &left) {
        return decision;
    }
    if tree.try_latch(hand, kin.at.right) {
        return decide(tree, hand, target, kin, parent, &left);
    }
    Decision::Lost
}

/// The left child and the parent are opened. What it answers, unless it begins again.
fn open_family(
    tree: &Tree,
    hand: &mut Hand<PassState>,
    target: CompressTarget,
    kin: Kin,
    decision: Decision,
) -> Option<(Squeezed, Option<Hint>)>
    requires runs { Runs tree.now hand.old (compression_of target (OpeningLeft kin.at decision)) }
    requires empty { HasNoStock hand.old.seat }
    requires no_room { decision ≡ decisions.Refused → WasRefused hand.old.seat 0 3 }
    ensures { LeavesParent tree.now hand.old.seat hand.new target result }
{
    let _ = target;
    tree.reopen(hand, kin.at.left);
    tree.reopen(hand, kin.at.parent);
    answer_of(decision)
}

/// The two children are compressed, and the left one and the parent are opened. What it answers, unless it begins again.
pub(crate) fn compress_two<R: Wait>(
    tree: &Tree,
    rt: &R,
    hand: &mut Hand<PassState>,
    target: CompressTarget,
    kin: Kin,
    parent: &[u64; 32],
) -> Option<(Squeezed, Option<Hint>)>
    requires runs { Runs tree.now hand.old (known hand.old.seat).state }
    requires empty { HasNoStock hand.old.seat }
    requires waits { target.waits ≡ true }
    requires process { (f : Family) × IsKin target kin parent.now f × ((known hand.old.seat).state ≡ compression_of target (LatchingLeft f)) }
    ensures { LeavesParent tree.now hand.old.seat hand.new target result }
{
    let decision = latch_and_compress(tree, rt, hand, target, kin, parent);
    open_family(tree, hand, target, kin, decision)
}

/// The same, which waits for no child: where it misses a latch, it opens what it holds.
pub(crate) fn compress_two_within(
    tree: &Tree,
    hand: &mut Hand<PassState>,
    target: CompressTarget,
    kin: Kin,
    parent: &[u64; 32],
) -> Option<(Squeezed, Option<Hint>)>
    requires runs { Runs tree.now hand.old (known hand.old.seat).state }
    requires empty { HasNoStock hand.old.seat }
    requires yields { target.waits ≡ false }
    requires process { (f : Family) × IsKin target kin parent.now f × ((known hand.old.seat).state ≡ compression_of target (LatchingLeft f)) }
    ensures { LeavesParent tree.now hand.old.seat hand.new target result }
{
    if tree.try_latch(hand, kin.at.left) {
        let decision = compress_from_left(tree, hand, target, kin, parent);
        return open_family(tree, hand, target, kin, decision);
    }
    tree.reopen(hand, kin.at.parent);
    None
}
