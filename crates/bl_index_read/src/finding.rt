//! Searches: the value of a key is read from its leaf's words.

ghost use Rattle.std.specs.Prelude.{◌≡◌, ◌<◌, ◌≤◌, ℕ, length};
ghost use Rattle.bl_model.specs.declared.operation.Op.TheVariants as op;
ghost use Rattle.bl_proc_invariant.specs.Knowing.{found_reply};
ghost use Rattle.bl_store.specs.Hands.{known, IsIdle, IsSameHand, IsSameStock};
ghost use Rattle.bl_store.specs.Owners.{IsHandOf};
ghost use Rattle.bl_claims.specs.Seeing.{IsSeen};
ghost use Rattle.bl_index_rule.specs.declared.known.PassState.{PassState as Knows};
ghost use Rattle.bl_index_events.specs.Runs.{Rests};
ghost use Rattle.bl_model.specs.Replies.{reply_of};
ghost use Rattle.bl_index_read.specs.Searching.{AnswersOrRunsOut, found_of};
ghost use Rattle.bl_index_read.specs.declared.sought.Sought.TheVariants as sought;
ghost use Rattle.bl_index_read.specs.LeafWays.{HasSetOff};
ghost use Rattle.bl_index_read.specs.Together.{GoesToNext, FindsUpTo};

use crate::leaf_ways::{descend_to_leaf, end_at_leaf, set_off, set_off_behind};
use crate::sought::Sought;
use bl_index_events::{FrameView, Tree};
use bl_index_rule::PassState;
use bl_model::KeyReply;
use bl_proc_routes::row_in;
use bl_proc_steps::Descent;
use bl_store::Hand;

/// A search or a part has got as many pages as it was allowed, and has answered nothing.
#[derive(Clone, Copy, Debug, PartialEq, Eq)]
pub struct OutOfTurns;

/// What a search answers.
#[inline(always)]
fn found(value: Option<u64>) -> KeyReply
    ensures { reply_of result ≡ found_reply value }
{
    match value {
        Some(value) => KeyReply::Found(value),
        None => KeyReply::Absent,
    }
}

/// A search that has set off gets so many pages at most, and ends: it is answered, or has got so many.
#[inline(always)]
pub fn find_from(
    tree: &Tree,
    hand: &mut Hand<PassState>,
    key: u64,
    way: Descent,
    turns: u32,
) -> Result<KeyReply, OutOfTurns>
    requires off { (old : Knows) × (pass : ℕ) × HasSetOff tree.now hand.old pass sought.Value key way old }
    ensures same { IsSameHand hand.old.seat hand.new.seat × IsSameStock hand.old.seat hand.new.seat }
    ensures rests { Rests hand.new.seat }
    ensures seen { IsSeen (known hand.new.seat).first (known hand.new.seat).trail }
    ensures answers { (old : Knows) (pass : ℕ) → HasSetOff tree.now hand.old pass sought.Value key way old → ((known hand.new.seat).first ≡ old.first)
        × AnswersOrRunsOut old.first tree.now.store.layout.pages pass turns (op.Find key) (found_of result) old.trail (known hand.new.seat).trail }
{
    let Some(glance) = descend_to_leaf(tree, hand, Sought::Value, key, way, turns) else {
        return Err(OutOfTurns);
    };
    let shown = FrameView {
        store: &tree.store,
        glance,
    };
    let value = row_in(&shown, hand, &mut 0, key);
    end_at_leaf(tree, hand);
    Ok(found(value))
}

/// Carries a search out, from its begin to its end: it is answered, or has got so many pages. With a page in mind it looks at that one
/// first.
#[inline(always)]
pub fn find_key(
    tree: &Tree,
    hand: &mut Hand<PassState>,
    key: u64,
    near: Option<u32>,
    turns: u32,
) -> Result<KeyReply, OutOfTurns>
    requires own { IsHandOf tree.now.store hand.old }
    requires idle { IsIdle hand.old.seat }
    ensures same { IsSameHand hand.old.seat hand.new.seat × IsSameStock hand.old.seat hand.new.seat }
    ensures rests { Rests hand.new.seat }
    ensures first { (known hand.new.seat).first ≡ (known hand.old.seat).first }
    ensures seen { IsSeen (known hand.new.seat).first (known hand.new.seat).trail }
    ensures answers { AnswersOrRunsOut (known hand.old.seat).first tree.now.store.layout.pages hand.old.number turns (op.Find key) (found_of result)
        (known hand.old.seat).trail (known hand.new.seat).trail }
{
    let way = set_off(tree, hand, Sought::Value, key, near);
    find_from(tree, hand, key, way, turns)
}

/// A search that has set off gets so many pages at most. Where it is answered it ends, and at the same event the search for the next key sets
/// off, which looks first at the page that is near. Else it ends alone.
#[inline(always)]
fn find_before(
    tree: &Tree,
    hand: &mut Hand<PassState>,
    key: u64,
    way: Descent,
    turns: u32,
    next: u64,
    near: u32,
) -> Result<(KeyReply, Descent), OutOfTurns>
    requires off { (old : Knows) × (pass : ℕ) × HasSetOff tree.now hand.old pass sought.Value key way old }
    ensures same { IsSameHand hand.old.seat hand.new.seat × IsSameStock hand.old.seat hand.new.seat }
    ensures goes { (old : Knows) → HasSetOff tree.now hand.old hand.old.number sought.Value key way old
        → GoesToNext tree.now hand.new hand.old.number turns key next old result }
{
    match descend_to_leaf(tree, hand, Sought::Value, key, way, turns) {
        Some(glance) => {
            let leaf = FrameView {
                store: &tree.store,
                glance,
            };
            let row = row_in(&leaf, hand, &mut 0, key);
            let on = set_off_behind(tree, hand, Sought::Value, next, near);
            Ok((found(row), on))
        }
        None => Err(OutOfTurns),
    }
}

/// Carries searches for keys out, one after another, each of which gets so many pages at most and looks first at the page that is near. The end
/// of one and the begin of the next one are one event. Says how many were answered: where they are not all, the next one has got so many
/// pages, and those behind it have not begun.
pub fn find_keys(
    tree: &Tree,
    hand: &mut Hand<PassState>,
    keys: &[u64],
    near: &[u32],
    turns: u32,
    replies: &mut [KeyReply],
) -> usize
    requires own { IsHandOf tree.now.store hand.old }
    requires idle { IsIdle hand.old.seat }
    requires some { 0 < length keys.now }
    requires near { length keys.now ≤ length near.now }
    requires room { length replies.old ≡ length keys.now }
    ensures same { IsSameHand hand.old.seat hand.new.seat × IsSameStock hand.old.seat hand.new.seat }
    ensures rests { Rests hand.new.seat }
    ensures first { (known hand.new.seat).first ≡ (known hand.old.seat).first }
    ensures seen { IsSeen (known hand.new.seat).first (known hand.new.seat).trail }
    ensures long { length replies.new ≡ length keys.now }
    ensures finds { FindsUpTo (known hand.old.seat).first tree.now.store.layout.pages hand.old.number turns keys.now replies.new result
        (known hand.old.seat).trail (known hand.new.seat).trail }
{
    let last = keys.len() - 1;
    let mut way = set_off(tree, hand, Sought::Value, keys[0], Some(near[0]));
    for i in 0..last {
        let (next, there) = (keys[i + 1], near[i + 1]);
        match find_before(tree, hand, keys[i], way, turns, next, there) {
            Ok((reply, on)) => {
                replies[i] = reply;
                way = on;
            }
            Err(_) => return i,
        }
    }
    match find_from(tree, hand, keys[last], way, turns) {
        Ok(reply) => {
            replies[last] = reply;
            keys.len()
        }
        Err(_) => last,
    }
}
