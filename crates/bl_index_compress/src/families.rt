//! A compression at its parent.

ghost use Rattle.std.specs.Prelude.{◌≡◌, ◌<◌, ◌≤◌, length, Some, None, IfSome, IfNone, true, false};
ghost use Rattle.bl_page.specs.declared.page.Inner.{Inner as InnerIs};
ghost use Rattle.bl_page.specs.declared.page.Page.TheVariants.{Inner};
ghost use Rattle.bl_page.specs.Pairs.{IsWithin};
ghost use Rattle.bl_page.specs.Words.{words_of};
ghost use Rattle.bl_proc_steps.specs.declared.approach.Approach.TheVariants.{Latched};
ghost use Rattle.bl_rearrange.specs.declared.families.Family.{Family};
ghost use Rattle.bl_answers.specs.declared.answers.Squeezed.TheVariants as squeezed;
ghost use Rattle.bl_proc_compress.specs.declared.compression.Compression.TheVariants.{LatchingLeft};
ghost use Rattle.bl_proc_compress.specs.declared.compress.CompressStage.TheVariants.{Coming};
ghost use Rattle.bl_proc_compress.specs.Compressions.{IsFamily, right_place};
ghost use Rattle.bl_store.specs.Hands.{known, read_words, HasNoStock, ReadsFrom};
ghost use Rattle.bl_index_events.specs.Runs.{Runs};
ghost use Rattle.bl_index_descend.specs.Events.{IsThere};
ghost use Rattle.bl_index_compress.specs.CompressStands.{compress_of, compression_of, IsKin, LeavesParent};

use crate::children::{compress_two, compress_two_within};
use crate::targets::{CompressTarget, Kin};
use bl_index_events::{FrameView, Tree};
use bl_index_rule::PassState;
use bl_page::{FIRST_KEY, FIRST_WORD, HEAD, LEVEL_UNIT, WORD_BEFORE, place_in, words_from};
use bl_proc_compress::Siblings;
use bl_proc_steps::{Hint, Squeezed};
use bl_store::{Glance, Hand};
use std::sync::Wait;

/// The place of the right one of the two children to compress: behind the child for the key, or that child's own where it is the last.
fn right_place_in(parent: &[u64; 32], key: u64) -> usize
    requires { (i : InnerIs) × (parent.now ≡ words_of (Inner i)) × IsWithin i.low i.high key × (2 ≤ length i.children.items) }
    ensures place { (i : InnerIs) → parent.now ≡ words_of (Inner i) → result ≡ right_place key i.children.items }
    ensures some { 0 < result }
    ensures most { result < 14 }
{
    let count = (parent[HEAD] % LEVEL_UNIT) as usize;
    let place = place_in(parent, &mut (), &mut 0, count, key);
    if place < count { place } else { place - 1 }
}

/// The numbers of the parent with these words and of the two children, and the key by which it lists the right one.
fn siblings_in(parent: &[u64; 32], at: u32, key: u64) -> Kin
    requires { (i : InnerIs) × (parent.now ≡ words_of (Inner i)) × IsWithin i.low i.high key × (2 ≤ length i.children.items) }
    ensures { (i : InnerIs) (f : Family) → parent.now ≡ words_of (Inner i) → IsFamily at key i f → (f.at ≡ result.at) × (f.key ≡ result.key) }
{
    let place = right_place_in(parent, key);
    let siblings = Siblings {
        parent: at,
        left: parent[WORD_BEFORE + 2 * place] as u32,
        right: parent[FIRST_WORD + 2 * place] as u32,
    };
    Kin {
        at: siblings,
        key: parent[FIRST_KEY + 2 * place],
    }
}

/// At the parent that it holds, which covers the key. Notes the parent's words. Gives the two children to compress. None: the parent has one
/// child, and has been opened.
fn meet_family(
    tree: &Tree,
    hand: &mut Hand<PassState>,
    target: CompressTarget,
    at: u32,
    glance: Glance,
    parent: &mut [u64; 32],
) -> Option<Kin>
    requires runs { Runs tree.now hand.old (known hand.old.seat).state }
    requires empty { HasNoStock hand.old.seat }
    requires reads { ReadsFrom hand.old.seat glance }
    requires there { IsThere target.level target.key (compress_of target (Coming (Latched at))) (read_words hand.old.seat) (known hand.old.seat) }
    ensures alone { IfNone result (LeavesParent tree.now hand.old.seat hand.new target (Some (squeezed.Alone, None))) }
    ensures met { IfSome result (λ kin. (hand.new ≡ hand.old) × ((f : Family) × IsKin target kin parent.new f
        × ((known hand.old.seat).state ≡ compression_of target (LatchingLeft f)))) }
{
    let shown = FrameView {
        store: &tree.store,
        glance,
    };
    *parent = words_from(&shown, hand);
    if parent[HEAD] % LEVEL_UNIT < 2 {
        tree.reopen(hand, at);
        return None;
    }
    Some(siblings_in(parent, at, target.key))
}

/// At the parent that it holds, which covers the key.
pub(crate) fn compress_there<R: Wait>(
    tree: &Tree,
    rt: &R,
    hand: &mut Hand<PassState>,
    target: CompressTarget,
    at: u32,
    glance: Glance,
) -> Option<(Squeezed, Option<Hint>)>
    requires runs { Runs tree.now hand.old (known hand.old.seat).state }
    requires empty { HasNoStock hand.old.seat }
    requires waits { target.waits ≡ true }
    requires reads { ReadsFrom hand.old.seat glance }
    requires there { IsThere target.level target.key (compress_of target (Coming (Latched at))) (read_words hand.old.seat) (known hand.old.seat) }
    ensures { LeavesParent tree.now hand.old.seat hand.new target result }
{
    let mut parent = [0; 32];
    match meet_family(tree, hand, target, at, glance, &mut parent) {
        Some(kin) => compress_two(tree, rt, hand, target, kin, &parent),
        None => Some((Squeezed::Alone, None)),
    }
}

/// The same, which waits for no child.
pub(crate) fn compress_there_within(
    tree: &Tree,
    hand: &mut Hand<PassState>,
    target: CompressTarget,
    at: u32,
    glance: Glance,
) -> Option<(Squeezed, Option<Hint>)>
    requires runs { Runs tree.now hand.old (known hand.old.seat).state }
    requires empty { HasNoStock hand.old.seat }
    requires yields { target.waits ≡ false }
    requires reads { ReadsFrom hand.old.seat glance }
    requires there { IsThere target.level target.key (compress_of target (Coming (Latched at))) (read_words hand.old.seat) (known hand.old.seat) }
    ensures { LeavesParent tree.now hand.old.seat hand.new target result }
{
    let mut parent = [0; 32];
    match meet_family(tree, hand, target, at, glance, &mut parent) {
        Some(kin) => compress_two_within(tree, hand, target, kin, &parent),
        None => Some((Squeezed::Alone, None)),
    }
}
