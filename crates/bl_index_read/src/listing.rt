//! Parts of the map: their rows are read from their leaves' words.

ghost use Rattle.std.specs.Prelude.{◌≡◌, ℕ, List};
ghost use Rattle.bl_proc.specs.Parts.{op_toward};
ghost use Rattle.bl_store.specs.Hands.{known, IsIdle, IsSameHand, IsSameStock};
ghost use Rattle.bl_store.specs.Owners.{IsHandOf};
ghost use Rattle.bl_claims.specs.Seeing.{IsSeen};
ghost use Rattle.bl_index_rule.specs.declared.known.PassState.{PassState as Knows};
ghost use Rattle.bl_index_rule.specs.Observed.{ends};
ghost use Rattle.bl_index_events.specs.Runs.{Runs, Rests};
ghost use Rattle.bl_index_read.specs.Searching.{AnswersOrRunsOut};
ghost use Rattle.bl_index_read.specs.declared.sought.Sought.{Sought as Seeks};
ghost use Rattle.bl_index_read.specs.LeafWays.{IsAtLeaf};
ghost use Rattle.bl_index_read.specs.Parts.{StandsBehind};

use crate::finding::OutOfTurns;
use crate::leaf_rows::{Behind, near_in, part_in};
use crate::leaf_ways::{descend_to_leaf, end_at_leaf, set_off, set_off_behind};
use crate::sought::Sought;
use bl_index_events::{FrameView, Tree};
use bl_index_rule::PassState;
use bl_model::Reply;
use bl_proc::Direction;
use bl_proc_steps::Descent;
use bl_store::Hand;

/// Carries a part out in that direction, from its begin to its end: it is answered, or has got so many pages. With a page in mind it looks
/// at that one first; it leaves there the page of the part behind its leaf, which upwards the leaf links to, and downwards none.
pub fn list_part(
    tree: &Tree,
    hand: &mut Hand<PassState>,
    direction: Direction,
    from: u64,
    near: &mut Option<u32>,
    turns: u32,
) -> Result<Reply, OutOfTurns>
    requires own { IsHandOf tree.now.store hand.old }
    requires idle { IsIdle hand.old.seat }
    ensures same { IsSameHand hand.old.seat hand.new.seat × IsSameStock hand.old.seat hand.new.seat }
    ensures rests { Rests hand.new.seat }
    ensures first { (known hand.new.seat).first ≡ (known hand.old.seat).first }
    ensures seen { IsSeen (known hand.new.seat).first (known hand.new.seat).trail }
    ensures answers { AnswersOrRunsOut (known hand.old.seat).first tree.now.store.layout.pages hand.old.number turns (op_toward direction from) result
        (known hand.old.seat).trail (known hand.new.seat).trail }
{
    let way = set_off(tree, hand, Sought::Rows(direction), from, *near);
    let Some(glance) = descend_to_leaf(tree, hand, Sought::Rows(direction), from, way, turns) else {
        return Err(OutOfTurns);
    };
    let shown = FrameView {
        store: &tree.store,
        glance,
    };
    let part = part_in(&shown, hand, direction, from);
    *near = near_in(&shown, hand, direction);
    end_at_leaf(tree, hand);
    Ok(Reply::Rows(part.rows, part.next))
}

/// The part, which has its leaf, ends, and behind the leaf the next one sets off in that direction, if the scan goes on: that is one event.
#[inline(always)]
pub fn go_behind(
    tree: &Tree,
    hand: &mut Hand<PassState>,
    direction: Direction,
    behind: Behind,
) -> Descent
    requires runs { Runs tree.now hand.old (known hand.old.seat).state }
    requires leaf { (kind : Seeks) × (at : ℕ) × (words : List ℕ) × IsAtLeaf kind at words (known hand.old.seat) }
    ensures same { IsSameHand hand.old.seat hand.new.seat × IsSameStock hand.old.seat hand.new.seat }
    ensures stands { (between : Knows) × ends (known hand.old.seat) 0 between
        × StandsBehind tree.now hand.new hand.old.number direction behind result between }
{
    match behind {
        Behind::Part(next, near) => {
            set_off_behind(tree, hand, Sought::Rows(direction), next, near)
        }
        Behind::Nothing => {
            end_at_leaf(tree, hand);
            Descent::AtAnchor
        }
    }
}

/// Fetches the page at which the part behind a leaf looks first, where the scan goes on there.
#[inline(always)]
pub fn fetch_behind(tree: &Tree, behind: Behind) {
    if let Behind::Part(_, near) = behind {
        tree.store.fetch(near);
    }
}
