//! Ranges: the rows between two keys as the map had them at one moment.

ghost use Rattle.std.specs.Prelude.{◌≡◌, ◌+◌, ◌<◌, ◌^◌, ℕ, All, List, [], MatchOption, length};
ghost use Rattle.bl_claims.specs.Seeing.{IsSeen};
ghost use Rattle.bl_proc.specs.declared.parts.Direction.TheVariants as direction;
ghost use Rattle.bl_store.specs.Hands.{known, IsIdle, IsSameHand, IsSameStock};
ghost use Rattle.bl_store.specs.Owners.{IsHandOf};
ghost use Rattle.bl_index_rule.specs.declared.known.PassState.{PassState as Knows};
ghost use Rattle.bl_index_events.specs.Runs.{Rests, Runs};
ghost use Rattle.bl_index_read.specs.declared.sought.Sought.{Sought as Seeks};
ghost use Rattle.bl_index_read.specs.declared.sought.Sought.TheVariants as sought;
ghost use Rattle.bl_index_read.specs.LeafRows.{IsBelow};
ghost use Rattle.bl_index_read.specs.LeafWays.{HasSetOff, IsAtLeaf};
ghost use Rattle.bl_index_range.specs.Gathering.{BeginsAgain, EndsRound, Gathers, GoesOnOrStops, GoesOrEnds, HasGathered, IsUnput, ReadsOrStops};

use bl_index_events::{FrameView, Tree};
use bl_index_read::{
    Appending, Behind, Sought, descend_to_page, end_at_leaf, fetch_behind, give_rows, portion_in,
    set_off, set_off_keeping,
};
use bl_index_rule::PassState;
use bl_proc::Direction;
use bl_proc_steps::Descent;
use bl_store::{Glance, Hand};

/// Why a range was not answered.
#[derive(Clone, Copy, Debug, PartialEq, Eq)]
pub enum RangeFault {
    /// There was no room for its rows, or for what it keeps of its leaves.
    Memory,
    /// A part of it got as many pages as it was allowed.
    OutOfTurns,
    /// Its leaves were put by others meanwhile, and it had begun again as often as it was allowed.
    Unsteady,
}

/// How long a range may take: so many pages for each of its parts, and so often it may begin again.
#[derive(Clone, Copy, Debug, PartialEq, Eq)]
pub struct RangeLimits {
    pub turns: u32,
    pub rounds: u32,
}

/// A leaf that a range has read.
#[derive(Clone, Copy)]
pub struct Kept {
    page: u32,
    glance: Glance,
    // Where its part begins, and how many rows there were before it.
    from: u64,
    rows: usize,
}

/// A leaf at which a range has come, and how it goes on behind that.
#[derive(Clone, Copy)]
struct AtLeaf {
    look: Kept,
    behind: Behind,
}

/// A range under way.
#[derive(Drop)]
pub struct Gathering {
    /// How often it has begun again.
    pub round: u32,
    /// Where its next part begins, and the way of that.
    pub at: u64,
    pub way: Descent,
    /// The leaves up to there, and their rows, behind those that there were.
    pub kept: Vec<Kept>,
    pub rows: Vec<(u64, u64)>,
}

/// Reads the leaf of a part that has set off, and appends its rows below the end.
#[inline(always)]
fn read_leaf(
    tree: &Tree,
    hand: &mut Hand<PassState>,
    at: u64,
    way: Descent,
    to: Option<u64>,
    turns: u32,
    rows: &mut Vec<(u64, u64)>,
) -> Result<AtLeaf, RangeFault>
    requires off { (old : Knows) × (pass : ℕ) × HasSetOff tree.now hand.old pass (sought.Rows direction.Up) at way old }
    requires below { IsBelow to at }
    ensures same { IsSameHand hand.old.seat hand.new.seat × IsSameStock hand.old.seat hand.new.seat }
    ensures reads { (old : Knows) → HasSetOff tree.now hand.old hand.old.number (sought.Rows direction.Up) at way old
        → ReadsOrStops tree.now hand.old hand.new hand.old.number at to turns rows.old.items rows.new.items old result }
{
    let Some((page, glance)) = descend_to_page(
        tree,
        hand,
        Sought::Rows(Direction::Up),
        at,
        way,
        turns,
    ) else {
        return Err(RangeFault::OutOfTurns);
    };
    let shown = FrameView {
        store: &tree.store,
        glance,
    };
    let portion = portion_in(&shown, hand, at, to);
    fetch_behind(tree, portion.behind);
    let look = Kept {
        page,
        glance,
        from: at,
        rows: rows.len(),
    };
    match give_rows::<_, _, Appending>(
        &shown,
        hand,
        Direction::Up,
        portion.first,
        portion.last,
        rows,
    ) {
        Ok(()) => Ok(AtLeaf {
            look,
            behind: portion.behind,
        }),
        Err(_) => {
            end_at_leaf(tree, hand);
            Err(RangeFault::Memory)
        }
    }
}

/// The first of these leaves that may have been put since it was read; or none was.
#[inline(always)]
fn first_put(tree: &Tree, hand: &mut Hand<PassState>, kept: &[Kept]) -> Option<usize>
    requires runs { Runs tree.now hand.old (known hand.old.seat).state }
    requires near { All (λ look. look.page < tree.now.store.layout.pages) kept.now }
    ensures same { hand.new ≡ hand.old }
    ensures put { MatchOption result (All (IsUnput hand.old.seat) kept.now) (λ place. place < length kept.now) }
{
    for place in 0..kept.len() {
        let look = kept[place];
        if !tree.is_unput(hand, look.page, look.glance) {
            return Some(place);
        }
    }
    None
}

/// The part ends, and the range goes on behind its leaf, which it keeps: it is not over.
#[inline(always)]
fn go_on_behind(
    tree: &Tree,
    hand: &mut Hand<PassState>,
    gathering: &mut Gathering,
    look: Kept,
    next: u64,
    link: u32,
) -> Result<bool, RangeFault>
    requires runs { Runs tree.now hand.old (known hand.old.seat).state }
    requires leaf { (kind : Seeks) × (at : ℕ) × (words : List ℕ) × IsAtLeaf kind at words (known hand.old.seat) }
    ensures same { IsSameHand hand.old.seat hand.new.seat × IsSameStock hand.old.seat hand.new.seat }
    ensures goes { GoesOnOrStops tree.now hand.old hand.new look next gathering.old gathering.new result }
{
    if gathering.kept.push(look).is_err() {
        end_at_leaf(tree, hand);
        return Err(RangeFault::Memory);
    }
    gathering.at = next;
    gathering.way = set_off_keeping(tree, hand, Sought::Rows(Direction::Up), next, link);
    Ok(true)
}

/// The part ends, and the range begins again from the leaf at that place, with the rows of those before it.
fn begin_again(tree: &Tree, hand: &mut Hand<PassState>, gathering: &mut Gathering, place: usize)
    requires runs { Runs tree.now hand.old (known hand.old.seat).state }
    requires leaf { (kind : Seeks) × (at : ℕ) × (words : List ℕ) × IsAtLeaf kind at words (known hand.old.seat) }
    requires place { place < length gathering.old.kept.items }
    requires round { gathering.old.round + 1 < 2 ^ 32 }
    ensures same { IsSameHand hand.old.seat hand.new.seat × IsSameStock hand.old.seat hand.new.seat }
    ensures again { BeginsAgain tree.now hand.old hand.new gathering.old gathering.new }
{
    let look = gathering.kept[place];
    gathering.kept.truncate(place);
    gathering.rows.truncate(look.rows);
    gathering.round += 1;
    gathering.at = look.from;
    gathering.way = set_off_keeping(
        tree,
        hand,
        Sought::Rows(Direction::Up),
        look.from,
        look.page,
    );
}

/// The last part ends. Where a leaf was put since it was read, the range begins again from there, and is not over.
#[inline(always)]
fn end_round(
    tree: &Tree,
    hand: &mut Hand<PassState>,
    gathering: &mut Gathering,
    rounds: u32,
) -> Result<bool, RangeFault>
    requires runs { Runs tree.now hand.old (known hand.old.seat).state }
    requires leaf { (kind : Seeks) × (at : ℕ) × (words : List ℕ) × IsAtLeaf kind at words (known hand.old.seat) }
    requires near { All (λ look. look.page < tree.now.store.layout.pages) gathering.old.kept.items }
    ensures same { IsSameHand hand.old.seat hand.new.seat × IsSameStock hand.old.seat hand.new.seat }
    ensures ends { EndsRound tree.now hand.old hand.new rounds gathering.old gathering.new result }
{
    let Some(place) = first_put(tree, hand, gathering.kept.as_slice()) else {
        end_at_leaf(tree, hand);
        return Ok(false);
    };
    if rounds <= gathering.round {
        end_at_leaf(tree, hand);
        return Err(RangeFault::Unsteady);
    }
    begin_again(tree, hand, gathering, place);
    Ok(true)
}

/// Reads a part more, and says whether the range goes on.
#[inline(always)]
fn gather_part(
    tree: &Tree,
    hand: &mut Hand<PassState>,
    to: Option<u64>,
    limits: RangeLimits,
    gathering: &mut Gathering,
) -> Result<bool, RangeFault>
    requires gathers { (from : ℕ) × (before : List (ℕ × ℕ)) × (old : Knows)
        × Gathers tree.now hand.old hand.old.number limits from to before old gathering.old }
    ensures same { IsSameHand hand.old.seat hand.new.seat × IsSameStock hand.old.seat hand.new.seat }
    ensures goes { (from : ℕ) (before : List (ℕ × ℕ)) (old : Knows) → Gathers tree.now hand.old hand.old.number limits from to before old gathering.old
        → GoesOrEnds tree.now hand.new hand.old.number limits from to before old gathering.old gathering.new result }
{
    let (at, way) = (gathering.at, gathering.way);
    match read_leaf(tree, hand, at, way, to, limits.turns, &mut gathering.rows) {
        Ok(leaf) => match leaf.behind {
            Behind::Part(next, link) => {
                go_on_behind(tree, hand, gathering, leaf.look, next, link)
            }
            Behind::Nothing => end_round(tree, hand, gathering, limits.rounds),
        },
        Err(fault) => Err(fault),
    }
}

/// Reads the parts of a range that is to begin, one after another, until it is over: then its rows are those that the map had at one moment
/// of the call, behind those that there were. A fault leaves those, with some rows or none behind them.
#[inline(always)]
pub fn gather(
    tree: &Tree,
    hand: &mut Hand<PassState>,
    to: Option<u64>,
    limits: RangeLimits,
    gathering: &mut Gathering,
) -> Result<(), RangeFault>
    requires own { IsHandOf tree.now.store hand.old }
    requires idle { IsIdle hand.old.seat }
    requires below { IsBelow to gathering.old.at }
    requires begins { (gathering.old.round ≡ 0) × (gathering.old.kept.items ≡ []) }
    ensures same { IsSameHand hand.old.seat hand.new.seat × IsSameStock hand.old.seat hand.new.seat }
    ensures rests { Rests hand.new.seat }
    ensures first { (known hand.new.seat).first ≡ (known hand.old.seat).first }
    ensures seen { IsSeen (known hand.new.seat).first (known hand.new.seat).trail }
    ensures gathered { HasGathered (known hand.old.seat).first tree.now.store.layout.pages hand.old.number limits gathering.old.at to
        gathering.old.rows.items gathering.new result (known hand.old.seat).trail (known hand.new.seat).trail }
{
    gathering.way = set_off(tree, hand, Sought::Rows(Direction::Up), gathering.at, None);
    let mut goes_on = true;
    while goes_on {
        match gather_part(tree, hand, to, limits, gathering) {
            Ok(on) => goes_on = on,
            Err(fault) => return Err(fault),
        }
    }
    Ok(())
}
