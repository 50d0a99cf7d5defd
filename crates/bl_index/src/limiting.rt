//! Scans that list so many rows at most, upwards or downwards: parts, of which the last one may have more rows than are wanted.

ghost use Rattle.std.specs.Prelude.{◌≡◌, ℕ, ◌-◌, ◌<◌, vec_len};
ghost use Rattle.std.specs.Vec.{vec_capacity};
ghost use Rattle.bl_store.specs.Hands.{known, IsIdle, IsSameHand, IsSameStock};
ghost use Rattle.bl_store.specs.Owners.{IsHandOf};
ghost use Rattle.bl_claims.specs.Seeing.{IsSeen};
ghost use Rattle.bl_index_rule.specs.declared.known.PassState.{PassState as Knows};
ghost use Rattle.bl_index_events.specs.Runs.{Rests};
ghost use Rattle.bl_index_read.specs.declared.sought.Sought.TheVariants as sought;
ghost use Rattle.bl_index_read.specs.LeafWays.{HasSetOff};
ghost use Rattle.bl_index_read.specs.LeafRows.{IsBefore};
ghost use Rattle.bl_index.specs.Limits.{ScansSome};
ghost use Rattle.bl_index.specs.Within.{stand_of, GivesSome, LeavesSome, GoesSomeOrStops};

use crate::index::{Index, Pass};
use crate::scanning::{ScanFault, Wanted, is_before};
use bl_index_events::{FrameView, Tree};
use bl_index_read::{
    Appending, Behind, Sought, descend_to_leaf, end_at_leaf, fetch_behind, first_rows, give_rows,
    go_behind, portion_toward, set_off,
};
use bl_index_rule::PassState;
use bl_proc::Direction;
use bl_proc_steps::Descent;
use bl_store::Hand;
use std::mem;

/// How much a scan may list and do.
#[derive(Clone, Copy)]
pub struct ScanLimits {
    /// It lists so many rows at most.
    pub most: usize,
    /// How many pages each part may get.
    pub turns: u32,
}

impl Index {
    ghost use Rattle.bl_index.specs.Calls.{first_of, IsPassOf, IsSamePass, pages_of, number_of, trail};

    /// Appends the first rows from a key on that lie before an end, if there is one, until there are so many. Says where the next rows
    /// begin, or `None` where the scan is over. It makes the parts of [`Index::scan_toward`], and none once there are enough rows. A fault
    /// leaves the rows before its own key, and nothing of the part from there on.
    pub fn scan_some(
        &self,
        pass: &mut Pass,
        direction: Direction,
        from: u64,
        to: Option<u64>,
        limits: ScanLimits,
        rows: &mut Vec<(u64, u64)>,
    ) -> Result<Option<u64>, ScanFault>
        requires { IsPassOf self.now pass.old }
        ensures same { IsSamePass pass.old pass.new }
        ensures scans { ScansSome (first_of self.now) (pages_of self.now) (number_of pass.old) limits.turns direction from to limits.most
            (vec_capacity rows.new - vec_len rows.new) result rows.old.items rows.new.items (trail pass.old) (trail pass.new) }
    {
        if !is_before(direction, to, from) {
            return Ok(None);
        }
        if limits.most == 0 {
            return Ok(Some(from));
        }
        // As in `scan_toward`: behind the reference its fields would be read again after each word of a leaf.
        let none = Vec::new(*rows.allocator());
        let mut all = mem::replace(rows, none);
        let wanted = Wanted {
            direction,
            to,
            turns: limits.turns,
        };
        let scanned = self.some(pass, from, wanted, limits.most, &mut all);
        *rows = all;
        scanned
    }

    /// Appends the rows that are wanted from a key on, which comes before their end, so many at most.
    #[inline(always)]
    fn some(
        &self,
        pass: &mut Pass,
        from: u64,
        wanted: Wanted,
        most: usize,
        rows: &mut Vec<(u64, u64)>,
    ) -> Result<Option<u64>, ScanFault>
        requires own { IsPassOf self.now pass.old }
        requires before { IsBefore wanted.direction wanted.to from }
        requires any { 0 < most }
        ensures same { IsSamePass pass.old pass.new }
        ensures scans { ScansSome (first_of self.now) (pages_of self.now) (number_of pass.old) wanted.turns wanted.direction from wanted.to most
            (vec_capacity rows.new - vec_len rows.new) result rows.old.items rows.new.items (trail pass.old) (trail pass.new) }
    {
        give_some(&self.tree, &mut pass.hand, from, wanted, most, rows)
    }
}

/// The parts of a scan, one after another, until there are so many rows: behind each before that, the next one has set off.
#[inline(always)]
fn give_some(
    tree: &Tree,
    hand: &mut Hand<PassState>,
    from: u64,
    wanted: Wanted,
    most: usize,
    rows: &mut Vec<(u64, u64)>,
) -> Result<Option<u64>, ScanFault>
    requires own { IsHandOf tree.now.store hand.old }
    requires idle { IsIdle hand.old.seat }
    requires before { IsBefore wanted.direction wanted.to from }
    requires any { 0 < most }
    ensures same { IsSameHand hand.old.seat hand.new.seat × IsSameStock hand.old.seat hand.new.seat }
    ensures rests { Rests hand.new.seat }
    ensures first { (known hand.new.seat).first ≡ (known hand.old.seat).first }
    ensures seen { IsSeen (known hand.new.seat).first (known hand.new.seat).trail }
    ensures scans { ScansSome (known hand.old.seat).first tree.now.store.layout.pages hand.old.number wanted.turns wanted.direction from wanted.to most
        (vec_capacity rows.new - vec_len rows.new) result rows.old.items rows.new.items (known hand.old.seat).trail (known hand.new.seat).trail }
{
    let before = rows.len();
    let mut way = set_off(tree, hand, Sought::Rows(wanted.direction), from, None);
    let mut behind = Behind::Part(from, 0);
    let mut next = None;
    while let Behind::Part(at, _) = behind {
        let left = most - (rows.len() - before);
        match give_some_of(tree, hand, at, way, wanted, left, rows) {
            Ok((on, stop, going)) => {
                behind = on;
                next = stop;
                way = going;
            }
            Err(fault) => return Err(fault),
        }
    }
    Ok(next)
}

/// How a scan goes on behind a part, or ends there: where more rows are wanted than the part has, as its leaf says; else at the first row
/// that is left, or behind the part.
fn stand_behind(behind: Behind, goes_on: bool, left: Option<u64>) -> (Behind, Option<u64>)
    ensures { result ≡ stand_of behind goes_on left }
{
    if goes_on {
        return (behind, None);
    }
    match left {
        Some(_) => (Behind::Nothing, left),
        None => match behind {
            Behind::Part(key, _) => (Behind::Nothing, Some(key)),
            Behind::Nothing => (Behind::Nothing, None),
        },
    }
}

/// Appends the wanted rows of one part, which has set off, so many at most, and says how the scan goes on; where it does not, also where the
/// next one begins.
#[inline(always)]
fn give_some_of(
    tree: &Tree,
    hand: &mut Hand<PassState>,
    from: u64,
    way: Descent,
    wanted: Wanted,
    most: usize,
    rows: &mut Vec<(u64, u64)>,
) -> Result<(Behind, Option<u64>, Descent), ScanFault>
    requires off { (old : Knows) × (pass : ℕ) × HasSetOff tree.now hand.old pass (sought.Rows wanted.direction) from way old }
    requires before { IsBefore wanted.direction wanted.to from }
    ensures same { IsSameHand hand.old.seat hand.new.seat × IsSameStock hand.old.seat hand.new.seat }
    ensures gives { (old : Knows) → HasSetOff tree.now hand.old hand.old.number (sought.Rows wanted.direction) from way old
        → GoesSomeOrStops tree.now hand.new hand.old.number wanted.direction
        (λ behind next. GivesSome old.first tree.now.store.layout.pages hand.old.number wanted.turns wanted.direction from wanted.to most behind next
        rows.old.items rows.new.items)
        (λ fault. LeavesSome old.first tree.now.store.layout.pages hand.old.number wanted.turns wanted.direction from wanted.to most
        (vec_capacity rows.new - vec_len rows.new) fault rows.old.items rows.new.items) old result }
{
    let sought = Sought::Rows(wanted.direction);
    let Some(glance) = descend_to_leaf(tree, hand, sought, from, way, wanted.turns) else {
        return Err(ScanFault::OutOfTurns(from));
    };
    let shown = FrameView {
        store: &tree.store,
        glance,
    };
    let portion = portion_toward(&shown, hand, wanted.direction, from, wanted.to);
    let (first, last) = (portion.first, portion.last);
    let cut = first_rows(&shown, hand, wanted.direction, first, last, most);
    let (behind, next) = stand_behind(portion.behind, last - first < most, cut.left);
    fetch_behind(tree, behind);
    let (first, last) = (cut.first, cut.last);
    match give_rows::<_, Vec<(u64, u64)>, Appending>(
        &shown,
        hand,
        wanted.direction,
        first,
        last,
        rows,
    ) {
        Ok(()) => {
            let on = go_behind(tree, hand, wanted.direction, behind);
            Ok((behind, next, on))
        }
        Err(_) => {
            end_at_leaf(tree, hand);
            Err(ScanFault::Memory(from))
        }
    }
}
