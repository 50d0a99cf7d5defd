//! Scans, upwards or downwards: parts of the map, each from where the last one ended.

ghost use Rattle.std.specs.Prelude.{◌≡◌, ℕ, ◌-◌, ◌<◌, Option, Some, vec_len};
ghost use Rattle.std.specs.List.{FoldsTo};
ghost use Rattle.std.specs.Vec.{vec_capacity};
ghost use Rattle.bl_store.specs.Hands.{known, IsIdle, IsSameHand, IsSameStock};
ghost use Rattle.bl_store.specs.Owners.{IsHandOf};
ghost use Rattle.bl_claims.specs.Seeing.{IsSeen};
ghost use Rattle.bl_index_rule.specs.declared.known.PassState.{PassState as Knows};
ghost use Rattle.bl_index_events.specs.Runs.{Rests};
ghost use Rattle.bl_proc.specs.declared.parts.Direction.TheVariants as directions;
ghost use Rattle.bl_index_read.specs.declared.sought.Sought.TheVariants as sought;
ghost use Rattle.bl_index_read.specs.LeafWays.{HasSetOff};
ghost use Rattle.bl_index_read.specs.LeafRows.{is_before as before, IsBefore, IsPast};
ghost use Rattle.bl_index_read.specs.Sinks.{Appends};
ghost use Rattle.bl_index.specs.Scans.{GivesPart, LeavesPart, MayScan, roomy};
ghost use Rattle.bl_index.specs.Within.{GoesOrStops};

use crate::index::{Index, Pass};
use bl_index_events::{FrameView, Tree};
use bl_index_read::{
    Appending, Behind, Sink, Sought, Telling, descend_to_leaf, end_at_leaf, fetch_behind,
    give_rows, go_behind, portion_toward, set_off,
};
use bl_index_rule::PassState;
use bl_proc::Direction;
use bl_proc_steps::Descent;
use bl_store::Hand;
use std::mem;

/// Why a scan stopped, with the key from which it goes on.
#[derive(Clone, Copy, Debug, PartialEq, Eq)]
pub enum ScanFault {
    /// There was no room for the rows of a part.
    Memory(u64),
    /// A part got as many pages as it was allowed, and has answered nothing.
    OutOfTurns(u64),
}

/// A part of a scan got as many pages as it was allowed, and has answered nothing.
#[derive(Clone, Copy, Debug, PartialEq, Eq)]
pub struct OutOfTurnsAt {
    /// The scan goes on from this key.
    pub key: u64,
}

/// Which rows a scan is to give, part by part.
#[derive(Clone, Copy)]
pub(crate) struct Wanted {
    pub(crate) direction: Direction,
    /// Those of keys before that one, if there is one.
    pub(crate) to: Option<u64>,
    /// How many pages each part may get.
    pub(crate) turns: u32,
}

/// Whether the key comes before the end, if there is one.
pub(crate) fn is_before(direction: Direction, to: Option<u64>, key: u64) -> bool
    ensures { result ≡ before direction to key }
{
    match direction {
        Direction::Up => match to {
            Some(end) => key < end,
            None => true,
        },
        Direction::Down => match to {
            Some(end) => end < key,
            None => true,
        },
    }
}

impl Index {
    ghost use Rattle.bl_index.specs.Calls.{first_of, IsPassOf, IsSamePass, pages_of, number_of, trail};

    /// Appends the rows of all parts from a key on that lie below an end, if there is one: one part after another, each
    /// with so many turns. It stops at the end of the map, or at a part that ends at or behind that end. Where the key is
    /// not below the end it does nothing.
    ///
    /// The keys rise, and each key of the range is answered as the map stood at the point of one of the parts; the whole is
    /// no snapshot. A fault leaves the rows of all keys below its own, and nothing of the part from there on.
    pub fn scan_into(
        &self,
        pass: &mut Pass,
        from: u64,
        to: Option<u64>,
        turns: u32,
        rows: &mut Vec<(u64, u64)>,
    ) -> Result<(), ScanFault>
        requires { IsPassOf self.now pass.old }
        ensures same { IsSamePass pass.old pass.new }
        ensures scans { MayScan Appends (λ many. vec_capacity rows.new - vec_len rows.new < many) (first_of self.now) (pages_of self.now)
            (number_of pass.old) turns directions.Up from to result rows.old.items rows.new.items (trail pass.old) (trail pass.new) }
        ensures nothing { IsPast directions.Up to (Some from) → (trail pass.new ≡ trail pass.old) × (rows.new.items ≡ rows.old.items) }
    {
        self.scan_toward(pass, Direction::Up, from, to, turns, rows)
    }

    /// The same upwards or downwards: [`Index::scan_into`] is the one upwards. Downwards the keys fall, from the key on to above the end.
    pub fn scan_toward(
        &self,
        pass: &mut Pass,
        direction: Direction,
        from: u64,
        to: Option<u64>,
        turns: u32,
        rows: &mut Vec<(u64, u64)>,
    ) -> Result<(), ScanFault>
        requires { IsPassOf self.now pass.old }
        ensures same { IsSamePass pass.old pass.new }
        ensures scans { MayScan Appends (λ many. vec_capacity rows.new - vec_len rows.new < many) (first_of self.now) (pages_of self.now)
            (number_of pass.old) turns direction from to result rows.old.items rows.new.items (trail pass.old) (trail pass.new) }
        ensures nothing { IsPast direction to (Some from) → (trail pass.new ≡ trail pass.old) × (rows.new.items ≡ rows.old.items) }
    {
        if !is_before(direction, to, from) {
            return Ok(());
        }
        // Behind the reference its fields would be read again after each word of a leaf.
        let none = Vec::new(*rows.allocator());
        let mut all = mem::replace(rows, none);
        let wanted = Wanted {
            direction,
            to,
            turns,
        };
        let scanned = self.scan::<_, Appending>(pass, from, wanted, &mut all);
        *rows = all;
        scanned
    }

    /// Tells a callback the rows that [`Index::scan_toward`] would append, one after another, as it reads them of the leaves. Where a
    /// part runs out of turns it stops: the rows of all keys before the fault's were told, and none from there on.
    ///
    /// The callback is called while a part is under way, and until that ends nothing is given back that was swapped out since it
    /// began. So it should not wait.
    pub fn scan_with<F: FnMut((u64, u64))>(
        &self,
        pass: &mut Pass,
        direction: Direction,
        from: u64,
        to: Option<u64>,
        turns: u32,
        visit: &mut F,
    ) -> Result<(), OutOfTurnsAt>
        requires own { IsPassOf self.now pass.old }
        requires callable { F.IsAlwaysCallable visit.old }
        ensures same { IsSamePass pass.old pass.new }
        ensures callable { F.IsAlwaysCallable visit.new }
        ensures tells { MayScan (FoldsTo (λ p x q. F.step p x tt q)) (λ many. ⊥) (first_of self.now) (pages_of self.now)
            (number_of pass.old) turns direction from to (roomy result) visit.old visit.new (trail pass.old) (trail pass.new) }
        ensures nothing { IsPast direction to (Some from) → (trail pass.new ≡ trail pass.old) × (visit.new ≡ visit.old) }
    {
        if !is_before(direction, to, from) {
            return Ok(());
        }
        let wanted = Wanted {
            direction,
            to,
            turns,
        };
        match self.scan::<F, Telling>(pass, from, wanted, visit) {
            Ok(()) => Ok(()),
            Err(ScanFault::OutOfTurns(key)) => Err(OutOfTurnsAt { key }),
            Err(ScanFault::Memory(_)) => unreachable!(),
        }
    }

    /// Gives the rows that are wanted from a key on, which comes before their end.
    #[inline(always)]
    fn scan<S, K: Sink<S>>(
        &self,
        pass: &mut Pass,
        from: u64,
        wanted: Wanted,
        state: &mut S,
    ) -> Result<(), ScanFault>
        requires own { IsPassOf self.now pass.old }
        requires before { IsBefore wanted.direction wanted.to from }
        requires ready { K.IsReady state.old }
        ensures same { IsSamePass pass.old pass.new }
        ensures ready { K.IsReady state.new }
        ensures scans { MayScan K.Takes (K.Lacks state.new) (first_of self.now) (pages_of self.now) (number_of pass.old) wanted.turns
            wanted.direction from wanted.to result (K.held state.old) (K.held state.new) (trail pass.old) (trail pass.new) }
    {
        give_parts::<S, K>(&self.tree, &mut pass.hand, from, wanted, state)
    }
}

/// The parts of a scan, one after another: behind each, the next one has set off.
#[inline(always)]
fn give_parts<S, K: Sink<S>>(
    tree: &Tree,
    hand: &mut Hand<PassState>,
    from: u64,
    wanted: Wanted,
    state: &mut S,
) -> Result<(), ScanFault>
    requires own { IsHandOf tree.now.store hand.old }
    requires idle { IsIdle hand.old.seat }
    requires before { IsBefore wanted.direction wanted.to from }
    requires ready { K.IsReady state.old }
    ensures same { IsSameHand hand.old.seat hand.new.seat × IsSameStock hand.old.seat hand.new.seat }
    ensures rests { Rests hand.new.seat }
    ensures first { (known hand.new.seat).first ≡ (known hand.old.seat).first }
    ensures seen { IsSeen (known hand.new.seat).first (known hand.new.seat).trail }
    ensures ready { K.IsReady state.new }
    ensures scans { MayScan K.Takes (K.Lacks state.new) (known hand.old.seat).first tree.now.store.layout.pages hand.old.number wanted.turns
        wanted.direction from wanted.to result (K.held state.old) (K.held state.new) (known hand.old.seat).trail (known hand.new.seat).trail }
{
    let mut way = set_off(tree, hand, Sought::Rows(wanted.direction), from, None);
    let mut behind = Behind::Part(from, 0);
    while let Behind::Part(at, _) = behind {
        match give_part::<S, K>(tree, hand, at, way, wanted, state) {
            Ok((next, on)) => {
                behind = next;
                way = on;
            }
            Err(fault) => return Err(fault),
        }
    }
    Ok(())
}

/// Gives the wanted rows of one part, which has set off, and says how the scan goes on.
#[inline(always)]
fn give_part<S, K: Sink<S>>(
    tree: &Tree,
    hand: &mut Hand<PassState>,
    from: u64,
    way: Descent,
    wanted: Wanted,
    state: &mut S,
) -> Result<(Behind, Descent), ScanFault>
    requires off { (old : Knows) × (pass : ℕ) × HasSetOff tree.now hand.old pass (sought.Rows wanted.direction) from way old }
    requires before { IsBefore wanted.direction wanted.to from }
    requires ready { K.IsReady state.old }
    ensures same { IsSameHand hand.old.seat hand.new.seat × IsSameStock hand.old.seat hand.new.seat }
    ensures ready { K.IsReady state.new }
    ensures gives { (old : Knows) → HasSetOff tree.now hand.old hand.old.number (sought.Rows wanted.direction) from way old
        → GoesOrStops tree.now hand.new hand.old.number wanted.direction
        (λ behind. GivesPart K.Takes old.first tree.now.store.layout.pages hand.old.number wanted.turns wanted.direction from wanted.to behind
        (K.held state.old) (K.held state.new))
        (λ fault. LeavesPart old.first tree.now.store.layout.pages hand.old.number wanted.turns wanted.direction from wanted.to
        (K.Lacks state.new) fault (K.held state.old) (K.held state.new)) old result }
{
    let sought = Sought::Rows(wanted.direction);
    let Some(glance) = descend_to_leaf(tree, hand, sought, from, way, wanted.turns) else {
        return Err(ScanFault::OutOfTurns(from));
    };
    let shown = FrameView {
        store: &tree.store,
        glance,
    };
    let portion = portion_toward(&shown, hand, wanted.direction, from, wanted.to);
    fetch_behind(tree, portion.behind);
    let (first, last) = (portion.first, portion.last);
    match give_rows::<_, S, K>(&shown, hand, wanted.direction, first, last, state) {
        Ok(()) => {
            let on = go_behind(tree, hand, wanted.direction, portion.behind);
            Ok((portion.behind, on))
        }
        Err(_) => {
            end_at_leaf(tree, hand);
            Err(ScanFault::Memory(from))
        }
    }
}
