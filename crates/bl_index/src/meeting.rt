//! A pass learns of another, or is told what another knows.

ghost use Rattle.std.specs.Prelude.{◌≡◌, ℕ};
ghost use Rattle.bl_store.specs.Hands.{known, IsIdle, HasNoStock, IsSameHand};
ghost use Rattle.bl_store.specs.Owners.{IsHandOf};
ghost use Rattle.bl_claims.specs.Seeing.{GoesOnFrom};
ghost use Rattle.bl_index.specs.Meetings.{learned, heard};
ghost use Rattle.bl_index_events.specs.Runs.{KeepsHand};

use crate::index::{Index, Pass};
use bl_index_events::Tree;
use bl_index_rule::PassState;
use bl_store::Hand;
use bl_store_rule::MeetPlay;
use std::marker::{Brand, PhantomData};

/// Which pass learns of which other, and how many passes there are.
pub(crate) trait Meeting {
    ghost pass: { ℕ };

    ghost other: { ℕ };

    ghost passes: { ℕ };
}

impl Meeting for Brand {
    ghost pass = { 0 };

    ghost other = { 0 };

    ghost passes = { 0 };
}

/// A pass learns all that has happened.
pub(crate) struct Learned<J> {
    meeting: PhantomData<J>,
}

impl<J: Meeting> MeetPlay<PassState> for Learned<J> {
    ghost then = { learned J.pass J.other J.passes };
}

/// A pass is told what another knows.
pub(crate) struct Heard<J> {
    meeting: PhantomData<J>,
}

impl<J: Meeting> MeetPlay<PassState> for Heard<J> {
    ghost then = { heard J.pass };
}

impl Index {
    ghost use Rattle.bl_index.specs.Calls.{first_of, IsPassOf, IsSamePass, number_of, trail};
    ghost use Rattle.bl_claims.specs.Seeing.{IsSeen};
    ghost use Rattle.bl_index.specs.Meetings.{Learns, Hears, Meet, StaysIdle};

    /// The two passes meet: each then knows all that has happened in the index, and so all that the other one knew.
    pub fn meet(&self, one: &mut Pass, two: &mut Pass)
        requires own { IsPassOf self.now one.old × IsPassOf self.now two.old }
        ensures same { IsSamePass one.old one.new × IsSamePass two.old two.new }
        ensures meet { Meet (first_of self.now) (number_of one.old) (number_of two.old) (trail one.old) (trail two.old) (trail one.new) (trail two.new) }
    {
        self.meet_hands(&mut one.hand, &mut two.hand);
    }

    /// The same of hands, each outside a process and with nothing reserved.
    pub fn meet_hands(&self, one: &mut Hand<PassState>, two: &mut Hand<PassState>)
        requires own { IsHandOf self.now.store one.old × IsHandOf self.now.store two.old }
        requires idle { (IsIdle one.old.seat × HasNoStock one.old.seat) × (IsIdle two.old.seat × HasNoStock two.old.seat) }
        ensures same { StaysIdle one.old one.new × StaysIdle two.old two.new }
        ensures meet { Meet (known one.old.seat).first one.old.number two.old.number (known one.old.seat).trail (known two.old.seat).trail
            (known one.new.seat).trail (known two.new.seat).trail }
    {
        learn_by::<Brand>(&self.tree, one, two);
        tell_by::<Brand>(&self.tree, two, one);
    }

    /// The pass learns all that has happened in the index, and so all that the other one knows.
    pub fn learn(&self, pass: &mut Pass, other: &mut Pass)
        requires own { IsPassOf self.now pass.old × IsPassOf self.now other.old }
        ensures same { IsSamePass pass.old pass.new }
        ensures other { IsSamePass other.old other.new × (trail other.new ≡ trail other.old) }
        ensures learns { Learns (number_of pass.old) (number_of other.old) (trail pass.old) (trail other.old) (trail pass.new) }
        ensures seen { IsSeen (first_of self.now) (trail pass.new) }
    {
        learn_by::<Brand>(&self.tree, &mut pass.hand, &mut other.hand);
    }

    /// The pass is told what the other one knows, which begins with what it knew.
    pub fn tell(&self, pass: &mut Pass, other: &mut Pass)
        requires own { IsPassOf self.now pass.old × IsPassOf self.now other.old }
        requires begins { GoesOnFrom (trail pass.old) (trail other.old) }
        ensures same { IsSamePass pass.old pass.new }
        ensures other { IsSamePass other.old other.new × (trail other.new ≡ trail other.old) }
        ensures hears { Hears (number_of pass.old) (trail pass.old) (trail other.old) (trail pass.new) }
    {
        tell_by::<Brand>(&self.tree, &mut pass.hand, &mut other.hand);
    }
}

/// The hand learns what the other one knows: its trail goes on to the end of the world's.
fn learn_by<J: Meeting>(tree: &Tree, hand: &mut Hand<PassState>, other: &mut Hand<PassState>)
    requires own { IsHandOf tree.now.store hand.old × IsHandOf tree.now.store other.old }
    requires idle { IsIdle other.old.seat × HasNoStock other.old.seat }
    requires names { (hand.old.number ≡ J.pass) × (other.old.number ≡ J.other) × (tree.now.store.layout.passes ≡ J.passes) }
    ensures same { KeepsHand hand.old.seat hand.new.seat }
    ensures other { IsSameHand other.old.seat other.new.seat × IsIdle other.new.seat × HasNoStock other.new.seat
        × (known other.new.seat ≡ known other.old.seat) }
    ensures observed { learned J.pass J.other J.passes (known hand.old.seat) (known other.old.seat) (known hand.new.seat) }
{
    tree.store.meet::<Learned<J>>(hand, other);
}

/// The hand is told what the other one knows.
fn tell_by<J: Meeting>(tree: &Tree, hand: &mut Hand<PassState>, other: &mut Hand<PassState>)
    requires own { IsHandOf tree.now.store hand.old × IsHandOf tree.now.store other.old }
    requires idle { IsIdle other.old.seat × HasNoStock other.old.seat }
    requires names { hand.old.number ≡ J.pass }
    requires begins { GoesOnFrom (known hand.old.seat).trail (known other.old.seat).trail }
    ensures same { KeepsHand hand.old.seat hand.new.seat }
    ensures other { IsSameHand other.old.seat other.new.seat × IsIdle other.new.seat × HasNoStock other.new.seat
        × (known other.new.seat ≡ known other.old.seat) }
    ensures observed { heard J.pass (known hand.old.seat) (known other.old.seat) (known hand.new.seat) }
{
    tree.store.meet::<Heard<J>>(hand, other);
}
