//! All handles of an index meet.

ghost use Rattle.std.specs.Prelude.{◌≡◌, All};
ghost use Rattle.std.specs.List.{AllZip};
ghost use Rattle.bl_claims.specs.Seeing.{IsLinearizable, GoesOnFrom};
ghost use Rattle.bl_index.specs.Calls.{first_of};
ghost use Rattle.bl_index.specs.Meetings.{Learns, Hears};
ghost use Rattle.bl_map.specs.Handles.{IsSameHandle, KeepsHints, number_of_seat, seen_by};
ghost use Rattle.bl_map.specs.Meetings.{IsSeated, KeepsHandle, HasCome, LearnsAll, HaveAllMet};

use crate::handle::Handle;
use bl_index::Index;

/// One handle learns all that has happened, and so what the other one knows.
fn learn(index: &Index, one: &mut Handle<'_>, other: &mut Handle<'_>)
    requires { IsSeated index.now one.old × IsSeated index.now other.old }
    ensures same { IsSameHandle one.old one.new × KeepsHints one.old one.new }
    ensures other { KeepsHandle other.old other.new }
    ensures learns { Learns (number_of_seat one.old) (number_of_seat other.old) (seen_by one.old) (seen_by other.old) (seen_by one.new) }
    ensures seen { IsLinearizable (first_of index.now) (seen_by one.new) }
{
    index.learn(&mut one.pass, &mut other.pass);
}

/// One handle is told what the other one knows, which begins with what it knew.
fn tell(index: &Index, one: &mut Handle<'_>, other: &mut Handle<'_>)
    requires own { IsSeated index.now one.old × IsSeated index.now other.old }
    requires begins { GoesOnFrom (seen_by one.old) (seen_by other.old) }
    ensures same { IsSameHandle one.old one.new × KeepsHints one.old one.new }
    ensures other { KeepsHandle other.old other.new }
    ensures hears { Hears (number_of_seat one.old) (seen_by one.old) (seen_by other.old) (seen_by one.new) }
{
    index.tell(&mut one.pass, &mut other.pass);
}

/// The first handle learns all that has happened, and so what the others know. They have seen no more than before.
fn learn_all(index: &Index, first: &mut Handle<'_>, others: &mut [Handle<'_>])
    requires own { IsSeated index.now first.old × All (IsSeated index.now) others.old }
    ensures learns { LearnsAll (first_of index.now) first.old first.new others.old others.new }
{
    for number in 0..others.len() {
        learn(index, first, &mut others[number]);
    }
}

/// The others are told what the first one knows.
fn tell_all(index: &Index, first: &mut Handle<'_>, others: &mut [Handle<'_>])
    requires own { IsSeated index.now first.old × All (IsSeated index.now) others.old }
    requires begins { All (λ h. GoesOnFrom (seen_by h) (seen_by first.old)) others.old }
    ensures first { KeepsHandle first.old first.new }
    ensures observed { AllZip (HasCome (seen_by first.old)) others.old others.new }
{
    for number in 0..others.len() {
        tell(index, &mut others[number], first);
    }
}

/// All handles meet: each then has seen all that has happened in the index.
pub fn meet_all(index: &Index, first: &mut Handle<'_>, others: &mut [Handle<'_>])
    requires own { IsSeated index.now first.old × All (IsSeated index.now) others.old }
    ensures { HaveAllMet (first_of index.now) first.old others.old first.new others.new }
{
    learn_all(index, first, others);
    tell_all(index, first, others);
}
