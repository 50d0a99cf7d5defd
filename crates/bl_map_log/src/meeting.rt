//! The handles of all seats meet: what one of them has seen then has all that each has done.

ghost use Rattle.std.specs.Prelude.{◌≡◌, All};
ghost use Rattle.bl_map.specs.Handles.{seen_by};
ghost use Rattle.bl_map_log.specs.Notes.{handle_of};
ghost use Rattle.bl_map_log.specs.Meetings.{HasSeenMore, MeetsEach, AreOfOneMap, HaveMet};

use crate::handle::NotingHandle;

/// Two handles meet.
fn meet<'a>(one: &mut NotingHandle<'a>, two: &mut NotingHandle<'a>)
    requires { AreOfOneMap one.old two.old }
    ensures one { HasSeenMore one.old one.new }
    ensures two { HasSeenMore two.old two.new }
    ensures same { seen_by (handle_of two.new) ≡ seen_by (handle_of one.new) }
{
    one.handle.meet(&mut two.handle);
}

/// The first handle meets each of the others.
fn meet_each<'a>(one: &mut NotingHandle<'a>, others: &mut [NotingHandle<'a>])
    requires { All (AreOfOneMap one.old) others.old }
    ensures { MeetsEach one.old one.new others.old others.new }
{
    for number in 0..others.len() {
        meet(one, &mut others[number]);
    }
}

/// All handles meet. What the first one has seen once it has met each of the others has all that they have done; and, as it meets them once
/// more, no more of theirs than that.
pub(crate) fn meet_all<'a>(one: &mut NotingHandle<'a>, others: &mut [NotingHandle<'a>])
    requires { All (AreOfOneMap one.old) others.old }
    ensures { HaveMet one.old one.new others.old others.new }
{
    meet_each(one, others);
    meet_each(one, others);
}
