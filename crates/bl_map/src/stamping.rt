//! Stamps: passed along with whatever one thread hands to another, they keep the calls of both in order.

ghost use Rattle.std.specs.Prelude.{◌≡◌};
ghost use Rattle.bl_index.specs.Calls.{IsPassOf};
ghost use Rattle.bl_map_calls.specs.Seats.{IsPassOf-prop};

use crate::handle::Handle;
use bl_index::{Index, Pass};

/// What a handle had seen of a map when it was stamped. It is passed from thread to thread beside whatever else they hand on: a message,
/// a lock, the end of a thread. It works from a seat of its own, as a handle does, and makes no call.
#[derive(Drop)]
pub struct Stamp<'a> {
    index: &'a Index,
    pass: Pass,
    ghost own: { IsPassOf index.now pass } by { IsPassOf-prop index.now pass },
}

impl<'a> Stamp<'a> {
    ghost use Rattle.bl_map.specs.Stamps.{IsStampOver, stamped_seat};

    /// A stamp of an index, from a seat of it. For a map see [`crate::Map::stamp`].
    pub fn over(index: &'a Index, seat: Pass) -> Stamp<'a>
        requires { IsPassOf index.now seat }
        ensures { IsStampOver index.now seat result }
    {
        Stamp { index, pass: seat }
    }

    /// The seat that it worked from.
    pub fn into_seat(self) -> Pass
        ensures { result ≡ stamped_seat self.entry }
    {
        let Stamp { pass, .. } = self;
        pass
    }
}

impl<'a> Handle<'a> {
    ghost use Rattle.bl_map.specs.Handles.{IsSameHandle, HasKeptUp, KeepsHints};
    ghost use Rattle.bl_map.specs.Meetings.{KeepsHandle};
    ghost use Rattle.bl_map.specs.Stamps.{IsOfOneMap, KeepsStamp, HasStamped, HasHeeded};

    /// Stamps: the stamp then tells all that this handle has seen, and all that it told before. Whoever heeds it makes calls that stand
    /// behind those of this handle so far.
    pub fn stamp(&mut self, stamp: &mut Stamp<'a>)
        requires { IsOfOneMap self.old stamp.old }
        ensures same { KeepsHandle self.old self.new }
        ensures stamps { HasStamped self.old stamp.old stamp.new }
    {
        self.index.learn(&mut stamp.pass, &mut self.pass);
    }

    /// Heeds a stamp: the handle has then seen all that the stamp tells, and its calls from now on stand behind all calls of the handles that
    /// had stamped it. It makes no call itself.
    pub fn heed(&mut self, stamp: &mut Stamp<'a>)
        requires { IsOfOneMap self.old stamp.old }
        ensures same { IsSameHandle self.old self.new }
        ensures stamp { KeepsStamp stamp.old stamp.new }
        ensures heeds { HasHeeded stamp.old self.old self.new }
        ensures kept { HasKeptUp self.old self.new }
        ensures keeps { KeepsHints self.old self.new }
    {
        self.index.learn(&mut self.pass, &mut stamp.pass);
    }
}
