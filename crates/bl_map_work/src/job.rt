//! What threads do.

use bl_map::Handle;
use std::sync::Wait;

/// What a thread works at, turn by turn.
pub trait Job<R: Wait> {
    ghost use Rattle.std.specs.Prelude.{Bool};
    ghost use Rattle.bl_map.specs.Handles.{IsSameHandle};
    ghost use Rattle.bl_map.specs.declared.handle.Handle.{Handle as HandleIs};

    // What a turn does: whether the map may grow behind it, the job and the handle before it, whether the job is done, and both behind it.
    ghost Does: { Bool → Self → HandleIs → Bool → Self → HandleIs → Type 0 };

    /// Goes on by the handle until the job is done, or, where the map may grow, until the handle is short of room: see
    /// [`Handle::is_short`]. Says whether it is done. Upkeep that waits at the handle then is given up: see [`Handle::upkeep`].
    fn go_on(&mut self, rt: &R, handle: &mut Handle<'_>, may_grow: bool) -> bool
        ensures same { IsSameHandle handle.old handle.new }
        ensures does { Does may_grow self.old handle.old result self.new handle.new };
}

/// A job, and whether it is done.
#[derive(Drop)]
pub struct Task<J> {
    /// What a thread is to do.
    pub job: J,
    /// Such a job has no turn.
    pub is_done: bool,
}
