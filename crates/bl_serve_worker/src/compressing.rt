//! Hints wait for compressors, who follow them: pages are listed by their parents, merged and evened out, and the height falls.

ghost use Rattle.bl_map.specs.Handles.{IsSameHandle, HasKeptUp};

use bl_hints::Hints;
use bl_map::{Followed, Handle, Hint};
use std::sync::Wait;

/// A hint waits for a compressor.
pub(crate) fn enqueue<R: Wait>(rt: &R, hints: &Hints, hint: Option<Hint>) {
    if let Some(hint) = hint {
        hints.give(rt, hint);
    }
}

/// What following a hint has left waits for a compressor.
fn enqueue_next<R: Wait>(rt: &R, hints: &Hints, followed: Followed) {
    if let Followed::Done(next) = followed {
        enqueue(rt, hints, next);
    }
}

/// Follows one hint, where one waits, and sweeps. What is left to do waits for a compressor.
pub fn follow_hint<R: Wait>(rt: &R, hints: &Hints, handle: &mut Handle<'_>) -> bool
    ensures same { IsSameHandle handle.old handle.new }
    ensures kept { HasKeptUp handle.old handle.new }
{
    let Some(hint) = hints.next(rt) else {
        return false;
    };
    let followed = handle.follow(rt, hint);
    enqueue_next(rt, hints, followed);
    handle.sweep();
    true
}
