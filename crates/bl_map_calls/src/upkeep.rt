//! What keeps a tree in order: a pass looks for room before a change, and follows the hint that a change has left behind.

ghost use Rattle.std.specs.Prelude.{◌≡◌};
ghost use Rattle.bl_answers.specs.Hints.{level_of, key_of};
ghost use Rattle.bl_answers.specs.declared.answers.Hint.TheVariants as hints;
ghost use Rattle.bl_index.specs.Calls.{first_of, IsPassOf, IsSamePass, number_of, trail};
ghost use Rattle.bl_map_calls.specs.Works.{Adds, Swept};
ghost use Rattle.bl_map_calls.specs.Follows.{may_fall, Lowers, FollowsHint, FollowsHints, FollowsSplit};

use bl_index::{Hint, Index, Lowered, Pass, Posted, Squeezed};
use bl_model::limits::MOST_LEVELS;
use std::sync::Wait;
use std::sync::atomic::AtomicU64;
use std::thread;
use std::time::Duration;

/// How many levels a tree may have: a split is followed by at most one post on each.
pub(crate) const LEVELS: u32 = MOST_LEVELS as u32;

/// How often a pass looks at most for what it lacks, before a change, a post or a compression. With its naps so many looks take half a minute:
/// longer than a thread waits for a processor that it has lost within a process, on a machine with a hundred threads for each.
pub const WAITS_FOR_ROOM: u32 = 32_768;

/// So many times it only lets others run, and as often it naps shortly. All naps behind these are long.
const WAITS_OF_A_KIND: u32 = 4_096;

/// How many microseconds a short nap takes, and a long one.
const SHORT_NAP: u64 = 50;

const LONG_NAP: u64 = 1_000;

/// What became of a hint that was followed.
#[derive(Clone, Copy, Debug, PartialEq, Eq)]
pub enum Followed {
    /// What it asked for is done, and that has left this hint.
    Done(Option<Hint>),
    /// There was no room for it.
    NoRoom,
}

/// What a pass may lack while some of it waits to be released.
#[derive(Clone, Copy, Debug, PartialEq, Eq)]
pub enum Want {
    /// Frames for a change, a post or a compression.
    Frames,
    /// Pages for a split.
    Pages,
    /// Nothing: all pages that are retired are to be released.
    Nothing,
}

/// Whether the pass lacks what it wants, and some of that waits to be released.
pub fn lacks(index: &Index, pass: &Pass, want: Want) -> bool {
    match want {
        Want::Frames => index.lacks_frames(pass),
        Want::Pages => index.waits_for_pages(),
        Want::Nothing => index.tree().store.room.retiring() > 0,
    }
}

/// Waits while the pass lacks what it wants and some of that waits to be released: others may hold back what is retired, for as long as
/// they run a process. The pass runs none meanwhile. It sweeps, and lets others run where that has released nothing, so many times at most.
pub(crate) fn wait_for<R: Wait>(rt: &R, index: &Index, pass: &mut Pass, want: Want)
    requires { IsPassOf index.now pass.old }
    ensures same { IsSamePass pass.old pass.new }
    ensures adds { Adds (first_of index.now) (number_of pass.old) (trail pass.old) (trail pass.new) }
    ensures swept { Swept (first_of index.now) (number_of pass.old) (trail pass.old) (trail pass.new) }
{
    for wait in 0..WAITS_FOR_ROOM {
        if !lacks(index, pass, want) {
            return;
        }
        if index.sweep(pass) == 0 {
            let_others_run(rt, wait);
        }
    }
}

/// Lets others run, where it has waited so often already. Behind many waits it naps, so that it takes no time from whom it waits for.
fn let_others_run<R: Wait>(rt: &R, waits: u32) {
    if waits < WAITS_OF_A_KIND {
        thread::yield_now();
        return;
    }
    let nap = if waits < 2 * WAITS_OF_A_KIND {
        SHORT_NAP
    } else {
        LONG_NAP
    };
    AtomicU64::new(0).park_timeout(rt, 0, Duration::from_micros(nap));
}

/// Gives back what was swapped out, where that is due.
pub fn sweep_if_due(index: &Index, pass: &mut Pass)
    requires { IsPassOf index.now pass.old }
    ensures same { IsSamePass pass.old pass.new }
    ensures adds { Adds (first_of index.now) (number_of pass.old) (trail pass.old) (trail pass.new) }
    ensures swept { Swept (first_of index.now) (number_of pass.old) (trail pass.old) (trail pass.new) }
{
    if pass.is_due() {
        index.sweep(pass);
    }
}

/// How many top levels a compression may have left that are not needed: all but one, where the top page had too few children to compress,
/// or has one fewer now.
pub fn may_fall(squeezed: Squeezed) -> u32
    ensures { result ≡ may_fall squeezed }
{
    match squeezed {
        Squeezed::Merged | Squeezed::Alone => LEVELS - 1,
        Squeezed::Evened | Squeezed::Enough | Squeezed::Unposted | Squeezed::NoRoom => 0,
    }
}

/// Takes top levels away that are not needed, so many at most, one after another. Before each it waits for frames.
fn lower<R: Wait>(rt: &R, index: &Index, pass: &mut Pass, most: u32)
    requires { IsPassOf index.now pass.old }
    ensures same { IsSamePass pass.old pass.new }
    ensures lowers { Lowers (first_of index.now) (number_of pass.old) most (trail pass.old) (trail pass.new) }
{
    for _level in 0..most {
        wait_for(rt, index, pass, Want::Frames);
        match index.lower(rt, pass) {
            Lowered::Lowered => {}
            _ => return,
        }
    }
}

/// Waits for frames, and posts.
fn post<R: Wait>(rt: &R, index: &Index, pass: &mut Pass, hint: Hint) -> Followed
    requires { IsPassOf index.now pass.old }
    ensures same { IsSamePass pass.old pass.new }
    ensures follows { FollowsHint (first_of index.now) (number_of pass.old) (hints.Post (level_of hint) (key_of hint)) result
        (trail pass.old) (trail pass.new) }
{
    wait_for(rt, index, pass, Want::Frames);
    let (posted, more) = index.post(rt, pass, hint);
    match posted {
        Posted::NoRoom => Followed::NoRoom,
        _ => Followed::Done(more),
    }
}

/// Waits for frames, compresses, and takes the top level away where it is not needed any more.
fn compress<R: Wait>(rt: &R, index: &Index, pass: &mut Pass, hint: Hint) -> Followed
    requires { IsPassOf index.now pass.old }
    ensures same { IsSamePass pass.old pass.new }
    ensures follows { FollowsHint (first_of index.now) (number_of pass.old) (hints.Thin (level_of hint) (key_of hint)) result
        (trail pass.old) (trail pass.new) }
{
    wait_for(rt, index, pass, Want::Frames);
    let (squeezed, more) = index.compress(rt, pass, hint);
    lower(rt, index, pass, may_fall(squeezed));
    match squeezed {
        Squeezed::NoRoom => Followed::NoRoom,
        _ => Followed::Done(more),
    }
}

/// Follows a hint: posts or compresses, as it asks.
pub fn follow_hint<R: Wait>(rt: &R, index: &Index, pass: &mut Pass, hint: Hint) -> Followed
    requires { IsPassOf index.now pass.old }
    ensures same { IsSamePass pass.old pass.new }
    ensures follows { FollowsHint (first_of index.now) (number_of pass.old) hint result (trail pass.old) (trail pass.new) }
{
    match hint {
        Hint::Post { .. } => post(rt, index, pass, hint),
        Hint::Thin { .. } => compress(rt, index, pass, hint),
    }
}

/// Follows the hint of a change, and those that following it gives. Gives back the hint that found no room, or that is left behind
/// so many of them.
pub(crate) fn follow<R: Wait>(
    rt: &R,
    index: &Index,
    pass: &mut Pass,
    hint: Option<Hint>,
) -> Option<Hint>
    requires { IsPassOf index.now pass.old }
    ensures same { IsSamePass pass.old pass.new }
    ensures follows { FollowsHints (first_of index.now) (number_of pass.old) 12 hint result (trail pass.old) (trail pass.new) }
{
    let mut hint = hint;
    for _level in 0..LEVELS {
        let Some(next) = hint else {
            return None;
        };
        let again = next;
        match follow_hint(rt, index, pass, next) {
            Followed::Done(left) => hint = left,
            Followed::NoRoom => return Some(again),
        }
    }
    hint
}

/// The same for the hint of a split alone. That of a thin page it gives back.
pub(crate) fn follow_split<R: Wait>(
    rt: &R,
    index: &Index,
    pass: &mut Pass,
    hint: Option<Hint>,
) -> Option<Hint>
    requires { IsPassOf index.now pass.old }
    ensures same { IsSamePass pass.old pass.new }
    ensures follows { FollowsSplit (first_of index.now) (number_of pass.old) hint result (trail pass.old) (trail pass.new) }
{
    match hint {
        Some(Hint::Thin { .. }) => hint,
        _ => follow(rt, index, pass, hint),
    }
}
