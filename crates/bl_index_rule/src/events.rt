//! What each event tells the pass that makes it.

ghost use Rattle.std.specs.Prelude.{ℕ};
ghost use Rattle.bl_index_rule.specs.Observed.{begins, ends, gives_up, gets, gets_kept, is_unput, puts, relays, takes, tries, probes, opens, leaves_walk, leaves_top, retires, refuses, sweeps};

use crate::known::PassState;
use bl_store_rule::{KeepPlay, PagePlay, SweepPlay, TellPlay, TimePlay};
use std::marker::{Brand, PhantomData};

/// Which pass begins a process, in a store of how many pages and passes, and which process.
pub trait Launch {
    ghost use Rattle.bl_proc.specs.declared.kinds.Proc.{Proc as Process};

    ghost pass: { ℕ };

    ghost pages: { ℕ };

    ghost passes: { ℕ };

    ghost process: { Process };
}

impl Launch for Brand {
    ghost use Rattle.bl_index_rule.specs.Simulation.{unborn};

    ghost pass = { 0 };

    ghost pages = { 0 };

    ghost passes = { 0 };

    ghost process = { unborn };
}

/// A process begins.
pub struct Began<J> {
    launch: PhantomData<J>,
}

impl<J: Launch> TimePlay<PassState> for Began<J> {
    ghost then = { begins J.pass J.pages J.passes J.process };
}

/// The process ends, and has answered.
pub struct Ended;

impl TimePlay<PassState> for Ended {
    ghost then = { ends };
}

/// A process ends that holds no page, and has answered nothing.
pub struct GaveUp;

impl TimePlay<PassState> for GaveUp {
    ghost then = { gives_up };
}

/// A page was read.
pub struct Got;

impl PagePlay<PassState> for Got {
    ghost then = { gets };
}

/// A page was read, and is kept in mind.
pub struct GotKept;

impl KeepPlay<PassState> for GotKept {
    ghost then = { gets_kept };
}

/// A page that was got was not put since.
pub struct Unput;

impl TellPlay<PassState> for Unput {
    ghost tells = { is_unput };
}

/// The process ends, and has answered, and the next one begins.
pub struct Relayed<J> {
    launch: PhantomData<J>,
}

impl<J: Launch> TimePlay<PassState> for Relayed<J> {
    ghost then = { relays J.pass J.pages J.passes J.process };
}

/// A page was put.
pub struct Put;

impl PagePlay<PassState> for Put {
    ghost then = { puts };
}

/// A page was taken.
pub struct Took;

impl PagePlay<PassState> for Took {
    ghost then = { takes };
}

/// A page was latched, or missed.
pub struct Tried;

impl PagePlay<PassState> for Tried {
    ghost then = { tries };
}

/// A page was looked at, whether it is open.
pub struct Probed;

impl PagePlay<PassState> for Probed {
    ghost then = { probes };
}

/// A page was opened.
pub struct Opened;

impl PagePlay<PassState> for Opened {
    ghost then = { opens };
}

/// A post has given up its walk, and has opened its parent.
pub struct LeftWalk;

impl PagePlay<PassState> for LeftWalk {
    ghost then = { leaves_walk };
}

/// A lowering has opened the anchor without the latch of the top page.
pub struct LeftTop;

impl PagePlay<PassState> for LeftTop {
    ghost then = { leaves_top };
}

/// A page was retired.
pub struct Retired;

impl TimePlay<PassState> for Retired {
    ghost then = { retires };
}

/// A reservation was refused.
pub struct Refused;

impl TimePlay<PassState> for Refused {
    ghost then = { refuses };
}

/// Which pass sweeps, by its process of which number, and how many passes there are.
pub trait Sweeper {
    ghost pass: { ℕ };

    ghost number: { ℕ };

    ghost passes: { ℕ };
}

impl Sweeper for Brand {
    ghost pass = { 0 };

    ghost number = { 0 };

    ghost passes = { 0 };
}

/// Pages were released.
pub struct Swept<J> {
    sweeper: PhantomData<J>,
}

impl<J: Sweeper> SweepPlay<PassState> for Swept<J> {
    ghost then = { sweeps J.pass J.number J.passes };
}
