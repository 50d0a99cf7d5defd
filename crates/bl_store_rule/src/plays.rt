//! What each step on the table tells its seat.
ghost use Rattle.bl_store_rule.specs.Observed.{allotted, clocked, compared, confirmed, copied, drew, ended, freed, horizoned, looked, looked_kept, met, noted, opened, passed, published, raised, refused, relayed, released, renewed, reserved, returned, sealed, settled, stamped, swapped, took, tried, wrote};
ghost use Rattle.std.specs.Prelude.{ℕ};

use crate::rule::{KeepPlay, MeetPlay, PagePlay, SweepPlay, TellPlay, TimePlay};
use crate::view::View;
use atomic_table::Play;
use std::marker::{Brand, PhantomData};

/// The page that a tick retires.
pub trait Aim {
    ghost page: { ℕ };
}

impl Aim for Brand {
    ghost page = { 0 };
}

/// A tick of the clock that retires a page.
pub struct Seal<M, J> {
    play: PhantomData<(M, J)>,
}

impl<D, M: TimePlay<D>, J: Aim> Play<(), View<D>> for Seal<M, J> {
    ghost then = { sealed J.page M.then };
}

/// A look at the clock before a process begins.
pub struct Clock;

impl<D> Play<(), View<D>> for Clock {
    ghost then = { clocked };
}

/// A look at a word of the frame that the hand reads.
pub struct Copy;

impl<D> Play<(), View<D>> for Copy {
    ghost then = { copied };
}

/// Ticks of the clock for the puts and the retirement of a process.
pub struct Allot;

impl<D> Play<(), View<D>> for Allot {
    ghost then = { allotted };
}

/// A page or a frame that a reservation found taken.
pub struct Note;

impl<D> Play<(), View<D>> for Note {
    ghost then = { noted };
}

/// A frame that was free and is the hand's now.
pub struct Reserve;

impl<D> Play<(), View<D>> for Reserve {
    ghost then = { reserved };
}

/// A frame that is given back unused.
pub struct Return;

impl<D> Play<(), View<D>> for Return {
    ghost then = { returned };
}

/// The next word of the frame that was reserved last.
pub struct Write;

impl<D> Play<(), View<D>> for Write {
    ghost then = { wrote };
}

/// A word of that frame that is 0 already.
pub struct Confirm;

impl<D> Play<(), View<D>> for Confirm {
    ghost then = { confirmed };
}

/// A tick of the clock for the frame that a put took from its page.
pub struct Tick;

impl<D> Play<(), View<D>> for Tick {
    ghost then = { drew };
}

/// The owner word of that frame, by which it is retired.
pub struct Settle;

impl<D> Play<(), View<D>> for Settle {
    ghost then = { settled };
}

/// The owner word of a page that the hand has retired.
pub struct Publish;

impl<D> Play<(), View<D>> for Publish {
    ghost then = { published };
}

/// The clock, from which a sweep looks at process words.
pub struct Horizon;

impl<D> Play<(), View<D>> for Horizon {
    ghost then = { horizoned };
}

/// A process word that a sweep looks at.
pub struct Pass;

impl<D> Play<(), View<D>> for Pass {
    ghost then = { passed };
}

/// A retired frame that is free again.
pub struct Release;

impl<D> Play<(), View<D>> for Release {
    ghost then = { released };
}

/// The process word of a process that begins.
pub struct Enter<M> {
    play: PhantomData<M>,
}

impl<D, M: TimePlay<D>> Play<(), View<D>> for Enter<M> {
    ghost then = { stamped M.then };
}

/// The process word of a process that ends.
pub struct Leave<M> {
    play: PhantomData<M>,
}

impl<D, M: TimePlay<D>> Play<(), View<D>> for Leave<M> {
    ghost then = { ended M.then };
}

/// The process word of a process that begins where another ends.
pub struct Renew<M, N> {
    play: PhantomData<(M, N)>,
}

impl<D, M: TimePlay<D>, N: TimePlay<D>> Play<(), View<D>> for Renew<M, N> {
    ghost then = { renewed M.then N.then };
}

/// The process word of a process that begins, where the clock has gone on.
pub struct Raise;

impl<D> Play<(), View<D>> for Raise {
    ghost then = { raised };
}

/// For how many pages and frames a reservation asks.
pub trait Ask {
    ghost pages: { ℕ };

    ghost frames: { ℕ };
}

impl Ask for Brand {
    ghost pages = { 0 };

    ghost frames = { 0 };
}

/// The end of a reservation that found too few.
pub struct Refuse<M, J> {
    play: PhantomData<M>,
    ask: PhantomData<J>,
}

impl<D, M: TimePlay<D>, J: Ask> Play<(), View<D>> for Refuse<M, J> {
    ghost then = { refused J.pages J.frames M.then };
}

/// A look at a page's word.
pub struct Look<M> {
    play: PhantomData<M>,
}

impl<D, M: PagePlay<D>> Play<(), View<D>> for Look<M> {
    ghost then = { looked M.then };
}

/// A look at a page's word, which the hand keeps in mind.
pub struct LookKept<M> {
    play: PhantomData<M>,
}

impl<D, M: KeepPlay<D>> Play<(), View<D>> for LookKept<M> {
    ghost then = { looked_kept M.then };
}

/// A look whether a page's word is the one that the hand keeps in mind.
pub struct Compare<M> {
    play: PhantomData<M>,
}

impl<D, M: TellPlay<D>> Play<(), View<D>> for Compare<M> {
    ghost then = { compared M.tells };
}

/// A process ends and the next one begins, and all that the hand has looked at is kept.
pub struct Relay<M> {
    play: PhantomData<M>,
}

impl<D, M: TimePlay<D>> Play<(), View<D>> for Relay<M> {
    ghost then = { relayed M.then };
}

/// A put: the page's word names the frame that was reserved last.
pub struct Swap<M> {
    play: PhantomData<M>,
}

impl<D, M: PagePlay<D>> Play<(), View<D>> for Swap<M> {
    ghost then = { swapped M.then };
}

/// A page that was released and is the hand's now.
pub struct Take<M> {
    play: PhantomData<M>,
}

impl<D, M: PagePlay<D>> Play<(), View<D>> for Take<M> {
    ghost then = { took M.then };
}

/// A try of a page's latch.
pub struct Try<M> {
    play: PhantomData<M>,
}

impl<D, M: PagePlay<D>> Play<(), View<D>> for Try<M> {
    ghost then = { tried M.then };
}

/// A page that the hand holds is open again.
pub struct Open<M> {
    play: PhantomData<M>,
}

impl<D, M: PagePlay<D>> Play<(), View<D>> for Open<M> {
    ghost then = { opened M.then };
}

/// A retired page that is released.
pub struct Free<M> {
    play: PhantomData<M>,
}

impl<D, M: SweepPlay<D>> Play<(), View<D>> for Free<M> {
    ghost then = { freed (λ d e. M.then d 1 e) };
}

/// A hand learns what another knows.
pub struct Met<M> {
    play: PhantomData<M>,
}

impl<D, M: MeetPlay<D>> Play<(), View<D>> for Met<M> {
    ghost then = { met M.then };
}
