//! Steps of a writer: it latches, puts, takes, opens and retires pages.

ghost use Rattle.std.specs.Prelude.{◌≡◌, ◌≢◌, ◌+◌, ◌<◌, ◌≤◌, None, Some};
ghost use Rattle.bl_proc_steps.specs.declared.acts.Action.TheVariants as act;
ghost use Rattle.bl_proc_steps.specs.declared.acts.Seen.{Seen as SeenIs};
ghost use Rattle.bl_proc_steps.specs.declared.acts.Seen.TheVariants as seen;
ghost use Rattle.bl_store.specs.Hands.{known, IsSameHand, IsSameStamp, IsSameStock, HasNoStock, IsStockOf, MayRetire};
ghost use Rattle.bl_index_events.specs.Runs.{Runs, Moves, HasReserved, IsAfter};
ghost use Rattle.bl_index_events.specs.Rooms.{TellsRoom};

use crate::kinds::Kind;
use crate::pausing::Pause;
use crate::tree::Tree;
use bl_index_rule::{Opened, PassState, Put, Refused, Retired, Took, Tried};
use bl_page::Page;
use bl_proc::{Action, Seen};
use bl_reserve::reserve;
use bl_store::{Hand, Stock};

/// What a step came to.
pub enum Stepped {
    /// The process goes on, with what it has reserved.
    On(Option<Stock>),
    /// It is to end.
    AtEnd,
}

impl Tree {
    /// The process tries to latch the page. After a miss the thread pauses.
    #[inline(never)]
    fn latch<P: Kind, B: Pause>(
        &self,
        hand: &mut Hand<PassState>,
        process: &mut P,
        page: u32,
        backoff: &B,
    )
        requires runs { Runs self.now hand.old (P.proc_of process.old) }
        requires next { (P.answer_of process.old ≡ None) × (P.next_of process.old ≡ act.Latch page) }
        ensures same { IsSameHand hand.old.seat hand.new.seat × IsSameStamp hand.old.seat hand.new.seat }
        ensures runs { Runs self.now hand.new (P.proc_of process.new) }
        ensures moves { Moves (known hand.old.seat) (known hand.new.seat) }
        ensures takes { (what : SeenIs) × P.Takes process.old what process.new × TellsRoom hand.old.seat hand.new.seat (P.proc_of process.old) what }
        ensures stock { IsSameStock hand.old.seat hand.new.seat }
    {
        if self.store.try_latch::<Tried>(hand, page) {
            backoff.reset();
            process.took(Seen::Done);
        } else {
            backoff.pause();
            process.took(Seen::Missed);
        }
    }

    /// The process opens the page.
    #[inline(never)]
    fn open_page<P: Kind>(&self, hand: &mut Hand<PassState>, process: &mut P, page: u32)
        requires runs { Runs self.now hand.old (P.proc_of process.old) }
        requires next { (P.answer_of process.old ≡ None) × (P.next_of process.old ≡ act.Open page) }
        ensures same { IsSameHand hand.old.seat hand.new.seat × IsSameStamp hand.old.seat hand.new.seat }
        ensures runs { Runs self.now hand.new (P.proc_of process.new) }
        ensures moves { Moves (known hand.old.seat) (known hand.new.seat) }
        ensures takes { (what : SeenIs) × P.Takes process.old what process.new × TellsRoom hand.old.seat hand.new.seat (P.proc_of process.old) what }
        ensures stock { IsSameStock hand.old.seat hand.new.seat }
    {
        self.store.open::<Opened>(hand, page);
        process.took(Seen::Done);
    }

    /// The process retires the page, with the leave that it has from its reservation.
    #[inline(never)]
    fn retire_page<P: Kind>(&self, hand: &mut Hand<PassState>, process: &mut P, page: u32)
        requires runs { Runs self.now hand.old (P.proc_of process.old) }
        requires next { (P.answer_of process.old ≡ None) × (P.next_of process.old ≡ act.Retire page) }
        requires leave { MayRetire hand.old.seat }
        requires empty { HasNoStock hand.old.seat }
        ensures same { IsSameHand hand.old.seat hand.new.seat × IsSameStamp hand.old.seat hand.new.seat }
        ensures runs { Runs self.now hand.new (P.proc_of process.new) }
        ensures moves { Moves (known hand.old.seat) (known hand.new.seat) }
        ensures takes { (what : SeenIs) × P.Takes process.old what process.new × TellsRoom hand.old.seat hand.new.seat (P.proc_of process.old) what }
        ensures stock { HasNoStock hand.new.seat }
    {
        self.store.retire::<Retired>(hand, page);
        process.took(Seen::Done);
    }

    /// The process puts the page, with a frame of the stock.
    fn put_with<P: Kind>(
        &self,
        hand: &mut Hand<PassState>,
        process: &mut P,
        page: u32,
        contents: &Page,
        stock: Stock,
    ) -> Stock
        requires runs { Runs self.now hand.old (P.proc_of process.old) }
        requires next { (P.answer_of process.old ≡ None) × (P.next_of process.old ≡ act.Put page contents.now) }
        requires stock { IsStockOf hand.old.seat stock × (0 < stock.count) × MayRetire hand.old.seat }
        ensures same { IsSameHand hand.old.seat hand.new.seat × IsSameStamp hand.old.seat hand.new.seat }
        ensures runs { Runs self.now hand.new (P.proc_of process.new) }
        ensures moves { Moves (known hand.old.seat) (known hand.new.seat) }
        ensures takes { P.Takes process.old seen.Done process.new }
        ensures stock { IsStockOf hand.new.seat result × (result.count + 1 ≡ stock.count) × MayRetire hand.new.seat }
    {
        let mut stock = stock;
        self.store
            .put::<Put>(hand, page, &contents.to_words(), &mut stock);
        process.took(Seen::Done);
        stock
    }

    /// The process reserves so many frames and puts the page with the first of them, or is refused.
    fn put_first<P: Kind>(
        &self,
        hand: &mut Hand<PassState>,
        process: &mut P,
        page: u32,
        contents: &Page,
        frames: u32,
    ) -> Option<Stock>
        requires runs { Runs self.now hand.old (P.proc_of process.old) }
        requires next { (P.answer_of process.old ≡ None) × (P.next_of process.old ≡ act.Put page contents.now) }
        requires needs { (P.needs_of process.old ≡ Some (0, frames)) × (0 < frames) × (frames ≤ 3) }
        requires empty { HasNoStock hand.old.seat }
        ensures same { IsSameHand hand.old.seat hand.new.seat × IsSameStamp hand.old.seat hand.new.seat }
        ensures runs { Runs self.now hand.new (P.proc_of process.new) }
        ensures moves { Moves (known hand.old.seat) (known hand.new.seat) }
        ensures takes { (what : SeenIs) × P.Takes process.old what process.new × TellsRoom hand.old.seat hand.new.seat (P.proc_of process.old) what }
        ensures stock { HasReserved hand.new.seat result (P.proc_of process.new) }
    {
        match reserve::<_, _, _, Took, Refused>(&self.store, hand, 0, frames) {
            Ok(stock) => Some(self.put_with(hand, process, page, contents, stock)),
            Err(_) => {
                process.took(Seen::Refused);
                None
            }
        }
    }

    /// The process reserves a page and two frames, or is refused.
    #[inline(never)]
    fn take<P: Kind>(&self, hand: &mut Hand<PassState>, process: &mut P) -> Option<Stock>
        requires runs { Runs self.now hand.old (P.proc_of process.old) }
        requires next { (P.answer_of process.old ≡ None) × (P.next_of process.old ≡ act.Take) }
        requires needs { P.needs_of process.old ≡ Some (1, 2) }
        requires empty { HasNoStock hand.old.seat }
        ensures same { IsSameHand hand.old.seat hand.new.seat × IsSameStamp hand.old.seat hand.new.seat }
        ensures runs { Runs self.now hand.new (P.proc_of process.new) }
        ensures moves { Moves (known hand.old.seat) (known hand.new.seat) }
        ensures takes { (what : SeenIs) × P.Takes process.old what process.new × TellsRoom hand.old.seat hand.new.seat (P.proc_of process.old) what }
        ensures stock { HasReserved hand.new.seat result (P.proc_of process.new) }
    {
        match reserve::<_, _, _, Took, Refused>(&self.store, hand, 1, 2) {
            Ok(stock) => match stock.page() {
                Some(page) => {
                    process.took(Seen::Took(page));
                    Some(stock)
                }
                None => unreachable!(),
            },
            Err(_) => {
                process.took(Seen::Refused);
                None
            }
        }
    }

    /// The process puts the page, with what it has reserved or reserves now.
    #[inline(never)]
    fn put<P: Kind>(
        &self,
        hand: &mut Hand<PassState>,
        process: &mut P,
        page: u32,
        contents: &Page,
        held: Option<Stock>,
    ) -> Option<Stock>
        requires runs { Runs self.now hand.old (P.proc_of process.old) }
        requires next { (P.answer_of process.old ≡ None) × (P.next_of process.old ≡ act.Put page contents.now) }
        requires stock { HasReserved hand.old.seat held (P.proc_of process.old) }
        ensures same { IsSameHand hand.old.seat hand.new.seat × IsSameStamp hand.old.seat hand.new.seat }
        ensures runs { Runs self.now hand.new (P.proc_of process.new) }
        ensures moves { Moves (known hand.old.seat) (known hand.new.seat) }
        ensures takes { (what : SeenIs) × P.Takes process.old what process.new × TellsRoom hand.old.seat hand.new.seat (P.proc_of process.old) what }
        ensures stock { HasReserved hand.new.seat result (P.proc_of process.new) }
    {
        if let Some((_, frames)) = process.needs() {
            return self.put_first(hand, process, page, contents, frames);
        }
        match held {
            Some(stock) => Some(self.put_with(hand, process, page, contents, stock)),
            None => unreachable!(),
        }
    }

    /// The next action of the process, one event, unless it is to end. It waits for nothing.
    pub fn step<P: Kind, B: Pause>(
        &self,
        hand: &mut Hand<PassState>,
        process: &mut P,
        held: Option<Stock>,
        backoff: &B,
    ) -> Stepped
        requires runs { Runs self.now hand.old (P.proc_of process.old) }
        requires going { (P.answer_of process.old ≡ None) × (P.next_of process.old ≢ act.Begin) }
        requires stock { HasReserved hand.old.seat held (P.proc_of process.old) }
        ensures same { IsSameHand hand.old.seat hand.new.seat × IsSameStamp hand.old.seat hand.new.seat }
        ensures after { IsAfter self.now.store.layout hand.old.seat hand.new.seat (P.proc_of process.old) (P.proc_of process.new) result }
    {
        match process.next() {
            Action::Get(page) => {
                self.read(hand, process, page);
                Stepped::On(held)
            }
            Action::Latch(page) => {
                self.latch(hand, process, page, backoff);
                Stepped::On(held)
            }
            Action::Open(page) => {
                self.open_page(hand, process, page);
                Stepped::On(held)
            }
            Action::Put(page, contents) => {
                Stepped::On(self.put(hand, process, page, &contents, held))
            }
            Action::Take => Stepped::On(self.take(hand, process)),
            Action::Retire(page) => {
                self.retire_page(hand, process, page);
                Stepped::On(None)
            }
            Action::End => Stepped::AtEnd,
            _ => unreachable!(),
        }
    }
}
