//! One hand learns of another: the other's seat is taken in for the time of a load, and given back.
ghost use Rattle.std.specs.Prelude.{◌≡◌};
ghost use Rattle.bl_store_rule.specs.Pages.{Meets};
ghost use Rattle.bl_store.specs.Hands.{known, IsIdle, IsSameHand, IsSameStamp, IsSameStock, HasNoStock};

use crate::store::{Hand, Store};
use atomic_table::{Join, Split};
use bl_store_rule::plays::Met;
use bl_store_rule::{MeetPlay, PageRule, View};
use std::alloc::Allocator;
use std::marker::PhantomData;
use std::mem;

// A seat that has no hand yet.
pub(crate) struct Blank;

impl<D> Split<View<D>> for Blank {
    ghost use Rattle.bl_store_rule.specs.Frames.{without_hand};

    ghost left = { λ v. v };

    ghost right = { without_hand };
}

// The second seat's hand goes to the first.
pub(crate) struct TakeIn<R> {
    rule: PhantomData<R>,
}

impl<D, R: PageRule<D>> Join<View<D>> for TakeIn<R> {
    ghost use Rattle.bl_store_rule.specs.Frames.{spent_view, taking_in};

    ghost both = { taking_in };

    ghost spent = { spent_view R.gone };
}

// The hand that was taken in last has a seat of its own again.
pub(crate) struct GiveBack;

impl<D> Split<View<D>> for GiveBack {
    ghost use Rattle.bl_store_rule.specs.Frames.{giving_back, given_back};

    ghost left = { giving_back };

    ghost right = { given_back };
}

impl<D, R: PageRule<D>, A: Allocator> Store<D, R, A> {
    ghost use Rattle.bl_store.specs.Owners.{IsHandOf};

    /// A hand learns of another, which is outside a process and has nothing reserved. It is no event, and the other
    /// hand knows what it knew.
    pub fn meet<M: MeetPlay<D>>(&self, hand: &mut Hand<D>, other: &mut Hand<D>)
        requires own { IsHandOf self.now hand.old × IsHandOf self.now other.old }
        requires other { IsIdle other.old.seat × HasNoStock other.old.seat }
        requires rule { Meets R.holds self.now.layout hand.old.number (known hand.old.seat) other.old.number (known other.old.seat) M.then }
        ensures same { IsSameHand hand.old.seat hand.new.seat × IsSameStamp hand.old.seat hand.new.seat × IsSameStock hand.old.seat hand.new.seat }
        ensures other { IsSameHand other.old.seat other.new.seat × IsIdle other.new.seat × HasNoStock other.new.seat
            × (known other.new.seat ≡ known other.old.seat) }
        ensures observed { M.then (known hand.old.seat) (known other.old.seat) (known hand.new.seat) }
    {
        let shared = &self.table.shared;
        let blank = shared.split_seat::<Blank>(&mut hand.seat);
        let theirs = mem::replace(&mut other.seat, blank);
        shared.join_seat::<TakeIn<R>>(&mut hand.seat, theirs);
        shared.load::<Met<M>>(&mut hand.seat, self.layout.clock_cell());
        other.seat = shared.split_seat::<GiveBack>(&mut hand.seat);
    }
}
