//! What a hand knows: the store's own part of it, and the user's. No value of these types is made while a program runs.
use crate::rule::PageRule;
use atomic_table::TableRule;
use bl_layout::Layout;
use std::collections::LinkedList;
use std::marker::PhantomData;
use std::snapshot::Snapshot;

/// Whether a hand is in a process, by its process word.
pub enum Stamp {
    Out,
    /// It has read the clock.
    Clocked(u64),
    /// The clock when its process word was stored.
    In(u64),
}

/// The frame that a hand reads, and its words.
pub enum Reading {
    Nowhere,
    At(u32, LinkedList<u64>),
}

/// A frame that a hand keeps in mind, which it saw as the contents of a page since that put of it.
pub struct Look {
    pub page: u32,
    pub frame: u32,
    pub version: u64,
}

/// A frame that a hand has reserved, and the words that it has written there so far.
pub struct Draft {
    pub frame: u32,
    pub words: LinkedList<u64>,
}

/// The frame that a hand took from a page, and the time that it drew since.
pub enum Dropping {
    Empty,
    Dropped(u32),
    Timed(u32, u64),
}

/// The page that a hand has retired at a time, but whose owner word does not show it yet.
pub enum Sealing {
    Unsealed,
    Sealed(u32, u64),
}

/// A hand outside a process that another seat has taken in, and what it knows.
pub struct Joined<D> {
    pub number: u32,
    pub known: D,
}

/// A time, and how many process words show that their hands are idle or began no earlier.
pub enum Sweep {
    Still,
    Over(u64, u32),
}

/// What a reservation asks for.
pub struct Wanted {
    pub pages: u32,
    pub frames: u32,
}

/// What a seat at the table knows. The hand with this number deals out the numbers from the next one up to `upto`.
/// A seat whose hand another seat has taken in has a number that no hand has.
pub struct View<D> {
    pub layout: Layout,
    pub number: u32,
    pub upto: u32,
    pub stamp: Stamp,
    pub reading: Reading,
    /// What it keeps in mind, the last one first.
    pub kept: LinkedList<Look>,
    /// The frames that it has reserved, the last one first.
    pub stock: LinkedList<Draft>,
    pub dropping: Dropping,
    pub sealing: Sealing,
    pub sweep: Sweep,
    /// How many ticks of the clock the hand has left for puts.
    pub puts: u32,
    /// How many it has left for a retirement.
    pub retires: u32,
    /// How many pages and frames it has released.
    pub releases: u64,
    /// The owner words that its last reservation found taken, and the clock's word where that was found at its end.
    pub seen: LinkedList<u64>,
    /// The frames that its last reservation got, also those that it gave back since.
    pub got: LinkedList<u32>,
    /// What its last refused reservation asked for, if one was refused since its process began.
    pub refused: Option<Wanted>,
    pub known: D,
    /// The hands that it has taken in, the last one first.
    pub joined: LinkedList<Joined<D>>,
}

/// What a store is made for: its layout, and what each of its hands knows at first.
#[derive(Drop)]
pub struct Ground<D> {
    pub layout: Layout,
    pub known: Snapshot<D>,
}

/// The store's rule of the table, over the user's rule of the pages.
pub struct Framed<R> {
    rule: PhantomData<R>,
}

impl<D, R: PageRule<D>> TableRule<(), View<D>, Ground<D>> for Framed<R> {
    ghost use Rattle.bl_store_rule.specs.Frames.{Kept, starting};

    ghost holds = { λ ground. Kept ground.layout ground.known.value R.holds };

    ghost first = { λ ground. starting ground.layout ground.known.value };
}
