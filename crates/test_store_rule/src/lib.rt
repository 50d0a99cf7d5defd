//! A small rule over a store of pages, for tests of the store alone: each hand holds one page or none, and all words
//! of a page are one number.
//!
//! It promises to its tests that a reader never sees a page of which one word is of another put.
#![tactic(auto)]

ghost use Rattle.std.specs.Prelude.{◌≡◌, ◌+◌, ◌<◌, ◌≤◌, ℕ, true, false, List, [], All, Some, None, length, vec_capacity, IfOk, IfErr};
ghost use mathlib.Core.Option.{some};
ghost use lib.ListN.{get_elem?};
ghost use Rattle.bl_store.specs.Opening.{IsDealt};
ghost use Rattle.bl_store.specs.Closing.{HasEach};
ghost use Rattle.bl_store.specs.Hands.{known, IsOf, IsIdle, IsRunning, IsSameHand, IsSameStamp, IsSameStock, HasNoStock, HasSeen, IsStockOf, MayRetire};
ghost use Rattle.bl_store_rule.specs.Pages.{Pages};
ghost use Rattle.test_store_rule.specs.Holding.{AllSame, Fits, IsApart, IsFresh, holding, same_apart, same_at_time, saw, took, tried, lost, lost_at_time, same_after};

use bl_reserve::NoRoom;
use bl_store::{Glance, Hand, Stock, Store};
use bl_store_rule::{MeetPlay, PagePlay, PageRule, SweepPlay, TimePlay};
use std::alloc::{AllocError, Global};

/// What a hand knows: the page that it holds.
#[derive(Drop)]
pub struct Mine {
    pub held: Option<u32>,
}

/// The rule.
pub struct OnePage;

impl PageRule<Mine> for OnePage {
    ghost holds = { Fits };

    ghost ticks = { λ s r. record { whole = r.whole; fixed = r.fixed; held = r.held; known = r.known } };

    ghost gone = { holding None };
}

/// A store under the rule.
pub type Held = Store<Mine, OnePage>;

struct Still;

impl TimePlay<Mine> for Still {
    ghost then = { same_at_time };
}

impl SweepPlay<Mine> for Still {
    ghost then = { same_after };
}

struct Apart;

impl MeetPlay<Mine> for Apart {
    ghost then = { same_apart };
}

struct Gone;

impl TimePlay<Mine> for Gone {
    ghost then = { lost_at_time };
}

impl PagePlay<Mine> for Gone {
    ghost then = { lost };
}

struct Saw;

impl PagePlay<Mine> for Saw {
    ghost then = { saw };
}

struct Took;

impl PagePlay<Mine> for Took {
    ghost then = { took };
}

struct Tried;

impl PagePlay<Mine> for Tried {
    ghost then = { tried };
}

/// A store of so many pages for so many passes, and its hands. All words of pages 0 and 1 are 1, the others are released.
pub fn hands(alloc: Global, pages: u32, passes: u32) -> Result<(Held, Vec<Hand<Mine>>), AllocError>
    requires pages { (4 ≤ pages) × (pages ≤ 65536) }
    requires passes { (1 ≤ passes) × (passes ≤ 64) }
    ensures sizes { IfOk result (λ t. (t.0.layout.pages ≡ pages) × (t.0.layout.passes ≡ passes)) }
    ensures dealt { IfOk result (λ t. IsDealt t.0.table.shared.table_id t.0.layout (holding None) passes t.1.items) }
    ensures fresh { IfOk result (λ t. All (IsFresh t.0.table.shared.table_id t.0.layout) t.1.items) }
{
    let mut first = Vec::with_capacity(alloc, pages as usize)?;
    for page in 0..pages {
        first.push(if page < 2 { [1u64; 32] } else { [0u64; 32] })?;
    }
    let known = Mine { held: None };
    let (store, hands) = Store::new(alloc, first, passes, &known)?;
    Ok((store, hands))
}

/// The same for two passes.
pub fn two_hands(alloc: Global, pages: u32) -> Result<(Held, Hand<Mine>, Hand<Mine>), AllocError>
    requires { (4 ≤ pages) × (pages ≤ 65536) }
    ensures sizes { IfOk result (λ t. (t.0.layout.pages ≡ pages) × (t.0.layout.passes ≡ 2)) }
    ensures first { IfOk result (λ t. IsFresh t.0.table.shared.table_id t.0.layout t.1 × (t.1.number ≡ 0)) }
    ensures second { IfOk result (λ t. IsFresh t.0.table.shared.table_id t.0.layout t.2 × (t.2.number ≡ 1)) }
{
    let (store, mut hands) = hands(alloc, pages, 2)?;
    let Some(two) = hands.pop() else {
        unreachable!()
    };
    let Some(one) = hands.pop() else {
        unreachable!()
    };
    Ok((store, one, two))
}

/// The words of all pages at the end, of each page all of one put.
pub fn shut(store: Held, hands: Vec<Hand<Mine>>, room: Vec<[u64; 32]>) -> Vec<[u64; 32]>
    requires own { (k : ℕ) (hand : Hand Mine) → get_elem? hands.items k ≡ some hand
        → IsOf store.table.shared.table_id store.layout hand.seat × IsIdle hand.seat }
    requires all { HasEach store.layout.passes hands.items }
    requires room { (room.items ≡ []) × (store.layout.pages ≤ vec_capacity room) }
    ensures count { length result.items ≡ store.layout.pages }
    ensures whole { (x : ℕ) (words : List ℕ) → get_elem? result.items x ≡ some words → AllSame words }
{
    store.close(hands, room)
}

/// A hand meets another: they hold no page together.
pub fn meet(store: &Held, hand: &mut Hand<Mine>, other: &mut Hand<Mine>)
    requires own { IsOf store.now.table.shared.table_id store.now.layout hand.old.seat × IsOf store.now.table.shared.table_id store.now.layout other.old.seat }
    requires idle { IsIdle other.old.seat × HasNoStock other.old.seat }
    ensures same { IsSameHand hand.old.seat hand.new.seat × IsSameStamp hand.old.seat hand.new.seat
        × IsSameStock hand.old.seat hand.new.seat × (known hand.new.seat ≡ known hand.old.seat) }
    ensures other { IsSameHand other.old.seat other.new.seat × IsIdle other.new.seat × HasNoStock other.new.seat
        × (known other.new.seat ≡ known other.old.seat) }
    ensures apart { IsApart (known hand.new.seat) (known other.new.seat) }
{
    store.meet::<Apart>(hand, other);
}

/// Begins a process.
pub fn begin(store: &Held, hand: &mut Hand<Mine>)
    requires own { IsOf store.now.table.shared.table_id store.now.layout hand.old.seat }
    requires idle { IsIdle hand.old.seat }
    ensures same { IsSameHand hand.old.seat hand.new.seat × IsSameStock hand.old.seat hand.new.seat × (known hand.new.seat ≡ known hand.old.seat) }
    ensures running { IsRunning hand.new.seat }
{
    store.begin::<Still>(hand);
}

/// Ends a process.
pub fn end(store: &Held, hand: &mut Hand<Mine>)
    requires own { IsOf store.now.table.shared.table_id store.now.layout hand.old.seat }
    requires running { IsRunning hand.old.seat }
    requires empty { (known hand.old.seat).held ≡ None }
    ensures same { IsSameHand hand.old.seat hand.new.seat × IsSameStock hand.old.seat hand.new.seat × (known hand.new.seat ≡ known hand.old.seat) }
    ensures idle { IsIdle hand.new.seat }
{
    store.end::<Still>(hand);
}

/// The words of page 0 or 1, all of one put.
pub fn look(store: &Held, hand: &mut Hand<Mine>, page: u32) -> [u64; 32]
    requires own { IsOf store.now.table.shared.table_id store.now.layout hand.old.seat }
    requires running { IsRunning hand.old.seat }
    requires page { page < 2 }
    ensures same { IsSameHand hand.old.seat hand.new.seat × IsSameStamp hand.old.seat hand.new.seat
        × IsSameStock hand.old.seat hand.new.seat × (known hand.new.seat ≡ known hand.old.seat) }
    ensures whole { AllSame result }
{
    store.get::<Saw>(hand, page)
}

/// Looks at page 0 or 1, whose words are all of one put, without a copy of them. Until the hand's next look
/// `Store::word` gives each of them.
pub fn glance(store: &Held, hand: &mut Hand<Mine>, page: u32) -> Option<Glance>
    requires own { IsOf store.now.table.shared.table_id store.now.layout hand.old.seat }
    requires running { IsRunning hand.old.seat }
    requires page { page < 2 }
    ensures same { IsSameHand hand.old.seat hand.new.seat × IsSameStamp hand.old.seat hand.new.seat
        × IsSameStock hand.old.seat hand.new.seat × (known hand.new.seat ≡ known hand.old.seat) }
    ensures whole { (words : List ℕ) × HasSeen result hand.new.seat words × AllSame words }
{
    store.glance::<Saw>(hand, page)
}

/// Latches page 0 or 1, where it is open.
pub fn latch(store: &Held, hand: &mut Hand<Mine>, page: u32) -> bool
    requires own { IsOf store.now.table.shared.table_id store.now.layout hand.old.seat }
    requires page { page < 2 }
    requires empty { (known hand.old.seat).held ≡ None }
    ensures same { IsSameHand hand.old.seat hand.new.seat × IsSameStamp hand.old.seat hand.new.seat × IsSameStock hand.old.seat hand.new.seat }
    ensures yes { result ≡ true → known hand.new.seat ≡ holding (Some page) }
    ensures no { result ≡ false → known hand.new.seat ≡ known hand.old.seat }
{
    store.try_latch::<Tried>(hand, page)
}

/// Opens the page that the hand holds.
pub fn open(store: &Held, hand: &mut Hand<Mine>, page: u32)
    requires own { IsOf store.now.table.shared.table_id store.now.layout hand.old.seat }
    requires page { page < store.now.layout.pages }
    requires holds { (known hand.old.seat).held ≡ Some page }
    ensures same { IsSameHand hand.old.seat hand.new.seat × IsSameStamp hand.old.seat hand.new.seat × IsSameStock hand.old.seat hand.new.seat }
    ensures empty { known hand.new.seat ≡ holding None }
{
    store.open::<Gone>(hand, page);
}

/// Reserves a frame, and a page where one is asked for.
pub fn reserve(
    store: &Held,
    hand: &mut Hand<Mine>,
    pages: u32,
    frames: u32,
) -> Result<Stock, NoRoom>
    requires own { IsOf store.now.table.shared.table_id store.now.layout hand.old.seat }
    requires few { (pages ≤ 1) × (frames ≤ 3) }
    requires empty { HasNoStock hand.old.seat }
    requires none { pages ≡ 1 → (known hand.old.seat).held ≡ None }
    ensures same { IsSameHand hand.old.seat hand.new.seat × IsSameStamp hand.old.seat hand.new.seat }
    ensures stock { IfOk result (λ s. IsStockOf hand.new.seat s × (s.count ≡ frames) × MayRetire hand.new.seat) }
    ensures frame { pages ≡ 0 → IfOk result (λ s. known hand.new.seat ≡ known hand.old.seat) }
    ensures page { pages ≡ 1 → IfOk result (λ s. (x : ℕ) × (s.page ≡ Some x) × (0 < x) × (x < store.now.layout.pages)
        × (known hand.new.seat ≡ holding (Some x))) }
    ensures refused { IfErr result (λ _. HasNoStock hand.new.seat × (known hand.new.seat ≡ known hand.old.seat)) }
{
    bl_reserve::reserve::<_, _, _, Took, Still>(store, hand, pages, frames)
}

/// Gives the page that the hand holds one word, 32 times.
pub fn fill(store: &Held, hand: &mut Hand<Mine>, page: u32, word: u64, stock: &mut Stock)
    requires own { IsOf store.now.table.shared.table_id store.now.layout hand.old.seat }
    requires page { page < store.now.layout.pages }
    requires holds { (known hand.old.seat).held ≡ Some page }
    requires stock { IsStockOf hand.old.seat stock.old × (0 < stock.old.count) }
    ensures same { IsSameHand hand.old.seat hand.new.seat × IsSameStamp hand.old.seat hand.new.seat
        × (known hand.new.seat ≡ known hand.old.seat) × (hand.new.seat.me.0.retires ≡ hand.old.seat.me.0.retires) }
    ensures stock { IsStockOf hand.new.seat stock.new × (stock.new.count + 1 ≡ stock.old.count) × (stock.new.page ≡ stock.old.page) }
{
    store.put::<Saw>(hand, page, &[word; 32], stock);
}

/// Retires the page that the hand holds, which is not page 0 or 1.
pub fn retire(store: &Held, hand: &mut Hand<Mine>, page: u32)
    requires own { IsOf store.now.table.shared.table_id store.now.layout hand.old.seat }
    requires page { (2 ≤ page) × (page < store.now.layout.pages) }
    requires leave { MayRetire hand.old.seat }
    requires holds { (known hand.old.seat).held ≡ Some page }
    ensures same { IsSameHand hand.old.seat hand.new.seat × IsSameStamp hand.old.seat hand.new.seat }
    ensures stock { (hand.new.seat.me.0.stock ≡ hand.old.seat.me.0.stock) × (hand.new.seat.me.0.puts ≡ hand.old.seat.me.0.puts) }
    ensures empty { known hand.new.seat ≡ holding None }
{
    store.retire::<Gone>(hand, page);
}

/// Releases what no process can read any more.
pub fn sweep(store: &Held, hand: &mut Hand<Mine>) -> u32
    requires own { IsOf store.now.table.shared.table_id store.now.layout hand.old.seat }
    ensures same { IsSameHand hand.old.seat hand.new.seat × IsSameStamp hand.old.seat hand.new.seat
        × IsSameStock hand.old.seat hand.new.seat × (known hand.new.seat ≡ known hand.old.seat) }
{
    store.sweep::<Still>(hand)
}

/// Gives page 0 or 1 one word, 32 times, where it can be latched and a frame is free. Returns whether it did.
pub fn change(store: &Held, hand: &mut Hand<Mine>, page: u32, word: u64) -> bool
    requires own { IsOf store.now.table.shared.table_id store.now.layout hand.old.seat }
    requires page { page < 2 }
    requires empty { (known hand.old.seat ≡ holding None) × HasNoStock hand.old.seat }
    ensures same { IsSameHand hand.old.seat hand.new.seat × IsSameStamp hand.old.seat hand.new.seat }
    ensures empty { (known hand.new.seat ≡ holding None) × HasNoStock hand.new.seat }
{
    if !latch(store, hand, page) {
        return false;
    }
    let Ok(mut stock) = reserve(store, hand, 0, 1) else {
        open(store, hand, page);
        return false;
    };
    fill(store, hand, page, word, &mut stock);
    open(store, hand, page);
    true
}

/// The words of page 0 or 1, as a process of their own sees them.
pub fn read_once(store: &Held, hand: &mut Hand<Mine>, page: u32) -> [u64; 32]
    requires own { IsOf store.now.table.shared.table_id store.now.layout hand.old.seat }
    requires page { page < 2 }
    requires idle { IsIdle hand.old.seat }
    requires empty { (known hand.old.seat ≡ holding None) × HasNoStock hand.old.seat }
    ensures same { IsSameHand hand.old.seat hand.new.seat × IsIdle hand.new.seat }
    ensures empty { (known hand.new.seat ≡ holding None) × HasNoStock hand.new.seat }
    ensures whole { AllSame result }
{
    begin(store, hand);
    let words = look(store, hand, page);
    end(store, hand);
    words
}
