//! The events of a compression that holds a parent and its children.

ghost use Rattle.std.specs.Prelude.{◌≡◌, ◌<◌, ◌+◌, MatchOption, IfNone};
ghost use Rattle.bl_page.specs.declared.page.Page.{Page};
ghost use Rattle.bl_page.specs.Words.{words_of};
ghost use Rattle.bl_proc_steps.specs.declared.acts.Action.TheVariants as act;
ghost use Rattle.bl_proc_steps.specs.declared.acts.Seen.TheVariants as seen;
ghost use Rattle.bl_proc.specs.declared.kinds.Proc.{Proc};
ghost use Rattle.bl_proc.specs.Processes.{next_of, Takes};
ghost use Rattle.bl_proc_deterministic.specs.Courses.{GoesOn};
ghost use Rattle.bl_store.specs.Hands.{known, IsSameHand, IsSameStamp, HasNoStock, IsStockOf, MayRetire, WasRefused};
ghost use Rattle.bl_index_rule.specs.Observed.{Goes};
ghost use Rattle.bl_index_events.specs.Runs.{Runs, KeepsHand, IsOn, IsSameProcess};

use bl_index_events::{FrameView, Tree};
use bl_index_rule::{PassState, Put, Refused, Retired, Took};
use bl_page::words_from;
use bl_reserve::reserve;
use bl_store::{Hand, Stock};
use crossbeam_utils::Backoff;
use std::sync::Wait;

/// The process latches the page. After a miss, which leaves it as it is, the thread pauses.
pub(crate) fn latch<R: Wait>(tree: &Tree, rt: &R, hand: &mut Hand<PassState>, page: u32)
    requires runs { Runs tree.now hand.old (known hand.old.seat).state }
    requires next { next_of (known hand.old.seat).state ≡ act.Latch page }
    requires course { GoesOn (known hand.old.seat).state seen.Done × GoesOn (known hand.old.seat).state seen.Missed }
    requires stays { Takes (known hand.old.seat).state seen.Missed (known hand.old.seat).state }
    ensures same { KeepsHand hand.old.seat hand.new.seat }
    ensures latched { (next : Proc) → Takes (known hand.old.seat).state seen.Done next → IsOn tree.now.store.layout (known hand.new.seat) next }
    ensures since { IsSameProcess (known hand.old.seat) (known hand.new.seat) }
{
    let backoff = Backoff::new();
    for _ in rt.forever() {
        if tree.try_latch(hand, page) {
            return;
        }
        backoff.snooze();
    }
    unreachable!()
}

/// The process gets the page: its words.
pub(crate) fn words_at(tree: &Tree, hand: &mut Hand<PassState>, page: u32) -> [u64; 32]
    requires runs { Runs tree.now hand.old (known hand.old.seat).state }
    requires next { next_of (known hand.old.seat).state ≡ act.Get page }
    requires course { (c : Page) → GoesOn (known hand.old.seat).state (seen.Words c) }
    ensures same { KeepsHand hand.old.seat hand.new.seat }
    ensures goes { (c : Page) × (result ≡ words_of c) × Goes (seen.Words c) (known hand.old.seat) (known hand.new.seat) }
{
    let glance = tree.look(hand, page);
    let shown = FrameView {
        store: &tree.store,
        glance,
    };
    words_from(&shown, hand)
}

/// The process reserves three frames and puts the page with these words, or is refused.
pub(crate) fn put_first(
    tree: &Tree,
    hand: &mut Hand<PassState>,
    page: u32,
    words: &[u64; 32],
) -> Option<Stock>
    requires runs { Runs tree.now hand.old (known hand.old.seat).state }
    requires next { (c : Page) × (next_of (known hand.old.seat).state ≡ act.Put page c) × (words.now ≡ words_of c) }
    requires course { GoesOn (known hand.old.seat).state seen.Done × GoesOn (known hand.old.seat).state seen.Refused }
    requires empty { HasNoStock hand.old.seat }
    ensures same { IsSameHand hand.old.seat hand.new.seat × IsSameStamp hand.old.seat hand.new.seat }
    ensures done { MatchOption result (HasNoStock hand.new.seat × Goes seen.Refused (known hand.old.seat) (known hand.new.seat)) (λ s.
        IsStockOf hand.new.seat s × (s.count ≡ 2) × MayRetire hand.new.seat × Goes seen.Done (known hand.old.seat) (known hand.new.seat)) }
    ensures asked { IfNone result (WasRefused hand.new.seat 0 3) }
{
    match reserve::<_, _, _, Took, Refused>(&tree.store, hand, 0, 3) {
        Ok(stock) => {
            let mut stock = stock;
            tree.store.put::<Put>(hand, page, words, &mut stock);
            Some(stock)
        }
        Err(_) => None,
    }
}

/// The process puts the page with these words, in a frame that it has reserved.
pub(crate) fn put_next(
    tree: &Tree,
    hand: &mut Hand<PassState>,
    page: u32,
    words: &[u64; 32],
    stock: &mut Stock,
)
    requires runs { Runs tree.now hand.old (known hand.old.seat).state }
    requires next { (c : Page) × (next_of (known hand.old.seat).state ≡ act.Put page c) × (words.now ≡ words_of c) }
    requires course { GoesOn (known hand.old.seat).state seen.Done }
    requires stock { IsStockOf hand.old.seat stock.old × (0 < stock.old.count) × MayRetire hand.old.seat }
    ensures same { IsSameHand hand.old.seat hand.new.seat × IsSameStamp hand.old.seat hand.new.seat }
    ensures stock { IsStockOf hand.new.seat stock.new × (stock.new.count + 1 ≡ stock.old.count) × MayRetire hand.new.seat }
    ensures goes { Goes seen.Done (known hand.old.seat) (known hand.new.seat) }
{
    tree.store.put::<Put>(hand, page, words, stock);
}

/// The process retires the page, with the leave that it has from its reservation.
pub(crate) fn retire(tree: &Tree, hand: &mut Hand<PassState>, page: u32)
    requires runs { Runs tree.now hand.old (known hand.old.seat).state }
    requires next { next_of (known hand.old.seat).state ≡ act.Retire page }
    requires course { GoesOn (known hand.old.seat).state seen.Done }
    requires leave { MayRetire hand.old.seat }
    requires empty { HasNoStock hand.old.seat }
    ensures same { IsSameHand hand.old.seat hand.new.seat × IsSameStamp hand.old.seat hand.new.seat }
    ensures empty { HasNoStock hand.new.seat }
    ensures goes { Goes seen.Done (known hand.old.seat) (known hand.new.seat) }
{
    tree.store.retire::<Retired>(hand, page);
}
