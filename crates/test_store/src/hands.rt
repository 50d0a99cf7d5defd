//! Hands of a store whose pages each have one word throughout.

ghost use Rattle.test_store_rule.specs.Holding.{IsFresh};

use bl_store::NoRoom;
use bl_store_events::tied;
use std::test::Fail;
use std::thread;
use test_store_rule::{
    begin, change, end, fill, glance, latch, look, meet, open, read_once, reserve, retire, shut,
    sweep, two_hands,
};

// Hand 0 latches page 1, and hand 1's latch is refused. What hand 0 puts then, a thread with hand 1 gets.
#[test]
fn latches_refuse_a_second_hand(rt: HostRuntime) -> Result<(), Fail> {
    let (store, mut one, mut two) = two_hands(rt.alloc(), 8)?;
    assert!(rt; one.number() == 0 && two.number() == 1);
    assert!(rt; latch(&store, &mut one, 1));
    let latched = latch(&store, &mut two, 1);
    assert!(rt; !latched);
    let Ok(mut stock) = reserve(&store, &mut one, 0, 1) else {
        assert!(rt; false);
        return Ok(());
    };
    assert!(rt; stock.frames() == 1 && stock.page().is_none());
    fill(&store, &mut one, 1, 7, &mut stock);
    open(&store, &mut one, 1);
    let reader = move || -> [u64; 32]
        requires { IsFresh store.table.shared.table_id store.layout two }
    { read_once(&store, &mut two, 1) };
    let (words, ()) = thread::join(&rt, reader, || ());
    assert!(rt; words == [7; 32]);
    Ok(())
}

// What a hand has glanced at stays as it was, also where another hand puts the page, until the hand's next glance.
#[test]
fn glances_show_one_put(rt: HostRuntime) -> Result<(), Fail> {
    let (store, mut one, mut two) = two_hands(rt.alloc(), 4)?;
    begin(&store, &mut one);
    let Some(first) = glance(&store, &mut one, 1) else {
        assert!(rt; false);
        return Ok(());
    };
    let changed = change(&store, &mut two, 1, 7);
    let mut first = first.having(0);
    let least = store.word(&mut one, &mut first, 0);
    let last = store.word(&mut one, &mut first, 31);
    assert!(rt; changed && least == 1 && last == 1 && first.used() == 2);
    let Some(second) = glance(&store, &mut one, 1) else {
        assert!(rt; false);
        return Ok(());
    };
    let mut second = second.having(0);
    let least = store.word(&mut one, &mut second, 0);
    let last = store.word(&mut one, &mut second, 31);
    assert!(rt; least == 7 && last == 7 && second.used() == 2);
    end(&store, &mut one);
    Ok(())
}

// A page that nobody links is retired, and a sweep releases it, and nothing else.
#[test]
fn sweeps_release_a_retired_page(rt: HostRuntime) -> Result<(), Fail> {
    let (store, mut one, _two) = two_hands(rt.alloc(), 8)?;
    begin(&store, &mut one);
    let Ok(mut stock) = reserve(&store, &mut one, 1, 1) else {
        assert!(rt; false);
        return Ok(());
    };
    let Some(page) = stock.page() else {
        assert!(rt; false);
        return Ok(());
    };
    assert!(rt; page == 2);
    fill(&store, &mut one, page, 5, &mut stock);
    retire(&store, &mut one, page);
    let held_back = sweep(&store, &mut one);
    end(&store, &mut one);
    let released = sweep(&store, &mut one);
    assert!(rt; held_back == 0 && released == 1);
    let again = sweep(&store, &mut one);
    assert!(rt; again == 0);
    Ok(())
}

// A hand that has begun and stops holds back what is retired after it began, until it ends.
#[test]
fn begun_hands_hold_back_what_is_retired_later(rt: HostRuntime) -> Result<(), Fail> {
    let (store, mut one, mut two) = two_hands(rt.alloc(), 8)?;
    begin(&store, &mut one);
    let mut changed = 0u64;
    let mut released = 0u64;
    for word in 0..31 {
        if change(&store, &mut two, 1, word) {
            changed += 1;
        }
        released += sweep(&store, &mut two) as u64;
    }
    assert!(rt; changed == 30 && released == 0);
    let Err(cause) = reserve(&store, &mut two, 0, 1) else {
        assert!(rt; false);
        return Ok(());
    };
    assert!(rt; cause == NoRoom::Frames);
    let first = look(&store, &mut one, 1);
    assert!(rt; first == [29; 32]);
    end(&store, &mut one);
    let after = sweep(&store, &mut two);
    assert!(rt; after == 30);
    Ok(())
}

// What is retired before a hand begins it does not hold back.
#[test]
fn begun_hands_hold_back_nothing_older(rt: HostRuntime) -> Result<(), Fail> {
    let (store, mut one, mut two) = two_hands(rt.alloc(), 8)?;
    change(&store, &mut two, 1, 2);
    change(&store, &mut two, 1, 3);
    begin(&store, &mut one);
    change(&store, &mut two, 1, 4);
    change(&store, &mut two, 1, 5);
    change(&store, &mut two, 1, 6);
    let older = sweep(&store, &mut two);
    let held_back = sweep(&store, &mut two);
    end(&store, &mut one);
    let later = sweep(&store, &mut two);
    assert!(rt; older == 2 && held_back == 0 && later == 3);
    Ok(())
}

// Hands meet, and the store gives back what was put last, and zeros for a page that nobody has.
#[test]
fn stores_give_back_their_pages(rt: HostRuntime) -> Result<(), Fail> {
    let (store, mut one, mut two) = two_hands(rt.alloc(), 4)?;
    let changed = change(&store, &mut one, 1, 7);
    assert!(rt; changed);
    meet(&store, &mut one, &mut two);
    let mut hands = Vec::new(rt.alloc());
    hands.push(one)?;
    hands.push(two)?;
    let room = Vec::with_capacity(rt.alloc(), 4)?;
    let pages = shut(store, hands, room);
    assert!(rt; pages[0] == [1; 32] && pages[1] == [7; 32]);
    assert!(rt; pages[2] == [0; 32] && pages[3] == [0; 32]);
    Ok(())
}

// Each released page is given once, the least first, and then there is none.
#[test]
fn reservations_give_each_page_once(rt: HostRuntime) -> Result<(), Fail> {
    let (store, mut one, mut two) = two_hands(rt.alloc(), 4)?;
    let Ok(first) = reserve(&store, &mut one, 1, 0) else {
        assert!(rt; false);
        return Ok(());
    };
    let Ok(second) = reserve(&store, &mut two, 1, 3) else {
        assert!(rt; false);
        return Ok(());
    };
    assert!(rt; first.page() == Some(2) && second.page() == Some(3) && second.frames() == 3);
    Ok(())
}

#[test]
fn the_law_of_events_does_nothing() {
    tied::<u64>();
}
