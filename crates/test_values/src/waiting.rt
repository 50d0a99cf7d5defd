use bl_answers::{Hint, Level};
use bl_waiting::Waiting;
use std::test::Fail;

/// The hint to list the page whose low is the key in its parent.
fn post(key: u64) -> Hint {
    let level = Level::new(1);
    Hint::Post { level, key }
}

// What is kept comes out once, the oldest first, and then nothing.
#[test]
fn oldest_comes_first(rt: HostRuntime) -> Result<(), Fail> {
    let mut waiting = Waiting::new();
    assert!(rt; waiting.is_empty() && waiting.take().is_none());
    waiting.keep(Some(post(7)));
    waiting.keep(None);
    waiting.keep(Some(post(3)));
    assert!(rt; waiting.len() == 2 && !waiting.is_empty() && !waiting.is_full());
    assert!(rt; waiting.take() == Some(post(7)));
    assert!(rt; waiting.take() == Some(post(3)));
    assert!(rt; waiting.take().is_none() && waiting.dropped == 0);
    Ok(())
}

/// Keeps hints to list the pages of these many keys.
fn keep_posts(waiting: &mut Waiting, keys: u64) {
    for key in 0..keys {
        waiting.keep(Some(post(key)));
    }
}

// Behind 32 hints two more are dropped, and counted, until one is taken.
#[test]
fn full_queue_drops(rt: HostRuntime) -> Result<(), Fail> {
    let mut waiting = Waiting::new();
    keep_posts(&mut waiting, 34);
    assert!(rt; waiting.is_full() && waiting.len() == 32 && waiting.dropped == 2);
    assert!(rt; waiting.take() == Some(post(0)) && !waiting.is_full());
    waiting.keep(Some(post(50)));
    assert!(rt; waiting.is_full() && waiting.dropped == 2);
    assert!(rt; waiting.take() == Some(post(1)));
    Ok(())
}
