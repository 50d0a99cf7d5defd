ghost use Rattle.std.specs.Prelude.{◌<◌, ◌≤◌};

use bl_answers::{Hint, Level};
use bl_hints::Hints;
use std::sync::Wait;
use std::test::Fail;
use std::thread::join;

/// The hint to list the page whose low is the key in a parent of that level.
fn post(level: u32, key: u64) -> Hint
    requires least { 0 < level }
    requires most { level ≤ 12 }
{
    let level = Level::new(level);
    Hint::Post { level, key }
}

/// The hint that the page which covers the key is thin, below a parent of that level.
fn thin(level: u32, key: u64) -> Hint
    requires least { 0 < level }
    requires most { level ≤ 12 }
{
    let level = Level::new(level);
    Hint::Thin { level, key }
}

/// The next hint is this one.
fn is_next<R: Wait>(rt: &R, hints: &Hints, hint: Option<Hint>) -> bool {
    hints.next(rt) == hint
}

// A hint to list a page comes before one of a thin page that was given earlier.
#[test]
fn posts_come_first(rt: HostRuntime) -> Result<(), Fail> {
    let hints = Hints::new(rt.alloc())?;
    assert!(rt; hints.give(&rt, thin(1, 9)) && hints.give(&rt, post(1, 9)));
    assert!(rt; is_next(&rt, &hints, Some(post(1, 9))));
    assert!(rt; is_next(&rt, &hints, Some(thin(1, 9))));
    assert!(rt; is_next(&rt, &hints, None));
    Ok(())
}

/// Gives posts of the keys 1 to 1,024: whether all were taken.
fn fill_with_posts<R: Wait>(rt: &R, hints: &Hints) -> bool {
    let mut all = true;
    for key in 1..1025 {
        all &= hints.give(rt, post(1, key));
    }
    all
}

// A queue takes 1,024 hints and refuses the next, until one is taken; the other queue takes hints all the while.
#[test]
fn full_queue_refuses(rt: HostRuntime) -> Result<(), Fail> {
    let hints = Hints::new(rt.alloc())?;
    assert!(rt; fill_with_posts(&rt, &hints));
    assert!(rt; !hints.give(&rt, post(1, 1025)) && hints.give(&rt, thin(2, 7)));
    assert!(rt; is_next(&rt, &hints, Some(post(1, 1))));
    assert!(rt; hints.give(&rt, post(1, 1026)) && !hints.give(&rt, post(1, 1027)));
    Ok(())
}

/// The same of thin pages.
fn fill_with_thin<R: Wait>(rt: &R, hints: &Hints) -> bool {
    let mut all = true;
    for key in 1..1025 {
        all &= hints.give(rt, thin(1, key));
    }
    all
}

#[test]
fn full_queue_of_thin_pages_refuses(rt: HostRuntime) -> Result<(), Fail> {
    let hints = Hints::new(rt.alloc())?;
    assert!(rt; fill_with_thin(&rt, &hints));
    assert!(rt; !hints.give(&rt, thin(1, 1025)) && hints.give(&rt, post(2, 7)));
    assert!(rt; is_next(&rt, &hints, Some(post(2, 7))));
    assert!(rt; !hints.give(&rt, thin(1, 1026)));
    assert!(rt; is_next(&rt, &hints, Some(thin(1, 1))));
    assert!(rt; hints.give(&rt, thin(1, 1027)));
    Ok(())
}

// Two threads give at once.
#[test]
fn two_threads_give(rt: HostRuntime) -> Result<(), Fail> {
    let hints = Hints::new(rt.alloc())?;
    let (one, other) = join(
        &rt,
        || hints.give(&rt, thin(3, 5)),
        || hints.give(&rt, post(1, 9)),
    );
    assert!(rt; one && other);
    assert!(rt; is_next(&rt, &hints, Some(post(1, 9))));
    assert!(rt; is_next(&rt, &hints, Some(thin(3, 5))));
    assert!(rt; is_next(&rt, &hints, None));
    Ok(())
}
