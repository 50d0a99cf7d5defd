//! Processes that release a page, told what they see. All others run in `test_worked_values`, event by event.

use bl_proc::{Action, Answer, Proc, Process, Reclaim, Reclaimed, Seen};

/// What a release does next, as a number: a page that is seen, a process that is looked at, a page that is released.
#[derive(Clone, Copy, Debug, PartialEq, Eq)]
enum Does {
    Sees(u32),
    Looks(usize),
    Releases(u32),
    Else,
}

fn does_next<P: Process>(process: &P) -> Does {
    if process.answer().is_some() {
        return Does::Else;
    }
    match process.next() {
        Action::See(page) => Does::Sees(page),
        Action::Look(number) => Does::Looks(number),
        Action::Release(page) => Does::Releases(page),
        _ => Does::Else,
    }
}

/// A release is told what it saw of its page, or of a process, or of its release.
fn tell<P: Process>(process: &mut P, retired: bool, started: usize, own: usize, blocks: bool) {
    if process.answer().is_none() {
        match process.next() {
            Action::See(_) => process.took(Seen::Owner {
                retired,
                started,
                own,
            }),
            Action::Look(_) => process.took(Seen::Blocks(blocks)),
            Action::Release(_) if blocks => process.took(Seen::Missed),
            Action::Release(_) => process.took(Seen::Done),
            _ => {}
        }
    }
}

/// The page was kept.
fn is_kept(reclaim: &Reclaim) -> bool {
    reclaim.answer() == Some(Answer::Reclaim(Reclaimed::Kept))
}

// The third of four processes: it looks at all others, and not at itself.
#[test]
fn a_retired_page_is_released_after_a_look_at_all_others(rt: HostRuntime) {
    let mut reclaim = Proc::reclaim(2);
    assert!(rt; does_next(&reclaim) == Does::Sees(2) && reclaim.needs().is_none());
    for wanted in [
        Does::Looks(1),
        Does::Looks(2),
        Does::Looks(4),
        Does::Releases(2),
        Does::Else,
    ] {
        assert!(rt; reclaim.answer().is_none());
        tell(&mut reclaim, true, 4, 3, false);
        assert!(rt; does_next(&reclaim) == wanted);
    }
    assert!(rt; reclaim.answer() == Some(Answer::Reclaim(Reclaimed::Released)));
}

#[test]
fn a_page_that_is_not_retired_is_kept(rt: HostRuntime) {
    let mut reclaim = Reclaim::new(1);
    tell(&mut reclaim, false, 4, 3, false);
    assert!(rt; is_kept(&reclaim));
}

// The second process blocks.
#[test]
fn a_page_that_a_process_may_see_is_kept(rt: HostRuntime) {
    let mut reclaim = Reclaim::new(1);
    tell(&mut reclaim, true, 4, 3, false);
    tell(&mut reclaim, true, 4, 3, false);
    assert!(rt; does_next(&reclaim) == Does::Looks(2));
    tell(&mut reclaim, true, 4, 3, true);
    assert!(rt; is_kept(&reclaim));
}

// There is no other process.
#[test]
fn a_page_that_another_released_before_is_kept(rt: HostRuntime) {
    let mut reclaim = Reclaim::new(1);
    tell(&mut reclaim, true, 1, 1, false);
    assert!(rt; does_next(&reclaim) == Does::Releases(1));
    tell(&mut reclaim, true, 1, 1, true);
    assert!(rt; is_kept(&reclaim));
}
