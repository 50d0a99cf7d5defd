//! Compressions that meet the latch of another process, told what they see. Whole ones run in `test_worked_values`.

use bl_page::{Page, from_words};
use bl_proc::{Action, Compress, Process, Seen};

/// What a compression does, as a number: a page that it gets, latches or opens.
#[derive(Clone, Copy, Debug, PartialEq, Eq)]
enum Does {
    Begins,
    Gets(u32),
    Latches(u32),
    Opens(u32),
    Else,
}

/// The pages of a tree of two levels: page 3 lists the leaves 1 and 2, of which one holds keys below 9, and links to the other.
fn words_in(page: u32) -> Option<[u64; 32]> {
    let mut words = [0; 32];
    let spelled: [u64; 8] = match page {
        0 => [4294967298, 0, 0, 0, 1, 3, 0, 0],
        1 => [8589934593, 0, 9, 2, 5, 50, 0, 0],
        2 => [8589934593, 9, 0, 0, 9, 90, 0, 0],
        3 => [12884967426, 0, 0, 0, 0, 1, 9, 2],
        _ => return None,
    };
    for (word, is) in words.iter_mut().zip(spelled) {
        *word = is;
    }
    Some(words)
}

fn page_in(page: u32) -> Option<Page> {
    from_words(&words_in(page)?).ok()
}

/// Does the next action, where another process holds that page.
fn goes_on<P: Process>(process: &mut P, held: u32) -> Does {
    if process.answer().is_some() {
        return Does::Else;
    }
    match process.next() {
        Action::Begin => {
            process.took(Seen::Done);
            Does::Begins
        }
        Action::Get(page) => match page_in(page) {
            Some(contents) => {
                process.took(Seen::Words(contents));
                Does::Gets(page)
            }
            None => Does::Else,
        },
        Action::Latch(page) if page == held => {
            process.took(Seen::Missed);
            Does::Latches(page)
        }
        Action::Latch(page) => {
            process.took(Seen::Done);
            Does::Latches(page)
        }
        Action::Open(page) => {
            process.took(Seen::Done);
            Does::Opens(page)
        }
        _ => Does::Else,
    }
}

#[test]
fn a_yielding_compression_opens_the_parent_of_a_left_child_that_is_latched(rt: HostRuntime) {
    let mut compress = Compress::yielding(1, 5);
    for wanted in [
        Does::Begins,
        Does::Gets(0),
        Does::Latches(3),
        Does::Gets(3),
        Does::Latches(1),
        Does::Opens(3),
        Does::Gets(0),
        Does::Latches(3),
    ] {
        assert!(rt; goes_on(&mut compress, 1) == wanted);
    }
}

#[test]
fn a_yielding_compression_opens_both_where_the_right_child_is_latched(rt: HostRuntime) {
    let mut compress = Compress::yielding(1, 5);
    for wanted in [
        Does::Begins,
        Does::Gets(0),
        Does::Latches(3),
        Does::Gets(3),
        Does::Latches(1),
        Does::Gets(1),
        Does::Latches(2),
        Does::Opens(1),
        Does::Opens(3),
        Does::Gets(0),
        Does::Latches(3),
    ] {
        assert!(rt; goes_on(&mut compress, 2) == wanted);
    }
}

// It holds its parent all the time.
#[test]
fn a_compression_that_waits_tries_again(rt: HostRuntime) {
    let mut compress = Compress::new(1, 5);
    for wanted in [
        Does::Begins,
        Does::Gets(0),
        Does::Latches(3),
        Does::Gets(3),
        Does::Latches(1),
        Does::Latches(1),
        Does::Latches(1),
    ] {
        assert!(rt; goes_on(&mut compress, 1) == wanted);
    }
}
