//! What is wrong with a malformed line. It is said to people, tested, and in no clause.

use crate::number::{first_space, number};
use crate::request::{LINE_LIMIT, is_file_name};

/// What is wrong with a malformed line.
#[derive(Clone, Copy, Debug, PartialEq, Eq)]
pub enum Wrong {
    /// The word of that place, of which the first one has 1: no request has it there, or it is missing.
    Word(usize),
    /// The line has more bytes than a request may have.
    Long,
    /// No LF stands behind it.
    Open,
}

/// What stands behind the first word of a request.
#[derive(Clone, Copy)]
struct Form {
    word: &'static str,
    /// So many numbers.
    numbers: usize,
    /// Behind these a limit of rows, if there is one.
    has_limit: bool,
}

/// A request of so many numbers.
const fn plain(word: &'static str, numbers: usize) -> Form {
    Form {
        word,
        numbers,
        has_limit: false,
    }
}

/// One of so many numbers, and of a limit.
const fn limited(word: &'static str, numbers: usize) -> Form {
    Form {
        word,
        numbers,
        has_limit: true,
    }
}

/// What stands behind that first word, where a request of numbers begins with it.
fn form_of(first: &[u8]) -> Option<Form> {
    let forms = [
        plain("find", 1),
        plain("insert", 2),
        plain("put", 2),
        plain("delete", 1),
        plain("change", 3),
        plain("add", 2),
        limited("scan", 2),
        limited("scanfrom", 1),
        limited("scandown", 2),
        limited("scandownfrom", 1),
        plain("first", 0),
        plain("last", 0),
        plain("next", 1),
        plain("previous", 1),
        plain("count", 2),
        plain("stat", 0),
        plain("sync", 0),
    ];
    forms
        .iter()
        .find(|form| form.word.as_bytes() == first)
        .copied()
}

/// Whether the word is a limit of rows.
fn is_limit(word: &[u8]) -> bool {
    number(word).is_some_and(|most| most <= u64::from(u32::MAX))
}

/// Whether a request that begins so may have that word at that place, the first one being 1.
fn may_stand(first: &[u8], word: &[u8], place: usize) -> bool {
    if first == "save".as_bytes() {
        return place == 1 || (place == 2 && is_file_name(word));
    }
    let Some(form) = form_of(first) else {
        return false;
    };
    match place.saturating_sub(form.numbers) {
        0 | 1 => place == 1 || number(word).is_some(),
        2 => form.has_limit && word == "limit".as_bytes(),
        3 => form.has_limit && is_limit(word),
        _ => false,
    }
}

/// What is wrong with a line that spells no request, of which these are all bytes before its LF, or more of them than a request may have.
pub fn wrong_in(line: &[u8]) -> Wrong {
    if line.len() > LINE_LIMIT {
        return Wrong::Long;
    }
    let first = &line[..first_space(line)];
    let mut rest = line;
    for place in 1..=LINE_LIMIT {
        let end = first_space(rest);
        if !may_stand(first, &rest[..end], place) {
            return Wrong::Word(place);
        }
        match rest.get(end.saturating_add(1)..) {
            Some(behind) => rest = behind,
            None => return Wrong::Word(place + 1),
        }
    }
    Wrong::Word(LINE_LIMIT)
}
