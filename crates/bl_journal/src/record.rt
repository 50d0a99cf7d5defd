//! The words of a record: how many they are, the complement of the sum of the others in two words, the salt of the log, how many rows came, and
//! the rows, those that came before those that went.

ghost use Rattle.std.specs.Prelude.{◌≡◌, ◌+◌, ◌^◌, ◌<◌, ◌/◌, ◌%◌, ◌++◌, ◌∷◌, ℕ, List, [], sum, IfOk, OnOk, MatchOption};
ghost use Rattle.bl_journal.specs.Records.{row_words, rows_in, body_words, came_in, went_in, Begins};

use std::alloc::{AllocError, Global};

/// So many words stand before the body of a record.
pub(crate) const HEAD: usize = 4;

/// A word counts so much more than the one before it, in a number of two words.
const UNIT: u128 = 1 << 64;

/// The sum of words.
fn sum_of(words: &[u64]) -> u128
    ensures sum { result ≡ sum words.now }
    ensures bound { result < 2 ^ 127 }
{
    let mut total: u128 = 0;
    for word in words {
        total += u128::from(*word);
    }
    total
}

/// What is wanting to the greatest number of 128 bits, where so many words stand in a record with that salt and that body.
fn complement_of(count: u64, salt: u64, body: &[u64]) -> u128
    ensures { count + salt + sum body.now + result + 1 ≡ 2 ^ 128 }
{
    u128::MAX - (u128::from(count) + u128::from(salt) + sum_of(body))
}

/// Puts rows behind words.
fn push_rows(words: &mut Vec<u64>, rows: &[(u64, u64)]) -> Result<(), AllocError>
    ensures { OnOk result (words.new.items ≡ words.old.items ++ row_words rows.now) }
{
    for (key, value) in rows {
        words.push(*key)?;
        words.push(*value)?;
    }
    Ok(())
}

/// The body of a record of rows that came and rows that went.
fn body_of(alloc: Global, came: &[(u64, u64)], went: &[(u64, u64)]) -> Result<Vec<u64>, AllocError>
    ensures { IfOk result (λ body. body.items ≡ body_words came.now went.now) }
{
    let mut body = Vec::new(alloc);
    body.push(came.len() as u64)?;
    push_rows(&mut body, came)?;
    push_rows(&mut body, went)?;
    Ok(body)
}

/// The words of a record with that salt and that body, of whose sum so much is wanting.
fn sealed(
    alloc: Global,
    count: u64,
    wanting: u128,
    salt: u64,
    body: &[u64],
) -> Result<Vec<u64>, AllocError>
    ensures { IfOk result (λ words. words.items ≡ count ∷ (wanting % 2 ^ 64) ∷ (wanting / 2 ^ 64) ∷ salt ∷ body.now) }
{
    let head = [
        count,
        (wanting % UNIT) as u64,
        (wanting / UNIT) as u64,
        salt,
    ];
    let mut words = Vec::with_capacity(alloc, head.len() + body.len())?;
    words.extend_from_slice(&head)?;
    words.extend_from_slice(body)?;
    Ok(words)
}

/// A record of rows that came and rows that went.
pub(crate) fn record_of(
    alloc: Global,
    salt: u64,
    came: &[(u64, u64)],
    went: &[(u64, u64)],
) -> Result<Vec<u64>, AllocError>
    ensures { IfOk result (λ words. Begins salt words.items (body_words came.now went.now) []) }
{
    let body = body_of(alloc, came, went)?;
    let count = (HEAD + body.len()) as u64;
    let wanting = complement_of(count, salt, body.as_slice());
    let words = sealed(alloc, count, wanting, salt, body.as_slice())?;
    Ok(words)
}

/// The body of the record of a log with that salt that words begin with, if they begin with one.
pub(crate) fn body_in(salt: u64, words: &[u64]) -> Option<&[u64]>
    ensures { MatchOption result ((body rest : List ℕ) → ¬ Begins salt words.now body rest)
        (λ body. (rest : List ℕ) × Begins salt words.now body.now rest) }
{
    let [count, low, high, its_salt, rest @ ..] = words else {
        return None;
    };
    let (count, low, high) = (*count, *low, *high);
    if *its_salt != salt || count <= HEAD as u64 || count - HEAD as u64 > rest.len() as u64 {
        return None;
    }
    let body = &rest[..(count - HEAD as u64) as usize];
    if u128::from(low) + UNIT * u128::from(high) != complement_of(count, salt, body) {
        return None;
    }
    Some(body)
}

/// Puts the rows that words spell behind others.
fn take_rows(words: &[u64], rows: &mut Vec<(u64, u64)>) -> Result<(), AllocError>
    ensures { OnOk result (rows.new.items ≡ rows.old.items ++ rows_in words.now) }
{
    let mut rest = words;
    while let [key, value, after @ ..] = rest {
        rows.push((*key, *value))?;
        rest = after;
    }
    Ok(())
}

/// Puts the rows of a body behind others: those that came, and those that went.
pub(crate) fn take_body(
    body: &[u64],
    came: &mut Vec<(u64, u64)>,
    went: &mut Vec<(u64, u64)>,
) -> Result<(), AllocError>
    ensures came { OnOk result (came.new.items ≡ came.old.items ++ came_in body.now) }
    ensures went { OnOk result (went.new.items ≡ went.old.items ++ went_in body.now) }
{
    let [count, rows @ ..] = body else {
        return Ok(());
    };
    let place = if *count > (rows.len() / 2) as u64 {
        rows.len()
    } else {
        2 * *count as usize
    };
    let (first, rest) = rows.split_at(place);
    take_rows(first, came)?;
    take_rows(rest, went)
}
