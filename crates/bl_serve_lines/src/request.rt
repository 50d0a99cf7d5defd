//! The request that a line spells.

ghost use Rattle.std.specs.Prelude.{◌≡◌, ◌≢◌, ◌↔◌, ℕ, ◌<◌, IsTrue, List, ◌++◌, length, codes, IsNone, IfSome, IfNone, MatchOption};
ghost use Rattle.bl_serve_lines.specs.Text.{IsFileName, Means, Spells};

use crate::listing::Listing;
use crate::number::{number, number_and_limit, three_numbers, two_numbers, two_numbers_and_limit};
use bl_model::Op;

/// The most bytes that a line may have before its LF. A longer one is malformed.
pub const LINE_LIMIT: usize = 69;

/// What a line asks for.
#[derive(Clone, Copy, Debug, PartialEq, Eq)]
pub enum Request {
    /// One operation, which is no `Part` or `PartDown`.
    Ask(Op),
    /// A change of the key's value to its sum with the number, modulo 2^64.
    Add(u64, u64),
    /// Rows, or how many there are.
    Scan(Listing),
    /// All rows into a file, which the line names.
    Save,
    /// How much room there is.
    Stat,
    /// The end of a section.
    Sync,
}

/// The most bytes that the name of a file may have in a line.
const NAME_LIMIT: usize = 64;

/// What stands behind the word, if the line begins with it.
pub fn after<'a>(line: &'a [u8], word: &[u8]) -> Option<&'a [u8]>
    ensures { MatchOption result ((rest : List ℕ) → line.now ≢ word.now ++ rest) (λ rest. line.now ≡ word.now ++ rest.now) }
{
    line.strip_prefix(word)
}

/// The operation that the line spells.
fn operation(line: &[u8]) -> Option<Op>
    ensures found { IfSome result (λ op. Spells line.now (Request.Ask op)) }
    ensures none { IfNone result ((op : Op) → ¬ Spells line.now (Request.Ask op)) }
{
    match line {
        [b'f', b'i', b'n', b'd', b' ', rest @ ..] => Some(Op::Find(number(rest)?)),
        [b'i', b'n', b's', b'e', b'r', b't', b' ', rest @ ..] => {
            let (key, value) = two_numbers(rest)?;
            Some(Op::Insert(key, value))
        }
        [b'p', b'u', b't', b' ', rest @ ..] => {
            let (key, value) = two_numbers(rest)?;
            Some(Op::Put(key, value))
        }
        [b'd', b'e', b'l', b'e', b't', b'e', b' ', rest @ ..] => Some(Op::Delete(number(rest)?)),
        [b'c', b'h', b'a', b'n', b'g', b'e', b' ', rest @ ..] => {
            let (key, old, new) = three_numbers(rest)?;
            Some(Op::Change(key, old, new))
        }
        _ => None,
    }
}

/// The rows that a line asks for, of which this stands behind `scan`.
fn scan_rows(words: &[u8]) -> Option<Listing>
    ensures found { IfSome result (λ asked. Spells (codes "scan" ++ words.now) (Request.Scan asked)) }
    ensures none { IfNone result ((asked : Listing) → ¬ Spells (codes "scan" ++ words.now) (Request.Scan asked)) }
{
    match words {
        [b' ', rest @ ..] => {
            let (low, high, limit) = two_numbers_and_limit(rest)?;
            Some(Listing::Scan(low, high, limit))
        }
        [b'f', b'r', b'o', b'm', b' ', rest @ ..] => {
            let (low, limit) = number_and_limit(rest)?;
            Some(Listing::ScanFrom(low, limit))
        }
        [b'd', b'o', b'w', b'n', b' ', rest @ ..] => {
            let (low, high, limit) = two_numbers_and_limit(rest)?;
            Some(Listing::ScanDown(low, high, limit))
        }
        [
            b'd',
            b'o',
            b'w',
            b'n',
            b'f',
            b'r',
            b'o',
            b'm',
            b' ',
            rest @ ..,
        ] => {
            let (high, limit) = number_and_limit(rest)?;
            Some(Listing::ScanDownFrom(high, limit))
        }
        _ => None,
    }
}

/// The rows that the line asks for.
fn rows(line: &[u8]) -> Option<Listing>
    ensures found { IfSome result (λ asked. Spells line.now (Request.Scan asked)) }
    ensures none { IfNone result ((asked : Listing) → ¬ Spells line.now (Request.Scan asked)) }
{
    match line {
        [b's', b'c', b'a', b'n', rest @ ..] => scan_rows(rest),
        [b'f', b'i', b'r', b's', b't'] => Some(Listing::First),
        [b'l', b'a', b's', b't'] => Some(Listing::Last),
        [b'n', b'e', b'x', b't', b' ', rest @ ..] => Some(Listing::Next(number(rest)?)),
        [
            b'p',
            b'r',
            b'e',
            b'v',
            b'i',
            b'o',
            b'u',
            b's',
            b' ',
            rest @ ..,
        ] => { Some(Listing::Previous(number(rest)?)) }
        [b'c', b'o', b'u', b'n', b't', b' ', rest @ ..] => {
            let (low, high) = two_numbers(rest)?;
            Some(Listing::Count(low, high))
        }
        _ => None,
    }
}

/// Whether a file may be named so in a line: none of its bytes is a space or below it, so that a CR before the LF is no part of a name.
pub(crate) fn is_file_name(name: &[u8]) -> bool
    ensures { IsTrue result ↔ IsFileName name.now }
{
    !name.is_empty() && name.len() <= NAME_LIMIT && name.iter().all(|byte| *byte > b' ')
}

/// The name of the file that a line of a save names, of which these are the first bytes.
pub fn file_name(line: &[u8]) -> Option<&[u8]>
    ensures { MatchOption result (¬ Spells line.now Request.Save) (λ name. IsFileName name.now × (line.now ≡ codes "save " ++ name.now)) }
{
    match line {
        [b's', b'a', b'v', b'e', b' ', name @ ..] if is_file_name(name) => Some(name),
        _ => None,
    }
}

/// The request that the line spells, if it is no operation and asks for no rows.
fn other(line: &[u8]) -> Option<Request>
    requires no_operation { (op : Op) → ¬ Spells line.now (Request.Ask op) }
    requires no_rows { (asked : Listing) → ¬ Spells line.now (Request.Scan asked) }
    ensures { Means line.now result }
{
    match line {
        [b'a', b'd', b'd', b' ', rest @ ..] => {
            let (key, added) = two_numbers(rest)?;
            Some(Request::Add(key, added))
        }
        [b's', b'a', b'v', b'e', b' ', ..] => file_name(line).map(|_| Request::Save),
        [b's', b't', b'a', b't'] => Some(Request::Stat),
        [b's', b'y', b'n', b'c'] => Some(Request::Sync),
        _ => None,
    }
}

/// The request that the line spells, byte by byte.
fn spelled(line: &[u8]) -> Option<Request>
    ensures { Means line.now result }
{
    if let Some(op) = operation(line) {
        return Some(Request::Ask(op));
    }
    if let Some(asked) = rows(line) {
        return Some(Request::Scan(asked));
    }
    other(line)
}

/// What the line asks for, or None where it is malformed.
pub fn parse(line: &[u8]) -> Option<Request>
    ensures meaning { Means line.now result }
    ensures long { LINE_LIMIT < length line.now → IsNone result }
{
    spelled(line)
}
