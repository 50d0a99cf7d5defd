//! What a line of a script says.

ghost use Rattle.std.specs.Prelude.{◌≡◌, ◌≢◌, ℕ, ◌<◌, ◌≤◌, ◌^◌, ◌++◌, ◌↔◌, codes, IsTrue, MatchOption};
ghost use Rattle.bl_model.specs.declared.operation.Op.{Op as OpSpec};
ghost use Rattle.bl_replay_script.specs.declared.command.Start.{Start as StartSpec};
ghost use Rattle.bl_replay_script.specs.declared.command.Command.{Command as CommandSpec};
ghost use Rattle.bl_replay_script.specs.Commands.{one, two, three, head_text, operation_text, start_text, command_text, Fits, IsLevel, IsPageCount, IsStarted, MayAsk, MayStart, MayStand};

use crate::command::{Command, Kinds, Start};
use bl_model::Op;
use bl_serve_lines::number::{number, three_numbers, two_numbers};
use bl_serve_lines::request::after;

/// Every number.
const MOST: u64 = u64::MAX;

/// The number behind the word, if it is within the bounds.
fn one_within(line: &[u8], word: &[u8], least: u64, most: u64) -> Option<u64>
    ensures { MatchOption result
        ((a : ℕ) → least ≤ a → a ≤ most → line.now ≢ word.now ++ one a)
        (λ a. (least ≤ a) × (a ≤ most) × (line.now ≡ word.now ++ one a)) }
{
    let Some(rest) = after(line, word) else {
        return None;
    };
    let Some(a) = number(rest) else {
        return None;
    };
    if least <= a && a <= most {
        Some(a)
    } else {
        None
    }
}

/// The two numbers behind the word, if the first is within the bounds and the second is not above its own.
fn two_within(line: &[u8], word: &[u8], least: u64, most: u64, last: u64) -> Option<(u64, u64)>
    ensures { MatchOption result
        ((a b : ℕ) → least ≤ a → a ≤ most → b ≤ last → line.now ≢ word.now ++ two a b)
        (λ p. (least ≤ p.0) × (p.0 ≤ most) × (p.1 ≤ last) × (line.now ≡ word.now ++ two p.0 p.1)) }
{
    let Some(rest) = after(line, word) else {
        return None;
    };
    let Some((a, b)) = two_numbers(rest) else {
        return None;
    };
    if least <= a && a <= most && b <= last {
        Some((a, b))
    } else {
        None
    }
}

/// The three numbers behind the word.
fn three_behind(line: &[u8], word: &[u8]) -> Option<(u64, u64, u64)>
    ensures { MatchOption result
        ((a b d : ℕ) → Fits a → Fits b → Fits d → line.now ≢ word.now ++ three a b d)
        (λ p. Fits p.0 × Fits p.1 × Fits p.2 × (line.now ≡ word.now ++ three p.0 p.1 p.2)) }
{
    let Some(rest) = after(line, word) else {
        return None;
    };
    let Some((a, b, d)) = three_numbers(rest) else {
        return None;
    };
    Some((a, b, d))
}

/// How many pages the line asks for, if it is a first line.
pub fn head_of(line: &[u8]) -> Option<u32>
    ensures { MatchOption result
        ((pages : ℕ) → IsPageCount pages → line.now ≢ head_text pages)
        (λ pages. IsPageCount pages × (line.now ≡ head_text pages)) }
{
    let Some(pages) = one_within(line, b"pages ", 4, 65_536) else {
        return None;
    };
    Some(pages as u32)
}

/// A `part` line's key, where such a process may be started.
fn part_line(kinds: Kinds, line: &[u8]) -> Option<u64>
    ensures { MatchOption result
        ((a : ℕ) → IsTrue kinds.part → Fits a → line.now ≢ codes "part " ++ one a)
        (λ a. IsTrue kinds.part × Fits a × (line.now ≡ codes "part " ++ one a)) }
{
    if kinds.part {
        one_within(line, b"part ", 0, MOST)
    } else {
        None
    }
}

/// The key of a `partdown` line, where such a process may be started.
fn part_down_line(kinds: Kinds, line: &[u8]) -> Option<u64>
    ensures { MatchOption result
        ((a : ℕ) → IsTrue kinds.part → Fits a → line.now ≢ codes "partdown " ++ one a)
        (λ a. IsTrue kinds.part × Fits a × (line.now ≡ codes "partdown " ++ one a)) }
{
    if kinds.part {
        one_within(line, b"partdown ", 0, MOST)
    } else {
        None
    }
}

/// The key and the page of a line with that word.
fn near_line(line: &[u8], word: &[u8], pages: u32) -> Option<(u64, u32)>
    requires { 0 < pages }
    ensures { MatchOption result
        ((a b : ℕ) → Fits a → b < pages → line.now ≢ word.now ++ two a b)
        (λ p. Fits p.0 × (p.1 < pages) × (line.now ≡ word.now ++ two p.0 p.1)) }
{
    let Some((key, page)) = two_within(line, word, 0, MOST, u64::from(pages) - 1) else {
        return None;
    };
    Some((key, page as u32))
}

/// A `partnear` line's key and page, where such a process may be started.
fn part_near_line(kinds: Kinds, pages: u32, line: &[u8]) -> Option<(u64, u32)>
    requires { 0 < pages }
    ensures { MatchOption result
        ((a b : ℕ) → IsTrue kinds.part → Fits a → b < pages → line.now ≢ codes "partnear " ++ two a b)
        (λ p. IsTrue kinds.part × Fits p.0 × (p.1 < pages) × (line.now ≡ codes "partnear " ++ two p.0 p.1)) }
{
    if !kinds.part {
        return None;
    }
    near_line(line, b"partnear ", pages)
}

/// The level and the key of a line with that word.
fn level_line(line: &[u8], word: &[u8]) -> Option<(u32, u64)>
    ensures { MatchOption result
        ((a b : ℕ) → IsLevel a → Fits b → line.now ≢ word.now ++ two a b)
        (λ p. IsLevel p.0 × Fits p.1 × (line.now ≡ word.now ++ two p.0 p.1)) }
{
    let Some((level, key)) = two_within(line, word, 1, 12, MOST) else {
        return None;
    };
    Some((level as u32, key))
}

/// A `compress` line's level and key, where such a process may be started.
fn compress_line(kinds: Kinds, line: &[u8]) -> Option<(u32, u64)>
    ensures { MatchOption result
        ((a b : ℕ) → IsTrue kinds.compress → IsLevel a → Fits b → line.now ≢ codes "compress " ++ two a b)
        (λ p. IsTrue kinds.compress × IsLevel p.0 × Fits p.1 × (line.now ≡ codes "compress " ++ two p.0 p.1)) }
{
    if kinds.compress {
        level_line(line, b"compress ")
    } else {
        None
    }
}

/// A `reclaim` line's page, where such a process may be started.
fn reclaim_line(kinds: Kinds, pages: u32, line: &[u8]) -> Option<u32>
    requires { 0 < pages }
    ensures { MatchOption result
        ((a : ℕ) → IsTrue kinds.reclaim → a < pages → line.now ≢ codes "reclaim " ++ one a)
        (λ a. IsTrue kinds.reclaim × (a < pages) × (line.now ≡ codes "reclaim " ++ one a)) }
{
    if !kinds.reclaim {
        return None;
    }
    let Some(page) = one_within(line, b"reclaim ", 0, u64::from(pages) - 1) else {
        return None;
    };
    Some(page as u32)
}

/// The line is `lower`, where such a process may be started.
fn is_lower_line(kinds: Kinds, line: &[u8]) -> bool
    ensures { IsTrue result ↔ (IsTrue kinds.lower × (line.now ≡ codes "lower")) }
{
    kinds.lower && line == b"lower".as_slice()
}

/// The operation that the line starts.
fn operation_of(kinds: Kinds, line: &[u8]) -> Option<Op>
    ensures { MatchOption result
        ((op : OpSpec) → MayAsk kinds op → line.now ≢ operation_text op)
        (λ op. MayAsk kinds op × (line.now ≡ operation_text op)) }
{
    if let Some(key) = one_within(line, b"find ", 0, MOST) {
        return Some(Op::Find(key));
    }
    if let Some((key, value)) = two_within(line, b"insert ", 0, MOST, MOST) {
        return Some(Op::Insert(key, value));
    }
    if let Some((key, value)) = two_within(line, b"put ", 0, MOST, MOST) {
        return Some(Op::Put(key, value));
    }
    if let Some(key) = one_within(line, b"delete ", 0, MOST) {
        return Some(Op::Delete(key));
    }
    if let Some((key, old, new)) = three_behind(line, b"change ") {
        return Some(Op::Change(key, old, new));
    }
    if let Some(from) = part_line(kinds, line) {
        return Some(Op::Part(from));
    }
    let Some(from) = part_down_line(kinds, line) else {
        return None;
    };
    Some(Op::PartDown(from))
}

/// The process that the line starts.
fn start_of(kinds: Kinds, pages: u32, line: &[u8]) -> Option<Start>
    requires { 0 < pages }
    ensures { MatchOption result
        ((start : StartSpec) → MayStart kinds pages start → line.now ≢ start_text start)
        (λ start. MayStart kinds pages start × (line.now ≡ start_text start)) }
{
    if let Some(op) = operation_of(kinds, line) {
        return Some(Start::Operation(op));
    }
    if let Some((key, page)) = near_line(line, b"findnear ", pages) {
        return Some(Start::FindNear { key, page });
    }
    if let Some((key, value)) = two_within(line, b"insertpost ", 0, MOST, MOST) {
        return Some(Start::InsertPost { key, value });
    }
    if let Some((key, value)) = two_within(line, b"putpost ", 0, MOST, MOST) {
        return Some(Start::PutPost { key, value });
    }
    if let Some((from, page)) = part_near_line(kinds, pages, line) {
        return Some(Start::PartNear { from, page });
    }
    if let Some((level, key)) = level_line(line, b"post ") {
        return Some(Start::Post { level, key });
    }
    if let Some((level, key)) = compress_line(kinds, line) {
        return Some(Start::Compress { level, key });
    }
    if is_lower_line(kinds, line) {
        return Some(Start::Lower);
    }
    let Some(page) = reclaim_line(kinds, pages, line) else {
        return None;
    };
    Some(Start::Reclaim(page))
}

/// A `turn` line with a page.
fn turn_at(pages: u32, started: u64, line: &[u8]) -> Option<(u64, u32)>
    requires { 0 < pages }
    ensures { MatchOption result
        ((a b : ℕ) → IsStarted started a → b < pages → line.now ≢ codes "turn " ++ two a b)
        (λ p. IsStarted started p.0 × (p.1 < pages) × (line.now ≡ codes "turn " ++ two p.0 p.1)) }
{
    let Some((process, page)) = two_within(line, b"turn ", 1, started, u64::from(pages) - 1) else {
        return None;
    };
    Some((process, page as u32))
}

/// The command that the line spells, where so many processes have been started, if it may stand there.
pub fn command_of(kinds: Kinds, pages: u32, started: u64, line: &[u8]) -> Option<Command>
    requires { 0 < pages }
    ensures { MatchOption result
        ((c : CommandSpec) → MayStand kinds pages started c → line.now ≢ command_text c)
        (λ c. MayStand kinds pages started c × (line.now ≡ command_text c)) }
{
    if let Some(start) = start_of(kinds, pages, line) {
        return Some(Command::Start(start));
    }
    if let Some(process) = one_within(line, b"turn ", 1, started) {
        return Some(Command::Turn(process));
    }
    if let Some((process, page)) = turn_at(pages, started, line) {
        return Some(Command::TurnAt(process, page));
    }
    if let Some(process) = one_within(line, b"refuse ", 1, started) {
        return Some(Command::Refuse(process));
    }
    if let Some((process, most)) = two_within(line, b"run ", 1, started, MOST) {
        return Some(Command::Run(process, most));
    }
    let Some(most) = one_within(line, b"settle ", 0, MOST) else {
        return None;
    };
    Some(Command::Settle(most))
}
