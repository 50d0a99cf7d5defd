//! What the words of a line ask for.

use crate::races::Race;
use bl_index::{Config, Hint, Level};

/// What a line asks for.
#[derive(Clone, Copy)]
pub enum Call {
    Open(Config),
    /// A call of the pass with this number, from 1.
    Pass(usize, PassCall),
    Patience,
    Close,
    /// A close without the last pass.
    CloseEarly,
    Image,
    /// How many rows the image has.
    Rows,
    /// The words of a page of the image.
    Page(usize),
    Reopen(u32),
    /// Five passes, each in a thread of its own.
    Race(Race),
}

/// A call of a pass.
#[derive(Clone, Copy)]
pub enum PassCall {
    Insert(u64, u64),
    InsertPost(u64, u64),
    Put(u64, u64),
    PutPost(u64, u64),
    Delete(u64),
    Change(u64, u64, u64),
    Find(u64, u32),
    Part(u64, u32),
    /// A part from that key on that has a page in mind, with so many turns.
    Near(u64, u32, u32),
    /// From a key on, below an end if there is one, with so many turns for each part.
    Scan(u64, Option<u64>, u32),
    Post(Hint),
    Compress(Hint),
    Lower,
    Sweep,
    Lacks,
}

/// What the words ask for.
pub fn call_of(words: &[&str]) -> Option<Call> {
    match *words {
        [word] => lone_call(word),
        ["open", pages, passes] => config_of(pages, passes).map(Call::Open),
        ["page", number] => number.parse().ok().map(Call::Page),
        ["reopen", passes] => passes.parse().ok().map(Call::Reopen),
        [pass, ref call @ ..] => pass_call(pass, call),
        [] => None,
    }
}

/// A call of a single word.
fn lone_call(word: &str) -> Option<Call> {
    match word {
        "patience" => Some(Call::Patience),
        "close" => Some(Call::Close),
        "close-early" => Some(Call::CloseEarly),
        "image" => Some(Call::Image),
        "rows" => Some(Call::Rows),
        _ => race_of(word).map(Call::Race),
    }
}

/// A race of a single word.
fn race_of(word: &str) -> Option<Race> {
    match word {
        "fill" => Some(Race::Fill),
        "fill-and-scan" => Some(Race::FillAndScan),
        "shrink" => Some(Race::Shrink),
        "clear" => Some(Race::Clear),
        _ => None,
    }
}

/// The index that the words describe.
fn config_of(pages: &str, passes: &str) -> Option<Config> {
    Some(Config {
        pages: pages.parse().ok()?,
        passes: passes.parse().ok()?,
    })
}

/// A call of the pass whose number is the word.
fn pass_call(pass: &str, words: &[&str]) -> Option<Call> {
    let call = map_call(words).or(work_call(words))?;
    Some(Call::Pass(pass.parse().ok()?, call))
}

/// A call that asks or changes the map.
fn map_call(words: &[&str]) -> Option<PassCall> {
    match *words {
        ["delete", key] => key.parse().ok().map(PassCall::Delete),
        ["insert", key, value] => insert_of(key, value),
        ["insertpost", key, value] => insert_post_of(key, value),
        ["put", key, value] => put_of(key, value),
        ["putpost", key, value] => put_post_of(key, value),
        [call, key, turns] => search_of(call, key, turns),
        ["change", key, old, new] => change_of(key, old, new),
        ["scan", from, end, turns] => scan_of(from, end, turns),
        ["near", from, page, turns] => near_of(from, page, turns),
        _ => None,
    }
}

fn insert_post_of(key: &str, value: &str) -> Option<PassCall> {
    Some(PassCall::InsertPost(key.parse().ok()?, value.parse().ok()?))
}

fn insert_of(key: &str, value: &str) -> Option<PassCall> {
    Some(PassCall::Insert(key.parse().ok()?, value.parse().ok()?))
}

fn put_of(key: &str, value: &str) -> Option<PassCall> {
    Some(PassCall::Put(key.parse().ok()?, value.parse().ok()?))
}

fn put_post_of(key: &str, value: &str) -> Option<PassCall> {
    Some(PassCall::PutPost(key.parse().ok()?, value.parse().ok()?))
}

fn change_of(key: &str, old: &str, new: &str) -> Option<PassCall> {
    Some(PassCall::Change(key.parse().ok()?, old.parse().ok()?, new.parse().ok()?))
}

/// A call that has a key and so many turns.
fn search_of(call: &str, key: &str, turns: &str) -> Option<PassCall> {
    let key = key.parse().ok()?;
    let turns = turns.parse().ok()?;
    match call {
        "find" => Some(PassCall::Find(key, turns)),
        "part" => Some(PassCall::Part(key, turns)),
        "scan-all" => Some(PassCall::Scan(key, None, turns)),
        _ => None,
    }
}

fn scan_of(from: &str, end: &str, turns: &str) -> Option<PassCall> {
    Some(PassCall::Scan(
        from.parse().ok()?,
        Some(end.parse().ok()?),
        turns.parse().ok()?,
    ))
}

fn near_of(from: &str, page: &str, turns: &str) -> Option<PassCall> {
    Some(PassCall::Near(from.parse().ok()?, page.parse().ok()?, turns.parse().ok()?))
}

/// A call that says nothing of the map.
fn work_call(words: &[&str]) -> Option<PassCall> {
    match *words {
        ["sweep"] => Some(PassCall::Sweep),
        ["lacks"] => Some(PassCall::Lacks),
        ["lower"] => Some(PassCall::Lower),
        [call, level, key] => helper_of(call, level_of(level)?, key.parse().ok()?),
        _ => None,
    }
}

/// A post or a compression by the hint that its word names.
fn helper_of(call: &str, level: Level, key: u64) -> Option<PassCall> {
    match call {
        "post" => Some(PassCall::Post(Hint::Post { level, key })),
        "post-thin" => Some(PassCall::Post(Hint::Thin { level, key })),
        "compress" => Some(PassCall::Compress(Hint::Thin { level, key })),
        "compress-post" => Some(PassCall::Compress(Hint::Post { level, key })),
        _ => None,
    }
}

/// The level that the word spells.
fn level_of(word: &str) -> Option<Level> {
    let number: u32 = word.parse().ok()?;
    if number < 1 || number > 12 {
        return None;
    }
    Some(Level::new(number))
}
