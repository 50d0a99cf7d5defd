//! Hints that are followed.

ghost use Rattle.std.specs.Prelude.{IfSome};
ghost use Rattle.bl_index.specs.Calls.{IsPassOf};

use bl_hints::Hints;
use bl_index::{Config, Index, KeyReply, Pass};
use bl_map::Handle;
use bl_model::{Next, Reply};
use bl_serve::follow_hint;
use std::alloc::Global;
use std::sync::Wait;
use std::test::Fail;

/// An index of 8 pages with two passes, and one of these.
fn opened(alloc: Global) -> Option<(Index, Pass)>
    ensures { IfSome result (λ t. IsPassOf t.0 t.1) }
{
    let config = Config {
        pages: 8,
        passes: 2,
    };
    match Index::open(alloc, config) {
        Ok((index, mut passes)) => {
            let pass = passes.pop()?;
            Some((index, pass))
        }
        Err(_) => None,
    }
}

/// Puts keys 1 to 15, of which the last parts the leaf. What is left to post waits.
fn fill<R: Wait>(rt: &R, index: &Index, hints: &Hints, pass: &mut Pass)
    requires { IsPassOf index.now pass.old }
    ensures { IsPassOf index.now pass.new }
{
    for key in 1..16u64 {
        let (_reply, hint) = index.insert(rt, pass, key, 10 * key);
        if let Some(hint) = hint {
            hints.give(rt, hint);
        }
    }
}

/// How many rows the first leaf has, where it is the last one too.
fn rows_of_the_only_leaf(index: &Index, pass: &mut Pass) -> Option<usize>
    requires { IsPassOf index.now pass.old }
    ensures { IsPassOf index.now pass.new }
{
    match index.part(pass, 0, 8) {
        Ok(Reply::Rows(rows, Next::End)) => Some(rows.len()),
        _ => None,
    }
}

/// What the deletion of key 9 answers, and whether its hint waits then.
fn delete<R: Wait>(rt: &R, index: &Index, hints: &Hints, pass: &mut Pass) -> (KeyReply, bool)
    requires { IsPassOf index.now pass.old }
    ensures { IsPassOf index.now pass.new }
{
    let (reply, hint) = index.delete(rt, pass, 9);
    match hint {
        Some(hint) => (reply, hints.give(rt, hint)),
        None => (reply, false),
    }
}

/// Whether two gets lead to the leaf, the anchor's and its own: so the tree has one level.
fn has_one_level(index: &Index, pass: &mut Pass) -> bool
    requires { IsPassOf index.now pass.old }
    ensures { IsPassOf index.now pass.new }
{
    index.find(pass, 12, 2).is_ok()
}

/// What the steps of a merge answer: whether a hint was followed, whether the tree has one level, the deletion, again whether one
/// was followed, the rows of the only leaf, whether the tree has one level now, and whether one more hint was followed.
type Steps = (
    bool,
    bool,
    (KeyReply, bool),
    bool,
    Option<usize>,
    bool,
    bool,
);

/// Whether a compressor with that seat follows a hint. The seat comes back.
fn follow<R: Wait>(rt: &R, index: &Index, hints: &Hints, seat: Pass) -> (bool, Pass)
    requires { IsPassOf index.now seat }
    ensures { IsPassOf index.now result.1 }
{
    let mut handle = Handle::over(index, seat);
    let followed = follow_hint(rt, hints, &mut handle);
    (followed, handle.into_seat())
}

/// Fills the index, and takes these steps.
fn merge<R: Wait>(rt: &R, index: &Index, hints: &Hints, pass: Pass) -> Steps
    requires { IsPassOf index.now pass }
{
    let mut pass = pass;
    fill(rt, index, hints, &mut pass);
    let (has_posted, mut pass) = follow(rt, index, hints, pass);
    let is_low = has_one_level(index, &mut pass);
    let deleted = delete(rt, index, hints, &mut pass);
    let (has_merged, mut pass) = follow(rt, index, hints, pass);
    let rows = rows_of_the_only_leaf(index, &mut pass);
    let is_low_again = has_one_level(index, &mut pass);
    let (has_more, _) = follow(rt, index, hints, pass);
    (
        has_posted,
        is_low,
        deleted,
        has_merged,
        rows,
        is_low_again,
        has_more,
    )
}

// A compressor's first step lists the upper leaf, so the tree has two levels. A deletion leaves that leaf thin, and its hint waits: the
// next step merges the two leaves, of which the one that stays has all 14 rows, and takes the top level away. Then no hint waits.
#[test]
fn a_compressor_merges_two_leaves_and_takes_the_level_away(rt: HostRuntime) -> Result<(), Fail> {
    let hints = Hints::new(rt.alloc())?;
    let steps = match opened(rt.alloc()) {
        Some((index, pass)) => Some(merge(&rt, &index, &hints, pass)),
        None => None,
    };
    let deleted = (KeyReply::Deleted(90), true);
    assert!(rt; steps == Some((true, false, deleted, true, Some(14), true, false)));
    Ok(())
}
