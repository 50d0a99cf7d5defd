//! An index goes on with more pages from its image.

ghost use Rattle.std.specs.Prelude.{All, IfSome};
ghost use Rattle.bl_index.specs.Calls.{IsPassOf};

use crate::calls::alone;
use bl_check::Quiet;
use bl_index::{Index, KeyReply, OpenFault, Pass, lives_are_one_history};
use std::alloc::Global;
use std::sync::Wait;

/// Inserts each of the first keys with five more, and says for which one there was no room.
fn fill<R: Wait>(rt: &R, index: &Index, pass: &mut Pass) -> u64
    requires { IsPassOf index.now pass.old }
    ensures { IsPassOf index.now pass.new }
{
    for key in 0..1_000 {
        let _swept = index.sweep(pass);
        let (reply, _hint) = index.insert(rt, pass, key, key + 5);
        if reply == KeyReply::NoRoom {
            return key;
        }
    }
    1_000
}

/// How many of the first so many keys have five more.
fn found(index: &Index, pass: &mut Pass, keys: u64) -> u64
    requires { IsPassOf index.now pass.old }
    ensures { IsPassOf index.now pass.new }
{
    let mut found = 0;
    for key in 0..keys {
        if index.find(pass, key, 1_000) == Ok(KeyReply::Found(key.wrapping_add(5))) {
            found += 1;
        }
    }
    found
}

/// How many passes there are, whether all rows are there, and what an insertion of the key answers for which there was no room.
fn counts<R: Wait>(
    rt: &R,
    index: &Index,
    passes: Vec<Pass>,
    full_at: u64,
) -> Option<(usize, bool, KeyReply)>
    requires { All (IsPassOf index.now) passes.items }
{
    let mut passes = passes;
    let many = passes.len();
    let mut pass = passes.pop()?;
    let all = found(index, &mut pass, full_at) == full_at;
    let (reply, _hint) = index.insert(rt, &mut pass, full_at, 7);
    Some((many, all, reply))
}

/// The image that a full index of 16 pages leaves, and the key for which there was no room.
fn image_of<R: Wait>(rt: &R, alloc: Global) -> Option<(Quiet, u64)> {
    let (index, mut pass) = alone(alloc, 16)?;
    let full_at = fill(rt, &index, &mut pass);
    let mut passes = Vec::new(alloc);
    passes.push(pass).ok()?;
    match index.close(alloc, passes) {
        Ok(quiet) => Some((quiet, full_at)),
        Err(_) => None,
    }
}

/// The index with 64 pages and two passes that is opened from an image.
fn reopened(alloc: Global, quiet: Quiet) -> Option<(Index, Vec<Pass>)>
    ensures { IfSome result (λ t. All (IsPassOf t.0) t.1.items) }
{
    match Index::open_larger(alloc, quiet, 64, 2) {
        Ok((index, passes)) => Some((index, passes)),
        Err(_) => None,
    }
}

/// How many pages and passes an index has that is opened larger, whether all rows are there, and what the insertion answers.
fn opened_larger<R: Wait>(rt: &R, alloc: Global) -> Option<(u32, (usize, bool, KeyReply))> {
    let (quiet, full_at) = image_of(rt, alloc)?;
    let (index, passes) = reopened(alloc, quiet)?;
    let seen = counts(rt, &index, passes, full_at)?;
    Some((index.patience(), seen))
}

#[test]
fn an_image_is_opened_with_more_pages(rt: HostRuntime) {
    // The law by which the history goes on.
    lives_are_one_history();
    let seen = opened_larger(&rt, rt.alloc());
    assert!(rt; seen == Some((64, (2, true, KeyReply::Inserted))));
}

/// The index with two passes that begins with an image, which goes.
fn begun_with(alloc: Global, quiet: Quiet) -> Option<(Index, Vec<Pass>)>
    ensures { IfSome result (λ t. All (IsPassOf t.0) t.1.items) }
{
    match Index::begin_with(alloc, quiet, 2) {
        Ok((index, passes)) => Some((index, passes)),
        Err(_) => None,
    }
}

/// How many pages and passes an index has that begins so with a full one's image, and whether all rows are there.
fn begun_again<R: Wait>(rt: &R, alloc: Global) -> Option<(u32, usize, bool)> {
    let (quiet, full_at) = image_of(rt, alloc)?;
    let (index, mut passes) = begun_with(alloc, quiet)?;
    let many = passes.len();
    let mut pass = passes.pop()?;
    let all = found(&index, &mut pass, full_at) == full_at;
    Some((index.patience(), many, all))
}

/// Why no index begins with such an image that is to have so many passes.
fn not_begun<R: Wait>(rt: &R, alloc: Global, passes: u32) -> Option<OpenFault> {
    let (quiet, _full_at) = image_of(rt, alloc)?;
    Index::begin_with(alloc, quiet, passes).err()
}

#[test]
fn an_index_begins_with_an_image_that_goes(rt: HostRuntime) {
    assert!(rt; begun_again(&rt, rt.alloc()) == Some((16, 2, true)));
    assert!(rt; not_begun(&rt, rt.alloc(), 0) == Some(OpenFault::Passes));
    assert!(rt; not_begun(&rt, rt.alloc(), 65) == Some(OpenFault::Passes));
}

/// Why an image of 16 pages is not opened with 15, with more than 2^28, and with 65 passes.
fn faults<R: Wait>(rt: &R, alloc: Global) -> Option<[OpenFault; 3]> {
    let (quiet, _full_at) = image_of(rt, alloc)?;
    let (quiet, few) = Index::open_larger(alloc, quiet, 15, 1).err()?;
    let (quiet, many) = Index::open_larger(alloc, quiet, 268_435_457, 1).err()?;
    let (_quiet, passes) = Index::open_larger(alloc, quiet, 16, 65).err()?;
    Some([few, many, passes])
}

#[test]
fn an_image_is_not_opened_with_fewer_pages(rt: HostRuntime) {
    let seen = faults(&rt, rt.alloc());
    let wanted = [OpenFault::Pages, OpenFault::Pages, OpenFault::Passes];
    assert!(rt; seen == Some(wanted));
}
