//! An index of two leaves, and its three passes.

ghost use Rattle.std.specs.Prelude.{IfSome};
ghost use Rattle.bl_index.specs.Calls.{IsPassOf};

use bl_index::{Config, Index, KeyReply, Pass};
use bl_proc::Posted;
use std::alloc::Global;
use std::sync::Wait;

/// A new index of 8 pages, and its three passes.
pub(crate) fn opened(alloc: Global) -> Option<(Index, Pass, Pass, Pass)>
    ensures { IfSome result (λ t. IsPassOf t.0 t.1 × IsPassOf t.0 t.2 × IsPassOf t.0 t.3) }
{
    let config = Config {
        pages: 8,
        passes: 3,
    };
    match Index::open(alloc, config) {
        Ok((index, mut passes)) => {
            let third = passes.pop()?;
            let second = passes.pop()?;
            let first = passes.pop()?;
            Some((index, first, second, third))
        }
        Err(_) => None,
    }
}

/// Inserts keys 1 to 15 with ten times themselves, and posts the leaf that is new then: page 1 has 1 to 8, page 2 has 9 to 15, and page 3
/// lists both. Whether all was answered so.
pub(crate) fn fill<R: Wait>(rt: &R, index: &Index, pass: &mut Pass) -> bool
    requires { IsPassOf index.now pass.old }
    ensures { IsPassOf index.now pass.new }
{
    let mut good = true;
    for key in 1..15u64 {
        good = index.insert(rt, pass, key, 10 * key) == (KeyReply::Inserted, None) && good;
    }
    match index.insert(rt, pass, 15, 150) {
        (KeyReply::Inserted, Some(hint)) => {
            index.post(rt, pass, hint) == (Posted::Done, None) && good
        }
        _ => false,
    }
}
