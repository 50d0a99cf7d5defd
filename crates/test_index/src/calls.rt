//! An index and its passes.

ghost use Rattle.std.specs.Prelude.{IfSome};
ghost use Rattle.bl_index.specs.Calls.{IsPassOf};

use bl_index::{Config, Index, Pass};
use std::alloc::Global;

/// An index that may be a large one, and its only pass.
pub(crate) fn alone(alloc: Global, pages: u32) -> Option<(Index, Pass)>
    ensures { IfSome result (λ t. IsPassOf t.0 t.1) }
{
    match Index::open_large(alloc, Config { pages, passes: 1 }) {
        Ok((index, mut passes)) => {
            let pass = passes.pop()?;
            Some((index, pass))
        }
        Err(_) => None,
    }
}

pub(crate) fn two_passes(alloc: Global, pages: u32) -> Option<(Index, Pass, Pass)>
    ensures { IfSome result (λ t. IsPassOf t.0 t.1 × IsPassOf t.0 t.2) }
{
    let config = Config { pages, passes: 2 };
    match Index::open(alloc, config) {
        Ok((index, mut passes)) => {
            let two = passes.pop()?;
            let one = passes.pop()?;
            Some((index, one, two))
        }
        Err(_) => None,
    }
}
