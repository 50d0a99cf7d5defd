//! The index of a server has the pages that the lines to come want.

ghost use Rattle.std.specs.Prelude.{◌≡◌, IfOk, vec_len};
ghost use Rattle.bl_serve_ground.specs.Room.{IsReady};
ghost use Rattle.bl_serve_ground.specs.Standing.{IsAtRest, Resettles};

use crate::ground::Ground;
use crate::resizing::widened;
use crate::shrinking::narrowed;
use crate::sizing::Load;
use crate::spare::Spare;
use bl_index::Pass;
use std::alloc::{AllocError, Global};

/// The index of a server, with room for such lines, as far as it may grow; where most of its pages are free it may shrink. Nothing is
/// known to work: all handles have given their seats back.
pub fn settled<'a>(
    alloc: Global,
    ground: Ground<'a>,
    passes: Vec<Pass>,
    spare: Spare,
    load: Load,
) -> Result<(Ground<'a>, Vec<Pass>, Spare), AllocError>
    requires { IsAtRest ground passes.items }
    ensures count { IfOk result (λ t. vec_len t.1 ≡ vec_len passes) }
    ensures resettles { IfOk result (λ t. Resettles ground.entry passes.items t.0 t.1.items) }
    ensures ready { IfOk result (λ t. IsReady load t.0 t.2) }
{
    match ground {
        Ground::Lent(index) => Ok((Ground::Lent(index), passes, spare)),
        Ground::Own(index, limits) => {
            let (index, passes, spare) = narrowed(alloc, index, passes, limits, spare, load)?;
            let (index, passes, spare) = widened(alloc, index, passes, limits, spare, load)?;
            Ok((Ground::Own(index, limits), passes, spare))
        }
    }
}
