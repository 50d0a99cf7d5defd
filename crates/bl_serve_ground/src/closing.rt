//! The index of a server is closed.

ghost use Rattle.std.specs.Prelude.{◌≡◌, ◌<◌, IfOk, vec_len};
ghost use Rattle.bl_claims.specs.Trails.{history_of};
ghost use Rattle.bl_claims.specs.Seeing.{first_map};
ghost use Rattle.bl_index.specs.Calls.{first_of, pages_of};
ghost use Rattle.bl_serve_ground.specs.Leaving.{HoldMapAfter};
ghost use Rattle.bl_serve_ground.specs.Standing.{IsOwned, index_in};
ghost use Rattle.bl_serve_ground.specs.Together.{AreTogether, seen_by};

use crate::ground::Ground;
use bl_check::Quiet;
use bl_index::{CloseFault, Index, Pass};
use std::alloc::{AllocError, Global};

/// The index of a server that has one of its own.
pub fn own_index(ground: Ground<'_>) -> Index
    requires { IsOwned ground }
    ensures { result ≡ index_in ground.entry }
{
    match ground {
        Ground::Own(index, _) => index,
        Ground::Lent(_) => unreachable!(),
    }
}

/// Closes an index by all its passes, which have met: its image has the rows of the map after what they have seen.
pub fn shut(alloc: Global, index: Index, passes: Vec<Pass>) -> Result<Quiet, AllocError>
    requires some { 0 < vec_len passes }
    requires together { AreTogether index (seen_by passes.items) passes.items }
    ensures { IfOk result (λ quiet. HoldMapAfter (first_map (first_of index)) (history_of (seen_by passes.items)) (pages_of index, pages_of index) quiet.image.pages.items) }
{
    match index.close(alloc, passes) {
        Ok(quiet) => Ok(quiet),
        Err((_, _, CloseFault::Memory)) => Err(AllocError),
        Err((_, _, CloseFault::Pass)) => unreachable!(),
    }
}
