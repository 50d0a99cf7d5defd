//! The index of a server is opened.

ghost use Rattle.std.specs.Prelude.{◌≡◌, ◌≤◌, ◌^◌, [], IfOk};
ghost use Rattle.bl_index.specs.Opened.{IsBegun, IsReopened};
ghost use Rattle.bl_serve_ground.specs.Begun.{IsBegunFrom, IsOwn};
ghost use Rattle.bl_serve_ground.specs.Origins.{HasPages};

use crate::ground::{Ground, Limits};
use crate::origin::Origin;
use bl_check::Quiet;
use bl_index::{Config, Index, OpenFault, Pass};
use std::alloc::{AllocError, Global};

/// An index without rows, of so many pages, with so many passes.
fn open_empty(alloc: Global, pages: u32, passes: u32) -> Result<(Index, Vec<Pass>), AllocError>
    requires pages { (4 ≤ pages) × (pages ≤ 2 ^ 28) }
    requires passes { (1 ≤ passes) × (passes ≤ 64) }
    ensures { IfOk result (λ t. IsBegun [] pages passes t.0 t.1.items) }
{
    match Index::open_large(alloc, Config { pages, passes }) {
        Ok(opened) => Ok(opened),
        Err(OpenFault::Memory) => Err(AllocError),
        Err(_) => unreachable!(),
    }
}

/// An index with the pages of an image, and so many passes.
fn open_image(alloc: Global, quiet: Quiet, passes: u32) -> Result<(Index, Vec<Pass>), AllocError>
    requires { (1 ≤ passes) × (passes ≤ 64) }
    ensures { IfOk result (λ t. IsReopened quiet.image.pages.items passes t.0 t.1.items) }
{
    match Index::begin_with(alloc, quiet, passes) {
        Ok(opened) => Ok(opened),
        Err(OpenFault::Memory) => Err(AllocError),
        Err(_) => unreachable!(),
    }
}

/// An index that begins so, with so many passes. They have seen nothing yet.
pub fn open_index(
    alloc: Global,
    origin: Origin,
    passes: u32,
) -> Result<(Index, Vec<Pass>), AllocError>
    requires pages { HasPages origin }
    requires passes { (1 ≤ passes) × (passes ≤ 64) }
    ensures { IfOk result (λ t. IsBegunFrom origin passes t.0 t.1.items) }
{
    match origin {
        Origin::Empty(pages) => open_empty(alloc, pages, passes),
        Origin::Image(quiet) => open_image(alloc, quiet, passes),
    }
}

/// The index as a server's own, which may grow to so many pages, where these are more than it has, and shrink to as many as it has.
pub fn ground_of<'a>(index: Index, most: u32) -> Ground<'a>
    requires { most ≤ 2 ^ 28 }
    ensures { IsOwn index most result }
{
    let least = index.patience();
    let limits = Limits {
        least,
        most: least.max(most),
    };
    Ground::Own(index, limits)
}
