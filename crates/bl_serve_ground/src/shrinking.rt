//! An index goes on with its rows laid out anew, in fewer pages.

ghost use Rattle.std.specs.Prelude.{◌≡◌, ◌<◌, All, IfOk, length};
ghost use Rattle.bl_index.specs.Calls.{IsPassOf, pages_of, passes_of};
ghost use Rattle.bl_serve_ground.specs.Growing.{GoesOnWith, GoesOnWithin, IsDoubled, LaysOut};

use crate::ground::Limits;
use crate::sizing::{Load, size_within, wanted};
use crate::spare::Spare;
use bl_check::Quiet;
use bl_index::{Index, Pass};
use bl_load::{LoadFault, image_of, rows_of};
use std::alloc::{AllocError, Global};

/// So many rows stand in each leaf of an index that was shrunk, the leftmost one aside: two more fit into each before one is split.
const FILL: u32 = 12;

/// An image of so many pages with the rows of that one.
fn laid_out(alloc: Global, quiet: &Quiet, pages: u32) -> Result<Quiet, LoadFault>
    ensures { IfOk result (λ laid. LaysOut quiet.now.image.pages.items pages laid.image.pages.items) }
{
    let rows = rows_of(alloc, quiet)?;
    image_of(alloc, rows.as_slice(), pages, FILL)
}

/// The index with its rows laid out anew in so many pages. Where there is no memory for that, or no room, it is as it was, or opened again from
/// its image.
fn shrunk(
    alloc: Global,
    index: Index,
    passes: Vec<Pass>,
    pages: u32,
) -> Result<(Index, Vec<Pass>), AllocError>
    requires own { All (IsPassOf index) passes.items }
    requires count { length passes.items ≡ passes_of index }
    ensures { IfOk result (λ t. GoesOnWith index passes.items pages t.0 t.1.items) }
{
    let Ok(count) = u32::try_from(passes.len()) else {
        return Err(AllocError);
    };
    let quiet = match index.close(alloc, passes) {
        Ok(quiet) => quiet,
        Err((index, passes, _)) => return Ok((index, passes)),
    };
    if let Ok(laid) = laid_out(alloc, &quiet, pages) {
        if let Ok(opened) = Index::open_image(alloc, laid, count) {
            return Ok(opened);
        }
    }
    match Index::open_image(alloc, quiet, count) {
        Ok(opened) => Ok(opened),
        Err(_) => Err(AllocError),
    }
}

/// The index with fewer pages, within these limits, where most of those that it has are free, and stay so before such lines; and what is
/// known of its room then.
pub(crate) fn narrowed(
    alloc: Global,
    index: Index,
    passes: Vec<Pass>,
    limits: Limits,
    spare: Spare,
    load: Load,
) -> Result<(Index, Vec<Pass>, Spare), AllocError>
    requires own { All (IsPassOf index) passes.items }
    requires count { length passes.items ≡ passes_of index }
    requires some { 0 < limits.least }
    requires size { IsDoubled limits.least limits.most (pages_of index) }
    ensures { IfOk result (λ t. GoesOnWithin limits index passes.items t.0 t.1.items) }
{
    let pages = index.patience();
    let used = spare.used(pages);
    let spare = spare.wanting(wanted(load, pages, used));
    let size = size_within(pages, limits, used, spare.wanted);
    if size >= pages || spare.is_fixed {
        return Ok((index, passes, spare));
    }
    let (index, passes) = shrunk(alloc, index, passes, size)?;
    let now = index.patience();
    let spare = Spare {
        free: u64::from(index.room().free_pages),
        // One that has shrunk may grow again, even where memory for a larger one was refused.
        is_refused: spare.is_refused && now >= pages,
        is_fixed: now > size,
        ..spare
    };
    Ok((index, passes, spare))
}
