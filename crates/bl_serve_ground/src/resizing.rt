//! An index goes on with more pages.

ghost use Rattle.std.specs.Prelude.{◌≡◌, ◌<◌, All, IfOk, length};
ghost use Rattle.bl_index.specs.Calls.{IsPassOf, pages_of, passes_of};
ghost use Rattle.bl_serve_ground.specs.Growing.{GoesOnWith, GoesOnWithin, IsDoubled};
ghost use Rattle.bl_serve_ground.specs.Room.{HasRoomFor};

use crate::ground::Limits;
use crate::sizing::{Load, larger, wanted};
use crate::spare::Spare;
use bl_index::{Index, Pass, Unresized};
use std::alloc::{AllocError, Global};

/// The index with so many pages. Where memory for them is refused, it is as it was, or opened again from its image.
fn resized(
    alloc: Global,
    index: Index,
    passes: Vec<Pass>,
    pages: u32,
) -> Result<(Index, Vec<Pass>), AllocError>
    requires own { All (IsPassOf index) passes.items }
    requires count { length passes.items ≡ passes_of index }
    ensures { IfOk result (λ t. GoesOnWith index passes.items pages t.0 t.1.items) }
{
    let Ok(count) = u32::try_from(passes.len()) else {
        return Err(AllocError);
    };
    match index.resize(alloc, passes, pages) {
        Ok(resized) => Ok(resized),
        Err(Unresized::Kept(index, passes, _)) => Ok((index, passes)),
        Err(Unresized::Closed(quiet)) => match Index::open_image(alloc, quiet, count) {
            Ok(opened) => Ok(opened),
            Err(_) => Err(AllocError),
        },
    }
}

/// The index with as many pages as such lines may want, within these limits, and what is known of its room then.
pub(crate) fn widened(
    alloc: Global,
    index: Index,
    passes: Vec<Pass>,
    limits: Limits,
    spare: Spare,
    load: Load,
) -> Result<(Index, Vec<Pass>, Spare), AllocError>
    requires own { All (IsPassOf index) passes.items }
    requires count { length passes.items ≡ passes_of index }
    requires some { 0 < pages_of index }
    requires size { IsDoubled limits.least limits.most (pages_of index) }
    ensures goes { IfOk result (λ t. GoesOnWithin limits index passes.items t.0 t.1.items) }
    ensures room { IfOk result (λ t. HasRoomFor load limits t.0 t.2) }
{
    let pages = index.patience();
    let used = spare.used(pages);
    let wanted = wanted(load, pages, used);
    let size = larger(pages, limits.most, used, wanted);
    if size == pages || spare.is_refused {
        return Ok((index, passes, spare));
    }
    let (index, passes) = resized(alloc, index, passes, size)?;
    let spare = spare.behind(pages, size, index.patience());
    Ok((index, passes, spare))
}
