//! The image of rows.

ghost use Rattle.std.specs.Prelude.{◌≡◌, length, IfOk, IfErr};
ghost use Rattle.bl_load.specs.Loads.{HoldsRows, IsFaultOf};

use crate::building::build;
use crate::fault::LoadFault;
use crate::order::first_fall;
use crate::size::size_of;
use bl_check::Quiet;
use bl_model::limits::{LEAST_PAGES, MOST_LARGE_PAGES, MOST_PAIRS};
use std::alloc::Global;

/// A sound image of so many pages, 4 to 2^28, that has exactly these rows, whose keys rise. Each leaf has `fill` of them, 1 to 14,
/// and each page above as many children, but at least two; the leftmost page of a level has what is left. The highest level has one
/// page.
pub fn image_of(
    alloc: Global,
    rows: &[(u64, u64)],
    pages: u32,
    fill: u32,
) -> Result<Quiet, LoadFault>
    ensures rows { IfOk result (λ quiet. HoldsRows fill rows.now quiet.image.pages.items) }
    ensures pages { IfOk result (λ quiet. length quiet.image.pages.items ≡ pages) }
    ensures fault { IfErr result (IsFaultOf rows.now pages fill) }
{
    if pages < LEAST_PAGES || pages > MOST_LARGE_PAGES {
        return Err(LoadFault::Pages);
    }
    if fill < 1 || fill as usize > MOST_PAIRS {
        return Err(LoadFault::Fill);
    }
    if let Some(place) = first_fall(rows) {
        return Err(LoadFault::Order(place));
    }
    let size = size_of(rows.len(), fill as usize);
    if size.top > 1 {
        return Err(LoadFault::Levels);
    }
    if size.pages > u128::from(pages) {
        return Err(LoadFault::Room);
    }
    Ok(build(alloc, rows, pages, fill as usize)?)
}
