//! An image of rows.

ghost use Rattle.std.specs.Prelude.{◌≡◌, IfOk};
ghost use Rattle.bl_ffi.specs.Saved.{pairs_of, IsCodeOfLoad, WritesImage};

use crate::calls::Row;
use crate::codes::{BAD_FILL, BAD_PAGES, BAD_ROWS, FEW_BYTES, NO_MEMORY, NO_ROOM, OK};
use bl_image::image_length;
use bl_load::{LoadFault, image_of};
use std::alloc::{AllocError, Global};

/// The rows as pairs.
fn pairs_of(alloc: Global, rows: &[Row]) -> Result<Vec<(u64, u64)>, AllocError>
    ensures { IfOk result (λ v. v.items ≡ pairs_of rows.now) }
{
    let mut pairs = Vec::with_capacity(alloc, rows.len())?;
    for row in rows {
        pairs.push((row.key, row.value))?;
    }
    Ok(pairs)
}

/// The code of why there is no image.
fn code_of(why: LoadFault) -> i32
    ensures { IsCodeOfLoad why result }
{
    match why {
        LoadFault::Pages => BAD_PAGES,
        LoadFault::Fill | LoadFault::Levels => BAD_FILL,
        LoadFault::Order(_) => BAD_ROWS,
        LoadFault::Room => NO_ROOM,
        _ => NO_MEMORY,
    }
}

/// Writes an image of so many pages with these rows, whose keys rise. Each leaf has `fill` of them.
#[unsafe(no_mangle)]
pub extern "C" fn blink_image_of(
    alloc: Global,
    rows: &[Row],
    pages: u32,
    fill: u32,
    bytes: &mut [u8],
    long: &mut u64,
) -> i32
    ensures { WritesImage rows.now pages fill bytes.old bytes.new long.new result }
{
    let needed = image_length(pages);
    if needed > bytes.len() as u64 {
        *long = needed;
        return FEW_BYTES;
    }
    let Ok(pairs) = pairs_of(alloc, rows) else {
        return NO_MEMORY;
    };
    match image_of(alloc, pairs.as_slice(), pages, fill) {
        Ok(quiet) => {
            let image = quiet.image();
            let size = image.size();
            *long = size;
            image.spell(&mut bytes[..size as usize]);
            OK
        }
        Err(why) => code_of(why),
    }
}
