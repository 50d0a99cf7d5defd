//! A copy of a map that is in use.

ghost use Rattle.std.specs.Prelude.{◌≡◌};
ghost use Rattle.bl_index.specs.Calls.{first_of, pages_of, IsPassOf, IsSamePass, number_of, trail};
ghost use Rattle.bl_map_calls.specs.Copies.{Copies};

use crate::calls;
use bl_check::Quiet;
use bl_index::{Direction, Index, Pass};
use bl_load::{LoadFault, image_of};
use std::alloc::Global;
use std::sync::Wait;

/// Scans the whole map, and makes an image of the rows, with as many pages as the map has.
pub fn copy<R: Wait>(
    rt: &R,
    alloc: Global,
    index: &Index,
    pass: &mut Pass,
    fill: u32,
) -> Result<Quiet, LoadFault>
    requires { IsPassOf index.now pass.old }
    ensures same { IsSamePass pass.old pass.new }
    ensures copies { Copies (first_of index.now) (pages_of index.now) (number_of pass.old) fill result (trail pass.old) (trail pass.new) }
{
    let mut rows = Vec::new(alloc);
    match calls::scan(rt, index, pass, Direction::Up, 0, None, &mut rows) {
        Ok(()) => image_of(alloc, rows.as_slice(), index.tree().pages, fill),
        Err(_) => Err(LoadFault::Memory),
    }
}
