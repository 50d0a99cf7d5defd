//! A map goes on with its rows laid out anew, in fewer pages.

ghost use Rattle.std.specs.Prelude.{IfOk, IfErr};
ghost use Rattle.bl_map.specs.Maps.{AreSeatsOf};
ghost use Rattle.bl_map.specs.Shrunk.{IsMapShrunk, IsMapNotShrunk, ShrinkingAddsALife};

use crate::handle::Handle;
use crate::map::{Map, MapLoadFault};
use bl_check::Quiet;
use bl_index::{CloseFault, Pass};
use bl_load::{LoadFault, rows_of};
use std::alloc::Global;

/// So many rows stand in each leaf of a map that was shrunk, the leftmost one aside: two more fit into each before one is split.
const FILL: u32 = 12;

/// A map of which less than one page in so many is in use is to be shrunk.
const SPARSE: u32 = 8;

/// What there is in place of a map that was not shrunk.
#[derive(Drop)]
pub enum UnshrunkMap {
    /// The map and its seats, as they were.
    Kept(Map, Vec<Pass>, CloseFault),
    /// The map is closed, and none was opened with so many pages: its image, from which another one may be opened, and why. `Room` says
    /// that its rows need more pages.
    Closed(Quiet, MapLoadFault),
}

/// Says that a map which is shrunk goes on behind its lives so far: that the histories of all of them, one behind another, are one. It does
/// nothing when it runs.
pub fn shrinking_adds_a_life()
    ensures { ShrinkingAddsALife }
{}

impl Map {
    /// The map goes on with its rows laid out anew in so many pages, 4 to 2^28: in fewer than it has, once most rows have gone. It takes all
    /// seats, and gives as many new ones: what each of them sees begins anew, with the map after all that has happened so far. Where a
    /// seat is missing, nothing is closed. For a moment it takes the memory of the rows, of both images and of the new map.
    pub fn shrink(
        self,
        alloc: Global,
        seats: Vec<Pass>,
        pages: u32,
    ) -> Result<(Map, Vec<Pass>), UnshrunkMap>
        requires own { AreSeatsOf self seats.items }
        ensures ok { IfOk result (λ t. IsMapShrunk self seats.items pages t.0 t.1.items) }
        ensures seats { IfOk result (λ t. AreSeatsOf t.0 t.1.items) }
        ensures fault { IfErr result (IsMapNotShrunk self seats.items pages) }
    {
        let among = self.index.tree().passes;
        let image = match self.index.close(alloc, seats) {
            Ok(image) => image,
            Err((index, seats, why)) => return Err(UnshrunkMap::Kept(Map { index }, seats, why)),
        };
        let Ok(rows) = rows_of(alloc, &image) else {
            let why = MapLoadFault::Rows(LoadFault::Memory);
            return Err(UnshrunkMap::Closed(image, why));
        };
        match Map::load(alloc, rows.as_slice(), pages, FILL, among) {
            Ok(opened) => Ok(opened),
            Err(why) => Err(UnshrunkMap::Closed(image, why)),
        }
    }
}

impl<'a> Handle<'a> {
    /// Whether less than an eighth of the pages is in use, about: such a map may be shrunk to half of them, and is not short then.
    pub fn is_sparse(&self) -> bool {
        let pages = self.index.patience();
        self.free_pages() > u64::from(pages - pages / SPARSE)
    }
}
