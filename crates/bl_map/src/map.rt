//! The map, which its threads share.

ghost use Rattle.std.specs.Prelude.{◌≡◌, IfOk, IfErr};
ghost use Rattle.bl_map.specs.Maps.{IsSeatOf, AreSeatsOf, IsNewHandle, IsMapOpened, IsOpenFault, IsMapReopened, IsImageFault, IsLoaded, IsLoadFault, IsClosed, IsBack, IsMapResized, IsMapNotResized};
ghost use Rattle.bl_index.specs.Calls.{pages_of};
ghost use Rattle.bl_map.specs.Stamps.{IsNewStamp};

use crate::handle::Handle;
use crate::stamping::Stamp;
use bl_check::Quiet;
use bl_index::{CloseFault, Config, Index, OpenFault, Pass, ResizeFault, Unresized};
use bl_load::{LoadFault, image_of};
use std::alloc::Global;

/// A map that threads share.
#[derive(Drop)]
pub struct Map {
    pub(crate) index: Index,
}

/// A map that is to grow begins with so many pages.
const FIRST_PAGES: u32 = 1_024;

/// What there is in place of a map that was not resized.
#[derive(Drop)]
pub enum UnresizedMap {
    /// The map and its seats, as they were.
    Kept(Map, Vec<Pass>, ResizeFault),
    /// There was no memory for the larger map behind the close of this one: its image, from which another one may be opened.
    Closed(Quiet),
}

/// Why no map was loaded.
#[derive(Clone, Copy, Debug, PartialEq, Eq)]
pub enum MapLoadFault {
    /// There is no such image of the rows.
    Rows(LoadFault),
    /// The map was not opened from it.
    Open(OpenFault),
}

impl Map {
    /// An empty map of so many pages, 4 to 2^28, and a seat for each of so many threads, 1 to 64.
    pub fn open(alloc: Global, pages: u32, seats: u32) -> Result<(Map, Vec<Pass>), OpenFault>
        ensures ok { IfOk result (λ t. IsMapOpened pages seats t.0 t.1.items) }
        ensures seats { IfOk result (λ t. AreSeatsOf t.0 t.1.items) }
        ensures fault { IfErr result (IsOpenFault pages seats) }
    {
        let config = Config {
            pages,
            passes: seats,
        };
        let (index, seats) = Index::open_large(alloc, config)?;
        Ok((Map { index }, seats))
    }

    /// An empty map of 1,024 pages, for who has it resized as it fills, and a seat for each of so many threads, 1 to 64.
    pub fn new(alloc: Global, seats: u32) -> Result<(Map, Vec<Pass>), OpenFault>
        ensures ok { IfOk result (λ t. IsMapOpened 1024 seats t.0 t.1.items) }
        ensures seats { IfOk result (λ t. AreSeatsOf t.0 t.1.items) }
        ensures fault { IfErr result (IsOpenFault 1024 seats) }
    {
        Map::open(alloc, FIRST_PAGES, seats)
    }

    /// A map that begins with the rows of a sound image, with as many pages, and a seat for each of so many threads, 1 to 64. Where it
    /// is not opened, the image comes back as it was.
    pub fn open_image(
        alloc: Global,
        image: Quiet,
        seats: u32,
    ) -> Result<(Map, Vec<Pass>), (Quiet, OpenFault)>
        ensures ok { IfOk result (λ t. IsMapReopened image seats t.0 t.1.items) }
        ensures seats { IfOk result (λ t. AreSeatsOf t.0 t.1.items) }
        ensures fault { IfErr result (λ t. (t.0 ≡ image) × IsImageFault seats t.1) }
    {
        let (index, seats) = Index::open_image(alloc, image, seats)?;
        Ok((Map { index }, seats))
    }

    /// A map of so many pages, 4 to 2^28, that begins with these rows, whose keys rise, and a seat for each of so many threads, 1 to
    /// 64. Each leaf has `fill` of the rows, 1 to 14, and each page above as many children, but at least two; the leftmost page of a
    /// level has what is left. No row is inserted on the way.
    pub fn load(
        alloc: Global,
        rows: &[(u64, u64)],
        pages: u32,
        fill: u32,
        seats: u32,
    ) -> Result<(Map, Vec<Pass>), MapLoadFault>
        ensures ok { IfOk result (λ t. IsLoaded rows.now pages fill seats t.0 t.1.items) }
        ensures seats { IfOk result (λ t. AreSeatsOf t.0 t.1.items) }
        ensures fault { IfErr result (IsLoadFault rows.now pages fill seats) }
    {
        let image = match image_of(alloc, rows, pages, fill) {
            Ok(image) => image,
            Err(fault) => return Err(MapLoadFault::Rows(fault)),
        };
        match Map::open_image(alloc, image, seats) {
            Ok(opened) => Ok(opened),
            Err((_, why)) => Err(MapLoadFault::Open(why)),
        }
    }

    /// How many pages it has.
    pub fn pages(&self) -> u32
        ensures { result ≡ pages_of self.now.index }
    {
        self.index.patience()
    }

    /// The handle by which a thread works from a seat of this map.
    pub fn handle(&self, seat: Pass) -> Handle<'_>
        requires { IsSeatOf self.now seat }
        ensures { IsNewHandle self.now seat result }
    {
        Handle::over(&self.index, seat)
    }

    /// A stamp, which threads pass along with what they hand to one another. It takes a seat of this map.
    pub fn stamp(&self, seat: Pass) -> Stamp<'_>
        requires { IsSeatOf self.now seat }
        ensures { IsNewStamp self.now seat result }
    {
        Stamp::over(&self.index, seat)
    }

    /// Closes the map: a sound image, whose rows are those of the map after all that has happened. It takes all seats. Where one is
    /// missing, or there is no memory, the map and the seats come back as they were.
    pub fn close(
        self,
        alloc: Global,
        seats: Vec<Pass>,
    ) -> Result<Quiet, (Map, Vec<Pass>, CloseFault)>
        requires own { AreSeatsOf self seats.items }
        ensures ok { IfOk result (IsClosed self seats.items) }
        ensures fault { IfErr result (λ t. IsBack self seats.items t.0 t.1.items t.2) }
    {
        match self.index.close(alloc, seats) {
            Ok(image) => Ok(image),
            Err((index, seats, why)) => Err((Map { index }, seats, why)),
        }
    }

    /// The map goes on with so many pages, as many as it has or more, up to 2^28. It takes all seats, and gives as many new ones: what
    /// each of them sees begins anew, with the map after all that has happened so far. Where a seat is missing or the pages are not
    /// within these limits, nothing is closed.
    pub fn resize(
        self,
        alloc: Global,
        seats: Vec<Pass>,
        pages: u32,
    ) -> Result<(Map, Vec<Pass>), UnresizedMap>
        requires own { AreSeatsOf self seats.items }
        ensures ok { IfOk result (λ t. IsMapResized self seats.items pages t.0 t.1.items) }
        ensures seats { IfOk result (λ t. AreSeatsOf t.0 t.1.items) }
        ensures fault { IfErr result (IsMapNotResized self seats.items pages) }
    {
        match self.index.resize(alloc, seats, pages) {
            Ok((index, seats)) => Ok((Map { index }, seats)),
            Err(Unresized::Kept(index, seats, why)) => {
                Err(UnresizedMap::Kept(Map { index }, seats, why))
            }
            Err(Unresized::Closed(image)) => Err(UnresizedMap::Closed(image)),
        }
    }
}
