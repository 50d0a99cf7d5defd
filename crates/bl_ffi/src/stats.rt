//! How full a map is, and what a seat has left to do.

ghost use Rattle.std.specs.Prelude.{true, false};
ghost use Rattle.bl_ffi.specs.Told.{AreStatsOf, ShowsStats};

use crate::codes::{CLOSED, OK};
use crate::places::{put_back, taken};
use crate::seat::SeatOfC;
use bl_ffi_seats::Seat;
use std::alloc::Global;

/// How full a map is, and what one of its seats has left to do.
#[repr(C)]
#[derive(Clone, Copy)]
pub struct Stats {
    /// How many pages the map has.
    pub pages: u64,
    /// How many of them are free.
    pub free_pages: u64,
    /// How many are in use. The others are retired, and free once no call runs that began before.
    pub used_pages: u64,
    /// How many frames the map has.
    pub frames: u64,
    /// How many of them are free.
    pub free_frames: u64,
    /// How many pieces of upkeep of the seat wait.
    pub waiting: u64,
    /// How many were dropped.
    pub dropped: u64,
}

/// What is said of a seat without a look, beside what was said of the room.
fn glance(seat: &Seat, before: &Stats) -> Stats
    ensures { AreStatsOf false seat.now before.now result }
{
    Stats {
        pages: u64::from(seat.pages()),
        free_pages: seat.free_pages(),
        used_pages: before.used_pages,
        frames: before.frames,
        free_frames: before.free_frames,
        waiting: u64::from(seat.waiting()),
        dropped: seat.dropped(),
    }
}

/// What is said after a look at each page and each frame of the map.
fn look(seat: &Seat, before: &Stats) -> Stats
    ensures { AreStatsOf true seat.now before.now result }
{
    let seen = seat.room();
    Stats {
        pages: u64::from(seen.pages),
        free_pages: u64::from(seen.free_pages),
        used_pages: u64::from(seen.used_pages),
        frames: u64::from(seen.frames),
        free_frames: u64::from(seen.free_frames),
        waiting: u64::from(seat.waiting()),
        dropped: seat.dropped(),
    }
}

/// Says how full the map is, and what the seat has left to do. It is no event of the map. Where it is to look, it counts pages and frames by a
/// look at each.
#[unsafe(no_mangle)]
pub extern "C" fn blink_stat(
    alloc: Global,
    seat: &mut SeatOfC,
    is_to_look: bool,
    stats: &mut Stats,
) -> i32
    ensures { ShowsStats is_to_look seat.old seat.new stats.old stats.new result }
{
    let Some(mine) = taken(alloc, seat) else {
        return CLOSED;
    };
    *stats = if is_to_look {
        look(&mine, stats)
    } else {
        glance(&mine, stats)
    };
    put_back(alloc, seat, mine);
    OK
}
