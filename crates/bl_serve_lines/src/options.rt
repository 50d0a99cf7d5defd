//! What a server is told on the command line.

ghost use Rattle.std.specs.Prelude.{◌≡◌, ◌≤◌, ◌^◌, Some};
ghost use Rattle.bl_serve_lines.specs.Options.{AreWithin, IsHeld, KeepsPages};

use bl_model::limits::{LEAST_PAGES, MOST_LARGE_PAGES, MOST_PAGES};

/// The pages with which a server begins where none are asked for.
pub const PAGES: u32 = 1024;
/// Its workers then, and the most.
pub const WORKERS: u32 = 4;

pub const MOST_WORKERS: u32 = 32;
/// Its compressors then, and the most.
pub const COMPRESSORS: u32 = 1;

pub const MOST_COMPRESSORS: u32 = 16;

/// The options of a server.
#[derive(Clone, Copy, Debug, PartialEq, Eq)]
pub struct ServeOptions {
    /// Pages with which the index begins, 4 to 65,536, and up to 2^28 of a large one.
    pub pages: u32,
    /// Pages up to which it grows, up to 2^28. Where they are as many as it begins with, it keeps them.
    pub most: u32,
    /// Threads that answer requests, 1 to 32.
    pub workers: u32,
    /// Threads that merge and even out pages, 0 to 16.
    pub compressors: u32,
}

/// The value of an option: what was given, brought within the limits, or the default.
fn held(value: Option<u32>, default: u32, least: u32, most: u32) -> u32
    requires limits { least ≤ most }
    requires above { least ≤ default }
    requires below { default ≤ most }
    ensures { IsHeld value default least most result }
{
    value.unwrap_or(default).clamp(least, most)
}

impl ServeOptions {
    /// The options for the values that were given. Each is brought within its limits; where none was given, the defaults
    /// are 1,024 pages, from which the index grows, 4 workers and 1 compressor.
    pub fn of(pages: Option<u32>, workers: Option<u32>, compressors: Option<u32>) -> ServeOptions
        ensures within { AreWithin result }
        ensures pages { IsHeld pages 1024 4 65536 result.pages }
        ensures most { KeepsPages pages result }
        ensures workers { IsHeld workers 4 1 32 result.workers }
        ensures compressors { IsHeld compressors 1 0 16 result.compressors }
    {
        let least = held(pages, PAGES, LEAST_PAGES, MOST_PAGES);
        ServeOptions {
            pages: least,
            most: if pages.is_some() {
                least
            } else {
                MOST_LARGE_PAGES
            },
            workers: held(workers, WORKERS, 1, MOST_WORKERS),
            compressors: held(compressors, COMPRESSORS, 0, MOST_COMPRESSORS),
        }
    }

    /// The same of a large index of so many pages, brought within its limits.
    pub fn having_large(self, pages: u32) -> ServeOptions
        requires { AreWithin self }
        ensures within { AreWithin result }
        ensures pages { IsHeld (Some pages) 1024 4 (2 ^ 28) result.pages }
        ensures most { result.most ≡ result.pages }
        ensures others { (result.workers ≡ self.workers) × (result.compressors ≡ self.compressors) }
    {
        let pages = held(Some(pages), PAGES, LEAST_PAGES, MOST_LARGE_PAGES);
        ServeOptions {
            pages,
            most: pages,
            ..self
        }
    }

    /// The same of an index that grows up to so many pages, brought within the limits: no fewer than it begins with.
    pub fn growing_to(self, most: u32) -> ServeOptions
        requires { AreWithin self }
        ensures within { AreWithin result }
        ensures most { IsHeld (Some most) self.pages self.pages (2 ^ 28) result.most }
        ensures others { (result.pages ≡ self.pages) × (result.workers ≡ self.workers) × (result.compressors ≡ self.compressors) }
    {
        ServeOptions {
            most: held(Some(most), self.pages, self.pages, MOST_LARGE_PAGES),
            ..self
        }
    }
}
