//! What a server keeps from one chunk of lines to the next.

ghost use Rattle.std.specs.Prelude.{◌≡◌, ◌<◌, ◌≤◌, vec_len};

use crate::summary::Remarks;
use bl_changes::Changes;
use bl_index::Pass;
use bl_map::Handle;
use bl_serve_ground::{Ground, Spare};
use bl_serve_lines::{Sectioning, Totals};
use bl_serve_worker::Slot;

/// How a server is to work.
#[derive(Clone, Copy, Debug, PartialEq, Eq)]
pub struct ServePlan {
    /// So many threads answer lines, at least 1.
    pub workers: u32,
    /// So many others follow hints.
    pub compressors: u32,
    /// Which lines end a section.
    pub sections: Sectioning,
    /// The index grows up to so many pages, where it begins with fewer.
    pub most: u32,
}

/// How lines are shared among threads.
#[derive(Clone, Copy, Debug, PartialEq, Eq)]
pub struct ThreadPlan {
    /// So many handles answer lines, the first ones. The others follow hints.
    pub workers: usize,
    /// Fewer requests than this are answered by one thread: another one would cost more time than it spares.
    pub alone: usize,
    /// Which lines end a section.
    pub sections: Sectioning,
}

/// The index of a server with all its passes, a slot for each of them, what was counted, and the changes and the output of the section that
/// is open.
#[derive(Drop)]
pub struct Session<'a> {
    pub plan: ThreadPlan,
    pub ground: Ground<'a>,
    pub passes: Vec<Pass>,
    pub spare: Spare,
    pub slots: Vec<Slot>,
    pub totals: Totals,
    pub remarks: Remarks,
    /// The rows that the section has changed so far, where these are noted.
    pub changes: Changes,
    pub text: Vec<u8>,
    pub ghost some: { 0 < vec_len passes },
    pub ghost paired: { vec_len slots ≡ vec_len passes },
    pub ghost counted: { totals.malformed ≤ totals.requests },
    pub ghost synced: { totals.sections ≤ totals.requests },
}

/// The same while lines are answered, with a handle for each pass in its place.
#[derive(Drop)]
pub struct Crew<'a> {
    pub plan: ThreadPlan,
    pub handles: Vec<Handle<'a>>,
    pub slots: Vec<Slot>,
    pub totals: Totals,
    pub remarks: Remarks,
    /// The rows that the section has changed so far, where these are noted.
    pub changes: Changes,
    pub text: Vec<u8>,
    pub ghost some: { 0 < vec_len handles },
    pub ghost paired: { vec_len slots ≡ vec_len handles },
    pub ghost counted: { totals.malformed ≤ totals.requests },
    pub ghost synced: { totals.sections ≤ totals.requests },
}
