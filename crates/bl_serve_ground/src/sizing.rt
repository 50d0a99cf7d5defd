//! How many pages an index is to have before insertions.

ghost use Rattle.std.specs.Prelude.{◌*◌, ◌-◌, ◌⊎◌, ◌<◌, ◌≤◌};
ghost use Rattle.bl_serve_ground.specs.Growing.{IsDoubled};
ghost use Rattle.bl_serve_ground.specs.Room.{splits};

use crate::ground::Limits;

/// So many pages at most are to be free beside those that lines may take, and a fourth of the pages of a small index: those that are retired,
/// and not released yet, are not free.
const BESIDE: u64 = 256;

/// And so many at least.
const LEAST_BESIDE: u64 = 8;

/// A leaf that was split splits again behind so many insertions into it, at the earliest.
const BETWEEN_SPLITS: u64 = 7;

/// An index of which less than one page in so many is used is larger than it is to be.
const SPARSE: u64 = 8;

/// It then has so many free pages for each that is used: before it grows again, more must be used.
const FREE_A_USED: u64 = 3;

/// And so many for each that was wanted lately: chunks that want more and less by turns do not make it shrink and grow.
const FREE_A_WANTED: u64 = 2;

/// How many of the lines to come change an index.
#[derive(Clone, Copy, Debug, PartialEq, Eq)]
pub struct Load {
    /// So many may enter a row.
    pub insertions: u64,
    /// So many delete one.
    pub deletions: u64,
}

/// How many pages are to be free before such lines in an index of so many that uses so many: each of its leaves may be full, and is full again
/// behind so many insertions, or behind a merge of what as many deletions have left. A fourth stands above leaves. Where fewer than a sixteenth
/// are free, changes look long for room.
pub(crate) fn wanted(load: Load, pages: u32, used: u64) -> u64
    ensures { splits load.insertions load.deletions used ≤ result }
{
    let Load {
        insertions,
        deletions,
    } = load;
    if insertions == 0 {
        return 0;
    }
    let filled = (insertions / BETWEEN_SPLITS).saturating_add(deletions / BETWEEN_SPLITS);
    let leaves = insertions.min(used.saturating_add(filled));
    let beside = BESIDE.min(u64::from(pages / 4) + LEAST_BESIDE);
    let pages_taken = leaves.saturating_add(leaves / 4).saturating_add(beside);
    pages_taken.max(u64::from(pages / 16))
}

/// Twice as many pages, as far as there may be so many.
fn once_larger(pages: u32, most: u32) -> u32
    requires { pages < most }
    ensures doubled { IsDoubled pages most result }
    ensures more { 0 < pages → pages < result }
{
    pages.saturating_mul(2).min(most)
}

/// So many pages, doubled until as many are free as are wanted while so many are used, as far as there may be so many.
pub(crate) fn larger(pages: u32, most: u32, used: u64, wanted: u64) -> u32
    requires { 0 < pages }
    ensures doubled { IsDoubled pages most result }
    ensures enough { (wanted ≤ result - used) ⊎ (most ≤ result) }
{
    let mut larger = pages;
    'doublings: while larger < most && u64::from(larger).saturating_sub(used) < wanted {
        larger = once_larger(larger, most);
    }
    larger
}

/// How many pages an index of so many may shrink to within these limits, where so many are used, and so many were wanted lately: as many as it
/// has where an eighth of them is used; else the fewest that leave enough of them free, which may be more.
pub(crate) fn size_within(pages: u32, limits: Limits, used: u64, wanted: u64) -> u32
    requires some { 0 < limits.least }
    requires size { IsDoubled limits.least limits.most pages }
    ensures { IsDoubled limits.least limits.most result }
{
    if used >= u64::from(pages) / SPARSE {
        return pages;
    }
    let for_used = used.saturating_mul(FREE_A_USED);
    let free = for_used.max(wanted.saturating_mul(FREE_A_WANTED));
    larger(limits.least, limits.most, used, free)
}
