//! How many pages rows need.

ghost use Rattle.std.specs.Prelude.{◌≡◌, ◌<◌, ◌≤◌, ◌+◌, ◌*◌, ◌^◌};
ghost use Rattle.bl_load.specs.Sizes.{pages_for as the_pages_for, pages_above, pages_on_top, size_for, top_for};

use bl_model::limits::MOST_LEVELS;

/// How many pages so many pairs take, with `fill` of them a page: one at least.
#[tactic(auto, using(crate::proofs::Levels::div_le))]
fn pages_for(pairs: u128, fill: u128) -> u128
    requires { 0 < fill }
    ensures pages { result ≡ the_pages_for fill pairs }
    ensures few { 0 < pairs → result ≤ pairs }
    ensures one { result ≤ pairs + 1 }
{
    if pairs == 0 {
        return 1;
    }
    (pairs - 1) / fill + 1
}

/// What stands above one level of a tree.
#[derive(Clone, Copy)]
struct Above {
    /// The pages of all levels above.
    pages: u128,
    /// The pages of the highest level.
    top: u128,
}

/// What stands above a level of so many pages, with `fan` children a page: a level of one page, or so many levels.
fn above_of(levels: u32, fan: u128, count: u128) -> Above
    requires fan { 0 < fan }
    requires levels { levels < 12 }
    requires count { count ≤ 2 ^ 64 }
    ensures pages { result.pages ≡ pages_above levels fan count }
    ensures few { result.pages ≤ 2 ^ 64 * 12 }
    ensures top { result.top ≡ pages_on_top levels fan count }
{
    let mut pages = 0;
    let mut top = count;
    for level in 0..levels {
        if top <= 1 {
            return Above { pages, top };
        }
        top = pages_for(top, fan);
        pages += top;
    }
    Above { pages, top }
}

/// How large a tree of rows is.
#[derive(Clone, Copy)]
pub(crate) struct Size {
    /// All its pages, the anchor among them.
    pub pages: u128,
    /// The pages of its highest level, which are more than one where it would need more than 12 levels.
    pub top: u128,
}

/// How large the tree of so many rows is, with `fill` rows a leaf, and as many children a page above, two at least.
pub(crate) fn size_of(rows: usize, fill: usize) -> Size
    requires { 0 < fill }
    ensures pages { result.pages ≡ size_for fill rows }
    ensures top { result.top ≡ top_for fill rows }
{
    let leaves = pages_for(rows as u128, fill as u128);
    let above = above_of(MOST_LEVELS as u32 - 1, fill.max(2) as u128, leaves);
    Size {
        pages: 1 + leaves + above.pages,
        top: above.top,
    }
}
