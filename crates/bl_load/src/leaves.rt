//! The rows of a sound image.

ghost use Rattle.std.specs.Prelude.{◌≡◌, IfOk, MatchOption};
ghost use Rattle.bl_page.specs.Pages.{page_at};
ghost use Rattle.bl_check.specs.Rows.{AreRowsOf};
ghost use Rattle.bl_check.specs.Spans.{leftmost as the_leftmost};
ghost use Rattle.bl_load.specs.Loads.{IsLeaf, IsNoLeaf};

use bl_check::Quiet;
use bl_page::{Leaf, Page};
use std::alloc::{AllocError, Global};

/// The leftmost leaf, as page 0 says.
fn leftmost(pages: &[Option<Page>]) -> u32
    ensures { result ≡ the_leftmost pages.now 0 }
{
    match pages.first() {
        Some(Some(Page::Anchor(anchor))) => match anchor.leftmost.as_slice().first() {
            Some(first) => *first,
            None => 0,
        },
        _ => 0,
    }
}

/// The leaf of that number, if it is one.
fn leaf_at(pages: &[Option<Page>], x: u32) -> Option<&Leaf>
    ensures { MatchOption result (IsNoLeaf (page_at pages.now x)) (λ leaf. IsLeaf leaf.now (page_at pages.now x)) }
{
    match pages.get(x as usize) {
        Some(Some(Page::Leaf(leaf))) => Some(leaf),
        _ => None,
    }
}

/// The rows of a sound image by rising keys, along the chain of its leaves.
pub fn rows_of(alloc: Global, quiet: &Quiet) -> Result<Vec<(u64, u64)>, AllocError>
    ensures { IfOk result (λ rows. AreRowsOf quiet.now.image.pages.items rows.items) }
{
    let pages = quiet.image().pages.as_slice();
    let mut rows = Vec::new(alloc);
    let mut x = leftmost(pages);
    let mut low = 0u64;
    // Each leaf of the chain begins where the one before ends, so that the walk comes to its end.
    'leaves: while let Some(leaf) = leaf_at(pages, x) {
        rows.extend_from_slice(leaf.rows.as_slice())?;
        if leaf.right == 0 {
            return Ok(rows);
        }
        low = leaf.high;
        x = leaf.right;
    }
    Ok(rows)
}
