//! The opening index.

ghost use Rattle.std.specs.Prelude.{◌≡◌, ◌≤◌, [], ◌∷◌, length, IfOk};
ghost use Rattle.bl_page.specs.declared.page.Page.TheVariants as page;
ghost use Rattle.bl_page.specs.Tops.{IsAnchor};
ghost use Rattle.bl_world.specs.Views.{view_of};
ghost use Rattle.bl_world.specs.WorldSteps.{IsEmptyLeaf, AreEmptyLeaves, AreReleased, IsOpening};

use crate::lists::Lists;
use crate::owners::Owner;
use arrayvec::ArrayVec;
use bl_page::{Anchor, Leaf, Page};
use std::alloc::{AllocError, Global};

/// A leaf that covers every key and has no row.
fn empty_leaf() -> Page
    ensures { IsEmptyLeaf result }
{
    Page::Leaf(Leaf {
        low: 0,
        high: 0,
        right: 0,
        rows: ArrayVec::new(),
    })
}

/// The anchor of a tree whose only page is page 1.
fn anchor() -> Page
    ensures { IsAnchor (1 ∷ []) result }
{
    let mut leftmost = ArrayVec::new();
    leftmost.push(1);
    Page::Anchor(Anchor { leftmost })
}

/// That many empty leaves.
fn empty_leaves(alloc: Global, count: u32) -> Result<Vec<Page>, AllocError>
    ensures { IfOk result (λ pages. AreEmptyLeaves count pages.items) }
{
    let mut pages = Vec::new(alloc);
    for _ in 0..count {
        pages.push(empty_leaf())?;
    }
    Ok(pages)
}

/// That many owners of pages that nobody uses.
fn released(alloc: Global, count: u32) -> Result<Vec<Owner>, AllocError>
    ensures { IfOk result (λ owners. AreReleased count owners.items) }
{
    let mut owners = Vec::new(alloc);
    for _ in 0..count {
        owners.push(Owner::Released)?;
    }
    Ok(owners)
}

/// The opening index of that many pages.
pub fn opening(alloc: Global, count: u32) -> Result<Lists, AllocError>
    requires least { 4 ≤ count }
    requires most { count ≤ 65536 }
    ensures { IfOk result (λ lists. IsOpening count (view_of lists)) }
{
    let mut pages = empty_leaves(alloc, count)?;
    pages[0] = anchor();
    let mut owners = released(alloc, count)?;
    owners[0] = Owner::Open;
    owners[1] = Owner::Open;
    Ok(Lists {
        pages,
        owners,
        processes: Vec::new(alloc),
        events: Vec::new(alloc),
    })
}
