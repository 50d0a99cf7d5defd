//! The pages of a tree, level by level.
//!
//! A level is built from right to left, so that each link leads to a page that is there already. What is left for the leftmost page
//! of a level may be less than the others have.

ghost use Rattle.std.specs.Prelude.{◌≡◌, ◌<◌, ◌≤◌, ◌+◌, ◌++◌, ◌∷◌, ◌^◌, ℕ, List, [], None, Some, length, slice_index_or, reverse, IfOk, IfErr, OnOk};
ghost use Rattle.std.specs.List.{AllByRecursion};
ghost use Rattle.bl_page.specs.declared.page.Page.{Page};
ghost use Rattle.bl_page.specs.Pages.{page_at};
ghost use Rattle.bl_check.specs.Rules.{AreSound};
ghost use Rattle.bl_check.specs.Rows.{AreRowsOf};
ghost use Rattle.bl_page.specs.Pairs.{AreChildren};
ghost use Rattle.bl_load.specs.Loads.{IsFull, HoldsRows, HasOneTop, IsLoadable};
ghost use Rattle.bl_model.specs.Rows.{HasRisingKeys};
ghost use Rattle.bl_load.specs.Sizes.{pages_for, size_for, top_for};
ghost use Rattle.bl_load.specs.Trees.{fan_for, MayList, IsPageAt, IsForest, AreListed, IsReady, IsLevel, IsCounted, HasRoomAbove, IsUnlinked, IsTree, IsPadded};

use crate::making::{Place, anchor_of, page_of};
use arrayvec::ArrayVec;
use bl_check::Quiet;
use bl_image::Image;
use bl_model::limits::MOST_LEVELS;
use bl_page::Page;
use std::alloc::{AllocError, Global};

/// A tree that is built.
#[derive(Drop)]
struct Tree {
    /// Its pages, each by its number; page 0 waits for the anchor.
    pages: Vec<Option<Page>>,
    /// The leftmost page of each level that is there.
    leftmost: ArrayVec<u32, MOST_LEVELS>,
    /// How many pages there may be.
    most: u32,
    ghost some: { 4 ≤ most },
    ghost limit: { most ≤ 2 ^ 28 },
}

/// The least key that each page of a level covers, and its number.
type Entries = Vec<(u64, u64)>;

/// Puts a page behind the others.
fn put_page(pages: &mut Vec<Option<Page>>, page: Option<Page>) -> Result<(), AllocError>
    ensures { OnOk result (pages.new.items ≡ pages.old.items ++ page ∷ []) }
{
    pages.push(page)?;
    Ok(())
}

/// Puts an entry behind the others.
fn put_entry(entries: &mut Entries, entry: (u64, u64)) -> Result<(), AllocError>
    ensures { OnOk result (entries.new.items ≡ entries.old.items ++ entry ∷ []) }
{
    entries.push(entry)?;
    Ok(())
}

/// The entries in turned order.
fn turned(alloc: Global, entries: &[(u64, u64)]) -> Result<Entries, AllocError>
    ensures { IfOk result (λ all. all.items ≡ reverse entries.now) }
{
    entries.iter().rev().copied().collect(alloc)
}

/// How many pairs a page of a level has.
fn fan_of(level: u32, fill: usize) -> usize
    requires { (0 < fill) × (fill ≤ 14) }
    ensures same { result ≡ fan_for fill level }
    ensures some { 0 < result }
    ensures few { result ≤ 14 }
{
    if level == 0 { fill } else { fill.max(2) }
}

impl Tree {
    /// Page 0 alone.
    fn new(alloc: Global, most: u32) -> Result<Tree, AllocError>
        requires { (4 ≤ most) × (most ≤ 2 ^ 28) }
        ensures most { IfOk result (λ tree. tree.most ≡ most) }
        ensures pages { IfOk result (λ tree. tree.pages.items ≡ None ∷ []) }
        ensures leftmost { IfOk result (λ tree. tree.leftmost.items ≡ []) }
    {
        let mut pages = Vec::with_capacity(alloc, most as usize)?;
        put_page(&mut pages, None)?;
        let leftmost = ArrayVec::new();
        Ok(Tree {
            pages,
            leftmost,
            most,
        })
    }

    /// Puts a page behind the others, and gives its number.
    fn add_page(&mut self, place: Place, pairs: &[(u64, u64)]) -> Result<u32, AllocError>
        requires level { place.level < 12 }
        requires room { length self.old.pages.items < self.old.most }
        requires pairs { MayList (record { level = place.level; low = place.low; high = place.high; right = place.right }) pairs.now }
        ensures page { IfOk result (λ number. (number ≡ length self.old.pages.items) × ((page : Page)
            × IsPageAt (record { level = place.level; low = place.low; high = place.high; right = place.right }) pairs.now page
            × (self.new.pages.items ≡ self.old.pages.items ++ Some page ∷ []))) }
        ensures leftmost { self.new.leftmost.items ≡ self.old.leftmost.items }
        ensures most { self.new.most ≡ self.old.most }
    {
        let number = self.pages.len();
        let page = page_of(place, pairs);
        put_page(&mut self.pages, Some(page))?;
        Ok(number as u32)
    }

    /// Builds one level of these pairs, and gives its entries by rising keys.
    fn add_level(
        &mut self,
        alloc: Global,
        level: u32,
        pairs: &[(u64, u64)],
        fill: usize,
    ) -> Result<Entries, AllocError>
        requires fill { (0 < fill) × (fill ≤ 14) }
        requires level { level < 12 }
        requires forest { IsForest fill self.old.pages.items self.old.leftmost.items level 0 }
        requires listed { AreListed self.old.pages.items level pairs.now }
        requires ready { IsReady (fan_for fill level) level (length self.old.pages.items) self.old.most pairs.now }
        ensures built { IfOk result (λ entries. IsLevel fill level self.old.pages.items self.old.leftmost.items pairs.now
            self.new.pages.items self.new.leftmost.items entries.items) }
        ensures counted { IfOk result (λ entries. IsCounted (fan_for fill level) (length self.old.pages.items) (length self.new.pages.items)
            pairs.now entries.items) }
        ensures alone { IfOk result (λ entries. length entries.items ≡ 1
            → IsUnlinked self.new.pages.items (slice_index_or self.new.leftmost.items level 0)) }
        ensures most { self.new.most ≡ self.old.most }
    {
        let fan = fan_of(level, fill);
        let mut entries = Vec::new(alloc);
        let mut high = 0;
        let mut right = 0;
        let mut rest = pairs;
        'pages: while rest.len() > fan {
            let (front, back) = rest.split_at(rest.len() - fan);
            let low = back[0].0;
            let place = Place {
                level,
                low,
                high,
                right,
            };
            right = self.add_page(place, back)?;
            put_entry(&mut entries, (low, u64::from(right)))?;
            high = low;
            rest = front;
        }
        let place = Place {
            level,
            low: 0,
            high,
            right,
        };
        let first = self.add_page(place, rest)?;
        put_entry(&mut entries, (0, u64::from(first)))?;
        let entries = turned(alloc, entries.as_slice())?;
        self.leftmost.push(first);
        Ok(entries)
    }

    /// Builds all levels, until one page is left.
    fn add_levels(
        &mut self,
        alloc: Global,
        rows: &[(u64, u64)],
        fill: usize,
    ) -> Result<(), AllocError>
        requires fill { (0 < fill) × (fill ≤ 14) }
        requires forest { IsForest fill self.old.pages.items self.old.leftmost.items 0 0 }
        requires ready { IsReady fill 0 (length self.old.pages.items) self.old.most rows.now }
        requires above { HasRoomAbove (fan_for fill 1) 11 (length self.old.pages.items + pages_for fill (length rows.now)) self.old.most (pages_for fill (length rows.now)) }
        ensures tree { OnOk result (IsTree fill rows.now self.new.pages.items self.new.leftmost.items) }
        ensures few { OnOk result (length self.new.pages.items ≤ self.old.most) }
        ensures most { self.new.most ≡ self.old.most }
    {
        let mut entries = self.add_level(alloc, 0, rows, fill)?;
        for level in 1..MOST_LEVELS as u32 {
            if entries.len() == 1 {
                return Ok(());
            }
            entries = self.add_level(alloc, level, entries.as_slice(), fill)?;
        }
        Ok(())
    }
}

/// These pages, and behind them such as are not in use: so many in all.
fn padded(pages: Vec<Option<Page>>, count: usize) -> Result<Vec<Option<Page>>, AllocError>
    requires { length pages.items ≤ count }
    ensures { IfOk result (λ all. IsPadded pages.items count all.items) }
{
    let mut all = pages;
    for x in all.len()..count {
        put_page(&mut all, None)?;
    }
    Ok(all)
}

impl Tree {
    /// The image of these pages under their anchor.
    fn into_image(self) -> Result<Image, AllocError>
        requires some { (0 < length self.leftmost.items) × (0 < length self.pages.items) }
        requires roots { AreChildren self.leftmost.items }
        requires few { length self.pages.items ≤ self.most }
        ensures pages { IfOk result (λ image. length image.pages.items ≡ self.most) }
        ensures holds { (fill : ℕ) (rows : List (ℕ × ℕ)) → IsTree fill rows self.pages.items self.leftmost.items
            → IfOk result (λ image. AreSound image.pages.items × AllByRecursion (IsFull fill) image.pages.items
            × AreRowsOf image.pages.items rows × HasOneTop image.pages.items) }
    {
        let Tree {
            pages,
            leftmost,
            most,
        } = self;
        let mut pages = pages;
        pages[0] = Some(Page::Anchor(anchor_of(leftmost)));
        let all = padded(pages, most as usize)?;
        Ok(Image { pages: all })
    }
}

/// A sound image of so many pages that has exactly these rows, whose keys rise, and is so full. Their tree has room there.
pub(crate) fn build(
    alloc: Global,
    rows: &[(u64, u64)],
    pages: u32,
    fill: usize,
) -> Result<Quiet, AllocError>
    requires { IsLoadable rows.now pages fill }
    ensures holds { IfOk result (λ quiet. HoldsRows fill rows.now quiet.image.pages.items) }
    ensures pages { IfOk result (λ quiet. length quiet.image.pages.items ≡ pages) }
{
    let mut tree = Tree::new(alloc, pages)?;
    tree.add_levels(alloc, rows, fill)?;
    let image = tree.into_image()?;
    Ok(Quiet::new(image))
}
