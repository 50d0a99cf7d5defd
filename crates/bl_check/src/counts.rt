//! The numbers of a sound image.

ghost use Rattle.std.specs.Prelude.{◌^◌, ◌≡◌, ◌<◌, ◌≤◌, ◌*◌, ◌||◌, ◌==◌, ℕ, length, false, IfOk, slice_index_or};
ghost use Rattle.std.specs.List.{sum_by, count_by, list_any};
ghost use Rattle.bl_check.specs.Reports.{IsReport, rows_in as the_rows_in, is_leaf as the_is_leaf, is_inner as the_is_inner, is_thin as the_is_thin, lists, is_unposted, count_below, top};

use crate::anchor::roots;
use crate::report::Report;
use bl_model::limits::ENOUGH_PAIRS;
use bl_page::Page;
use std::alloc::{AllocError, Global};

/// How many pairs a leaf has, 0 of another page.
fn rows_in(page: &Option<Page>) -> u32
    ensures rows { result ≡ the_rows_in page.now }
    ensures few { result ≤ 14 }
{
    match page {
        Some(Page::Leaf(leaf)) => leaf.rows.len() as u32,
        _ => 0,
    }
}

/// Whether a leaf stands there.
fn is_leaf(page: &Option<Page>) -> bool
    ensures { result ≡ the_is_leaf page.now }
{
    matches!(page, Some(Page::Leaf(_)))
}

/// Whether an inner page stands there.
fn is_inner(page: &Option<Page>) -> bool
    ensures { result ≡ the_is_inner page.now }
{
    matches!(page, Some(Page::Inner(_)))
}

/// Whether a live page has fewer than 7 pairs and is not alone on its level.
fn is_thin(page: &Option<Page>) -> bool
    ensures { result ≡ the_is_thin page.now }
{
    match page {
        Some(Page::Leaf(leaf)) => leaf.rows.len() < ENOUGH_PAIRS
            && !(leaf.low == 0 && leaf.high == 0),
        Some(Page::Inner(inner)) => {
            inner.children.len() < ENOUGH_PAIRS && !(inner.low == 0 && inner.high == 0)
        }
        _ => false,
    }
}

/// Marks the pages that the pairs name.
fn mark_children(marks: &mut [bool], pairs: &[(u64, u64)])
    ensures { (x : ℕ) → x < length marks.old → slice_index_or marks.new x false
        ≡ (slice_index_or marks.old x false || list_any (λ pair. pair.1 == x) pairs.now) }
{
    for (_, child) in pairs {
        let child = *child as usize;
        if child < marks.len() {
            marks[child] = true;
        }
    }
}

/// Marks the pages that some inner page lists.
fn mark_listed(marks: &mut [bool], pages: &[Option<Page>])
    ensures { (x : ℕ) → x < length marks.old → slice_index_or marks.new x false
        ≡ (slice_index_or marks.old x false || list_any (lists x) pages.now) }
{
    for page in pages {
        if let Some(Page::Inner(inner)) = page {
            mark_children(marks, inner.children.as_slice());
        }
    }
}

/// The leftmost page of the top level.
fn top_root(pages: &[Option<Page>]) -> u32
    ensures { result ≡ top pages.now }
{
    match roots(pages).last() {
        Some(root) => *root,
        None => 0,
    }
}

/// How many live pages no inner page lists, but for the leftmost page of the top level.
fn unposted(pages: &[Option<Page>], listed: &[bool]) -> u32
    requires limit { length pages.now ≤ 2 ^ 28 }
    requires count { length listed.now ≡ length pages.now }
    requires listed { (x : ℕ) → x < length pages.now →
        slice_index_or listed.now x false ≡ list_any (lists x) pages.now }
    ensures { result ≡ count_below (is_unposted pages.now) (length pages.now) }
{
    let top = top_root(pages) as usize;
    let mut count = 0;
    for (x, page) in pages.iter().enumerate() {
        if (is_leaf(page) || is_inner(page)) && !listed[x] && x != top {
            count += 1;
        }
    }
    count
}

/// Pairs of all leaves.
fn rows(pages: &[Option<Page>]) -> u32
    requires { length pages.now ≤ 2 ^ 28 }
    ensures { result ≡ sum_by the_rows_in pages.now }
{
    let mut rows = 0;
    for page in pages {
        rows += rows_in(page);
    }
    rows
}

/// How many leaves there are.
fn leaves(pages: &[Option<Page>]) -> u32
    requires { length pages.now ≤ 2 ^ 28 }
    ensures { result ≡ count_by the_is_leaf pages.now }
{
    pages.iter().filter(|page| is_leaf(page)).count() as u32
}

/// How many inner pages there are.
fn inners(pages: &[Option<Page>]) -> u32
    requires { length pages.now ≤ 2 ^ 28 }
    ensures { result ≡ count_by the_is_inner pages.now }
{
    pages.iter().filter(|page| is_inner(page)).count() as u32
}

/// How many pages have so few entries that they are to be compressed.
fn thin(pages: &[Option<Page>]) -> u32
    requires { length pages.now ≤ 2 ^ 28 }
    ensures { result ≡ count_by the_is_thin pages.now }
{
    pages.iter().filter(|page| is_thin(page)).count() as u32
}

/// Of each page, whether some inner page lists it.
fn listed_pages(alloc: Global, pages: &[Option<Page>]) -> Result<Vec<bool>, AllocError>
    ensures count { IfOk result (λ listed. length listed.items ≡ length pages.now) }
    ensures listed { IfOk result (λ listed. (x : ℕ) → x < length pages.now →
        slice_index_or listed.items x false ≡ list_any (lists x) pages.now) }
{
    let mut listed = vec![in alloc; false; pages.len()]?;
    mark_listed(&mut listed, pages);
    Ok(listed)
}

/// The numbers of these pages.
pub fn report_of(alloc: Global, pages: &[Option<Page>]) -> Result<Report, AllocError>
    requires { length pages.now ≤ 2 ^ 28 }
    ensures { IfOk result (λ report. IsReport report pages.now) }
{
    let listed = listed_pages(alloc, pages)?;
    Ok(Report {
        rows: rows(pages),
        leaves: leaves(pages),
        inners: inners(pages),
        levels: roots(pages).len() as u32,
        unposted: unposted(pages, listed.as_slice()),
        thin: thin(pages),
    })
}
