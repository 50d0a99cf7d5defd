//! The chains of the levels.

ghost use Rattle.std.specs.Prelude.{◌^◌, ◌≡◌, ◌≤◌, ◌<◌, ◌⊎◌, ℕ, length, IsSome, None, Some};
ghost use Rattle.bl_check.specs.Spans.{span_at as the_span_at, levels};
ghost use Rattle.bl_check.specs.Rules.{IsFirst, Rule, Reaches, AllKeep};
ghost use Rattle.bl_check.specs.Walks.{GoesOn, Stops, IsMarked, MarksChains, IsLesser};

use crate::anchor::roots;
use crate::span::{Span, span_at, span_of, stands_at};
use bl_page::Page;

/// Where the chain goes from a page.
enum Link {
    /// To the page of this number.
    To(u32),
    /// It ends here.
    End,
    /// The page's link does not fit.
    Wrong,
}

/// The page to which a page links: none behind the last of its level, and a wrong one where no page of the level begins at its bound.
fn link_of(pages: &[Option<Page>], span: &Span) -> Link
    ensures { GoesOn result pages.now span.now }
{
    if span.high == 0 {
        return if span.right == 0 {
            Link::End
        } else {
            Link::Wrong
        };
    }
    if stands_at(pages, span.right as usize, span.level, span.high) {
        Link::To(span.right)
    } else {
        Link::Wrong
    }
}

/// Walks along a chain from a live page on, and marks the pages that it meets. The page whose link does not fit, if
/// there is one: there the walk ends.
fn walk(pages: &[Option<Page>], marks: &mut [bool], first: u32) -> Option<u32>
    requires count { length marks.old ≡ length pages.now }
    requires live { IsSome (the_span_at pages.now first) }
    ensures stops { Stops result pages.now first }
    ensures kept { (y : ℕ) → IsMarked marks.old y → IsMarked marks.new y }
    ensures met { (y : ℕ) → Reaches pages.now first y → IsMarked marks.new y }
    ensures only { (y : ℕ) → IsMarked marks.new y → IsMarked marks.old y ⊎ Reaches pages.now first y }
{
    let mut x = first;
    'chain: while let Some(span) = span_at(pages, x as usize) {
        marks[x as usize] = true;
        match link_of(pages, &span) {
            Link::To(next) => x = next,
            Link::End => return None,
            Link::Wrong => return Some(x),
        }
    }
    None
}

/// The lesser of two numbers that may be missing.
fn lesser(a: Option<u32>, b: Option<u32>) -> Option<u32>
    ensures { IsLesser a b result }
{
    match (a, b) {
        (Some(x), Some(y)) => Some(x.min(y)),
        (Some(x), None) => Some(x),
        (None, b) => b,
    }
}

/// The least page on a chain whose link does not fit. Marks the pages of all chains.
pub fn wrong_link(pages: &[Option<Page>], marks: &mut [bool]) -> Option<u32>
    requires count { length marks.old ≡ length pages.now }
    requires clear { (y : ℕ) → ¬ IsMarked marks.old y }
    requires leftmost { AllKeep Rule.Leftmost pages.now }
    requires some { 0 < length pages.now }
    ensures first { IsFirst Rule.Links pages.now result }
    ensures marked { MarksChains marks.new pages.now (levels pages.now) }
{
    let mut wrong = None;
    for first in roots(pages) {
        wrong = lesser(wrong, walk(pages, marks, *first));
    }
    wrong
}

/// The least live page that is on no chain, where the pages of all chains are marked.
pub fn off_chain(pages: &[Option<Page>], marks: &[bool]) -> Option<u32>
    requires limit { length pages.now ≤ 2 ^ 28 }
    requires count { length marks.now ≡ length pages.now }
    requires leftmost { AllKeep Rule.Leftmost pages.now }
    requires marked { MarksChains marks.now pages.now (levels pages.now) }
    ensures { IsFirst Rule.Chains pages.now result }
{
    for (x, page) in pages.iter().enumerate() {
        if span_of(page).is_some() && !marks[x] {
            return Some(x as u32);
        }
    }
    None
}
