//! Children and their pages.

ghost use Rattle.std.specs.Prelude.{◌^◌, ◌≤◌, ◌↔◌, length, IsTrue};
ghost use Rattle.std.specs.List.{AllByRecursion};
ghost use Rattle.bl_check.specs.Spans.{StandsAt};
ghost use Rattle.bl_check.specs.Rules.{IsFirst, Rule, ChildrenFit};

use crate::span::stands_at;
use bl_page::Page;

/// Whether each pair names a live page of that level, whose low is the pair's key.
fn pairs_fit(pages: &[Option<Page>], level: u32, pairs: &[(u64, u64)]) -> bool
    ensures { IsTrue result ↔ AllByRecursion (λ pair. StandsAt pages.now pair.1 level pair.0) pairs.now }
{
    for (key, child) in pairs {
        if !stands_at(pages, *child as usize, level, *key) {
            return false;
        }
    }
    true
}

/// Whether each child that a page lists is a page one level lower that begins at its key. A page of another kind lists none.
fn children_fit(pages: &[Option<Page>], page: &Option<Page>) -> bool
    ensures { IsTrue result ↔ ChildrenFit pages.now page.now }
{
    match page {
        Some(Page::Inner(inner)) => pairs_fit(pages, inner.level - 1, inner.children.as_slice()),
        _ => true,
    }
}

/// The least inner page with a pair that does not name its child.
pub fn wrong_parent(pages: &[Option<Page>]) -> Option<u32>
    requires { length pages.now ≤ 2 ^ 28 }
    ensures { IsFirst Rule.Children pages.now result }
{
    for (x, page) in pages.iter().enumerate() {
        if !children_fit(pages, page) {
            return Some(x as u32);
        }
    }
    None
}
