//! The anchor and the leftmost pages.

ghost use Rattle.std.specs.Prelude.{◌^◌, ◌≡◌, ◌≤◌, length};
ghost use Rattle.bl_check.specs.Spans.{roots as the_roots};
ghost use Rattle.bl_check.specs.Rules.{IsFirst, Rule, is_anchor as the_is_anchor};

use crate::span::stands_at;
use bl_page::Page;

/// Whether an anchor stands there.
fn is_anchor(page: &Option<Page>) -> bool
    ensures { result ≡ the_is_anchor page.now }
{
    matches!(page, Some(Page::Anchor(_)))
}

/// The least page that breaks the rule of anchors.
pub fn wrong_anchor(pages: &[Option<Page>]) -> Option<u32>
    requires { length pages.now ≤ 2 ^ 28 }
    ensures { IsFirst Rule.OneAnchor pages.now result }
{
    for (x, page) in pages.iter().enumerate() {
        if is_anchor(page) != (x == 0) {
            return Some(x as u32);
        }
    }
    None
}

/// The leftmost page of each level, as page 0 lists them.
pub fn roots(pages: &[Option<Page>]) -> &[u32]
    ensures roots { result.now ≡ the_roots pages.now }
    ensures few { length result.now ≤ 12 }
{
    match pages.first() {
        Some(Some(Page::Anchor(anchor))) => anchor.leftmost.as_slice(),
        _ => &[],
    }
}

/// Page 0, where a leftmost page is not what its level asks for.
pub fn wrong_leftmost(pages: &[Option<Page>]) -> Option<u32>
    ensures { IsFirst Rule.Leftmost pages.now result }
{
    for (level, first) in roots(pages).iter().enumerate() {
        if !stands_at(pages, *first as usize, level as u32, 0) {
            return Some(0);
        }
    }
    None
}
