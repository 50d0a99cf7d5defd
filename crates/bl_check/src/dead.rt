//! Dead pages.

ghost use Rattle.std.specs.Prelude.{◌^◌, ◌≡◌, ◌≤◌, length};
ghost use Rattle.bl_check.specs.Rules.{IsFirst, Rule, is_dead as the_is_dead};

use bl_page::Page;

/// Whether a dead page stands there.
fn is_dead(page: &Option<Page>) -> bool
    ensures { result ≡ the_is_dead page.now }
{
    matches!(page, Some(Page::Dead(_)))
}

/// The least dead page.
pub fn dead_page(pages: &[Option<Page>]) -> Option<u32>
    requires { length pages.now ≤ 2 ^ 28 }
    ensures { IsFirst Rule.NoneDead pages.now result }
{
    for (x, page) in pages.iter().enumerate() {
        if is_dead(page) {
            return Some(x as u32);
        }
    }
    None
}
