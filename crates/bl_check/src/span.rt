//! Where live pages stand.

ghost use Rattle.std.specs.Prelude.{◌≡◌, ◌<◌, ◌↔◌, IsTrue, IfSome};
ghost use Rattle.bl_page.specs.Pairs.{end_of};
ghost use Rattle.bl_check.specs.Spans.{span_of as the_span_of, span_at as the_span_at, StandsAt};

use bl_page::Page;

/// What a live page, a leaf or an inner page, says of its place.
#[derive(Clone, Copy)]
pub struct Span {
    /// Its level, 0 to 11.
    pub level: u32,
    /// The least key that it covers.
    pub low: u64,
    /// The keys that it covers are below this bound. 0 is no bound.
    pub high: u64,
    /// The page to the right on its level, 0 for none.
    pub right: u32,
}

/// The span of a live page, None of any other.
pub fn span_of(page: &Option<Page>) -> Option<Span>
    ensures span { result ≡ the_span_of page.now }
    ensures wide { IfSome result (λ s. s.low < end_of s.high) }
{
    match page {
        Some(Page::Leaf(leaf)) => Some(Span {
            level: 0,
            low: leaf.low,
            high: leaf.high,
            right: leaf.right,
        }),
        Some(Page::Inner(inner)) => Some(Span {
            level: inner.level,
            low: inner.low,
            high: inner.high,
            right: inner.right,
        }),
        _ => None,
    }
}

/// The span of page x, None where it is not live or there is no such page.
pub fn span_at(pages: &[Option<Page>], x: usize) -> Option<Span>
    ensures span { result ≡ the_span_at pages.now x }
    ensures wide { IfSome result (λ s. s.low < end_of s.high) }
{
    match pages.get(x) {
        Some(page) => span_of(page),
        None => None,
    }
}

/// Whether page x is live, of that level, with that low.
pub fn stands_at(pages: &[Option<Page>], x: usize, level: u32, low: u64) -> bool
    ensures { IsTrue result ↔ StandsAt pages.now x level low }
{
    match span_at(pages, x) {
        Some(span) => span.level == level && span.low == low,
        None => false,
    }
}
