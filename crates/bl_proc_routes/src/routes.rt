//! Where a page leads whoever looks for a key.

ghost use Rattle.bl_proc_routes.specs.Routes.{Leads};
ghost use Rattle.bl_page.specs.declared.page.Page.TheVariants as page;

use bl_page::{Inner, Leaf, Page, is_within};

/// Where a page leads on the way to the page of some level that covers a key.
#[derive(Clone, Copy)]
pub enum Step {
    /// Nowhere: the way begins again at the anchor.
    Again,
    /// To its right neighbour.
    Right(u32),
    /// To the key's child, one level lower.
    Down(u32),
    /// The page is the one that was looked for.
    Here,
}

/// Where a leaf leads.
fn way_from_leaf(leaf: &Leaf, key: u64, level: u32) -> Step
    ensures { Leads (page.Leaf leaf.now) key level result }
{
    if key < leaf.low {
        Step::Again
    } else if !is_within(leaf.low, leaf.high, key) {
        Step::Right(leaf.right)
    } else if level == 0 {
        Step::Here
    } else {
        Step::Again
    }
}

/// Where an inner page leads.
fn way_from_inner(inner: &Inner, key: u64, level: u32) -> Step
    ensures { Leads (page.Inner inner.now) key level result }
{
    if key < inner.low {
        Step::Again
    } else if !is_within(inner.low, inner.high, key) {
        Step::Right(inner.right)
    } else if level < inner.level {
        Step::Down(inner.child_of(key))
    } else if inner.level == level {
        Step::Here
    } else {
        Step::Again
    }
}

/// Where the page leads on the way to the page of that level that covers the key.
pub fn way_from(page: &Page, key: u64, level: u32) -> Step
    ensures { Leads page.now key level result }
{
    match page {
        Page::Anchor(_) => Step::Again,
        Page::Leaf(leaf) => way_from_leaf(leaf, key, level),
        Page::Inner(inner) => way_from_inner(inner, key, level),
        Page::Dead(dead) => {
            if dead.right == 0 {
                Step::Again
            } else {
                Step::Right(dead.right)
            }
        }
    }
}
