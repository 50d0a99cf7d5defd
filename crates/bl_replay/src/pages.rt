//! The printed form of what stands in a page.

ghost use Rattle.std.specs.Prelude.{◌≡◌, ◌++◌, OnOk, flat_map};
ghost use Rattle.bl_replay.specs.Pages.{number_text, pair_text, content_text, page_line};

use bl_page::Page;
use bl_serve_lines::print::push_number;
use std::alloc::AllocError;

/// Appends a number behind a space.
fn push_spaced(out: &mut Vec<u8>, number: u64) -> Result<(), AllocError>
    ensures { OnOk result (out.new.items ≡ out.old.items ++ number_text number) }
{
    push_number(out, b" ", number)
}

/// Appends the leftmost pages of the levels.
fn push_leftmost(out: &mut Vec<u8>, leftmost: &[u32]) -> Result<(), AllocError>
    ensures { OnOk result (out.new.items ≡ out.old.items ++ flat_map number_text leftmost.now) }
{
    for first in leftmost {
        push_spaced(out, u64::from(*first))?;
    }
    Ok(())
}

/// Appends rows or children.
fn push_pairs(out: &mut Vec<u8>, pairs: &[(u64, u64)]) -> Result<(), AllocError>
    ensures { OnOk result (out.new.items ≡ out.old.items ++ flat_map pair_text pairs.now) }
{
    for pair in pairs {
        push_spaced(out, pair.0)?;
        push_spaced(out, pair.1)?;
    }
    Ok(())
}

/// Appends what a page covers, and where its link leads.
fn push_cover(out: &mut Vec<u8>, low: u64, high: u64, right: u32) -> Result<(), AllocError>
    ensures { OnOk result (out.new.items ≡ out.old.items ++ (number_text low ++ number_text high ++ number_text right)) }
{
    push_spaced(out, low)?;
    push_spaced(out, high)?;
    push_spaced(out, u64::from(right))
}

/// Appends what stands in a page.
fn push_content(out: &mut Vec<u8>, page: &Page) -> Result<(), AllocError>
    ensures { OnOk result (out.new.items ≡ out.old.items ++ content_text page.now) }
{
    match page {
        Page::Anchor(anchor) => {
            out.extend_from_slice(b"anchor")?;
            push_leftmost(out, anchor.leftmost.as_slice())
        }
        Page::Leaf(leaf) => {
            out.extend_from_slice(b"leaf")?;
            push_cover(out, leaf.low, leaf.high, leaf.right)?;
            push_pairs(out, leaf.rows.as_slice())
        }
        Page::Inner(inner) => {
            push_number(out, b"inner ", u64::from(inner.level))?;
            push_cover(out, inner.low, inner.high, inner.right)?;
            push_pairs(out, inner.children.as_slice())
        }
        Page::Dead(dead) => {
            push_number(out, b"dead ", u64::from(dead.level))?;
            push_spaced(out, dead.low)?;
            push_spaced(out, u64::from(dead.right))
        }
    }
}

/// Appends the line of what the process with that number has put into a page.
pub fn push_page_line(
    out: &mut Vec<u8>,
    number: usize,
    at: u32,
    page: &Page,
) -> Result<(), AllocError>
    ensures { OnOk result (out.new.items ≡ out.old.items ++ page_line number at page.now) }
{
    push_number(out, b"", number as u64)?;
    push_number(out, b" page ", u64::from(at))?;
    out.push(b' ')?;
    push_content(out, page)?;
    out.push(b'\n')?;
    Ok(())
}
