//! The rules of a sound image in words, and which one an image breaks.

ghost use Rattle.std.specs.Prelude.{◌≡◌, ◌↔◌, None, IfOk};
ghost use Rattle.bl_check.specs.Faults.{AreSoundImage};

use bl_check::{Fault, check};
use std::alloc::{AllocError, Global};

/// What a rule of the checker demands, by its number.
pub fn rule_words(rule: u32) -> &'static str {
    match rule {
        1 => "the head and the length are an image's",
        2 => "each page's words are all zero, or a page's",
        3 => "page 0 is the anchor, and no other page is one",
        4 => "each level has a leftmost page, which begins at 0",
        5 => "each link leads to the page that begins where this one ends",
        6 => "each page stands on the chain of its level",
        7 => "each entry names a page one level lower that begins with its key",
        8 => "no page is dead",
        _ => "no such rule",
    }
}

/// The least rule that the bytes break as an image, and the least page that breaks it; None where they are a sound image.
pub fn verdict(alloc: Global, bytes: &[u8]) -> Result<Option<(u32, u32)>, AllocError>
    ensures { IfOk result (λ broken. (broken ≡ None) ↔ AreSoundImage bytes.now) }
{
    match check(alloc, bytes) {
        Ok(_) => Ok(None),
        Err(Fault::Rule { rule, page }) => Ok(Some((rule, page))),
        Err(Fault::Memory) => Err(AllocError),
    }
}
