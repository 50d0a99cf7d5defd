//! The checker.

ghost use Rattle.std.specs.Prelude.{◌^◌, ◌≡◌, ◌≤◌, ◌<◌, ℕ, List, Option, length, None, Some, OnOk, IfOk, IfErr, MatchResult};
ghost use Rattle.bl_page.specs.declared.page.Page.{Page};
ghost use Rattle.bl_image.specs.Images.{IsImage, AreWithin, IsFault as IsImageFault};
ghost use Rattle.bl_check.specs.declared.fault.Fault.TheVariants as fault;
ghost use Rattle.bl_check.specs.Rules.{AreSound};
ghost use Rattle.bl_check.specs.Faults.{IsPageFault, IsCheckFault, AreSoundImage};
ghost use Rattle.bl_check.specs.Reports.{IsReport};

use crate::anchor::{wrong_anchor, wrong_leftmost};
use crate::chains::{off_chain, wrong_link};
use crate::children::wrong_parent;
use crate::counts::report_of;
use crate::dead::dead_page;
use crate::fault::Fault;
use crate::quiet::Quiet;
use crate::report::Report;
use bl_image::{Image, ImageFault, read};
use bl_page::Page;
use std::alloc::{AllocError, Global};

impl From<AllocError> for Fault {
    ghost from_gives = { λ _ given. given ≡ fault.Memory };

    fn from(_error: AllocError) -> Fault {
        Fault::Memory
    }
}

/// The fault of the rule, if a page was found that breaks it.
fn refuse(rule: u32, found: Option<u32>) -> Result<(), Fault>
    ensures { MatchResult result (λ _. found ≡ None)
        (λ given. (x : ℕ) × (found ≡ Some x) × (given ≡ fault.Rule rule x)) }
{
    match found {
        Some(page) => Err(Fault::Rule { rule, page }),
        None => Ok(()),
    }
}

/// The first rule that a page breaks.
fn keep_rules(alloc: Global, pages: &[Option<Page>]) -> Result<(), Fault>
    requires some { 0 < length pages.now }
    requires limit { length pages.now ≤ 2 ^ 28 }
    ensures ok { OnOk result (AreSound pages.now) }
    ensures fault { IfErr result (λ fault. IsPageFault fault pages.now) }
{
    refuse(3, wrong_anchor(pages))?;
    refuse(4, wrong_leftmost(pages))?;
    let mut marks = vec![in alloc; false; pages.len()]?;
    refuse(5, wrong_link(pages, &mut marks))?;
    refuse(6, off_chain(pages, &marks))?;
    refuse(7, wrong_parent(pages))?;
    refuse(8, dead_page(pages))
}

/// The image that the bytes spell, or the rule that they break.
fn image_in(alloc: Global, bytes: &[u8]) -> Result<Image, Fault>
    ensures ok { IfOk result (λ image. IsImage image.pages.items bytes.now) }
    ensures within { IfOk result (λ image. AreWithin image.pages.items) }
    ensures fault { IfErr result (λ fault. IsCheckFault fault bytes.now) }
{
    match read(alloc, bytes) {
        Ok(image) => Ok(image),
        Err(ImageFault::Head) => Err(Fault::Rule { rule: 1, page: 0 }),
        Err(ImageFault::Page(page)) => Err(Fault::Rule { rule: 2, page }),
        Err(ImageFault::Memory) => Err(Fault::Memory),
    }
}

/// The sound image that the bytes spell; else the least rule that is broken and the least page that breaks it, as `check`
/// names them. `Memory` comes only where a growth was refused.
pub fn load(alloc: Global, bytes: &[u8]) -> Result<Quiet, Fault>
    // The bytes are this image, which is sound by its type.
    ensures ok { IfOk result (λ quiet. IsImage quiet.image.pages.items bytes.now) }
    // Which rule is broken, at which page.
    ensures fault { IfErr result (λ fault. IsCheckFault fault bytes.now) }
    // A sound image has no fault.
    ensures only { AreSoundImage bytes.now → IfErr result (λ given. given ≡ fault.Memory) }
{
    match sound(alloc, image_in(alloc, bytes)?) {
        Ok(quiet) => Ok(quiet),
        Err((_, fault)) => Err(fault),
    }
}

/// Checks the bytes of an image. Ok exactly where it is sound, with its numbers; else the least rule that is broken and
/// the least page that breaks it. `Memory` comes only where a growth was refused.
pub fn check(alloc: Global, bytes: &[u8]) -> Result<Report, Fault>
    // The bytes are a sound image with these numbers.
    ensures ok { IfOk result (λ report. (pages : List (Option Page))
        × IsImage pages bytes.now × AreSound pages × IsReport report pages) }
    // Which rule is broken, at which page.
    ensures fault { IfErr result (λ fault. IsCheckFault fault bytes.now) }
    // A sound image has no fault.
    ensures only { AreSoundImage bytes.now → IfErr result (λ given. given ≡ fault.Memory) }
{
    let quiet = load(alloc, bytes)?;
    Ok(report_of(alloc, quiet.image().pages.as_slice())?)
}

/// The image as a sound one, where it is sound; else the image, with the least rule that is broken and the least page
/// that breaks it. `Memory` comes only where a growth was refused.
pub fn sound(alloc: Global, image: Image) -> Result<Quiet, (Image, Fault)>
    ensures ok { IfOk result (λ quiet. quiet.image ≡ image) }
    ensures fault { IfErr result (λ refused.
        (refused.0 ≡ image) × IsPageFault refused.1 image.pages.items) }
    // A sound image has no fault.
    ensures only { AreSound image.pages.items → IfErr result (λ refused. refused.1 ≡ fault.Memory) }
{
    match keep_rules(alloc, image.pages.as_slice()) {
        Ok(()) => Ok(Quiet::new(image)),
        Err(fault) => Err((image, fault)),
    }
}
