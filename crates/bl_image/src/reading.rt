//! Reading an image.

ghost use Rattle.std.specs.Prelude.{◌≡◌, ◌-◌, ◌++◌, Option, None, List, length, replicate, IfOk, IfErr, MatchResult};
ghost use Rattle.bl_page.specs.declared.page.Page.{Page};
ghost use Rattle.bl_image.specs.declared.fault.ImageFault.TheVariants.{Memory};
ghost use Rattle.bl_image.specs.Images.{IsImage, AreWithin, AreStored, IsHead, IsFault};

use crate::fault::ImageFault;
use crate::head::{Head, bound_of, head_in};
use crate::image::Image;
use crate::words::page_at;
use bl_page::Page;
use std::alloc::{AllocError, Global};

/// The pages that are stored behind a head, or the least that is none.
fn stored_pages(alloc: Global, bytes: &[u8], head: Head) -> Result<Vec<Option<Page>>, ImageFault>
    requires { IsHead bytes.now head.count head.stored }
    ensures ok { IfOk result (λ pages. AreStored bytes.now head.count head.stored pages.items) }
    ensures fault { IfErr result (λ fault. IsFault fault bytes.now) }
{
    let most = bound_of(head.count);
    // Room for those behind them too, so that the vector is not moved for them.
    let mut pages = match Vec::with_capacity(alloc, head.count as usize) {
        Ok(pages) => pages,
        Err(_) => return Err(ImageFault::Memory),
    };
    for x in 0..head.stored {
        let Some(page) = page_at(bytes, x, most) else {
            return Err(ImageFault::Page(x));
        };
        match pages.push(page) {
            Ok(()) => {}
            Err(_) => return Err(ImageFault::Memory),
        }
    }
    Ok(pages)
}

/// These pages, and behind them pages that are not in use, so many in all.
fn filled_up(pages: Vec<Option<Page>>, count: u32) -> Result<Vec<Option<Page>>, AllocError>
    ensures { IfOk result (λ all. all.items ≡ pages.items ++ replicate (count - length pages.items) None) }
{
    let more = (count as usize).saturating_sub(pages.len());
    let mut all = pages;
    for _ in 0..more {
        all.push(None)?;
    }
    Ok(all)
}

/// The pages behind a head, or the least that is none.
fn pages_in(alloc: Global, bytes: &[u8], head: Head) -> Result<Vec<Option<Page>>, ImageFault>
    requires { IsHead bytes.now head.count head.stored }
    ensures ok { IfOk result (λ pages. IsImage pages.items bytes.now) }
    ensures within { IfOk result (λ pages. AreWithin pages.items) }
    ensures fault { IfErr result (λ fault. IsFault fault bytes.now) }
{
    let stored = stored_pages(alloc, bytes, head)?;
    match filled_up(stored, head.count) {
        Ok(pages) => Ok(pages),
        Err(_) => Err(ImageFault::Memory),
    }
}

/// The image that the bytes spell. Other bytes are refused: with `Head` where the length or the first 32 bytes are no
/// image's, or the last page that is stored need not be, else with the least page whose bytes are no page's. `Memory` comes
/// only where a growth was refused.
pub fn read(alloc: Global, bytes: &[u8]) -> Result<Image, ImageFault>
    // What is read is spelled so, and names pages by numbers that the version has.
    ensures ok { IfOk result (λ image. IsImage image.pages.items bytes.now) }
    ensures within { IfOk result (λ image. AreWithin image.pages.items) }
    // What is spelled so is read, unless memory runs out.
    ensures only { (pages : List (Option Page)) → IsImage pages bytes.now → AreWithin pages → MatchResult result (λ image. image.pages.items ≡ pages) (λ fault. fault ≡ Memory) }
    // Which fault it is.
    ensures fault { IfErr result (λ fault. IsFault fault bytes.now) }
{
    let head = match head_in(bytes) {
        Some(head) => head,
        None => return Err(ImageFault::Head),
    };
    match pages_in(alloc, bytes, head) {
        Ok(pages) => Ok(Image { pages }),
        Err(fault) => Err(fault),
    }
}
