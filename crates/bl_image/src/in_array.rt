//! Writing an image into an array.

ghost use Rattle.std.specs.Prelude.{◌≡◌, ◌+◌, ◌*◌, ◌≤◌, length, flat_map};
ghost use Rattle.std.specs.List.{AllByRecursion};
ghost use Rattle.bl_image.specs.Images.{Fits64, page_words, page_bytes, IsImage, image_size};

use crate::head::head_of;
use crate::image::Image;
use crate::words::{bytes_of, words_of};
use bl_page::Page;

/// So many bytes the image of so many pages has at most; up to 65,536 pages it has so many.
pub fn image_length(pages: u32) -> u64
    ensures { result ≡ 32 + 256 * pages }
{
    32 + 256 * pages as u64
}

/// Writes the bytes of each of these pages into an array of that length.
fn spell_pages(pages: &[Option<Page>], bytes: &mut [u8])
    requires { length bytes.old ≡ 256 * length pages.now }
    ensures bytes { bytes.new ≡ flat_map page_bytes pages.now }
    ensures fit { AllByRecursion (λ page. Fits64 (page_words page)) pages.now }
{
    let mut at = 0;
    for page in pages {
        bytes[at..at + 256].copy_from_slice(&bytes_of(&words_of(page)));
        at += 256;
    }
}

impl Image {
    /// How many bytes the image has.
    pub fn size(&self) -> u64
        ensures same { result ≡ image_size self.now.pages.items }
        ensures most { result ≤ 32 + 256 * length self.now.pages.items }
    {
        32 + 256 * self.stored() as u64
    }

    /// Writes the bytes of the image into an array of that length.
    pub fn spell(&self, bytes: &mut [u8])
        requires { length bytes.old ≡ image_size self.now.pages.items }
        ensures { IsImage self.now.pages.items bytes.new }
    {
        let stored = self.stored();
        bytes[..32].copy_from_slice(&head_of(self.pages.len() as u32, stored as u32));
        spell_pages(&self.pages.as_slice()[..stored], &mut bytes[32..]);
    }
}
