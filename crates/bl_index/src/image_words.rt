//! The words of an image's pages, which are made one page at a time.

use bl_check::Quiet;
use bl_image::Image;
use bl_room::FirstWords;

/// The pages of an image that stays.
#[derive(Drop)]
pub(crate) struct ImageWords<'a> {
    pub(crate) image: &'a Image,
}

impl FirstWords for ImageWords<'_> {
    ghost use Rattle.std.specs.Prelude.{map};
    ghost use Rattle.bl_image.specs.Images.{page_words};

    ghost contents = { λ source. map page_words source.image.now.pages.items };

    fn count(&self) -> usize {
        self.image.pages.len()
    }

    fn words_of(&self, page: u32) -> [u64; 32] {
        self.image.words_at(page)
    }
}

/// The pages of a sound image that goes with this.
#[derive(Drop)]
pub(crate) struct QuietWords {
    pub(crate) quiet: Quiet,
}

impl FirstWords for QuietWords {
    ghost use Rattle.std.specs.Prelude.{map};
    ghost use Rattle.bl_image.specs.Images.{page_words};

    ghost contents = { λ source. map page_words source.quiet.image.pages.items };

    fn count(&self) -> usize {
        self.quiet.image().pages.len()
    }

    fn words_of(&self, page: u32) -> [u64; 32] {
        self.quiet.image().words_at(page)
    }
}
