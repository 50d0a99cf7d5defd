//! Sound images.

ghost use Rattle.std.specs.Prelude.{◌≡◌};
ghost use Rattle.bl_check.specs.Rules.{AreSound};

use bl_image::Image;

/// A sound image: no page breaks a rule.
///
/// The checker makes one of an image that it has found sound; so does whoever has proved that an image is.
#[derive(Drop)]
pub struct Quiet {
    image: Image,
    ghost sound: { ∥ AreSound image.pages.items ∥₁ },
}

impl Quiet {
    /// The sound image with these pages. It looks at none of them: that no page breaks a rule is what it asks for.
    pub fn new(image: Image) -> Quiet
        requires { AreSound image.pages.items }
        ensures { result.image ≡ image }
    {
        Quiet { image }
    }

    /// The image.
    pub fn image(&self) -> &Image
        ensures same { result.now ≡ self.now.image }
        ensures sound { AreSound result.now.pages.items }
    {
        &self.image
    }
}
