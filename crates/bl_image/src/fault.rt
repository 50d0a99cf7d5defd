//! Why an image is not read or written.

/// Why bytes are not read as an image.
#[derive(Clone, Copy, Debug, PartialEq, Eq)]
pub enum ImageFault {
    /// The length or the first 32 bytes are no image's.
    Head,
    /// The least page whose bytes are neither zeros nor a page's.
    Page(u32),
    /// Memory was refused.
    Memory,
}

/// A call on the writer of an image has failed. A beginning of the image may be out.
#[derive(Clone, Copy, Debug, PartialEq, Eq)]
pub struct WriteFault;
