//! What a word of the table is for.

/// A word of the table by its name. Pages, passes and frames are numbered from 0.
#[derive(Clone, Copy, PartialEq, Eq, Debug)]
pub enum Word {
    /// The clock, which goes up by one at each retirement.
    Clock,
    /// The process word of a pass: 0 outside an operation, else its stamp.
    Process(u32),
    /// The frame that a page has and 1, or 0 where the page was never put.
    Page(u32),
    /// The owner of a page.
    PageOwner(u32),
    /// The owner of a frame.
    FrameOwner(u32),
    /// A word of a frame, by the frame and the word's place there, 0 to 31.
    FrameWord(u32, u32),
}
