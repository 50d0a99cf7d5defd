//! The sizes of a store, and the number of each of its words.
ghost use Rattle.std.specs.Prelude.{◌≡◌, ◌<◌, ◌≤◌, ◌+◌, ◌*◌, ◌^◌, ◌↔◌, IsTrue};

use crate::word::Word;

/// A store with more pages is a large one.
const MOST_SMALL_PAGES: u32 = 65_536;

/// How many pages and passes a store has: 4 to 2^28 pages, and 1 to 64 passes. Beside a frame for each page it has some to spare.
#[derive(Clone, Copy)]
pub struct Layout {
    pub pages: u32,
    pub passes: u32,
    pub spare: u32,
    pub ghost pages_within: { (4 ≤ pages) × (pages ≤ 2 ^ 28) },
    pub ghost passes_within: { (1 ≤ passes) × (passes ≤ 64) },
    pub ghost spare_within: { (1 ≤ spare) × (spare ≤ 2 ^ 29) },
}

impl Layout {
    ghost use Rattle.bl_layout.specs.Words.{frame_count, HasFrames, word_count, number_of, IsNamed};

    /// A store with the frames that so many pages and passes take: one for each page, and to spare as many as pages, but of a large store an
    /// eighth of them, and no fewer than a small one has; and eight for each pass. Each put takes a frame, until no process is left that
    /// may read the one that it retires.
    pub fn of(pages: u32, passes: u32) -> Layout
        requires pages { (4 ≤ pages) × (pages ≤ 2 ^ 28) }
        requires passes { (1 ≤ passes) × (passes ≤ 64) }
        ensures sizes { (result.pages ≡ pages) × (result.passes ≡ passes) }
        ensures frames { HasFrames pages passes (frame_count result) }
    {
        let spare = if pages > MOST_SMALL_PAGES {
            (pages / 8).max(MOST_SMALL_PAGES)
        } else {
            pages
        };
        Layout {
            pages,
            passes,
            spare: spare + 8 * passes,
        }
    }

    /// Whether it has so many pages that not each may have two frames.
    pub fn is_large(self) -> bool
        ensures { IsTrue result ↔ 65536 < self.pages }
    {
        self.pages > MOST_SMALL_PAGES
    }

    /// The number of frames.
    pub fn frames(self) -> u32
        ensures { result ≡ frame_count self }
    {
        self.pages + self.spare
    }

    /// The number of all words together.
    pub fn words(self) -> usize
        ensures { result ≡ word_count self }
    {
        1 + self.passes as usize + 2 * self.pages as usize + 33 * self.frames() as usize
    }

    /// The number of the clock.
    pub fn clock(self) -> usize
        ensures number { result ≡ number_of self Word.Clock }
        ensures below { result < word_count self }
    {
        0
    }

    /// The number of a pass's process word.
    pub fn process(self, pass: u32) -> usize
        requires { pass < self.passes }
        ensures number { result ≡ number_of self (Word.Process pass) }
        ensures below { result < word_count self }
    {
        1 + pass as usize
    }

    /// The number of a page's word.
    pub fn page(self, page: u32) -> usize
        requires { page < self.pages }
        ensures number { result ≡ number_of self (Word.Page page) }
        ensures below { result < word_count self }
    {
        1 + self.passes as usize + page as usize
    }

    /// The number of a page's owner.
    pub fn page_owner(self, page: u32) -> usize
        requires { page < self.pages }
        ensures number { result ≡ number_of self (Word.PageOwner page) }
        ensures below { result < word_count self }
    {
        1 + self.passes as usize + self.pages as usize + page as usize
    }

    /// The number of a frame's owner.
    pub fn frame_owner(self, frame: u32) -> usize
        requires { frame < frame_count self }
        ensures number { result ≡ number_of self (Word.FrameOwner frame) }
        ensures below { result < word_count self }
    {
        1 + self.passes as usize + 2 * self.pages as usize + frame as usize
    }

    /// The number of the word of a frame at a place from 0 to 31.
    pub fn frame_word(self, frame: u32, place: u32) -> usize
        requires frame { frame < frame_count self }
        requires place { place < 32 }
        ensures number { result ≡ number_of self (Word.FrameWord frame place) }
        ensures below { result < word_count self }
    {
        let first = 1 + self.passes as usize + 2 * self.pages as usize + self.frames() as usize;
        first + 32 * frame as usize + place as usize
    }

    /// The number of a word.
    pub fn number(self, word: Word) -> usize
        requires { IsNamed self word }
        ensures number { result ≡ number_of self word }
        ensures below { result < word_count self }
    {
        match word {
            Word::Clock => self.clock(),
            Word::Process(pass) => self.process(pass),
            Word::Page(page) => self.page(page),
            Word::PageOwner(page) => self.page_owner(page),
            Word::FrameOwner(frame) => self.frame_owner(frame),
            Word::FrameWord(frame, place) => self.frame_word(frame, place),
        }
    }
}
