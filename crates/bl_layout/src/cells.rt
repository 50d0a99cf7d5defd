//! Where each word stands in the table of a store.

ghost use Rattle.std.specs.Prelude.{◌≡◌, ◌<◌, ◌≤◌, ◌+◌, ◌*◌};

use crate::layout::Layout;
use crate::word::Word;

/// So many cells each process word has: two cache lines of 64 bytes, since processors fetch lines in pairs. The word of the next pass
/// is as many cells behind.
pub const PROCESS_CELLS: usize = 16;

impl Layout {
    ghost use Rattle.bl_layout.specs.Words.{frame_count};
    ghost use Rattle.bl_layout.specs.Cells.{front, behind, cell_count, cell_of};

    // The cell of the word of page 0. The clock has the cells before it for itself. Where a table begins 16 bytes behind the begin of
    // a cache line, as a large block of glibc's does, and the number of pages is even, each frame begins with a line.
    fn front(self) -> usize
        ensures { result ≡ front self }
    {
        22 + 8 * self.passes as usize
    }

    // The cell behind the last frame.
    fn behind(self) -> usize
        ensures { result ≡ behind self }
    {
        self.front() + 2 * self.pages as usize + 33 * self.frames() as usize
    }

    /// How many cells the table has.
    pub fn cells(self) -> usize
        ensures { result ≡ cell_count self }
    {
        self.behind() + PROCESS_CELLS * (1 + self.passes as usize)
    }

    /// The cell of the clock.
    pub fn clock_cell(self) -> usize
        ensures cell { result ≡ cell_of self Word.Clock }
        ensures below { result < cell_count self }
    {
        0
    }

    /// The cell of a pass's process word.
    pub fn process_cell(self, pass: u32) -> usize
        requires { pass < self.passes }
        ensures cell { result ≡ cell_of self (Word.Process pass) }
        ensures below { result < cell_count self }
    {
        self.behind() + PROCESS_CELLS * (1 + pass as usize)
    }

    /// The cell of a page's word.
    pub fn page_cell(self, page: u32) -> usize
        requires { page < self.pages }
        ensures cell { result ≡ cell_of self (Word.Page page) }
        ensures below { result < cell_count self }
    {
        self.front() + page as usize
    }

    /// The cell of a page's owner.
    pub fn page_owner_cell(self, page: u32) -> usize
        requires { page < self.pages }
        ensures cell { result ≡ cell_of self (Word.PageOwner page) }
        ensures below { result < cell_count self }
    {
        self.front() + self.pages as usize + page as usize
    }

    /// The cell of a frame's owner.
    pub fn frame_owner_cell(self, frame: u32) -> usize
        requires { frame < frame_count self }
        ensures cell { result ≡ cell_of self (Word.FrameOwner frame) }
        ensures below { result < cell_count self }
    {
        self.front() + 2 * self.pages as usize + frame as usize
    }

    /// The cell of the word of a frame at a place from 0 to 31.
    pub fn frame_word_cell(self, frame: u32, place: u32) -> usize
        requires frame { frame < frame_count self }
        requires place { place < 32 }
        ensures cell { result ≡ cell_of self (Word.FrameWord frame place) }
        ensures below { result < cell_count self }
    {
        let first = self.front() + 2 * self.pages as usize + self.frames() as usize;
        first + 32 * frame as usize + place as usize
    }
}
