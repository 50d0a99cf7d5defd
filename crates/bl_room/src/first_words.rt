//! The words of a store's first pages.

ghost use Rattle.std.specs.Prelude.{◌≡◌, ◌<◌, [], length, slice_index_or};

/// Who gives the words of the first pages of a store, a page at a time: so they need not all stand in memory beside the store's.
pub trait FirstWords {
    ghost use Rattle.std.specs.Prelude.{◌≡◌, ◌<◌, ℕ, List, [], length, slice_index_or};

    // The words of each page, by its number.
    ghost contents: { Self → List (List ℕ) };

    /// How many pages it has.
    fn count(&self) -> usize
        ensures { result ≡ length (contents self.now) };

    /// The words of a page.
    fn words_of(&self, page: u32) -> [u64; 32]
        requires { page < length (contents self.now) }
        ensures same { result ≡ slice_index_or (contents self.now) page [] }
        ensures long { length result ≡ 32 };
}

impl FirstWords for Vec<[u64; 32]> {
    ghost contents = { λ words. words.items };

    fn count(&self) -> usize {
        self.len()
    }

    fn words_of(&self, page: u32) -> [u64; 32] {
        page_in(self.as_slice(), page)
    }
}

// The words of one of these pages.
fn page_in(pages: &[[u64; 32]], page: u32) -> [u64; 32]
    requires { page < length pages.now }
    ensures same { result ≡ slice_index_or pages.now page [] }
    ensures long { length result ≡ 32 }
{
    pages[page as usize]
}
