//! What an image holds.

ghost use Rattle.std.specs.Prelude.{◌≡◌, ◌^◌, ◌<◌, ◌≤◌, true, [], length, map, slice_index_or, vec_capacity, IfOk, OnOk};
ghost use Rattle.std.specs.List.{AllByRecursion};
ghost use Rattle.bl_image.specs.Images.{IsCount, IsSpelled, Fits64, page_words, stored as the_stored, used_to as the_used_to};

use crate::head::least_stored;
use crate::words::{page_in, words_of};
use bl_page::Page;
use std::alloc::{AllocError, Global};

/// The pages of an index at rest.
#[derive(Drop)]
pub struct Image {
    /// Each page by its number, None where it is not in use: 4 to 2^28 of them.
    pub pages: Vec<Option<Page>>,
    ghost some: { 4 ≤ length pages.items },
    ghost limit: { length pages.items ≤ 2 ^ 28 },
}

/// The page that has these words, None where they are zeros.
fn page_of(words: &[u64; 32]) -> Option<Page>
    requires { IsSpelled words.now }
    ensures words { page_words result ≡ words.now }
    ensures fits { Fits64 words.now }
{
    match page_in(words) {
        Some(page) => page,
        None => unreachable!(),
    }
}

/// The words of all these pages.
fn words_in(alloc: Global, pages: &[Option<Page>]) -> Result<Vec<[u64; 32]>, AllocError>
    ensures words { IfOk result (λ v. v.items ≡ map page_words pages.now) }
    ensures fits { OnOk result (AllByRecursion (λ page. Fits64 (page_words page)) pages.now) }
{
    let mut words = Vec::with_capacity(alloc, pages.len())?;
    for page in pages {
        words.push(words_of(page))?;
    }
    Ok(words)
}

/// How many pages there are up to the last one in use.
fn used_to(pages: &[Option<Page>]) -> usize
    ensures same { result ≡ the_used_to pages.now }
    ensures most { result ≤ length pages.now }
{
    for behind in 0..pages.len() {
        let x = pages.len() - 1 - behind;
        if pages[x].is_some() {
            return x + 1;
        }
    }
    0
}

/// How many of these pages are stored.
pub(crate) fn stored_of(pages: &[Option<Page>]) -> usize
    requires { IsCount (length pages.now) }
    ensures same { result ≡ the_stored pages.now }
    ensures most { result ≤ length pages.now }
{
    used_to(pages).max(least_stored(pages.len() as u32) as usize)
}

/// Whether the words of each page are of 64 bits. All are: what is promised is that they are.
fn are_of_64_bits(pages: &[Option<Page>]) -> bool
    ensures same { result ≡ true }
    ensures fits { AllByRecursion (λ page. Fits64 (page_words page)) pages.now }
{
    for page in pages {
        words_of(page);
    }
    true
}

impl Image {
    /// Whether the words of each page are of 64 bits. All are.
    pub fn is_of_64_bits(&self) -> bool
        ensures same { result ≡ true }
        ensures fits { AllByRecursion (λ page. Fits64 (page_words page)) self.now.pages.items }
    {
        are_of_64_bits(self.pages.as_slice())
    }

    /// The words of page x: zeros where it is not in use.
    pub fn words_at(&self, x: u32) -> [u64; 32]
        requires { x < length self.now.pages.items }
        ensures same { result ≡ slice_index_or (map page_words self.now.pages.items) x [] }
        ensures long { length result ≡ 32 }
    {
        words_of(&self.pages[x as usize])
    }

    /// How many of its pages are stored: all, or of more than 65,536 pages those up to the last one in use, and 4 at least.
    pub(crate) fn stored(&self) -> usize
        ensures same { result ≡ the_stored self.now.pages.items }
        ensures most { result ≤ length self.now.pages.items }
    {
        stored_of(self.pages.as_slice())
    }

    /// The image of pages with these words, 4 to 2^28 of them, each by its number: those of a page, or zeros where it is
    /// not in use. It takes an empty vector with room for all pages, and no memory.
    pub fn from_words(words: &[[u64; 32]], room: Vec<Option<Page>>) -> Image
        requires count { IsCount (length words.now) }
        requires spelled { AllByRecursion IsSpelled words.now }
        requires room { (room.items ≡ []) × (length words.now ≤ vec_capacity room) }
        ensures words { map page_words result.pages.items ≡ words.now }
        // The words are of 64 bits, as those of an image are.
        ensures fits { AllByRecursion (λ page. Fits64 (page_words page)) result.pages.items }
    {
        let mut pages = room;
        for page in words {
            pages.push_reserved(page_of(page));
        }
        Image { pages }
    }

    /// The words of each page, by its number: zeros where it is not in use.
    pub fn to_words(&self, alloc: Global) -> Result<Vec<[u64; 32]>, AllocError>
        ensures words { IfOk result (λ v. v.items ≡ map page_words self.now.pages.items) }
        ensures fits { OnOk result (AllByRecursion (λ page. Fits64 (page_words page)) self.now.pages.items) }
    {
        words_in(alloc, self.pages.as_slice())
    }
}
