//! The bytes of one page.

ghost use Rattle.std.specs.Prelude.{◌≡◌, ◌+◌, ◌*◌, ◌^◌, ◌≤◌, ◌↔◌, true, Option, Some, length, replicate, IfSome, IsTrue, MatchOption};
ghost use Rattle.bl_page.specs.declared.page.Page.{Page};
ghost use Rattle.bl_image.specs.Images.{word_bytes, page_words, page_bytes, ArePage, NamesBelow, Fits64, chunk};

use bl_page::{Page, from_wide_words, from_words_below};
use byteorder::{ByteOrder, LittleEndian};

/// The words that 256 bytes spell.
pub fn words_in(bytes: &[u8]) -> [u64; 32]
    requires { length bytes.now ≡ 256 }
    ensures bytes { word_bytes result ≡ bytes.now }
    ensures count { length result ≡ 32 }
    ensures fits { Fits64 result }
{
    let mut words = [0; 32];
    LittleEndian::read_u64_into(bytes, &mut words);
    words
}

/// Whether each word is of 64 bits, as those of an image have to be. All are: what is promised is that they are.
fn are_of_64_bits(words: &[u64; 32]) -> bool
    ensures same { result ≡ true }
    ensures fits { Fits64 words.now }
{
    words.iter().all(|word| *word <= u64::MAX)
}

/// The words of a page, zeros where it is not in use.
pub fn words_of(page: &Option<Page>) -> [u64; 32]
    ensures words { result ≡ page_words page.now }
    ensures fits { Fits64 result }
{
    let words = match page {
        Some(page) => page.to_words(),
        None => [0; 32],
    };
    are_of_64_bits(&words);
    words
}

/// The bytes that spell words.
pub fn bytes_of(words: &[u64; 32]) -> [u8; 256]
    ensures bytes { result ≡ word_bytes words.now }
    ensures fits { Fits64 words.now }
{
    let mut bytes = [0; 256];
    LittleEndian::write_u64_into(words, &mut bytes);
    bytes
}

/// Whether a page has only zeros, which stand for none.
fn is_zero(words: &[u64; 32]) -> bool
    ensures { IsTrue result ↔ (words.now ≡ replicate 32 0) }
{
    *words == [0; 32]
}

/// The page that words spell, or None in its place where all of them are zeros; no page where they are no page's.
pub fn page_in(words: &[u64; 32]) -> Option<Option<Page>>
    ensures some { IfSome result (λ page. words.now ≡ page_words page) }
    ensures only { (page : Option Page) → words.now ≡ page_words page → result ≡ Some page }
{
    if is_zero(words) {
        return Some(None);
    }
    match from_wide_words(words) {
        Ok(page) => Some(Some(page)),
        Err(_) => None,
    }
}

/// The same, where it names pages below that bound alone.
fn page_below(words: &[u64; 32], most: u64) -> Option<Option<Page>>
    requires { most ≤ 2 ^ 32 }
    ensures some { IfSome result (λ page. words.now ≡ page_words page) }
    ensures below { IfSome result (NamesBelow most) }
    ensures only { (page : Option Page) → NamesBelow most page → words.now ≡ page_words page → result ≡ Some page }
{
    if is_zero(words) {
        return Some(None);
    }
    match from_words_below(words, most) {
        Ok(page) => Some(Some(page)),
        Err(_) => None,
    }
}

/// The page number x, if its bytes are those of a page that names pages below that bound.
pub fn page_at(bytes: &[u8], x: u32, most: u64) -> Option<Option<Page>>
    requires long { 32 + 256 * (x + 1) ≤ length bytes.now }
    requires most { most ≤ 2 ^ 32 }
    ensures { MatchOption result (¬ ArePage most (chunk bytes.now x))
        (λ page. NamesBelow most page × Fits64 (page_words page) × (chunk bytes.now x ≡ page_bytes page)) }
{
    let at = 32 + 256 * x as usize;
    page_below(&words_in(&bytes[at..at + 256]), most)
}
