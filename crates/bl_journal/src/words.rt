//! Words as bytes.

ghost use Rattle.std.specs.Prelude.{◌≡◌, ◌≢◌, ◌%◌, ◌*◌, ◌++◌, true, List, ℕ, length, IfOk, OnOk, MatchOption};
ghost use Rattle.bl_image.specs.Images.{word_bytes, Fits64};

use byteorder::{ByteOrder, LittleEndian};
use std::alloc::{AllocError, Global};

/// How many bytes a word has.
pub(crate) const WORD: usize = 8;

/// Whether each word is of 64 bits. All are: what is promised is that they are.
fn are_of_64_bits(words: &[u64]) -> bool
    ensures same { result ≡ true }
    ensures fits { Fits64 words.now }
{
    words.iter().all(|word| *word <= u64::MAX)
}

/// The bytes that spell words.
pub(crate) fn spell(alloc: Global, words: &[u64]) -> Result<Vec<u8>, AllocError>
    ensures bytes { IfOk result (λ bytes. bytes.items ≡ word_bytes words.now) }
    ensures fits { Fits64 words.now }
{
    are_of_64_bits(words);
    let mut bytes = Vec::with_capacity(alloc, words.len().saturating_mul(WORD))?;
    for word in words {
        let mut spelled = [0; WORD];
        LittleEndian::write_u64(&mut spelled, *word);
        bytes.extend_from_slice(&spelled)?;
    }
    Ok(bytes)
}

/// The words that bytes spell. None where they are not eight for each.
pub(crate) fn words_in(alloc: Global, bytes: &[u8]) -> Result<Option<Vec<u64>>, AllocError>
    ensures words { IfOk result (λ found. MatchOption found ((words : List ℕ) → bytes.now ≢ word_bytes words)
        (λ words. (word_bytes words.items ≡ bytes.now) × Fits64 words.items)) }
{
    if bytes.len() % WORD != 0 {
        return Ok(None);
    }
    let mut words = Vec::with_capacity(alloc, bytes.len() / WORD)?;
    let mut rest = bytes;
    while rest.len() >= WORD {
        let (first, behind) = rest.split_at(WORD);
        words.push(LittleEndian::read_u64(first))?;
        rest = behind;
    }
    are_of_64_bits(words.as_slice());
    Ok(Some(words))
}
