//! Numbers of a line, and words of a page.

use bl_serve_lines::number::number;
use bl_serve_lines::print::push_number;
use std::alloc::{AllocError, Global};

/// The numbers of a text, whose words are numbers.
pub fn numbers_in(alloc: Global, text: &str) -> Result<Vec<u64>, AllocError> {
    let mut numbers = Vec::new(alloc);
    for word in text.split_whitespace() {
        if let Some(number) = number(word.as_bytes()) {
            numbers.push(number)?;
        }
    }
    Ok(numbers)
}

/// Words that begin so, and zeros.
pub fn page_words(front: &[u64]) -> [u64; 32] {
    let mut words = [0; 32];
    for (word, value) in words.iter_mut().zip(front.iter()) {
        *word = *value;
    }
    words
}

/// The first word, and the others up to the last that is not 0.
pub fn shown_words(alloc: Global, words: &[u64]) -> Result<Vec<u8>, AllocError> {
    let mut text = Vec::new(alloc);
    push_number(&mut text, b"", words.first().copied().unwrap_or(0))?;
    let mut zeros = 0usize;
    for word in words.iter().skip(1) {
        if *word == 0 {
            zeros = zeros.saturating_add(1);
        } else {
            push_zeros(&mut text, zeros)?;
            zeros = 0;
            push_number(&mut text, b" ", *word)?;
        }
    }
    Ok(text)
}

fn push_zeros(text: &mut Vec<u8>, count: usize) -> Result<(), AllocError> {
    for _zero in 0..count {
        text.extend_from_slice(b" 0")?;
    }
    Ok(())
}
