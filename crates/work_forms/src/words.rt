//! The words of a line.
use std::alloc::{AllocError, Global};
use work_check::words::first_word;
use work_text::lines;

/// The words of a line, of which a space parts each two.
pub fn words_of<'a>(alloc: Global, line: &'a [u8]) -> Result<Vec<&'a [u8]>, AllocError> {
    let mut words = Vec::new(alloc);
    let (word, mut rest) = first_word(line);
    words.push(word)?;
    for _ in 0..line.len() {
        if rest.is_empty() {
            break;
        }
        let (word, behind) = first_word(lines::past(rest, 0));
        words.push(word)?;
        rest = behind;
    }
    Ok(words)
}

/// Where the word of this number stands in its line, from 0.
pub fn start_of(words: &[&[u8]], number: usize) -> usize {
    let mut at = 0usize;
    for word in words.iter().take(number) {
        at = at.saturating_add(word.len()).saturating_add(1);
    }
    at
}

/// A line, with its word of this number in the place of another's; none where either has no such word.
pub fn exchanged(
    alloc: Global,
    line: &[&[u8]],
    number: usize,
    word: &[u8],
) -> Result<String, AllocError> {
    let mut text = String::new(alloc);
    for (i, own) in line.iter().enumerate() {
        if 0 < i {
            text.push_str(" ")?;
        }
        for byte in (if i == number { word } else { *own }) {
            text.push(char::from(*byte))?;
        }
    }
    Ok(text)
}

/// Whether one space stands between each two words, and none at either end.
pub fn is_spaced(words: &[&[u8]]) -> bool {
    words.iter().all(|word| !word.is_empty())
}
