//! A word of a command line, as a sentence shows it, and the names that are most like it.
#![tactic(auto)]

use std::alloc::{AllocError, Global};
use strsim::levenshtein;

/// How many bytes of a word are shown.
const MOST_SHOWN: usize = 24;

/// Appends a word, cut.
///
/// # Errors
/// Memory, where it is refused.
pub fn put_word(said: &mut String, word: &str) -> Result<(), AllocError> {
    said.push_str("`")?;
    push_cut(said, word)?;
    said.push_str("`")
}

/// Appends these names, those that are most like a word first.
///
/// # Errors
/// Memory, where it is refused.
pub fn put_nearest(
    alloc: Global,
    said: &mut String,
    word: &str,
    names: &[&str],
) -> Result<(), AllocError> {
    let mut cut = String::new(alloc);
    push_cut(&mut cut, word)?;
    let mut is_first = true;
    for wanted in 0..=MOST_SHOWN {
        for name in names {
            if levenshtein(alloc, name, cut.as_str())?.min(MOST_SHOWN) != wanted {
                continue;
            }
            if !is_first {
                said.push_str(", ")?;
            }
            write!(said, "`{name}`")?;
            is_first = false;
        }
    }
    Ok(())
}

/// Appends the first bytes of a word; what isn't shown in a line is a question mark.
fn push_cut(said: &mut String, word: &str) -> Result<(), AllocError> {
    let mut length = 0usize;
    for c in word.chars() {
        length = length.saturating_add(c.len_utf8());
        if MOST_SHOWN < length {
            return said.push_str(" ..");
        }
        said.push(if c.is_control() { '?' } else { c })?;
    }
    Ok(())
}
