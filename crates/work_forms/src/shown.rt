//! Lines of a text.
use work_text::lines;

/// What stands from a line on, counted from 1; nothing where the text ends above it.
pub fn from_line(text: &[u8], line: usize) -> &[u8] {
    let mut rest = text;
    for _ in 1..line {
        match lines::find(b'\n', rest) {
            Some(i) => rest = lines::past(rest, i),
            None => return &[],
        }
    }
    rest
}

/// The first line of a text, without its LF.
pub fn first_line(text: &[u8]) -> &[u8] {
    match lines::find(b'\n', text) {
        Some(i) => &text[..i],
        None => text,
    }
}

/// Whether a text's first line has its LF.
pub fn is_ended(text: &[u8]) -> bool {
    lines::find(b'\n', text).is_some()
}
