//! A text that goes on after its first line `done`.
ghost use Rattle.std.specs.Prelude.{◌≡◌, ◌≤◌, length};
ghost use Rattle.work_text.specs.Lines.{lines_of};
ghost use Rattle.work_text.specs.Parting.{to_done, after_done};

use crate::lines;

/// A text up to and with its first line `done`, and what stands after that line; the whole text and nothing where there
/// is no such line.
pub fn part_at_done(text: &[u8]) -> (&[u8], &[u8])
    ensures head { result.0.now ≡ to_done text.now }
    ensures rest { result.1.now ≡ after_done text.now }
{
    let mut rest = text;
    let mut at = 0usize;
    while let Some(i) = lines::find(b'\n', rest) {
        let is_done = lines::is(&rest[..i], b"done");
        rest = lines::past(rest, i);
        at += i + 1;
        if is_done {
            return (&text[..at], rest);
        }
    }
    (text, &text[text.len()..])
}

/// How many lines a text has.
pub fn count_lines(text: &[u8]) -> usize
    ensures count { result ≡ length (lines_of text.now) }
    ensures least { result ≤ length text.now }
{
    let mut rest = text;
    let mut count = 0usize;
    while let Some(i) = lines::find(b'\n', rest) {
        rest = lines::past(rest, i);
        count += 1;
    }
    if rest.is_empty() { count } else { count + 1 }
}
