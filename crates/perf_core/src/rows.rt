//! The rows of a memory that is scanned. What stands after the last whole row is in none.
ghost use Rattle.std.specs.Prelude.{◌≡◌, ◌<◌, ◌≤◌};
ghost use Rattle.perf_core.specs.Rows.{row_count, row_length, row_of};

/// A row has so many words, or all where there are fewer.
pub const SCANNED: usize = 100_000;

/// A row: its first word, and the one after its last.
#[derive(Clone, Copy, Drop, Debug, PartialEq, Eq)]
pub struct Row {
    pub start: usize,
    pub end: usize,
}

/// How many words each row of so many words has.
pub fn row_length(words: usize) -> usize
    ensures { result ≡ row_length words }
{
    words.min(SCANNED)
}

/// How many rows so many words have.
pub fn row_count(words: usize) -> usize
    requires { 0 < words }
    ensures is { result ≡ row_count words }
    ensures some { 0 < result }
{
    words / row_length(words)
}

/// Row `i` of so many words.
pub fn row_at(words: usize, i: usize) -> Row
    requires some { 0 < words }
    requires there { i < row_count words }
    ensures is { result ≡ row_of words i }
    ensures some { result.start < result.end }
    ensures within { result.end ≤ words }
{
    let length = row_length(words);
    let start = i * length;
    Row {
        start,
        end: start + length,
    }
}
