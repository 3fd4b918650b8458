//! Records in a row.
ghost use Rattle.std.specs.Prelude.{◌≡◌, ◌<◌, ◌≤◌, ◌+◌, ◌*◌, ◌^◌};

use crate::layout::Layout;

/// So many records, one after another, each of so many words.
#[derive(Clone, Copy, Drop, Debug, PartialEq, Eq)]
pub struct Records {
    pub first: usize,
    pub count: usize,
    pub words: usize,
}

impl Records {
    pub(crate) fn new(first: usize, count: usize, words: usize) -> Records
        ensures { result ≡ record { first = first; count = count; words = words } }
    {
        Records {
            first,
            count,
            words,
        }
    }

    /// The words of the record with this index, from 0, as a layout that hands out its fields.
    pub fn record(&self, index: usize) -> Layout
        requires within { index < self.now.count }
        requires fits { self.now.first + self.now.count * self.now.words < 2 ^ 64 }
        ensures first { result ≡ self.now.first + index * self.now.words }
        ensures within { result + self.now.words
            ≤ self.now.first + self.now.count * self.now.words }
    {
        Layout::from(self.first + index * self.words)
    }
}
