//! Places in a row.
ghost use Rattle.std.specs.Prelude.{◌≡◌, ◌<◌, ◌+◌, ◌^◌};

use crate::place::Place;
use crate::word::Word;
use std::marker::PhantomData;

/// So many places of one type: the words from `first` on.
#[derive(Drop)]
#[derive_where(Clone, Copy, Debug, PartialEq, Eq)]
pub struct Places<T> {
    pub first: usize,
    pub count: usize,
    of: PhantomData<T>,
}

impl<T: Word> Places<T> {
    pub fn new(first: usize, count: usize) -> Places<T>
        ensures first { result.first ≡ first }
        ensures count { result.count ≡ count }
    {
        Places {
            first,
            count,
            of: PhantomData,
        }
    }

    /// The place with this index, from 0.
    pub fn at(&self, index: usize) -> Place<T>
        requires within { index < self.now.count }
        requires fits { self.now.first + self.now.count < 2 ^ 64 }
        ensures { result.at ≡ self.now.first + index }
    {
        Place::new(self.first + index)
    }
}
