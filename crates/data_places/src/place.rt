//! A place for a value, which is one word.
ghost use Rattle.std.specs.Prelude.{◌≡◌, ◌<◌, ℕ, None, IfOk, OnOk, IfErr, length, slice_index};
ghost use Rattle.stm_model.specs.Logs.{Reads, Writes, IsReadStop};
ghost use Rattle.data_effects.specs.Accesses.{LeadsOn};
ghost use Rattle.data_places.specs.Codes.{Stands, Updates};

use crate::word::Word;
use std::marker::PhantomData;
use stm_model::access::Access;
use stm_model::stop::Stop;

/// The word at `at`, as a value of `T`. A memory of zeros has there the value whose word is 0.
#[derive(Drop)]
#[derive_where(Clone, Copy, Debug, PartialEq, Eq)]
pub struct Place<T> {
    pub at: usize,
    of: PhantomData<T>,
}

impl<T: Word> Place<T> {
    pub fn new(at: usize) -> Place<T>
        ensures { result.at ≡ at }
    {
        Place {
            at,
            of: PhantomData,
        }
    }

    /// Reads the value: where the word that was read is a value's, that value.
    ///
    /// # Errors
    /// The Stop of the access.
    pub fn get<A: Access>(&self, memory: &mut A) -> Result<T, Stop>
        requires going { A.stopped memory.old ≡ None }
        requires within { self.now.at < A.words memory.old }
        ensures value { IfOk result (λ v.
            (word : ℕ) × Reads (A.log memory.old) self.now.at word (A.log memory.new)
            × Stands T.fits T.code word v) }
        ensures cause { IfErr result IsReadStop }
        ensures frame { LeadsOn A.Access memory.old memory.new result }
    {
        let word = memory.read(self.at)?;
        Ok(T::of_word(word))
    }

    /// Writes the value's word.
    ///
    /// # Errors
    /// The Stop of the access.
    pub fn set<A: Access>(&self, memory: &mut A, value: T) -> Result<(), Stop>
        requires going { A.stopped memory.old ≡ None }
        requires within { self.now.at < A.words memory.old }
        ensures value { OnOk result
            (Writes (A.log memory.old) self.now.at (T.code value) (A.log memory.new)
            × T.fits value) }
        ensures frame { LeadsOn A.Access memory.old memory.new result }
    {
        memory.write(self.at, value.to_word())
    }
    /// Reads the value and writes what `by` makes of it, which it returns.
    ///
    /// # Errors
    /// The Stop of the access.
    pub fn update<A: Access, F: Fn(T) -> T>(&self, memory: &mut A, by: F) -> Result<T, Stop>
        requires going { A.stopped memory.old ≡ None }
        requires within { self.now.at < A.words memory.old }
        requires callable { F.IsAlwaysCallable by }
        ensures value { IfOk result (λ v.
            Updates T.fits T.code (F.post by) self.now.at (A.log memory.old) v (A.log memory.new)) }
        ensures frame { LeadsOn A.Access memory.old memory.new result }
    {
        let value = by(self.get(memory)?);
        self.set(memory, value)?;
        Ok(value)
    }

    /// The value at this place of a memory whose words these are.
    pub fn value_in(&self, words: &[u64]) -> T
        requires within { self.now.at < length words.now }
        ensures { Stands T.fits T.code (slice_index words.now self.now.at) result }
    {
        T::of_word(words[self.at])
    }
}
