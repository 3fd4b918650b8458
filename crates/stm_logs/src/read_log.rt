//! What an attempt has read.
ghost use Rattle.std.specs.Prelude.{◌*◌, ◌≡◌, ◌≤◌, ◌<◌, ◌+◌, ◌++◌, ◌∷◌, ◌≢◌, [], IfOk, MatchResult, None, length, max, slice_index_or};
ghost use Rattle.stm_model.specs.Memories.{item_at, Once};
ghost use Rattle.stm_logs.specs.Probing.{IsPlace, IsProbed};
ghost use Rattle.stm_logs.specs.LogStates.{LogState, Pushes, empty_at, next_generation, renewed, keep};

use crate::indexed_log::IndexedLog;
use crate::push::{Push, Repeat};
use std::alloc::Global;
use std::marker::Model;
use stm_model::memory::Memory;

/// The value first read at each address, in the order of the first reads.
#[derive(Drop, Debug)]
pub struct ReadLog {
    log: IndexedLog,
}

impl Model for ReadLog {
    ghost use Rattle.stm_logs.specs.LogStates.{LogState};

    ghost Value = { LogState };

    ghost view = { λ l. l.log };
}

impl ReadLog {
    /// An empty log of length `len`, 1 to 1,048,576, in generation 1. It takes all its room at once, 32 bytes an item.
    pub fn new(alloc: Global, len: usize) -> Result<ReadLog, Memory>
        requires low { 1 ≤ len }
        requires high { len ≤ 1048576 }
        ensures { IfOk result (λ l. l ≡ empty_at len 1 0) }
    {
        Ok(ReadLog {
            log: IndexedLog::with_generation(alloc, len, 1)?,
        })
    }

    /// Makes the length the greater of its old one and `len`, 1 to 1,048,576, at the cost of a push an item. Where
    /// memory is refused the log is as before.
    pub fn reserve(&mut self, alloc: Global, len: usize) -> Result<(), Memory>
        requires low { 1 ≤ len }
        requires high { len ≤ 1048576 }
        ensures { MatchResult result
            (λ _. self.new ≡ record self.old { len = max self.old.len len }) (λ _.
            self.new ≡ self.old) }
    {
        self.log.reserve(alloc, len)
    }

    /// Adds the value where the address is new; else the item stays as it is. `Full` comes exactly where the log has
    /// its length and the address isn't in it, and leaves the log as it was. One lookup.
    #[inline]
    pub fn push(&mut self, a: usize, v: u64) -> Push
        ensures { Pushes self.old a (keep a v self.old.items) result self.new }
    {
        self.log.push(a, v, Repeat::Keep)
    }

    /// The value at the address, if it is in the log. One lookup.
    #[inline]
    pub fn find(&self, a: usize) -> Option<u64>
        ensures { result ≡ item_at a self.now.items }
    {
        self.log.find(a)
    }

    /// The place in the index that the address has, or that a push would give it: it stays while the items stay, so a
    /// read that finds nothing is logged with no second lookup. One lookup, which compares no address where the first
    /// bucket is open.
    #[inline(always)]
    pub fn place(&self, a: usize) -> usize
        ensures { IsPlace (2 * self.now.len) self.now.items a result }
    {
        self.log.place(a)
    }

    /// The value at the address whose place this is, if it is in the log. No lookup.
    #[inline(always)]
    pub fn at(&self, place: usize, a: usize) -> Option<u64>
        requires { IsPlace (2 * self.now.len) self.now.items a place }
        ensures { result ≡ item_at a self.now.items }
    {
        self.log.at(place, a)
    }

    /// Adds the value at an address that isn't in the log, and whose place this is, where there is room for it. No
    /// lookup.
    #[inline(always)]
    pub fn push_at(&mut self, place: usize, a: usize, v: u64)
        requires place { IsPlace (2 * self.old.len) self.old.items a place }
        requires new { item_at a self.old.items ≡ None }
        requires room { length self.old.items ≢ self.old.len }
        ensures { self.new ≡ record self.old { items = self.old.items ++ (a, v) ∷ [] } }
    {
        self.log.push_at(place, a, v);
    }

    /// How many buckets a lookup of the address would look at in an index by the address modulo the number of buckets:
    /// those from its home on that other addresses have, and one more. At most the number of items plus 1.
    pub fn probes(&self, a: usize) -> usize
        requires short { self.now.len ≤ 4096 }
        ensures probed { IsProbed (2 * self.now.len) self.now.items a result }
        ensures high { result ≤ length self.now.items + 1 }
    {
        self.log.probes(a)
    }

    /// How many items there are, at most the length. No two have one address.
    #[inline]
    pub fn count(&self) -> usize
        ensures count { result ≡ length self.now.items }
        ensures within { result ≤ self.now.len }
        ensures once { Once self.now.items }
    {
        self.log.count()
    }

    /// How many items there may be, 1 to 1,048,576.
    #[inline]
    pub fn len(&self) -> usize
        ensures { result ≡ self.now.len }
    {
        self.log.len()
    }

    /// The address and the value of item `i`, which is below the count, in the order in which the addresses came.
    #[inline]
    pub fn item(&self, i: usize) -> (usize, u64)
        requires { i < length self.now.items }
        ensures { result ≡ slice_index_or self.now.items i (0, 0) }
    {
        self.log.item(i)
    }

    /// The generation, 1 to 4,294,967,295: 1 more at each `clear`, and 1 again after the last.
    pub fn generation(&self) -> u32
        ensures { result ≡ self.now.generation }
    {
        self.log.generation()
    }

    /// Empties the log and keeps its room. It raises the generation and leaves the index alone, but for the last
    /// generation, at which it writes each bucket.
    pub fn clear(&mut self)
        ensures { self.new
            ≡ record self.old
            { items = []; generation = next_generation self.old.generation; marks = [] } }
    {
        self.log.clear();
    }

    /// Empties the log as `clear` does, but for its generation, which stays where the log is empty. So a log that an
    /// attempt doesn't use costs a test.
    #[inline]
    pub fn renew(&mut self)
        ensures { self.new ≡ renewed self.old }
    {
        self.log.renew();
    }
}
