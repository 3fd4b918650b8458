//! What an attempt must put back.
ghost use Rattle.std.specs.Prelude.{◌*◌, ◌≡◌, ◌≤◌, ◌<◌, ◌+◌, [], None, IfOk, MatchResult, length, max, slice_index_or, take};
ghost use Rattle.stm_model.specs.Memories.{item_at, Once};
ghost use Rattle.stm_logs.specs.Probing.{IsProbed};
ghost use Rattle.stm_logs.specs.LogStates.{LogState, Pushes, empty_at, next_generation, renewed, keep, with_last};

use crate::push::{Push, Repeat};
use crate::short_log::ShortLog;
use std::alloc::Global;
use std::marker::Model;
use stm_model::memory::Memory;

/// The value that each written address had before, in the order of the first writes.
#[derive(Drop, Debug)]
pub struct UndoLog {
    log: ShortLog,
}

impl Model for UndoLog {
    ghost use Rattle.stm_logs.specs.LogStates.{LogState};

    ghost Value = { LogState };

    ghost view = { λ l. l.log };
}

impl UndoLog {
    /// An empty log of length `len`, 1 to 1,048,576, in generation 1. It takes all its room at once, 32 bytes an item.
    pub fn new(alloc: Global, len: usize) -> Result<UndoLog, Memory>
        requires low { 1 ≤ len }
        requires high { len ≤ 1048576 }
        ensures { IfOk result (λ l. l ≡ empty_at len 1 0) }
    {
        Ok(UndoLog {
            log: ShortLog::with_generation(alloc, len, 1)?,
        })
    }

    /// Makes the length the greater of its old one and `len`, 1 to 1,048,576, at the cost of a push an item. Where
    /// memory is refused the log is as before.
    pub fn reserve(&mut self, alloc: Global, len: usize) -> Result<(), Memory>
        requires low { 1 ≤ len }
        requires high { len ≤ 1048576 }
        ensures { MatchResult result
            (λ _. self.new ≡ record self.old { len = max self.old.len len }) (λ _.
            self.new ≡ self.old) }
    {
        self.log.reserve(alloc, len)
    }

    /// Adds the value where the address is new; else the item stays as it is. `Full` comes exactly where the log has
    /// its length and the address isn't in it, and leaves the log as it was. Two lookups at most.
    #[inline(always)]
    pub fn push(&mut self, a: usize, v: u64) -> Push
        ensures { Pushes self.old a (keep a v self.old.items) result self.new }
    {
        self.log.push(a, v, Repeat::Keep)
    }

    /// The same where no item has the address. No lookup while the log is short, one else.
    #[inline(always)]
    pub fn push_new(&mut self, a: usize, v: u64) -> Push
        requires new { item_at a self.old.items ≡ None }
        ensures { Pushes self.old a (keep a v self.old.items) result self.new }
    {
        self.log.push_new(a, v, Repeat::Keep)
    }

    /// Puts the value in the place of the last item's, whose address stays: that of an item which a push has just made.
    /// No lookup.
    #[inline]
    pub fn set_last(&mut self, v: u64)
        requires { 0 < length self.old.items }
        ensures { self.new ≡ record self.old { items = with_last v self.old.items } }
    {
        self.log.set_last(v);
    }

    /// The value at the address, if it is in the log. One lookup, and none in an empty log.
    #[inline(always)]
    pub fn find(&self, a: usize) -> Option<u64>
        ensures { result ≡ item_at a self.now.items }
    {
        self.log.find(a)
    }

    /// How many buckets a lookup of the address would look at in an index by the address modulo the number of buckets:
    /// those from its home on that other addresses have, and one more. At most the number of items plus 1.
    pub fn probes(&self, a: usize) -> usize
        requires short { self.now.len ≤ 4096 }
        ensures probed { IsProbed (2 * self.now.len) self.now.items a result }
        ensures high { result ≤ length self.now.items + 1 }
    {
        self.log.probes(a)
    }

    /// How many items there are, at most the length. No two have one address.
    #[inline]
    pub fn count(&self) -> usize
        ensures count { result ≡ length self.now.items }
        ensures within { result ≤ self.now.len }
        ensures some { 1 ≤ self.now.len }
        ensures once { Once self.now.items }
    {
        self.log.count()
    }

    /// How many items there may be, 1 to 1,048,576.
    #[inline]
    pub fn len(&self) -> usize
        ensures { result ≡ self.now.len }
    {
        self.log.len()
    }

    /// The address and the value of item `i`, which is below the count, in the order in which the addresses came.
    #[inline]
    pub fn item(&self, i: usize) -> (usize, u64)
        requires { i < length self.now.items }
        ensures { result ≡ slice_index_or self.now.items i (0, 0) }
    {
        self.log.item(i)
    }

    /// The generation, 1 to 4,294,967,295: 1 more at each `clear`, and 1 again after the last.
    pub fn generation(&self) -> u32
        ensures { result ≡ self.now.generation }
    {
        self.log.generation()
    }

    /// Empties the log and keeps its room. It raises the generation and leaves the index alone, but for the last
    /// generation, at which it writes each bucket.
    pub fn clear(&mut self)
        ensures { self.new
            ≡ record self.old
            { items = []; generation = next_generation self.old.generation; marks = [] } }
    {
        self.log.clear();
    }

    /// Empties the log as `clear` does, but for its generation, which stays where the log is empty. So a log that an
    /// attempt doesn't use costs a test.
    #[inline]
    pub fn renew(&mut self)
        ensures { self.new ≡ renewed self.old }
    {
        self.log.renew();
    }
}
