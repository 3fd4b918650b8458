//! A log that grows long: items of address and value, in the order in which the addresses came, all found by an index.
ghost use Rattle.std.specs.Prelude.{◌*◌, ◌≡◌, ◌≤◌, ◌<◌, ◌+◌, ◌++◌, ◌∷◌, ◌≢◌, [], IfOk, MatchResult, None, length, max, slice_index_or};
ghost use Rattle.stm_model.specs.Memories.{item_at, Once};
ghost use Rattle.stm_logs.specs.Probing.{IsPlace, IsProbed};
ghost use Rattle.stm_logs.specs.LogStates.{LogState, Pushes, empty_at, next_generation, pushed, renewed};

use crate::index::{Bucket, Homes, clear_marks, home, look_up};
use crate::probes::probes_among;
use crate::push::{Push, Repeat};
use std::alloc::Global;
use std::marker::Model;
use stm_model::memory::Memory;

/// At most `len` items, 1 to 1,048,576, and an index of `2 * len` buckets. It takes 16 bytes an item and 16 for its two
/// buckets. Contracts see a `LogState`: the list of the items, `len` and the generation.
#[derive(Drop, Debug)]
pub struct IndexedLog {
    items: Vec<(usize, u64)>,
    index: Vec<Bucket>,
    generation: u32,
    len: usize,
}

impl Model for IndexedLog {
    ghost use Rattle.std.specs.Prelude.{◌≡◌, ◌≤◌, ◌<◌, ◌*◌, [], length, vec_capacity};
    ghost use Rattle.stm_logs.specs.LogStates.{LogState};

    ghost Value = { LogState };

    ghost use Rattle.stm_logs.specs.Buckets.{IsIndex};
    ghost use Rattle.stm_logs.specs.declared.index.Homes.TheVariants.{Mixed};

    ghost view = { λ l. record { items = l.items.items; len = l.len; generation = l.generation; marks = []; marks_limit = 0 } };

    ghost invariant = { λ l. IsIndex Mixed l.generation l.items.items l.index.items × (length l.index.items ≡ 2 * l.len) × (length l.items.items ≤ l.len) × (1 ≤ l.len) × (l.len ≤ 1048576) × (1 ≤ l.generation) × (l.len ≤ vec_capacity l.items) };
}

impl IndexedLog {
    /// An empty log of length `len`, 1 to 1,048,576, with this generation, 1 to 4,294,967,295. It takes all its room at
    /// once, and writes each bucket.
    pub fn with_generation(alloc: Global, len: usize, generation: u32) -> Result<IndexedLog, Memory>
        requires low { 1 ≤ len }
        requires high { len ≤ 1048576 }
        requires counted { 1 ≤ generation }
        ensures { IfOk result (λ l. l ≡ empty_at len generation 0) }
    {
        let mut items = Vec::new(alloc);
        items.reserve(len)?;
        let mut index = Vec::new(alloc);
        index.resize(2 * len, Bucket { mark: 0, item: 0 })?;
        Ok(IndexedLog {
            items,
            index,
            generation,
            len,
        })
    }

    /// The value at the address, if it is in the log. One lookup.
    #[inline(always)]
    pub fn find(&self, a: usize) -> Option<u64>
        ensures { result ≡ item_at a self.now.items }
    {
        let place = self.place(a);
        self.at(place, a)
    }

    /// The number of the bucket at which the lookup of the address ends: that of its item, else an open one. It depends
    /// on the items alone, so it stays while they stay. It ends here where the first bucket is open.
    #[inline(always)]
    pub fn place(&self, a: usize) -> usize
        ensures { IsPlace (2 * self.now.len) self.now.items a result }
    {
        let home = home(Homes::Mixed, self.index.len(), a);
        if self.index[home].mark != self.generation {
            return home;
        }
        self.place_from_home(a)
    }

    /// The same where the first bucket is taken. It answers a number, since a struct would have its room set to 0 in
    /// each caller.
    #[inline(never)]
    fn place_from_home(&self, a: usize) -> usize
        ensures { IsPlace (2 * self.now.len) self.now.items a result }
    {
        look_up(Homes::Mixed, &self.index, &self.items, self.generation, a).at
    }

    /// The value at the address whose place this is, if it is in the log. No lookup.
    #[inline(always)]
    pub fn at(&self, place: usize, a: usize) -> Option<u64>
        requires { IsPlace (2 * self.now.len) self.now.items a place }
        ensures { result ≡ item_at a self.now.items }
    {
        let _ = a;
        if self.index[place].mark != self.generation {
            return None;
        }
        Some(self.items[self.index[place].item as usize].1)
    }

    /// How many buckets a lookup of the address would look at in an index by the address modulo the number of buckets:
    /// those from its home on that other addresses have, and one more. At most the number of items plus 1. It makes
    /// that index.
    pub fn probes(&self, a: usize) -> usize
        requires short { self.now.len ≤ 4096 }
        ensures probed { IsProbed (2 * self.now.len) self.now.items a result }
        ensures high { result ≤ length self.now.items + 1 }
    {
        probes_among(self.index.len(), &self.items, a)
    }

    /// How many items there are, at most the length. No two have one address.
    pub fn count(&self) -> usize
        ensures count { result ≡ length self.now.items }
        ensures within { result ≤ self.now.len }
        ensures some { 1 ≤ self.now.len }
        ensures once { Once self.now.items }
    {
        let _ = &self.index;
        self.items.len()
    }

    /// How many items there may be, 1 to 1,048,576.
    pub fn len(&self) -> usize
        ensures { result ≡ self.now.len }
    {
        self.len
    }

    /// The address and the value of item `i`, which is below the count. The items stand in the order in which their
    /// addresses came.
    pub fn item(&self, i: usize) -> (usize, u64)
        requires { i < length self.now.items }
        ensures { result ≡ slice_index_or self.now.items i (0, 0) }
    {
        self.items[i]
    }

    /// The generation, 1 to 4,294,967,295: 1 more at each `clear`, and 1 again after the last.
    pub fn generation(&self) -> u32
        ensures { result ≡ self.now.generation }
    {
        self.generation
    }

    /// Adds the value at the address, or does what `repeat` says where the address is in the log. It answers `Full`
    /// exactly where the log has its length and the address isn't in it. One lookup; it takes no memory.
    #[inline]
    pub fn push(&mut self, a: usize, v: u64, repeat: Repeat) -> Push
        ensures { Pushes self.old a (pushed repeat a v self.old.items) result self.new }
    {
        let found = look_up(Homes::Mixed, &self.index, &self.items, self.generation, a);
        if let Some(i) = found.item {
            return match repeat {
                Repeat::Keep => Push::Done,
                Repeat::Replace => {
                    self.items[i] = (a, v);
                    Push::Done
                }
            };
        }
        let count = self.items.len();
        if count == self.len {
            return Push::Full { limit: self.len };
        }
        self.items.push_reserved((a, v));
        self.index[found.at] = Bucket {
            mark: self.generation,
            item: count as u32,
        };
        Push::Done
    }

    /// Adds the value at an address that no item has, and whose place this is, where there is room for it. No lookup;
    /// it takes no memory.
    #[inline(always)]
    pub fn push_at(&mut self, place: usize, a: usize, v: u64)
        requires place { IsPlace (2 * self.old.len) self.old.items a place }
        requires new { item_at a self.old.items ≡ None }
        requires room { length self.old.items ≢ self.old.len }
        ensures { self.new ≡ record self.old { items = self.old.items ++ (a, v) ∷ [] } }
    {
        let count = self.items.len();
        self.items.push_reserved((a, v));
        let bucket = &mut self.index[place];
        bucket.mark = self.generation;
        bucket.item = count as u32;
    }

    /// Makes the length the greater of its old one and `len`, 1 to 1,048,576. Where memory is refused the log is as
    /// before. A greater length costs a push an item into a new log, whose room is taken beside the old one's.
    pub fn reserve(&mut self, alloc: Global, len: usize) -> Result<(), Memory>
        requires low { 1 ≤ len }
        requires high { len ≤ 1048576 }
        ensures { MatchResult result
            (λ _. self.new ≡ record self.old { len = max self.old.len len }) (λ _.
            self.new ≡ self.old) }
    {
        if len <= self.len {
            return Ok(());
        }
        let mut grown = IndexedLog::with_generation(alloc, len, self.generation)?;
        for &(a, v) in &self.items {
            grown.push(a, v, Repeat::Keep);
        }
        *self = grown;
        Ok(())
    }

    /// Empties the log and keeps its room. It raises the generation and leaves the index alone, but for the last
    /// generation, at which it writes each bucket.
    pub fn clear(&mut self)
        ensures { self.new
            ≡ record self.old
            { items = []; generation = next_generation self.old.generation; marks = [] } }
    {
        self.items.clear();
        self.generation = self.generation.wrapping_add(1);
        if self.generation == 0 {
            clear_marks(&mut self.index);
            self.generation = 1;
        }
    }

    /// Empties the log as `clear` does, but for its generation, which stays where the log is empty. So a log that an
    /// attempt doesn't use costs a test.
    #[inline]
    pub fn renew(&mut self)
        ensures { self.new ≡ renewed self.old }
    {
        if self.items.is_empty() {
            return;
        }
        self.clear();
    }
}
