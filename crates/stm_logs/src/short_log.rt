//! The common part of the logs of writes, which are mostly short: items of address and value, in the order in which the
//! addresses came. A word of bits stands in front; then a short log is looked through, and a longer one has an index.
ghost use Rattle.std.specs.Prelude.{◌*◌, ◌≡◌, ◌≤◌, ◌<◌, ◌+◌, ◌-◌, ◌%◌, ◌^◌, [], None, IfOk, MatchResult, length, max, slice_index_or, take};
ghost use Rattle.stm_model.specs.Memories.{item_at, Once};
ghost use Rattle.stm_logs.specs.Probing.{IsProbed};
ghost use Rattle.stm_logs.specs.ShortLogs.{IsPosition};
ghost use Rattle.stm_logs.specs.LogStates.{LogState, Pushes, empty_at, next_generation, pushed, renewed, with_last};

use crate::index::{Bucket, Homes, clear_marks, look_up, take, take_all};
use crate::probes::probes_among;
use crate::push::{Push, Repeat};
use std::alloc::Global;
use std::marker::Model;
use stm_model::memory::Memory;

/// So many items are looked through: an index would cost more.
const SHORT: usize = 8;

/// At most `len` items, 1 to 1,048,576, and an index of `2 * len` buckets. It takes 16 bytes an item and 16 for its two
/// buckets. Contracts see a `LogState`: the list of the items, `len` and the generation.
#[derive(Drop, Debug)]
pub struct ShortLog {
    items: Vec<(usize, u64)>,
    /// The bit of each item's address, and maybe of some that went: an address whose bit is missing is in no item.
    seen: u64,
    /// Up to so many items the log is short, and its index empty; 0 once the items are in the index.
    short: usize,
    index: Vec<Bucket>,
    generation: u32,
    len: usize,
}

impl Model for ShortLog {
    ghost use Rattle.std.specs.Prelude.{◌≡◌, ◌≤◌, ◌<◌, ◌*◌, [], length, vec_capacity};
    ghost use Rattle.stm_logs.specs.LogStates.{LogState};

    ghost Value = { LogState };

    ghost use Rattle.stm_logs.specs.ShortLogs.{IsKept};

    ghost view = { λ l. record { items = l.items.items; len = l.len; generation = l.generation; marks = []; marks_limit = 0 } };

    ghost invariant = { λ l. IsKept l.short l.seen l.generation l.items.items l.index.items × (l.short ≤ l.len) × (length l.index.items ≡ 2 * l.len) × (length l.items.items ≤ l.len) × (1 ≤ l.len) × (l.len ≤ 1048576) × (1 ≤ l.generation) × (l.len ≤ vec_capacity l.items) };
}

impl ShortLog {
    /// An empty log of length `len`, 1 to 1,048,576, with this generation, 1 to 4,294,967,295. It takes all its room at
    /// once, and writes each bucket.
    pub fn with_generation(alloc: Global, len: usize, generation: u32) -> Result<ShortLog, Memory>
        requires low { 1 ≤ len }
        requires high { len ≤ 1048576 }
        requires counted { 1 ≤ generation }
        ensures { IfOk result (λ l. l ≡ empty_at len generation 0) }
    {
        let mut items = Vec::new(alloc);
        items.reserve(len)?;
        let mut index = Vec::new(alloc);
        index.resize(2 * len, Bucket { mark: 0, item: 0 })?;
        Ok(ShortLog {
            items,
            seen: 0,
            short: len.min(SHORT),
            index,
            generation,
            len,
        })
    }

    /// The value at the address, if it is in the log. It looks at the items where one with the address's bit came.
    #[inline(always)]
    pub fn find(&self, a: usize) -> Option<u64>
        ensures { result ≡ item_at a self.now.items }
    {
        if self.items.is_empty() {
            return None;
        }
        let seen = self.seen & bit_of(a);
        if seen == 0 {
            return None;
        }
        let i = self.position(a);
        let count = self.items.len();
        if i == count {
            return None;
        }
        Some(self.items[i].1)
    }

    /// The number of the address's item, or that of the items where none has it. It answers a number, since a struct
    /// would have its room set to 0 in each caller.
    #[inline(never)]
    fn position(&self, a: usize) -> usize
        ensures { IsPosition a self.now.items result }
    {
        if self.short != 0 {
            return look_through(&self.items, a);
        }
        match look_up(Homes::Mixed, &self.index, &self.items, self.generation, a).item {
            Some(i) => i,
            None => self.items.len(),
        }
    }

    /// How many buckets a lookup of the address would look at in an index by the address modulo the number of buckets:
    /// those from its home on that other addresses have, and one more. At most the number of items plus 1. It makes
    /// that index.
    pub fn probes(&self, a: usize) -> usize
        requires short { self.now.len ≤ 4096 }
        ensures probed { IsProbed (2 * self.now.len) self.now.items a result }
        ensures high { result ≤ length self.now.items + 1 }
    {
        probes_among(self.index.len(), &self.items, a)
    }

    /// How many items there are, at most the length. No two have one address.
    pub fn count(&self) -> usize
        ensures count { result ≡ length self.now.items }
        ensures within { result ≤ self.now.len }
        ensures some { 1 ≤ self.now.len }
        ensures once { Once self.now.items }
    {
        let _ = &self.index;
        self.items.len()
    }

    /// How many items there may be, 1 to 1,048,576.
    pub fn len(&self) -> usize
        ensures { result ≡ self.now.len }
    {
        self.len
    }

    /// The address and the value of item `i`, which is below the count. The items stand in the order in which their
    /// addresses came.
    pub fn item(&self, i: usize) -> (usize, u64)
        requires { i < length self.now.items }
        ensures { result ≡ slice_index_or self.now.items i (0, 0) }
    {
        self.items[i]
    }

    /// The generation, 1 to 4,294,967,295: 1 more at each `clear`, and 1 again after the last.
    pub fn generation(&self) -> u32
        ensures { result ≡ self.now.generation }
    {
        self.generation
    }

    /// Adds the value at the address, or does what `repeat` says where the address is in the log. It answers `Full`
    /// exactly where the log has its length and the address isn't in it. Two lookups at most; it takes no memory.
    #[inline(always)]
    pub fn push(&mut self, a: usize, v: u64, repeat: Repeat) -> Push
        ensures { Pushes self.old a (pushed repeat a v self.old.items) result self.new }
    {
        let seen = self.seen & bit_of(a);
        if seen != 0 {
            return self.push_seen(a, v, repeat);
        }
        self.push_new(a, v, repeat)
    }

    /// The same where an item with the address's bit came.
    #[inline(never)]
    fn push_seen(&mut self, a: usize, v: u64, repeat: Repeat) -> Push
        ensures { Pushes self.old a (pushed repeat a v self.old.items) result self.new }
    {
        let i = self.position(a);
        let count = self.items.len();
        if i == count {
            return self.push_new(a, v, repeat);
        }
        match repeat {
            Repeat::Keep => Push::Done,
            Repeat::Replace => {
                self.items[i] = (a, v);
                Push::Done
            }
        }
    }

    /// The same where no item has the address, so that `repeat` tells nothing. No lookup while the log is short, one
    /// else.
    #[inline(always)]
    pub fn push_new(&mut self, a: usize, v: u64, repeat: Repeat) -> Push
        requires { item_at a self.old.items ≡ None }
        ensures { Pushes self.old a (pushed repeat a v self.old.items) result self.new }
    {
        if self.items.len() >= self.short {
            return self.push_long(a, v, repeat);
        }
        self.seen |= bit_of(a);
        self.items.push_reserved((a, v));
        Push::Done
    }

    /// The same where the log is no longer short, or won't be.
    #[inline(never)]
    fn push_long(&mut self, a: usize, v: u64, repeat: Repeat) -> Push
        requires { item_at a self.old.items ≡ None }
        ensures { Pushes self.old a (pushed repeat a v self.old.items) result self.new }
    {
        let count = self.items.len();
        if count == self.len {
            return Push::Full { limit: self.len };
        }
        self.seen |= bit_of(a);
        if self.short == 0 {
            take(
                Homes::Mixed,
                &mut self.index,
                &self.items,
                self.generation,
                a,
            );
            self.items.push_reserved((a, v));
            return Push::Done;
        }
        self.items.push_reserved((a, v));
        take_all(Homes::Mixed, &mut self.index, &self.items, self.generation);
        self.short = 0;
        Push::Done
    }

    /// Puts the value in the place of the last item's, whose address stays. No lookup.
    #[inline]
    pub fn set_last(&mut self, v: u64)
        requires { 0 < length self.old.items }
        ensures { self.new ≡ record self.old { items = with_last v self.old.items } }
    {
        let last = self.count() - 1;
        let (a, _) = self.item(last);
        self.items[last] = (a, v);
    }

    /// Takes the last item away: its bucket, if it has one, is open again. One lookup.
    pub fn pop(&mut self)
        requires { 0 < length self.old.items }
        ensures { self.new
            ≡ record self.old { items = take (length self.old.items - 1) self.old.items } }
    {
        let last = self.count() - 1;
        let (a, _) = self.item(last);
        if self.short != 0 {
            self.items.truncate(last);
            return;
        }
        let found = look_up(Homes::Mixed, &self.index, &self.items, self.generation, a);
        self.index[found.at] = Bucket { mark: 0, item: 0 };
        self.items.truncate(last);
    }

    /// Takes all items but the first `count` away, which are no more than there are. One lookup for each that goes.
    pub fn truncate(&mut self, count: usize)
        requires { count ≤ length self.old.items }
        ensures { self.new ≡ record self.old { items = take count self.old.items } }
    {
        while self.count() > count {
            self.pop();
        }
    }

    /// Makes the length the greater of its old one and `len`, 1 to 1,048,576. Where memory is refused the log is as
    /// before. A greater length costs a push an item into a new log, whose room is taken beside the old one's.
    pub fn reserve(&mut self, alloc: Global, len: usize) -> Result<(), Memory>
        requires low { 1 ≤ len }
        requires high { len ≤ 1048576 }
        ensures { MatchResult result
            (λ _. self.new ≡ record self.old { len = max self.old.len len }) (λ _.
            self.new ≡ self.old) }
    {
        if len <= self.len {
            return Ok(());
        }
        let mut grown = ShortLog::with_generation(alloc, len, self.generation)?;
        for &(a, v) in &self.items {
            grown.push(a, v, Repeat::Keep);
        }
        *self = grown;
        Ok(())
    }

    /// Empties the log and keeps its room. It raises the generation and leaves the index alone, but for the last
    /// generation, at which it writes each bucket.
    pub fn clear(&mut self)
        ensures { self.new
            ≡ record self.old
            { items = []; generation = next_generation self.old.generation; marks = [] } }
    {
        self.items.clear();
        self.seen = 0;
        begin_short(&mut self.short, self.len);
        self.generation = self.generation.wrapping_add(1);
        if self.generation == 0 {
            clear_marks(&mut self.index);
            self.generation = 1;
        }
    }

    /// Empties the log as `clear` does, but for its generation, which stays where the log is empty. So a log that an
    /// attempt doesn't use costs a test.
    #[inline]
    pub fn renew(&mut self)
        ensures { self.new ≡ renewed self.old }
    {
        if self.items.is_empty() {
            return;
        }
        self.clear();
    }
}

/// Makes an emptied log of this length short again, where it was no longer. It tests first: a begin empties logs that
/// were short, and then loads no length.
#[inline(always)]
fn begin_short(short: &mut usize, len: usize)
    requires { (short.old ≤ 8) × (short.old ≤ len) }
    ensures most { short.new ≤ 8 }
    ensures within { short.new ≤ len }
    ensures some { 1 ≤ len → 1 ≤ short.new }
{
    if *short == 0 {
        *short = len.min(SHORT);
    }
}

/// The bit of an address, by its last six bits.
#[inline(always)]
fn bit_of(a: usize) -> u64
    ensures { result ≡ 2 ^ (a % 64) }
{
    1 << (a % 64)
}

/// The number of the address's item, or that of the items where none has it.
fn look_through(items: &[(usize, u64)], a: usize) -> usize
    ensures { IsPosition a items.now result }
{
    for i in 0..items.len() {
        if items[i].0 == a {
            return i;
        }
    }
    items.len()
}
