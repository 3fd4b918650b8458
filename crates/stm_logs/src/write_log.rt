//! What an attempt has written.
ghost use Rattle.std.specs.Prelude.{◌*◌, ◌≡◌, ◌≤◌, ◌<◌, ◌+◌, ◌-◌, [], ◌∷◌, ◌++◌, None, IfOk, MatchResult, length, max, slice_index_or, get_or, take};
ghost use Rattle.stm_model.specs.Memories.{item_at, Once, put};
ghost use Rattle.stm_logs.specs.Probing.{IsProbed};
ghost use Rattle.stm_logs.specs.LogStates.{LogState, Pushes, empty_at, next_generation, renewed, rolled, firsts};

use crate::marks::{Mark, begin, blank_marks, merge, restore, save};
use crate::push::{Push, Repeat};
use crate::short_log::ShortLog;
use std::alloc::Global;
use std::marker::Model;
use stm_model::memory::Memory;

/// The value last written at each address, in the order of the first writes; and marks, to each of which it can be
/// rolled back, as many at once as it was made with. Marks are numbered from 1, the oldest.
#[derive(Drop, Debug)]
pub struct WriteLog {
    log: ShortLog,
    /// The marks that stand, the first `depth`, and room for the others.
    marks: Vec<Mark>,
    depth: usize,
}

impl Model for WriteLog {
    ghost use Rattle.std.specs.Prelude.{◌≡◌, ◌≤◌, length, take};
    ghost use Rattle.stm_logs.specs.LogStates.{LogState};
    ghost use Rattle.stm_logs.specs.Marks.{Rooms, Tied, marked};

    ghost Value = { LogState };

    ghost view = { λ l. record l.log { marks = marked (take l.depth l.marks.items) l.log.items; marks_limit = length l.marks.items } };

    ghost invariant = { λ l. (l.depth ≤ length l.marks.items) × Rooms l.log.len l.marks.items × Tied (take l.depth l.marks.items) l.log.items };
}

impl WriteLog {
    /// An empty log of length `len`, 1 to 1,048,576, in generation 1, with room for `marks` marks. It takes all its
    /// room at once, 32 bytes an item, and as much for each mark.
    pub fn new(alloc: Global, len: usize, marks: usize) -> Result<WriteLog, Memory>
        requires low { 1 ≤ len }
        requires high { len ≤ 1048576 }
        ensures { IfOk result (λ l. l ≡ empty_at len 1 marks) }
    {
        WriteLog::with_generation(alloc, len, marks, 1)
    }

    /// The same in a generation of 1 to 4,294,967,295.
    pub fn with_generation(
        alloc: Global,
        len: usize,
        marks: usize,
        generation: u32,
    ) -> Result<WriteLog, Memory>
        requires low { 1 ≤ len }
        requires high { len ≤ 1048576 }
        requires counted { 1 ≤ generation }
        ensures { IfOk result (λ l. l ≡ empty_at len generation marks) }
    {
        Ok(WriteLog {
            log: ShortLog::with_generation(alloc, len, generation)?,
            marks: blank_marks(alloc, len, marks)?,
            depth: 0,
        })
    }

    /// Makes the length the greater of its old one and `len`, 1 to 1,048,576, at the cost of a push an item, and ends
    /// the marks. Where memory is refused the log is as before.
    pub fn reserve(&mut self, alloc: Global, len: usize) -> Result<(), Memory>
        requires low { 1 ≤ len }
        requires high { len ≤ 1048576 }
        ensures { MatchResult result
            (λ _. self.new ≡ record self.old { len = max self.old.len len; marks = [] }) (λ _.
            self.new ≡ self.old) }
    {
        if self.log.len() < len {
            let marks = blank_marks(alloc, len, self.marks.len())?;
            self.log.reserve(alloc, len)?;
            self.marks = marks;
        }
        self.depth = 0;
        Ok(())
    }

    /// Adds the value where the address is new; else replaces the item's. `Full` comes exactly where the log has its
    /// length and the address isn't in it, and leaves the log as it was. Two lookups at most.
    #[inline(always)]
    pub fn push(&mut self, a: usize, v: u64) -> Push
        ensures { Pushes self.old a (put a v self.old.items) result self.new }
    {
        if self.depth > 0 {
            return self.push_marked(a, v);
        }
        self.log.push(a, v, Repeat::Replace)
    }

    /// The same where a mark stands, which keeps what the item was. Three lookups. It stands apart, so that a push
    /// without marks is as short as that of any log.
    #[inline(never)]
    fn push_marked(&mut self, a: usize, v: u64) -> Push
        requires { 0 < length self.old.marks }
        ensures { Pushes self.old a (put a v self.old.items) result self.new }
    {
        let _count = self.log.count();
        save(&mut self.marks[self.depth - 1], &self.log, a);
        self.log.push(a, v, Repeat::Replace)
    }

    /// The same where no item has the address, so that no mark has anything to keep. No lookup while the log is short,
    /// one else.
    #[inline(always)]
    pub fn push_new(&mut self, a: usize, v: u64) -> Push
        requires new { item_at a self.old.items ≡ None }
        ensures { Pushes self.old a (put a v self.old.items) result self.new }
    {
        let _count = self.log.count();
        self.log.push_new(a, v, Repeat::Replace)
    }

    /// How many marks stand.
    #[inline]
    pub fn depth(&self) -> usize
        ensures count { result ≡ length self.now.marks }
        ensures most { result ≤ self.now.marks_limit }
    {
        self.depth
    }

    /// How many marks may stand at once.
    #[inline]
    pub fn marks_limit(&self) -> usize
        ensures { result ≡ self.now.marks_limit }
    {
        self.marks.len()
    }

    /// Makes a mark above those that stand. It takes no memory.
    pub fn mark(&mut self)
        requires { length self.old.marks < self.old.marks_limit }
        ensures { self.new ≡ record self.old { marks = self.old.marks ++ self.old.items ∷ [] } }
    {
        let count = self.log.count();
        begin(&mut self.marks[self.depth], count);
        self.depth += 1;
    }

    /// How many items there were at mark `depth`, which stands: so many are left where it is rolled back to that one.
    pub fn count_at(&self, depth: usize) -> usize
        requires low { 1 ≤ depth }
        requires high { depth ≤ length self.now.marks }
        ensures { result ≡ length (get_or self.now.marks (depth - 1) []) }
    {
        let _count = self.log.count();
        self.marks[depth - 1].count
    }

    /// Drops the last mark, and keeps what was written since.
    fn drop_mark(&mut self)
        requires { 0 < length self.old.marks }
        ensures { self.new
            ≡ record self.old { marks = take (length self.old.marks - 1) self.old.marks } }
    {
        let _count = self.log.count();
        if self.depth == 1 {
            self.depth = 0;
            return;
        }
        merge(&mut self.marks, self.depth - 1);
        self.depth -= 1;
    }

    /// Drops the marks from number `depth` on, and keeps what was written since.
    pub fn release(&mut self, depth: usize)
        requires low { 1 ≤ depth }
        requires high { depth ≤ length self.old.marks }
        ensures { self.new ≡ record self.old { marks = take (depth - 1) self.old.marks } }
    {
        while self.depth() >= depth {
            self.drop_mark();
        }
    }

    /// Puts the items back as they were at the last mark, which stands.
    fn restore_last(&mut self)
        requires { 0 < length self.old.marks }
        ensures restored { self.new
            ≡ record self.old { items = get_or self.old.marks (length self.old.marks - 1) [] } }
        ensures prefix { firsts self.new.items
            ≡ take (length self.new.items) (firsts self.old.items) }
    {
        restore(&mut self.marks[self.depth - 1], &mut self.log);
    }

    /// Puts the items back as they were at mark `depth`, which stands; the marks above it are gone. At most two lookups
    /// for each item that was written since. The items that are left were the first, at their places.
    pub fn roll_to(&mut self, depth: usize)
        requires low { 1 ≤ depth }
        requires high { depth ≤ length self.old.marks }
        ensures rolled { self.new ≡ rolled depth self.old }
        ensures prefix { firsts self.new.items
            ≡ take (length self.new.items) (firsts self.old.items) }
    {
        while self.depth() > depth {
            self.drop_mark();
        }
        self.restore_last();
    }

    /// The value at the address, if it is in the log. One lookup, and none in an empty log.
    #[inline(always)]
    pub fn find(&self, a: usize) -> Option<u64>
        ensures { result ≡ item_at a self.now.items }
    {
        self.log.find(a)
    }

    /// How many buckets a lookup of the address would look at in an index by the address modulo the number of buckets:
    /// those from its home on that other addresses have, and one more. At most the number of items plus 1.
    pub fn probes(&self, a: usize) -> usize
        requires short { self.now.len ≤ 4096 }
        ensures probed { IsProbed (2 * self.now.len) self.now.items a result }
        ensures high { result ≤ length self.now.items + 1 }
    {
        self.log.probes(a)
    }

    /// How many items there are, at most the length. No two have one address.
    #[inline]
    pub fn count(&self) -> usize
        ensures count { result ≡ length self.now.items }
        ensures within { result ≤ self.now.len }
        ensures once { Once self.now.items }
    {
        self.log.count()
    }

    /// How many items there may be, 1 to 1,048,576.
    #[inline]
    pub fn len(&self) -> usize
        ensures { result ≡ self.now.len }
    {
        self.log.len()
    }

    /// The address and the value of item `i`, which is below the count, in the order in which the addresses came.
    #[inline]
    pub fn item(&self, i: usize) -> (usize, u64)
        requires { i < length self.now.items }
        ensures { result ≡ slice_index_or self.now.items i (0, 0) }
    {
        self.log.item(i)
    }

    /// The generation, 1 to 4,294,967,295: 1 more at each `clear`, and 1 again after the last.
    pub fn generation(&self) -> u32
        ensures { result ≡ self.now.generation }
    {
        self.log.generation()
    }

    /// Empties the log, with its marks, and keeps its room. It raises the generation and leaves the index alone, but
    /// for the last generation, at which it writes each bucket.
    pub fn clear(&mut self)
        ensures { self.new
            ≡ record self.old
            { items = []; generation = next_generation self.old.generation; marks = [] } }
    {
        self.depth = 0;
        self.log.clear();
    }

    /// Empties the log as `clear` does, but for its generation, which stays where the log is empty. So a log that an
    /// attempt doesn't use costs a test.
    #[inline]
    pub fn renew(&mut self)
        ensures { self.new ≡ renewed self.old }
    {
        self.depth = 0;
        self.log.renew();
    }
}
