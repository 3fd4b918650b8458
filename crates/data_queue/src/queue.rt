//! A queue in a ring of cells, over any access.
ghost use Rattle.std.specs.Prelude.{◌≡◌, ◌<◌, ◌≤◌, ◌+◌, None, IfOk, OnOk, IfErr, length};
ghost use Rattle.stm_model.specs.Logs.{IsReadStop};
ghost use Rattle.data_effects.specs.Accesses.{DoesFor, HoldsFor, LeadsOn};
ghost use Rattle.data_queue.specs.Queues.{QueueFits, IsQueue, contents, put_in, got_in, counted_in, wrapped};

use stm_model::access::Access;
use stm_model::stop::Stop;

/// What a put did.
#[derive(Clone, Copy, Drop, Debug, PartialEq, Eq)]
pub enum Put {
    /// The value is the last one now.
    Added,
    /// Every cell holds a value; nothing changed.
    NoRoom,
}

/// A queue of values below 2^32, first in, first out. The word `at` is the front, the index of the cell that has
/// the first value; the next word is the number of values. Then come the `cells`, one word each.
///
/// The cells are a ring: the values are in the cells from the front on, and after the last cell comes the
/// first. A cell that holds no value is 0.
#[derive(Clone, Copy, Drop, Debug, PartialEq, Eq)]
pub struct Queue {
    pub at: usize,
    pub cells: usize,
}

impl Queue {
    pub fn new(at: usize, cells: usize) -> Queue
        ensures { result ≡ record { at = at; cells = cells } }
    {
        Queue { at, cells }
    }

    /// The cell that many cells after this one in the ring. It subtracts first, since the sum may not fit.
    fn advance(&self, cell: u64, by: u64) -> usize
        requires from { cell < self.now.cells }
        requires by { by ≤ self.now.cells }
        ensures { result ≡ wrapped self.now.cells (cell + by) }
    {
        let room = self.cells as u64 - cell;
        if by < room {
            (cell + by) as usize
        } else {
            (by - room) as usize
        }
    }

    /// Puts the value after the last one. Two reads and two writes where it answers `Added`, else one read.
    ///
    /// # Errors
    /// The Stop of the access.
    pub fn put<A: Access>(&self, acc: &mut A, value: u32) -> Result<Put, Stop>
        requires going { A.stopped acc.old ≡ None }
        requires within { QueueFits self.now (A.words acc.old) }
        requires well { HoldsFor A.Access acc.old (IsQueue self.now) }
        ensures reply { IfOk result (DoesFor A.Access acc.old acc.new (put_in self.now value)) }
        ensures well { OnOk result (HoldsFor A.Access acc.new (IsQueue self.now)) }
        ensures frame { LeadsOn A.Access acc.old acc.new result }
    {
        let count = acc.read(self.at + 1)?;
        if self.cells as u64 <= count {
            return Ok(Put::NoRoom);
        }
        let front = acc.read(self.at)?;
        let end = self.advance(front, count);
        acc.write(self.at + 2 + end, value as u64)?;
        acc.write(self.at + 1, count + 1)?;
        Ok(Put::Added)
    }

    /// Takes the first value out, where there is one. Three reads and three writes, or one read where it answers
    /// None.
    ///
    /// # Errors
    /// The Stop of the access.
    pub fn get<A: Access>(&self, acc: &mut A) -> Result<Option<u32>, Stop>
        requires going { A.stopped acc.old ≡ None }
        requires within { QueueFits self.now (A.words acc.old) }
        requires well { HoldsFor A.Access acc.old (IsQueue self.now) }
        ensures reply { IfOk result (DoesFor A.Access acc.old acc.new (got_in self.now)) }
        ensures well { OnOk result (HoldsFor A.Access acc.new (IsQueue self.now)) }
        ensures frame { LeadsOn A.Access acc.old acc.new result }
    {
        let count = acc.read(self.at + 1)?;
        if count == 0 {
            return Ok(None);
        }
        let front = acc.read(self.at)?;
        let cell = self.at + 2 + front as usize;
        let found = acc.read(cell)?;
        let value = found as u32;
        let next = self.advance(front, 1);
        acc.write(cell, 0)?;
        acc.write(self.at, next as u64)?;
        acc.write(self.at + 1, count - 1)?;
        Ok(Some(value))
    }

    /// The number of values. One read.
    ///
    /// # Errors
    /// The Stop of the access; it is never `ClockFull`.
    pub fn len<A: Access>(&self, acc: &mut A) -> Result<u64, Stop>
        requires going { A.stopped acc.old ≡ None }
        requires within { QueueFits self.now (A.words acc.old) }
        requires well { HoldsFor A.Access acc.old (IsQueue self.now) }
        ensures reply { IfOk result (DoesFor A.Access acc.old acc.new (counted_in self.now)) }
        ensures well { OnOk result (HoldsFor A.Access acc.new (IsQueue self.now)) }
        ensures cause { IfErr result IsReadStop }
        ensures frame { LeadsOn A.Access acc.old acc.new result }
    {
        let count = acc.read(self.at + 1)?;
        Ok(count)
    }

    /// The number of values that it has in a closed memory's words.
    pub fn len_in(&self, words: &[u64]) -> u64
        requires within { QueueFits self.now (length words.now) }
        ensures { result ≡ length (contents self.now words.now) }
    {
        words[self.at + 1]
    }
}
