//! A map from keys to values with the sums of ranges of keys, over any access. A range's sum is the difference of two
//! sums from the least key on, each by one walk of at most four reads a cell; differences modulo 2^64 are right where
//! sums wrap. A sum between bounds that cross reads a word all the same, so that its answer is of a memory too.
ghost use Rattle.std.specs.Prelude.{◌≡◌, ◌<◌, ◌≤◌, ◌%◌, ◌^◌, true, None, IfOk, OnOk, IfErr};
ghost use Rattle.stm_model.specs.Logs.{IsReadStop};
ghost use Rattle.data_effects.specs.Effects.{Turns};
ghost use Rattle.data_effects.specs.Accesses.{DoesFor, ExplainedFor, HoldsFor, LeadsOn, ShowsFor};
ghost use Rattle.data_tree.specs.Shapes.{top};
ghost use Rattle.data_sums.specs.Sums.{SumMapFits, IsSumMap, sum_within, sum_under, passed, summed_in, put_in, raised_in, mended_in, got_in, LinksFrom, HasKey, HasRight, IsEmptied, replaced_in, spliced, least_taken, taken_in, removed_in};
ghost use Rattle.data_sums.specs.declared.sum_map.MapPut.TheVariants.{Replaced};

use data_effects::cells::Cells;
use data_tree::pool::{Pool, side};
use stm_model::access::Access;
use stm_model::stop::Stop;

/// What a put did.
#[derive(Clone, Copy, Drop, Debug, PartialEq, Eq)]
pub enum MapPut {
    /// The key was absent, and has a cell now.
    Added,
    /// The key was there, and has the value now.
    Replaced,
    /// The key is absent, and no cell is free; nothing changed.
    NoRoom,
}

/// A map from keys to values in a plain binary search tree, where each cell has the sum of the values in its
/// subtree. The word `at` is the root, a link; then come the `cells`, five words each: cell i, from 1, has its tag
/// at `at + 1 + 5 * (i - 1)`, then its left and its right link, its value, and the sum of its value and all values
/// below it, modulo 2^64.
///
/// A tag is 0 where the cell is free, else its key + 1, so at most 2^32. A link is 0 or the number of a cell, from
/// 1. Lesser keys are on the left, greater ones on the right; nothing is balanced, so a walk is as long as there
/// are cells at most. A free cell's words are 0.
#[derive(Clone, Copy, Drop, Debug, PartialEq, Eq)]
pub struct SumMap {
    pub at: usize,
    pub cells: usize,
}

/// What passing a cell adds to a sum, and the link to go on by.
#[derive(Clone, Copy, Drop)]
struct Passed {
    next: u64,
    added: u64,
}

impl SumMap {
    pub fn new(at: usize, cells: usize) -> SumMap
        ensures { result ≡ record { at = at; cells = cells } }
    {
        SumMap { at, cells }
    }

    /// Adds to the sum word of the cell, here from 0, modulo 2^64, and answers the new sum. One read and one write.
    fn raise<A: Access>(&self, acc: &mut A, cell: usize, by: u64) -> Result<u64, Stop>
        requires going { A.stopped acc.old ≡ None }
        requires within { SumMapFits self.now (A.words acc.old) }
        requires cell { cell < self.now.cells }
        ensures reply { IfOk result
            (DoesFor A.Access acc.old acc.new (raised_in self.now by cell)) }
        ensures frame { LeadsOn A.Access acc.old acc.new result }
    {
        let address = self.at + 1 + 5 * cell + 4;
        let found = acc.read(address)?;
        let sum = found.wrapping_add(by);
        acc.write(address, sum)?;
        Ok(sum)
    }

    /// The key's value, where it has one. Two reads a cell of the path at most, and two.
    ///
    /// # Errors
    /// The Stop of the access; it is never `ClockFull`.
    pub fn get<A: Access>(&self, acc: &mut A, key: u32) -> Result<Option<u64>, Stop>
        requires going { A.stopped acc.old ≡ None }
        requires within { SumMapFits self.now (A.words acc.old) }
        requires well { HoldsFor A.Access acc.old (IsSumMap self.now) }
        ensures reply { IfOk result (DoesFor A.Access acc.old acc.new (got_in self.now key)) }
        ensures well { OnOk result (HoldsFor A.Access acc.new (IsSumMap self.now)) }
        ensures cause { IfErr result IsReadStop }
        ensures frame { LeadsOn A.Access acc.old acc.new result }
    {
        let pool = Pool {
            at: self.at,
            cells: self.cells,
            extra: 2,
        };
        let position = pool.find(acc, key)?;
        if position.next == 0 {
            return Ok(None);
        }
        let address = self.at + 1 + 5 * (position.next - 1) as usize + 3;
        let value = acc.read(address)?;
        Ok(Some(value))
    }

    /// Gives the key this value: it replaces the one that the key's cell has, or goes with the key into the free
    /// cell of the lowest number, as a leaf. The sums of the cells from the root to the key's are mended: three reads
    /// and one write a cell of that path at most, beside two reads a cell to find it. Where it answers `Replaced`,
    /// three reads and a write more; where the key is absent, one read a cell at most for a free one, and where it
    /// answers `Added` two reads and three writes more.
    ///
    /// # Errors
    /// The Stop of the access.
    pub fn put<A: Access>(&self, acc: &mut A, key: u32, value: u64) -> Result<MapPut, Stop>
        requires going { A.stopped acc.old ≡ None }
        requires within { SumMapFits self.now (A.words acc.old) }
        requires well { HoldsFor A.Access acc.old (IsSumMap self.now) }
        ensures reply { IfOk result (DoesFor A.Access acc.old acc.new (put_in self.now key value)) }
        ensures well { OnOk result (HoldsFor A.Access acc.new (IsSumMap self.now)) }
        ensures frame { LeadsOn A.Access acc.old acc.new result }
    {
        let pool = Pool {
            at: self.at,
            cells: self.cells,
            extra: 2,
        };
        let position = pool.find(acc, key)?;
        if position.next != 0 {
            self.replace(acc, key, (position.next - 1) as usize, value)?;
            return Ok(MapPut::Replaced);
        }
        let cells = Cells {
            first: self.at + 1,
            width: 5,
            count: self.cells,
        };
        match cells.free_cell(acc)? {
            None => Ok(MapPut::NoRoom),
            Some(cell) => {
                let address = self.at + 1 + 5 * cell;
                acc.write(address, key as u64 + 1)?;
                acc.write(address + 3, value)?;
                acc.write(position.link, cell as u64 + 1)?;
                self.mend(acc, self.at, key, value)?;
                Ok(MapPut::Added)
            }
        }
    }

    /// Gives the key's cell, here from 0, this value, and mends the sums from the root to it. Three reads and one
    /// write a cell of the path at most, and two reads and a write.
    fn replace<A: Access>(&self, acc: &mut A, key: u32, cell: usize, value: u64) -> Result<(), Stop>
        requires going { A.stopped acc.old ≡ None }
        requires within { (cell < self.now.cells) × SumMapFits self.now (A.words acc.old) }
        requires well { HoldsFor A.Access acc.old (HasKey self.now key cell) }
        ensures reply { OnOk result
            (DoesFor A.Access acc.old acc.new (replaced_in self.now key value cell) Replaced) }
        ensures well { OnOk result (HoldsFor A.Access acc.new (IsSumMap self.now)) }
        ensures frame { LeadsOn A.Access acc.old acc.new result }
    {
        let address = self.at + 1 + 5 * cell + 3;
        let old = acc.read(address)?;
        acc.write(address, value)?;
        self.mend(acc, self.at, key, value.wrapping_sub(old))?;
        Ok(())
    }

    /// Adds to the sums of the cells from this link on to the key's, modulo 2^64. Answers whether there is a cell.
    /// Three reads and one write a cell of the path at most, and one read.
    fn mend<A: Access>(&self, acc: &mut A, from: usize, key: u32, by: u64) -> Result<bool, Stop>
        requires going { A.stopped acc.old ≡ None }
        requires within { (from < A.words acc.old) × SumMapFits self.now (A.words acc.old) }
        requires links { HoldsFor A.Access acc.old (LinksFrom self.now from) }
        ensures reply { IfOk result
            (DoesFor A.Access acc.old acc.new (mended_in self.now from key by)) }
        ensures frame { LeadsOn A.Access acc.old acc.new result }
    {
        let tag = key as u64 + 1;
        let mut link = acc.read(from)?;
        let wrote = link != 0;
        for _step in 0..self.cells {
            if link == 0 {
                return Ok(wrote);
            }
            let cell = (link - 1) as usize;
            self.raise(acc, cell, by)?;
            let address = self.at + 1 + 5 * cell;
            let found = acc.read(address)?;
            if found == tag {
                return Ok(wrote);
            }
            link = acc.read(side(address, found, key))?;
        }
        Ok(wrote)
    }

    /// The link, which names the cell, gets `word`, and the cell's words become 0. Six writes.
    fn splice<A: Access>(
        &self,
        acc: &mut A,
        cell: usize,
        link: usize,
        word: u64,
    ) -> Result<(), Stop>
        requires going { A.stopped acc.old ≡ None }
        requires within { (cell < self.now.cells) × (link < A.words acc.old)
            × SumMapFits self.now (A.words acc.old) }
        ensures turns { OnOk result
            (Turns (A.log acc.old) (A.log acc.new) (spliced self.now cell link word)) }
        ensures frame { LeadsOn A.Access acc.old acc.new result }
    {
        let address = self.at + 1 + 5 * cell;
        acc.write(link, word)?;
        acc.write(address, 0)?;
        acc.write(address + 1, 0)?;
        acc.write(address + 2, 0)?;
        acc.write(address + 3, 0)?;
        acc.write(address + 4, 0)?;
        Ok(())
    }

    /// The cell, which has no value and this right link, gets tag and value of the least cell on its right, which
    /// is spliced out in its place; the sums on the way there lose the value. Four reads and one write a cell of
    /// the way at most, four reads and nine writes.
    fn take_least<A: Access>(&self, acc: &mut A, cell: usize, greater: u64) -> Result<(), Stop>
        requires going { A.stopped acc.old ≡ None }
        requires within { (cell < self.now.cells) × (0 < greater) × (greater ≤ self.now.cells)
            × SumMapFits self.now (A.words acc.old) }
        requires explained { ExplainedFor A.Access acc.old }
        requires well { HoldsFor A.Access acc.old (HasRight self.now cell greater) }
        ensures reply { OnOk result
            (DoesFor A.Access acc.old acc.new (least_taken self.now cell) true) }
        ensures well { OnOk result (HoldsFor A.Access acc.new (IsSumMap self.now)) }
        ensures frame { LeadsOn A.Access acc.old acc.new result }
    {
        let address = self.at + 1 + 5 * cell;
        let pool = Pool {
            at: self.at,
            cells: self.cells,
            extra: 2,
        };
        let least = pool.leftmost(acc, address + 2, greater)?;
        if least.next == 0 {
            unreachable!();
        }
        let moved = (least.next - 1) as usize;
        let source = self.at + 1 + 5 * moved;
        let after = acc.read(source + 2)?;
        let value = acc.read(source + 3)?;
        acc.write(address + 3, value)?;
        acc.write(source + 3, 0)?;
        let key = (least.tag - 1) as u32;
        self.mend(acc, address + 2, key, 0u64.wrapping_sub(value))?;
        self.splice(acc, moved, least.link, after)?;
        acc.write(address, least.tag)?;
        Ok(())
    }

    /// Takes the cell, which the link names and which has no value, out of the tree: one with one link at most is
    /// spliced out, the link to it becomes its own; of one with two, the least on its right takes the place.
    fn take_out<A: Access>(&self, acc: &mut A, cell: usize, link: usize) -> Result<(), Stop>
        requires going { A.stopped acc.old ≡ None }
        requires within { (cell < self.now.cells) × (link < A.words acc.old)
            × SumMapFits self.now (A.words acc.old) }
        requires well { HoldsFor A.Access acc.old (IsEmptied self.now cell link) }
        ensures reply { OnOk result
            (DoesFor A.Access acc.old acc.new (taken_in self.now cell link) true) }
        ensures well { OnOk result (HoldsFor A.Access acc.new (IsSumMap self.now)) }
        ensures frame { LeadsOn A.Access acc.old acc.new result }
    {
        let address = self.at + 1 + 5 * cell;
        let lesser = acc.read(address + 1)?;
        let greater = acc.read(address + 2)?;
        if lesser == 0 {
            self.splice(acc, cell, link, greater)?;
            return Ok(());
        }
        if greater == 0 {
            self.splice(acc, cell, link, lesser)?;
            return Ok(());
        }
        self.take_least(acc, cell, greater)?;
        Ok(())
    }

    /// Takes the key and its value out, and answers whether the key was there. The sums above it are mended first,
    /// and where the least key on its right takes its cell, the sums between the two: three reads and one write a
    /// cell of the path to the cell that gets free, beside two reads a cell to find it.
    ///
    /// # Errors
    /// The Stop of the access.
    pub fn remove<A: Access>(&self, acc: &mut A, key: u32) -> Result<bool, Stop>
        requires going { A.stopped acc.old ≡ None }
        requires within { SumMapFits self.now (A.words acc.old) }
        requires well { HoldsFor A.Access acc.old (IsSumMap self.now) }
        ensures reply { IfOk result (DoesFor A.Access acc.old acc.new (removed_in self.now key)) }
        ensures well { OnOk result (HoldsFor A.Access acc.new (IsSumMap self.now)) }
        ensures frame { LeadsOn A.Access acc.old acc.new result }
    {
        let pool = Pool {
            at: self.at,
            cells: self.cells,
            extra: 2,
        };
        let position = pool.find(acc, key)?;
        if position.next == 0 {
            return Ok(false);
        }
        let cell = (position.next - 1) as usize;
        self.replace(acc, key, cell, 0)?;
        self.take_out(acc, cell, position.link)?;
        Ok(true)
    }

    /// The sum word of the cell that the link names; 0 where it names none. One read at most.
    fn sum_under<A: Access>(&self, acc: &mut A, link: u64) -> Result<u64, Stop>
        requires going { A.stopped acc.old ≡ None }
        requires within { (link ≤ self.now.cells) × SumMapFits self.now (A.words acc.old) }
        requires explained { ExplainedFor A.Access acc.old }
        ensures sums { IfOk result
            (ShowsFor A.Access acc.old acc.new (λ m. sum_under self.now m link)) }
        ensures writes { OnOk result ((A.log acc.new).writes ≡ (A.log acc.old).writes) }
        ensures cause { IfErr result IsReadStop }
        ensures frame { LeadsOn A.Access acc.old acc.new result }
    {
        if link == 0 {
            return Ok(0);
        }
        let cell = (link - 1) as usize;
        let sum = acc.read(self.at + 1 + 5 * cell + 4)?;
        Ok(sum)
    }

    /// What passing the cell adds to the sum below the bound, and the link to go on by. A cell below the bound
    /// counts with all on its left, so by its sum less the sum on its right. Four reads at most.
    fn pass<A: Access>(&self, acc: &mut A, cell: usize, bound: u64) -> Result<Passed, Stop>
        requires going { A.stopped acc.old ≡ None }
        requires within { (cell < self.now.cells) × SumMapFits self.now (A.words acc.old) }
        requires well { HoldsFor A.Access acc.old (IsSumMap self.now) }
        ensures passes { IfOk result
            (ShowsFor A.Access acc.old acc.new (λ m. passed self.now m bound cell)) }
        ensures inside { IfOk result (λ p. p.next ≤ self.now.cells) }
        ensures writes { OnOk result ((A.log acc.new).writes ≡ (A.log acc.old).writes) }
        ensures cause { IfErr result IsReadStop }
        ensures frame { LeadsOn A.Access acc.old acc.new result }
    {
        let address = self.at + 1 + 5 * cell;
        let tag = acc.read(address)?;
        if tag >= bound {
            let next = acc.read(address + 1)?;
            return Ok(Passed { next, added: 0 });
        }
        let whole = acc.read(address + 4)?;
        let next = acc.read(address + 2)?;
        let rest = self.sum_under(acc, next)?;
        Ok(Passed {
            next,
            added: whole.wrapping_sub(rest),
        })
    }

    /// The sum of the values of the cells whose tags are below the bound, modulo 2^64. Four reads a cell of the
    /// path to the bound at most, and one.
    fn sum_below<A: Access>(&self, acc: &mut A, bound: u64) -> Result<u64, Stop>
        requires going { A.stopped acc.old ≡ None }
        requires bound { (0 < bound) × (bound ≤ top) }
        requires within { SumMapFits self.now (A.words acc.old) }
        requires well { HoldsFor A.Access acc.old (IsSumMap self.now) }
        ensures sums { IfOk result (ShowsFor A.Access acc.old acc.new (λ m.
            sum_within self.now m 0 bound self.now.cells % 2 ^ 64)) }
        ensures writes { OnOk result ((A.log acc.new).writes ≡ (A.log acc.old).writes) }
        ensures cause { IfErr result IsReadStop }
        ensures frame { LeadsOn A.Access acc.old acc.new result }
    {
        let mut total: u64 = 0;
        let mut link = acc.read(self.at)?;
        for _step in 0..self.cells {
            if link == 0 {
                return Ok(total);
            }
            let passed = self.pass(acc, (link - 1) as usize, bound)?;
            total = total.wrapping_add(passed.added);
            link = passed.next;
        }
        Ok(total)
    }

    /// The sum of the values of the keys from `lo` to `hi`, both included, modulo 2^64; 0 where `lo` is above
    /// `hi`. It walks to each of the bounds and takes what is below it by the sums beside the walk: four reads a
    /// cell of the two paths at most, and two; one where `lo` is above `hi`.
    ///
    /// # Errors
    /// The Stop of the access; it is never `ClockFull`.
    pub fn sum<A: Access>(&self, acc: &mut A, lo: u32, hi: u32) -> Result<u64, Stop>
        requires going { A.stopped acc.old ≡ None }
        requires within { SumMapFits self.now (A.words acc.old) }
        requires well { HoldsFor A.Access acc.old (IsSumMap self.now) }
        ensures reply { IfOk result (DoesFor A.Access acc.old acc.new (summed_in self.now lo hi)) }
        ensures well { OnOk result (HoldsFor A.Access acc.new (IsSumMap self.now)) }
        ensures cause { IfErr result IsReadStop }
        ensures frame { LeadsOn A.Access acc.old acc.new result }
    {
        if lo > hi {
            acc.read(self.at)?;
            return Ok(0);
        }
        let upper = self.sum_below(acc, hi as u64 + 2)?;
        let lower = self.sum_below(acc, lo as u64 + 1)?;
        Ok(upper.wrapping_sub(lower))
    }
}
