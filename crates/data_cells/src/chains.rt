//! Sorted chains of cells in one pool, over any access.
ghost use Rattle.std.specs.Prelude.{◌≡◌, ◌<◌, ◌≤◌, None, IfOk, OnOk, IfErr};
ghost use Rattle.stm_model.specs.Logs.{IsReadStop};
ghost use Rattle.data_effects.specs.Accesses.{DoesFor, HoldsFor, LeadsOn, ShowsFor};
ghost use Rattle.data_cells.specs.Chains.{ChainsFit, IsChains, head_of, find, contained_in, inserted_in, removed_in, counted_in};

use data_effects::cells::Cells;
use data_effects::insert::Insert;
use data_effects::position::Position;
use stm_model::access::Access;
use stm_model::stop::Stop;

/// Sorted linked lists with a common pool of cells. From the word `at` on stand the `heads`, one link
/// each, then the `cells`, two words each: the cell's tag, and a link.
///
/// A tag is 0 where the cell is free, else its key + 1, so at most 2^32. A link is 0 or the number of a
/// cell, from 1. A key is in the chain of its remainder by the number of heads, at least 1; a chain's keys
/// ascend. A free cell's words are 0.
#[derive(Clone, Copy, Drop, Debug, PartialEq, Eq)]
pub struct Chains {
    pub at: usize,
    pub heads: usize,
    pub cells: usize,
}

impl Chains {
    /// The first link of the key's chain that names no cell of a lesser key. Two reads a cell at most, and
    /// one.
    // in line, so that the access stays in registers from one read to the next
    #[inline(always)]
    fn find<A: Access>(&self, acc: &mut A, key: u32) -> Result<Position, Stop>
        requires going { A.stopped acc.old ≡ None }
        requires within { ChainsFit self.now (A.words acc.old) }
        requires well { HoldsFor A.Access acc.old (IsChains self.now) }
        ensures finds { IfOk result (ShowsFor A.Access acc.old acc.new (λ m.
            find self.now m key self.now.cells (head_of self.now key))) }
        ensures inside { IfOk result (λ s.
            (s.link < A.words acc.old) × (s.next ≤ self.now.cells) × (s.next ≡ 0 → s.tag ≡ 0)) }
        ensures writes { OnOk result ((A.log acc.new).writes ≡ (A.log acc.old).writes) }
        ensures cause { IfErr result IsReadStop }
        ensures frame { LeadsOn A.Access acc.old acc.new result }
    {
        let cells = self.at + self.heads;
        let mut link = self.at + key as usize % self.heads;
        let mut next = acc.read(link)?;
        for _step in 0..self.cells {
            if next == 0 {
                return Ok(Position { link, next, tag: 0 });
            }
            let cell = (next - 1) as usize;
            let tag = acc.read(cells + 2 * cell)?;
            if tag > key as u64 {
                return Ok(Position { link, next, tag });
            }
            link = cells + 2 * cell + 1;
            next = acc.read(link)?;
        }
        Ok(Position {
            link,
            next: 0,
            tag: 0,
        })
    }

    /// Whether the key is there. Two reads a cell at most, and one.
    ///
    /// # Errors
    /// The Stop of the access; it is never `ClockFull`.
    #[inline(always)]
    pub fn contains<A: Access>(&self, acc: &mut A, key: u32) -> Result<bool, Stop>
        requires going { A.stopped acc.old ≡ None }
        requires within { ChainsFit self.now (A.words acc.old) }
        requires well { HoldsFor A.Access acc.old (IsChains self.now) }
        ensures reply { IfOk result (DoesFor A.Access acc.old acc.new (contained_in self.now key)) }
        ensures well { OnOk result (HoldsFor A.Access acc.new (IsChains self.now)) }
        ensures cause { IfErr result IsReadStop }
        ensures frame { LeadsOn A.Access acc.old acc.new result }
    {
        let position = self.find(acc, key)?;
        Ok(position.tag == key as u64 + 1)
    }

    /// Puts the key into the free cell of the lowest number, and the cell into its chain, unless the key
    /// is there. Three reads a cell at most, and one; three writes where it answers `Added`, else none.
    ///
    /// # Errors
    /// The Stop of the access.
    pub fn insert<A: Access>(&self, acc: &mut A, key: u32) -> Result<Insert, Stop>
        requires going { A.stopped acc.old ≡ None }
        requires within { ChainsFit self.now (A.words acc.old) }
        requires well { HoldsFor A.Access acc.old (IsChains self.now) }
        ensures reply { IfOk result (DoesFor A.Access acc.old acc.new (inserted_in self.now key)) }
        ensures well { OnOk result (HoldsFor A.Access acc.new (IsChains self.now)) }
        ensures frame { LeadsOn A.Access acc.old acc.new result }
    {
        let position = self.find(acc, key)?;
        let tag = key as u64 + 1;
        if position.tag == tag {
            return Ok(Insert::Present);
        }
        let cells = Cells {
            first: self.at + self.heads,
            width: 2,
            count: self.cells,
        };
        match cells.free_cell(acc)? {
            None => Ok(Insert::NoRoom),
            Some(cell) => {
                let address = self.at + self.heads + 2 * cell;
                acc.write(address, tag)?;
                acc.write(address + 1, position.next)?;
                acc.write(position.link, cell as u64 + 1)?;
                Ok(Insert::Added)
            }
        }
    }

    /// Takes the key's cell out of its chain and makes the cell's words 0. Answers whether the key was
    /// there. Two reads a cell at most, and two; three writes where it was there, else none.
    ///
    /// # Errors
    /// The Stop of the access.
    pub fn remove<A: Access>(&self, acc: &mut A, key: u32) -> Result<bool, Stop>
        requires going { A.stopped acc.old ≡ None }
        requires within { ChainsFit self.now (A.words acc.old) }
        requires well { HoldsFor A.Access acc.old (IsChains self.now) }
        ensures reply { IfOk result (DoesFor A.Access acc.old acc.new (removed_in self.now key)) }
        ensures well { OnOk result (HoldsFor A.Access acc.new (IsChains self.now)) }
        ensures frame { LeadsOn A.Access acc.old acc.new result }
    {
        let position = self.find(acc, key)?;
        if position.tag != key as u64 + 1 {
            return Ok(false);
        }
        let address = self.at + self.heads + 2 * (position.next - 1) as usize;
        let after = acc.read(address + 1)?;
        acc.write(position.link, after)?;
        acc.write(address, 0)?;
        acc.write(address + 1, 0)?;
        Ok(true)
    }

    /// The number of keys, where there is one chain. One read a cell at most, and one.
    ///
    /// # Errors
    /// The Stop of the access; it is never `ClockFull`.
    pub fn len<A: Access>(&self, acc: &mut A) -> Result<u64, Stop>
        requires going { A.stopped acc.old ≡ None }
        requires one { self.now.heads ≡ 1 }
        requires within { ChainsFit self.now (A.words acc.old) }
        requires well { HoldsFor A.Access acc.old (IsChains self.now) }
        ensures reply { IfOk result (DoesFor A.Access acc.old acc.new (counted_in self.now)) }
        ensures well { OnOk result (HoldsFor A.Access acc.new (IsChains self.now)) }
        ensures cause { IfErr result IsReadStop }
        ensures frame { LeadsOn A.Access acc.old acc.new result }
    {
        let mut count: u64 = 0;
        let mut next = acc.read(self.at)?;
        for _step in 0..self.cells {
            if next == 0 {
                return Ok(count);
            }
            let cell = (next - 1) as usize;
            count += 1;
            next = acc.read(self.at + self.heads + 2 * cell + 1)?;
        }
        Ok(count)
    }
}
