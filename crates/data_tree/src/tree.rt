//! A set of keys in a plain binary search tree, over any access.
ghost use Rattle.std.specs.Prelude.{◌≡◌, ◌<◌, None, IfOk, OnOk, IfErr};
ghost use Rattle.stm_model.specs.Logs.{IsReadStop};
ghost use Rattle.data_effects.specs.Effects.{Turns};
ghost use Rattle.data_effects.specs.Accesses.{DoesFor, HoldsFor, LeadsOn};
ghost use Rattle.data_tree.specs.Trees.{TreeFits, IsTree, spliced, contained_in, inserted_in, removed_in, least_in};

use crate::pool::Pool;
use data_effects::cells::Cells;
use data_effects::insert::Insert;
use stm_model::access::Access;
use stm_model::stop::Stop;

/// A set of keys in a plain binary search tree. The word `at` is the root, a link; then come the `cells`,
/// three words each: cell i, from 1, has its tag at `at + 1 + 3 * (i - 1)`, then its left and its right link.
///
/// A tag is 0 where the cell is free, else its key + 1, so at most 2^32. A link is 0 or the number of a
/// cell, from 1. Lesser keys are on the left, greater ones on the right; nothing is balanced, so a walk is
/// as long as there are cells at most. A free cell's words are 0.
#[derive(Clone, Copy, Drop, Debug, PartialEq, Eq)]
pub struct Tree {
    pub at: usize,
    pub cells: usize,
}

impl Tree {
    pub fn new(at: usize, cells: usize) -> Tree
        ensures { result ≡ record { at = at; cells = cells } }
    {
        Tree { at, cells }
    }

    /// Whether the key is there. Two reads a cell at most, and one.
    ///
    /// # Errors
    /// The Stop of the access; it is never `ClockFull`.
    pub fn contains<A: Access>(&self, acc: &mut A, key: u32) -> Result<bool, Stop>
        requires going { A.stopped acc.old ≡ None }
        requires within { TreeFits self.now (A.words acc.old) }
        requires well { HoldsFor A.Access acc.old (IsTree self.now) }
        ensures reply { IfOk result (DoesFor A.Access acc.old acc.new (contained_in self.now key)) }
        ensures well { OnOk result (HoldsFor A.Access acc.new (IsTree self.now)) }
        ensures cause { IfErr result IsReadStop }
        ensures frame { LeadsOn A.Access acc.old acc.new result }
    {
        let pool = Pool {
            at: self.at,
            cells: self.cells,
            extra: 0,
        };
        let position = pool.find(acc, key)?;
        Ok(position.tag == key as u64 + 1)
    }

    /// Puts the key in as a leaf, unless it is there; it takes the free cell of the lowest number. Three
    /// reads a cell at most, and one; two writes where it answers `Added`, else none.
    ///
    /// # Errors
    /// The Stop of the access.
    pub fn insert<A: Access>(&self, acc: &mut A, key: u32) -> Result<Insert, Stop>
        requires going { A.stopped acc.old ≡ None }
        requires within { TreeFits self.now (A.words acc.old) }
        requires well { HoldsFor A.Access acc.old (IsTree self.now) }
        ensures reply { IfOk result (DoesFor A.Access acc.old acc.new (inserted_in self.now key)) }
        ensures well { OnOk result (HoldsFor A.Access acc.new (IsTree self.now)) }
        ensures frame { LeadsOn A.Access acc.old acc.new result }
    {
        let pool = Pool {
            at: self.at,
            cells: self.cells,
            extra: 0,
        };
        let position = pool.find(acc, key)?;
        let tag = key as u64 + 1;
        if position.tag == tag {
            return Ok(Insert::Present);
        }
        let cells = Cells {
            first: self.at + 1,
            width: 3,
            count: self.cells,
        };
        match cells.free_cell(acc)? {
            None => Ok(Insert::NoRoom),
            Some(cell) => {
                acc.write(self.at + 1 + 3 * cell, tag)?;
                acc.write(position.link, cell as u64 + 1)?;
                Ok(Insert::Added)
            }
        }
    }

    /// The link, which names the cell, gets `word`, and the cell's words become 0. Four writes.
    fn splice<A: Access>(
        &self,
        acc: &mut A,
        cell: usize,
        link: usize,
        word: u64,
    ) -> Result<(), Stop>
        requires going { A.stopped acc.old ≡ None }
        requires within { (cell < self.now.cells) × (link < A.words acc.old)
            × TreeFits self.now (A.words acc.old) }
        ensures turns { OnOk result
            (Turns (A.log acc.old) (A.log acc.new) (spliced self.now cell link word)) }
        ensures frame { LeadsOn A.Access acc.old acc.new result }
    {
        let address = self.at + 1 + 3 * cell;
        acc.write(link, word)?;
        acc.write(address, 0)?;
        acc.write(address + 1, 0)?;
        acc.write(address + 2, 0)?;
        Ok(())
    }

    /// Takes the key out, and answers whether it was there. A cell with one link at most is spliced out: the
    /// link to it becomes its own. One with two takes the tag of the least cell on its right, which is
    /// spliced out in its place. Three reads a cell at most, and five; five writes at most.
    ///
    /// # Errors
    /// The Stop of the access.
    pub fn remove<A: Access>(&self, acc: &mut A, key: u32) -> Result<bool, Stop>
        requires going { A.stopped acc.old ≡ None }
        requires within { TreeFits self.now (A.words acc.old) }
        requires well { HoldsFor A.Access acc.old (IsTree self.now) }
        ensures reply { IfOk result (DoesFor A.Access acc.old acc.new (removed_in self.now key)) }
        ensures well { OnOk result (HoldsFor A.Access acc.new (IsTree self.now)) }
        ensures frame { LeadsOn A.Access acc.old acc.new result }
    {
        let pool = Pool {
            at: self.at,
            cells: self.cells,
            extra: 0,
        };
        let position = pool.find(acc, key)?;
        if position.tag != key as u64 + 1 {
            return Ok(false);
        }
        let cell = (position.next - 1) as usize;
        let address = self.at + 1 + 3 * cell;
        let lesser = acc.read(address + 1)?;
        let greater = acc.read(address + 2)?;
        if lesser == 0 {
            self.splice(acc, cell, position.link, greater)?;
            return Ok(true);
        }
        if greater == 0 {
            self.splice(acc, cell, position.link, lesser)?;
            return Ok(true);
        }
        let least = pool.leftmost(acc, address + 2, greater)?;
        if least.next == 0 {
            unreachable!();
        }
        let moved = (least.next - 1) as usize;
        let after = acc.read(self.at + 1 + 3 * moved + 2)?;
        self.splice(acc, moved, least.link, after)?;
        acc.write(address, least.tag)?;
        Ok(true)
    }

    /// The least key. One read a cell at most, and two.
    ///
    /// # Errors
    /// The Stop of the access; it is never `ClockFull`.
    pub fn min<A: Access>(&self, acc: &mut A) -> Result<Option<u32>, Stop>
        requires going { A.stopped acc.old ≡ None }
        requires within { TreeFits self.now (A.words acc.old) }
        requires well { HoldsFor A.Access acc.old (IsTree self.now) }
        ensures reply { IfOk result (DoesFor A.Access acc.old acc.new (least_in self.now)) }
        ensures well { OnOk result (HoldsFor A.Access acc.new (IsTree self.now)) }
        ensures cause { IfErr result IsReadStop }
        ensures frame { LeadsOn A.Access acc.old acc.new result }
    {
        let first = acc.read(self.at)?;
        let pool = Pool {
            at: self.at,
            cells: self.cells,
            extra: 0,
        };
        let least = pool.leftmost(acc, self.at, first)?;
        if least.tag == 0 {
            return Ok(None);
        }
        let key = (least.tag - 1) as u32;
        Ok(Some(key))
    }
}
