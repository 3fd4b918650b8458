//! The walks through a binary search tree, whatever else its cells hold, over any access.
ghost use Rattle.std.specs.Prelude.{◌≡◌, ◌<◌, ◌≤◌, ◌+◌, ◌^◌, None, IfOk, OnOk, IfErr, ltb, if◌then◌else◌};
ghost use Rattle.stm_model.specs.Logs.{IsReadStop};
ghost use Rattle.data_effects.specs.Accesses.{ExplainedFor, HoldsFor, LeadsOn, ShowsFor};
ghost use Rattle.data_tree.specs.Shapes.{PoolFits, IsShape, IsAt, position_of, leftmost};

use data_effects::position::Position;
use stm_model::access::Access;
use stm_model::stop::Stop;

/// Where a tree lies. The word `at` is the root, a link; then come the `cells`, each with its tag, its left link,
/// its right link and `extra` words more.
///
/// A tag is 0 where the cell is free, else its key + 1. A link is 0 or the number of a cell, from 1. Lesser keys
/// are on the left, greater ones on the right.
#[derive(Clone, Copy, Drop, Debug, PartialEq, Eq)]
pub struct Pool {
    pub at: usize,
    pub cells: usize,
    pub extra: usize,
}

/// The link towards the key, of the cell whose tag stands at this address.
#[inline]
pub fn side(address: usize, tag: u64, key: u32) -> usize
    requires { address + 2 < 2 ^ 64 }
    ensures { result ≡ (if ltb key tag then address + 1 else address + 2) }
{
    if tag > key as u64 {
        address + 1
    } else {
        address + 2
    }
}

impl Pool {
    /// The link that names the key's cell, or the empty one where the key would go. Two reads a cell at most,
    /// and one.
    pub fn find<A: Access>(&self, acc: &mut A, key: u32) -> Result<Position, Stop>
        requires going { A.stopped acc.old ≡ None }
        requires within { PoolFits self.now (A.words acc.old) }
        requires well { HoldsFor A.Access acc.old (IsShape self.now) }
        ensures finds { IfOk result
            (ShowsFor A.Access acc.old acc.new (λ m. position_of self.now m key)) }
        ensures inside { IfOk result (λ s.
            (s.link < A.words acc.old) × (s.next ≤ self.now.cells) × (s.next ≡ 0 → s.tag ≡ 0)) }
        ensures writes { OnOk result ((A.log acc.new).writes ≡ (A.log acc.old).writes) }
        ensures cause { IfErr result IsReadStop }
        ensures frame { LeadsOn A.Access acc.old acc.new result }
    {
        let mut link = self.at;
        let mut next = acc.read(link)?;
        for _step in 0..self.cells {
            if next == 0 {
                return Ok(Position { link, next, tag: 0 });
            }
            let address = self.at + 1 + (3 + self.extra) * (next - 1) as usize;
            let tag = acc.read(address)?;
            if tag == key as u64 + 1 {
                return Ok(Position { link, next, tag });
            }
            link = side(address, tag, key);
            next = acc.read(link)?;
        }
        Ok(Position {
            link,
            next: 0,
            tag: 0,
        })
    }

    /// From the link `from`, whose word is `first`, to the left: the first cell with nothing on its left.
    /// One read a cell at most, and one.
    pub fn leftmost<A: Access>(
        &self,
        acc: &mut A,
        from: usize,
        first: u64,
    ) -> Result<Position, Stop>
        requires going { A.stopped acc.old ≡ None }
        requires within { (from < A.words acc.old) × (first ≤ self.now.cells)
            × PoolFits self.now (A.words acc.old) }
        requires explained { ExplainedFor A.Access acc.old }
        requires well { HoldsFor A.Access acc.old (IsAt self.now from first) }
        ensures finds { IfOk result
            (ShowsFor A.Access acc.old acc.new (λ m. leftmost self.now m self.now.cells from)) }
        ensures inside { IfOk result (λ s. (s.link < A.words acc.old) × (s.next ≤ self.now.cells)) }
        ensures writes { OnOk result ((A.log acc.new).writes ≡ (A.log acc.old).writes) }
        ensures cause { IfErr result IsReadStop }
        ensures frame { LeadsOn A.Access acc.old acc.new result }
    {
        let mut link = from;
        let mut next = first;
        for _step in 0..self.cells {
            if next == 0 {
                return Ok(Position { link, next, tag: 0 });
            }
            let address = self.at + 1 + (3 + self.extra) * (next - 1) as usize;
            let left = acc.read(address + 1)?;
            if left == 0 {
                let tag = acc.read(address)?;
                return Ok(Position { link, next, tag });
            }
            link = address + 1;
            next = left;
        }
        Ok(Position {
            link,
            next: 0,
            tag: 0,
        })
    }
}
