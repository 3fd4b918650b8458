//! A sorted list of keys, over any access.
ghost use Rattle.std.specs.Prelude.{◌≡◌, ◌<◌, None, IfOk, OnOk, IfErr};
ghost use Rattle.stm_model.specs.Logs.{IsReadStop};
ghost use Rattle.data_effects.specs.Accesses.{DoesFor, HoldsFor, LeadsOn};
ghost use Rattle.data_cells.specs.Chains.{ChainsFit, IsChains, contained_in, inserted_in, removed_in, counted_in};
ghost use Rattle.data_cells.specs.Structures.{list_of};

use crate::chains::Chains;
use data_effects::insert::Insert;
use stm_model::access::Access;
use stm_model::stop::Stop;

/// A sorted linked list of keys. Its head is the word `at`; then come the `cells`, two words each: cell i,
/// from 1, has its tag at `at + 1 + 2 * (i - 1)` and its link one word on (`Chains` says what they mean).
#[derive(Clone, Copy, Drop, Debug, PartialEq, Eq)]
pub struct List {
    pub at: usize,
    pub cells: usize,
}

impl List {
    pub fn new(at: usize, cells: usize) -> List
        ensures { result ≡ record { at = at; cells = cells } }
    {
        List { at, cells }
    }

    fn chains(&self) -> Chains
        ensures { result ≡ list_of self.now }
    {
        Chains {
            at: self.at,
            heads: 1,
            cells: self.cells,
        }
    }

    /// Whether the key is there. Two reads a cell at most, and one.
    ///
    /// # Errors
    /// The Stop of the access; it is never `ClockFull`.
    #[inline(always)]
    pub fn contains<A: Access>(&self, acc: &mut A, key: u32) -> Result<bool, Stop>
        requires going { A.stopped acc.old ≡ None }
        requires within { ChainsFit (list_of self.now) (A.words acc.old) }
        requires well { HoldsFor A.Access acc.old (IsChains (list_of self.now)) }
        ensures reply { IfOk result
            (DoesFor A.Access acc.old acc.new (contained_in (list_of self.now) key)) }
        ensures well { OnOk result (HoldsFor A.Access acc.new (IsChains (list_of self.now))) }
        ensures cause { IfErr result IsReadStop }
        ensures frame { LeadsOn A.Access acc.old acc.new result }
    {
        self.chains().contains(acc, key)
    }

    /// Puts the key in, unless it is there; it takes the free cell of the lowest number. Three reads a cell
    /// at most, and one; three writes where it answers `Added`, else none.
    ///
    /// # Errors
    /// The Stop of the access.
    pub fn insert<A: Access>(&self, acc: &mut A, key: u32) -> Result<Insert, Stop>
        requires going { A.stopped acc.old ≡ None }
        requires within { ChainsFit (list_of self.now) (A.words acc.old) }
        requires well { HoldsFor A.Access acc.old (IsChains (list_of self.now)) }
        ensures reply { IfOk result
            (DoesFor A.Access acc.old acc.new (inserted_in (list_of self.now) key)) }
        ensures well { OnOk result (HoldsFor A.Access acc.new (IsChains (list_of self.now))) }
        ensures frame { LeadsOn A.Access acc.old acc.new result }
    {
        self.chains().insert(acc, key)
    }

    /// Takes the key out, and answers whether it was there. Two reads a cell at most, and two; three writes
    /// where it was there, else none.
    ///
    /// # Errors
    /// The Stop of the access.
    pub fn remove<A: Access>(&self, acc: &mut A, key: u32) -> Result<bool, Stop>
        requires going { A.stopped acc.old ≡ None }
        requires within { ChainsFit (list_of self.now) (A.words acc.old) }
        requires well { HoldsFor A.Access acc.old (IsChains (list_of self.now)) }
        ensures reply { IfOk result
            (DoesFor A.Access acc.old acc.new (removed_in (list_of self.now) key)) }
        ensures well { OnOk result (HoldsFor A.Access acc.new (IsChains (list_of self.now))) }
        ensures frame { LeadsOn A.Access acc.old acc.new result }
    {
        self.chains().remove(acc, key)
    }

    /// The number of keys. One read a cell at most, and one.
    ///
    /// # Errors
    /// The Stop of the access; it is never `ClockFull`.
    pub fn len<A: Access>(&self, acc: &mut A) -> Result<u64, Stop>
        requires going { A.stopped acc.old ≡ None }
        requires within { ChainsFit (list_of self.now) (A.words acc.old) }
        requires well { HoldsFor A.Access acc.old (IsChains (list_of self.now)) }
        ensures reply { IfOk result
            (DoesFor A.Access acc.old acc.new (counted_in (list_of self.now))) }
        ensures well { OnOk result (HoldsFor A.Access acc.new (IsChains (list_of self.now))) }
        ensures cause { IfErr result IsReadStop }
        ensures frame { LeadsOn A.Access acc.old acc.new result }
    {
        self.chains().len(acc)
    }
}
