//! The free one among cells of words, over any access.
ghost use Rattle.std.specs.Prelude.{◌≡◌, ◌<◌, None, IfOk, OnOk, IfErr, IfSome};
ghost use Rattle.stm_model.specs.Logs.{IsReadStop};
ghost use Rattle.data_effects.specs.Accesses.{ExplainedFor, LeadsOn, ShowsFor};
ghost use Rattle.data_effects.specs.Keys.{free_from};
ghost use Rattle.data_effects.specs.Tags.{CellsFit, tag};

use stm_model::access::Access;
use stm_model::stop::Stop;

/// Cells of `width` words each, at least one, from the word `first` on. A cell's first word is its tag, 0 where
/// the cell is free.
#[derive(Clone, Copy, Drop, Debug, PartialEq, Eq)]
pub struct Cells {
    pub first: usize,
    pub width: usize,
    pub count: usize,
}

impl Cells {
    /// The free cell of the lowest number, here from 0. One read a cell at most.
    ///
    /// # Errors
    /// The Stop of the access; it is never `ClockFull`.
    pub fn free_cell<A: Access>(&self, acc: &mut A) -> Result<Option<usize>, Stop>
        requires going { A.stopped acc.old ≡ None }
        requires within { CellsFit self.now (A.words acc.old) }
        requires explained { ExplainedFor A.Access acc.old }
        ensures frees { IfOk result
            (ShowsFor A.Access acc.old acc.new (λ m. free_from (tag self.now m) 0 self.now.count)) }
        ensures inside { IfOk result (λ o. IfSome o (λ c. c < self.now.count)) }
        ensures writes { OnOk result ((A.log acc.new).writes ≡ (A.log acc.old).writes) }
        ensures cause { IfErr result IsReadStop }
        ensures frame { LeadsOn A.Access acc.old acc.new result }
    {
        for cell in 0..self.count {
            let tag = acc.read(self.first + self.width * cell)?;
            if tag == 0 {
                return Ok(Some(cell));
            }
        }
        Ok(None)
    }
}
