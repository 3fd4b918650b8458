//! What a memory is for: one region, and the rule that it is well formed.
ghost use Rattle.std.specs.Prelude.{◌≤◌, replicate};
ghost use Rattle.data_regions.specs.Regions.{WellFormed};
ghost use Rattle.perf_core.specs.Jobs.{RegionFits};

use crate::plan::{ACCOUNTS, CELLS, Workload};
use data_cells::counter::Counter;
use data_cells::hash::Hash;
use data_cells::laws::chains_are_apart;
use data_cells::list::List;
use data_regions::region::Region;
use stm_model::rule::MemRule;

/// The one region that a memory has; accounts and a count are a counter's stripes. As a rule on memory: it is
/// well formed.
#[derive(Clone, Copy, Drop, Debug, PartialEq, Eq)]
pub struct WorkRegion {
    pub region: Region,
}

impl MemRule for WorkRegion {
    ghost use Rattle.data_regions.specs.Regions.{WellFormed};

    ghost good = { λ work_region memory. WellFormed work_region.region memory };
}

impl WorkRegion {
    /// The region of a workload in a memory of so many words, from the word 0 on. A memory of zeros is well formed.
    pub fn of(workload: Workload, words: usize) -> WorkRegion
        requires { 1040 ≤ words }
        ensures fits { RegionFits result.region words }
        ensures opening { WellFormed result.region (replicate words 0) }
    {
        chains_are_apart();
        let region = match workload {
            Workload::Bank | Workload::Count | Workload::Sum => Region::Counter(Counter::new(
                0, ACCOUNTS,
            )),
            Workload::Hash => Region::Hash(Hash::new(0, CELLS)),
            Workload::List => Region::List(List::new(0, CELLS)),
            Workload::Scan => Region::Counter(Counter::new(0, words)),
        };
        WorkRegion { region }
    }
}
