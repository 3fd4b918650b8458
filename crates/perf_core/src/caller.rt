//! A caller: its transactions one after the other, each tried until it commits.
ghost use Rattle.std.specs.Prelude.{◌≡◌, ◌≤◌};
ghost use Rattle.stm_rule.specs.Callers.{IsOf, IsSameCaller};
ghost use Rattle.stm_answers.specs.CallerState.{IsIdle};
ghost use Rattle.stm_tx.specs.Descs.{known};
ghost use Rattle.perf_core.specs.WorkRegions.{FitsWorkRegion};

use crate::conflicts::Conflicts;
use crate::drawing::{Bank, Count, Draw, Hash, List, Scan, Total};
use crate::looks::Looks;
use crate::plan::{Plan, Workload};
use crate::work_counts::WorkCounts;
use crate::work_region::WorkRegion;
use rand_core::SeedableRng;
use rand_pcg::Pcg32;
use std::sync::Wait;
use stm_tx::{Alg, Desc, Stm};
use tx_atomic::pace::Pacing;
use tx_atomic::switching::switch_to;

/// A caller, with its own random numbers.
#[derive(Drop)]
pub struct Caller {
    pub desc: Desc<WorkRegion>,
    pub draws: Pcg32,
    /// Its observer counts conflicts.
    pub pace: Pacing<Conflicts>,
    pub work_counts: WorkCounts,
    /// How many transactions it is to commit.
    pub share: u32,
    /// How often it is to switch before them, and what these switches took.
    pub switches: u32,
    pub looks: Looks,
}

impl Caller {
    pub fn new(
        desc: Desc<WorkRegion>,
        share: u32,
        switches: u32,
        seed: u64,
        conflicts: Conflicts,
    ) -> Caller
        ensures { result.desc ≡ desc }
    {
        Caller {
            desc,
            draws: Pcg32::seed_from_u64(seed),
            pace: Pacing::observed(conflicts),
            work_counts: WorkCounts::new(),
            share,
            switches,
            looks: Looks::new(),
        }
    }

    /// Switches as often as it is to, and commits its share of transactions.
    pub fn work<R: Wait>(&mut self, rt: &R, stm: &Stm<WorkRegion>, plan: &Plan)
        requires stm { IsOf self.old.desc stm.now }
        requires idle { IsIdle (known self.old.desc) }
        requires work_region { FitsWorkRegion stm.now }
        ensures same { IsSameCaller self.old.desc self.new.desc }
        ensures idle { IsIdle (known self.new.desc) }
    {
        self.switch(rt, stm, plan.alg);
        self.commit(rt, stm, plan.workload);
    }

    /// Installs the algorithm anew, as often as it is to.
    fn switch<R: Wait>(&mut self, rt: &R, stm: &Stm<WorkRegion>, alg: Alg)
        requires stm { IsOf self.old.desc stm.now }
        requires idle { IsIdle (known self.old.desc) }
        ensures same { IsSameCaller self.old.desc self.new.desc }
        ensures idle { IsIdle (known self.new.desc) }
    {
        for _ in 0..self.switches {
            let looks = switch_to(rt, &mut self.desc, stm, alg);
            self.looks.note(looks);
        }
    }

    /// Commits its share of transactions of a workload.
    fn commit<R: Wait>(&mut self, rt: &R, stm: &Stm<WorkRegion>, workload: Workload)
        requires stm { IsOf self.old.desc stm.now }
        requires idle { IsIdle (known self.old.desc) }
        requires work_region { FitsWorkRegion stm.now }
        ensures same { IsSameCaller self.old.desc self.new.desc }
        ensures idle { IsIdle (known self.new.desc) }
    {
        match workload {
            Workload::Bank => self.commit_drawn::<R, Bank>(rt, stm),
            Workload::Hash => self.commit_drawn::<R, Hash>(rt, stm),
            Workload::List => self.commit_drawn::<R, List>(rt, stm),
            Workload::Count => self.commit_drawn::<R, Count>(rt, stm),
            Workload::Sum => self.commit_drawn::<R, Total>(rt, stm),
            Workload::Scan => self.commit_drawn::<R, Scan>(rt, stm),
        }
    }

    /// Commits its share of transactions, drawn so. It ends early where the clock was found at its limit.
    fn commit_drawn<R: Wait, D: Draw>(&mut self, rt: &R, stm: &Stm<WorkRegion>)
        requires stm { IsOf self.old.desc stm.now }
        requires idle { IsIdle (known self.old.desc) }
        requires work_region { FitsWorkRegion stm.now }
        ensures same { IsSameCaller self.old.desc self.new.desc }
        ensures idle { IsIdle (known self.new.desc) }
    {
        for _ in 0..self.share {
            let (draws, pace, counts) = (&mut self.draws, &mut self.pace, &mut self.work_counts);
            if D::commit(draws, rt, &mut self.desc, stm, pace, counts).is_none() {
                return;
            }
        }
    }
}
