//! The memory of a run, opened: its algorithm is installed, and it is filled.
ghost use Rattle.std.specs.Prelude.{◌≡◌, ◌≤◌, false, length, IfOk, IfErr};
ghost use Rattle.stm_rule.specs.Callers.{IsOf, IsSameCaller};
ghost use Rattle.stm_answers.specs.CallerState.{IsIdle};
ghost use Rattle.stm_tx.specs.Descs.{known};
ghost use Rattle.tx_atomic.specs.Callers.{AllReady};
ghost use Rattle.perf_core.specs.Plans.{IsOfMemory, IsPlan};
ghost use Rattle.perf_core.specs.WorkRegions.{FitsWorkRegion};

use crate::filling::fill;
use crate::plan::Plan;
use crate::work_region::WorkRegion;
use std::alloc::Global;
use std::sync::Wait;
use stm_tx::{Config, Desc, NewError, Stm};
use tx_atomic::switching::switch_to;

/// Opens and fills the memory of a run, and answers it with its descriptors.
///
/// # Errors
/// Memory, where it is refused.
pub fn open<R: Wait>(
    rt: &R,
    alloc: Global,
    plan: &Plan,
) -> Result<(Stm<WorkRegion>, Vec<Desc<WorkRegion>>), NewError>
    requires { IsPlan plan.now }
    ensures ready { IfOk result (λ r. AllReady r.0 0 r.1.items) }
    ensures count { IfOk result (λ r. length r.1.items ≡ r.0.config.callers) }
    ensures work_region { IfOk result (λ r. FitsWorkRegion r.0) }
    ensures plain { IfOk result (λ r. r.0.config.fence ≡ false) }
    ensures refused { IfErr result IsOfMemory }
{
    let config = Config {
        words: plan.words,
        records: plan.workload.records(plan.words),
        ring: 64,
        callers: plan.threads as usize,
        reads: plan.reads,
        writes: 16,
        clock: 0,
        fence: false,
        marks: 0,
    };
    let (stm, mut descs) = Stm::new(alloc, config, WorkRegion::of(plan.workload, plan.words))?;
    begin(rt, alloc, &mut descs[0], &stm, plan);
    Ok((stm, descs))
}

/// Installs the algorithm, and fills the memory.
fn begin<R: Wait>(
    rt: &R,
    alloc: Global,
    desc: &mut Desc<WorkRegion>,
    stm: &Stm<WorkRegion>,
    plan: &Plan,
)
    requires stm { IsOf desc.old stm.now }
    requires idle { IsIdle (known desc.old) }
    requires work_region { FitsWorkRegion stm.now }
    ensures same { IsSameCaller desc.old desc.new }
    ensures idle { IsIdle (known desc.new) }
{
    switch_to(rt, desc, stm, plan.alg);
    fill(rt, alloc, desc, stm, plan.workload);
}
