//! What a memory has before the transactions that are timed: accounts with money, and sets with the even keys.
ghost use Rattle.std.specs.Prelude.{◌≡◌, ◌≤◌};
ghost use Rattle.stm_rule.specs.Callers.{IsOf, IsSameCaller};
ghost use Rattle.stm_answers.specs.CallerState.{IsIdle};
ghost use Rattle.stm_tx.specs.Descs.{known};
ghost use Rattle.perf_core.specs.WorkRegions.{FitsWorkRegion};

use crate::conflicts::Conflicts;
use crate::jobs::{Insert, Store};
use crate::plan::{ACCOUNTS, BALANCE, KEYS, Workload};
use crate::work_region::WorkRegion;
use std::alloc::Global;
use std::sync::Wait;
use stm_tx::{Desc, Stm};
use tx_atomic::atomically::atomically;
use tx_atomic::pace::Pacing;

/// Fills the memory, a transaction an account or a key.
pub fn fill<R: Wait>(
    rt: &R,
    alloc: Global,
    desc: &mut Desc<WorkRegion>,
    stm: &Stm<WorkRegion>,
    workload: Workload,
)
    requires stm { IsOf desc.old stm.now }
    requires idle { IsIdle (known desc.old) }
    requires work_region { FitsWorkRegion stm.now }
    ensures same { IsSameCaller desc.old desc.new }
    ensures idle { IsIdle (known desc.new) }
{
    // the callers' kind of pace, so that an attempt is compiled once for both
    let mut pace = Pacing::observed(Conflicts::none(alloc));
    match workload {
        Workload::Bank | Workload::Sum => fill_accounts(rt, desc, stm, &mut pace),
        Workload::Hash | Workload::List => fill_set(rt, desc, stm, &mut pace),
        Workload::Count | Workload::Scan => {}
    }
}

fn fill_accounts<R: Wait>(
    rt: &R,
    desc: &mut Desc<WorkRegion>,
    stm: &Stm<WorkRegion>,
    pace: &mut Pacing<Conflicts>,
)
    requires stm { IsOf desc.old stm.now }
    requires idle { IsIdle (known desc.old) }
    requires work_region { FitsWorkRegion stm.now }
    ensures same { IsSameCaller desc.old desc.new }
    ensures idle { IsIdle (known desc.new) }
{
    for account in 0..ACCOUNTS as u32 {
        let job = Store {
            account,
            value: BALANCE as u32,
        };
        atomically(rt, desc, stm, pace, &job);
    }
}

/// The greatest keys go first, so that each finds its place at once.
fn fill_set<R: Wait>(
    rt: &R,
    desc: &mut Desc<WorkRegion>,
    stm: &Stm<WorkRegion>,
    pace: &mut Pacing<Conflicts>,
)
    requires stm { IsOf desc.old stm.now }
    requires idle { IsIdle (known desc.old) }
    requires work_region { FitsWorkRegion stm.now }
    ensures same { IsSameCaller desc.old desc.new }
    ensures idle { IsIdle (known desc.new) }
{
    for i in 0..KEYS / 2 {
        let job = Insert {
            key: KEYS - 2 - 2 * i,
        };
        atomically(rt, desc, stm, pace, &job);
    }
}
