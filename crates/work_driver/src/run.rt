//! `run`: the transactions of all callers, each caller's on a thread.
ghost use Rattle.work_profile.specs.declared.policy.Policy.{Policy};
ghost use Rattle.work_script.specs.declared.workload.Workload.{Workload};
ghost use Rattle.work_text.specs.declared.parse.Mode.TheVariants.{Run};
ghost use Rattle.work_driver.specs.Preparings.{IsReadyFor};
ghost use Rattle.work_driver.specs.Runs.{HasRun};

use crate::closing::close_memory;
use crate::outcome::RunOutcome;
use crate::preparing::Prepared;
use crate::threads::run_all;
use crate::workers::how_ended;
use std::alloc::Global;
use std::sync::Wait;
use std::thread::Threads;
use stm_model::rule::MemRule;
use work_script::laws::report_replays;
use work_text::laws::parsed_workloads_fit;
use work_worker::turnstile::Turnstile;

/// Runs the transactions of all callers, each caller's in the order of the text, on a thread a caller; caller 0
/// switches besides by the policy that was prepared.
///
/// Where several callers find the clock at its limit, the clock is that of the lowest of them. Where a `reserve` of any
/// caller finds no memory, or the report's pairs find none, the run ends with [`RunOutcome::OutOfMemory`].
pub fn run<R: Threads + Wait + Sync, K: MemRule + Drop + Send + Sync, G: Turnstile + Sync>(
    rt: &R,
    alloc: Global,
    prepared: Prepared<K>,
    turnstile: &G,
) -> RunOutcome
    requires ready { (policy : Policy) × (w : Workload)
        × IsReadyFor (K.good prepared.stm.rule) Run policy w prepared }
    ensures { (policy : Policy) → (w : Workload)
        → IsReadyFor (K.good prepared.entry.stm.rule) Run policy w prepared.entry
        → HasRun policy w result }
{
    let Prepared {
        stm,
        mut runners,
        room,
    } = prepared;
    parsed_workloads_fit();
    report_replays(&stm.rule);
    run_all(rt, alloc, &stm, turnstile, runners.as_mut_slice());
    let how = how_ended(runners.as_slice());
    close_memory(alloc, stm, runners, room, how)
}
