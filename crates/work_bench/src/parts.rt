//! A workload, taken apart for its run, and what the run came to.
ghost use Rattle.std.specs.Prelude.{ℕ, IfOk};
ghost use Rattle.work_driver.specs.Runs.{HasRun, HasStepped};
ghost use Rattle.work_text.specs.Parsed.{IsParsed};
ghost use Rattle.work_profile.specs.Policies.{ruling};
ghost use Rattle.work_text.specs.declared.parse.Mode.TheVariants.{Run, Step};

use data_regions::region::Regions;
use std::alloc::Global;
use std::sync::Wait;
use std::thread::Threads;
use stm_model::memory::Memory;
use work_driver::laws::regions_are_kept;
use work_driver::outcome::RunOutcome;
use work_driver::parting::{CallerItems, part};
use work_driver::preparing::{Prepared, prepare};
use work_driver::run::run;
use work_driver::step::step;
use work_profile::policy::Policy;
use work_script::workload::{Gos, Header, Workload};
use work_trace::line::Line;
use work_worker::turnstile::Turnstile;

/// What a run takes of a workload.
#[derive(Drop)]
pub(crate) struct Parts {
    header: Header,
    /// What each caller is to do.
    callers: Vec<CallerItems>,
    /// How many items all callers have.
    count: usize,
    regions: Regions,
    schedule: Gos,
}

impl Parts {
    ghost use Rattle.std.specs.Prelude.{IfOk};
    ghost use Rattle.work_script.specs.declared.workload.Workload.{Workload};
    ghost use Rattle.work_driver.specs.Preparings.{IsReadyFor};
    ghost use Rattle.work_text.specs.Parsed.{IsParsed};
    ghost use Rattle.work_text.specs.declared.parse.Mode.{Mode};
    ghost use Rattle.data_regions.specs.Regions.{AllWellFormed};
    ghost use Rattle.work_bench.specs.Apart.{AreParts};

    /// Takes a workload apart.
    fn of(alloc: Global, workload: Workload) -> Result<Parts, Memory>
        requires { (mode : Mode) × IsParsed mode workload }
        ensures { IfOk result (AreParts workload) }
    {
        let Workload {
            header,
            items,
            schedule,
        } = workload;
        let count = items.as_slice().len();
        let callers = part(alloc, header.callers, items.into_vec())?;
        let regions = header.regions(alloc)?;
        Ok(Parts {
            header,
            callers,
            count,
            regions,
            schedule,
        })
    }

    /// Opens the memory, whose rule is that the header's regions are well formed, and makes all that a run takes.
    /// Caller 0 is to switch by the policy.
    fn prepare<'a, R: Threads + Wait + Sync>(
        &'a self,
        rt: &R,
        alloc: Global,
        policy: Policy,
    ) -> Result<Prepared<'a, Regions>, Memory>
        requires { (mode : Mode) × (w : Workload) × IsParsed mode w × AreParts w self.now }
        ensures { IfOk result (λ p.
            (mode : Mode) (w : Workload) → IsParsed mode w → AreParts w self.now
            → IsReadyFor (AllWellFormed p.stm.rule) mode policy w p) }
    {
        regions_are_kept();
        let rule = self.header.regions(alloc)?;
        let prepared = prepare(
            rt,
            alloc,
            rule,
            &self.header,
            policy,
            self.callers.as_slice(),
            &self.regions,
            self.count,
        )?;
        Ok(prepared)
    }
}

/// What the run of a workload on a thread a caller came to, where caller 0 switches besides by the policy, or by the
/// text's where it is fixed. Memory may be refused before its first turn.
pub(crate) fn run_workload<R: Threads + Wait + Sync, G: Turnstile + Sync>(
    rt: &R,
    alloc: Global,
    workload: Workload,
    policy: Policy,
    turnstile: &G,
) -> Result<RunOutcome, Memory>
    requires { IsParsed Run workload }
    ensures { IfOk result (HasRun (ruling policy workload.header.policy) workload) }
{
    let parts = Parts::of(alloc, workload)?;
    let prepared = parts.prepare(rt, alloc, policy.ruling(parts.header.policy))?;
    Ok(run(rt, alloc, prepared, turnstile))
}

/// The trace of the run of a workload in the turns of its schedule, and what it came to. Memory may be refused
/// before its first turn.
pub(crate) fn step_workload<R: Threads + Wait + Sync>(
    rt: &R,
    alloc: Global,
    workload: Workload,
) -> Result<(Vec<Line>, RunOutcome), Memory>
    requires { IsParsed Step workload }
    ensures { IfOk result (λ r. HasStepped workload r.0.items r.1) }
{
    let parts = Parts::of(alloc, workload)?;
    let prepared = parts.prepare(rt, alloc, parts.header.policy)?;
    Ok(step(rt, alloc, prepared, parts.schedule.as_slice()))
}
