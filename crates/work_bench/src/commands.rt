//! What each command writes.
ghost use Rattle.std.specs.Prelude.{◌≡◌, ◌≤◌, ◌++◌, IfOk};
ghost use Rattle.work_bench.specs.Outcomes.{SaidOfMade, SaidOfRun};
ghost use Rattle.work_gen.specs.declared.generate.TheConstants.{MOST_TRANSACTIONS};
ghost use Rattle.work_profile.specs.declared.policy.Policy.{Policy};
ghost use Rattle.stm_model.specs.declared.config.TheConstants.{MAX_CALLERS};
ghost use Rattle.work_text.specs.Parsed.{IsParsed};
ghost use Rattle.work_text.specs.declared.parse.Mode.TheVariants.{Run, Step};

use crate::messages;
use crate::parts::{run_workload, step_workload};
use crate::status::Status;
use crate::why::Why;
use std::alloc::Global;
use std::sync::Wait;
use std::thread::Threads;
use stm_model::memory::Memory;
use stm_rule::ending::Closed;
use work_check::checking::Part;
use work_driver::outcome::RunOutcome;
use work_gen::generate::generate;
use work_gen::laws::summary_is_counted;
use work_gen::summary::Summary;
use work_gen::summary_text::summary_text;
use work_profile::policy::Policy;
use work_script::workload::Workload;
use work_text::report::{report_text, report_text_by};
use work_trace::text::trace_text;
use work_worker::turnstile::Turnstile;

/// A status, the whole text that it writes, the closed memory of a run, and what is wrong, where memory for it is
/// there.
#[derive(Drop)]
pub(crate) struct Saying {
    pub(crate) status: Status,
    pub(crate) text: Vec<u8>,
    pub(crate) closed: Option<Closed>,
    pub(crate) why: Option<Why>,
}

impl Saying {
    ghost use Rattle.std.specs.Prelude.{◌≡◌, None};
    ghost use Rattle.work_bench.specs.declared.status.Status.TheVariants.{ReadFault};

    /// A text of no run, with nothing wrong.
    pub(crate) fn short(status: Status, text: Vec<u8>) -> Saying
        ensures status { result.status ≡ status }
        ensures text { result.text ≡ text }
        ensures closed { result.closed ≡ None }
    {
        Saying {
            status,
            text,
            closed: None,
            why: None,
        }
    }

    /// Where this source failed.
    pub(crate) fn unread(alloc: Global, part: Part, text: Vec<u8>) -> Saying
        ensures status { result.status ≡ ReadFault }
        ensures text { result.text ≡ text }
        ensures closed { result.closed ≡ None }
    {
        Saying {
            status: Status::ReadFault,
            text,
            closed: None,
            why: Why::of(
                part,
                "it could not be read; here stands a text"
                    .to_string(alloc)
                    .ok(),
            ),
        }
    }
}

/// What is to be written of a workload under `run` and this policy.
pub(crate) fn report<R: Threads + Wait + Sync, G: Turnstile + Sync>(
    rt: &R,
    alloc: Global,
    policy: Policy,
    workload: Workload,
    turnstile: &G,
) -> Result<Saying, Memory>
    requires { IsParsed Run workload }
    ensures { IfOk result (λ s. SaidOfRun Run policy workload s.status s.closed s.text.items) }
{
    let callers = workload.header.callers;
    let outcome = run_workload(rt, alloc, workload, policy, turnstile)?;
    match outcome {
        RunOutcome::ToEnd { report, closed } => Ok(Saying {
            status: Status::Ok,
            text: report_text_by(rt, alloc, &report, callers)?,
            closed: Some(closed),
            why: None,
        }),
        RunOutcome::ToLimit { clock, closed } => Ok(Saying {
            status: Status::ClockFull { clock },
            text: messages::clock_full(alloc, clock)?,
            closed: Some(closed),
            why: None,
        }),
        RunOutcome::OutOfMemory { closed: _ } => Err(Memory),
    }
}

/// What is to be written of a workload under `step`.
pub(crate) fn trace<R: Threads + Wait + Sync>(
    rt: &R,
    alloc: Global,
    workload: Workload,
) -> Result<Saying, Memory>
    requires { IsParsed Step workload }
    ensures { (policy : Policy)
        → IfOk result (λ s. SaidOfRun Step policy workload s.status s.closed s.text.items) }
{
    let (lines, outcome) = step_workload(rt, alloc, workload)?;
    match outcome {
        RunOutcome::ToEnd { report, closed } => Ok(Saying {
            status: Status::Ok,
            text: behind(
                trace_text(alloc, lines.as_slice())?,
                report_text(alloc, &report)?,
            )?,
            closed: Some(closed),
            why: None,
        }),
        RunOutcome::ToLimit { clock, closed } => Ok(Saying {
            status: Status::ClockFull { clock },
            text: behind(
                trace_text(alloc, lines.as_slice())?,
                messages::clock_full(alloc, clock)?,
            )?,
            closed: Some(closed),
            why: None,
        }),
        RunOutcome::OutOfMemory { closed: _ } => Err(Memory),
    }
}

/// What is to be written under `gen`. The clock of a generated workload starts at 0, so its run goes to its end.
pub(crate) fn summarize<R: Threads + Wait + Sync, G: Turnstile + Sync>(
    rt: &R,
    alloc: Global,
    transactions: u32,
    callers: u32,
    seed: u64,
    turnstile: &G,
) -> Result<Saying, Memory>
    requires transactions { transactions ≤ MOST_TRANSACTIONS }
    requires callers { (1 ≤ callers) × (callers ≤ MAX_CALLERS) }
    ensures { IfOk result (λ s.
        SaidOfMade transactions callers seed s.status s.closed s.text.items) }
{
    summary_is_counted();
    let workload = generate(alloc, transactions, callers, seed)?;
    let outcome = run_workload(rt, alloc, workload, Policy::Fixed, turnstile)?;
    match outcome {
        RunOutcome::ToEnd { report, closed } => Ok(Saying {
            status: Status::Ok,
            text: summary_text(alloc, &Summary::of(&report))?,
            closed: Some(closed),
            why: None,
        }),
        RunOutcome::ToLimit { .. } => unreachable!(),
        RunOutcome::OutOfMemory { closed: _ } => Err(Memory),
    }
}

/// Concatenates two texts.
fn behind(mut text: Vec<u8>, mut other: Vec<u8>) -> Result<Vec<u8>, Memory>
    ensures { IfOk result (λ t. t.items ≡ text.items ++ other.items) }
{
    text.append(&mut other)?;
    Ok(text)
}
