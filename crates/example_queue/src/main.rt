//! A day of the producers and workers of `example_queue_jobs` under each algorithm: whether each job was taken once.
#![tactic(auto)]

ghost use Rattle.std.specs.Prelude.{IfOk};
ghost use Rattle.example_queue_jobs.specs.Days.{IsPlan, IsDay, IsWhole};

use example_queue_jobs::day::{is_done, sum_of};
use example_queue_jobs::hands::{Hand, Shift};
use example_queue_jobs::jobs::Jobs;
use example_queue_jobs::plan::Plan;
use nekchhaul::queue::{Queue, queues_are_apart};
use nekchhaul::{ALGORITHMS, Alg, ClosedMemory, Evidence, NewError, sizes, with_memory};
use std::alloc::Global;
use std::process::ExitCode;
use std::sync::Wait;
use std::thread::Threads;

const PLAN: Plan = Plan {
    producers: 4,
    workers: 3,
    each: 250,
    room: 16,
};

/// A day of work by this plan under this algorithm, each caller on a thread of its own.
///
/// # Errors
/// Memory, where it is refused.
fn work_off<R: Threads + Wait + Sync>(
    rt: &R,
    alloc: Global,
    alg: Alg,
    plan: Plan,
) -> Result<ClosedMemory<Hand, Evidence>, NewError>
    requires plan { IsPlan plan }
    ensures whole { IfOk result (IsWhole plan) }
    ensures day { IfOk result (λ day. IsDay plan day day.past.closed.history) }
{
    // a memory of zeros has an empty queue
    queues_are_apart();
    let config = sizes(plan.room + 2, plan.producers + plan.workers);
    let jobs = Jobs {
        waiting: Queue {
            at: 0,
            cells: plan.room,
        },
    };
    with_memory(rt, alloc, config, alg, jobs, &Shift { plan, alloc })
}

fn main(rt: HostRuntime) -> ExitCode {
    for alg in ALGORITHMS {
        let Ok(day) = work_off(&rt, rt.alloc(), alg, PLAN) else {
            return ExitCode::from(4);
        };
        let name = alg.name();
        let jobs = PLAN.jobs();
        let sum = sum_of(&day.answers);
        let line = if is_done(&PLAN, &day) {
            println!(rt; "{name}: {jobs} jobs, each taken once, with the sum {sum}")
        } else {
            println!(rt; "{name}: not all jobs were taken")
        };
        if line.is_err() {
            return ExitCode::from(6);
        }
    }
    ExitCode::from(0)
}
