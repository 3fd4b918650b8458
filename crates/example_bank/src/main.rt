//! A day of the bank of `example_bank_jobs` under each algorithm: what the audit found last, and what is left.
#![tactic(auto)]

ghost use Rattle.std.specs.Prelude.{IfOk};
ghost use Rattle.example_bank_jobs.specs.Banks.{IsPaid};

use example_bank_jobs::bank::Bank;
use example_bank_jobs::{Day, total_of};
use nekchhaul::{ALGORITHMS, Alg, NewError, sizes, with_memory};
use std::alloc::Global;
use std::process::ExitCode;
use std::sync::Wait;
use std::thread::Threads;

/// What was there at the end: nothing, or the capital.
#[derive(Drop)]
struct Report {
    /// What the auditor found last.
    audited: u64,
    /// The sum of the balances in the closed memory.
    total: u64,
}

/// A day of a bank under this algorithm, from its opening to its close.
///
/// # Errors
/// Memory, where it is refused.
fn run<R: Threads + Wait + Sync>(rt: &R, alloc: Global, alg: Alg) -> Result<Report, NewError>
    ensures audited { IfOk result (λ r. IsPaid r.audited) }
    ensures total { IfOk result (λ r. IsPaid r.total) }
{
    let came = with_memory(rt, alloc, sizes(9, 4), alg, Bank, &Day)?;
    let audited = came.answers[0];
    let total = total_of(&came.words);
    Ok(Report { audited, total })
}

fn main(rt: HostRuntime) -> ExitCode {
    for alg in ALGORITHMS {
        let Ok(report) = run(&rt, rt.alloc(), alg) else {
            return ExitCode::from(4);
        };
        let name = alg.name();
        let audited = report.audited;
        let total = report.total;
        let line = println!(rt; "{name}: the audit found {audited}, and {total} is left");
        if line.is_err() {
            return ExitCode::from(6);
        }
    }
    ExitCode::from(0)
}
