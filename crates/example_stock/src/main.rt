//! The trade of `example_stock_jobs`, run under each algorithm: what was supplied, and what is left of it.
#![tactic(auto)]

ghost use Rattle.std.specs.Prelude.{◌≡◌, length, IfOk};
ghost use Rattle.example_stock_jobs.specs.Stocks.{IsStocked};

use example_stock_jobs::Trade;
use example_stock_jobs::stock::{Inventory, totals};
use nekchhaul::{ALGORITHMS, Alg, ClosedMemory, Evidence, NewError, sizes, with_memory};
use std::alloc::Global;
use std::process::ExitCode;
use std::sync::Wait;
use std::thread::Threads;

/// Has four callers trade under this algorithm.
///
/// # Errors
/// Memory, where it is refused.
fn run<R: Threads + Wait + Sync>(
    rt: &R,
    alloc: Global,
    alg: Alg,
) -> Result<ClosedMemory<usize, Evidence>, NewError>
    ensures stocked { IfOk result (λ came. IsStocked came.words.items) }
    ensures count { IfOk result (λ came. length came.words.items ≡ 64) }
{
    with_memory(rt, alloc, sizes(64, 4), alg, Inventory, &Trade)
}

fn main(rt: HostRuntime) -> ExitCode {
    for alg in ALGORITHMS {
        let Ok(came) = run(&rt, rt.alloc(), alg) else {
            return ExitCode::from(4);
        };
        let name = alg.name();
        let (supplied, there) = totals(&came.words);
        let line = println!(rt; "{name}: {supplied} supplied, and {there} in stock or sold");
        if line.is_err() {
            return ExitCode::from(6);
        }
    }
    ExitCode::from(0)
}
