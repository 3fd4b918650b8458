//! The callers of `example_bucket_jobs`, run: what was handed out, and what was counted.
#![tactic(auto)]

ghost use Rattle.std.specs.Prelude.{◌≡◌, [], ◌∷◌, length, slice_index_or, IfOk};
ghost use Rattle.nekchhaul.specs.Alg.TheVariants.{OrecLazy, Tml};
ghost use Rattle.example_bucket_jobs.specs.declared.TheConstants.{LIMITER};
ghost use Rattle.example_bucket_jobs.specs.Buckets.{IsFair};

use example_bucket_jobs::{LIMITER, Serve, handed_out};
use nekchhaul::{Alg, ClosedMemory, Evidence, NewError, sizes, with_memory};
use std::alloc::Global;
use std::process::ExitCode;
use std::sync::Wait;
use std::thread::Threads;

/// Has four callers serve the clients, first under OrecLazy and then under TML.
///
/// # Errors
/// Memory, where it is refused.
fn run<R: Threads + Wait + Sync>(
    rt: &R,
    alloc: Global,
) -> Result<ClosedMemory<usize, Evidence>, NewError>
    ensures fair { IfOk result (λ came. IsFair LIMITER came.words.items) }
    ensures count { IfOk result (λ came. length came.words.items ≡ 33) }
    ensures installs { IfOk result (λ came.
        slice_index_or came.past.closed.installs 0 [] ≡ OrecLazy ∷ Tml ∷ []) }
{
    with_memory(rt, alloc, sizes(33, 4), Alg::OrecLazy, LIMITER, &Serve)
}

fn main(rt: HostRuntime) -> ExitCode {
    let Ok(came) = run(&rt, rt.alloc()) else {
        return ExitCode::from(4);
    };
    let counted = came.words[32];
    let handed = handed_out(&came.words);
    match println!(rt; "{handed} tokens were handed out, and {counted} counted") {
        Ok(()) => ExitCode::from(0),
        Err(_) => ExitCode::from(6),
    }
}
