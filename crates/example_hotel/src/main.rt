//! The guests of `example_hotel_jobs` under each algorithm: the rounds that were done, and what they left.
#![tactic(auto)]

ghost use Rattle.std.specs.Prelude.{◌≡◌, ◌<◌, ◌≤◌, ℕ, length, slice_index_or, IfOk};
ghost use Rattle.nekchhaul.specs.Limits.{CLOCK_LIMIT};
ghost use Rattle.example_hotel_jobs.specs.Hotels.{IsOrderly};

use example_hotel_jobs::Stay;
use example_hotel_jobs::hotel::Hotel;
use nekchhaul::{ALGORITHMS, Alg, ClosedMemory, Evidence, NewError, Rounds, sizes, with_memory};
use std::alloc::Global;
use std::process::ExitCode;
use std::sync::Wait;
use std::thread::Threads;

/// How many rounds each caller does.
const ROUNDS: usize = 200;

/// Has three guests stay, and one caller audit, under this algorithm.
///
/// # Errors
/// Memory, where it is refused.
fn run<R: Threads + Wait + Sync>(
    rt: &R,
    alloc: Global,
    alg: Alg,
) -> Result<ClosedMemory<usize, Evidence>, NewError>
    ensures orderly { IfOk result (λ came. IsOrderly came.words.items) }
    ensures count { IfOk result (λ came. length came.words.items ≡ 18) }
    ensures rounds { IfOk result (λ came.
        (i : ℕ) (d : ℕ) → i < 4 → slice_index_or came.answers.items i d < 200
        → CLOCK_LIMIT ≤ came.past.closed.clock) }
{
    let stays = Rounds {
        count: ROUNDS,
        each: Stay,
    };
    with_memory(rt, alloc, sizes(18, 4), alg, Hotel, &stays)
}

fn main(rt: HostRuntime) -> ExitCode {
    for alg in ALGORITHMS {
        let Ok(came) = run(&rt, rt.alloc(), alg) else {
            return ExitCode::from(4);
        };
        let mut rounds: usize = 0;
        for done in &came.answers {
            rounds = rounds.wrapping_add(*done);
        }
        let name = alg.name();
        let taken = came.words[16];
        let out = came.words[17];
        let line = println!(rt;
            "{name}: {rounds} rounds; {taken} rooms are taken, and {out} keys out"
        );
        if line.is_err() {
            return ExitCode::from(6);
        }
    }
    ExitCode::from(0)
}
