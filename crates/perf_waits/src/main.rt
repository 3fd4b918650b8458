//! `perf_waits ALGORITHM VALUES PAUSE [switches]`: one caller hands so many values to another, each after a pause of so
//! many microseconds, and with `switches` a third installs one algorithm after the other meanwhile. For tools/hand-over
//! and tools/wait-times. Status 1 where a value was lost, 2 where the words are no such line,
//! 4 where memory is refused.
#![tactic(auto)]

mod hand;
mod plan;
mod words;

use crate::hand::{Came, Hand};
use crate::plan::{Plan, plan_of};
use std::alloc::AllocGlobal;
use std::env::{self, Env};
use std::io::Print;
use std::process::ExitCode;
use std::sync::Wait;
use std::thread::Threads;
use std::time::{Clock, Duration, Instant};
use stm_tx::AnyMem;
use tx_jobs::sizes::sizes;
use tx_start::memory::with_memory;

fn main(rt: HostRuntime) -> ExitCode {
    let Some(plan) = asked(&rt) else {
        return ExitCode::from(2);
    };
    run(&rt, plan)
}

/// What the command line asks for.
fn asked<R: Env + AllocGlobal>(rt: &R) -> Option<Plan> {
    let arguments: Vec<String> = env::args(rt).ok()?.collect(rt.alloc()).ok()?;
    let mut words: Vec<&str> = Vec::new(rt.alloc());
    for argument in arguments.as_slice() {
        words.push(argument.as_str()).ok()?;
    }
    plan_of(words.as_slice())
}

/// Runs it, and prints how many nanoseconds after the one caller's commit the other's was,
/// a line a value that was paused for.
fn run<R: AllocGlobal + Print + Threads + Wait + Clock + Sync>(rt: &R, plan: Plan) -> ExitCode {
    let Ok(since) = Instant::now(rt) else {
        return ExitCode::from(4);
    };
    let hand = Hand {
        rt,
        alloc: rt.alloc(),
        values: plan.values,
        pause: Duration::from_micros(plan.pause),
        since,
    };
    let config = sizes(1, if plan.switches { 3 } else { 2 });
    let Ok(closed) = with_memory(rt, rt.alloc(), config, plan.algorithm, AnyMem, &hand) else {
        return ExitCode::from(4);
    };
    match closed.answers.as_slice() {
        [put, taken, ..] if put.right && taken.right => tell(rt, put, taken),
        _ => ExitCode::from(1),
    }
}

fn tell<R: Print>(rt: &R, put: &Came, taken: &Came) -> ExitCode {
    for (from, to) in put.at.iter().zip(taken.at.iter()) {
        let nanos = to.saturating_sub(*from).as_nanos();
        if println!(rt; "{nanos}").is_err() {
            return ExitCode::from(4);
        }
    }
    ExitCode::from(0)
}
