//! All workers at once, each on a thread of its own.
ghost use Rattle.std.specs.Prelude.{◌≡◌, ◌<◌, ℕ, false, All, length, slice_index_or};
ghost use Rattle.crossbeam_utils.specs.declared.cache_padded.CachePadded.{CachePadded};
ghost use Rattle.work_trace.specs.declared.said.Phase.TheVariants.{Between};
ghost use Rattle.work_worker.specs.Workers.{IsSame, Sound};
ghost use Rattle.work_driver.specs.declared.workers.Runner.{Runner};
ghost use Rattle.work_driver.specs.AllWorkers.{IsThrough, IsReady, IsCovered, Finished};

use crate::schedule::Halt;
use crate::workers::Runner;
use crossbeam_utils::CachePadded;
use std::alloc::Global;
use std::sync::Wait;
use std::thread;
use std::thread::Threads;
use stm_answers::answers::{Begin, CloseGate, Commit, Irrev, Look};
use stm_model::memory::Memory;
use stm_model::rule::MemRule;
use stm_model::stop::Stop;
use stm_rule::stm::Stm;
use tx_backoff::Backoff;
use work_trace::said::{Phase, Said};
use work_worker::turnstile::Turnstile;
use work_worker::worker::Worker;

/// Runs all workers, each to its end or to the clock's limit, on as many threads as there are workers.
pub fn run_all<R: Threads + Wait + Sync, K: MemRule + Send + Sync, G: Turnstile + Sync>(
    rt: &R,
    alloc: Global,
    stm: &Stm<K>,
    turnstile: &G,
    runners: &mut [CachePadded<Runner<K>>],
)
    requires some { 0 < length runners.old }
    requires ready { All (IsReady (K.good stm.now.rule) stm.now) runners.old }
    ensures count { length runners.new ≡ length runners.old }
    ensures done { (i : ℕ) (d : CachePadded (Runner K)) → i < length runners.old
        → Finished (K.good stm.now.rule) stm.now (slice_index_or runners.old i d)
        (slice_index_or runners.new i d) }
{
    let threads = runners.len();
    thread::for_each_mut(
        rt,
        runners,
        threads,
        &|_, runner| { run_one(rt, alloc, stm, turnstile, runner) },
    );
}

/// Runs one worker.
fn run_one<R: Wait, K: MemRule, G: Turnstile>(
    rt: &R,
    alloc: Global,
    stm: &Stm<K>,
    turnstile: &G,
    runner: &mut CachePadded<Runner<K>>,
)
    requires { IsReady (K.good stm.now.rule) stm.now runner.old }
    ensures { Finished (K.good stm.now.rule) stm.now runner.old runner.new }
{
    let runner = &mut **runner;
    runner.how = work(rt, alloc, stm, turnstile, &mut runner.worker);
}

/// Turns until nothing is left, or a call finds the clock at its limit, or a `reserve` finds no memory. A call that
/// another caller stood in the way of is made again after a pause.
fn work<R: Wait, K: MemRule, G: Turnstile>(
    rt: &R,
    alloc: Global,
    stm: &Stm<K>,
    turnstile: &G,
    w: &mut Worker<K>,
) -> Result<(), Halt>
    requires sound { Sound (K.good stm.now.rule) stm.now w.old }
    ensures sound { Sound (K.good stm.now.rule) stm.now w.new }
    ensures same { IsSame false w.old w.new }
    ensures between { w.new.phase ≡ Phase.Between }
    ensures through { IsThrough w.new result }
    ensures covered { IsCovered stm.now w.old w.new }
{
    let mut backoff = Backoff::new();
    for _ in rt.forever() {
        let said = match w.turn(alloc, stm, turnstile) {
            Ok(said) => said,
            Err(Memory) => return Err(Halt::Memory),
        };
        if let Said::Idle = said {
            return Ok(());
        }
        if let Some(clock) = said.full_clock() {
            return Err(Halt::ClockFull { clock });
        }
        pause(&mut backoff, said);
    }
    unreachable!()
}

/// Pauses where another caller stood in the way of the call, longer where a lock was held.
fn pause(backoff: &mut Backoff, said: Said) {
    match said {
        Said::TryBegin(Begin::Held { .. }) => backoff.wait_for_lock(),
        Said::TryBegin(Begin::Closed { .. })
        | Said::Stopped(_, Stop::Conflict(_))
        | Said::TryIrrevocable(Irrev::Busy { .. } | Irrev::Taken { .. } | Irrev::Conflict(_))
        | Said::TryCommit(Commit::Again { .. } | Commit::Conflict(_))
        | Said::TryClose(CloseGate::Taken { .. })
        | Said::Looked(Look::Busy { .. }) => backoff.wait(),
        _ => backoff.reset(),
    }
}
