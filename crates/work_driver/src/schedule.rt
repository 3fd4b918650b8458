//! Turns of the workers of all callers, in the order of a schedule.
ghost use Rattle.std.specs.Prelude.{◌≡◌, ◌<◌, true, ◌∷◌, [], All, MatchResult, length, replicate};
ghost use Rattle.work_trace.specs.Turns.{MaySay};
ghost use Rattle.work_trace.specs.Fits.{turns};
ghost use Rattle.work_worker.specs.Workers.{Sound, Starved, Turned};
ghost use Rattle.work_driver.specs.AllWorkers.{worker_in, workers_in};
ghost use Rattle.work_driver.specs.Schedules.{AreSound, AreSame, Turns, Plays};

use crate::workers::Runner;
use crossbeam_utils::CachePadded;
use std::alloc::Global;
use stm_model::memory::Memory;
use stm_model::rule::MemRule;
use stm_rule::stm::Stm;
use work_script::workload::Go;
use work_trace::line::Line;
use work_trace::said::Said;
use work_worker::turnstile::Open;

/// Why turns ended early.
#[derive(Clone, Copy, Drop, Debug, PartialEq, Eq)]
pub enum Halt {
    /// A call found the clock at its limit.
    ClockFull { clock: u64 },
    /// Memory was refused: for longer logs, or for the trace.
    Memory,
}

/// One turn of a caller, and its line.
pub fn turn<K: MemRule>(
    alloc: Global,
    stm: &Stm<K>,
    runners: &mut [CachePadded<Runner<K>>],
    caller: usize,
    trace: &mut Vec<Line>,
) -> Result<(), Halt>
    requires sound { AreSound (K.good stm.now.rule) stm.now (workers_in runners.old) }
    requires below { caller < length (workers_in runners.old) }
    ensures sound { AreSound (K.good stm.now.rule) stm.now (workers_in runners.new) }
    ensures same { AreSame true (workers_in runners.old) (workers_in runners.new) }
    ensures turns { Turns (K.good stm.now.rule) stm.now (workers_in runners.old)
        (workers_in runners.new) trace.old.items trace.new.items caller result }
{
    let said = match turn_one(alloc, stm, &mut runners[caller]) {
        Ok(said) => said,
        Err(Memory) => return Err(Halt::Memory),
    };
    match trace.push(Line::Of { caller, said }) {
        Ok(()) => {}
        Err(_) => return Err(Halt::Memory),
    }
    match said.full_clock() {
        None => Ok(()),
        Some(clock) => Err(Halt::ClockFull { clock }),
    }
}

/// One turn of a worker.
fn turn_one<K: MemRule>(
    alloc: Global,
    stm: &Stm<K>,
    runner: &mut CachePadded<Runner<K>>,
) -> Result<Said, Memory>
    requires { Sound (K.good stm.now.rule) stm.now (worker_in runner.old) }
    ensures { MatchResult result (λ said.
        Turned (K.good stm.now.rule) stm.now MaySay (worker_in runner.old) said
        (worker_in runner.new)) (λ _.
        Starved (K.good stm.now.rule) stm.now (worker_in runner.old) (worker_in runner.new)) }
{
    let runner = &mut **runner;
    runner.worker.turn(alloc, stm, &Open)
}

/// The turns of a schedule.
pub fn play<K: MemRule>(
    alloc: Global,
    stm: &Stm<K>,
    runners: &mut [CachePadded<Runner<K>>],
    schedule: &[Go],
    trace: &mut Vec<Line>,
) -> Result<(), Halt>
    requires sound { AreSound (K.good stm.now.rule) stm.now (workers_in runners.old) }
    requires below { All (λ go. go.caller < length (workers_in runners.old)) schedule.now }
    ensures sound { AreSound (K.good stm.now.rule) stm.now (workers_in runners.new) }
    ensures same { AreSame true (workers_in runners.old) (workers_in runners.new) }
    ensures plays { Plays stm.now.config MaySay (workers_in runners.old) (workers_in runners.new)
        trace.old.items trace.new.items (turns schedule.now) result }
{
    for go in schedule {
        match turns_of(alloc, stm, runners, *go, trace) {
            Ok(()) => {}
            Err(halt) => return Err(halt),
        }
    }
    Ok(())
}

/// The turns of one line of the schedule.
fn turns_of<K: MemRule>(
    alloc: Global,
    stm: &Stm<K>,
    runners: &mut [CachePadded<Runner<K>>],
    go: Go,
    trace: &mut Vec<Line>,
) -> Result<(), Halt>
    requires sound { AreSound (K.good stm.now.rule) stm.now (workers_in runners.old) }
    requires below { go.caller < length (workers_in runners.old) }
    ensures sound { AreSound (K.good stm.now.rule) stm.now (workers_in runners.new) }
    ensures same { AreSame true (workers_in runners.old) (workers_in runners.new) }
    ensures plays { Plays stm.now.config MaySay (workers_in runners.old) (workers_in runners.new)
        trace.old.items trace.new.items (replicate go.turns go.caller) result }
{
    for _i in 0..go.turns {
        match turn(alloc, stm, runners, go.caller, trace) {
            Ok(()) => {}
            Err(halt) => return Err(halt),
        }
    }
    Ok(())
}
