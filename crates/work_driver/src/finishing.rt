//! After a schedule: what is open ends, and then each caller goes on until nothing is left.
ghost use Rattle.std.specs.Prelude.{◌≡◌, ◌<◌, true, [], ◌∷◌, All, MatchBool, MatchOption, length};
ghost use Rattle.work_trace.specs.Turns.{MayWind};
ghost use Rattle.work_worker.specs.Leavings.{HasOnlyIrrevocableOpen, NothingToGiveUp, GaveUp};
ghost use Rattle.work_worker.specs.Workers.{Sound, place_of};
ghost use Rattle.work_driver.specs.AllWorkers.{worker_in, workers_in};
ghost use Rattle.work_driver.specs.Schedules.{AreSound, AreSame, Goes, Rounds, Drives, place_at};
ghost use Rattle.work_driver.specs.Untils.{may_until, stands_until, ready_until};

use crate::schedule::{Halt, play, turn};
use crate::workers::Runner;
use crossbeam_utils::CachePadded;
use std::alloc::Global;
use std::sync::Wait;
use stm_model::rule::MemRule;
use stm_rule::stm::Stm;
use work_script::workload::Go;
use work_trace::line::Line;
use work_trace::said::Said;
use work_worker::leaving::{give_up, has_nothing_open, is_over};

/// How far each caller goes on once the schedule is over.
#[derive(Clone, Copy, Drop, Debug, PartialEq, Eq)]
pub enum Until {
    /// No attempt and no closing is open: what can be given up is, and an attempt that can't be cancelled goes
    /// on to its end.
    NothingOpen,
    /// Nothing is left to do.
    NothingLeft,
}

/// The turns of a schedule, `finish`, the ends of attempts and closings, and the turns until nothing is left.
///
/// `rt` is the runtime value that waiting calls take: a turn that does not get the memory is taken again, for
/// as long as it takes.
pub fn drive<R: Wait, K: MemRule>(
    rt: &R,
    alloc: Global,
    stm: &Stm<K>,
    runners: &mut [CachePadded<Runner<K>>],
    schedule: &[Go],
    trace: &mut Vec<Line>,
) -> Result<(), Halt>
    requires sound { AreSound (K.good stm.now.rule) stm.now (workers_in runners.old) }
    requires below { All (λ go. go.caller < length (workers_in runners.old)) schedule.now }
    requires empty { trace.old.items ≡ [] }
    ensures sound { AreSound (K.good stm.now.rule) stm.now (workers_in runners.new) }
    ensures same { AreSame true (workers_in runners.old) (workers_in runners.new) }
    ensures drives { Drives stm.now.config schedule.now (workers_in runners.old)
        (workers_in runners.new) trace.new.items result }
{
    match play(alloc, stm, runners, schedule, trace) {
        Ok(()) => {}
        Err(halt) => return Err(halt),
    }
    match trace.push(Line::Finish) {
        Ok(()) => {}
        Err(_) => return Err(Halt::Memory),
    }
    match round(rt, alloc, stm, runners, Until::NothingOpen, trace) {
        Ok(()) => {}
        Err(halt) => return Err(halt),
    }
    round(rt, alloc, stm, runners, Until::NothingLeft, trace)
}

/// Each caller's turns until it stands so: one caller after the other.
fn round<R: Wait, K: MemRule>(
    rt: &R,
    alloc: Global,
    stm: &Stm<K>,
    runners: &mut [CachePadded<Runner<K>>],
    until: Until,
    trace: &mut Vec<Line>,
) -> Result<(), Halt>
    requires sound { AreSound (K.good stm.now.rule) stm.now (workers_in runners.old) }
    ensures sound { AreSound (K.good stm.now.rule) stm.now (workers_in runners.new) }
    ensures same { AreSame true (workers_in runners.old) (workers_in runners.new) }
    ensures rounds { Rounds stm.now.config (may_until until) (stands_until until)
        (workers_in runners.old) (workers_in runners.new) trace.old.items trace.new.items result }
{
    for caller in 0..runners.len() {
        match turns_of_caller(rt, alloc, stm, runners, caller, until, trace) {
            Ok(()) => {}
            Err(halt) => return Err(halt),
        }
    }
    Ok(())
}

/// The caller's turns until it stands so, after what it gives up.
fn turns_of_caller<R: Wait, K: MemRule>(
    rt: &R,
    alloc: Global,
    stm: &Stm<K>,
    runners: &mut [CachePadded<Runner<K>>],
    caller: usize,
    until: Until,
    trace: &mut Vec<Line>,
) -> Result<(), Halt>
    requires sound { AreSound (K.good stm.now.rule) stm.now (workers_in runners.old) }
    requires below { caller < length (workers_in runners.old) }
    ensures sound { AreSound (K.good stm.now.rule) stm.now (workers_in runners.new) }
    ensures same { AreSame true (workers_in runners.old) (workers_in runners.new) }
    ensures goes { Goes stm.now.config (may_until until) (stands_until until)
        (workers_in runners.old) (workers_in runners.new) trace.old.items trace.new.items caller
        result }
{
    match make_ready(stm, runners, caller, until, trace) {
        Ok(()) => {}
        Err(halt) => return Err(halt),
    }
    turns_until(rt, alloc, stm, runners, caller, until, trace)
}

/// Before the turns until nothing is open: what can be given up is.
fn make_ready<K: MemRule>(
    stm: &Stm<K>,
    runners: &mut [CachePadded<Runner<K>>],
    caller: usize,
    until: Until,
    trace: &mut Vec<Line>,
) -> Result<(), Halt>
    requires sound { AreSound (K.good stm.now.rule) stm.now (workers_in runners.old) }
    requires below { caller < length (workers_in runners.old) }
    ensures sound { AreSound (K.good stm.now.rule) stm.now (workers_in runners.new) }
    ensures same { AreSame true (workers_in runners.old) (workers_in runners.new) }
    ensures goes { Goes stm.now.config (may_until until) (ready_until until)
        (workers_in runners.old) (workers_in runners.new) trace.old.items trace.new.items caller
        result }
{
    match until {
        Until::NothingOpen => give_up_open(stm, runners, caller, trace),
        Until::NothingLeft => Ok(()),
    }
}

/// Gives up what the caller has open, where that can be, and the line of it.
fn give_up_open<K: MemRule>(
    stm: &Stm<K>,
    runners: &mut [CachePadded<Runner<K>>],
    caller: usize,
    trace: &mut Vec<Line>,
) -> Result<(), Halt>
    requires sound { AreSound (K.good stm.now.rule) stm.now (workers_in runners.old) }
    requires below { caller < length (workers_in runners.old) }
    ensures sound { AreSound (K.good stm.now.rule) stm.now (workers_in runners.new) }
    ensures same { AreSame true (workers_in runners.old) (workers_in runners.new) }
    ensures goes { Goes stm.now.config MayWind HasOnlyIrrevocableOpen (workers_in runners.old)
        (workers_in runners.new) trace.old.items trace.new.items caller result }
{
    match give_up_one(stm, &mut runners[caller]) {
        None => Ok(()),
        Some(said) => match trace.push(Line::Of { caller, said }) {
            Ok(()) => Ok(()),
            Err(_) => Err(Halt::Memory),
        },
    }
}

/// Gives up what the worker has open, where that can be.
fn give_up_one<K: MemRule>(stm: &Stm<K>, runner: &mut CachePadded<Runner<K>>) -> Option<Said>
    requires { Sound (K.good stm.now.rule) stm.now (worker_in runner.old) }
    ensures { MatchOption result (NothingToGiveUp (K.good stm.now.rule) stm.now
        (worker_in runner.old) (worker_in runner.new)) (λ said.
        GaveUp (K.good stm.now.rule) stm.now (worker_in runner.old) said (worker_in runner.new)) }
{
    let runner = &mut **runner;
    give_up(stm, &mut runner.worker)
}

/// The caller's turns until it stands so.
fn turns_until<R: Wait, K: MemRule>(
    rt: &R,
    alloc: Global,
    stm: &Stm<K>,
    runners: &mut [CachePadded<Runner<K>>],
    caller: usize,
    until: Until,
    trace: &mut Vec<Line>,
) -> Result<(), Halt>
    requires sound { AreSound (K.good stm.now.rule) stm.now (workers_in runners.old) }
    requires below { caller < length (workers_in runners.old) }
    requires ready { ready_until until (place_at (workers_in runners.old) caller) }
    ensures sound { AreSound (K.good stm.now.rule) stm.now (workers_in runners.new) }
    ensures same { AreSame true (workers_in runners.old) (workers_in runners.new) }
    ensures goes { Goes stm.now.config (may_until until) (stands_until until)
        (workers_in runners.old) (workers_in runners.new) trace.old.items trace.new.items caller
        result }
{
    for _ in rt.forever() {
        if stands(until, &runners[caller]) {
            return Ok(());
        }
        match turn(alloc, stm, runners, caller, trace) {
            Ok(()) => {}
            Err(halt) => return Err(halt),
        }
    }
    unreachable!()
}

/// The caller stands so.
fn stands<K: MemRule>(until: Until, runner: &CachePadded<Runner<K>>) -> bool
    ensures { MatchBool result (stands_until until (place_of (worker_in runner.now)))
        (stands_until until (place_of (worker_in runner.now)) → ⊥) }
{
    match until {
        Until::NothingOpen => has_nothing_open(&runner.worker),
        Until::NothingLeft => is_over(&runner.worker),
    }
}
