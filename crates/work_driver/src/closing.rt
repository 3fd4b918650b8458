//! The end of a run, whatever it came to: the memory is closed.
ghost use Rattle.std.specs.Prelude.{◌≡◌, All, IsPermutation, length, IfErr, IfOk, OnOk};
ghost use Rattle.work_script.specs.declared.report.Report.{Report};
ghost use Rattle.work_trace.specs.declared.said.Phase.TheVariants.{Between};
ghost use Rattle.work_worker.specs.declared.worker.Worker.{Worker};
ghost use Rattle.work_worker.specs.Leavings.{MadeIdle};
ghost use Rattle.work_worker.specs.Workers.{Sound};
ghost use Rattle.work_driver.specs.AllWorkers.{AreCallers, AreMadeIdle, worker_in, workers_in, rows_of};
ghost use Rattle.work_driver.specs.Schedules.{AreSound};
ghost use Rattle.work_driver.specs.ClosedRuns.{Came, IsReport};
ghost use Rattle.work_driver.specs.Preparings.{HasRoom};

use crate::order::order;
use crate::outcome::RunOutcome;
use crate::preparing::Room;
use crate::schedule::Halt;
use crate::workers::{Runner, take_apart};
use crossbeam_utils::CachePadded;
use std::alloc::Global;
use stm_model::memory::Memory;
use stm_model::rule::MemRule;
use stm_rule::closing::close_into;
use stm_rule::stm::Stm;
use work_script::pairs::pairs;
use work_script::report::{Report, Row, Rows};
use work_worker::leaving::make_idle;

/// Ends what is open without a row, and closes the memory, whatever happens: `room` is there for it. `how` is how the
/// turns ended.
pub fn close_memory<K: MemRule + Drop>(
    alloc: Global,
    stm: Stm<K>,
    mut runners: Vec<CachePadded<Runner<K>>>,
    room: Room<K>,
    how: Result<(), Halt>,
) -> RunOutcome
    requires sound { AreSound (K.good stm.rule) stm (workers_in runners.items) }
    requires callers { AreCallers 0 (workers_in runners.items) }
    requires all { length (workers_in runners.items) ≡ stm.config.callers }
    requires through { OnOk how
        (All (λ (w : Worker K). w.phase ≡ Between) (workers_in runners.items)) }
    requires room { HasRoom (length (workers_in runners.items))
        (length (rows_of (workers_in runners.items))) stm.config.words room }
    ensures { Came (K.good stm.rule) stm (workers_in runners.entry.items) how result }
{
    make_all_idle(&stm, runners.as_mut_slice());
    let Room {
        mut descs,
        mut lists,
        mut rows,
        mut words,
    } = room;
    take_apart(runners, &mut descs, &mut lists, &mut rows);
    let closed = close_into(stm, descs, &mut words);
    match how {
        Ok(()) => match report_of(alloc, rows, words.as_slice()) {
            Ok(report) => RunOutcome::ToEnd { report, closed },
            Err(Memory) => RunOutcome::OutOfMemory { closed },
        },
        Err(halt) => match halt {
            Halt::ClockFull { clock } => RunOutcome::ToLimit { clock, closed },
            Halt::Memory => RunOutcome::OutOfMemory { closed },
        },
    }
}

/// Leaves every descriptor idle.
fn make_all_idle<K: MemRule>(stm: &Stm<K>, runners: &mut [CachePadded<Runner<K>>])
    requires { AreSound (K.good stm.now.rule) stm.now (workers_in runners.old) }
    ensures { AreMadeIdle (K.good stm.now.rule) stm.now (workers_in runners.old)
        (workers_in runners.new) }
{
    for runner in runners.iter_mut() {
        idle_one(stm, runner);
    }
}

/// Leaves one descriptor idle.
fn idle_one<K: MemRule>(stm: &Stm<K>, runner: &mut CachePadded<Runner<K>>)
    requires { Sound (K.good stm.now.rule) stm.now (worker_in runner.old) }
    ensures { MadeIdle (K.good stm.now.rule) stm.now (worker_in runner.old) (worker_in runner.new) }
{
    let runner = &mut **runner;
    make_idle(stm, &mut runner.worker);
}

/// The report of these rows and of the memory that has these words.
fn report_of(alloc: Global, mut rows: Vec<Row>, words: &[u64]) -> Result<Report, Memory>
    ensures is { IfOk result (IsReport rows.items words.now) }
    ensures refused { IfErr result (λ e. (report : Report) × IsReport rows.items words.now report) }
{
    order(rows.as_mut_slice());
    let memory = pairs(alloc, words)?;
    let rows = Rows::new(rows);
    Ok(Report { rows, memory })
}
