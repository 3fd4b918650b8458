//! `step`: the transactions of all callers, in the turns of a schedule, and their trace.
ghost use Rattle.std.specs.Prelude.{◌≡◌};
ghost use Rattle.work_script.specs.declared.workload.Workload.{Workload};
ghost use Rattle.work_text.specs.declared.parse.Mode.TheVariants.{Step};
ghost use Rattle.work_driver.specs.Preparings.{IsReadyFor};
ghost use Rattle.work_driver.specs.Runs.{HasStepped};

use crate::closing::close_memory;
use crate::finishing::drive;
use crate::outcome::RunOutcome;
use crate::preparing::Prepared;
use std::alloc::Global;
use std::sync::Wait;
use stm_model::rule::MemRule;
use work_script::laws::report_replays;
use work_script::workload::Go;
use work_text::laws::parsed_workloads_fit;
use work_trace::line::Line;

/// Runs the transactions of all callers in the turns of the workload's schedule, and then each caller's to
/// their end: the trace, and what the run came to; caller 0 switches besides by the text's policy. Where memory is
/// refused, for longer logs, for the trace between two turns or for the report's pairs, the run ends with
/// [`RunOutcome::OutOfMemory`].
pub fn step<R: Wait, K: MemRule + Drop>(
    rt: &R,
    alloc: Global,
    prepared: Prepared<K>,
    schedule: &[Go],
) -> (Vec<Line>, RunOutcome)
    requires ready { (w : Workload)
        × IsReadyFor (K.good prepared.stm.rule) Step w.header.policy w prepared
        × (schedule.now ≡ w.schedule) }
    ensures { (w : Workload)
        → IsReadyFor (K.good prepared.entry.stm.rule) Step w.header.policy w prepared.entry
        → schedule.now ≡ w.schedule → HasStepped w result.0.items result.1 }
{
    let Prepared {
        stm,
        mut runners,
        room,
    } = prepared;
    parsed_workloads_fit();
    report_replays(&stm.rule);
    let mut lines = Vec::new(alloc);
    let how = drive(
        rt,
        alloc,
        &stm,
        runners.as_mut_slice(),
        schedule,
        &mut lines,
    );
    let outcome = close_memory(alloc, stm, runners, room, how);
    (lines, outcome)
}
