//! Laws of the definitions, each the contract of a function.
ghost use Rattle.draw_core.specs.Statements.{TraceIsDrawn, StepIsDrawn};

use work_check::laws::report_is_read;

/// Each trace whose callers are such as a workload may have, and whose numbers are words of the machine, is read with
/// what follows it, and its drawing has one box for each of its lines.
pub fn trace_is_drawn()
    ensures { TraceIsDrawn }
{
    report_is_read();
}

/// So is each trace that fits a workload, as `step` writes it: with its report, or up to a full clock.
pub fn step_is_drawn()
    ensures { StepIsDrawn }
{
    report_is_read();
}
