//! A workload and a report, each a text of its own.
ghost use Rattle.std.specs.Prelude.{◌≤◌, ◌+◌, length, IfOk};
ghost use Rattle.work_text.specs.Grammar.{workload_of};
ghost use Rattle.work_text.specs.declared.parse.Mode.TheVariants.{Step};
ghost use Rattle.work_check.specs.Apart.{FindsApart, IsReportIn};
ghost use Rattle.work_check.specs.Checks.{IsPart};
ghost use Rattle.work_check.specs.declared.checking.TheConstants.{MOST_CHECKED};

use crate::checking::{Checked, check_parts};
use std::alloc::Global;
use stm_model::memory::Memory;
use work_text::lines;

/// The greatest number of bytes of a report and the trace above it.
pub const MOST_TOLD: usize = 150_994_944;

/// The report in what a step wrote, from its first line `report 1` on, and how many lines stand above it. A text
/// without such a line, or a longer one than [`MOST_TOLD`], is a report from its first line on.
pub fn report_in(told: &[u8]) -> (usize, &[u8])
    ensures within { result.0 + length result.1.now ≤ length told.now }
    ensures is { IsReportIn told.now result.0 result.1.now }
{
    if MOST_TOLD < told.len() {
        return (0, told);
    }
    let mut rest = told;
    let mut above = 0usize;
    while let Some(i) = lines::find(b'\n', rest) {
        if lines::is(&rest[..i], b"report 1") {
            return (above, rest);
        }
        rest = lines::past(rest, i);
        above += 1;
    }
    (0, told)
}

/// Checks the text of a workload, and another of a report, or of what a step wrote: its trace, which isn't looked at,
/// and its report. A fault of the workload comes before one of the report.
///
/// # Errors
/// Memory, where it is refused.
pub fn check_apart(alloc: Global, text: &[u8], told: &[u8]) -> Result<Checked, Memory>
    requires { length told.now ≤ MOST_CHECKED }
    ensures finding { IfOk result (λ c. FindsApart text.now told.now c.finding c.wanted) }
    ensures part { IfOk result (λ c. IsPart (workload_of Step text.now) c.part) }
{
    let (above, report) = report_in(told);
    check_parts(alloc, text, above, report)
}
