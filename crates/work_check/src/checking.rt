//! A workload and a report in one text, checked.
ghost use Rattle.std.specs.Prelude.{◌≡◌, ◌≤◌, ◌<◌, ◌+◌, ◌^◌, length, None, IfOk};
ghost use Rattle.work_check.specs.Checks.{Finds, FindsWanted, FindsOf, FindsWantedOf, IsPart, pair_by, shifted};
ghost use Rattle.work_text.specs.Grammar.{workload_of};
ghost use Rattle.work_text.specs.Parting.{to_done};
ghost use Rattle.work_text.specs.declared.parse.Mode.TheVariants.{Step};
ghost use Rattle.work_check.specs.declared.checking.Finding.TheVariants.{Faulty};
ghost use Rattle.work_check.specs.declared.checking.TheConstants.{MOST_CHECKED};

use crate::laws::report_is_written;
use crate::reading::read_report;
use crate::replay::replay;
use crate::verdict::Verdict;
use crate::wanted::Wanted;
use std::alloc::Global;
use stm_model::memory::Memory;
use work_text::laws::{parsed_workloads_fit, text_is_parted};
use work_text::parse::{Mode, ParseError, parse};
use work_text::parting::{count_lines, part_at_done};

/// The greatest number of bytes of a text that is checked: one more than its two parts may have together.
pub const MOST_CHECKED: usize = 150_994_945;

/// What a check of a text comes to. Lines count from 1 in the whole text.
#[derive(Clone, Copy, Drop, Debug, PartialEq, Eq)]
pub enum Finding {
    /// A workload, and after its line `done` a report that replays it.
    Yes,
    /// A workload and a report that doesn't replay it: the first line at fault.
    No { line: usize },
    /// Not a workload and a report: the first line at fault, and in it the lowest code; line 0 for a part that is too
    /// long.
    Faulty { line: usize, code: u32 },
}

/// Which of the two texts a finding is of.
#[derive(Clone, Copy, Drop, Debug, PartialEq, Eq)]
pub enum Part {
    Workload,
    Report,
}

/// A finding, the text that it is of, and of a `No` what the replay wants on that line.
#[derive(Drop, Debug)]
pub struct Checked {
    pub finding: Finding,
    pub part: Part,
    pub wanted: Option<Wanted>,
}

impl Checked {
    /// Of texts that aren't a workload and a report.
    fn faulty(part: Part, line: usize, code: u32) -> Checked
        ensures finding { result.finding ≡ Faulty line code }
        ensures part { result.part ≡ part }
        ensures wanted { result.wanted ≡ None }
    {
        Checked {
            finding: Finding::Faulty { line, code },
            part,
            wanted: None,
        }
    }
}

/// Checks a text that is a workload up to its first line `done`, and a report after that line. A schedule is read past.
/// A fault of the workload comes before one of the report.
///
/// # Errors
/// Memory, where it is refused.
pub fn check(alloc: Global, text: &[u8]) -> Result<Checked, Memory>
    requires { length text.now ≤ MOST_CHECKED }
    ensures finding { IfOk result (λ c. Finds text.now c.finding) }
    ensures wanted { IfOk result (λ c. FindsWanted text.now c.finding c.wanted) }
    ensures part { IfOk result (λ c. IsPart (workload_of Step (to_done text.now)) c.part) }
{
    text_is_parted();
    let (head, behind) = part_at_done(text);
    check_parts(alloc, head, count_lines(head), behind)
}

/// Checks the text of a workload, and that of a report, which has so many lines above it.
///
/// # Errors
/// Memory, where it is refused.
pub(crate) fn check_parts(
    alloc: Global,
    head: &[u8],
    above: usize,
    behind: &[u8],
) -> Result<Checked, Memory>
    requires { above + length behind.now + 2 < 2 ^ 64 }
    ensures finding { IfOk result (λ c. FindsOf (pair_by head.now above behind.now) above c.finding) }
    ensures wanted { IfOk result (λ c.
        FindsWantedOf (pair_by head.now above behind.now) c.finding c.wanted) }
    ensures part { IfOk result (λ c. IsPart (workload_of Step head.now) c.part) }
{
    parsed_workloads_fit();
    report_is_written();
    let workload = match parse(alloc, head, Mode::Step) {
        Ok(workload) => workload,
        Err(ParseError::Fault { line, code }) => {
            return Ok(Checked::faulty(Part::Workload, line, code));
        }
        Err(ParseError::Memory) => return Err(Memory),
    };
    let report = match read_report(alloc, behind) {
        Ok(report) => report,
        Err(ParseError::Fault { line, code }) => {
            return Ok(Checked::faulty(Part::Report, shifted(above, line), code));
        }
        Err(ParseError::Memory) => return Err(Memory),
    };
    let judged = replay(alloc, &workload, &report)?;
    let finding = match judged.verdict {
        Verdict::Yes => Finding::Yes,
        Verdict::No { line } => Finding::No { line: above + line },
    };
    Ok(Checked {
        finding,
        part: Part::Report,
        wanted: judged.wanted,
    })
}

/// A line of the report, as one of a text that has so many lines above the report; line 0 stands for the whole report.
fn shifted(above: usize, line: usize) -> usize
    requires { above + line < 2 ^ 64 }
    ensures { result ≡ shifted above line }
{
    if line == 0 { 0 } else { above + line }
}
