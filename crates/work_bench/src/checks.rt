//! What `check` writes.
ghost use Rattle.std.specs.Prelude.{◌≡◌, ◌≤◌, length, None, IfOk};
ghost use Rattle.work_check.specs.declared.checking.TheConstants.{MOST_CHECKED};
ghost use Rattle.work_bench.specs.Checks.{SaidOfAlone, SaidOfApart, SaidOfCheck};
ghost use Rattle.work_bench.specs.Messages.{refused_line};
ghost use Rattle.work_bench.specs.declared.status.Status.TheVariants.{Refused};

use crate::commands::Saying;
use crate::messages;
use crate::status::Status;
use crate::why::Why;
use std::alloc::Global;
use stm_model::memory::Memory;
use work_check::apart::check_apart;
use work_check::checking::{Finding, Part, check};
use work_check::wanted::Wanted;
use work_faults::fault::Fault;
use work_faults::laws::codes_are_faults;
use work_faults::report::{checked_fault, told_fault};
use work_faults::workload::workload_fault;
use work_faults::wrong::{wrong_line, wrong_line_of};
use work_text::parse::{Mode, ParseError, parse};

/// What is to be written of a check of a text, and what is wrong with it.
pub(crate) fn judge(alloc: Global, text: &[u8]) -> Result<Saying, Memory>
    requires { length text.now ≤ MOST_CHECKED }
    ensures said { IfOk result (λ s. SaidOfCheck text.now s.status s.text.items) }
    ensures closed { IfOk result (λ s. s.closed ≡ None) }
{
    codes_are_faults();
    let checked = check(alloc, text)?;
    match checked.finding {
        Finding::Yes => Ok(Saying::short(Status::Ok, messages::yes(alloc)?)),
        Finding::No { line } => Ok(Saying {
            status: Status::No { line },
            text: messages::no(alloc, line)?,
            closed: None,
            why: why_no(alloc, text, line, checked.wanted),
        }),
        Finding::Faulty { line, code } => {
            let fault = Fault::of(code);
            let why = checked_fault(alloc, text, checked.part, line, fault).ok();
            refused(alloc, line, fault, Why::of(Part::Workload, why))
        }
    }
}

/// The same of a workload and a report, each a text of its own.
pub(crate) fn judge_apart(alloc: Global, text: &[u8], told: &[u8]) -> Result<Saying, Memory>
    requires { length told.now ≤ MOST_CHECKED }
    ensures said { IfOk result (λ s. SaidOfApart text.now told.now s.status s.text.items) }
    ensures closed { IfOk result (λ s. s.closed ≡ None) }
{
    codes_are_faults();
    let checked = check_apart(alloc, text, told)?;
    match checked.finding {
        Finding::Yes => Ok(Saying::short(Status::Ok, messages::yes(alloc)?)),
        Finding::No { line } => Ok(Saying {
            status: Status::No { line },
            text: messages::no(alloc, line)?,
            closed: None,
            why: why_no_of(alloc, text, told, line, checked.wanted),
        }),
        Finding::Faulty { line, code } => {
            let fault = Fault::of(code);
            let why = why_refused(alloc, text, told, checked.part, line, fault);
            refused(alloc, line, fault, why)
        }
    }
}

/// The same of a workload alone.
pub(crate) fn judge_alone(alloc: Global, text: &[u8]) -> Result<Saying, Memory>
    ensures said { IfOk result (λ s. SaidOfAlone text.now s.status s.text.items) }
    ensures closed { IfOk result (λ s. s.closed ≡ None) }
{
    codes_are_faults();
    match parse(alloc, text, Mode::Step) {
        Ok(_) => Ok(Saying::short(Status::Ok, messages::yes(alloc)?)),
        Err(ParseError::Fault { line, code }) => {
            let fault = Fault::of(code);
            let why = workload_fault(alloc, Mode::Step, text, line, fault).ok();
            refused(alloc, line, fault, Why::of(Part::Workload, why))
        }
        Err(ParseError::Memory) => Err(Memory),
    }
}

/// What is to be written of a text's first fault.
pub(crate) fn refused(
    alloc: Global,
    line: usize,
    fault: Fault,
    why: Option<Why>,
) -> Result<Saying, Memory>
    ensures status { IfOk result (λ s. s.status ≡ Refused line fault) }
    ensures text { IfOk result (λ s. s.text.items ≡ refused_line line fault) }
    ensures closed { IfOk result (λ s. s.closed ≡ None) }
{
    Ok(Saying {
        status: Status::Refused { line, fault },
        text: messages::refused(alloc, line, fault)?,
        closed: None,
        why,
    })
}

/// What the replay wants on a line, in a sentence, where memory for it is there.
fn why_no(alloc: Global, text: &[u8], line: usize, wanted: Option<Wanted>) -> Option<Why> {
    Why::of(Part::Workload, wrong_line(alloc, text, line, wanted?).ok())
}

/// The same of a report in a text of its own.
fn why_no_of(
    alloc: Global,
    text: &[u8],
    told: &[u8],
    line: usize,
    wanted: Option<Wanted>,
) -> Option<Why> {
    Why::of(
        Part::Report,
        wrong_line_of(alloc, text, told, line, wanted?).ok(),
    )
}

/// What is wrong with the text of a workload, or another of a report.
fn why_refused(
    alloc: Global,
    text: &[u8],
    told: &[u8],
    part: Part,
    line: usize,
    fault: Fault,
) -> Option<Why> {
    match part {
        Part::Workload => Why::of(
            part,
            workload_fault(alloc, Mode::Step, text, line, fault).ok(),
        ),
        Part::Report => Why::of(part, told_fault(alloc, told, line, fault).ok()),
    }
}
