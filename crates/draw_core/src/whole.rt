//! A text that is drawn: a trace alone, or a workload and then its trace.
ghost use Rattle.std.specs.Prelude.{◌≡◌, ◌<◌, ◌^◌, length, IfOk, IfErr, option_map};
ghost use Rattle.work_text.specs.Grammar.{workload_of};
ghost use Rattle.work_text.specs.Lines.{lines_of};
ghost use Rattle.work_text.specs.declared.parse.Mode.TheVariants.{Step as Stepwise};
ghost use Rattle.draw_core.specs.Grammar.{trace_of};
ghost use Rattle.draw_core.specs.Whole.{both, follows, has_workload, steps_of, IsPageFor, IsStepsFault};

use crate::reading::{MOST_DRAWN, ReadError, walk_trace};
use crate::walk::{StepsError, Walk};
use draw_pictures::page::Page;
use draw_pictures::part::Part;
use std::alloc::Global;
use work_faults::fault::Fault;
use work_script::workload::Workload;
use work_text::parse::{Mode, ParseError, parse};
use work_text::parting::{count_lines, part_at_done};

/// Whether a text has a workload above its trace.
pub fn has_workload(text: &[u8]) -> bool
    ensures { result ≡ has_workload text.now }
{
    text.starts_with(b"stm")
}

/// What is drawn of this part of the trace of a text, whose lines tell of operations where a workload stands above the
/// trace.
///
/// # Errors
/// `Workload`, `Trace` or `Unfit` with the first line at fault, `Memory` where it is refused.
pub fn read_page(alloc: Global, text: &[u8], part: Part) -> Result<Page, StepsError>
    ensures told { IfOk result (λ p. IsPageFor p (steps_of text.now)) }
    ensures part { IfOk result (λ p. p.part ≡ part) }
    ensures few { IfOk result (λ p. p.count < 2 ^ 62) }
    ensures fault { IfErr result (λ e. IsStepsFault e (steps_of text.now)) }
{
    if MOST_DRAWN < text.len() {
        return Err(StepsError::Trace { line: 0 });
    }
    if has_workload(text) {
        let (head, behind) = part_at_done(text);
        return read_both(alloc, head, behind, part);
    }
    follow(alloc, None, 0, text, part)
}

/// A workload's text, and then that of its trace.
fn read_both(alloc: Global, head: &[u8], behind: &[u8], part: Part) -> Result<Page, StepsError>
    ensures told { IfOk result (λ p.
        IsPageFor p (both (workload_of Stepwise head.now) (length (lines_of head.now)) (trace_of behind.now))) }
    ensures part { IfOk result (λ p. p.part ≡ part) }
    ensures few { IfOk result (λ p. p.count < 2 ^ 62) }
    ensures fault { IfErr result (λ e.
        IsStepsFault e
        (both (workload_of Stepwise head.now) (length (lines_of head.now)) (trace_of behind.now))) }
{
    match parse(alloc, head, Mode::Step) {
        Ok(workload) => follow(alloc, Some(&workload), count_lines(head), behind, part),
        Err(ParseError::Fault { line, code }) => Err(StepsError::Workload {
            line,
            fault: Fault::of(code),
        }),
        Err(ParseError::Memory) => Err(StepsError::Memory),
    }
}

/// What is drawn of a trace, along its workload where there is one, below so many lines.
fn follow(
    alloc: Global,
    workload: Option<&Workload>,
    above: usize,
    text: &[u8],
    part: Part,
) -> Result<Page, StepsError>
    requires { above < 2 ^ 61 }
    ensures told { IfOk result (λ p.
        IsPageFor p (follows (option_map (λ w. w.now) workload.entry) above (trace_of text.now))) }
    ensures part { IfOk result (λ p. p.part ≡ part) }
    ensures few { IfOk result (λ p. p.count < 2 ^ 62) }
    ensures fault { IfErr result (λ e.
        IsStepsFault e (follows (option_map (λ w. w.now) workload.entry) above (trace_of text.now))) }
{
    let mut walk = Walk::new(alloc, workload, above, part)?;
    match walk_trace(alloc, text, &mut walk) {
        Ok(()) => walk.into_page(),
        Err(ReadError::Refused { line }) => Err(StepsError::Trace {
            line: above.saturating_add(line),
        }),
        Err(ReadError::Memory) => Err(StepsError::Memory),
    }
}
