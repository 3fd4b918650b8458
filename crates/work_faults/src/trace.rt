//! The fault of a text that isn't one that `step` writes.
ghost use Rattle.std.specs.Prelude.{◌≤◌, IfOk, string_len};

use crate::at::At;
use crate::report::report_fault;
use crate::sentence::{Parts, told, too_long};
use std::alloc::{AllocError, Global};
use stm_model::memory::Memory;
use work_check::words::first_word;
use work_forms::shown::{first_line, from_line, is_ended};
use work_text::lines;
use work_text::parting::{count_lines, part_at_done};

/// What may stand on a line of a trace.
const TURNS: &str =
    "a turn, as `0 begin CGL` or `1 read 5`, or `finish`, or then `report 1` or `clock full C`";

/// What stands above a line.
#[derive(Clone, Copy, Drop)]
enum Part {
    /// Lines of a trace alone.
    Trace,
    /// The first line of a report, which is the line of this number.
    Report(usize),
    /// `clock full C`.
    Closed,
}

/// What is wrong with a text that isn't one that `step` writes, at the line of this number, counted from 1, or 0 where
/// it is too long.
///
/// # Errors
/// Memory, where it is refused.
pub fn trace_fault(alloc: Global, text: &[u8], line: usize, most: usize) -> Result<String, Memory>
    ensures { IfOk result (λ s. string_len s ≤ 200) }
{
    fault_below(alloc, text, 0, line, most)
}

/// The same of a trace below its workload; lines count through both, and line 0 is of the whole.
///
/// # Errors
/// Memory, where it is refused.
pub fn traced_fault(alloc: Global, text: &[u8], line: usize, most: usize) -> Result<String, Memory>
    ensures { IfOk result (λ s. string_len s ≤ 200) }
{
    let (head, behind) = part_at_done(text);
    let above = count_lines(head);
    if line <= above {
        return trace_fault(alloc, text, 0, most);
    }
    fault_below(alloc, behind, above, line - above, most)
}

/// What is wrong with a line of a trace that may not come where its caller stands in the workload above it, by what its
/// reader knows: why, and what may stand there.
///
/// # Errors
/// Memory, where it is refused.
pub fn unfit_line(
    alloc: Global,
    text: &[u8],
    line: usize,
    why: &str,
    may: &str,
) -> Result<String, Memory>
    ensures { IfOk result (λ s. string_len s ≤ 200) }
{
    let (head, behind) = part_at_done(text);
    let above = count_lines(head);
    let number = line.saturating_sub(above);
    let mut parts = Parts::of(alloc, line_at(above, number))?;
    parts.put(why, may)?;
    let bytes = first_line(from_line(behind, number));
    Ok(told(alloc, &parts, Some(bytes), 0)?)
}

/// Where a line of a trace stands that has so many lines above it.
fn line_at(above: usize, number: usize) -> At {
    At::below(above, number, "trace")
}

/// What is wrong with a line of a trace that has so many lines above it.
fn fault_below(
    alloc: Global,
    text: &[u8],
    above: usize,
    line: usize,
    most: usize,
) -> Result<String, Memory>
    ensures { IfOk result (λ s. string_len s ≤ 200) }
{
    if line == 0 {
        return Ok(too_long(alloc, "text", most, "one")?);
    }
    let (part, rest) = part_of(text, line);
    match part {
        Part::Report(first) => {
            let number = line.saturating_sub(first).saturating_add(1);
            let above = above.saturating_add(first).saturating_sub(1);
            Ok(report_fault(alloc, rest, above, number)?.sentence(alloc)?)
        }
        Part::Closed | Part::Trace => Ok(told_trace(alloc, part, rest, above, line)?),
    }
}

/// What is wrong with a line of a trace; the text begins there.
fn told_trace(
    alloc: Global,
    part: Part,
    rest: &[u8],
    above: usize,
    line: usize,
) -> Result<String, AllocError>
    ensures { IfOk result (λ s. string_len s ≤ 200) }
{
    let (why, may) = faults_of(part, rest);
    let mut parts = Parts::of(alloc, line_at(above, line))?;
    parts.put(why, may)?;
    let bytes = if rest.is_empty() {
        None
    } else {
        Some(first_line(rest))
    };
    told(alloc, &parts, bytes, 0)
}

/// Why a line of a trace is wrong, and what may stand there.
fn faults_of(part: Part, rest: &[u8]) -> (&'static str, &'static str) {
    if let Part::Closed = part {
        return (
            "nothing follows the line `clock full C`",
            "the end of the text",
        );
    }
    let why = if rest.is_empty() {
        "the trace ends"
    } else if is_ended(rest) {
        "`step` writes no such line"
    } else {
        "the line has no LF at its end"
    };
    (why, TURNS)
}

/// What stands above a line, and what stands from that report's first line on, or from the line itself.
fn part_of(text: &[u8], line: usize) -> (Part, &[u8]) {
    let mut rest = text;
    for number in 1..line {
        let bytes = first_line(rest);
        if lines::is(bytes, b"report 1") {
            return (Part::Report(number), rest);
        }
        let (word, _) = first_word(bytes);
        let is_last = lines::is(word, b"clock");
        match lines::find(b'\n', rest) {
            Some(i) => rest = lines::past(rest, i),
            None => return (Part::Trace, &[]),
        }
        if is_last {
            return (Part::Closed, rest);
        }
    }
    if lines::is(first_line(rest), b"report 1") && is_ended(rest) {
        return (Part::Report(line), rest);
    }
    (Part::Trace, rest)
}
