//! A text that `step` wrote, read back: its trace, where a report or a full clock follows it.
ghost use Rattle.std.specs.Prelude.{◌≡◌, ◌≤◌, ◌<◌, ◌^◌, [], List, length, IfErr, OnOk, Ok};
ghost use Rattle.work_trace.specs.declared.line.Line.{Line};
ghost use Rattle.work_text.specs.Lines.{lines_of};
ghost use Rattle.draw_core.specs.Grammar.{trace_of, read, reported, closed, IsFault};
ghost use Rattle.draw_core.specs.Walks.{IsWalk, HasRead};
ghost use Rattle.work_check.specs.Grammar.{report_of};

use crate::said::{is_full_clock, line};
use crate::walk::Walk;
use std::alloc::{AllocError, Global};
use thiserror::Error;
use work_check::reading::read_report;
use work_text::lines;
use work_text::parse::ParseError;

/// The greatest number of bytes of a text that is drawn: as many as a report may have.
pub const MOST_DRAWN: usize = 134_217_728;

/// Why a text has no trace.
#[derive(Clone, Copy, Drop, Debug, Error)]
pub enum ReadError {
    /// The text isn't one that `step` writes: its first line at fault, counted from 1, or 0 for a text that is too
    /// long.
    #[error("refused {line}")]
    Refused { line: usize },
    #[error("out of memory")]
    Memory,
}

impl From<AllocError> for ReadError {
    ghost use Rattle.std.specs.Prelude.{◌≡◌};
    ghost use Rattle.draw_core.specs.declared.reading.ReadError.TheVariants.{Memory};

    ghost from_gives = { λ _ e. e ≡ Memory };

    fn from(_: AllocError) -> ReadError {
        ReadError::Memory
    }
}

/// Goes over the trace of a text, line by line: those before the report, or before the line that tells of a full clock.
/// What an operation worked on isn't told by a trace, so it is 0 here. The report is read too, and must be in its form.
///
/// # Errors
/// `Refused` with the first line at fault, `Memory` where it is refused.
pub fn walk_trace(alloc: Global, text: &[u8], walk: &mut Walk<'_>) -> Result<(), ReadError>
    requires is { IsWalk walk.old [] }
    requires first { walk.old.page.lines ≡ 0 }
    requires few { walk.old.above < 2 ^ 61 }
    ensures told { OnOk result (HasRead walk.new (trace_of text.now)) }
    ensures fault { IfErr result (λ e. IsFault e (trace_of text.now)) }
    ensures workload { walk.new.workload ≡ walk.old.workload }
    ensures above { walk.new.above ≡ walk.old.above }
    ensures lines { OnOk result (walk.new.page.lines ≤ 134217728) }
    ensures part { walk.new.page.part ≡ walk.old.page.part }
{
    if MOST_DRAWN < text.len() {
        return Err(ReadError::Refused { line: 0 });
    }
    walk_lines(alloc, text, walk)
}

/// Goes over the lines of a text from the first one on.
fn walk_lines(alloc: Global, text: &[u8], walk: &mut Walk<'_>) -> Result<(), ReadError>
    requires short { length text.now ≤ 134217728 }
    requires is { IsWalk walk.old [] }
    requires first { walk.old.page.lines ≡ 0 }
    requires few { walk.old.above < 2 ^ 61 }
    ensures told { OnOk result (HasRead walk.new (read [] 1 (lines_of text.now))) }
    ensures fault { IfErr result (λ e. IsFault e (read [] 1 (lines_of text.now))) }
    ensures workload { walk.new.workload ≡ walk.old.workload }
    ensures above { walk.new.above ≡ walk.old.above }
    ensures lines { OnOk result (walk.new.page.lines ≤ 134217728) }
    ensures part { walk.new.page.part ≡ walk.old.page.part }
{
    let mut rest = text;
    let mut number = 1usize;
    while let Some(i) = lines::find(b'\n', rest) {
        let bytes = &rest[..i];
        if lines::is(bytes, b"report 1") {
            return check_report(alloc, number, rest);
        }
        let after = lines::past(rest, i);
        if is_full_clock(bytes) {
            return check_closed(number + 1, after);
        }
        match line(bytes) {
            None => return Err(ReadError::Refused { line: number }),
            Some(line) => walk.step(line)?,
        }
        rest = after;
        number += 1;
    }
    Err(ReadError::Refused { line: number })
}

/// Whether a report follows the lines told; the text has its lines from this number on.
fn check_report(alloc: Global, number: usize, report: &[u8]) -> Result<(), ReadError>
    requires { 1 ≤ number }
    ensures told { OnOk result ((told : List Line) → reported told number (report_of report.now) ≡ Ok told) }
    ensures fault { IfErr result (λ e. (told : List Line)
        → IsFault e (reported told number (report_of report.now))) }
{
    match read_report(alloc, report) {
        Ok(_) => Ok(()),
        Err(ParseError::Fault { line, .. }) => Err(ReadError::Refused {
            line: (number - 1).saturating_add(line),
        }),
        Err(ParseError::Memory) => Err(ReadError::Memory),
    }
}

/// Whether nothing follows the line that tells of a full clock; the next one would have this number.
fn check_closed(number: usize, after: &[u8]) -> Result<(), ReadError>
    ensures told { OnOk result ((told : List Line) → closed told number (lines_of after.now) ≡ Ok told) }
    ensures fault { IfErr result (λ e. (told : List Line)
        → IsFault e (closed told number (lines_of after.now))) }
{
    if after.is_empty() {
        return Ok(());
    }
    Err(ReadError::Refused { line: number })
}
