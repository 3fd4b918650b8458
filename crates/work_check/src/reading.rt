//! Reports, read from their text.
ghost use Rattle.std.specs.Prelude.{◌≡◌, ◌≤◌, length, if◌then◌else◌};
ghost use Rattle.work_text.specs.Lines.{lines_of, Lacks};
ghost use Rattle.work_text.specs.declared.code.TheConstants.{UNENDED, REPORT};
ghost use Rattle.work_check.specs.Grammar.{opening, read, report_of, finished, whole, Answers};

use crate::table::{Draft, WordsError};
use std::alloc::Global;
use work_script::report::Report;
use work_text::parse::ParseError;
use work_text::{code, lines};

/// The greatest number of bytes of a report.
pub const MAX_REPORT: usize = 134_217_728;

/// The report of a text, or its first fault: the line, counted from the report's first as 1, and in that line the
/// lowest code; line 0 for a text that is too long. The text is gone through line by line, once.
pub fn read_report(alloc: Global, bytes: &[u8]) -> Result<Report, ParseError>
    ensures { Answers result (report_of bytes.now) }
{
    if bytes.len() > MAX_REPORT {
        return Err(ParseError::Fault {
            line: 0,
            code: code::LONG_REPORT,
        });
    }
    read_lines(alloc, bytes)
}

/// The lines of a text from the first one on.
fn read_lines(alloc: Global, text: &[u8]) -> Result<Report, ParseError>
    requires { length text.now ≤ MAX_REPORT }
    ensures { Answers result (read opening 1 (lines_of text.now)) }
{
    let mut draft = Draft::new(alloc);
    let mut rest = text;
    let mut number = 1usize;
    while let Some(i) = lines::find(b'\n', rest) {
        let line = &rest[..i];
        match draft.take(alloc, line) {
            Ok(()) => {}
            Err(WordsError::Memory) => return Err(ParseError::Memory),
            Err(WordsError::Wrong) => return Err(ParseError::Fault {
                line: number,
                code: code::REPORT,
            }),
        }
        rest = lines::past(rest, i);
        number += 1;
    }
    finish(draft, number, rest)
}

/// The report, where its end has come and nothing follows without an LF.
fn finish(draft: Draft, number: usize, rest: &[u8]) -> Result<Report, ParseError>
    ensures { Lacks 10 rest.now → Answers result (read draft number (lines_of rest.now)) }
{
    if !rest.is_empty() {
        return Err(ParseError::Fault {
            line: number,
            code: code::UNENDED,
        });
    }
    match draft.into_report() {
        Some(report) => Ok(report),
        None => Err(ParseError::Fault {
            line: number,
            code: code::UNENDED,
        }),
    }
}
