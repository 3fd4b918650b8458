//! Workloads, read from their text.
ghost use Rattle.std.specs.Prelude.{◌≡◌, ◌≤◌, length, IfOk, IfErr, Ok};
ghost use Rattle.work_text.specs.Grammar.{workload_of, parsed, ended, IsFirstFault, Answers};
ghost use Rattle.work_text.specs.Drafts.{opening};
ghost use Rattle.work_text.specs.Lines.{lines_of};
ghost use Rattle.work_text.specs.Parsed.{IsParsed};

use crate::code;
use crate::draft::{Draft, Step};
use crate::table::step_of;
use std::alloc::{AllocError, Global};
use thiserror::Error;
use work_script::workload::Workload;

/// The command that a workload is for.
#[derive(Clone, Copy, Drop, Debug, PartialEq, Eq)]
pub enum Mode {
    /// `run`, which takes no schedule.
    Run,
    /// `step`, which may have a schedule.
    Step,
}

/// Why a text gives no workload.
#[derive(Clone, Copy, Drop, Debug, PartialEq, Eq, Error)]
pub enum ParseError {
    /// The text isn't in the grammar: its first line at fault, counted from 1 (0 for a text that is too
    /// long), and in that line the lowest code.
    #[error("fault {code} in line {line}")]
    Fault { line: usize, code: u32 },
    #[error("out of memory")]
    Memory,
}

impl From<AllocError> for ParseError {
    ghost use Rattle.std.specs.Prelude.{◌≡◌};
    ghost use Rattle.work_text.specs.declared.parse.ParseError.TheVariants.{Memory};

    ghost from_gives = { λ _ e. e ≡ Memory };

    fn from(_: AllocError) -> ParseError {
        ParseError::Memory
    }
}

/// The greatest number of bytes of a text.
pub const MAX_TEXT: usize = 16_777_216;

/// The workload of a text, or its first fault. The text is gone through line by line, once.
pub fn parse(alloc: Global, bytes: &[u8], mode: Mode) -> Result<Workload, ParseError>
    ensures workload { IfOk result (λ w. workload_of mode bytes.now ≡ Ok w) }
    ensures is_parsed { IfOk result (IsParsed mode) }
    ensures fault { IfErr result (λ e. IsFirstFault e (workload_of mode bytes.now)) }
{
    if bytes.len() > MAX_TEXT {
        return Err(ParseError::Fault {
            line: 0,
            code: code::LONG,
        });
    }
    read_lines(alloc, mode, bytes)
}

/// The lines of a text from the first one on.
fn read_lines(alloc: Global, mode: Mode, text: &[u8]) -> Result<Workload, ParseError>
    requires { length text.now ≤ MAX_TEXT }
    ensures { Answers result (parsed mode opening 1 (lines_of text.now)) }
{
    let mut draft = Draft::new(alloc);
    let mut rest = text;
    let mut number = 1usize;
    while !rest.is_empty() {
        let (read, others) = step_of(mode, &draft, rest);
        let step = match read {
            Ok(step) => step,
            Err(code) => return Err(ParseError::Fault { line: number, code }),
        };
        rest = others;
        number += 1;
        if let Step::Done = step {
            return finished(draft, number, rest);
        }
        draft.take(alloc, step)?;
    }
    Err(ParseError::Fault {
        line: number,
        code: code::UNENDED,
    })
}

/// The workload, where nothing follows `done`.
fn finished(draft: Draft, line: usize, rest: &[u8]) -> Result<Workload, ParseError>
    ensures { Answers result (ended draft line (lines_of rest.now)) }
{
    if rest.is_empty() {
        Ok(draft.into_workload())
    } else {
        Err(ParseError::Fault {
            line,
            code: code::EXTRA,
        })
    }
}
