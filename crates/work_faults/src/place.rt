//! A place in a text, and which lines may stand there: those that the text's own grammar takes.
use crate::fault::Fault;
use std::alloc::Global;
use stm_model::memory::Memory;
use work_check::reading::read_report;
use work_text::parse::{Mode, ParseError, parse};

/// What a text is read as.
#[derive(Clone, Copy, Drop)]
pub enum Reader {
    /// A workload, for `run` or for `step`.
    Workload(Mode),
    Report,
}

/// Where a line stands: the lines above it, which have no fault, and its number, counted from 1.
#[derive(Clone, Copy, Drop)]
pub struct Place<'a> {
    pub alloc: Global,
    pub reader: Reader,
    pub above: &'a [u8],
    pub line: usize,
}

/// What a text comes to whose last line is one that is tried.
#[derive(Clone, Copy, Drop)]
pub enum Tried {
    /// The line has no fault.
    Taken,
    /// It has this one.
    Refused(Fault),
}

impl Place<'_> {
    ghost use Rattle.std.specs.Prelude.{◌≡◌, IfOk};
    ghost use Rattle.work_faults.specs.Standing.{MayStand};
    ghost use Rattle.work_faults.specs.declared.place.Tried.TheVariants.{Taken};

    /// Whether this line may stand there.
    ///
    /// # Errors
    /// Memory, where it is refused.
    pub fn tried(&self, line: &str) -> Result<Tried, Memory>
        ensures { IfOk result (λ t.
            t ≡ Taken → MayStand self.now.reader self.now.above.now self.now.line line.now) }
    {
        let mut text = self.above.to_vec(self.alloc)?;
        text.extend_from_slice(line.as_bytes())?;
        text.extend_from_slice(b"\n")?;
        let fault = match self.reader {
            Reader::Workload(mode) => parse(self.alloc, text.as_slice(), mode).err(),
            Reader::Report => read_report(self.alloc, text.as_slice()).err(),
        };
        match fault {
            None => Ok(Tried::Taken),
            Some(ParseError::Memory) => Err(Memory),
            Some(ParseError::Fault { line, code }) => {
                if self.line < line {
                    Ok(Tried::Taken)
                } else {
                    Ok(Tried::Refused(Fault::of(code)))
                }
            }
        }
    }
}
