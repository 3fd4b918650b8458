//! What may stand on a line of a report.
ghost use Rattle.std.specs.Prelude.{◌≡◌};
ghost use Rattle.work_text.specs.Lines.{words_of};
ghost use Rattle.work_check.specs.Grammar.{opening, step_by, one_word, one_row, whole, above_last, Leads};
ghost use Rattle.work_check.specs.declared.table.NextReportLine.TheVariants.{Title};

use crate::words::{first_word, memory_word, next_word, row};
use std::alloc::{AllocError, AllocFailed, Global};
use std::marker::Model;
use work_script::report::{Pairs, Report, Row, Rows};
use work_text::lines;

/// The line that comes next.
#[derive(Clone, Copy, Drop)]
pub enum NextReportLine {
    Title,
    /// A row, a word of the memory or `end`.
    Rows,
    /// A word of the memory or `end`.
    Words,
    /// Nothing.
    After,
}

/// Why words tell nothing.
#[derive(Clone, Copy, Drop, Debug, PartialEq, Eq)]
pub enum WordsError {
    /// They aren't in the form.
    Wrong,
    Memory,
}

impl From<AllocError> for WordsError {
    ghost use Rattle.std.specs.Prelude.{◌≡◌};
    ghost use Rattle.work_check.specs.declared.table.WordsError.TheVariants.{Memory};

    ghost from_gives = { λ _ e. e ≡ Memory };

    fn from(_: AllocError) -> WordsError {
        WordsError::Memory
    }
}

impl<T: Drop> From<AllocFailed<T>> for WordsError {
    ghost use Rattle.std.specs.Prelude.{◌≡◌};
    ghost use Rattle.work_check.specs.declared.table.WordsError.TheVariants.{Memory};

    ghost from_gives = { λ _ e. e ≡ Memory };

    fn from(_: AllocFailed<T>) -> WordsError {
        WordsError::Memory
    }
}

/// Whether an address is above the last one told.
fn is_above(memory: &[(usize, u64)], a: usize) -> bool
    ensures { result ≡ above_last memory.now a }
{
    match memory.last() {
        None => true,
        Some(last) => last.0 < a,
    }
}

/// A report as far as it is read.
#[derive(Drop)]
pub struct Draft {
    place: NextReportLine,
    rows: Vec<Row>,
    memory: Vec<(usize, u64)>,
}

impl Model for Draft {
    ghost use Rattle.work_check.specs.Grammar.{Reading};

    ghost Value = { Reading };

    ghost view = { λ d. record { place = d.place; rows = d.rows.items; memory = d.memory.items } };
}

impl Draft {
    /// Before the first line.
    pub fn new(alloc: Global) -> Draft
        ensures { result ≡ opening }
    {
        Draft {
            place: NextReportLine::Title,
            rows: Vec::new(alloc),
            memory: Vec::new(alloc),
        }
    }

    /// `report 1`.
    fn title(&mut self, line: &[u8]) -> Result<(), WordsError>
        ensures { Leads result (step_by Title self.old (words_of line.now)) self.new }
    {
        let (name, rest) = first_word(line);
        let (version, rest) = next_word(rest)?;
        if !rest.is_empty() {
            return Err(WordsError::Wrong);
        }
        if lines::is(name, b"report") && lines::is(version, b"1") {
            self.place = NextReportLine::Rows;
            Ok(())
        } else {
            Err(WordsError::Wrong)
        }
    }

    /// One more word of the memory, where its address is above the last one.
    fn add_word(&mut self, line: &[u8]) -> Result<(), WordsError>
        ensures { Leads result (one_word self.old (words_of line.now)) self.new }
    {
        let word = memory_word(line)?;
        if !is_above(&self.memory, word.0) {
            return Err(WordsError::Wrong);
        }
        self.memory.push(word)?;
        self.place = NextReportLine::Words;
        Ok(())
    }

    /// One more row.
    fn add_row(&mut self, alloc: Global, line: &[u8]) -> Result<(), WordsError>
        ensures { Leads result (one_row self.old (words_of line.now)) self.new }
    {
        let row = row(alloc, line)?;
        self.rows.push(row)?;
        Ok(())
    }

    /// Goes on past a line. Memory may be refused.
    pub fn take(&mut self, alloc: Global, line: &[u8]) -> Result<(), WordsError>
        ensures { Leads result (step_by self.old.place self.old (words_of line.now)) self.new }
    {
        let (first, rest) = first_word(line);
        if let NextReportLine::Title = self.place {
            return self.title(line);
        }
        if let NextReportLine::After = self.place {
            return Err(WordsError::Wrong);
        }
        if rest.is_empty() {
            if !lines::is(first, b"end") {
                return Err(WordsError::Wrong);
            }
            self.place = NextReportLine::After;
            return Ok(());
        }
        if let NextReportLine::Words = self.place {
            return self.add_word(line);
        }
        if lines::is(first, b"mem") {
            self.add_word(line)
        } else {
            self.add_row(alloc, line)
        }
    }

    /// The report that is read, where its end has come.
    pub fn into_report(self) -> Option<Report>
        ensures { result ≡ whole self }
    {
        let Draft {
            place,
            rows,
            memory,
        } = self;
        match place {
            NextReportLine::After => Some(Report {
                rows: Rows::new(rows),
                memory: Pairs::new(memory),
            }),
            NextReportLine::Title | NextReportLine::Rows | NextReportLine::Words => None,
        }
    }
}
