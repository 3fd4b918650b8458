//! Why a line may not come where its caller stands.
ghost use Rattle.std.specs.Prelude.{◌≡◌, ◌≤◌, length};
ghost use Rattle.draw_core.specs.Misfits.{misfit_at, misfit_by, misfit_in};
ghost use Rattle.draw_core.specs.Walks.{AreWithin, stand_of, stands_of};

use crate::cursor::{Cursor, is_over, next_op};
use draw_pictures::label::put_deed;
use draw_pictures::step::Deed;
use std::alloc::{AllocError, Global};
use work_script::op::Op;
use work_script::workload::{Item, Version};
use work_text::lines;
use work_trace::said::Phase;

/// Where a caller stands whose line may not come.
#[derive(Clone, Copy, Drop, Debug)]
pub enum Misfit {
    /// Nowhere: the workload has so many callers.
    NoCaller { callers: usize },
    /// In no attempt, and a transaction is left.
    Before,
    /// In no attempt, and none is left.
    Over,
    /// In an attempt, and this is next in its script.
    Next(Deed),
    /// In an attempt, and its script is done.
    Done,
    /// Here, by its lines alone: no script says more.
    At(Phase),
}

/// A line that may not come.
#[derive(Clone, Copy, Drop, Debug)]
pub struct Unfit {
    /// Its number in the whole text, from 1.
    pub line: usize,
    pub caller: usize,
    pub misfit: Misfit,
}

/// Where a caller stands with this cursor.
fn misfit_at(version: Version, items: &[Item], caller: usize, cursor: Cursor) -> Misfit
    requires { cursor.item ≤ length items.now }
    ensures { result ≡ misfit_at version (stand_of items.now caller cursor) }
{
    if let Some((op, _)) = next_op(items, caller, cursor) {
        return Misfit::Next(Deed { op, version });
    }
    if cursor.done.is_some() {
        return Misfit::Done;
    }
    if is_over(items, caller, cursor) {
        return Misfit::Over;
    }
    Misfit::Before
}

/// Where a caller stands among all.
pub fn misfit_in(version: Version, items: &[Item], cursors: &[Cursor], caller: usize) -> Misfit
    requires { AreWithin items.now cursors.now }
    ensures { result ≡ misfit_in version (stands_of items.now 0 cursors.now) caller }
{
    if cursors.len() <= caller {
        return Misfit::NoCaller {
            callers: cursors.len(),
        };
    }
    misfit_at(version, items, caller, cursors[caller])
}

/// Where a caller stands at this phase that is so in its script.
pub fn misfit_by(phase: Phase, misfit: Misfit) -> Misfit
    ensures { result ≡ misfit_by phase misfit }
{
    match phase {
        Phase::Between | Phase::Inside => misfit,
        Phase::Closing | Phase::Quiet => Misfit::At(phase),
    }
}

/// The lines that may come at a phase, each as what follows the caller's number, and what follows it in a sentence.
fn lines_at(phase: Phase) -> &'static [(&'static str, &'static str)] {
    match phase {
        Phase::Between => &[("begin ALG", ", "), ("close closed", " or "), ("idle", "")],
        Phase::Inside => &[
            ("NAME REPLY", ", "),
            ("commit readonly T", ", or why it failed"),
        ],
        Phase::Closing => &[
            ("look quiet", ", "),
            ("look busy C S", " or "),
            ("reopen", ""),
        ],
        Phase::Quiet => &[("install ALG", " or "), ("reopen", "")],
    }
}

/// Where a caller is at a phase.
fn place_of(phase: Phase) -> &'static str {
    match phase {
        Phase::Between => "is in no attempt",
        Phase::Inside => "is in an attempt",
        Phase::Closing => "has closed the gate",
        Phase::Quiet => "has closed the gate, and no other is in an attempt",
    }
}

impl Unfit {
    /// Appends where the caller is.
    fn put_place(&self, why: &mut String, place: &str) -> Result<(), AllocError> {
        let caller = self.caller;
        write!(why, "caller {caller} {place}")
    }

    /// Appends why the line may not come.
    fn put_why(&self, why: &mut String) -> Result<(), AllocError> {
        match self.misfit {
            Misfit::NoCaller { callers } => write!(why, "the workload has {callers} callers"),
            Misfit::Before => self.put_place(why, "is in no attempt, and has a transaction left"),
            Misfit::Over => self.put_place(why, "is in no attempt, and has no transaction left"),
            Misfit::Next(deed) => {
                self.put_place(why, "is in an attempt, whose script has")?;
                put_deed(why, deed)?;
                why.push_str(" next")
            }
            Misfit::Done => self.put_place(why, "is in an attempt, whose script is done"),
            Misfit::At(phase) => self.put_place(why, place_of(phase)),
        }
    }

    /// Appends lines that may come, and after each what follows it.
    fn put_lines(&self, may: &mut String, lines: &[(&str, &str)]) -> Result<(), AllocError> {
        let caller = self.caller;
        for (line, after) in lines {
            write!(may, "`{caller} {line}`{after}")?;
        }
        Ok(())
    }

    /// Appends the line of the operation that is next in a script.
    fn put_next(&self, may: &mut String, op: Op) -> Result<(), AllocError> {
        let caller = self.caller;
        let name = op.name();
        let came = match op {
            Op::Irrev => "granted",
            Op::Cancel => "cancelled T",
            _ => "REPLY",
        };
        write!(may, "`{caller} {name} {came}`, or why it failed")
    }

    /// Appends what may come.
    fn put_may(&self, may: &mut String) -> Result<(), AllocError> {
        match self.misfit {
            Misfit::NoCaller { callers } => {
                let last = callers.saturating_sub(1);
                write!(may, "a line of a caller from 0 to {last}")
            }
            Misfit::Before => self.put_lines(may, &[("begin ALG", ", ALG an algorithm")]),
            Misfit::Over => self.put_lines(may, &[("idle", "")]),
            Misfit::Next(deed) => self.put_next(may, deed.op),
            Misfit::Done => self.put_lines(
                may,
                &[
                    ("commit committed T", ", "),
                    ("commit readonly T", ", or why it failed"),
                ],
            ),
            Misfit::At(phase) => self.put_lines(may, lines_at(phase)),
        }
    }

    /// Why the line may not come, and what may.
    ///
    /// # Errors
    /// Memory, where it is refused.
    pub fn told(&self, alloc: Global) -> Result<(String, String), AllocError> {
        let mut why = String::new(alloc);
        self.put_why(&mut why)?;
        let mut may = String::new(alloc);
        self.put_may(&mut may)?;
        Ok((why, may))
    }
}

/// The most bytes of a line that a sentence shows.
const MOST_LINE: usize = 60;

/// What is wrong with a line of a trace alone, which may not come.
///
/// # Errors
/// Memory, where it is refused.
pub fn unfit_alone(
    alloc: Global,
    text: &[u8],
    line: usize,
    why: &str,
    may: &str,
) -> Result<String, AllocError> {
    let mut said = format!(in alloc; "line {line}, `")?;
    put_line(&mut said, line_of(text, line))?;
    write!(said, "`: {why}; here stands {may}")?;
    Ok(said)
}

/// A line of a text, counted from 1.
fn line_of(text: &[u8], line: usize) -> &[u8] {
    let mut rest = text;
    for _ in 1..line {
        match lines::find(b'\n', rest) {
            Some(i) => rest = lines::past(rest, i),
            None => return &[],
        }
    }
    match lines::find(b'\n', rest) {
        Some(i) => &rest[..i],
        None => rest,
    }
}

/// Appends the first bytes of a line, all of which can be shown.
fn put_line(said: &mut String, line: &[u8]) -> Result<(), AllocError> {
    for b in line.iter().take(MOST_LINE) {
        said.push(*b as char)?;
    }
    if MOST_LINE < line.len() {
        said.push_str(" ..")?;
    }
    Ok(())
}
