//! The operations that the lines of a trace tell of, from the workload that it is of.
ghost use Rattle.std.specs.Prelude.{◌≡◌, Some, None, MatchOption, IfOk, List, option_map};
ghost use Rattle.work_script.specs.declared.workload.Item.{Item};
ghost use Rattle.draw_core.specs.Phases.{first_phases};
ghost use Rattle.draw_core.specs.Walks.{callers_in, deed_of, first_stands, goes, stands_of, AreWithin};

use crate::cursor::{Cursor, after};
use crate::misfit::{Misfit, Unfit, misfit_by, misfit_in};
use crate::phase::{passes, phase_at};
use crate::turn::turn_of;
use draw_pictures::page::Page;
use draw_pictures::part::Part;
use draw_pictures::step::{Deed, Step};
use std::alloc::{AllocError, Global};
use thiserror::Error;
use work_faults::fault::Fault;
use work_script::op::Op;
use work_script::workload::{Item, Version, Workload};
use work_trace::line::Line;
use work_trace::said::Phase;

/// Why a text has no steps. A line counts from 1, and is 0 for a text that is too long.
#[derive(Clone, Copy, Drop, Debug, Error)]
pub enum StepsError {
    /// The workload has this fault.
    #[error("refused {line}")]
    Workload { line: usize, fault: Fault },
    /// What stands after it, or alone, isn't a text that `step` writes.
    #[error("refused {line}")]
    Trace { line: usize },
    /// A line of the trace may not come where its caller stands in the workload.
    #[error("refused {}", .0.line)]
    Unfit(Unfit),
    #[error("out of memory")]
    Memory,
}

impl From<AllocError> for StepsError {
    ghost use Rattle.std.specs.Prelude.{◌≡◌};
    ghost use Rattle.draw_core.specs.declared.walk.StepsError.TheVariants.{Memory};

    ghost from_gives = { λ _ e. e ≡ Memory };

    fn from(_: AllocError) -> StepsError {
        StepsError::Memory
    }
}

/// Where the callers stand at first.
fn first_cursors(alloc: Global, callers: usize) -> Result<Vec<Cursor>, AllocError>
    ensures is { IfOk result (λ c.
        (items : List Item) → stands_of items 0 c.items ≡ first_stands items callers) }
    ensures within { IfOk result (λ c. (items : List Item) → AreWithin items c.items) }
{
    let first = Cursor {
        item: 0,
        done: None,
    };
    Ok(vec![in alloc; first; callers]?)
}

/// The callers are between two attempts.
fn first_phases(alloc: Global) -> Result<Vec<Phase>, AllocError>
    ensures { IfOk result (λ p. p.items ≡ first_phases) }
{
    Ok(vec![in alloc; Phase::Between; 32]?)
}

/// The operation that a line tells of, and its caller's cursor after it. None where the line may not come there.
fn step_of(version: Version, items: &[Item], cursors: &mut [Cursor], line: Line) -> Option<Step>
    requires { AreWithin items.now cursors.old }
    ensures is { MatchOption result (goes version (stands_of items.now 0 cursors.old) line ≡ None)
        (λ s.
        goes version (stands_of items.now 0 cursors.old) line
        ≡ Some (s, stands_of items.now 0 cursors.new)) }
    ensures within { AreWithin items.now cursors.new }
{
    match line {
        Line::Finish => Some(Step::bare(line)),
        Line::Of { caller, said } => {
            if cursors.len() <= caller {
                return None;
            }
            let (cursor, op) = after(items, caller, cursors[caller], turn_of(said))?;
            cursors[caller] = cursor;
            Some(Step {
                line,
                deed: deed_of(version, op),
            })
        }
    }
}

fn deed_of(version: Version, op: Option<Op>) -> Option<Deed>
    ensures { result ≡ deed_of version op }
{
    match op {
        None => None,
        Some(op) => Some(Deed { op, version }),
    }
}

/// How many callers a workload has.
fn callers_in(workload: Option<&Workload>) -> usize
    ensures { result ≡ callers_in (option_map (λ w. w.now) workload.entry) }
{
    match workload {
        None => 0,
        Some(workload) => workload.header.callers,
    }
}

/// A trace, line by line along its workload where there is one: where the callers stand, and the page that is drawn.
#[derive(Drop)]
pub struct Walk<'a> {
    workload: Option<&'a Workload>,
    /// How many lines stand above the trace.
    above: usize,
    cursors: Vec<Cursor>,
    /// Where they stand by their lines alone.
    phases: Vec<Phase>,
    page: Page,
    /// The first line that may not come where its caller stands.
    misfit: Option<Unfit>,
}

impl<'a> Walk<'a> {
    ghost use Rattle.std.specs.Prelude.{◌≡◌, ◌<◌, ◌≤◌, ◌+◌, ◌^◌, [], ◌∷◌, ◌++◌, List, Some, None, MatchOption, IfOk, IfErr, OnOk};
    ghost use Rattle.work_trace.specs.declared.line.Line.{Line};
    ghost use Rattle.draw_core.specs.Walks.{along_of, next_step, stands_in, stepped, told_steps, version_in, workload_in, AreWithinOf, IsWalk};
    ghost use Rattle.draw_core.specs.Misfits.{misfit_of};
    ghost use Rattle.draw_pictures.specs.Shapes.{lane_of};
    ghost use Rattle.draw_core.specs.Whole.{IsPageFor, IsStepsFault};

    /// Before the first line, to draw this part.
    pub fn new(
        alloc: Global,
        workload: Option<&'a Workload>,
        above: usize,
        part: Part,
    ) -> Result<Self, AllocError>
        ensures is { IfOk result (λ w. IsWalk w []) }
        ensures workload { IfOk result (λ w. w.workload ≡ workload.entry) }
        ensures above { IfOk result (λ w. w.above ≡ above) }
        ensures lines { IfOk result (λ w. w.page.lines ≡ 0) }
        ensures part { IfOk result (λ w. w.page.part ≡ part) }
    {
        Ok(Walk {
            workload,
            above,
            cursors: first_cursors(alloc, callers_in(workload))?,
            phases: first_phases(alloc)?,
            page: Page::new(alloc, part)?,
            misfit: None,
        })
    }

    /// The step of a line, by the workload. None where it may not come there.
    fn advance(&mut self, line: Line) -> Option<Step>
        requires { AreWithinOf (workload_in self.old) self.old.cursors.items }
        ensures is { MatchOption result
            (stepped (version_in (workload_in self.old)) (stands_in (workload_in self.old) self.old.cursors.items) line ≡ None)
            (λ s.
            stepped (version_in (workload_in self.old)) (stands_in (workload_in self.old) self.old.cursors.items) line
            ≡ Some (s, stands_in (workload_in self.old) self.new.cursors.items)) }
        ensures within { AreWithinOf (workload_in self.old) self.new.cursors.items }
        ensures same { self.new ≡ record self.old { cursors = self.new.cursors } }
    {
        match self.workload {
            None => Some(Step::bare(line)),
            Some(workload) => step_of(
                workload.header.version,
                workload.items.as_slice(),
                self.cursors.as_mut_slice(),
                line,
            ),
        }
    }

    /// The step of a line. None where the line may not come there.
    fn next(&mut self, line: Line) -> Option<Step>
        requires { AreWithinOf (workload_in self.old) self.old.cursors.items }
        ensures is { MatchOption result
            (next_step (workload_in self.old) self.old.cursors.items self.old.phases.items line ≡ None) (λ s.
            next_step (workload_in self.old) self.old.cursors.items self.old.phases.items line
            ≡ Some (s, along_of (workload_in self.old) self.new.cursors.items self.new.phases.items)) }
        ensures within { AreWithinOf (workload_in self.old) self.new.cursors.items }
        ensures same { self.new ≡ record self.old { cursors = self.new.cursors; phases = self.new.phases } }
    {
        let step = self.advance(line)?;
        if passes(self.phases.as_mut_slice(), line) {
            Some(step)
        } else {
            None
        }
    }

    /// A line that may not come, with where its caller stands.
    fn unfit(&self, line: Line) -> Unfit
        requires few { self.now.above + self.now.page.lines < 2 ^ 62 }
        requires within { AreWithinOf (workload_in self.now) self.now.cursors.items }
        ensures line { result.line ≡ self.now.above + self.now.page.lines + 1 }
        ensures misfit { result.misfit ≡ misfit_of (workload_in self.now) self.now.cursors.items
            self.now.phases.items result.caller }
        ensures caller { result.caller ≡ lane_of line }
    {
        let caller = match line {
            Line::Of { caller, .. } => caller,
            Line::Finish => 0,
        };
        let phase = phase_at(self.phases.as_slice(), caller);
        let misfit = match self.workload {
            Some(workload) => misfit_by(
                phase,
                misfit_in(
                    workload.header.version,
                    workload.items.as_slice(),
                    self.cursors.as_slice(),
                    caller,
                ),
            ),
            None => Misfit::At(phase),
        };
        Unfit {
            line: self.above + self.page.lines() + 1,
            caller,
            misfit,
        }
    }

    /// One line more. Memory may be refused.
    pub fn step(&mut self, line: Line) -> Result<(), AllocError>
        requires is { (lines : List Line) × IsWalk self.old lines }
        requires few { self.old.above + self.old.page.lines < 2 ^ 62 }
        ensures is { OnOk result ((lines : List Line) → IsWalk self.old lines → IsWalk self.new (lines ++ line ∷ [])) }
        ensures workload { self.new.workload ≡ self.old.workload }
        ensures above { self.new.above ≡ self.old.above }
        ensures lines { OnOk result (self.new.page.lines ≤ self.old.page.lines + 1) }
        ensures part { self.new.page.part ≡ self.old.page.part }
    {
        if self.misfit.is_some() {
            return Ok(());
        }
        let Some(step) = self.next(line) else {
            self.misfit = Some(self.unfit(line));
            return Ok(());
        };
        self.page.add(step)
    }

    /// The page, once all lines were read.
    ///
    /// # Errors
    /// `Unfit` with the first line that may not come, and where its caller stands, `Memory` where it is refused.
    pub fn into_page(self) -> Result<Page, StepsError>
        requires few { self.page.lines < 2 ^ 61 }
        requires is { (lines : List Line) × IsWalk self lines }
        ensures told { (lines : List Line) → IsWalk self.entry lines
            → IfOk result (λ p. IsPageFor p (told_steps (workload_in self.entry) self.entry.above lines)) }
        ensures fault { (lines : List Line) → IsWalk self.entry lines
            → IfErr result (λ e. IsStepsFault e (told_steps (workload_in self.entry) self.entry.above lines)) }
        ensures part { IfOk result (λ p. p.part ≡ self.entry.page.part) }
        ensures few { IfOk result (λ p. p.count < 2 ^ 62) }
    {
        let Walk {
            mut page,
            misfit,
            ..
        } = self;
        if let Some(unfit) = misfit {
            return Err(StepsError::Unfit(unfit));
        }
        page.end()?;
        Ok(page)
    }
}
