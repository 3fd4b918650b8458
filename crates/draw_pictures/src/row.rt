//! A row of a picture: a line of the trace, or idle turns of a caller that follow each other.
ghost use Rattle.std.specs.Prelude.{◌≡◌};
ghost use Rattle.draw_pictures.specs.Rows.{joins};
ghost use Rattle.draw_pictures.specs.Shapes.{box_of};

use crate::kind::{Kind, line_kind};
use crate::step::Step;
use work_trace::line::Line;

/// A row: its first line's number in the trace, counted from 1, how many lines it is of, and that line.
#[derive(Clone, Copy, Drop)]
pub struct Row {
    pub number: usize,
    pub times: usize,
    pub step: Step,
}

impl Row {
    /// The caller in whose lane it lies.
    pub fn lane(self) -> usize
        ensures { result ≡ (box_of self).lane }
    {
        match self.step.line {
            Line::Of { caller, .. } => caller,
            Line::Finish => 0,
        }
    }

    /// What it is to a reader.
    pub fn kind(self) -> Kind
        ensures { result ≡ (box_of self).kind }
    {
        line_kind(self.step.line)
    }
}

/// Whether a line joins the row above it: both are idle turns of one caller.
pub fn joins(above: Row, row: Row) -> bool
    ensures { result ≡ joins (box_of above) (box_of row) }
{
    above.kind().is_idle() && row.kind().is_idle() && above.lane() == row.lane()
}
