//! A line of a trace, with what its caller's script has there.
ghost use Rattle.std.specs.Prelude.{◌≡◌};

use work_script::op::Op;
use work_script::workload::Version;
use work_trace::line::Line;

/// An operation of a script, of a workload of this version.
#[derive(Clone, Copy, Drop, Debug)]
pub struct Deed {
    pub op: Op,
    pub version: Version,
}

/// A line, and the operation that it tells of, where a workload has it.
#[derive(Clone, Copy, Drop)]
pub struct Step {
    pub line: Line,
    pub deed: Option<Deed>,
}

impl Step {
    ghost use Rattle.draw_pictures.specs.Steps.{bare};

    /// The line alone.
    pub fn bare(line: Line) -> Step
        ensures { result ≡ bare line }
    {
        Step { line, deed: None }
    }
}
