//! Whether a report replays its workload.
ghost use Rattle.std.specs.Prelude.{◌≡◌, Some};
ghost use Rattle.work_check.specs.declared.verdict.Verdict.TheVariants.{No};

use crate::wanted::Wanted;

/// What a check of a report finds.
#[derive(Clone, Copy, Drop, Debug, PartialEq, Eq)]
pub enum Verdict {
    /// One thread that runs the rows' scripts gets what the rows say, and ends with the memory told.
    Yes,
    /// It doesn't. The line is that of the first row that has a fault; where none has, the first line after the rows
    /// that differs from the memory that they leave, and from `end`. Lines count from the report's first, as 1.
    No { line: usize },
}

/// A verdict, and of a `No` what the replay wants on that line.
#[derive(Drop, Debug)]
pub struct Judged {
    pub verdict: Verdict,
    pub wanted: Option<Wanted>,
}

impl Judged {
    /// Of a report that doesn't replay its workload.
    pub(crate) fn no(line: usize, wanted: Wanted) -> Judged
        ensures verdict { result.verdict ≡ No line }
        ensures wanted { result.wanted ≡ Some wanted }
    {
        Judged {
            verdict: Verdict::No { line },
            wanted: Some(wanted),
        }
    }
}
