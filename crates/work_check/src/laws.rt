//! Laws of the definitions, each the contract of a function.
ghost use Rattle.work_check.specs.Checks.{OneFindingPerText};
ghost use Rattle.work_check.specs.Limits.{LimitsAre, ReportFaultsAre};
ghost use Rattle.work_check.specs.Texts.{ReportIsRead, ReportIsWritten, ReplayedIsReadable, ReplayedIsConfirmed, AfterIsConfirmed};

use work_text::laws::{parsed_workloads_fit, text_is_parsed, text_is_read, text_is_written};

/// A text has one finding: where it has a fault, that fault has one line, and one code.
pub fn one_finding_per_text()
    ensures { OneFindingPerText }
{}

/// The greatest numbers of bytes are these.
pub fn limits_are()
    ensures { LimitsAre }
{}

/// A report's text has no faults but these three.
pub fn report_faults_are()
    ensures { ReportFaultsAre }
{}

/// The text of a report is read as that report.
pub fn report_is_read()
    ensures { ReportIsRead }
{}

/// A text that is read as a report is the text of that report.
pub fn report_is_written()
    ensures { ReportIsWritten }
{}

/// A report that replays a workload, and whose numbers are words of the machine, has a text that can be read as it.
pub fn replayed_is_readable()
    ensures { ReplayedIsReadable }
{}

/// A report that replays the workload of a text, and whose numbers are words of the machine, is read back from its own
/// text, where that isn't too long, and is found to replay it.
pub fn replayed_is_confirmed()
    ensures { ReplayedIsConfirmed }
{
    text_is_parsed();
    parsed_workloads_fit();
}

/// The text of a report that replays the workload of a text, and whose numbers are words of the machine, written after
/// that text, is found to replay it, where it isn't too long.
pub fn after_is_confirmed()
    ensures { AfterIsConfirmed }
{
    text_is_read();
    text_is_written();
    text_is_parsed();
    replayed_is_confirmed();
}
