//! Laws of the definitions, each the contract of a function.
ghost use Rattle.work_text.specs.Reports.{OneReportPerText};
ghost use Rattle.work_text.specs.Parsed.{ParsedWorkloadsFit};
ghost use Rattle.work_text.specs.Limits.{CodesAre, LimitsAre};
ghost use Rattle.work_text.specs.Parting.{TextIsParted};
ghost use Rattle.work_text.specs.Texts.{TextIsRead, TextIsWritten, TextIsParsed};

use data_regions::laws::version_one_is_laid_out;

/// The limits of workloads are these numbers.
pub fn limits_are()
    ensures { LimitsAre }
{}

/// The codes of faults are these numbers.
pub fn codes_are()
    ensures { CodesAre }
{}

/// Two reports of one text are the same.
pub fn one_report_per_text()
    ensures { OneReportPerText }
{}

/// A text of a workload that fits is read as that workload.
pub fn text_is_read()
    ensures { TextIsRead }
{}

/// A text that is read as a workload is a text of that workload.
pub fn text_is_written()
    ensures { TextIsWritten }
{}

/// A text that is read as a workload gives one that fits.
pub fn text_is_parsed()
    ensures { TextIsParsed }
{}

/// A text is parted after the first of its lines that is `done`.
pub fn text_is_parted()
    ensures { TextIsParted }
{}

/// The memory that a workload of the grammar asks for takes each of its scripts.
pub fn parsed_workloads_fit()
    ensures { ParsedWorkloadsFit }
{
    version_one_is_laid_out();
}
