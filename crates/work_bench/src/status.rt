//! How a call of `bench` ended.
ghost use Rattle.std.specs.Prelude.{◌≡◌};

use work_faults::fault::Fault;

/// How a call of `bench` ended, and what it wrote by that.
#[derive(Clone, Copy, Drop, Debug, PartialEq, Eq)]
pub enum Status {
    /// The report, under `step` after the trace; under `gen` the summary; under `check` `yes`.
    Ok,
    /// The help that the words ask for.
    Help,
    /// The usage line: the words aren't a command, and ask for no help.
    Usage,
    /// `refused L C name`: the text read isn't a workload, or under `check` not a workload and a report; `line` and
    /// `fault` are those of its first one. Lines count from 1 in the text at fault; line 0 stands for the whole text,
    /// under `check` for the whole of the part that is too long.
    Refused { line: usize, fault: Fault },
    /// `read fault`: the source failed.
    ReadFault,
    /// A prefix of the text that was to be written: the sink failed.
    WriteFault,
    /// Nothing: memory was refused.
    Memory,
    /// `clock full C`: a call found the clock at its limit, 2^62.
    ClockFull { clock: u64 },
    /// `no L`: the report that was read doesn't replay its workload; `line` is the first line at fault, counted from 1
    /// in the text that has the report.
    No { line: usize },
}

impl Status {
    ghost use Rattle.work_bench.specs.Statuses.{exit_code_of};

    /// The exit status of a program that ends so: 0 for `Ok` and `Help`, then 1 to 7 in the order above.
    pub fn exit_code(self) -> u8
        ensures { result ≡ exit_code_of self }
    {
        match self {
            Status::Ok | Status::Help => 0,
            Status::Usage => 1,
            Status::Refused { .. } => 2,
            Status::ReadFault => 3,
            Status::WriteFault => 4,
            Status::Memory => 5,
            Status::ClockFull { .. } => 6,
            Status::No { .. } => 7,
        }
    }
}
