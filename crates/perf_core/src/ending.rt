//! How a run of the program ended.
ghost use Rattle.std.specs.Prelude.{◌≡◌};
ghost use Rattle.perf_core.specs.Endings.{exit_code_of, ending_of};

/// How a run of the program ended, with the exit statuses of the other programs.
#[derive(Clone, Copy, Drop, Debug, PartialEq, Eq)]
pub enum Ending {
    /// The memory was what the transactions leave.
    Right,
    /// The help that the words ask for was written.
    Help,
    /// The words ask for nothing.
    Usage,
    /// Standard output failed.
    WriteFault,
    /// Memory was refused.
    Memory,
    /// The memory wasn't what the transactions leave.
    Wrong,
}

impl Ending {
    /// By whether the memory was right.
    pub fn of(is_right: bool) -> Ending
        ensures { result ≡ ending_of is_right }
    {
        if is_right {
            Ending::Right
        } else {
            Ending::Wrong
        }
    }

    /// The exit status.
    pub fn exit_code(self) -> u8
        ensures { result ≡ exit_code_of self }
    {
        match self {
            Ending::Right | Ending::Help => 0,
            Ending::Usage => 1,
            Ending::WriteFault => 4,
            Ending::Memory => 5,
            Ending::Wrong => 7,
        }
    }
}
