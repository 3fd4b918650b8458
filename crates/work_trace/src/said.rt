//! What a turn says, and where a caller stands.
ghost use Rattle.std.specs.Prelude.{◌≡◌};

use stm_answers::answers::{Begin, Cancel, CloseGate, Commit, Irrev, Look};
use stm_model::alg::Alg;
use stm_model::stop::Stop;
use work_script::op::Op;

/// The answer of a turn's call.
#[derive(Clone, Copy, Drop, Debug, PartialEq, Eq)]
pub enum Said {
    TryBegin(Begin),
    /// The operation and its reply.
    Reply(Op, u64),
    /// The operation, and why it ended the attempt.
    Stopped(Op, Stop),
    TryCancel(Cancel),
    /// Asked for by the operation `irrev`, or forced on an attempt after too many that failed.
    TryIrrevocable(Irrev),
    TryCommit(Commit),
    TryClose(CloseGate),
    Looked(Look),
    /// The gate was opened again under this algorithm.
    Installed(Alg),
    /// The caller's logs have these lengths, or were longer.
    Reserved { reads: usize, writes: usize },
    /// Nothing is left to do.
    Idle,
    /// Once the schedule is over: the open attempt was cancelled.
    Dropped,
    /// Once the schedule is over: the closing was given up.
    Reopened,
}

impl Said {
    ghost use Rattle.work_trace.specs.Places.{clock_of};

    /// The clock that the call found at its limit.
    pub fn full_clock(self) -> Option<u64>
        ensures { result ≡ clock_of self }
    {
        match self {
            Said::TryBegin(Begin::ClockFull { clock }) => Some(clock),
            Said::Stopped(_, Stop::ClockFull { clock }) => Some(clock),
            Said::TryIrrevocable(Irrev::ClockFull { clock }) => Some(clock),
            Said::TryCommit(Commit::ClockFull { clock }) => Some(clock),
            _ => None,
        }
    }
}

/// Where a caller stands.
#[derive(Clone, Copy, Drop, Debug, PartialEq, Eq)]
pub enum Phase {
    /// No attempt is open.
    Between,
    /// An attempt is open.
    Inside,
    /// The caller has closed the gate, and another may still be in an attempt.
    Closing,
    /// The caller has closed the gate, and no other is in an attempt.
    Quiet,
}
