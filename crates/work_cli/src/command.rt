//! What a command line asks for.

use work_profile::policy::Policy;

/// The most transactions that `gen` makes.
pub const MOST_TRANSACTIONS: u32 = 50_000;

/// What the words of a command line ask for.
#[derive(Clone, Copy, Drop, Debug, PartialEq, Eq)]
pub enum Command {
    /// `run`: the workload that is read, on a thread a caller, under the policy of caller 0.
    Run {
        policy: Policy,
    },
    /// `step`: the workload that is read, in the turns of its schedule.
    Step,
    /// `gen`: a workload that is made, of 1 to [`MOST_TRANSACTIONS`] transactions of 1 to
    /// [`MAX_CALLERS`](stm_model::config::MAX_CALLERS) callers, drawn from the seed.
    Gen {
        transactions: u32,
        callers: u32,
        seed: u64,
    },
    /// `check`: the workload that is read, and the report after it.
    Check,
    /// `check WORKLOAD`: a workload alone.
    CheckWorkload,
    /// `check WORKLOAD REPORT`: a workload, and a report of its own text.
    CheckApart,
}
