//! What the calls of a caller came to, counted.
ghost use Rattle.std.specs.Prelude.{◌≡◌};
ghost use Rattle.tx_checked.specs.Counting.{no_counts, after_conflict, after_refusal};

use crate::refusal::Refusal;
use stm_model::stop::Cause;

/// How often the calls of a caller came to what. A count at 2^64 - 1 goes on at 0.
#[repr(C)]
#[derive(Clone, Copy, Drop, Debug, PartialEq, Eq)]
pub struct Counts {
    /// Attempts that began.
    pub begun: u64,
    /// Attempts that committed what they wrote.
    pub committed: u64,
    /// Attempts that committed, and wrote nothing.
    pub read_only: u64,
    /// Calls that found the attempt irrevocable, or made it so.
    pub promoted: u64,
    /// Attempts that ended at a full log.
    pub full_logs: u64,
    /// Answers that ask to wait and to call again.
    pub waits: u64,
    /// Attempts that ended in a conflict, by its cause.
    pub clock_conflicts: u64,
    pub record_conflicts: u64,
    pub moved_conflicts: u64,
    pub filter_conflicts: u64,
    pub overrun_conflicts: u64,
}

impl Counts {
    pub(crate) fn none() -> Counts
        ensures { result ≡ no_counts }
    {
        Counts {
            begun: 0,
            committed: 0,
            read_only: 0,
            promoted: 0,
            full_logs: 0,
            waits: 0,
            clock_conflicts: 0,
            record_conflicts: 0,
            moved_conflicts: 0,
            filter_conflicts: 0,
            overrun_conflicts: 0,
        }
    }

    /// Counts what came in the way of a call.
    pub(crate) fn refuse(&mut self, refusal: Refusal)
        ensures { self.new ≡ after_refusal refusal self.old }
    {
        match refusal {
            Refusal::Conflict(cause) => self.conflict(cause),
            Refusal::GateClosed { .. }
            | Refusal::Held { .. }
            | Refusal::Busy { .. }
            | Refusal::Again { .. } => self.waits = self.waits.wrapping_add(1),
            Refusal::ReadsFull { .. } | Refusal::WritesFull { .. } => self.full_logs = self
                .full_logs
                .wrapping_add(1),
            Refusal::ClockFull { .. }
            | Refusal::Irrevocable
            | Refusal::Deep { .. }
            | Refusal::RangeTaken { .. } => {}
        }
    }

    fn conflict(&mut self, cause: Cause)
        ensures { self.new ≡ after_conflict cause self.old }
    {
        match cause {
            Cause::Clock { .. } => self.clock_conflicts = self.clock_conflicts.wrapping_add(1),
            Cause::Record { .. } => self.record_conflicts = self.record_conflicts.wrapping_add(1),
            Cause::Moved { .. } => self.moved_conflicts = self.moved_conflicts.wrapping_add(1),
            Cause::Filter { .. } => self.filter_conflicts = self.filter_conflicts.wrapping_add(1),
            Cause::Overrun { .. } => self.overrun_conflicts = self
                .overrun_conflicts
                .wrapping_add(1),
        }
    }
}
