//! Where a caller stands.
ghost use Rattle.std.specs.Prelude.{◌≡◌};
ghost use Rattle.tx_checked.specs.Phases.{phase_after};

use crate::refusal::Refusal;

/// Where a caller stands between two calls.
#[derive(Clone, Copy, Drop, Debug, PartialEq, Eq)]
pub enum CallerPhase {
    /// In an attempt that may read and write everywhere.
    Running,
    /// In an attempt that began while a range was out of the transactions:
    /// each access looks whether its word is spared.
    Beside,
    /// In an attempt, whose commit answered `Again`.
    Committing,
    /// In no attempt.
    Idle,
    /// In no attempt, with the gate closed for its errand, which answered `Busy`: no attempt of others begins until the
    /// call is done or given up.
    Closing,
}

impl CallerPhase {
    /// Where a caller stands whose errand was refused so: at Busy it keeps the gate.
    pub(crate) fn after(refusal: Refusal) -> CallerPhase
        ensures { result ≡ phase_after refusal }
    {
        match refusal {
            Refusal::Busy { .. } => CallerPhase::Closing,
            Refusal::Conflict(_)
            | Refusal::GateClosed { .. }
            | Refusal::Held { .. }
            | Refusal::Again { .. }
            | Refusal::ReadsFull { .. }
            | Refusal::WritesFull { .. }
            | Refusal::ClockFull { .. }
            | Refusal::Irrevocable
            | Refusal::Deep { .. }
            | Refusal::RangeTaken { .. } => CallerPhase::Idle,
        }
    }
}
