//! Where a line may come by its caller's lines alone: in an attempt, between two,
//! or while its caller has closed the gate.
ghost use Rattle.std.specs.Prelude.{◌≡◌, ◌<◌, length, Some, None, true, false};
ghost use Rattle.draw_core.specs.Phases.{may_come, passed, phase_after, phase_at};

use stm_answers::answers::{Begin, Cancel, CloseGate, Commit, Irrev, Look};
use work_trace::line::Line;
use work_trace::said::{Phase, Said};

/// Whether an answer may come where its caller stands.
fn may_come(phase: Phase, said: Said) -> bool
    ensures { result ≡ may_come phase said }
{
    match phase {
        Phase::Between => match said {
            Said::TryBegin(_) | Said::TryClose(_) | Said::Reserved { .. } | Said::Idle => true,
            _ => false,
        },
        Phase::Inside => match said {
            Said::Reply(_, _)
            | Said::Stopped(_, _)
            | Said::TryCancel(_)
            | Said::TryIrrevocable(_)
            | Said::TryCommit(_)
            | Said::Dropped => true,
            _ => false,
        },
        Phase::Closing => match said {
            Said::Looked(_) | Said::Reopened => true,
            _ => false,
        },
        Phase::Quiet => match said {
            Said::Installed(_) | Said::Reopened => true,
            _ => false,
        },
    }
}

/// Where its caller stands after it.
fn phase_after(phase: Phase, said: Said) -> Phase
    ensures { result ≡ phase_after phase said }
{
    match said {
        Said::TryBegin(Begin::Begun(_)) => Phase::Inside,
        Said::Stopped(_, _) => Phase::Between,
        Said::TryCancel(Cancel::Cancelled { .. }) => Phase::Between,
        Said::TryIrrevocable(Irrev::Taken { .. } | Irrev::Conflict(_) | Irrev::ClockFull { .. }) =>
            Phase::Between,
        Said::TryCommit(
            Commit::Committed { .. }
            | Commit::ReadOnly { .. }
            | Commit::Conflict(_)
            | Commit::ClockFull { .. },
        ) => Phase::Between,
        Said::TryClose(CloseGate::Closed) => Phase::Closing,
        Said::Looked(Look::Quiet) => Phase::Quiet,
        Said::Installed(_) | Said::Dropped | Said::Reopened => Phase::Between,
        _ => phase,
    }
}

/// Where a caller stands: between two attempts, if nothing is known of it.
pub fn phase_at(phases: &[Phase], caller: usize) -> Phase
    ensures { result ≡ phase_at phases.now caller }
{
    if phases.len() <= caller {
        return Phase::Between;
    }
    phases[caller]
}

/// Whether a line may come where its caller stands; then that one stands where it does after it, else all as before.
pub fn passes(phases: &mut [Phase], line: Line) -> bool
    ensures come { result ≡ true → passed phases.old line ≡ Some phases.new }
    ensures none { result ≡ false → passed phases.old line ≡ None }
    ensures same { result ≡ false → phases.new ≡ phases.old }
{
    match line {
        Line::Finish => true,
        Line::Of { caller, said } => {
            if phases.len() <= caller {
                return false;
            }
            let phase = phases[caller];
            if !may_come(phase, said) {
                return false;
            }
            phases[caller] = phase_after(phase, said);
            true
        }
    }
}
