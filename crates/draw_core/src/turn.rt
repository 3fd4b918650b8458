//! What a line does to its caller's attempt.
ghost use Rattle.std.specs.Prelude.{◌≡◌};
ghost use Rattle.draw_core.specs.Turns.{irrevocable_turn, turn_of};

use stm_answers::answers::{Begin, Cancel, Commit, Irrev};
use work_script::op::Op;
use work_trace::said::Said;

/// Where a line may come, between its caller's attempts or in one.
#[derive(Clone, Copy, Drop)]
pub enum Stage {
    /// No attempt is open, and a transaction is left.
    Before,
    /// An attempt is open.
    Inside,
    /// An attempt is open, and every operation of its script done.
    Done,
    /// No attempt is open.
    Outside,
    /// No attempt is open, and no transaction is left.
    Over,
}

/// What a line does to its caller's attempt. An operation counts by its name alone.
#[derive(Clone, Copy, Drop)]
pub enum Turn {
    /// An attempt begins.
    Begins,
    /// The next operation, of this name, is done.
    Does(Op),
    /// The attempt ends at the next operation, of this name.
    Stops(Op),
    /// The attempt has become irrevocable: where `irrev` is the next operation, it is done.
    Grants,
    /// The transaction ends at the next operation, a cancel.
    Cancels,
    /// The transaction ends after its last operation.
    Commits,
    /// The attempt ends, at this stage.
    Fails(Stage),
    /// Nothing of that; it comes at this stage.
    Stays(Stage),
}

/// What an answer does to its caller's attempt.
pub fn turn_of(said: Said) -> Turn
    ensures { result ≡ turn_of said }
{
    match said {
        Said::TryBegin(Begin::Begun(_)) => Turn::Begins,
        Said::TryBegin(_) => Turn::Stays(Stage::Before),
        Said::Reply(op, _) => Turn::Does(op),
        Said::Stopped(op, _) => Turn::Stops(op),
        Said::TryCancel(Cancel::Cancelled { .. }) => Turn::Cancels,
        Said::TryCancel(Cancel::Irrevocable) => Turn::Does(Op::Cancel),
        Said::TryIrrevocable(irrev) => irrevocable_turn(irrev),
        Said::TryCommit(Commit::Committed { .. } | Commit::ReadOnly { .. }) => Turn::Commits,
        Said::TryCommit(Commit::Again { .. }) => Turn::Stays(Stage::Done),
        Said::TryCommit(_) => Turn::Fails(Stage::Done),
        Said::Dropped => Turn::Fails(Stage::Inside),
        Said::Idle => Turn::Stays(Stage::Over),
        _ => Turn::Stays(Stage::Outside),
    }
}

/// What an answer to a call for irrevocability does.
fn irrevocable_turn(irrev: Irrev) -> Turn
    ensures { result ≡ irrevocable_turn irrev }
{
    match irrev {
        Irrev::Granted => Turn::Grants,
        Irrev::Busy { .. } => Turn::Stays(Stage::Inside),
        _ => Turn::Fails(Stage::Inside),
    }
}
