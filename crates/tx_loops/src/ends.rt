//! How an attempt of a body ends.
ghost use Rattle.std.specs.Prelude.{◌≡◌, [], true, false};
ghost use Rattle.stm_answers.specs.CallerState.{IsIdle, is_irrevocable};
ghost use Rattle.tx_checked.specs.CheckedCallers.{IsServed, known_to};
ghost use Rattle.tx_loops.specs.Ends.{outcome_of};
ghost use Rattle.tx_loops.specs.Hindrances.{HindersCommit};
ghost use Rattle.tx_loops.specs.Loops.{AsksAgain, EndsBy, IsRefused, IsThrough, MadeNothing};

use stm_answers::answers::Commit;
use stm_tx::serving::Calls;
use tx_checked::checked_caller::CheckedCaller;
use tx_checked::misuse::Misuse;

/// What a commit came to.
#[derive(Clone, Copy, Drop)]
pub(crate) enum CommitOutcome {
    /// It took effect.
    Done,
    /// Another commit was faster: it is to be asked again.
    Again,
    /// The attempt has ended, and left nothing.
    Refused,
}

/// Commits, by calls that serve its algorithm.
#[inline(always)]
pub(crate) fn commit_body<C: Calls>(calls: &C, caller: &mut CheckedCaller) -> CommitOutcome
    requires served { IsServed C.acts_as (known_to caller.old) }
    requires running { (known_to caller.old).running ≡ true }
    ensures done { result ≡ CommitOutcome.Done → IsThrough caller.old caller.new }
    ensures again { result ≡ CommitOutcome.Again → AsksAgain caller.old caller.new }
    ensures refused { result ≡ CommitOutcome.Refused → IsRefused caller.old caller.new }
    ensures hindered { result ≡ CommitOutcome.Refused
        → EndsBy (HindersCommit caller.old caller.new) caller.new }
{
    outcome_of(caller.commit_by(calls))
}

#[inline(always)]
fn outcome_of(answer: Result<Commit, Misuse>) -> CommitOutcome
    ensures { result ≡ outcome_of answer }
{
    match answer {
        Ok(Commit::Committed { .. }) => CommitOutcome::Done,
        Ok(Commit::ReadOnly { .. }) => CommitOutcome::Done,
        Ok(Commit::Again { .. }) => CommitOutcome::Again,
        Ok(Commit::Conflict(_)) => CommitOutcome::Refused,
        Ok(Commit::ClockFull { .. }) => CommitOutcome::Refused,
        Err(_) => CommitOutcome::Refused,
    }
}

/// Ends an attempt that has written nothing.
pub(crate) fn end_blank(caller: &mut CheckedCaller)
    requires running { (known_to caller.old).running ≡ true }
    requires blank { (known_to caller.old).log.writes ≡ [] }
    ensures idle { IsIdle (known_to caller.new) }
    ensures nothing { MadeNothing caller.old caller.new }
    ensures refusal { caller.new.refusal ≡ caller.old.refusal }
{
    let _ = caller.commit();
}

/// Ends an attempt that can be taken back.
pub(crate) fn take_back(caller: &mut CheckedCaller)
    requires running { (known_to caller.old).running ≡ true }
    requires revocable { is_irrevocable (known_to caller.old) ≡ false }
    ensures idle { IsIdle (known_to caller.new) }
    ensures nothing { MadeNothing caller.old caller.new }
    ensures refusal { caller.new.refusal ≡ caller.old.refusal }
{
    let _ = caller.cancel();
}
