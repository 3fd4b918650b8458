//! Whether a call fits where the caller stands.
ghost use Rattle.std.specs.Prelude.{◌≡◌, ◌≢◌, ◌<◌, None, Some, true, false, OnOk, IfOk, IfErr};
ghost use Rattle.std.specs.Arc.{arc_value};
ghost use Rattle.rule_base.specs.Encodings.{fenced};
ghost use Rattle.stm_answers.specs.Answers.{HoldsClosed};
ghost use Rattle.stm_answers.specs.CallerState.{IsIdle, IsRunning};
ghost use Rattle.tx_checked.specs.Errands.{is_closing};
ghost use Rattle.tx_checked.specs.CheckedCallers.{known_to};
ghost use Rattle.tx_checked.specs.declared.phase.CallerPhase.TheVariants.{Idle};
ghost use Rattle.tx_checked.specs.Misuses.{outside, doing, reopening, inside, running, access};

use crate::checked_caller::CheckedCaller;
use crate::errand::Errand;
use crate::misuse::Misuse;
use crate::phase::CallerPhase;
use stm_answers::answers::TxState;
use stm_tx::calls;
use stm_tx::fencing::spares;

impl CheckedCaller {
    /// Whether it is in no attempt.
    pub(crate) fn is_outside(&self) -> Result<(), Misuse>
        ensures ok { OnOk result (IsIdle (known_to self.now)) }
        ensures fits { OnOk result (outside self.now ≡ None) }
        ensures wrong { IfErr result (λ e. outside self.now ≡ Some e) }
    {
        match self.phase {
            CallerPhase::Idle => Ok(()),
            CallerPhase::Running
            | CallerPhase::Beside
            | CallerPhase::Committing
            | CallerPhase::Closing => { Err(self.not_outside()) }
        }
    }

    /// What is wrong where it isn't idle. Apart, and by its state,
    /// so that of a call that fits the phase is only compared.
    #[cold]
    #[inline(never)]
    fn not_outside(&self) -> Misuse
        requires busy { self.now.phase ≢ Idle }
        ensures { outside self.now ≡ Some result }
    {
        match calls::state(&self.desc) {
            TxState::Running(_) | TxState::Committing(_) => Misuse::InAttempt,
            TxState::Idle | TxState::Closing(_) => Misuse::Closing,
        }
    }

    /// Whether a call that must be alone with the memory may be made: the answer is whether the gate was closed for it
    /// before.
    pub(crate) fn may_do(&self, errand: Errand) -> Result<bool, Misuse>
        ensures idle { IfOk result (λ closing. closing ≡ false → IsIdle (known_to self.now)) }
        ensures closed { IfOk result (λ closing. closing ≡ true → HoldsClosed (known_to self.now)) }
        ensures is { IfOk result (λ closing. closing ≡ is_closing self.now.phase) }
        ensures fits { OnOk result (doing errand self.now ≡ None) }
        ensures wrong { IfErr result (λ e. doing errand self.now ≡ Some e) }
    {
        match self.phase {
            CallerPhase::Idle => Ok(false),
            CallerPhase::Running | CallerPhase::Beside | CallerPhase::Committing => Err(
                Misuse::InAttempt,
            ),
            CallerPhase::Closing => {
                if errand.is_same(self.errand) {
                    Ok(true)
                } else {
                    Err(Misuse::Closing)
                }
            }
        }
    }

    /// Whether it has closed the gate for a call that isn't done.
    pub(crate) fn is_closing(&self) -> Result<(), Misuse>
        ensures ok { OnOk result (HoldsClosed (known_to self.now)) }
        ensures fits { OnOk result (reopening self.now ≡ None) }
        ensures wrong { IfErr result (λ e. reopening self.now ≡ Some e) }
    {
        match self.phase {
            CallerPhase::Idle => Err(Misuse::NotClosing),
            CallerPhase::Running | CallerPhase::Beside | CallerPhase::Committing => Err(
                Misuse::InAttempt,
            ),
            CallerPhase::Closing => Ok(()),
        }
    }

    /// Whether it may be let go: in an attempt, or with the gate closed, others would wait for it for ever.
    pub fn may_leave(&self) -> Result<(), Misuse>
        ensures fits { OnOk result (outside self.now ≡ None) }
        ensures wrong { IfErr result (λ e. outside self.now ≡ Some e) }
    {
        self.is_outside()
    }

    /// Whether it is in an attempt.
    pub(crate) fn is_inside(&self) -> Result<(), Misuse>
        ensures ok { OnOk result ((known_to self.now).running ≡ true) }
        ensures fits { OnOk result (inside self.now ≡ None) }
        ensures wrong { IfErr result (λ e. inside self.now ≡ Some e) }
    {
        match calls::state(&self.desc) {
            TxState::Idle => Err(Misuse::NoAttempt),
            TxState::Running(_) | TxState::Committing(_) => Ok(()),
            TxState::Closing(_) => Err(Misuse::Closing),
        }
    }

    /// Whether it is in an attempt that isn't in the middle of its commit.
    pub(crate) fn is_running(&self) -> Result<(), Misuse>
        ensures ok { OnOk result (IsRunning (known_to self.now)) }
        ensures fits { OnOk result (running self.now ≡ None) }
        ensures wrong { IfErr result (λ e. running self.now ≡ Some e) }
    {
        match self.phase {
            CallerPhase::Idle => Err(Misuse::NoAttempt),
            CallerPhase::Running | CallerPhase::Beside => Ok(()),
            CallerPhase::Committing => Err(Misuse::Committing),
            CallerPhase::Closing => Err(Misuse::Closing),
        }
    }

    /// Whether its attempt may read and write the word at `a`.
    pub(crate) fn may_access(&self, a: usize) -> Result<(), Misuse>
        ensures ok { OnOk result (IsRunning (known_to self.now)) }
        ensures within { OnOk result (a < (arc_value self.now.stm).config.words) }
        ensures spared { OnOk result (fenced (known_to self.now).fence a ≡ false) }
        ensures fits { OnOk result (access a self.now ≡ None) }
        ensures wrong { IfErr result (λ e. access a self.now ≡ Some e) }
    {
        if a < self.reach {
            return Ok(());
        }
        match self.phase {
            CallerPhase::Idle => Err(Misuse::NoAttempt),
            CallerPhase::Committing => Err(Misuse::Committing),
            CallerPhase::Closing => Err(Misuse::Closing),
            CallerPhase::Running => Err(Misuse::Address),
            CallerPhase::Beside => {
                if a >= self.stm.config.words {
                    Err(Misuse::Address)
                } else if spares(&self.desc, a) {
                    Ok(())
                } else {
                    Err(Misuse::Fenced)
                }
            }
        }
    }
}
