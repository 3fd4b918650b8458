//! The calls of an attempt that is none of a loop's; and how a body comes to be irrevocable.
ghost use Rattle.std.specs.Prelude.{◌≡◌, true, OnOk, IfErr, None, Some};
ghost use Rattle.stm_answers.specs.CallerState.{IsRunning, is_irrevocable};
ghost use Rattle.tx_checked.specs.CheckedCallers.{IsServed, config_of, known_to};
ghost use Rattle.tx_checked.specs.Misuses.{inside, looking, outside, running};
ghost use Rattle.tx_checked.specs.Peeking.{HasPeeked};
ghost use Rattle.tx_checked.specs.Tells.{HasBegun, HasCancelled, HasCommitted};
ghost use Rattle.tx_loops.specs.Accesses.{Binds, GrantSays, PassesFree, free_misuse};
ghost use Rattle.tx_loops.specs.Loops.{MadeNothing};
ghost use Rattle.tx_loops.specs.Stages.{IsBound, IsBuffered, has_body, log_at};
ghost use Rattle.tx_loops.specs.declared.stage.Stage.TheVariants.{Buffered};
ghost use Rattle.tx_parts.specs.Laying.{SameLog};

use crate::looping_caller::LoopingCaller;
use crate::stage::Stage;
use crate::storing::store_through;
use stm_answers::answers::{Begin, Cancel, Commit, Irrev};
use stm_logs::write_log::WriteLog;
use stm_tx::Algorithm;
use stm_tx::serving::Calls;
use tx_checked::checked_caller::CheckedCaller;
use tx_checked::misuse::Misuse;
use tx_checked::peeking::Peek;

impl LoopingCaller {
    /// Whether no body of a loop runs, which alone ends its attempt.
    #[inline(always)]
    pub fn is_free(&self) -> Result<(), Misuse>
        ensures fits { OnOk result (free_misuse self.now.stage ≡ None) }
        ensures wrong { IfErr result (λ e. free_misuse self.now.stage ≡ Some e) }
    {
        match self.stage {
            Stage::Free => Ok(()),
            Stage::Direct
            | Stage::Bound
            | Stage::Lapsed
            | Stage::Buffered
            | Stage::Asking
            | Stage::Committing => Err(Misuse::InAttempt),
        }
    }

    /// Tries to begin an attempt.
    pub fn begin(&mut self) -> Result<Begin, Misuse>
        ensures { PassesFree outside HasBegun self.old self.new result }
    {
        self.is_free()?;
        self.caller.begin()
    }

    /// As `CheckedCaller::peek_as`.
    #[inline(always)]
    pub fn peek_as<A: Algorithm>(&mut self, a: usize) -> Result<Peek, Misuse>
        requires free { free_misuse self.old.stage ≡ None }
        ensures { PassesFree (looking a) (HasPeeked a) self.old self.new result }
    {
        self.caller.peek_as::<A>(a)
    }

    /// Commits it, by calls that serve its algorithm.
    #[inline(always)]
    pub fn commit_by<C: Calls>(&mut self, calls: &C) -> Result<Commit, Misuse>
        requires served { IsServed C.acts_as (known_to self.old.caller) }
        ensures { PassesFree inside HasCommitted self.old self.new result }
    {
        self.is_free()?;
        self.caller.commit_by(calls)
    }

    /// Cancels it.
    pub fn cancel(&mut self) -> Result<Cancel, Misuse>
        ensures { PassesFree inside HasCancelled self.old self.new result }
    {
        self.is_free()?;
        self.caller.cancel()
    }

    /// Tries to make the attempt irrevocable. A body says by it that it can't stop: then what lies in its buffer is
    /// stored.
    pub fn try_irrevocable(&mut self) -> Result<Irrev, Misuse>
        ensures { GrantSays self.old self.new result }
    {
        match self.stage {
            Stage::Asking | Stage::Committing => Err(Misuse::Committing),
            Stage::Bound => Ok(Irrev::Granted),
            Stage::Free | Stage::Lapsed => self.caller.try_irrevocable(),
            Stage::Direct | Stage::Buffered => self.bind(),
        }
    }

    fn bind(&mut self) -> Result<Irrev, Misuse>
        requires body { has_body self.old.stage ≡ true }
        ensures { Binds self.old self.new result }
    {
        match self.caller.try_irrevocable() {
            Ok(Irrev::Granted) => {
                lay_down(self.stage, &mut self.caller, &self.buffer);
                self.stage = Stage::Bound;
                Ok(Irrev::Granted)
            }
            Ok(Irrev::Busy { caller, status }) => Ok(Irrev::Busy { caller, status }),
            Ok(Irrev::Taken { gate }) => Ok(Irrev::Taken { gate }),
            Ok(Irrev::Conflict(cause)) => {
                self.stage = Stage::Lapsed;
                Ok(Irrev::Conflict(cause))
            }
            Ok(Irrev::ClockFull { clock }) => {
                self.stage = Stage::Lapsed;
                Ok(Irrev::ClockFull { clock })
            }
            Err(misuse) => Err(misuse),
        }
    }
}

/// Has what a body wrote that can't stop any more lie in its attempt, where it lay in the buffer, with as many marks.
fn lay_down(stage: Stage, caller: &mut CheckedCaller, buffer: &WriteLog)
    requires running { IsRunning (known_to caller.old) }
    requires irrevocable { is_irrevocable (known_to caller.old) ≡ true }
    requires buffered { stage ≡ Buffered
        → IsBuffered (known_to caller.old) (config_of caller.old).words buffer.now.items }
    requires body { has_body stage ≡ true }
    ensures nothing { MadeNothing caller.old caller.new }
    ensures bound { IsBound (known_to caller.new) }
    ensures log { SameLog (log_at stage (known_to caller.old).log buffer.now.items)
        (known_to caller.new).log }
{
    if let Stage::Buffered = stage {
        store_through(caller, buffer);
        mark_often(caller, buffer.depth());
    }
}

/// Makes so many marks in an attempt that can't be taken back: they can be dropped.
fn mark_often(caller: &mut CheckedCaller, depth: usize)
    requires running { IsRunning (known_to caller.old) }
    requires irrevocable { is_irrevocable (known_to caller.old) ≡ true }
    ensures nothing { MadeNothing caller.old caller.new }
    ensures log { (known_to caller.new).log ≡ (known_to caller.old).log }
    ensures running { IsRunning (known_to caller.new) }
    ensures irrevocable { is_irrevocable (known_to caller.new) ≡ true }
{
    for _ in 0..depth {
        let _ = caller.checkpoint();
    }
}
