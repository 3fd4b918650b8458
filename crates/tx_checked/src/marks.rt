//! Closed nesting by marks, for a caller with its memory.
ghost use Rattle.std.specs.Prelude.{◌≡◌, ◌≤◌, None, Some, OnOk, IfErr};
ghost use Rattle.stm_tx.specs.Nesting.{live_marks};
ghost use Rattle.stm_answers.specs.CallerState.{IsRunning};
ghost use Rattle.tx_checked.specs.CheckedCallers.{known_to};
ghost use Rattle.tx_checked.specs.Misuses.{running, at_mark};
ghost use Rattle.tx_checked.specs.Tells.{Tells, HasMarked, HasRolled, HasDropped};

use crate::checked_caller::CheckedCaller;
use crate::misuse::Misuse;
use crate::refusal::Refusal;
use stm_answers::answers::{Check, Roll};
use stm_tx::nesting;

impl CheckedCaller {
    /// Whether it is in an attempt at which mark `depth` stands.
    fn is_at_mark(&self, depth: usize) -> Result<(), Misuse>
        ensures ok { OnOk result (IsRunning (known_to self.now)) }
        ensures in_phase { OnOk result ((1 ≤ depth) × (depth ≤ (known_to self.now).depth)) }
        ensures fits { OnOk result (at_mark depth self.now ≡ None) }
        ensures wrong { IfErr result (λ e. at_mark depth self.now ≡ Some e) }
    {
        self.is_running()?;
        if depth == 0 || depth > nesting::marks(&self.desc) {
            return Err(Misuse::Depth);
        }
        Ok(())
    }

    /// Makes a mark at what the attempt has written, as `stm_tx::nesting::checkpoint` does.
    pub fn checkpoint(&mut self) -> Result<Check, Misuse>
        ensures { Tells (running self.old) (HasMarked self.old self.new) self.old self.new result }
    {
        self.is_running()?;
        match nesting::checkpoint(&mut self.desc) {
            Check::Marked { depth } => Ok(Check::Marked { depth }),
            Check::Deep { limit } => {
                self.refusal = Some(Refusal::Deep { limit });
                Ok(Check::Deep { limit })
            }
        }
    }

    /// Rolls the attempt back to mark `depth`, as `stm_tx::nesting::roll_to` does.
    pub fn roll_to(&mut self, depth: usize) -> Result<Roll, Misuse>
        ensures { Tells (at_mark depth self.old) (HasRolled depth self.old self.new) self.old
            self.new result }
    {
        self.is_at_mark(depth)?;
        match nesting::roll_to(&mut self.desc, &self.stm, depth) {
            Roll::Rolled => Ok(Roll::Rolled),
            Roll::Irrevocable => {
                self.refusal = Some(Refusal::Irrevocable);
                Ok(Roll::Irrevocable)
            }
        }
    }

    /// Drops the marks from `depth` on, as `stm_tx::nesting::release` does.
    pub fn drop_marks(&mut self, depth: usize) -> Result<(), Misuse>
        ensures { Tells (at_mark depth self.old) (HasDropped depth self.old self.new) self.old
            self.new result }
    {
        self.is_at_mark(depth)?;
        nesting::release(&mut self.desc, depth);
        Ok(())
    }

    /// How many marks stand.
    pub fn marks(&self) -> usize
        ensures { result ≡ live_marks (known_to self.now) }
    {
        nesting::marks(&self.desc)
    }
}
