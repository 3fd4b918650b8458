//! The reads and writes of an attempt, for a caller with its memory.
ghost use Rattle.std.specs.Prelude.{◌≡◌};
ghost use Rattle.tx_checked.specs.CheckedCallers.{IsServed, known_to};
ghost use Rattle.tx_checked.specs.Misuses.{access};
ghost use Rattle.tx_checked.specs.Tells.{Tells, HasReadWord, HasWrittenWord};

use crate::checked_caller::CheckedCaller;
use crate::misuse::Misuse;
use crate::phase::CallerPhase;
use crate::refusal::Refusal;
use stm_answers::answers::{Read, Write};
use stm_tx::serving::{AnyAlgorithm, Calls};

impl CheckedCaller {
    /// Reads the word at `a`, as `stm_tx::calls::read` does.
    #[inline(always)]
    pub fn read(&mut self, a: usize) -> Result<Read, Misuse>
        ensures { Tells (access a self.old) (HasReadWord a self.old self.new) self.old self.new
            result }
    {
        self.read_by(&AnyAlgorithm, a)
    }

    /// The same by calls that serve the attempt's algorithm.
    #[inline(always)]
    pub fn read_by<C: Calls>(&mut self, calls: &C, a: usize) -> Result<Read, Misuse>
        requires served { IsServed C.acts_as (known_to self.old) }
        ensures { Tells (access a self.old) (HasReadWord a self.old self.new) self.old self.new
            result }
    {
        self.may_access(a)?;
        match calls.read(&mut self.desc, &self.stm, a) {
            Read::Value(word) => Ok(Read::Value(word)),
            Read::Conflict(cause) => {
                self.phase = CallerPhase::Idle;
                self.reach = 0;
                self.refusal = Some(Refusal::Conflict(cause));
                self.counts.refuse(Refusal::Conflict(cause));
                Ok(Read::Conflict(cause))
            }
            Read::Full { limit } => {
                self.phase = CallerPhase::Idle;
                self.reach = 0;
                self.refusal = Some(Refusal::ReadsFull { limit });
                self.counts.refuse(Refusal::ReadsFull { limit });
                Ok(Read::Full { limit })
            }
        }
    }

    /// Writes `x` to the word at `a`, as `stm_tx::calls::write` does.
    #[inline(always)]
    pub fn write(&mut self, a: usize, x: u64) -> Result<Write, Misuse>
        ensures { Tells (access a self.old) (HasWrittenWord a x self.old self.new) self.old self.new
            result }
    {
        self.write_by(&AnyAlgorithm, a, x)
    }

    /// The same by calls that serve the attempt's algorithm.
    #[inline(always)]
    pub fn write_by<C: Calls>(&mut self, calls: &C, a: usize, x: u64) -> Result<Write, Misuse>
        requires served { IsServed C.acts_as (known_to self.old) }
        ensures { Tells (access a self.old) (HasWrittenWord a x self.old self.new) self.old self.new
            result }
    {
        self.may_access(a)?;
        match calls.write(&mut self.desc, &self.stm, a, x) {
            Write::Done => Ok(Write::Done),
            Write::Conflict(cause) => {
                self.phase = CallerPhase::Idle;
                self.reach = 0;
                self.refusal = Some(Refusal::Conflict(cause));
                self.counts.refuse(Refusal::Conflict(cause));
                Ok(Write::Conflict(cause))
            }
            Write::Full { limit } => {
                self.phase = CallerPhase::Idle;
                self.reach = 0;
                self.refusal = Some(Refusal::WritesFull { limit });
                self.counts.refuse(Refusal::WritesFull { limit });
                Ok(Write::Full { limit })
            }
            Write::ClockFull { clock } => {
                self.phase = CallerPhase::Idle;
                self.reach = 0;
                self.refusal = Some(Refusal::ClockFull { clock });
                Ok(Write::ClockFull { clock })
            }
        }
    }
}
