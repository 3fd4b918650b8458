//! The reads and writes of a caller that may be in a loop.
ghost use Rattle.std.specs.Prelude.{◌≡◌, [], true, false, Some, None, OnOk, IfErr, IfSome, IfNone};
ghost use Rattle.stm_answers.specs.CallerState.{IsIdle, IsRunning};
ghost use Rattle.tx_checked.specs.CheckedCallers.{IsServed, config_of, known_to};
ghost use Rattle.tx_checked.specs.Misuses.{access};
ghost use Rattle.tx_checked.specs.declared.refusal.Refusal.TheVariants as refusals;
ghost use Rattle.tx_loops.specs.Accesses.{ReadSays, ReadsHere, ReadsOn, WriteSays, WritesInto};
ghost use Rattle.tx_loops.specs.Loops.{MadeNothing};
ghost use Rattle.tx_loops.specs.Stages.{IsSpared, is_plain};
ghost use Rattle.tx_loops.specs.declared.stage.Stage.TheVariants.{Buffered, Direct};

use crate::ends::end_blank;
use crate::looping_caller::LoopingCaller;
use crate::stage::Stage;
use stm_answers::answers::{Read, Write};
use stm_logs::push::Push;
use stm_tx::fencing::spares;
use stm_tx::serving::{AnyAlgorithm, Calls};
use tx_checked::checked_caller::CheckedCaller;
use tx_checked::misuse::Misuse;
use tx_checked::phase::CallerPhase;
use tx_checked::refusal::Refusal;

impl LoopingCaller {
    /// Reads the word at `a`: the buffer's write of it, else as the caller does by these calls.
    #[inline(always)]
    #[tactic(auto, using(crate::proofs::ReadLaws::reads_here, crate::proofs::ReadLaws::reads_on))]
    pub fn read_by<C: Calls>(&mut self, calls: &C, a: usize) -> Result<Read, Misuse>
        requires served { IsServed C.acts_as (known_to self.old.caller) }
        ensures { ReadSays a self.old self.new result }
    {
        if let Some(answer) = self.read_here(a) {
            return answer;
        }
        match self.caller.read_by(calls, a) {
            Ok(Read::Value(x)) => Ok(Read::Value(x)),
            Ok(refused) => {
                self.stage = self.stage.lapsed();
                Ok(refused)
            }
            Err(misuse) => Err(misuse),
        }
    }

    /// What a read comes to that doesn't go to the attempt. In a buffer without the address's bit that is two tests.
    #[inline(always)]
    fn read_here(&self, a: usize) -> Option<Result<Read, Misuse>>
        ensures here { IfSome result (ReadsHere a self.now.stage self.now) }
        ensures below { IfNone result (ReadsOn a self.now.stage self.now) }
    {
        match self.stage {
            Stage::Free | Stage::Direct | Stage::Bound | Stage::Lapsed => None,
            Stage::Buffered => match self.buffer.find(a) {
                Some(x) => Some(Ok(Read::Value(x))),
                None => None,
            },
            Stage::Asking | Stage::Committing => Some(Err(Misuse::Committing)),
        }
    }

    /// Whether a read goes to the attempt, whatever its address.
    #[inline(always)]
    pub fn is_straight(&self) -> bool {
        match self.stage {
            Stage::Free | Stage::Direct | Stage::Bound | Stage::Lapsed => true,
            Stage::Buffered => self.buffer.count() == 0,
            Stage::Asking | Stage::Committing => false,
        }
    }

    /// Whether a body runs in an attempt that can be taken back.
    #[inline(always)]
    pub fn is_direct(&self) -> bool
        ensures direct { result ≡ true → self.now.stage ≡ Direct }
        ensures revocable { result ≡ true → (known_to self.now.caller).granted ≡ false }
    {
        match self.stage {
            Stage::Direct => true,
            _ => false,
        }
    }

    /// Whether writes go into the buffer.
    #[inline(always)]
    pub fn is_buffered(&self) -> bool
        ensures { result ≡ true → self.now.stage ≡ Buffered }
    {
        match self.stage {
            Stage::Buffered => true,
            _ => false,
        }
    }

    /// Writes `x` to the word at `a`: into the buffer, where the body has one.
    #[inline(always)]
    pub fn write(&mut self, a: usize, x: u64) -> Result<Write, Misuse>
        ensures { WriteSays a x self.old self.new result }
    {
        self.write_by(&AnyAlgorithm, a, x)
    }

    /// The same, by these calls.
    #[inline(always)]
    pub fn write_by<C: Calls>(&mut self, calls: &C, a: usize, x: u64) -> Result<Write, Misuse>
        requires served { IsServed C.acts_as (known_to self.old.caller) }
        ensures { WriteSays a x self.old self.new result }
    {
        if !self.is_plain() {
            return self.write_apart(a, x);
        }
        self.write_plain_by(calls, a, x)
    }

    /// Whether writes go to the attempt as they are.
    #[inline(always)]
    pub fn is_plain(&self) -> bool
        ensures { result ≡ is_plain self.now.stage }
    {
        self.stage.is_plain()
    }

    /// The same, where they do.
    #[inline(always)]
    pub fn write_plain_by<C: Calls>(&mut self, calls: &C, a: usize, x: u64) -> Result<Write, Misuse>
        requires served { IsServed C.acts_as (known_to self.old.caller) }
        requires plain { is_plain self.old.stage ≡ true }
        ensures { WriteSays a x self.old self.new result }
    {
        match self.caller.write_by(calls, a, x) {
            Ok(Write::Done) => Ok(Write::Done),
            Ok(refused) => {
                self.stage = self.stage.lapsed();
                Ok(refused)
            }
            Err(misuse) => Err(misuse),
        }
    }

    /// The same, where they don't.
    #[inline(never)]
    pub fn write_apart(&mut self, a: usize, x: u64) -> Result<Write, Misuse>
        requires apart { is_plain self.old.stage ≡ false }
        ensures { WriteSays a x self.old self.new result }
    {
        match self.stage {
            Stage::Buffered => self.write_into(a, x),
            _ => Err(Misuse::Committing),
        }
    }

    /// Writes into the buffer. Where that has no room the attempt ends, and leaves nothing.
    #[inline(always)]
    pub fn write_into(&mut self, a: usize, x: u64) -> Result<Write, Misuse>
        requires buffered { self.old.stage ≡ Buffered }
        ensures { WritesInto a x self.old self.new result }
    {
        may_access(&self.caller, a)?;
        match self.buffer.push(a, x) {
            Push::Done => Ok(Write::Done),
            Push::Full { limit } => {
                overflow(&mut self.caller, limit);
                self.stage = Stage::Lapsed;
                Ok(Write::Full { limit })
            }
        }
    }
}

/// Ends the attempt of a body whose buffer has no room.
#[cold]
#[inline(never)]
fn overflow(caller: &mut CheckedCaller, limit: usize)
    requires running { IsRunning (known_to caller.old) }
    requires blank { (known_to caller.old).log.writes ≡ [] }
    ensures nothing { MadeNothing caller.old caller.new }
    ensures idle { IsIdle (known_to caller.new) }
    ensures refusal { caller.new.refusal ≡ Some (refusals.WritesFull limit) }
{
    end_blank(caller);
    caller.refusal = Some(Refusal::WritesFull { limit });
    caller.counts.full_logs = caller.counts.full_logs.wrapping_add(1);
}

/// Whether the attempt may read and write the word at `a`.
#[inline(always)]
fn may_access(caller: &CheckedCaller, a: usize) -> Result<(), Misuse>
    requires running { IsRunning (known_to caller.now) }
    ensures spared { OnOk result
        (IsSpared (config_of caller.now).words (known_to caller.now).fence a) }
    ensures fits { OnOk result (access a caller.now ≡ None) }
    ensures wrong { IfErr result (λ e. access a caller.now ≡ Some e) }
{
    if a < caller.reach {
        return Ok(());
    }
    match caller.phase {
        CallerPhase::Idle => Err(Misuse::NoAttempt),
        CallerPhase::Committing => Err(Misuse::Committing),
        CallerPhase::Closing => Err(Misuse::Closing),
        CallerPhase::Running => Err(Misuse::Address),
        CallerPhase::Beside => {
            if a >= caller.stm.config.words {
                Err(Misuse::Address)
            } else if spares(&caller.desc, a) {
                Ok(())
            } else {
                Err(Misuse::Fenced)
            }
        }
    }
}
