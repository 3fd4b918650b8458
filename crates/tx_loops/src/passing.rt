//! The calls that a loop has no part in.
ghost use Rattle.std.specs.Prelude.{◌≡◌, length, true, IfErr, OnOk, None, Some};
ghost use Rattle.stm_answers.specs.CallerState.{state_of};
ghost use Rattle.tx_checked.specs.CheckedCallers.{is_beside, known_to};
ghost use Rattle.tx_checked.specs.Endings.{HasEnded};
ghost use Rattle.tx_checked.specs.Learning.{HasLearned, IsAsked, TellsSameMemory, meeting};
ghost use Rattle.tx_checked.specs.Misuses.{doing, ending, giving, in_range, reopening, reserving, taking};
ghost use Rattle.tx_checked.specs.Ranges.{HasGiven, HasReadDirect, HasTaken, HasWrittenDirect};
ghost use Rattle.tx_checked.specs.Tells.{HasReopened, HasReserved, HasSwitched, Tells};
ghost use Rattle.tx_checked.specs.declared.errand.Errand.TheVariants.{Switch};
ghost use Rattle.tx_loops.specs.Accesses.{Passes, SameLoop, leaving};

use crate::looping_caller::LoopingCaller;
use std::alloc::Global;
use stm_answers::answers::{Give, TxState};
use stm_model::alg::Alg;
use stm_model::memory::Memory;
use tx_checked::misuse::Misuse;
use tx_checked::refusal::Refusal;

impl LoopingCaller {
    /// As `CheckedCaller::switch`.
    pub fn switch(&mut self, alg: Alg) -> Result<Result<(), Refusal>, Misuse>
        ensures { Passes (doing (Switch alg)) (HasSwitched alg) self.old self.new result }
    {
        self.caller.switch(alg)
    }

    /// As `CheckedCaller::reopen`.
    pub fn reopen(&mut self) -> Result<(), Misuse>
        ensures { Passes reopening HasReopened self.old self.new result }
    {
        self.caller.reopen()
    }

    /// As `CheckedCaller::fence`.
    pub fn fence(&mut self, from: usize, count: usize) -> Result<Result<(), Refusal>, Misuse>
        ensures { Passes (taking from count) (HasTaken from count) self.old self.new result }
    {
        self.caller.fence(from, count)
    }

    /// As `CheckedCaller::direct_read`.
    pub fn direct_read(&mut self, a: usize) -> Result<u64, Misuse>
        ensures { Passes (in_range a) (HasReadDirect a) self.old self.new result }
    {
        self.caller.direct_read(a)
    }

    /// As `CheckedCaller::direct_write`.
    pub fn direct_write(&mut self, a: usize, x: u64) -> Result<(), Misuse>
        ensures { Passes (in_range a) (HasWrittenDirect a x) self.old self.new result }
    {
        self.caller.direct_write(a, x)
    }

    /// As `CheckedCaller::give_back`.
    pub fn give_back(&mut self) -> Result<Result<Give, Refusal>, Misuse>
        ensures { Passes giving HasGiven self.old self.new result }
    {
        self.caller.give_back()
    }

    /// As `CheckedCaller::end`.
    pub fn end(&mut self, words: &mut [u64]) -> Result<Result<(), Refusal>, Misuse>
        ensures tells { Tells (ending (length words.old) self.old.caller)
            (HasEnded self.old.caller self.new.caller words.old words.new) self.old.caller
            self.new.caller result }
        ensures loop_is { SameLoop self.old self.new }
        ensures misuse { IfErr result (λ _. words.new ≡ words.old) }
    {
        self.caller.end(words)
    }

    /// As `CheckedCaller::reserve`.
    pub fn reserve(
        &mut self,
        alloc: Global,
        reads: usize,
        writes: usize,
    ) -> Result<Result<(), Memory>, Misuse>
        ensures { Passes (reserving reads writes) (HasReserved reads writes) self.old self.new
            result }
    {
        self.caller.reserve(alloc, reads, writes)
    }

    /// As `CheckedCaller::learn`.
    pub fn learn(&mut self, from: &mut LoopingCaller) -> Result<(), Misuse>
        ensures tells { TellsSameMemory (meeting self.old.caller from.old.caller)
            (HasLearned self.old.caller from.old.caller self.new.caller) self.old.caller
            self.new.caller result }
        ensures from { IsAsked (meeting self.old.caller from.old.caller) from.old.caller
            from.new.caller }
        ensures loop_is { SameLoop self.old self.new }
        ensures other_loop_is { SameLoop from.old from.new }
    {
        self.caller.learn(&mut from.caller)
    }

    /// As `CheckedCaller::algorithm`.
    #[inline]
    pub fn algorithm(&self) -> Alg
        ensures { (known_to self.now.caller).running ≡ true
            → (known_to self.now.caller).alg ≡ result }
    {
        self.caller.algorithm()
    }

    /// As `CheckedCaller::state`.
    pub fn state(&self) -> TxState
        ensures { result ≡ state_of (known_to self.now.caller) }
    {
        self.caller.state()
    }

    /// As `CheckedCaller::is_beside`.
    pub fn is_beside(&self) -> bool
        ensures { result ≡ is_beside (known_to self.now.caller) }
    {
        self.caller.is_beside()
    }

    /// Whether it may be let go: in an attempt, with the gate closed or with a range out others would wait for it for
    /// ever.
    pub fn may_leave(&self) -> Result<(), Misuse>
        ensures fits { OnOk result (leaving self.now.caller ≡ None) }
        ensures wrong { IfErr result (λ e. leaving self.now.caller ≡ Some e) }
    {
        self.caller.may_leave()?;
        match self.caller.range {
            None => Ok(()),
            Some(_) => Err(Misuse::HoldsRange),
        }
    }
}
