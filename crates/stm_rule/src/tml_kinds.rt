//! A function for each kind of step of an attempt of TML. Each costs
//! one atomic step, and takes no memory.
ghost use Rattle.rule_base.specs.StepKinds.{Nothing};
ghost use Rattle.rule_seq.specs.CglSteps.{Commits};
ghost use Rattle.rule_seq.specs.TmlSteps.{tml_begin, CanTmlBegin, tml_load, CanTmlLoad, tml_again, CanTmlAgain, tml_write, CanTmlWrite, tml_store, CanTmlStore, tml_commit, CanTmlCommit, TmlLoads};
ghost use Rattle.std.specs.Prelude.{◌<◌, ℕ, ◌≡◌};
ghost use Rattle.stm_rule.specs.Callers.{IsSeatOf};
ghost use Rattle.stm_rule.specs.Findings.{FindsSole, FindsBegin, FindsAgain};
ghost use Rattle.stm_rule.specs.Kinds.Lifting.{IsSpared};
ghost use Rattle.stm_rule.specs.Kept.{good_of, SeatTells, IsSameSeat, view_of};

use crate::stm::{Stm, Token};
use rule_base::layout::At;
use std::marker::Brand;
use stm_model::rule::MemRule;

impl<K: MemRule> Stm<K> {
    /// Loads the clock, an even one as the start, and answers it.
    pub fn tml_begin(&self, seat: &mut Token<K>, caller: usize) -> u64
        requires seat { IsSeatOf self.now caller seat.old }
        requires view { CanTmlBegin (view_of seat.old) }
        ensures same { IsSameSeat seat.old seat.new }
        ensures step { SeatTells tml_begin
            (FindsBegin (good_of K.good self.now.config self.now.rule) self.now.config)
            seat.old.me.0 result seat.new.me.0 }
    {
        self.load_as::<Brand, usize>(seat, At::Clock, &caller)
    }

    /// Loads the heap word at `a`, and answers it.
    pub fn tml_load(&self, seat: &mut Token<K>, caller: usize, a: usize) -> u64
        requires seat { IsSeatOf self.now caller seat.old }
        requires view { CanTmlLoad self.now.config.words a (view_of seat.old) }
        requires spared { IsSpared a (view_of seat.old) }
        ensures same { IsSameSeat seat.old seat.new }
        ensures step { SeatTells (tml_load a)
            (TmlLoads (good_of K.good self.now.config self.now.rule) self.now.config a)
            seat.old.me.0 result seat.new.me.0 }
    {
        self.load_as::<Brand, usize>(seat, At::Heap(a), &caller)
    }

    /// Loads the clock again, and answers it.
    pub fn tml_again(&self, seat: &mut Token<K>, caller: usize) -> u64
        requires seat { IsSeatOf self.now caller seat.old }
        requires view { CanTmlAgain (view_of seat.old) }
        ensures same { IsSameSeat seat.old seat.new }
        ensures step { SeatTells tml_again
            (FindsAgain (good_of K.good self.now.config self.now.rule) self.now.config)
            seat.old.me.0 result seat.new.me.0 }
    {
        self.load_as::<Brand, usize>(seat, At::Clock, &caller)
    }

    /// Exchanges the clock, the start for the next number, and answers the clock found.
    pub fn tml_write(&self, seat: &mut Token<K>, caller: usize, start: u64) -> u64
        requires seat { IsSeatOf self.now caller seat.old }
        requires caller { caller < self.now.config.callers }
        requires view { CanTmlWrite start (view_of seat.old) }
        ensures same { IsSameSeat seat.old seat.new }
        ensures step { SeatTells (tml_write start) (FindsSole self.now.config) seat.old.me.0 result
            seat.new.me.0 }
    {
        self.exchange_as::<Brand, usize>(seat, At::Clock, start, start + 1, &caller)
    }

    /// Stores `x` in the heap word at `a`.
    pub fn tml_store(&self, seat: &mut Token<K>, caller: usize, a: usize, x: u64)
        requires seat { IsSeatOf self.now caller seat.old }
        requires view { CanTmlStore self.now.config.words a x (view_of seat.old) }
        requires spared { IsSpared a (view_of seat.old) }
        ensures same { IsSameSeat seat.old seat.new }
        ensures step { SeatTells (tml_store a x) Nothing seat.old.me.0 x seat.new.me.0 }
    {
        self.store_as::<Brand, usize>(seat, At::Heap(a), x, &caller);
    }

    /// Stores the clock's next even number, which appends the entry.
    pub fn tml_commit(&self, seat: &mut Token<K>, caller: usize, time: u64)
        requires seat { IsSeatOf self.now caller seat.old }
        requires caller { caller < self.now.config.callers }
        requires view { CanTmlCommit (good_of K.good self.now.config self.now.rule) time
            (view_of seat.old) }
        ensures same { IsSameSeat seat.old seat.new }
        ensures step { SeatTells (tml_commit caller time)
            (Commits (good_of K.good self.now.config self.now.rule) self.now.config caller time)
            seat.old.me.0 time seat.new.me.0 }
    {
        self.store_as::<Brand, usize>(seat, At::Clock, time, &caller);
    }
}
