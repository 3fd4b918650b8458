//! A function for each kind of step by which the gate's holder marks the clock and
//! installs an algorithm. Each costs
//! one atomic step, and takes no memory.
ghost use Rattle.rule_base.specs.Encodings.{gate_word};
ghost use Rattle.rule_base.specs.InstallSteps.{settle, CanSettle, even_clock, CanEvenClock, store_base, store_done, CanMark, install, CanInstall};
ghost use Rattle.rule_base.specs.StepKinds.{Nothing};
ghost use Rattle.std.specs.Prelude.{◌≡◌, ◌<◌, ◌+◌, ◌^◌, true, ℕ};
ghost use Rattle.stm_rule.specs.Callers.{IsSeatOf};
ghost use Rattle.stm_rule.specs.Findings.{FindsWithin};
ghost use Rattle.stm_rule.specs.Kept.{SeatTells, IsSameSeat, view_of};

use crate::stm::{Stm, Token};
use rule_base::layout::At;
use rule_base::words::gate_word;
use std::marker::Brand;
use stm_model::alg::Alg;
use stm_model::rule::MemRule;

impl<K: MemRule> Stm<K> {
    /// Loads the clock, to install, and answers it.
    pub fn settle(&self, seat: &mut Token<K>, caller: usize) -> u64
        requires seat { IsSeatOf self.now caller seat.old }
        requires view { CanSettle self.now.config.callers caller (view_of seat.old) }
        ensures same { IsSameSeat seat.old seat.new }
        ensures step { SeatTells settle FindsWithin seat.old.me.0 result seat.new.me.0 }
    {
        self.load_as::<Brand, usize>(seat, At::Clock, &caller)
    }

    /// Stores the next clock, an even number, at which TML can begin.
    pub fn even_clock(&self, seat: &mut Token<K>, caller: usize, time: u64)
        requires seat { IsSeatOf self.now caller seat.old }
        requires caller { caller < self.now.config.callers }
        requires view { CanEvenClock time (view_of seat.old) }
        ensures same { IsSameSeat seat.old seat.new }
        ensures step { SeatTells (even_clock time) Nothing seat.old.me.0 time seat.new.me.0 }
    {
        self.store_as::<Brand, usize>(seat, At::Clock, time, &caller);
    }

    /// Stores the clock in BASE.
    pub fn store_base(&self, seat: &mut Token<K>, caller: usize, time: u64)
        requires seat { IsSeatOf self.now caller seat.old }
        requires view { CanMark time (view_of seat.old) }
        ensures same { IsSameSeat seat.old seat.new }
        ensures step { SeatTells (store_base time) Nothing seat.old.me.0 time seat.new.me.0 }
    {
        self.store_as::<Brand, usize>(seat, At::Base, time, &caller);
    }

    /// Stores the clock in DONE.
    pub fn store_done(&self, seat: &mut Token<K>, caller: usize, time: u64)
        requires seat { IsSeatOf self.now caller seat.old }
        requires view { CanMark time (view_of seat.old) }
        ensures same { IsSameSeat seat.old seat.new }
        ensures step { SeatTells (store_done time) Nothing seat.old.me.0 time seat.new.me.0 }
    {
        self.store_as::<Brand, usize>(seat, At::Done, time, &caller);
    }

    /// Stores the gate, still closed by the caller, with another algorithm.
    pub fn install(&self, seat: &mut Token<K>, caller: usize, fence: u64, alg: Alg)
        requires seat { IsSeatOf self.now caller seat.old }
        requires caller { caller < self.now.config.callers }
        requires fence { fence < 2 ^ 48 }
        requires view { CanInstall fence alg (view_of seat.old) }
        ensures same { IsSameSeat seat.old seat.new }
        ensures step { SeatTells (install caller fence alg) Nothing seat.old.me.0
            (gate_word fence (1 + caller) alg) seat.new.me.0 }
    {
        let word = gate_word(fence, 1 + caller as u64, alg);
        self.store_as::<Brand, (usize, u64, Alg)>(seat, At::Gate, word, &(caller, fence, alg));
    }
}
