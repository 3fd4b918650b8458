//! A function for each kind of step by which an attempt is promoted, and of a promoted one. Each costs
//! one atomic step, and takes no memory.
ghost use Rattle.rule_base.specs.Encodings.{gate_word};
ghost use Rattle.rule_base.specs.GateSteps.{look_gate, CanLookGate, seize, CanSeize, return_gate, CanReturn};
ghost use Rattle.rule_base.specs.StepKinds.{Nothing};
ghost use Rattle.rule_seq.specs.CglSteps.{Loads, Commits};
ghost use Rattle.rule_promoted.specs.PromotedSteps.{tml_grant, CanTmlGrant, direct_load, CanDirectLoad, direct_store, CanDirectStore, direct_commit, CanDirectCommit};
ghost use Rattle.std.specs.Prelude.{◌<◌, ℕ, ◌≡◌, ◌^◌};
ghost use Rattle.stm_rule.specs.Callers.{IsSeatOf};
ghost use Rattle.stm_rule.specs.Findings.{FindsGate, FindsTaken, FindsSole};
ghost use Rattle.stm_rule.specs.Kinds.Lifting.{IsSpared};
ghost use Rattle.stm_rule.specs.Kept.{good_of, SeatTells, IsSameSeat, view_of};

use crate::stm::{Stm, Token};
use rule_base::layout::At;
use rule_base::words::gate_word;
use std::marker::Brand;
use stm_model::alg::Alg;
use stm_model::rule::MemRule;

impl<K: MemRule> Stm<K> {
    /// Loads the gate in an attempt that is to be promoted, and answers its word.
    pub fn look_gate(&self, seat: &mut Token<K>, caller: usize) -> u64
        requires seat { IsSeatOf self.now caller seat.old }
        requires view { CanLookGate (view_of seat.old) }
        ensures same { IsSameSeat seat.old seat.new }
        ensures step { SeatTells look_gate (FindsGate self.now.config caller) seat.old.me.0 result
            seat.new.me.0 }
    {
        self.load_as::<Brand, usize>(seat, At::Gate, &caller)
    }

    /// Exchanges the gate, open for the own word, to promote the attempt, and answers the word found.
    pub fn seize(&self, seat: &mut Token<K>, caller: usize, fence: u64, alg: Alg) -> u64
        requires seat { IsSeatOf self.now caller seat.old }
        requires caller { caller < self.now.config.callers }
        requires fence { fence < 2 ^ 48 }
        requires view { CanSeize fence alg (view_of seat.old) }
        ensures same { IsSameSeat seat.old seat.new }
        ensures step { SeatTells (seize caller fence alg)
            (FindsTaken self.now.config caller (gate_word fence 0 alg)) seat.old.me.0 result
            seat.new.me.0 }
    {
        self.exchange_as::<Brand, (usize, u64, Alg)>(
            seat,
            At::Gate,
            gate_word(fence, 0, alg),
            gate_word(fence, 1 + caller as u64, alg),
            &(caller, fence, alg),
        )
    }

    /// Loads the clock, the last look of a promotion, and answers it.
    pub fn tml_grant(&self, seat: &mut Token<K>, caller: usize) -> u64
        requires seat { IsSeatOf self.now caller seat.old }
        requires view { CanTmlGrant self.now.config.callers caller (view_of seat.old) }
        ensures same { IsSameSeat seat.old seat.new }
        ensures step { SeatTells tml_grant (FindsSole self.now.config) seat.old.me.0 result
            seat.new.me.0 }
    {
        self.load_as::<Brand, usize>(seat, At::Clock, &caller)
    }

    /// Loads the heap word at `a` for a promoted attempt, and answers it.
    pub fn direct_load(&self, seat: &mut Token<K>, caller: usize, a: usize) -> u64
        requires seat { IsSeatOf self.now caller seat.old }
        requires view { CanDirectLoad self.now.config.words a (view_of seat.old) }
        requires spared { IsSpared a (view_of seat.old) }
        ensures same { IsSameSeat seat.old seat.new }
        ensures step { SeatTells (direct_load a)
            (Loads (good_of K.good self.now.config self.now.rule) self.now.config a) seat.old.me.0
            result seat.new.me.0 }
    {
        self.load_as::<Brand, usize>(seat, At::Heap(a), &caller)
    }

    /// Stores `x` in the heap word at `a` for a promoted attempt.
    pub fn direct_store(&self, seat: &mut Token<K>, caller: usize, a: usize, x: u64)
        requires seat { IsSeatOf self.now caller seat.old }
        requires view { CanDirectStore self.now.config.words a x (view_of seat.old) }
        requires spared { IsSpared a (view_of seat.old) }
        ensures same { IsSameSeat seat.old seat.new }
        ensures step { SeatTells (direct_store a x) Nothing seat.old.me.0 x seat.new.me.0 }
    {
        self.store_as::<Brand, usize>(seat, At::Heap(a), x, &caller);
    }

    /// Stores the clock, which appends the entry of a promoted attempt.
    pub fn direct_commit(&self, seat: &mut Token<K>, caller: usize, alg: Alg, time: u64)
        requires seat { IsSeatOf self.now caller seat.old }
        requires caller { caller < self.now.config.callers }
        requires view { CanDirectCommit (good_of K.good self.now.config self.now.rule) alg time
            (view_of seat.old) }
        ensures same { IsSameSeat seat.old seat.new }
        ensures step { SeatTells (direct_commit caller alg time)
            (Commits (good_of K.good self.now.config self.now.rule) self.now.config caller time)
            seat.old.me.0 time seat.new.me.0 }
    {
        self.store_as::<Brand, (usize, Alg)>(seat, At::Clock, time, &(caller, alg));
    }

    /// Stores the open gate at the end of an attempt that holds it.
    pub fn return_gate(&self, seat: &mut Token<K>, caller: usize, fence: u64, alg: Alg)
        requires seat { IsSeatOf self.now caller seat.old }
        requires fence { fence < 2 ^ 48 }
        requires view { CanReturn fence alg (view_of seat.old) }
        ensures same { IsSameSeat seat.old seat.new }
        ensures step { SeatTells (return_gate fence alg) Nothing seat.old.me.0
            (gate_word fence 0 alg) seat.new.me.0 }
    {
        let word = gate_word(fence, 0, alg);
        self.store_as::<Brand, (usize, u64, Alg)>(seat, At::Gate, word, &(caller, fence, alg));
    }
}
