//! A function for each kind of step of a fence. Each costs one atomic step, and takes no memory.
ghost use Rattle.rule_base.specs.Encodings.{gate_word, fence_number};
ghost use Rattle.rule_base.specs.FenceSteps.{fence, CanFence, fence_load, CanFenceLoad, FenceLoads, fence_store, CanFenceStore, fence_commit, CanFenceCommit, FenceCommits, unfence, CanUnfence};
ghost use Rattle.rule_base.specs.StepKinds.{Nothing};
ghost use Rattle.std.specs.Prelude.{◌<◌, ◌≡◌, ◌+◌, ◌^◌, ℕ};
ghost use Rattle.rule_base.specs.InstallSteps.{settle};
ghost use Rattle.stm_rule.specs.Callers.{IsSeatOf};
ghost use Rattle.stm_rule.specs.FenceFindings.{FindsPast, FindsEven, CanSettleBack};
ghost use Rattle.stm_rule.specs.Kept.{good_of, SeatTells, IsSameSeat, view_of};

use crate::stm::{OwnFence, Stm, Token};
use rule_base::layout::At;
use rule_base::words::{fence_number, gate_word};
use std::marker::Brand;
use stm_model::alg::Alg;
use stm_model::rule::MemRule;

impl<K: MemRule> Stm<K> {
    /// Stores the gate, still closed by the caller, with a fence of `count` words from `from`.
    pub fn fence(&self, seat: &mut Token<K>, caller: usize, from: usize, count: usize, alg: Alg)
        requires seat { IsSeatOf self.now caller seat.old }
        requires caller { caller < self.now.config.callers }
        requires view { CanFence self.now.config caller from count alg (view_of seat.old) }
        ensures same { IsSameSeat seat.old seat.new }
        ensures step { SeatTells (fence caller (fence_number caller from count) alg)
            (FindsPast (good_of K.good self.now.config self.now.rule) self.now.config) seat.old.me.0
            (gate_word (fence_number caller from count) (1 + caller) alg) seat.new.me.0 }
    {
        let number = fence_number(caller as u64, from as u64, count as u64);
        let word = gate_word(number, 1 + caller as u64, alg);
        let own = OwnFence {
            number,
            stored: false,
        };
        self.store_own_as::<Brand, (usize, usize, usize, Alg)>(
            seat,
            At::Gate,
            word,
            own,
            &(caller, from, count, alg),
        );
    }

    /// Loads the word at `a` of the own fence, and answers it.
    pub fn fence_load(&self, seat: &mut Token<K>, caller: usize, a: usize) -> u64
        requires seat { IsSeatOf self.now caller seat.old }
        requires place { a < self.now.config.words }
        requires view { CanFenceLoad a (view_of seat.old) }
        ensures same { IsSameSeat seat.old seat.new }
        ensures step { SeatTells (fence_load a) (FenceLoads a) seat.old.me.0 result seat.new.me.0 }
    {
        self.load_as::<Brand, usize>(seat, At::Heap(a), &caller)
    }

    /// Stores `x` in the word at `a` of the own fence.
    pub fn fence_store(&self, seat: &mut Token<K>, caller: usize, a: usize, x: u64)
        requires seat { IsSeatOf self.now caller seat.old }
        requires place { a < self.now.config.words }
        requires view { CanFenceStore a x (view_of seat.old) }
        ensures same { IsSameSeat seat.old seat.new }
        ensures step { SeatTells (fence_store a x) Nothing seat.old.me.0 x seat.new.me.0 }
    {
        let own = OwnFence {
            number: seat.own_fence().number,
            stored: true,
        };
        self.store_own_as::<Brand, usize>(seat, At::Heap(a), x, own, &caller);
    }

    /// Loads the clock, to give the own range back, and answers it.
    pub fn settle_back(&self, seat: &mut Token<K>, caller: usize, alg: Alg) -> u64
        requires seat { IsSeatOf self.now caller seat.old }
        requires view { CanSettleBack self.now.config.callers caller alg (view_of seat.old) }
        ensures same { IsSameSeat seat.old seat.new }
        ensures step { SeatTells settle (FindsEven alg) seat.old.me.0 result seat.new.me.0 }
    {
        self.load_as::<Brand, (usize, Alg)>(seat, At::Clock, &(caller, alg))
    }

    /// Stores the clock, which appends the entry of a give-back.
    pub fn fence_commit(&self, seat: &mut Token<K>, caller: usize, alg: Alg, time: u64)
        requires seat { IsSeatOf self.now caller seat.old }
        requires view { CanFenceCommit (good_of K.good self.now.config self.now.rule) alg time
            (view_of seat.old) }
        ensures same { IsSameSeat seat.old seat.new }
        ensures step { SeatTells (fence_commit caller alg time)
            (FenceCommits (good_of K.good self.now.config self.now.rule) self.now.config caller
            time) seat.old.me.0 time seat.new.me.0 }
    {
        let own = OwnFence {
            number: seat.own_fence().number,
            stored: false,
        };
        self.store_own_as::<Brand, (usize, Alg)>(seat, At::Clock, time, own, &(caller, alg));
    }

    /// Stores the gate, still closed by the caller, without a fence.
    pub fn unfence(&self, seat: &mut Token<K>, caller: usize, alg: Alg)
        requires seat { IsSeatOf self.now caller seat.old }
        requires caller { caller < self.now.config.callers }
        requires view { CanUnfence self.now.config.callers caller alg (view_of seat.old) }
        ensures same { IsSameSeat seat.old seat.new }
        ensures step { SeatTells (unfence caller alg) Nothing seat.old.me.0
            (gate_word 0 (1 + caller) alg) seat.new.me.0 }
    {
        let word = gate_word(0, 1 + caller as u64, alg);
        let own = OwnFence {
            number: 0,
            stored: false,
        };
        self.store_own_as::<Brand, (usize, Alg)>(seat, At::Gate, word, own, &(caller, alg));
    }
}
