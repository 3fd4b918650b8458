//! A function for each kind of step of an attempt of CGL or Serial. Each costs
//! one atomic step, and takes no memory.
ghost use Rattle.rule_base.specs.StepKinds.{Nothing};
ghost use Rattle.rule_seq.specs.CglSteps.{take_lock, CanTakeLock, load_start, CanLoadStart, Begins, load_heap, CanLoadHeap, Loads, store_heap, CanStoreHeap, store_clock, CanStoreClock, Commits, free_lock, CanFreeLock, load_undo, CanLoadUndo, load_limit, LoadsLimit, CanLoadLimit, store_back, CanStoreBack};
ghost use Rattle.std.specs.Prelude.{◌<◌, ℕ, ◌≡◌};
ghost use Rattle.stm_rule.specs.Callers.{IsSeatOf};
ghost use Rattle.stm_rule.specs.Findings.{FindsLock};
ghost use Rattle.stm_rule.specs.Kinds.Lifting.{IsSpared};
ghost use Rattle.stm_rule.specs.Kept.{good_of, SeatTells, IsSameSeat, view_of};

use crate::stm::{Stm, Token};
use rule_base::layout::At;
use std::marker::Brand;
use stm_model::rule::MemRule;

impl<K: MemRule> Stm<K> {
    /// Exchanges the lock, 0 for the own word, and answers the word found.
    pub fn take_lock(&self, seat: &mut Token<K>, caller: usize) -> u64
        requires seat { IsSeatOf self.now caller seat.old }
        requires caller { caller < self.now.config.callers }
        requires view { CanTakeLock (view_of seat.old) }
        ensures same { IsSameSeat seat.old seat.new }
        ensures step { SeatTells (take_lock caller) (FindsLock self.now.config caller) seat.old.me.0
            result seat.new.me.0 }
    {
        self.exchange_as::<Brand, usize>(seat, At::Lock, 0, 1 + caller as u64, &caller)
    }

    /// Loads the clock as the start of an attempt, and answers it.
    pub fn load_start(&self, seat: &mut Token<K>, caller: usize) -> u64
        requires seat { IsSeatOf self.now caller seat.old }
        requires view { CanLoadStart (view_of seat.old) }
        ensures same { IsSameSeat seat.old seat.new }
        ensures step { SeatTells load_start
            (Begins (good_of K.good self.now.config self.now.rule) self.now.config) seat.old.me.0
            result seat.new.me.0 }
    {
        self.load_as::<Brand, usize>(seat, At::Clock, &caller)
    }

    /// Loads the heap word at `a`, and answers it.
    pub fn load_heap(&self, seat: &mut Token<K>, caller: usize, a: usize) -> u64
        requires seat { IsSeatOf self.now caller seat.old }
        requires view { CanLoadHeap self.now.config.words a (view_of seat.old) }
        requires spared { IsSpared a (view_of seat.old) }
        ensures same { IsSameSeat seat.old seat.new }
        ensures step { SeatTells (load_heap a)
            (Loads (good_of K.good self.now.config self.now.rule) self.now.config a) seat.old.me.0
            result seat.new.me.0 }
    {
        self.load_as::<Brand, usize>(seat, At::Heap(a), &caller)
    }

    /// Stores `x` in the heap word at `a`.
    pub fn store_heap(&self, seat: &mut Token<K>, caller: usize, a: usize, x: u64)
        requires seat { IsSeatOf self.now caller seat.old }
        requires view { CanStoreHeap self.now.config.words a x (view_of seat.old) }
        requires spared { IsSpared a (view_of seat.old) }
        ensures same { IsSameSeat seat.old seat.new }
        ensures step { SeatTells (store_heap a x) Nothing seat.old.me.0 x seat.new.me.0 }
    {
        self.store_as::<Brand, usize>(seat, At::Heap(a), x, &caller);
    }

    /// Stores the clock's next number, which appends the entry.
    pub fn store_clock(&self, seat: &mut Token<K>, caller: usize, time: u64)
        requires seat { IsSeatOf self.now caller seat.old }
        requires caller { caller < self.now.config.callers }
        requires view { CanStoreClock (good_of K.good self.now.config self.now.rule) time
            (view_of seat.old) }
        ensures same { IsSameSeat seat.old seat.new }
        ensures step { SeatTells (store_clock caller time)
            (Commits (good_of K.good self.now.config self.now.rule) self.now.config caller time)
            seat.old.me.0 time seat.new.me.0 }
    {
        self.store_as::<Brand, usize>(seat, At::Clock, time, &caller);
    }

    /// Stores 0 in the lock.
    pub fn free_lock(&self, seat: &mut Token<K>, caller: usize)
        requires seat { IsSeatOf self.now caller seat.old }
        requires view { CanFreeLock (view_of seat.old) }
        ensures same { IsSameSeat seat.old seat.new }
        ensures step { SeatTells free_lock Nothing seat.old.me.0 0 seat.new.me.0 }
    {
        self.store_as::<Brand, usize>(seat, At::Lock, 0, &caller);
    }

    /// Loads the heap word at `a` into the undo log, and answers it.
    pub fn load_undo(&self, seat: &mut Token<K>, caller: usize, a: usize) -> u64
        requires seat { IsSeatOf self.now caller seat.old }
        requires place { a < self.now.config.words }
        requires view { CanLoadUndo a (view_of seat.old) }
        requires spared { IsSpared a (view_of seat.old) }
        ensures same { IsSameSeat seat.old seat.new }
        ensures step { SeatTells (load_undo a) Nothing seat.old.me.0 result seat.new.me.0 }
    {
        self.load_as::<Brand, usize>(seat, At::Heap(a), &caller)
    }

    /// Loads the clock before the first store, or to become irrevocable, and answers it.
    pub fn load_limit(&self, seat: &mut Token<K>, caller: usize, grants: bool) -> u64
        requires seat { IsSeatOf self.now caller seat.old }
        requires view { CanLoadLimit (view_of seat.old) }
        ensures same { IsSameSeat seat.old seat.new }
        ensures step { SeatTells (load_limit grants) LoadsLimit seat.old.me.0 result seat.new.me.0 }
    {
        self.load_as::<Brand, (usize, bool)>(seat, At::Clock, &(caller, grants))
    }

    /// Stores back what the undo log has of `a`.
    pub fn store_back(&self, seat: &mut Token<K>, caller: usize, a: usize, x: u64)
        requires seat { IsSeatOf self.now caller seat.old }
        requires place { a < self.now.config.words }
        requires view { CanStoreBack a x (view_of seat.old) }
        ensures same { IsSameSeat seat.old seat.new }
        ensures step { SeatTells (store_back a x) Nothing seat.old.me.0 x seat.new.me.0 }
    {
        self.store_as::<Brand, usize>(seat, At::Heap(a), x, &caller);
    }
}
