//! The steps of a commit of RingSW.
ghost use Rattle.rule_base.specs.StepKinds.{Nothing};
ghost use Rattle.rule_base.specs.Places.{offset};
ghost use Rattle.rule_base.specs.declared.layout.At.TheVariants.{Slot};
ghost use Rattle.rule_ring.specs.RingSteps.{ring_lock, CanRingLock, ring_tick, HasTurn, ring_slot, CanRingSlot, ring_enter, CanRingEnter, RingEnters, ring_write, CanRingWrite, ring_done, CanRingDone, ring_free, CanRingFree};
ghost use Rattle.rule_ring.specs.SlotFilter.{slot_filter};
ghost use Rattle.rule_base.specs.declared.layout.TheConstants.{SLOT_WORDS};
ghost use Rattle.std.specs.Prelude.{◌<◌, ℕ, ◌≡◌, ◌%◌, ◌*◌};
ghost use Rattle.alg_ring.specs.RingFindings.{FindsTick};
ghost use Rattle.stm_rule.specs.Findings.{FindsLock};
ghost use Rattle.stm_rule.specs.RecordsKept.{cells_of};
ghost use Rattle.stm_rule.specs.Callers.{IsSeatOf};
ghost use Rattle.stm_rule.specs.Kinds.Lifting.{AreSpared};
ghost use Rattle.stm_rule.specs.Kept.{good_of, SeatTells, IsSameSeat, view_of};

use rule_base::layout::At;
use std::marker::Brand;
use stm_logs::write_log::WriteLog;
use stm_model::rule::MemRule;
use stm_rule::stm::{Stm, Token};

/// Exchanges the lock, 0 for the own word, and answers the word found.
pub fn lock<K: MemRule>(stm: &Stm<K>, seat: &mut Token<K>, caller: usize) -> u64
    requires seat { IsSeatOf stm.now caller seat.old }
    requires caller { caller < stm.now.config.callers }
    requires view { CanRingLock (view_of seat.old) }
    ensures same { IsSameSeat seat.old seat.new }
    ensures step { SeatTells (ring_lock caller) (FindsLock stm.now.config caller) seat.old.me.0
        result seat.new.me.0 }
{
    stm.exchange_as::<Brand, usize>(seat, At::Lock, 0, 1 + caller as u64, &caller)
}

/// Loads the clock under the lock, and answers it.
pub fn tick<K: MemRule>(stm: &Stm<K>, seat: &mut Token<K>, caller: usize) -> u64
    requires seat { IsSeatOf stm.now caller seat.old }
    requires view { HasTurn (view_of seat.old) }
    ensures same { IsSameSeat seat.old seat.new }
    ensures step { SeatTells ring_tick
        (FindsTick (good_of K.good stm.now.config stm.now.rule) stm.now.config) seat.old.me.0 result
        seat.new.me.0 }
{
    stm.load_as::<Brand, usize>(seat, At::Clock, &caller)
}

/// Stores word `index` of the filter of these writes in the slot of `time`, whose words begin at `first`.
pub fn slot<K: MemRule>(
    stm: &Stm<K>,
    seat: &mut Token<K>,
    caller: usize,
    time: u64,
    first: usize,
    index: usize,
    x: u64,
    writes: &WriteLog,
)
    requires seat { IsSeatOf stm.now caller seat.old }
    requires first { first ≡ offset stm.now.config (Slot (time % stm.now.config.ring * SLOT_WORDS)) }
    requires word { x ≡ slot_filter.word (cells_of writes.now.items) index }
    requires view { CanRingSlot time index (cells_of writes.now.items) (view_of seat.old) }
    ensures same { IsSameSeat seat.old seat.new }
    ensures step { SeatTells
        (ring_slot slot_filter stm.now.config.ring time index (cells_of writes.now.items)) Nothing
        seat.old.me.0 x seat.new.me.0 }
{
    stm.store_at::<Brand, (usize, u64, usize, &WriteLog)>(
        seat,
        first + index,
        x,
        &(caller, time, index, writes),
    );
}

/// Stores the clock's next number, which appends the entry.
pub fn enter<K: MemRule>(stm: &Stm<K>, seat: &mut Token<K>, caller: usize, time: u64)
    requires seat { IsSeatOf stm.now caller seat.old }
    requires caller { caller < stm.now.config.callers }
    requires view { CanRingEnter (good_of K.good stm.now.config stm.now.rule) stm.now.config.words
        time (view_of seat.old) }
    requires spared { AreSpared (view_of seat.old).ring_commit.writes (view_of seat.old) }
    ensures same { IsSameSeat seat.old seat.new }
    ensures step { SeatTells (ring_enter caller time)
        (RingEnters (good_of K.good stm.now.config stm.now.rule) stm.now.config caller time)
        seat.old.me.0 time seat.new.me.0 }
{
    stm.store_as::<Brand, usize>(seat, At::Clock, time, &caller);
}

/// Stores the entry's value `x` in the heap word at `a`.
pub fn write_back<K: MemRule>(stm: &Stm<K>, seat: &mut Token<K>, caller: usize, a: usize, x: u64)
    requires seat { IsSeatOf stm.now caller seat.old }
    requires place { a < stm.now.config.words }
    requires view { CanRingWrite a x (view_of seat.old) }
    ensures same { IsSameSeat seat.old seat.new }
    ensures step { SeatTells (ring_write a x) Nothing seat.old.me.0 x seat.new.me.0 }
{
    stm.store_as::<Brand, usize>(seat, At::Heap(a), x, &caller);
}

/// Stores DONE: all up to the entry is written back.
pub fn done<K: MemRule>(stm: &Stm<K>, seat: &mut Token<K>, caller: usize, time: u64)
    requires seat { IsSeatOf stm.now caller seat.old }
    requires view { CanRingDone time (view_of seat.old) }
    ensures same { IsSameSeat seat.old seat.new }
    ensures step { SeatTells (ring_done time) Nothing seat.old.me.0 time seat.new.me.0 }
{
    stm.store_as::<Brand, usize>(seat, At::Done, time, &caller);
}

/// Stores 0 in the lock.
pub fn free<K: MemRule>(stm: &Stm<K>, seat: &mut Token<K>, caller: usize)
    requires seat { IsSeatOf stm.now caller seat.old }
    requires view { CanRingFree (view_of seat.old) }
    ensures same { IsSameSeat seat.old seat.new }
    ensures step { SeatTells ring_free Nothing seat.old.me.0 0 seat.new.me.0 }
{
    stm.store_as::<Brand, usize>(seat, At::Lock, 0, &caller);
}
