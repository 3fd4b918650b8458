//! The steps by which an attempt of RingSW begins, reads and checks.
ghost use Rattle.rule_base.specs.StepKinds.{Nothing};
ghost use Rattle.rule_base.specs.Places.{offset};
ghost use Rattle.rule_base.specs.declared.layout.At.TheVariants.{Slot};
ghost use Rattle.rule_ring.specs.RingSteps.{ring_begin, CanRingBegin, ring_load, CanRingLoad, ring_look, CanRingLook, ring_word, CanRingWord, ring_again, CanRingAgain, ring_move, CanRingMove};
ghost use Rattle.rule_ring.specs.SlotFilter.{slot_filter};
ghost use Rattle.rule_base.specs.declared.layout.TheConstants.{SLOT_WORDS};
ghost use Rattle.std.specs.Prelude.{◌<◌, ◌≤◌, ℕ, ◌≡◌, ◌%◌, ◌*◌};
ghost use Rattle.alg_ring.specs.RingFindings.{FindsStart, FindsLook, FindsAgain, FindsMove};
ghost use Rattle.stm_rule.specs.Callers.{IsSeatOf};
ghost use Rattle.stm_rule.specs.Kinds.Lifting.{IsSpared};
ghost use Rattle.stm_rule.specs.Kept.{good_of, SeatTells, IsSameSeat, view_of};

use rule_base::layout::{At, SLOT_WORDS};
use std::marker::Brand;
use stm_model::rule::MemRule;
use stm_rule::stm::{Stm, Token};

/// Loads DONE, the start, and answers it.
pub fn begin<K: MemRule>(stm: &Stm<K>, seat: &mut Token<K>, caller: usize) -> u64
    requires seat { IsSeatOf stm.now caller seat.old }
    requires view { CanRingBegin (view_of seat.old) }
    ensures same { IsSameSeat seat.old seat.new }
    ensures step { SeatTells ring_begin
        (FindsStart (good_of K.good stm.now.config stm.now.rule) stm.now.config) seat.old.me.0
        result seat.new.me.0 }
{
    stm.load_as::<Brand, usize>(seat, At::Done, &caller)
}

/// Loads the heap word at `a`, which is now watched, and answers it.
pub fn load<K: MemRule>(stm: &Stm<K>, seat: &mut Token<K>, caller: usize, a: usize) -> u64
    requires seat { IsSeatOf stm.now caller seat.old }
    requires view { CanRingLoad stm.now.config.words a (view_of seat.old) }
    requires spared { IsSpared a (view_of seat.old) }
    ensures same { IsSameSeat seat.old seat.new }
    ensures step { SeatTells (ring_load a) Nothing seat.old.me.0 result seat.new.me.0 }
{
    stm.load_as::<Brand, usize>(seat, At::Heap(a), &caller)
}

/// Loads the clock, and answers it: where it is the start the check passes, else it begins.
pub fn look<K: MemRule>(stm: &Stm<K>, seat: &mut Token<K>, caller: usize) -> u64
    requires seat { IsSeatOf stm.now caller seat.old }
    requires view { CanRingLook (view_of seat.old) }
    ensures same { IsSameSeat seat.old seat.new }
    ensures step { SeatTells ring_look
        (FindsLook (good_of K.good stm.now.config stm.now.rule) stm.now.config) seat.old.me.0 result
        seat.new.me.0 }
{
    stm.load_as::<Brand, usize>(seat, At::Clock, &caller)
}

/// The index in the table of the first word of the slot of `time`. It takes a division, so that a caller asks once for
/// all 16 words.
pub fn first_word<K: MemRule>(stm: &Stm<K>, time: u64) -> usize
    ensures { result ≡ offset stm.now.config (Slot (time % stm.now.config.ring * SLOT_WORDS)) }
{
    stm.ring_place((time % stm.config.ring as u64) as usize * SLOT_WORDS)
}

/// Loads word `index` of the slot of `time`, whose words begin at `first`, and answers it.
pub fn word<K: MemRule>(
    stm: &Stm<K>,
    seat: &mut Token<K>,
    caller: usize,
    time: u64,
    first: usize,
    index: usize,
) -> u64
    requires seat { IsSeatOf stm.now caller seat.old }
    requires first { first ≡ offset stm.now.config (Slot (time % stm.now.config.ring * SLOT_WORDS)) }
    requires view { CanRingWord stm.now.config.ring time index (view_of seat.old) }
    ensures same { IsSameSeat seat.old seat.new }
    ensures step { SeatTells (ring_word stm.now.config.ring time index) Nothing seat.old.me.0 result
        seat.new.me.0 }
{
    stm.load_at::<Brand, (usize, u64, usize)>(seat, first + index, &(caller, time, index))
}

/// Loads the clock after the slots, and answers it.
pub fn again<K: MemRule>(stm: &Stm<K>, seat: &mut Token<K>, caller: usize) -> u64
    requires seat { IsSeatOf stm.now caller seat.old }
    requires view { CanRingAgain (view_of seat.old) }
    ensures same { IsSameSeat seat.old seat.new }
    ensures step { SeatTells (ring_again stm.now.config.ring)
        (FindsAgain (good_of K.good stm.now.config stm.now.rule) stm.now.config) seat.old.me.0
        result seat.new.me.0 }
{
    stm.load_as::<Brand, usize>(seat, At::Clock, &caller)
}

/// Loads DONE, the last of a check that passes, and answers it: the start moves.
pub fn advance<K: MemRule>(stm: &Stm<K>, seat: &mut Token<K>, caller: usize) -> u64
    requires seat { IsSeatOf stm.now caller seat.old }
    requires view { CanRingMove slot_filter (view_of seat.old) }
    ensures same { IsSameSeat seat.old seat.new }
    ensures step { SeatTells ring_move
        (FindsMove (good_of K.good stm.now.config stm.now.rule) stm.now.config) seat.old.me.0 result
        seat.new.me.0 }
{
    stm.load_as::<Brand, usize>(seat, At::Done, &caller)
}
