//! The steps of the check with which an attempt of RingSW is promoted.
ghost use Rattle.rule_promoted.specs.PromotedSteps.{ring_look_grant, CanRingGrant, ring_move_grant, CanRingMoveGrant};
ghost use Rattle.rule_ring.specs.SlotFilter.{slot_filter};
ghost use Rattle.std.specs.Prelude.{ℕ, ◌≡◌};
ghost use Rattle.alg_ring.specs.RingFindings.{FindsLook, FindsLevel};
ghost use Rattle.stm_rule.specs.Callers.{IsSeatOf};
ghost use Rattle.stm_rule.specs.Kept.{good_of, SeatTells, IsSameSeat, view_of};

use rule_base::layout::At;
use std::marker::Brand;
use stm_model::rule::MemRule;
use stm_rule::stm::{Stm, Token};

/// Loads the settled clock, and answers it: where it is the start the attempt is promoted, else the check begins.
pub fn look_grant<K: MemRule>(stm: &Stm<K>, seat: &mut Token<K>, caller: usize) -> u64
    requires seat { IsSeatOf stm.now caller seat.old }
    requires view { CanRingGrant (view_of seat.old) }
    ensures same { IsSameSeat seat.old seat.new }
    ensures step { SeatTells ring_look_grant
        (FindsLook (good_of K.good stm.now.config stm.now.rule) stm.now.config) seat.old.me.0 result
        seat.new.me.0 }
{
    stm.load_as::<Brand, usize>(seat, At::Clock, &caller)
}

/// Loads DONE, the last of a check that passes, and answers it: the start moves to the settled clock, and the attempt
/// is promoted.
pub fn advance_grant<K: MemRule>(stm: &Stm<K>, seat: &mut Token<K>, caller: usize) -> u64
    requires seat { IsSeatOf stm.now caller seat.old }
    requires view { CanRingMoveGrant slot_filter (view_of seat.old) }
    ensures same { IsSameSeat seat.old seat.new }
    ensures step { SeatTells ring_move_grant
        (FindsLevel (good_of K.good stm.now.config stm.now.rule) stm.now.config) seat.old.me.0
        result seat.new.me.0 }
{
    stm.load_as::<Brand, usize>(seat, At::Done, &caller)
}
