//! The end of an attempt, under every algorithm: the gate is reopened where the attempt holds it, and the
//! status becomes 0.
ghost use Rattle.stm_rule.specs.Counting.{TakesAtMost};
ghost use Rattle.std.specs.Prelude.{◌≡◌, ℕ, ◌<◌};
ghost use Rattle.stm_rule.specs.Attempts.{IsFenceOf, IsOutside, ended};
ghost use Rattle.stm_rule.specs.Callers.{IsSeatOf};
ghost use Rattle.stm_rule.specs.Kept.{IsSameSeat, view_of};
ghost use Rattle.stm_gate.specs.Leaving.{CanLeave, left};

use stm_model::rule::MemRule;
use stm_rule::local::Local;
use stm_rule::stm::{Stm, Token};

/// Ends an attempt that holds no lock, record or clock; a promoted one that made an entry has stored its time in BASE
/// and in DONE before. It leaves the descriptor's fields idle, is always done, and takes two steps at most.
pub fn leave<K: MemRule>(seat: &mut Token<K>, local: &mut Local, stm: &Stm<K>, caller: usize)
    requires seat { IsSeatOf stm.now caller seat.old }
    requires caller { caller < stm.now.config.callers }
    requires view { CanLeave (view_of seat.old) }
    requires holds { local.old.holds ≡ (view_of seat.old).gate.holds }
    requires fence { IsFenceOf local.old (view_of seat.old) }
    requires named { local.old.algorithm ≡ (view_of seat.old).gate.algorithm }
    ensures same { IsSameSeat seat.old seat.new }
    ensures left { seat.new.me.0 ≡ record seat.old.me.0 { view = left caller (view_of seat.old) } }
    ensures outside { IsOutside (view_of seat.new) }
    ensures idle { local.new ≡ ended local.old }
    ensures steps { TakesAtMost 2 (view_of seat.old) (view_of seat.new) }
{
    if local.holds {
        stm.return_gate(seat, caller, local.fence, local.algorithm);
    }
    stm.depart(seat, caller);
    local.end();
}
