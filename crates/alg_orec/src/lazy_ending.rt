//! The end of an attempt that has no entry.
ghost use Rattle.std.specs.Prelude.{◌≡◌, ℕ, ◌<◌, ◌+◌, length, false};
ghost use Rattle.stm_rule.specs.Counting.{TakesAtMost};
ghost use Rattle.stm_rule.specs.Attempts.{ended, IsFenceOf};
ghost use Rattle.stm_rule.specs.Callers.{IsSeatOf};
ghost use Rattle.stm_rule.specs.Kept.{MovesView, view_of};
ghost use Rattle.alg_orec.specs.Ending.{CanAbortLazy, GivesUp};

use crate::lazy_steps::release_old;
use stm_gate::leave::leave;
use stm_model::rule::MemRule;
use stm_rule::local::Local;
use stm_rule::stm::{Stm, Token};

/// Gives back the records that the attempt holds, each with the version that it replaced, and ends it. A step for
/// each, and one, two where it holds the gate.
#[cold]
#[inline(never)]
pub(crate) fn abort<K: MemRule>(seat: &mut Token<K>, local: &mut Local, stm: &Stm<K>, caller: usize)
    requires seat { IsSeatOf stm.now caller seat.old }
    requires caller { caller < stm.now.config.callers }
    requires view { CanAbortLazy stm.now.config local.old (view_of seat.old) }
    requires fence { IsFenceOf local.old (view_of seat.old) }
    requires holds { local.old.holds ≡ (view_of seat.old).gate.holds }
    requires named { local.old.algorithm ≡ (view_of seat.old).gate.algorithm }
    ensures same { MovesView seat.old seat.new }
    ensures gives_up { GivesUp caller (view_of seat.old) (view_of seat.new) }
    ensures idle { local.new ≡ ended (record local.old { committing = false }) }
    ensures steps { TakesAtMost (2 + length local.old.locks.items) (view_of seat.old)
        (view_of seat.new) }
{
    for i in 0..local.locks.count() {
        let (r, version) = local.locks.item(i);
        release_old(stm, seat, caller, r, version);
    }
    local.committing = false;
    leave(seat, local, stm, caller);
}
