//! How an attempt of OrecEager is taken back.
ghost use Rattle.stm_rule.specs.Counting.{TakesAtMost};
ghost use Rattle.std.specs.Prelude.{length, ◌≡◌, ℕ, ◌<◌, ◌≤◌, false, ◌+◌};
ghost use Rattle.stm_rule.specs.Attempts.{ended, IsFenceOf};
ghost use Rattle.stm_rule.specs.Callers.{IsSeatOf};
ghost use Rattle.stm_rule.specs.Kept.{MovesView, view_of};
ghost use Rattle.alg_orec.specs.EagerEnding.{CanRestoreAll, RestoresAll, IsNewest, CanReleaseAbove, CanGiveBack, GivesBack, CanAbortEager, AbortsEager};
ghost use Rattle.alg_orec.specs.Locking.{ReleasesAll};

use crate::eager_steps::{raise_clock, release_above, restore};
use stm_gate::leave::leave;
use stm_model::rule::MemRule;
use stm_rule::local::Local;
use stm_rule::stm::{Stm, Token};

/// Restores what it wrote, gives back its records and ends the attempt. The steps of `give_back`, and one, two where it
/// holds the gate.
#[cold]
#[inline(never)]
pub(crate) fn abort<K: MemRule>(seat: &mut Token<K>, local: &mut Local, stm: &Stm<K>, caller: usize)
    requires seat { IsSeatOf stm.now caller seat.old }
    requires caller { caller < stm.now.config.callers }
    requires view { CanAbortEager stm.now.config local.old (view_of seat.old) }
    requires fence { IsFenceOf local.old (view_of seat.old) }
    requires holds { local.old.holds ≡ (view_of seat.old).gate.holds }
    requires named { local.old.algorithm ≡ (view_of seat.old).gate.algorithm }
    ensures same { MovesView seat.old seat.new }
    ensures aborts { AbortsEager caller (view_of seat.old) (view_of seat.new) }
    ensures idle { local.new ≡ ended (record local.old { committing = false }) }
    ensures steps { TakesAtMost (3 + local.old.undo.len + length local.old.locks.items)
        (view_of seat.old) (view_of seat.new) }
{
    give_back(seat, local, stm, caller);
    local.committing = false;
    leave(seat, local, stm, caller);
}

/// Restores the words, raises the clock above the versions that the records had, and releases each one version later,
/// so earlier readers see a changed version. No step where no record is held; else one, and one for each word and each
/// record.
fn give_back<K: MemRule>(seat: &mut Token<K>, local: &Local, stm: &Stm<K>, caller: usize)
    requires seat { IsSeatOf stm.now caller seat.old }
    requires caller { caller < stm.now.config.callers }
    requires view { CanGiveBack stm.now.config local.now (view_of seat.old) }
    ensures same { MovesView seat.old seat.new }
    ensures gives_back { GivesBack (view_of seat.old) (view_of seat.new) }
    ensures steps { TakesAtMost (1 + local.now.undo.len + length local.now.locks.items)
        (view_of seat.old) (view_of seat.new) }
{
    if local.locks.count() == 0 {
        return;
    }
    restore_all(seat, local, stm, caller);
    let least = newest(local) + 1;
    raise_clock(stm, seat, caller, least);
    release_all_above(seat, local, stm, caller);
}

/// Stores back what the words were. A step for each.
fn restore_all<K: MemRule>(seat: &mut Token<K>, local: &Local, stm: &Stm<K>, caller: usize)
    requires seat { IsSeatOf stm.now caller seat.old }
    requires view { CanRestoreAll stm.now.config local.now (view_of seat.old) }
    ensures same { MovesView seat.old seat.new }
    ensures restores { RestoresAll (view_of seat.old) (view_of seat.new) }
    ensures steps { TakesAtMost local.now.undo.len (view_of seat.old) (view_of seat.new) }
{
    for i in 0..local.undo.count() {
        let (a, x) = local.undo.item(i);
        restore(stm, seat, caller, a, x);
    }
}

/// The newest version that a record had which the attempt holds; 0 where it holds none.
pub(crate) fn newest(local: &Local) -> u64
    ensures { IsNewest result local.now.locks.items }
{
    let mut newest = 0;
    for i in 0..local.locks.count() {
        let (_, version) = local.locks.item(i);
        newest = newest.max(version);
    }
    newest
}

/// Gives each record back, free at the version after the one that it had. A step for each.
fn release_all_above<K: MemRule>(seat: &mut Token<K>, local: &Local, stm: &Stm<K>, caller: usize)
    requires seat { IsSeatOf stm.now caller seat.old }
    requires view { CanReleaseAbove stm.now.config local.now (view_of seat.old) }
    ensures same { MovesView seat.old seat.new }
    ensures releases { ReleasesAll (view_of seat.old) (view_of seat.new) }
    ensures steps { TakesAtMost (length local.now.locks.items) (view_of seat.old)
        (view_of seat.new) }
{
    for i in 0..local.locks.count() {
        let (r, version) = local.locks.item(i);
        release_above(stm, seat, caller, r, version + 1);
    }
}
