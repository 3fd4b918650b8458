//! How an attempt of OrecEager commits that wrote, or was promoted.
ghost use Rattle.stm_rule.specs.Counting.{TakesAtMost};
ghost use Rattle.stm_answers.specs.Counting.{AddsAtMost};
ghost use Rattle.std.specs.Prelude.{length, ◌≡◌, ℕ, ◌<◌, ◌≤◌, true, false, ◌+◌};
ghost use Rattle.stm_model.specs.declared.alg.Alg.TheVariants.{OrecEager};
ghost use Rattle.stm_rule.specs.Attempts.{own_of, Stands};
ghost use Rattle.stm_rule.specs.Callers.{IsOf, IsSameCaller, IsSeatOf};
ghost use Rattle.stm_gate.specs.Knowing.{known, number};
ghost use Rattle.stm_rule.specs.Kept.{MovesView, view_of};
ghost use Rattle.stm_answers.specs.Answers.{KeepsRule, Commits};
ghost use Rattle.stm_answers.specs.CallerState.{known_of};
ghost use Rattle.alg_orec.specs.EagerCommitting.{CanCommitPlaced, Revalidates, CanGiveDirect, CanGiveAbove, GivesAbove};
ghost use Rattle.alg_orec.specs.Locking.{ReleasesAll};

use crate::eager_ending::{abort, newest};
use crate::locking::release_all;
use crate::promoting_steps::{direct_raise_clock, direct_release, direct_release_above};
use crate::validate::validate;
use crate::{eager_steps, lazy_steps};
use stm_answers::answers::Commit;
use stm_gate::leave::leave;
use stm_model::config::CLOCK_LIMIT;
use stm_model::rule::MemRule;
use stm_model::stop::Cause;
use stm_rule::desc::Desc;
use stm_rule::local::Local;
use stm_rule::stm::{Stm, Token};

/// Commits what lies in place, or goes on with a commit that answered Again: those of a validation then, one step for
/// the entry and one for each record. What was written stays in its log, whatever the answer.
#[inline(always)]
pub(crate) fn commit_placed<K: MemRule>(
    seat: &mut Token<K>,
    local: &mut Local,
    stm: &Stm<K>,
    caller: usize,
) -> Commit
    requires seat { IsSeatOf stm.now caller seat.old }
    requires caller { caller < stm.now.config.callers }
    requires attempt { CanCommitPlaced (K.good stm.now.rule) stm.now.config caller local.old
        (view_of seat.old) }
    requires keeps { KeepsRule (K.good stm.now.rule) stm.now.config caller
        (known_of (view_of seat.old) (own_of local.old)) }
    ensures same { MovesView seat.old seat.new }
    ensures commits { Commits (K.good stm.now.rule) stm.now.config caller result
        (known_of (view_of seat.old) (own_of local.old))
        (known_of (view_of seat.new) (own_of local.new)) }
    ensures written { local.new.writes ≡ local.old.writes }
    ensures stands { Stands (K.good stm.now.rule) stm.now.config caller local.new
        (view_of seat.new) }
    ensures steps { TakesAtMost
        (5 + local.old.reads.len + local.old.undo.len + length local.old.locks.items)
        (view_of seat.old) (view_of seat.new) }
{
    if let Err(cause) = revalidate(seat, local, stm, caller) {
        abort(seat, local, stm, caller);
        return Commit::Conflict(cause);
    }
    let start = local.start;
    if start >= CLOCK_LIMIT {
        let clock = lazy_steps::limit(stm, seat, caller);
        abort(seat, local, stm, caller);
        return Commit::ClockFull { clock };
    }
    let now = eager_steps::commit_placed(stm, seat, caller, start);
    if now != start {
        local.committing = true;
        return Commit::Again {
            word: 0,
            had: start,
            now,
        };
    }
    release_all(seat, local, stm, caller, start + 1);
    local.committing = false;
    leave(seat, local, stm, caller);
    Commit::Committed { time: start + 1 }
}

/// Validates where the call before answered Again: the clock has moved past the start since.
fn revalidate<K: MemRule>(
    seat: &mut Token<K>,
    local: &mut Local,
    stm: &Stm<K>,
    caller: usize,
) -> Result<(), Cause>
    requires seat { IsSeatOf stm.now caller seat.old }
    requires caller { caller < stm.now.config.callers }
    requires attempt { CanCommitPlaced (K.good stm.now.rule) stm.now.config caller local.old
        (view_of seat.old) }
    ensures same { MovesView seat.old seat.new }
    ensures revalidates { Revalidates (K.good stm.now.rule) stm.now.config caller result local.old
        (view_of seat.old) local.new (view_of seat.new) }
    ensures steps { TakesAtMost (1 + local.old.reads.len) (view_of seat.old) (view_of seat.new) }
{
    if local.committing {
        return validate(seat, local, stm, caller);
    }
    Ok(())
}

/// Commits what a promoted attempt stored, gives its records back at the time of the entry, stores it in BASE and in
/// DONE, and reopens the gate. Five steps, and one for each record; two, and those of `give_above`, where nothing is
/// written. Its write log stays.
#[cold]
#[inline(never)]
pub(crate) fn commit_direct<K: MemRule>(desc: &mut Desc<K>, stm: &Stm<K>) -> Commit
    requires stm { IsOf desc.old stm.now }
    requires running { (known desc.old).running ≡ true }
    requires algorithm { (known desc.old).alg ≡ OrecEager }
    requires granted { (known desc.old).granted ≡ true }
    requires keeps { KeepsRule (K.good stm.now.rule) stm.now.config (number desc.old)
        (known desc.old) }
    ensures same { IsSameCaller desc.old desc.new }
    ensures commits { Commits (K.good stm.now.rule) stm.now.config (number desc.old) result
        (known desc.old) (known desc.new) }
    ensures buffered { desc.new.own.buffered ≡ desc.old.own.buffered }
    ensures steps { AddsAtMost (5 + (known desc.old).writes_limit) (known desc.old)
        (known desc.new) }
{
    let caller = desc.number;
    let start = desc.local.start;
    if !desc.local.wrote {
        give_above(&mut desc.seat, &desc.local, stm, caller);
        leave(&mut desc.seat, &mut desc.local, stm, caller);
        return Commit::ReadOnly { time: start };
    }
    let alg = desc.local.algorithm;
    let time = start + alg.entry_rise();
    stm.direct_commit(&mut desc.seat, caller, alg, time);
    give_direct(&mut desc.seat, &desc.local, stm, caller, time);
    stm.store_base(&mut desc.seat, caller, time);
    stm.store_done(&mut desc.seat, caller, time);
    leave(&mut desc.seat, &mut desc.local, stm, caller);
    Commit::Committed { time }
}

/// Gives back the records of a promoted attempt that has nothing written, whose writes were all taken back before, as a
/// rollback does: it raises the clock above the versions that they had, and gives each back one later than it was. BASE
/// and DONE stay, since it makes no entry. No step where no record is held; else one, and one for each.
fn give_above<K: MemRule>(seat: &mut Token<K>, local: &Local, stm: &Stm<K>, caller: usize)
    requires seat { IsSeatOf stm.now caller seat.old }
    requires caller { caller < stm.now.config.callers }
    requires view { CanGiveAbove stm.now.config local.now (view_of seat.old) }
    ensures same { MovesView seat.old seat.new }
    ensures gives { GivesAbove (view_of seat.old) (view_of seat.new) }
    ensures steps { TakesAtMost (1 + length local.now.locks.items) (view_of seat.old)
        (view_of seat.new) }
{
    if local.locks.count() == 0 {
        return;
    }
    let least = newest(local) + 1;
    direct_raise_clock(stm, seat, caller, least);
    for i in 0..local.locks.count() {
        let (r, version) = local.locks.item(i);
        direct_release_above(stm, seat, caller, r, version + 1);
    }
}

/// Gives back the records of a promoted attempt, each with this time as its version. A step for each.
fn give_direct<K: MemRule>(
    seat: &mut Token<K>,
    local: &Local,
    stm: &Stm<K>,
    caller: usize,
    time: u64,
)
    requires seat { IsSeatOf stm.now caller seat.old }
    requires limit { time ≤ CLOCK_LIMIT }
    requires view { CanGiveDirect stm.now.config time local.now (view_of seat.old) }
    ensures same { MovesView seat.old seat.new }
    ensures releases { ReleasesAll (view_of seat.old) (view_of seat.new) }
    ensures steps { TakesAtMost (length local.now.locks.items) (view_of seat.old)
        (view_of seat.new) }
{
    for i in 0..local.locks.count() {
        let (r, _) = local.locks.item(i);
        direct_release(stm, seat, caller, r, time);
    }
}
