//! How an attempt of OrecLazy that wrote commits.
ghost use Rattle.stm_rule.specs.Counting.{TakesAtMost};
ghost use Rattle.std.specs.Prelude.{◌≡◌, ℕ, ◌<◌, ◌≤◌, false, ◌+◌, ◌*◌, length};
ghost use Rattle.stm_rule.specs.Attempts.{IsFenceOf, own_of, Stands, ended};
ghost use Rattle.stm_rule.specs.Callers.{IsSeatOf};
ghost use Rattle.stm_rule.specs.Kept.{MovesView, view_of};
ghost use Rattle.stm_answers.specs.Answers.{KeepsRule, Commits};
ghost use Rattle.stm_answers.specs.CallerState.{known_of};
ghost use Rattle.alg_orec.specs.Committing.{CanCommit, Prepares, CanFinish};
ghost use Rattle.alg_orec.specs.Ending.{GivesUp};

use crate::lazy_ending::abort;
use crate::lazy_steps;
use crate::locking::{lock_all, release_all, write_back_all};
use crate::validate::validate;
use stm_answers::answers::Commit;
use stm_gate::leave::leave;
use stm_model::config::CLOCK_LIMIT;
use stm_model::rule::MemRule;
use stm_model::stop::Cause;
use stm_rule::local::Local;
use stm_rule::stm::{Stm, Token};

/// Commits what the attempt wrote, or goes on with a commit that answered Again. The steps of `prepare`, one for the
/// entry, and one for each word and each record. What was written stays in its log, whatever the answer.
#[inline(always)]
pub(crate) fn commit_writes<K: MemRule>(
    seat: &mut Token<K>,
    local: &mut Local,
    stm: &Stm<K>,
    caller: usize,
) -> Commit
    requires seat { IsSeatOf stm.now caller seat.old }
    requires caller { caller < stm.now.config.callers }
    requires attempt { CanCommit (K.good stm.now.rule) stm.now.config caller local.old
        (view_of seat.old) }
    requires keeps { KeepsRule (K.good stm.now.rule) stm.now.config caller
        (known_of (view_of seat.old) (own_of local.old)) }
    ensures same { MovesView seat.old seat.new }
    ensures commits { Commits (K.good stm.now.rule) stm.now.config caller result
        (known_of (view_of seat.old) (own_of local.old))
        (known_of (view_of seat.new) (own_of local.new)) }
    ensures written { local.new.writes ≡ local.old.writes }
    ensures stands { Stands (K.good stm.now.rule) stm.now.config caller local.new
        (view_of seat.new) }
    ensures steps { TakesAtMost (5 + local.old.reads.len + 4 * local.old.writes.len)
        (view_of seat.old) (view_of seat.new) }
{
    if let Err(cause) = prepare(seat, local, stm, caller) {
        abort(seat, local, stm, caller);
        return Commit::Conflict(cause);
    }
    let start = local.start;
    if start >= CLOCK_LIMIT {
        let clock = lazy_steps::limit(stm, seat, caller);
        abort(seat, local, stm, caller);
        return Commit::ClockFull { clock };
    }
    let now = lazy_steps::commit(stm, seat, caller, start, &local.writes);
    if now != start {
        local.committing = true;
        return Commit::Again {
            word: 0,
            had: start,
            now,
        };
    }
    finish(seat, local, stm, caller, start + 1);
    Commit::Committed { time: start + 1 }
}

/// Takes the records of what was written, in the first call of a commit, and validates where one was newer than the
/// start, and in a later call.
#[inline(always)]
fn prepare<K: MemRule>(
    seat: &mut Token<K>,
    local: &mut Local,
    stm: &Stm<K>,
    caller: usize,
) -> Result<(), Cause>
    requires seat { IsSeatOf stm.now caller seat.old }
    requires caller { caller < stm.now.config.callers }
    requires attempt { CanCommit (K.good stm.now.rule) stm.now.config caller local.old
        (view_of seat.old) }
    ensures same { MovesView seat.old seat.new }
    ensures prepares { Prepares (K.good stm.now.rule) stm.now.config caller result local.old
        (view_of seat.old) local.new (view_of seat.new) }
    ensures steps { TakesAtMost (1 + local.old.reads.len + 2 * local.old.writes.len)
        (view_of seat.old) (view_of seat.new) }
{
    if local.committing {
        return validate(seat, local, stm, caller);
    }
    let newest = lock_all(seat, local, stm, caller)?;
    if newest > local.start {
        return validate(seat, local, stm, caller);
    }
    Ok(())
}

/// Stores what was written in the heap, gives the records back, and ends the attempt, whose entry has this time.
#[inline(always)]
fn finish<K: MemRule>(
    seat: &mut Token<K>,
    local: &mut Local,
    stm: &Stm<K>,
    caller: usize,
    time: u64,
)
    requires seat { IsSeatOf stm.now caller seat.old }
    requires caller { caller < stm.now.config.callers }
    requires limit { time ≤ CLOCK_LIMIT }
    requires view { CanFinish stm.now.config time local.old (view_of seat.old) }
    requires fence { IsFenceOf local.old (view_of seat.old) }
    ensures same { MovesView seat.old seat.new }
    ensures finishes { GivesUp caller (view_of seat.old) (view_of seat.new) }
    ensures idle { local.new ≡ ended (record local.old { committing = false }) }
    ensures steps { TakesAtMost (2 + local.old.writes.len + length local.old.locks.items)
        (view_of seat.old) (view_of seat.new) }
{
    write_back_all(seat, local, stm, caller);
    release_all(seat, local, stm, caller, time);
    local.committing = false;
    leave(seat, local, stm, caller);
}
