//! The records of a commit: each is taken before the entry, and given back after it.
ghost use Rattle.stm_rule.specs.Counting.{TakesAtMost};
ghost use Rattle.std.specs.Prelude.{◌≡◌, ℕ, ◌<◌, ◌≤◌, ◌+◌, length, None, ◌*◌, ◌%◌};
ghost use Rattle.stm_model.specs.Memories.{item_at};
ghost use Rattle.stm_rule.specs.Callers.{IsSeatOf};
ghost use Rattle.stm_rule.specs.Kept.{MovesView, view_of};
ghost use Rattle.alg_orec.specs.Locking.{CanLock, CanLockAll, LocksOne, LocksAll, Owes, OwesNothing, Pays, ReleasesAll};

use crate::lazy_steps::{lock, look, release, write_back};
use crate::records::record_of;
use rule_base::words::{is_owned, version_of};
use stm_model::config::CLOCK_LIMIT;
use stm_model::rule::MemRule;
use stm_model::stop::Cause;
use stm_rule::local::Local;
use stm_rule::stm::{Stm, Token};

/// Takes the record of each address that was written, in the order of the first writes. Returns the newest version
/// found, or 0. Two steps for each record.
#[inline(always)]
pub(crate) fn lock_all<K: MemRule>(
    seat: &mut Token<K>,
    local: &mut Local,
    stm: &Stm<K>,
    caller: usize,
) -> Result<u64, Cause>
    requires seat { IsSeatOf stm.now caller seat.old }
    requires caller { caller < stm.now.config.callers }
    requires view { CanLockAll stm.now.config local.old (view_of seat.old) }
    ensures same { MovesView seat.old seat.new }
    ensures locks { LocksAll stm.now.config caller result local.old (view_of seat.old) local.new
        (view_of seat.new) }
    ensures steps { TakesAtMost (2 * local.old.writes.len) (view_of seat.old) (view_of seat.new) }
{
    let mut newest = 0;
    for i in 0..local.writes.count() {
        let (a, _) = local.writes.item(i);
        let r = record_of(stm.config.records, a);
        if local.locks.find(r).is_none() {
            let version = lock_record(seat, local, stm, caller, r)?;
            newest = newest.max(version);
        }
    }
    Ok(newest)
}

/// Takes a record that the attempt doesn't hold yet, and answers the version that it had. Two steps, one where another
/// caller owns it.
#[inline(always)]
fn lock_record<K: MemRule>(
    seat: &mut Token<K>,
    local: &mut Local,
    stm: &Stm<K>,
    caller: usize,
    r: usize,
) -> Result<u64, Cause>
    requires seat { IsSeatOf stm.now caller seat.old }
    requires caller { caller < stm.now.config.callers }
    requires place { r < stm.now.config.records }
    requires view { CanLock local.old (view_of seat.old) }
    requires new { item_at r local.old.locks.items ≡ None }
    requires room { length local.old.locks.items < local.old.locks.len }
    ensures same { MovesView seat.old seat.new }
    ensures locks { LocksOne stm.now.config caller r result local.old (view_of seat.old) local.new
        (view_of seat.new) }
    ensures steps { TakesAtMost (2) (view_of seat.old) (view_of seat.new) }
{
    let word = look(stm, seat, caller, r);
    if is_owned(word) {
        return Err(Cause::Record {
            index: r,
            word,
            start: local.start,
        });
    }
    let version = version_of(word);
    let found = lock(stm, seat, caller, r, version);
    if found != word {
        return Err(Cause::Moved {
            index: r,
            before: word,
            after: found,
        });
    }
    local.locks.push_new(r, version);
    Ok(version)
}

/// Stores what was written in the heap, in the order of the first writes. A step for each address.
#[inline(always)]
pub(crate) fn write_back_all<K: MemRule>(
    seat: &mut Token<K>,
    local: &Local,
    stm: &Stm<K>,
    caller: usize,
)
    requires seat { IsSeatOf stm.now caller seat.old }
    requires view { Owes stm.now.config.words local.now (view_of seat.old) }
    ensures same { MovesView seat.old seat.new }
    ensures pays { Pays (view_of seat.old) (view_of seat.new) }
    ensures steps { TakesAtMost local.now.writes.len (view_of seat.old) (view_of seat.new) }
{
    for i in 0..local.writes.count() {
        let (a, x) = local.writes.item(i);
        write_back(stm, seat, caller, a, x);
    }
}

/// Gives back the records that the attempt holds, each with the time of its entry as its version. A step for each.
#[inline(always)]
pub(crate) fn release_all<K: MemRule>(
    seat: &mut Token<K>,
    local: &Local,
    stm: &Stm<K>,
    caller: usize,
    time: u64,
)
    requires seat { IsSeatOf stm.now caller seat.old }
    requires limit { time ≤ CLOCK_LIMIT }
    requires view { OwesNothing stm.now.config time local.now (view_of seat.old) }
    ensures same { MovesView seat.old seat.new }
    ensures releases { ReleasesAll (view_of seat.old) (view_of seat.new) }
    ensures steps { TakesAtMost (length local.now.locks.items) (view_of seat.old)
        (view_of seat.new) }
{
    for i in 0..local.locks.count() {
        let (r, _) = local.locks.item(i);
        release(stm, seat, caller, r, time);
    }
}
