//! The steps of a commit of OrecLazy, of which OrecEager takes the first three too.
ghost use Rattle.rule_base.specs.Encodings.{free_record};
ghost use Rattle.rule_base.specs.Ranks.{home_of};
ghost use Rattle.rule_base.specs.StepKinds.{Nothing};
ghost use Rattle.rule_orec.specs.OrecSteps.{HasOrec, orec_look, orec_limit, orec_lock, CanOrecLock, orec_commit, CanOrecCommit, orec_write_back, CanOrecWriteBack, orec_release, CanOrecTime, CanOrecOld};
ghost use Rattle.std.specs.Prelude.{◌<◌, ◌≤◌, ℕ, ◌≡◌};
ghost use Rattle.alg_orec.specs.RecordFindings.{FindsRecord, FindsClock, FindsCommit};
ghost use Rattle.stm_rule.specs.Callers.{IsSeatOf};
ghost use Rattle.stm_rule.specs.Kinds.Lifting.{AreSpared};
ghost use Rattle.stm_rule.specs.Kept.{good_of, SeatTells, IsSameSeat, view_of};
ghost use Rattle.stm_rule.specs.RecordsKept.{cells_of};

use rule_base::layout::At;
use rule_base::words::{free_record, owned_record};
use std::marker::Brand;
use stm_logs::write_log::WriteLog;
use stm_model::config::CLOCK_LIMIT;
use stm_model::rule::MemRule;
use stm_rule::stm::{Stm, Token};

/// Loads record `r` before its exchange, and answers its word.
pub fn look<K: MemRule>(stm: &Stm<K>, seat: &mut Token<K>, caller: usize, r: usize) -> u64
    requires seat { IsSeatOf stm.now caller seat.old }
    requires place { r < stm.now.config.records }
    requires view { HasOrec (view_of seat.old) }
    ensures same { IsSameSeat seat.old seat.new }
    ensures step { SeatTells (orec_look r) (FindsRecord stm.now.config caller r) seat.old.me.0
        result seat.new.me.0 }
{
    stm.load_as::<Brand, usize>(seat, At::Record(r), &caller)
}

/// Loads the clock, to compare it with its limit, and answers it.
pub fn limit<K: MemRule>(stm: &Stm<K>, seat: &mut Token<K>, caller: usize) -> u64
    requires seat { IsSeatOf stm.now caller seat.old }
    requires view { HasOrec (view_of seat.old) }
    ensures same { IsSameSeat seat.old seat.new }
    ensures step { SeatTells orec_limit (FindsClock stm.now.config) seat.old.me.0 result
        seat.new.me.0 }
{
    stm.load_as::<Brand, usize>(seat, At::Clock, &caller)
}

/// Exchanges record `r`, free at this version for the own lock, and answers the word found.
pub fn lock<K: MemRule>(
    stm: &Stm<K>,
    seat: &mut Token<K>,
    caller: usize,
    r: usize,
    version: u64,
) -> u64
    requires seat { IsSeatOf stm.now caller seat.old }
    requires caller { caller < stm.now.config.callers }
    requires place { r < stm.now.config.records }
    requires limit { version ≤ CLOCK_LIMIT }
    requires view { CanOrecLock version (view_of seat.old) }
    ensures same { IsSameSeat seat.old seat.new }
    ensures step { SeatTells (orec_lock caller r version) (FindsRecord stm.now.config caller r)
        seat.old.me.0 result seat.new.me.0 }
{
    stm.exchange_as::<Brand, (usize, u64)>(
        seat,
        At::Record(r),
        free_record(version),
        owned_record(caller as u64),
        &(caller, version),
    )
}

/// Exchanges the clock, the start for the next number, and answers the clock found. Where that is the start, the entry
/// with these writes is in the history, and they are still to be stored in the heap.
pub fn commit<K: MemRule>(
    stm: &Stm<K>,
    seat: &mut Token<K>,
    caller: usize,
    start: u64,
    writes: &WriteLog,
) -> u64
    requires seat { IsSeatOf stm.now caller seat.old }
    requires caller { caller < stm.now.config.callers }
    requires view { CanOrecCommit (home_of stm.now.config)
        (good_of K.good stm.now.config stm.now.rule) stm.now.config.words start
        (cells_of writes.now.items) (cells_of writes.now.items) (view_of seat.old) }
    requires spared { AreSpared (cells_of writes.now.items) (view_of seat.old) }
    ensures same { IsSameSeat seat.old seat.new }
    ensures step { SeatTells
        (orec_commit caller start (cells_of writes.now.items) (cells_of writes.now.items))
        (FindsCommit (good_of K.good stm.now.config stm.now.rule) stm.now.config caller start
        (cells_of writes.now.items)) seat.old.me.0 result seat.new.me.0 }
{
    stm.exchange_as::<Brand, (usize, &WriteLog)>(
        seat,
        At::Clock,
        start,
        start + 1,
        &(caller, writes),
    )
}

/// Stores the entry's value `x` in the heap word at `a`.
pub fn write_back<K: MemRule>(stm: &Stm<K>, seat: &mut Token<K>, caller: usize, a: usize, x: u64)
    requires seat { IsSeatOf stm.now caller seat.old }
    requires place { a < stm.now.config.words }
    requires view { CanOrecWriteBack a x (view_of seat.old) }
    ensures same { IsSameSeat seat.old seat.new }
    ensures step { SeatTells (orec_write_back a x) Nothing seat.old.me.0 x seat.new.me.0 }
{
    stm.store_as::<Brand, usize>(seat, At::Heap(a), x, &caller);
}

/// Gives record `r` back after the entry, free with the entry's time as its version.
pub fn release<K: MemRule>(stm: &Stm<K>, seat: &mut Token<K>, caller: usize, r: usize, time: u64)
    requires seat { IsSeatOf stm.now caller seat.old }
    requires place { r < stm.now.config.records }
    requires limit { time ≤ CLOCK_LIMIT }
    requires view { CanOrecTime (home_of stm.now.config) r time (view_of seat.old) }
    ensures same { IsSameSeat seat.old seat.new }
    ensures step { SeatTells (orec_release r time) Nothing seat.old.me.0 (free_record time)
        seat.new.me.0 }
{
    stm.store_as::<Brand, (usize, u64)>(seat, At::Record(r), free_record(time), &(caller, time));
}

/// Gives record `r` back where OrecLazy has no entry, free with its old version.
pub fn release_old<K: MemRule>(stm: &Stm<K>, seat: &mut Token<K>, caller: usize, r: usize, old: u64)
    requires seat { IsSeatOf stm.now caller seat.old }
    requires place { r < stm.now.config.records }
    requires limit { old ≤ CLOCK_LIMIT }
    requires view { CanOrecOld (home_of stm.now.config) r old (view_of seat.old) }
    ensures same { IsSameSeat seat.old seat.new }
    ensures step { SeatTells (orec_release r old) Nothing seat.old.me.0 (free_record old)
        seat.new.me.0 }
{
    stm.store_as::<Brand, (usize, u64)>(seat, At::Record(r), free_record(old), &(caller, old));
}
