//! The steps by which OrecEager writes in place, commits and takes back.
ghost use Rattle.rule_base.specs.Encodings.{free_record};
ghost use Rattle.rule_base.specs.Ranks.{home_of};
ghost use Rattle.rule_base.specs.StepKinds.{Nothing};
ghost use Rattle.rule_orec.specs.OrecSteps.{orec_own_load, CanOrecOwnLoad, OrecOwnLoads, orec_save, CanOrecSave, orec_place, CanOrecPlace, orec_commit, CanOrecCommit, orec_restore, CanOrecRestore, orec_raise_clock, CanOrecRaiseClock, orec_release, CanOrecUp};
ghost use Rattle.std.specs.Prelude.{◌<◌, ◌≤◌, ℕ, ◌≡◌, []};
ghost use Rattle.alg_orec.specs.RecordFindings.{FindsClock, FindsCommit};
ghost use Rattle.stm_rule.specs.Callers.{IsSeatOf};
ghost use Rattle.stm_rule.specs.Kinds.Lifting.{IsSpared};
ghost use Rattle.stm_rule.specs.Kept.{good_of, SeatTells, IsSameSeat, view_of};

use rule_base::layout::At;
use rule_base::words::free_record;
use std::marker::Brand;
use stm_model::config::CLOCK_LIMIT;
use stm_model::rule::MemRule;
use stm_rule::stm::{Stm, Token};

/// Loads the heap word at `a`, of a record that the attempt holds and where it has not written, and answers it: it is
/// read.
pub fn own_load<K: MemRule>(stm: &Stm<K>, seat: &mut Token<K>, caller: usize, a: usize) -> u64
    requires seat { IsSeatOf stm.now caller seat.old }
    requires view { CanOrecOwnLoad (home_of stm.now.config) stm.now.config.words a
        (view_of seat.old) }
    requires spared { IsSpared a (view_of seat.old) }
    ensures same { IsSameSeat seat.old seat.new }
    ensures step { SeatTells (orec_own_load a)
        (OrecOwnLoads (good_of K.good stm.now.config stm.now.rule) stm.now.config a) seat.old.me.0
        result seat.new.me.0 }
{
    stm.load_as::<Brand, usize>(seat, At::Heap(a), &caller)
}

/// Loads the heap word at `a` before the first write there, and answers it: the old value.
pub fn save<K: MemRule>(stm: &Stm<K>, seat: &mut Token<K>, caller: usize, a: usize) -> u64
    requires seat { IsSeatOf stm.now caller seat.old }
    requires place { a < stm.now.config.words }
    requires view { CanOrecSave (home_of stm.now.config) a (view_of seat.old) }
    requires spared { IsSpared a (view_of seat.old) }
    ensures same { IsSameSeat seat.old seat.new }
    ensures step { SeatTells (orec_save a) Nothing seat.old.me.0 result seat.new.me.0 }
{
    stm.load_as::<Brand, usize>(seat, At::Heap(a), &caller)
}

/// Stores `x` in the heap word at `a`, whose old value was loaded.
pub fn place<K: MemRule>(stm: &Stm<K>, seat: &mut Token<K>, caller: usize, a: usize, x: u64)
    requires seat { IsSeatOf stm.now caller seat.old }
    requires place { a < stm.now.config.words }
    requires view { CanOrecPlace a (view_of seat.old) }
    ensures same { IsSameSeat seat.old seat.new }
    ensures step { SeatTells (orec_place a x) Nothing seat.old.me.0 x seat.new.me.0 }
{
    stm.store_as::<Brand, usize>(seat, At::Heap(a), x, &caller);
}

/// Exchanges the clock, the start for the next number, and answers the clock found. Where that is the start, the entry
/// with what was stored in place is in the history.
pub fn commit_placed<K: MemRule>(
    stm: &Stm<K>,
    seat: &mut Token<K>,
    caller: usize,
    start: u64,
) -> u64
    requires seat { IsSeatOf stm.now caller seat.old }
    requires caller { caller < stm.now.config.callers }
    requires view { CanOrecCommit (home_of stm.now.config)
        (good_of K.good stm.now.config stm.now.rule) stm.now.config.words start
        (view_of seat.old).owned.in_place [] (view_of seat.old) }
    ensures same { IsSameSeat seat.old seat.new }
    ensures step { SeatTells (orec_commit caller start (view_of seat.old).owned.in_place [])
        (FindsCommit (good_of K.good stm.now.config stm.now.rule) stm.now.config caller start
        (view_of seat.old).owned.in_place) seat.old.me.0 result seat.new.me.0 }
{
    stm.exchange_as::<Brand, usize>(seat, At::Clock, start, start + 1, &caller)
}

/// Stores the old value `x` back in the heap word at `a`.
pub fn restore<K: MemRule>(stm: &Stm<K>, seat: &mut Token<K>, caller: usize, a: usize, x: u64)
    requires seat { IsSeatOf stm.now caller seat.old }
    requires place { a < stm.now.config.words }
    requires view { CanOrecRestore a x (view_of seat.old) }
    ensures same { IsSameSeat seat.old seat.new }
    ensures step { SeatTells (orec_restore a x) Nothing seat.old.me.0 x seat.new.me.0 }
{
    stm.store_as::<Brand, usize>(seat, At::Heap(a), x, &caller);
}

/// Raises the clock to `least`, the greatest old version and one more, where it is lower, and answers the clock found.
pub fn raise_clock<K: MemRule>(stm: &Stm<K>, seat: &mut Token<K>, caller: usize, least: u64) -> u64
    requires seat { IsSeatOf stm.now caller seat.old }
    requires caller { caller < stm.now.config.callers }
    requires view { CanOrecRaiseClock least (view_of seat.old) }
    ensures same { IsSameSeat seat.old seat.new }
    ensures step { SeatTells (orec_raise_clock least) (FindsClock stm.now.config) seat.old.me.0
        result seat.new.me.0 }
{
    stm.raise_as::<Brand, usize>(seat, At::Clock, least, &caller)
}

/// Gives record `r` back where OrecEager has no entry, free with its old version and one more.
pub fn release_above<K: MemRule>(
    stm: &Stm<K>,
    seat: &mut Token<K>,
    caller: usize,
    r: usize,
    version: u64,
)
    requires seat { IsSeatOf stm.now caller seat.old }
    requires place { r < stm.now.config.records }
    requires limit { version ≤ CLOCK_LIMIT }
    requires view { CanOrecUp (home_of stm.now.config) r version (view_of seat.old) }
    ensures same { IsSameSeat seat.old seat.new }
    ensures step { SeatTells (orec_release r version) Nothing seat.old.me.0 (free_record version)
        seat.new.me.0 }
{
    stm.store_as::<Brand, (usize, u64)>(
        seat,
        At::Record(r),
        free_record(version),
        &(caller, version),
    );
}
