//! The steps by which an attempt of OrecLazy or OrecEager is promoted, and of a promoted one.
ghost use Rattle.rule_base.specs.Encodings.{free_record};
ghost use Rattle.rule_base.specs.Ranks.{home_of};
ghost use Rattle.rule_base.specs.StepKinds.{Nothing};
ghost use Rattle.rule_orec.specs.OrecSteps.{orec_grant, CanOrecGrant, orec_grant_all, CanOrecGrantAll};
ghost use Rattle.rule_promoted.specs.PromotedSteps.{direct_release, CanDirectRelease};
ghost use Rattle.rule_promoted.specs.RaisingSteps.{direct_raise_clock, CanDirectRaiseClock, direct_up, CanDirectUp};
ghost use Rattle.std.specs.Prelude.{◌<◌, ◌≤◌, ℕ, ◌≡◌};
ghost use Rattle.alg_orec.specs.RecordFindings.{FindsAll, FindsGrant, FindsStill};
ghost use Rattle.stm_rule.specs.Callers.{IsSeatOf};
ghost use Rattle.stm_rule.specs.Kept.{good_of, SeatTells, IsSameSeat, view_of};

use rule_base::layout::At;
use rule_base::words::free_record;
use std::marker::Brand;
use stm_model::config::CLOCK_LIMIT;
use stm_model::rule::MemRule;
use stm_rule::stm::{Stm, Token};

/// Loads record `r`, that of the last read to validate, of address `b`, with the clock settled: where it passes, the
/// attempt is promoted. Answers its word.
pub fn grant<K: MemRule>(
    stm: &Stm<K>,
    seat: &mut Token<K>,
    caller: usize,
    r: usize,
    b: usize,
) -> u64
    requires seat { IsSeatOf stm.now caller seat.old }
    requires place { r < stm.now.config.records }
    requires view { CanOrecGrant (home_of stm.now.config) stm.now.config.words r b
        (view_of seat.old) }
    ensures same { IsSameSeat seat.old seat.new }
    ensures step { SeatTells (orec_grant r b)
        (FindsGrant (good_of K.good stm.now.config stm.now.rule) stm.now.config caller r)
        seat.old.me.0 result seat.new.me.0 }
{
    stm.load_as::<Brand, (usize, usize)>(seat, At::Record(r), &(caller, b))
}

/// Loads the clock where no record is to be loaded: below its limit, the attempt is promoted. Answers the clock.
pub fn grant_all<K: MemRule>(stm: &Stm<K>, seat: &mut Token<K>, caller: usize) -> u64
    requires seat { IsSeatOf stm.now caller seat.old }
    requires view { CanOrecGrantAll (home_of stm.now.config) stm.now.config.words
        stm.now.config.callers caller (view_of seat.old) }
    ensures same { IsSameSeat seat.old seat.new }
    ensures step { SeatTells orec_grant_all
        (FindsAll (good_of K.good stm.now.config stm.now.rule) stm.now.config) seat.old.me.0 result
        seat.new.me.0 }
{
    stm.load_as::<Brand, usize>(seat, At::Clock, &caller)
}

/// Gives record `r` back after the entry of a promoted attempt, free with the entry's time as its version.
pub fn direct_release<K: MemRule>(
    stm: &Stm<K>,
    seat: &mut Token<K>,
    caller: usize,
    r: usize,
    time: u64,
)
    requires seat { IsSeatOf stm.now caller seat.old }
    requires place { r < stm.now.config.records }
    requires limit { time ≤ CLOCK_LIMIT }
    requires view { CanDirectRelease r time (view_of seat.old) }
    ensures same { IsSameSeat seat.old seat.new }
    ensures step { SeatTells (direct_release r time) Nothing seat.old.me.0 (free_record time)
        seat.new.me.0 }
{
    stm.store_as::<Brand, (usize, u64)>(seat, At::Record(r), free_record(time), &(caller, time));
}

/// Raises the clock to `least`, the greatest old version and one more, where it is lower, for a promoted attempt that
/// holds records and wrote nothing; it makes no entry. Answers the clock found.
pub fn direct_raise_clock<K: MemRule>(
    stm: &Stm<K>,
    seat: &mut Token<K>,
    caller: usize,
    least: u64,
) -> u64
    requires seat { IsSeatOf stm.now caller seat.old }
    requires caller { caller < stm.now.config.callers }
    requires view { CanDirectRaiseClock least (view_of seat.old) }
    ensures same { IsSameSeat seat.old seat.new }
    ensures step { SeatTells (direct_raise_clock least) (FindsStill stm.now.config) seat.old.me.0
        result seat.new.me.0 }
{
    stm.raise_as::<Brand, usize>(seat, At::Clock, least, &caller)
}

/// Gives record `r` back where a promoted attempt has no entry, free with its old version and one more.
pub fn direct_release_above<K: MemRule>(
    stm: &Stm<K>,
    seat: &mut Token<K>,
    caller: usize,
    r: usize,
    version: u64,
)
    requires seat { IsSeatOf stm.now caller seat.old }
    requires place { r < stm.now.config.records }
    requires limit { version ≤ CLOCK_LIMIT }
    requires view { CanDirectUp r version (view_of seat.old) }
    ensures same { IsSameSeat seat.old seat.new }
    ensures step { SeatTells (direct_up r version) Nothing seat.old.me.0 (free_record version)
        seat.new.me.0 }
{
    stm.store_as::<Brand, (usize, u64)>(
        seat,
        At::Record(r),
        free_record(version),
        &(caller, version),
    );
}
