//! The steps by which an attempt of OrecLazy or OrecEager begins, reads and validates.
ghost use Rattle.rule_base.specs.declared.layout.At.TheVariants.{Record};
ghost use Rattle.rule_base.specs.Places.{offset};
ghost use Rattle.rule_base.specs.Ranks.{home_of};
ghost use Rattle.rule_base.specs.StepKinds.{Nothing};
ghost use Rattle.rule_orec.specs.OrecSteps.{orec_begin, CanOrecBegin, orec_sample, CanOrecSample, orec_load, CanOrecLoad, orec_confirm, CanOrecConfirm, HasOpen, orec_clock, orec_clock_all, CanOrecClock, orec_pass, CanOrecPass, orec_last, CanOrecLast};
ghost use Rattle.std.specs.Prelude.{◌<◌, ℕ, ◌≡◌, []};
ghost use Rattle.alg_orec.specs.Vouching.{to_validate};
ghost use Rattle.alg_orec.specs.RecordFindings.{FindsRecord, FindsStart, FindsAgain, FindsClock, FindsAll, FindsRead, FindsLast};
ghost use Rattle.stm_rule.specs.Callers.{IsSeatOf};
ghost use Rattle.stm_rule.specs.Kinds.Lifting.{IsSpared};
ghost use Rattle.stm_rule.specs.Kept.{good_of, SeatTells, IsSameSeat, view_of};

use rule_base::layout::At;
use std::marker::Brand;
use stm_model::rule::MemRule;
use stm_rule::stm::{Stm, Token};

/// Loads the clock as the start of an attempt, and answers it.
pub fn begin<K: MemRule>(stm: &Stm<K>, seat: &mut Token<K>, caller: usize) -> u64
    requires seat { IsSeatOf stm.now caller seat.old }
    requires view { CanOrecBegin (view_of seat.old) }
    ensures same { IsSameSeat seat.old seat.new }
    ensures step { SeatTells orec_begin
        (FindsStart (good_of K.good stm.now.config stm.now.rule) stm.now.config) seat.old.me.0
        result seat.new.me.0 }
{
    stm.load_as::<Brand, usize>(seat, At::Clock, &caller)
}

/// Loads record `r`, that of address `a`, before the word: a free one is sampled. `at` is its index in the table.
/// Answers its word.
pub fn sample<K: MemRule>(
    stm: &Stm<K>,
    seat: &mut Token<K>,
    caller: usize,
    r: usize,
    at: usize,
    a: usize,
) -> u64
    requires seat { IsSeatOf stm.now caller seat.old }
    requires place { r < stm.now.config.records }
    requires at { at ≡ offset stm.now.config (Record r) }
    requires view { CanOrecSample (home_of stm.now.config) r a (view_of seat.old) }
    ensures same { IsSameSeat seat.old seat.new }
    ensures step { SeatTells (orec_sample r a) (FindsRecord stm.now.config caller r) seat.old.me.0
        result seat.new.me.0 }
{
    stm.load_at::<Brand, (usize, usize, usize)>(seat, at, &(caller, r, a))
}

/// Loads the heap word at `a`, whose record was sampled, and answers it.
pub fn load<K: MemRule>(stm: &Stm<K>, seat: &mut Token<K>, caller: usize, a: usize) -> u64
    requires seat { IsSeatOf stm.now caller seat.old }
    requires place { a < stm.now.config.words }
    requires view { CanOrecLoad a (view_of seat.old) }
    requires spared { IsSpared a (view_of seat.old) }
    ensures same { IsSameSeat seat.old seat.new }
    ensures step { SeatTells (orec_load a) Nothing seat.old.me.0 result seat.new.me.0 }
{
    stm.load_as::<Brand, usize>(seat, At::Heap(a), &caller)
}

/// Loads record `r`, whose index in the table is `at`, again, after the word: where it is as sampled, the word is read.
/// Answers the record's word.
pub fn confirm<K: MemRule>(
    stm: &Stm<K>,
    seat: &mut Token<K>,
    caller: usize,
    r: usize,
    at: usize,
) -> u64
    requires seat { IsSeatOf stm.now caller seat.old }
    requires place { r < stm.now.config.records }
    requires at { at ≡ offset stm.now.config (Record r) }
    requires view { CanOrecConfirm (home_of stm.now.config) stm.now.config.words r
        (view_of seat.old) }
    ensures same { IsSameSeat seat.old seat.new }
    ensures step { SeatTells (orec_confirm r)
        (FindsAgain (good_of K.good stm.now.config stm.now.rule) stm.now.config caller r)
        seat.old.me.0 result seat.new.me.0 }
{
    stm.load_at::<Brand, (usize, usize)>(seat, at, &(caller, r))
}

/// Loads the clock, up to which the reads are to be validated, and answers it. A read of a record that the attempt
/// holds, in the place of a version that its start has seen, is valid.
pub fn clock<K: MemRule>(stm: &Stm<K>, seat: &mut Token<K>, caller: usize) -> u64
    requires seat { IsSeatOf stm.now caller seat.old }
    requires view { HasOpen (view_of seat.old) }
    ensures same { IsSameSeat seat.old seat.new }
    ensures step { SeatTells (orec_clock (to_validate (home_of stm.now.config) (view_of seat.old)))
        (FindsClock stm.now.config) seat.old.me.0 result seat.new.me.0 }
{
    stm.load_as::<Brand, usize>(seat, At::Clock, &caller)
}

/// Loads the clock, to which the start moves where no record is to be loaded, and answers it.
pub fn clock_all<K: MemRule>(stm: &Stm<K>, seat: &mut Token<K>, caller: usize) -> u64
    requires seat { IsSeatOf stm.now caller seat.old }
    requires view { CanOrecClock (home_of stm.now.config) [] (view_of seat.old) }
    ensures same { IsSameSeat seat.old seat.new }
    ensures step { SeatTells orec_clock_all
        (FindsAll (good_of K.good stm.now.config stm.now.rule) stm.now.config) seat.old.me.0 result
        seat.new.me.0 }
{
    stm.load_as::<Brand, usize>(seat, At::Clock, &caller)
}

/// Loads record `r`, that of a read of address `b`, to validate it: it passes where it is free at a version of at
/// most the start. Answers its word.
pub fn pass<K: MemRule>(stm: &Stm<K>, seat: &mut Token<K>, caller: usize, r: usize, b: usize) -> u64
    requires seat { IsSeatOf stm.now caller seat.old }
    requires place { r < stm.now.config.records }
    requires view { CanOrecPass (home_of stm.now.config) r b (view_of seat.old) }
    ensures same { IsSameSeat seat.old seat.new }
    ensures step { SeatTells (orec_pass r b) (FindsRead stm.now.config caller r) seat.old.me.0
        result seat.new.me.0 }
{
    stm.load_as::<Brand, (usize, usize)>(seat, At::Record(r), &(caller, b))
}

/// The same for the last read to validate: where it passes, the start moves to the clock that was loaded.
pub fn last<K: MemRule>(stm: &Stm<K>, seat: &mut Token<K>, caller: usize, r: usize, b: usize) -> u64
    requires seat { IsSeatOf stm.now caller seat.old }
    requires place { r < stm.now.config.records }
    requires view { CanOrecLast (home_of stm.now.config) r b (view_of seat.old) }
    ensures same { IsSameSeat seat.old seat.new }
    ensures step { SeatTells (orec_last r b)
        (FindsLast (good_of K.good stm.now.config stm.now.rule) stm.now.config caller r)
        seat.old.me.0 result seat.new.me.0 }
{
    stm.load_as::<Brand, (usize, usize)>(seat, At::Record(r), &(caller, b))
}
