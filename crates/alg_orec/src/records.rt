//! The record of a word, and the steps on it by the word's address.
ghost use Rattle.std.specs.Prelude.{◌≡◌, ◌<◌, ◌≤◌, ◌%◌};
ghost use Rattle.stm_model.specs.Memories.{item_at};
ghost use Rattle.rule_base.specs.declared.layout.At.TheVariants.{Record};
ghost use Rattle.rule_base.specs.Places.{offset};
ghost use Rattle.rule_base.specs.Ranks.{home_of};
ghost use Rattle.rule_orec.specs.OrecSteps.{orec_sample, CanOrecSample, orec_confirm, CanOrecConfirm, orec_pass, CanOrecPass, orec_last, CanOrecLast};
ghost use Rattle.alg_orec.specs.RecordFindings.{FindsRecord, FindsAgain, FindsRead, FindsLast};
ghost use Rattle.stm_rule.specs.Callers.{IsSeatOf};
ghost use Rattle.stm_rule.specs.Kept.{good_of, SeatTells, IsSameSeat, view_of};
ghost use Rattle.alg_orec.specs.Loading.{TellsSeen};

use crate::reading_steps;
use stm_model::config::CLOCK_LIMIT;
use stm_model::rule::MemRule;
use stm_rule::local::Local;
use stm_rule::stm::{Stm, Token};

/// The top bit of a word.
const OWNED_TOP: u64 = 9_223_372_036_854_775_808;

/// The number of the record that the word at `a` belongs to, among so many. Where the memory has a record for each of
/// its words this takes no division, which would cost more than the three loads of a read.
#[inline(always)]
pub(crate) fn record_of(records: usize, a: usize) -> usize
    requires { 0 < records }
    ensures { result ≡ a % records }
{
    if a < records { a } else { a % records }
}

/// Whether a record's word is free, at a version that the start has seen. One comparison: the lowest bit, which an
/// owned word has set, goes to the top, where no number of the clock has one.
#[inline(always)]
pub(crate) fn is_seen(word: u64, start: u64) -> bool
    requires { start ≤ CLOCK_LIMIT }
    ensures { TellsSeen result word start }
{
    word / 2 + word % 2 * OWNED_TOP <= start
}

/// If held, the version of `a`'s record before it was locked. No step.
#[inline(always)]
pub(crate) fn held(local: &Local, records: usize, a: usize) -> Option<u64>
    requires { 0 < records }
    ensures { result ≡ item_at (a % records) local.now.locks.items }
{
    local.locks.find(record_of(records, a))
}

/// Loads record `r`, that of the word at `a`, before the word: a free one is sampled. Answers the record's word.
#[inline(always)]
pub(crate) fn sample<K: MemRule>(
    stm: &Stm<K>,
    seat: &mut Token<K>,
    caller: usize,
    a: usize,
    r: usize,
    at: usize,
) -> u64
    requires seat { IsSeatOf stm.now caller seat.old }
    requires record { r ≡ a % stm.now.config.records }
    requires at { at ≡ offset stm.now.config (Record r) }
    requires some { 0 < stm.now.config.records }
    requires view { CanOrecSample (home_of stm.now.config) (a % stm.now.config.records) a
        (view_of seat.old) }
    ensures same { IsSameSeat seat.old seat.new }
    ensures step { SeatTells (orec_sample (a % stm.now.config.records) a)
        (FindsRecord stm.now.config caller (a % stm.now.config.records)) seat.old.me.0 result
        seat.new.me.0 }
{
    reading_steps::sample(stm, seat, caller, r, at, a)
}

/// Loads record `r`, that of the word at `a`, again, after the word: where it is as sampled, the word is read. Answers
/// the record's word.
#[inline(always)]
pub(crate) fn confirm<K: MemRule>(
    stm: &Stm<K>,
    seat: &mut Token<K>,
    caller: usize,
    a: usize,
    r: usize,
    at: usize,
) -> u64
    requires seat { IsSeatOf stm.now caller seat.old }
    requires record { r ≡ a % stm.now.config.records }
    requires at { at ≡ offset stm.now.config (Record r) }
    requires some { 0 < stm.now.config.records }
    requires view { CanOrecConfirm (home_of stm.now.config) stm.now.config.words
        (a % stm.now.config.records) (view_of seat.old) }
    ensures same { IsSameSeat seat.old seat.new }
    ensures step { SeatTells (orec_confirm (a % stm.now.config.records))
        (FindsAgain (good_of K.good stm.now.config stm.now.rule) stm.now.config caller
        (a % stm.now.config.records)) seat.old.me.0 result seat.new.me.0 }
{
    reading_steps::confirm(stm, seat, caller, r, at)
}

/// Loads the record of a read at `b`, to validate it: it passes where it is free at a version of at most the start.
/// Answers its word.
#[inline(always)]
pub(crate) fn pass<K: MemRule>(stm: &Stm<K>, seat: &mut Token<K>, caller: usize, b: usize) -> u64
    requires seat { IsSeatOf stm.now caller seat.old }
    requires some { 0 < stm.now.config.records }
    requires view { CanOrecPass (home_of stm.now.config) (b % stm.now.config.records) b
        (view_of seat.old) }
    ensures same { IsSameSeat seat.old seat.new }
    ensures step { SeatTells (orec_pass (b % stm.now.config.records) b)
        (FindsRead stm.now.config caller (b % stm.now.config.records)) seat.old.me.0 result
        seat.new.me.0 }
{
    let r = record_of(stm.config.records, b);
    reading_steps::pass(stm, seat, caller, r, b)
}
