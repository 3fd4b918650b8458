//! The check: whether an entry since the start wrote what the attempt read.
ghost use Rattle.std.specs.Prelude.{◌≡◌, ◌≢◌, ℕ, ◌<◌, ◌+◌, ◌-◌, ◌*◌, max, min};
ghost use Rattle.stm_rule.specs.Counting.{TakesAtMost};
ghost use Rattle.alg_ring.specs.Checking.{CanScan, CanLoadSlot, LoadsPart, MeetsSlot, MeetsOne, Scans, Checks, ChecksOn, CanCheck, ChecksToGrant, CanCheckToGrant};
ghost use Rattle.stm_rule.specs.Callers.{IsSeatOf};
ghost use Rattle.stm_rule.specs.Kept.{MovesView, view_of};

use crate::promoting_steps::{advance_grant, look_grant};
use crate::reading_steps::{advance, again, first_word, look, word};
use stm_logs::filter::Filter;
use stm_model::rule::MemRule;
use stm_model::stop::Cause;
use stm_rule::stm::{Stm, Token};

/// Checks the entries since the start against the filter of what was read, and answers the start from then on. One
/// step where the clock is the start; else three, and one for each slot word that is needed.
#[inline(always)]
pub(crate) fn check<K: MemRule>(
    seat: &mut Token<K>,
    stm: &Stm<K>,
    caller: usize,
    start: u64,
    filter: &Filter,
) -> Result<u64, Cause>
    requires seat { IsSeatOf stm.now caller seat.old }
    requires view { CanCheck stm.now.config start filter.now (view_of seat.old) }
    ensures same { MovesView seat.old seat.new }
    ensures checks { Checks (K.good stm.now.rule) stm.now.config result filter.now
        (view_of seat.old) (view_of seat.new) }
    ensures steps { TakesAtMost (3 + 16 * (stm.now.config.ring - 1)) (view_of seat.old)
        (view_of seat.new) }
{
    let clock = look(stm, seat, caller);
    if clock == start {
        return Ok(start);
    }
    catch_up(seat, stm, caller, start, clock, filter)
}

/// The rest of a check that found the clock elsewhere than the start. It stands in line, and apart from what comes
/// before it, so that a check that passes at once makes no room for the answer of a scan.
#[inline(always)]
pub(crate) fn catch_up<K: MemRule>(
    seat: &mut Token<K>,
    stm: &Stm<K>,
    caller: usize,
    start: u64,
    clock: u64,
    filter: &Filter,
) -> Result<u64, Cause>
    requires seat { IsSeatOf stm.now caller seat.old }
    requires apart { clock ≢ start }
    requires view { CanScan start clock filter.now (view_of seat.old) }
    ensures same { MovesView seat.old seat.new }
    ensures checks { ChecksOn (K.good stm.now.rule) stm.now.config start clock result filter.now
        (view_of seat.old) (view_of seat.new) }
    ensures steps { TakesAtMost (2 + 16 * (stm.now.config.ring - 1)) (view_of seat.old)
        (view_of seat.new) }
{
    match scan(seat, stm, caller, start, clock, filter) {
        Err(cause) => Err(cause),
        Ok(()) => {
            let done = advance(stm, seat, caller);
            Ok(later_start(start, clock, done))
        }
    }
}

/// The same with the clock settled: where it passes, the start is that clock, and the attempt is promoted.
pub(crate) fn check_to_grant<K: MemRule>(
    seat: &mut Token<K>,
    stm: &Stm<K>,
    caller: usize,
    start: u64,
    filter: &Filter,
) -> Result<u64, Cause>
    requires seat { IsSeatOf stm.now caller seat.old }
    requires view { CanCheckToGrant stm.now.config start filter.now (view_of seat.old) }
    ensures same { MovesView seat.old seat.new }
    ensures checks { ChecksToGrant (K.good stm.now.rule) stm.now.config result filter.now
        (view_of seat.old) (view_of seat.new) }
    ensures steps { TakesAtMost (3 + 16 * (stm.now.config.ring - 1)) (view_of seat.old)
        (view_of seat.new) }
{
    let clock = look_grant(stm, seat, caller);
    if clock == start {
        return Ok(start);
    }
    match scan(seat, stm, caller, start, clock, filter) {
        Err(cause) => Err(cause),
        Ok(()) => {
            let done = advance_grant(stm, seat, caller);
            Ok(later_start(start, clock, done))
        }
    }
}

/// Where a check that passes moves the start: up to DONE, within the clock that it loaded.
fn later_start(start: u64, clock: u64, done: u64) -> u64
    ensures { result ≡ max start (min done clock) }
{
    start.max(done.min(clock))
}

/// Loads the slots of the times from the start to the clock, and the clock after them: a slot that a later entry may
/// have taken tells nothing.
#[cold]
#[inline(never)]
fn scan<K: MemRule>(
    seat: &mut Token<K>,
    stm: &Stm<K>,
    caller: usize,
    start: u64,
    clock: u64,
    filter: &Filter,
) -> Result<(), Cause>
    requires seat { IsSeatOf stm.now caller seat.old }
    requires view { CanScan start clock filter.now (view_of seat.old) }
    ensures same { MovesView seat.old seat.new }
    ensures scans { Scans stm.now.config start clock result filter.now (view_of seat.old)
        (view_of seat.new) }
    ensures steps { TakesAtMost (1 + 16 * (stm.now.config.ring - 1)) (view_of seat.old)
        (view_of seat.new) }
{
    let ring = stm.config.ring as u64;
    if clock - start >= ring {
        return Err(Cause::Overrun { start, clock });
    }
    let met = first_met(seat, stm, caller, start, clock, filter);
    let later = again(stm, seat, caller);
    if later - start >= ring {
        return Err(Cause::Overrun {
            start,
            clock: later,
        });
    }
    match met {
        Some(cause) => Err(cause),
        None => Ok(()),
    }
}

/// The first of the slots that meets the filter.
fn first_met<K: MemRule>(
    seat: &mut Token<K>,
    stm: &Stm<K>,
    caller: usize,
    start: u64,
    clock: u64,
    filter: &Filter,
) -> Option<Cause>
    requires seat { IsSeatOf stm.now caller seat.old }
    requires view { CanScan start clock filter.now (view_of seat.old) }
    requires near { clock < start + stm.now.config.ring }
    ensures same { MovesView seat.old seat.new }
    ensures meets { MeetsOne stm.now.config start clock result filter.now (view_of seat.old)
        (view_of seat.new) }
    ensures steps { TakesAtMost (16 * (clock - start)) (view_of seat.old) (view_of seat.new) }
{
    for passed in 0..clock - start {
        let time = start + 1 + passed;
        let bits = slot_bits(seat, stm, caller, time, filter);
        if bits != 0 {
            return Some(Cause::Filter { time, bits });
        }
    }
    None
}

/// Loads the slot of a time as far as it tells whether it meets the filter. Answers the lowest common bits where it
/// does, else 0.
fn slot_bits<K: MemRule>(
    seat: &mut Token<K>,
    stm: &Stm<K>,
    caller: usize,
    time: u64,
    filter: &Filter,
) -> u64
    requires seat { IsSeatOf stm.now caller seat.old }
    requires view { CanLoadSlot stm.now.config.ring time (view_of seat.old) }
    ensures same { MovesView seat.old seat.new }
    ensures meets { MeetsSlot stm.now.config.ring time filter.now result (view_of seat.old)
        (view_of seat.new) }
    ensures steps { TakesAtMost 16 (view_of seat.old) (view_of seat.new) }
{
    let lowest = part_bits(seat, stm, caller, time, 0, filter);
    if lowest == 0 {
        return 0;
    }
    for part in 1..4 {
        let bits = part_bits(seat, stm, caller, time, part, filter);
        if bits == 0 {
            return 0;
        }
    }
    lowest
}

/// Loads the words of a part of a slot up to the first that has common bits with the filter, which it answers, else 0.
fn part_bits<K: MemRule>(
    seat: &mut Token<K>,
    stm: &Stm<K>,
    caller: usize,
    time: u64,
    part: usize,
    filter: &Filter,
) -> u64
    requires seat { IsSeatOf stm.now caller seat.old }
    requires view { CanLoadSlot stm.now.config.ring time (view_of seat.old) }
    requires part { part < 4 }
    ensures same { MovesView seat.old seat.new }
    ensures loads { LoadsPart stm.now.config.ring time filter.now part result (view_of seat.old)
        (view_of seat.new) }
    ensures steps { TakesAtMost 4 (view_of seat.old) (view_of seat.new) }
{
    let first = first_word(stm, time);
    for i in 4 * part..4 * part + 4 {
        let bits = filter.word(i) & word(stm, seat, caller, time, first, i);
        if bits != 0 {
            return bits;
        }
    }
    0
}
