//! How an attempt of OrecLazy or of OrecEager that is alone is promoted.
ghost use Rattle.std.specs.Prelude.{◌≡◌, ℕ, ◌<◌, ◌+◌, None, Some};
ghost use Rattle.stm_rule.specs.Callers.{IsSeatOf};
ghost use Rattle.stm_rule.specs.Kept.{MovesView, view_of};
ghost use Rattle.stm_rule.specs.Counting.{TakesAtMost};
ghost use Rattle.alg_orec.specs.Granting.{CanPromote, Promotes};
ghost use Rattle.alg_orec.specs.Validating.{IsLast};

use crate::promoting_steps;
use crate::promoting_steps::grant_all;
use crate::reading_steps::clock;
use crate::validate::{judge, last_to_validate, pass_before};
use stm_answers::answers::Irrev;
use stm_model::config::CLOCK_LIMIT;
use stm_model::rule::MemRule;
use stm_rule::local::Local;
use stm_rule::stm::{Stm, Token};

/// Promotes an attempt that is alone to the clock, where all its reads are valid there and the clock is below its
/// limit. One step where its own records vouch for all that it read, or two, and one for each read.
pub(crate) fn grant_reads<K: MemRule>(
    seat: &mut Token<K>,
    local: &mut Local,
    stm: &Stm<K>,
    caller: usize,
) -> Result<(), Irrev>
    requires seat { IsSeatOf stm.now caller seat.old }
    requires caller { caller < stm.now.config.callers }
    requires attempt { CanPromote stm.now.config caller local.old (view_of seat.old) }
    ensures same { MovesView seat.old seat.new }
    ensures promotes { Promotes (K.good stm.now.rule) stm.now.config caller result local.old
        (view_of seat.old) local.new (view_of seat.new) }
    ensures steps { TakesAtMost (2 + local.old.reads.len) (view_of seat.old) (view_of seat.new) }
{
    match last_to_validate(local, stm.config.records) {
        None => grant_none(seat, local, stm, caller),
        Some(i) => grant_valid(seat, local, stm, caller, i),
    }
}

/// The same where its own records vouch for all that it read. One step.
fn grant_none<K: MemRule>(
    seat: &mut Token<K>,
    local: &mut Local,
    stm: &Stm<K>,
    caller: usize,
) -> Result<(), Irrev>
    requires seat { IsSeatOf stm.now caller seat.old }
    requires caller { caller < stm.now.config.callers }
    requires attempt { CanPromote stm.now.config caller local.old (view_of seat.old) }
    requires none { IsLast stm.now.config.records None local.old }
    ensures same { MovesView seat.old seat.new }
    ensures promotes { Promotes (K.good stm.now.rule) stm.now.config caller result local.old
        (view_of seat.old) local.new (view_of seat.new) }
    ensures steps { TakesAtMost 1 (view_of seat.old) (view_of seat.new) }
{
    let time = grant_all(stm, seat, caller);
    if time >= CLOCK_LIMIT {
        return Err(Irrev::ClockFull { clock: time });
    }
    local.start = time;
    Ok(())
}

/// The same where read `i` is the last one whose record is to be loaded. Two steps, and one for each such read.
fn grant_valid<K: MemRule>(
    seat: &mut Token<K>,
    local: &mut Local,
    stm: &Stm<K>,
    caller: usize,
    i: usize,
) -> Result<(), Irrev>
    requires seat { IsSeatOf stm.now caller seat.old }
    requires caller { caller < stm.now.config.callers }
    requires attempt { CanPromote stm.now.config caller local.old (view_of seat.old) }
    requires last { IsLast stm.now.config.records (Some i) local.old }
    ensures same { MovesView seat.old seat.new }
    ensures promotes { Promotes (K.good stm.now.rule) stm.now.config caller result local.old
        (view_of seat.old) local.new (view_of seat.new) }
    ensures steps { TakesAtMost (3 + i) (view_of seat.old) (view_of seat.new) }
{
    let time = stm.settle(seat, caller);
    if time >= CLOCK_LIMIT {
        return Err(Irrev::ClockFull { clock: time });
    }
    let _ = clock(stm, seat, caller);
    if let Err(cause) = pass_before(seat, local, stm, caller, i) {
        return Err(Irrev::Conflict(cause));
    }
    let (b, _) = local.reads.item(i);
    let r = b % stm.config.records;
    let word = promoting_steps::grant(stm, seat, caller, r, b);
    if let Err(cause) = judge(r, word, local.start) {
        return Err(Irrev::Conflict(cause));
    }
    local.start = time;
    Ok(())
}
