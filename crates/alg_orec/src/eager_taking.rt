//! How an attempt of OrecEager takes the record of a word, and first stores there.
ghost use Rattle.stm_rule.specs.Counting.{TakesAtMost};
ghost use Rattle.std.specs.Prelude.{◌≡◌, ℕ, ◌<◌, ◌+◌};
ghost use Rattle.stm_rule.specs.Callers.{IsSeatOf};
ghost use Rattle.stm_rule.specs.Kept.{MovesView, good_of, view_of};
ghost use Rattle.alg_orec.specs.EagerTaking.{CanTake, Takes, CanStoreFirst, StoresFirst};

use crate::eager_steps::{place, save};
use crate::lazy_steps::{limit, lock};
use crate::records::record_of;
use crate::sampling::sample_valid;
use rule_base::words::version_of;
use stm_answers::answers::Write;
use stm_model::config::CLOCK_LIMIT;
use stm_model::rule::MemRule;
use stm_model::stop::Cause;
use stm_rule::local::Local;
use stm_rule::stm::{Stm, Token};

/// Takes the record of the word where the attempt doesn't hold it yet, at a version that its start has seen, which is
/// below the clock's limit: so it can be given back one later. Three steps, and those of a validation.
#[inline(always)]
pub(crate) fn take_record<K: MemRule>(
    seat: &mut Token<K>,
    local: &mut Local,
    stm: &Stm<K>,
    caller: usize,
    a: usize,
) -> Result<(), Write>
    requires seat { IsSeatOf stm.now caller seat.old }
    requires caller { caller < stm.now.config.callers }
    requires view { CanTake stm.now.config a local.old (view_of seat.old) }
    ensures same { MovesView seat.old seat.new }
    ensures takes { Takes (good_of K.good stm.now.config stm.now.rule) stm.now.config caller a
        result local.old (view_of seat.old) local.new (view_of seat.new) }
    ensures steps { TakesAtMost (4 + local.old.reads.len) (view_of seat.old) (view_of seat.new) }
{
    let index = record_of(stm.config.records, a);
    if local.locks.find(index).is_some() {
        return Ok(());
    }
    let clock = limit(stm, seat, caller);
    if clock >= CLOCK_LIMIT {
        return Err(Write::ClockFull { clock });
    }
    let at = stm.record_place(index);
    let word = match sample_valid(seat, local, stm, caller, a, index, at) {
        Ok(word) => word,
        Err(cause) => return Err(Write::Conflict(cause)),
    };
    if local.start >= CLOCK_LIMIT {
        return Err(Write::ClockFull { clock: local.start });
    }
    let version = version_of(word);
    let found = lock(stm, seat, caller, index, version);
    if found != word {
        return Err(Write::Conflict(Cause::Moved {
            index,
            before: word,
            after: found,
        }));
    }
    local.locks.push_new(index, version);
    Ok(())
}

/// Stores the word for the first time, under its record: what it was goes into the undo log before. Two steps.
#[inline(always)]
pub(crate) fn store_first<K: MemRule>(
    seat: &mut Token<K>,
    local: &mut Local,
    stm: &Stm<K>,
    caller: usize,
    a: usize,
    x: u64,
)
    requires seat { IsSeatOf stm.now caller seat.old }
    requires place { a < stm.now.config.words }
    requires view { CanStoreFirst stm.now.config a local.old (view_of seat.old) }
    ensures same { MovesView seat.old seat.new }
    ensures stores { StoresFirst a x local.old (view_of seat.old) local.new (view_of seat.new) }
    ensures steps { TakesAtMost 2 (view_of seat.old) (view_of seat.new) }
{
    let old = save(stm, seat, caller, a);
    local.undo.push_new(a, old);
    place(stm, seat, caller, a, x);
    local.writes.push_new(a, x);
    local.wrote = true;
}
