//! The record of a word, loaded before the word is read, and by OrecEager before it takes the record.
ghost use Rattle.std.specs.Prelude.{◌≡◌, ◌<◌, ◌+◌, ◌%◌};
ghost use Rattle.rule_base.specs.declared.layout.At.TheVariants.{Record};
ghost use Rattle.rule_base.specs.Places.{offset};
ghost use Rattle.stm_rule.specs.Callers.{IsSeatOf};
ghost use Rattle.stm_rule.specs.Counting.{TakesAtMost};
ghost use Rattle.stm_rule.specs.Kept.{MovesView, good_of, view_of};
ghost use Rattle.alg_orec.specs.Loading.{CanLoadValid, Samples};

use crate::records::{is_seen, sample};
use crate::validate::validate;
use rule_base::words::is_owned;
use stm_model::rule::MemRule;
use stm_model::stop::Cause;
use stm_rule::local::Local;
use stm_rule::stm::{Stm, Token};

/// Loads record `r`, that of the word at `a`, and answers its word: it is free, at a version that the start has seen.
#[inline(always)]
pub(crate) fn sample_valid<K: MemRule>(
    seat: &mut Token<K>,
    local: &mut Local,
    stm: &Stm<K>,
    caller: usize,
    a: usize,
    r: usize,
    at: usize,
) -> Result<u64, Cause>
    requires seat { IsSeatOf stm.now caller seat.old }
    requires caller { caller < stm.now.config.callers }
    requires record { r ≡ a % stm.now.config.records }
    requires at { at ≡ offset stm.now.config (Record r) }
    requires view { CanLoadValid stm.now.config a local.old (view_of seat.old) }
    ensures same { MovesView seat.old seat.new }
    ensures samples { Samples (good_of K.good stm.now.config stm.now.rule) stm.now.config caller a
        result local.old (view_of seat.old) local.new (view_of seat.new) }
    ensures steps { TakesAtMost (2 + local.old.reads.len) (view_of seat.old) (view_of seat.new) }
{
    let word = sample(stm, seat, caller, a, r, at);
    if is_seen(word, local.start) {
        return Ok(word);
    }
    if is_owned(word) {
        return Err(Cause::Record {
            index: r,
            word,
            start: local.start,
        });
    }
    validate(seat, local, stm, caller)?;
    Ok(word)
}
