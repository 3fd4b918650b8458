//! A read of OrecEager in its parts, between which other callers may step: its record is sampled, the word is loaded,
//! and the record is confirmed.
ghost use Rattle.stm_answers.specs.Counting.{AddsAtMost};
ghost use Rattle.std.specs.Prelude.{◌≡◌, ℕ, ◌<◌, None, false, [], ◌∷◌, ◌+◌, ◌*◌, ◌%◌, MatchResult};
ghost use Rattle.rule_base.specs.declared.layout.At.TheVariants.{Heap, Record};
ghost use Rattle.rule_base.specs.Places.{offset};
ghost use Rattle.stm_model.specs.Memories.{item_at};
ghost use Rattle.stm_model.specs.declared.alg.Alg.TheVariants.{OrecEager};
ghost use Rattle.stm_rule.specs.Callers.{IsOf, IsSameCaller};
ghost use Rattle.stm_answers.specs.CallerState.{IsRunning};
ghost use Rattle.rule_base.specs.Encodings.{fenced};
ghost use Rattle.stm_gate.specs.Knowing.{known, number};
ghost use Rattle.alg_orec.specs.EagerReading.{IsNew, HasSample, IsLoaded, LoadsSampled, GoesOnReading, Samples, Confirms};
ghost use Rattle.alg_orec.specs.Loading.{HasPlace};
ghost use Rattle.alg_orec.specs.Validating.{load_of};

use crate::eager_ending::abort;
use crate::sampling::sample_valid;
use crate::{reading_steps, records};
use stm_answers::answers::Read;
use stm_model::rule::MemRule;
use stm_model::stop::Cause;
use stm_rule::desc::Desc;
use stm_rule::stm::Stm;

/// Where the index of what the attempt has read has the word, or would have it, while nothing else is read. No step.
#[inline(always)]
pub fn read_place<K: MemRule>(desc: &Desc<K>, stm: &Stm<K>, a: usize) -> usize
    requires stm { IsOf desc.now stm.now }
    requires running { IsRunning (known desc.now) }
    requires algorithm { (known desc.now).alg ≡ OrecEager }
    requires revocable { (known desc.now).granted ≡ false }
    ensures { HasPlace a result (known desc.now) }
{
    let _ = stm;
    desc.local.reads.place(a)
}

/// Loads record `r`, that of a word that was neither written nor read before, and answers the record's word: it is
/// free, at a version that the start has seen. None, with no step, where the attempt holds the record: then nobody else
/// stores there. One step, and those of a validation where the record is newer than the start; then those of a rollback
/// where that, or a full read log, ends the attempt.
#[inline(always)]
pub fn sample<K: MemRule>(
    desc: &mut Desc<K>,
    stm: &Stm<K>,
    a: usize,
    r: usize,
    at: usize,
) -> Result<Option<u64>, Read>
    requires stm { IsOf desc.old stm.now }
    requires record { r ≡ a % stm.now.config.records }
    requires at { at ≡ offset stm.now.config (Record r) }
    requires running { IsRunning (known desc.old) }
    requires algorithm { (known desc.old).alg ≡ OrecEager }
    requires revocable { (known desc.old).granted ≡ false }
    requires unwritten { item_at a (known desc.old).log.writes ≡ None }
    requires unread { item_at a (known desc.old).log.reads ≡ None }
    requires inside { a < stm.now.config.words }
    requires spared { fenced (known desc.old).fence a ≡ false }
    ensures same { IsSameCaller desc.old desc.new }
    ensures samples { Samples (K.good stm.now.rule) stm.now.config (number desc.old) a result
        desc.old desc.new }
    ensures steps { MatchResult result
        (λ _. AddsAtMost (2 + (known desc.old).reads_limit) (known desc.old) (known desc.new)) (λ _.
        AddsAtMost (5 + (known desc.old).reads_limit + 2 * (known desc.old).writes_limit)
        (known desc.old) (known desc.new)) }
{
    let limit = desc.local.reads.len();
    if desc.local.reads.count() == limit {
        let caller = desc.number;
        abort(&mut desc.seat, &mut desc.local, stm, caller);
        return Err(Read::Full { limit });
    }
    if desc.local.locks.find(r).is_some() {
        return Ok(None);
    }
    match sample_valid(&mut desc.seat, &mut desc.local, stm, desc.number, a, r, at) {
        Ok(word) => Ok(Some(word)),
        Err(cause) => {
            let caller = desc.number;
            abort(&mut desc.seat, &mut desc.local, stm, caller);
            Err(Read::Conflict(cause))
        }
    }
}

/// Loads the word, whose record was sampled, and answers it. One step.
#[inline(always)]
pub fn load<K: MemRule>(desc: &mut Desc<K>, stm: &Stm<K>, a: usize) -> u64
    requires stm { IsOf desc.old stm.now }
    requires running { IsRunning (known desc.old) }
    requires algorithm { (known desc.old).alg ≡ OrecEager }
    requires revocable { (known desc.old).granted ≡ false }
    requires fresh { IsNew a (known desc.old) }
    requires sampled { HasSample a desc.old.view }
    requires inside { a < stm.now.config.words }
    requires spared { fenced (known desc.old).fence a ≡ false }
    ensures same { IsSameCaller desc.old desc.new }
    ensures goes { GoesOnReading (K.good stm.now.rule) stm.now.config (number desc.old) a
        (load_of (Heap a) result ∷ []) (known desc.old) (known desc.new) }
    ensures loads { LoadsSampled stm.now.config a result desc.old.view desc.new.view }
    ensures steps { AddsAtMost 1 (known desc.old) (known desc.new) }
{
    reading_steps::load(stm, &mut desc.seat, desc.number, a)
}

/// Loads record `r` again, which `sample` found as `word`, after the word, which `load` found as `x`. Where the record
/// is as it was, `x` is read, and logged at its place; else the attempt ends. One step, then those of a rollback.
#[inline(always)]
pub fn confirm<K: MemRule>(
    desc: &mut Desc<K>,
    stm: &Stm<K>,
    a: usize,
    r: usize,
    at: usize,
    place: usize,
    word: u64,
    x: u64,
) -> Read
    requires stm { IsOf desc.old stm.now }
    requires running { IsRunning (known desc.old) }
    requires algorithm { (known desc.old).alg ≡ OrecEager }
    requires revocable { (known desc.old).granted ≡ false }
    requires fresh { IsNew a (known desc.old) }
    requires record { r ≡ a % stm.now.config.records }
    requires at { at ≡ offset stm.now.config (Record r) }
    requires loaded { IsLoaded stm.now.config a word x desc.old.view }
    requires place { HasPlace a place (known desc.old) }
    requires inside { a < stm.now.config.words }
    requires spared { fenced (known desc.old).fence a ≡ false }
    ensures same { IsSameCaller desc.old desc.new }
    ensures confirms { Confirms (K.good stm.now.rule) stm.now.config (number desc.old) a word x
        result (known desc.old) (known desc.new) }
    ensures steps { AddsAtMost (4 + 2 * (known desc.old).writes_limit) (known desc.old)
        (known desc.new) }
{
    let after = records::confirm(stm, &mut desc.seat, desc.number, a, r, at);
    if after != word {
        let caller = desc.number;
        abort(&mut desc.seat, &mut desc.local, stm, caller);
        return Read::Conflict(Cause::Moved {
            index: r,
            before: word,
            after,
        });
    }
    desc.local.reads.push_at(place, a, x);
    Read::Value(x)
}
