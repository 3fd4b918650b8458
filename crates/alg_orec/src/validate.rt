//! Validation: whether all that an attempt read is so at a later clock too, which becomes its start (Riegel, Felber
//! and Fetzer, "A Lazy Snapshot Algorithm with Eager Validation", 2006).
ghost use Rattle.std.specs.Prelude.{◌≡◌, ℕ, ◌+◌, ◌%◌, ◌<◌, ◌≤◌, length, IfSome};
ghost use Rattle.stm_rule.specs.Callers.{IsSeatOf};
ghost use Rattle.stm_rule.specs.Kept.{MovesView, good_of, view_of};
ghost use Rattle.stm_rule.specs.Counting.{TakesAtMost};
ghost use Rattle.alg_orec.specs.Validating.{HasVersions, MustLoad, IsLast, CanValidate, Judges, Passes, Validates};

use crate::reading_steps::{clock, clock_all, last};
use crate::records::{held, pass};
use rule_base::words::{free_record, is_owned, version_of};
use stm_model::rule::MemRule;
use stm_model::stop::Cause;
use stm_rule::local::Local;
use stm_rule::stm::{Stm, Token};

/// Moves the start to the clock, where all reads are of the memory there. One step, and one for each read but those
/// whose records the attempt holds in the place of versions that its start has seen. In line, so that the answer's room
/// is set to 0 where a validation is owed, and not in each read and commit.
#[inline(always)]
pub(crate) fn validate<K: MemRule>(
    seat: &mut Token<K>,
    local: &mut Local,
    stm: &Stm<K>,
    caller: usize,
) -> Result<(), Cause>
    requires seat { IsSeatOf stm.now caller seat.old }
    requires view { CanValidate stm.now.config local.old (view_of seat.old) }
    requires caller { caller < stm.now.config.callers }
    ensures same { MovesView seat.old seat.new }
    ensures validates { Validates stm.now.config caller (good_of K.good stm.now.config stm.now.rule)
        result local.old (view_of seat.old) local.new (view_of seat.new) }
    ensures steps { TakesAtMost (1 + local.old.reads.len) (view_of seat.old) (view_of seat.new) }
{
    match validate_reads(seat, local, stm, caller) {
        Ok(()) => Ok(()),
        Err(cause) => Err(cause),
    }
}

/// The same, not in line.
#[cold]
#[inline(never)]
fn validate_reads<K: MemRule>(
    seat: &mut Token<K>,
    local: &mut Local,
    stm: &Stm<K>,
    caller: usize,
) -> Result<(), Cause>
    requires seat { IsSeatOf stm.now caller seat.old }
    requires view { CanValidate stm.now.config local.old (view_of seat.old) }
    requires caller { caller < stm.now.config.callers }
    ensures same { MovesView seat.old seat.new }
    ensures validates { Validates stm.now.config caller (good_of K.good stm.now.config stm.now.rule)
        result local.old (view_of seat.old) local.new (view_of seat.new) }
    ensures steps { TakesAtMost (1 + local.old.reads.len) (view_of seat.old) (view_of seat.new) }
{
    let Some(i) = last_to_validate(local, stm.config.records) else {
        local.start = clock_all(stm, seat, caller);
        return Ok(());
    };
    let now = clock(stm, seat, caller);
    pass_before(seat, local, stm, caller, i)?;
    let (b, _) = local.reads.item(i);
    let r = b % stm.config.records;
    must_load(local, stm.config.records, b)?;
    let word = last(stm, seat, caller, r, b);
    judge(r, word, local.start)?;
    local.start = now;
    Ok(())
}

/// The last read whose record this attempt does not hold.
pub(crate) fn last_to_validate(local: &Local, records: usize) -> Option<usize>
    requires records { 0 < records }
    requires versions { HasVersions local.now }
    ensures last { IsLast records result local.now }
    ensures most { IfSome result (λ i. i < local.now.reads.len) }
{
    let count = local.reads.count();
    for passed in 0..count {
        let i = count - 1 - passed;
        let (b, _) = local.reads.item(i);
        match must_load(local, records, b) {
            Ok(false) => {}
            _ => return Some(i),
        }
    }
    None
}

/// Validates the reads before the last one, in their order. The clock was loaded before.
pub(crate) fn pass_before<K: MemRule>(
    seat: &mut Token<K>,
    local: &Local,
    stm: &Stm<K>,
    caller: usize,
    last: usize,
) -> Result<(), Cause>
    requires seat { IsSeatOf stm.now caller seat.old }
    requires caller { caller < stm.now.config.callers }
    requires view { CanValidate stm.now.config local.now (view_of seat.old) }
    requires last { last ≤ length local.now.reads.items }
    ensures same { MovesView seat.old seat.new }
    ensures passes { Passes stm.now.config caller 0 last result local.now (view_of seat.old)
        (view_of seat.new) }
    ensures steps { TakesAtMost last (view_of seat.old) (view_of seat.new) }
{
    for i in 0..last {
        pass_read(seat, local, stm, caller, i)?;
    }
    Ok(())
}

/// Validates read `i`. One step, none where the attempt holds its record.
fn pass_read<K: MemRule>(
    seat: &mut Token<K>,
    local: &Local,
    stm: &Stm<K>,
    caller: usize,
    i: usize,
) -> Result<(), Cause>
    requires seat { IsSeatOf stm.now caller seat.old }
    requires caller { caller < stm.now.config.callers }
    requires view { CanValidate stm.now.config local.now (view_of seat.old) }
    requires place { i < length local.now.reads.items }
    ensures same { MovesView seat.old seat.new }
    ensures passes { Passes stm.now.config caller i (i + 1) result local.now (view_of seat.old)
        (view_of seat.new) }
    ensures steps { TakesAtMost 1 (view_of seat.old) (view_of seat.new) }
{
    let (b, _) = local.reads.item(i);
    if !must_load(local, stm.config.records, b)? {
        return Ok(());
    }
    let word = pass(stm, seat, caller, b);
    judge(b % stm.config.records, word, local.start)
}

/// Whether the record of a read at `b` is to be loaded, to validate it: not where the attempt holds it in the place of
/// a version that its start has seen. In the place of a newer one, the read is not valid.
fn must_load(local: &Local, records: usize, b: usize) -> Result<bool, Cause>
    requires records { 0 < records }
    requires versions { HasVersions local.now }
    ensures { MustLoad result local.now (b % records) }
{
    match held(local, records, b) {
        None => Ok(true),
        Some(version) => {
            if version <= local.start {
                return Ok(false);
            }
            Err(Cause::Record {
                index: b % records,
                word: free_record(version),
                start: local.start,
            })
        }
    }
}

/// Whether a record that was loaded passes: it is free, at a version that the start has seen.
pub(crate) fn judge(r: usize, word: u64, start: u64) -> Result<(), Cause>
    ensures { Judges r result word start }
{
    if is_owned(word) || version_of(word) > start {
        return Err(Cause::Record {
            index: r,
            word,
            start,
        });
    }
    Ok(())
}
