//! OrecEager: versioned ownership records as under OrecLazy, but a write takes its record at once and stores in place,
//! with what was there before in an undo log, as in the write-through of Felber, Fetzer and Riegel ("Dynamic
//! Performance Tuning of Word-Based Software Transactional Memory", 2008).
//!
//! Invariant (`IsEager`): what was written lies in place, under records that the attempt holds and that were no newer
//! than its start when it took them. The undo log has the memory's value of each word that it stored, also of those
//! that were rolled back to a mark since; it holds no more records than that log has items.
//! The rest is as under OrecLazy.
ghost use Rattle.stm_answers.specs.Counting.{AddsAtMost};
ghost use Rattle.std.specs.Prelude.{◌≡◌, ℕ, ◌<◌, None, true, false, ◌+◌, ◌*◌};
ghost use Rattle.stm_model.specs.Memories.{item_at};
ghost use Rattle.stm_rule.specs.Callers.{IsOf, IsSameCaller};
ghost use Rattle.stm_answers.specs.Answers.{HasRead, HasWritten};
ghost use Rattle.stm_answers.specs.declared.answers.Write.TheVariants.{Done};
ghost use Rattle.stm_answers.specs.CallerState.{IsRunning};
ghost use Rattle.rule_base.specs.Encodings.{fenced};
ghost use Rattle.rule_base.specs.History.{member};
ghost use Rattle.stm_gate.specs.Knowing.{known, number};
ghost use Rattle.alg_orec.specs.EagerReading.{IsNew, HoldsRecord};
ghost use Rattle.alg_orec.specs.Loading.{HasPlace};

use crate::eager_committing::{commit_direct, commit_placed};
use crate::eager_ending::abort;
use crate::eager_granting::grant;
use crate::eager_nesting::roll_in_place;
use crate::eager_reading::{confirm, load, read_place, sample};
use crate::eager_steps::{own_load, place};
use crate::eager_taking::{store_first, take_record};
use crate::reading_steps;
use crate::records::record_of;
use alg_calls::algorithm::Algorithm;
use stm_answers::answers::{Begin, Cancel, Commit, Irrev, Read, Roll, Write};
use stm_gate::leave::leave;
use stm_gate::promote::{Promotion, promote};
use stm_model::alg::Alg;
use stm_model::rule::MemRule;
use stm_rule::desc::Desc;
use stm_rule::stm::{Stm, Token};

/// OrecEager.
pub struct OrecEager;

impl Algorithm for OrecEager {
    ghost use Rattle.stm_model.specs.declared.alg.Alg.TheVariants.{OrecEager};

    ghost alg = { OrecEager };

    fn which() -> Alg {
        Alg::OrecEager
    }

    /// Loads the clock as the start, which it answers. One step.
    fn begin<K: MemRule>(seat: &mut Token<K>, stm: &Stm<K>, caller: usize) -> Result<u64, Begin> {
        Ok(reading_steps::begin(stm, seat, caller))
    }

    /// Answers what it wrote or has read at the word, with no step; else loads it: one step where the attempt holds the
    /// record, else three, and those of a validation where the record is newer than the start; then those of a rollback
    /// where that ends the attempt.
    #[inline(always)]
    fn read<K: MemRule>(desc: &mut Desc<K>, stm: &Stm<K>, a: usize) -> Read {
        // Who holds no record has written nothing.
        if desc.local.locks.count() == 0 {
            return read_unwritten(desc, stm, a);
        }
        read_holding(desc, stm, a)
    }

    /// Stores the word in place, under its record, which the attempt takes first where it doesn't hold it: one step
    /// where it wrote there before, else two, three more to take the record, and those of a validation where that is
    /// newer than the start; then those of a rollback where that ends the attempt.
    #[inline(always)]
    fn write<K: MemRule>(desc: &mut Desc<K>, stm: &Stm<K>, a: usize, x: u64) -> Write {
        if desc.local.writes.find(a).is_some() {
            write_again(desc, stm, a, x);
            return Write::Done;
        }
        first_write(desc, stm, a, x)
    }

    /// Commits the attempt: what it wrote becomes one entry of the history, unless another transaction came in between.
    /// Where it wrote nothing, one step, two where it holds the gate, and those of a rollback where it was rolled back;
    /// else those of `commit_placed`, or of `commit_direct`. It stands in line:
    /// the answer of a call goes through memory.
    #[inline(always)]
    fn commit<K: MemRule>(desc: &mut Desc<K>, stm: &Stm<K>) -> Commit {
        if desc.local.granted {
            return commit_direct(desc, stm);
        }
        let caller = desc.number;
        if !desc.local.wrote {
            let time = desc.local.start;
            if desc.local.locks.count() == 0 {
                leave(&mut desc.seat, &mut desc.local, stm, caller);
            } else {
                abort(&mut desc.seat, &mut desc.local, stm, caller);
            }
            return Commit::ReadOnly { time };
        }
        commit_placed(&mut desc.seat, &mut desc.local, stm, caller)
    }

    /// Takes the attempt back, unless it is irrevocable. The steps of a rollback.
    fn cancel<K: MemRule>(desc: &mut Desc<K>, stm: &Stm<K>) -> Cancel {
        if desc.local.granted {
            return Cancel::Irrevocable;
        }
        let caller = desc.number;
        let time = desc.local.start;
        abort(&mut desc.seat, &mut desc.local, stm, caller);
        Cancel::Cancelled { time }
    }

    /// Makes the attempt irrevocable, where it is alone and all that it read is valid at the clock: what it wrote stays
    /// in place. The steps of a promotion, and those of a validation and one more.
    fn try_irrevocable<K: MemRule>(desc: &mut Desc<K>, stm: &Stm<K>) -> Irrev {
        if desc.local.granted {
            return Irrev::Granted;
        }
        match promote(desc, stm) {
            Promotion::Alone => grant(desc, stm),
            Promotion::Busy { caller, status } => Irrev::Busy { caller, status },
            Promotion::Taken { gate } => Irrev::Taken { gate },
        }
    }

    /// Rolls the attempt back to mark `depth`: its writes since are as if they had not been made, its reads are read.
    /// The marks above that one are gone. One step for each word that it had stored.
    fn roll_to<K: MemRule>(desc: &mut Desc<K>, stm: &Stm<K>, depth: usize) -> Roll {
        if desc.local.granted {
            return Roll::Irrevocable;
        }
        roll_in_place(desc, stm, depth)
    }
}

/// Reads the word in an attempt that holds records, so that it may have written there. In line too: the two ways of a
/// read are compiled apart, and an attempt that holds no record looks at none.
#[inline(always)]
fn read_holding<K: MemRule>(desc: &mut Desc<K>, stm: &Stm<K>, a: usize) -> Read
    requires stm { IsOf desc.old stm.now }
    requires running { IsRunning (known desc.old) }
    requires algorithm { (known desc.old).alg ≡ Alg.OrecEager }
    requires revocable { (known desc.old).granted ≡ false }
    requires inside { a < stm.now.config.words }
    requires spared { fenced (known desc.old).fence a ≡ false }
    ensures same { IsSameCaller desc.old desc.new }
    ensures read { HasRead (K.good stm.now.rule) stm.now.config (number desc.old) a result
        (known desc.old) (known desc.new) }
    ensures steps { AddsAtMost
        (7 + (known desc.old).reads_limit + 2 * (known desc.old).writes_limit) (known desc.old)
        (known desc.new) }
{
    if let Some(x) = desc.local.writes.find(a) {
        return Read::Value(x);
    }
    read_unwritten(desc, stm, a)
}

/// Reads the word where the attempt has not written: answers what it has read there, else loads it.
#[inline(always)]
fn read_unwritten<K: MemRule>(desc: &mut Desc<K>, stm: &Stm<K>, a: usize) -> Read
    requires stm { IsOf desc.old stm.now }
    requires running { IsRunning (known desc.old) }
    requires algorithm { (known desc.old).alg ≡ Alg.OrecEager }
    requires revocable { (known desc.old).granted ≡ false }
    requires unwritten { item_at a (known desc.old).log.writes ≡ None }
    requires inside { a < stm.now.config.words }
    requires spared { fenced (known desc.old).fence a ≡ false }
    ensures same { IsSameCaller desc.old desc.new }
    ensures read { HasRead (K.good stm.now.rule) stm.now.config (number desc.old) a result
        (known desc.old) (known desc.new) }
    ensures steps { AddsAtMost
        (7 + (known desc.old).reads_limit + 2 * (known desc.old).writes_limit) (known desc.old)
        (known desc.new) }
{
    let place = read_place(desc, stm, a);
    if let Some(x) = desc.local.reads.at(place, a) {
        return Read::Value(x);
    }
    first_read(desc, stm, a, place)
}

/// Loads the word, which was neither written nor read before, and logs it at its place.
#[inline(always)]
fn first_read<K: MemRule>(desc: &mut Desc<K>, stm: &Stm<K>, a: usize, place: usize) -> Read
    requires stm { IsOf desc.old stm.now }
    requires running { IsRunning (known desc.old) }
    requires algorithm { (known desc.old).alg ≡ Alg.OrecEager }
    requires revocable { (known desc.old).granted ≡ false }
    requires unwritten { item_at a (known desc.old).log.writes ≡ None }
    requires unread { item_at a (known desc.old).log.reads ≡ None }
    requires place { HasPlace a place (known desc.old) }
    requires inside { a < stm.now.config.words }
    requires spared { fenced (known desc.old).fence a ≡ false }
    ensures same { IsSameCaller desc.old desc.new }
    ensures read { HasRead (K.good stm.now.rule) stm.now.config (number desc.old) a result
        (known desc.old) (known desc.new) }
    ensures steps { AddsAtMost
        (7 + (known desc.old).reads_limit + 2 * (known desc.old).writes_limit) (known desc.old)
        (known desc.new) }
{
    let r = record_of(stm.config.records, a);
    let at = stm.record_place(r);
    match sample(desc, stm, a, r, at) {
        Ok(Some(word)) => {
            let x = load(desc, stm, a);
            confirm(desc, stm, a, r, at, place, word, x)
        }
        Ok(None) => read_held(desc, stm, a, place),
        Err(refusal) => refusal,
    }
}

/// Loads the word under the own record with no look at that, since nobody else stores there, and logs it at
/// its place. One step.
#[inline]
fn read_held<K: MemRule>(desc: &mut Desc<K>, stm: &Stm<K>, a: usize, place: usize) -> Read
    requires stm { IsOf desc.old stm.now }
    requires running { IsRunning (known desc.old) }
    requires algorithm { (known desc.old).alg ≡ Alg.OrecEager }
    requires revocable { (known desc.old).granted ≡ false }
    requires fresh { IsNew a (known desc.old) }
    requires held { HoldsRecord stm.now.config a desc.old.view }
    requires place { HasPlace a place (known desc.old) }
    requires inside { a < stm.now.config.words }
    requires spared { fenced (known desc.old).fence a ≡ false }
    ensures same { IsSameCaller desc.old desc.new }
    ensures read { HasRead (K.good stm.now.rule) stm.now.config (number desc.old) a result
        (known desc.old) (known desc.new) }
    ensures steps { AddsAtMost 1 (known desc.old) (known desc.new) }
{
    let x = own_load(stm, &mut desc.seat, desc.number, a);
    desc.local.reads.push_at(place, a, x);
    Read::Value(x)
}

/// Stores the word where the attempt wrote before, though the write may have been taken back. One step. It is always
/// done, and answers nothing: each write would make room in memory for its answer.
#[inline(never)]
fn write_again<K: MemRule>(desc: &mut Desc<K>, stm: &Stm<K>, a: usize, x: u64)
    requires stm { IsOf desc.old stm.now }
    requires running { IsRunning (known desc.old) }
    requires algorithm { (known desc.old).alg ≡ Alg.OrecEager }
    requires revocable { (known desc.old).granted ≡ false }
    requires saved { member (known desc.old).kept a ≡ true }
    requires inside { a < stm.now.config.words }
    requires spared { fenced (known desc.old).fence a ≡ false }
    ensures same { IsSameCaller desc.old desc.new }
    ensures write { HasWritten (K.good stm.now.rule) stm.now.config (number desc.old) a x Done
        (known desc.old) (known desc.new) }
    ensures steps { AddsAtMost 1 (known desc.old) (known desc.new) }
{
    place(stm, &mut desc.seat, desc.number, a, x);
    desc.local.writes.push(a, x);
    desc.local.wrote = true;
}

/// Takes the record where the attempt doesn't hold it, keeps what the word was unless that is kept already, and stores
/// it.
#[inline(always)]
fn first_write<K: MemRule>(desc: &mut Desc<K>, stm: &Stm<K>, a: usize, x: u64) -> Write
    requires stm { IsOf desc.old stm.now }
    requires running { IsRunning (known desc.old) }
    requires algorithm { (known desc.old).alg ≡ Alg.OrecEager }
    requires revocable { (known desc.old).granted ≡ false }
    requires unwritten { item_at a (known desc.old).log.writes ≡ None }
    requires inside { a < stm.now.config.words }
    requires spared { fenced (known desc.old).fence a ≡ false }
    ensures same { IsSameCaller desc.old desc.new }
    ensures write { HasWritten (K.good stm.now.rule) stm.now.config (number desc.old) a x result
        (known desc.old) (known desc.new) }
    ensures steps { AddsAtMost
        (7 + (known desc.old).reads_limit + 2 * (known desc.old).writes_limit) (known desc.old)
        (known desc.new) }
{
    // An address whose write was taken back has its item still, and its record.
    if desc.local.undo.find(a).is_some() {
        write_again(desc, stm, a, x);
        return Write::Done;
    }
    let caller = desc.number;
    let limit = desc.local.undo.len();
    if desc.local.undo.count() == limit {
        abort(&mut desc.seat, &mut desc.local, stm, caller);
        return Write::Full { limit };
    }
    if let Err(refusal) = take_record(&mut desc.seat, &mut desc.local, stm, caller, a) {
        abort(&mut desc.seat, &mut desc.local, stm, caller);
        return refusal;
    }
    store_first(&mut desc.seat, &mut desc.local, stm, caller, a, x);
    Write::Done
}
