//! OrecLazy, after the versioned locks of Dice, Shalev and Shavit ("Transactional Locking II", 2006): each word belongs
//! to a record with the time of its last write. A read loads the record before and after the word; what is written
//! stays with the descriptor until the commit, which takes the records. A start is extended as in Riegel, Felber and
//! Fetzer ("A Lazy Snapshot Algorithm with Eager Validation", 2006).
//!
//! Invariant (`IsLazy`; `OrecRule` of rule_orec): a free record's version is no older than the last entry that wrote
//! one of its words, as far as entries are later than BASE, and those words are the memory's. What the attempt read is
//! the memory at its start. It holds records in the middle of its commit alone,
//! and then those of all words that it wrote.
ghost use Rattle.std.specs.Prelude.{◌≡◌, ℕ, ◌<◌, ◌+◌, None, false};
ghost use Rattle.stm_rule.specs.Counting.{TakesAtMost};
ghost use Rattle.stm_answers.specs.Counting.{AddsAtMost};
ghost use Rattle.stm_model.specs.Memories.{item_at};
ghost use Rattle.stm_rule.specs.Callers.{IsOf, IsSameCaller, IsSeatOf};
ghost use Rattle.stm_rule.specs.Kept.{MovesView, good_of, view_of};
ghost use Rattle.stm_answers.specs.Answers.{HasRead};
ghost use Rattle.stm_answers.specs.CallerState.{IsRunning};
ghost use Rattle.rule_base.specs.Encodings.{fenced};
ghost use Rattle.stm_gate.specs.Knowing.{known, number};
ghost use Rattle.alg_orec.specs.Loading.{CanLoadValid, HasPlace, LoadsValid};

use crate::lazy_committing::commit_writes;
use crate::lazy_ending::abort;
use crate::lazy_granting::grant;
use crate::reading_steps;
use crate::reading_steps::load;
use crate::records::record_of;
use crate::sampling::sample_valid;
use alg_calls::algorithm::Algorithm;
use stm_answers::answers::{Begin, Cancel, Commit, Irrev, Read, Roll, Write};
use stm_gate::direct::direct_commit;
use stm_gate::leave::leave;
use stm_gate::promote::{Promotion, promote};
use stm_logs::push::Push;
use stm_model::alg::Alg;
use stm_model::rule::MemRule;
use stm_model::stop::Cause;
use stm_rule::desc::Desc;
use stm_rule::local::Local;
use stm_rule::stm::{Stm, Token};

/// OrecLazy.
pub struct OrecLazy;

impl Algorithm for OrecLazy {
    ghost use Rattle.stm_model.specs.declared.alg.Alg.TheVariants.{OrecLazy};

    ghost alg = { OrecLazy };

    fn which() -> Alg {
        Alg::OrecLazy
    }

    /// Loads the clock as the start, which it answers. One step.
    fn begin<K: MemRule>(seat: &mut Token<K>, stm: &Stm<K>, caller: usize) -> Result<u64, Begin> {
        Ok(reading_steps::begin(stm, seat, caller))
    }

    /// Answers what it wrote or has read at the word, with no step; else loads it. Three steps, and those of a
    /// validation where its record is newer than the start; then those of a rollback where that ends the attempt.
    #[inline(always)]
    fn read<K: MemRule>(desc: &mut Desc<K>, stm: &Stm<K>, a: usize) -> Read {
        if let Some(x) = desc.local.writes.find(a) {
            return Read::Value(x);
        }
        let place = desc.local.reads.place(a);
        if let Some(x) = desc.local.reads.at(place, a) {
            return Read::Value(x);
        }
        first_read(desc, stm, a, place)
    }

    /// Logs what is to be written: it lies with the descriptor until the commit. No step, but for those of a rollback
    /// where the log is full.
    #[inline(always)]
    fn write<K: MemRule>(desc: &mut Desc<K>, stm: &Stm<K>, a: usize, x: u64) -> Write {
        if let Push::Full { limit } = desc.local.writes.push(a, x) {
            let caller = desc.number;
            abort(&mut desc.seat, &mut desc.local, stm, caller);
            return Write::Full { limit };
        }
        desc.local.wrote = true;
        Write::Done
    }

    /// Commits the attempt: what it wrote becomes one entry of the history, unless another transaction came in between.
    /// Where it wrote nothing, one step, two where it holds the gate; else those of `commit_writes`. It stands in line:
    /// the answer of a call goes through memory.
    #[inline(always)]
    fn commit<K: MemRule>(desc: &mut Desc<K>, stm: &Stm<K>) -> Commit {
        if desc.local.granted {
            return direct_commit(desc, stm);
        }
        let caller = desc.number;
        if !desc.local.wrote {
            let time = desc.local.start;
            leave(&mut desc.seat, &mut desc.local, stm, caller);
            return Commit::ReadOnly { time };
        }
        commit_writes(&mut desc.seat, &mut desc.local, stm, caller)
    }

    /// Takes the attempt back, unless it is irrevocable. The steps of a rollback.
    fn cancel<K: MemRule>(desc: &mut Desc<K>, stm: &Stm<K>) -> Cancel {
        if desc.local.granted {
            return Cancel::Irrevocable;
        }
        let caller = desc.number;
        let time = desc.local.start;
        abort(&mut desc.seat, &mut desc.local, stm, caller);
        Cancel::Cancelled { time }
    }

    /// Makes the attempt irrevocable, where it is alone and all that it read is valid at the clock: what it wrote is
    /// stored then. The steps of a promotion, those of a validation and one more, and one for each word.
    fn try_irrevocable<K: MemRule>(desc: &mut Desc<K>, stm: &Stm<K>) -> Irrev {
        if desc.local.granted {
            return Irrev::Granted;
        }
        match promote(desc, stm) {
            Promotion::Alone => grant(desc, stm),
            Promotion::Busy { caller, status } => Irrev::Busy { caller, status },
            Promotion::Taken { gate } => Irrev::Taken { gate },
        }
    }

    /// Rolls the attempt back to mark `depth`: its writes since are as if they had not been made, its reads are read.
    /// The marks above that one are gone.
    fn roll_to<K: MemRule>(desc: &mut Desc<K>, stm: &Stm<K>, depth: usize) -> Roll {
        let _ = stm;
        if desc.local.granted {
            return Roll::Irrevocable;
        }
        desc.local.writes.roll_to(depth);
        desc.local.wrote = desc.local.writes.count() > 0;
        desc.local.depth = depth;
        Roll::Rolled
    }
}

/// Loads the word, which was neither written nor read before, and logs it at its place.
#[inline(always)]
fn first_read<K: MemRule>(desc: &mut Desc<K>, stm: &Stm<K>, a: usize, place: usize) -> Read
    requires stm { IsOf desc.old stm.now }
    requires running { IsRunning (known desc.old) }
    requires algorithm { (known desc.old).alg ≡ Alg.OrecLazy }
    requires revocable { (known desc.old).granted ≡ false }
    requires unwritten { item_at a (known desc.old).log.writes ≡ None }
    requires unread { item_at a (known desc.old).log.reads ≡ None }
    requires place { HasPlace a place (known desc.old) }
    requires inside { a < stm.now.config.words }
    requires spared { fenced (known desc.old).fence a ≡ false }
    ensures same { IsSameCaller desc.old desc.new }
    ensures read { HasRead (K.good stm.now.rule) stm.now.config (number desc.old) a result
        (known desc.old) (known desc.new) }
    ensures steps { AddsAtMost (6 + (known desc.old).reads_limit) (known desc.old)
        (known desc.new) }
{
    let limit = desc.local.reads.len();
    if desc.local.reads.count() == limit {
        let caller = desc.number;
        abort(&mut desc.seat, &mut desc.local, stm, caller);
        return Read::Full { limit };
    }
    match load_valid(&mut desc.seat, &mut desc.local, stm, desc.number, a) {
        Ok(x) => {
            desc.local.reads.push_at(place, a, x);
            Read::Value(x)
        }
        Err(cause) => {
            let caller = desc.number;
            abort(&mut desc.seat, &mut desc.local, stm, caller);
            Read::Conflict(cause)
        }
    }
}

/// Loads the word between two loads of its record, which is to be free both times, at one version that the start has
/// seen: an older start moves up to the clock where all reads are valid there. Three steps, and those of a validation.
#[inline(always)]
fn load_valid<K: MemRule>(
    seat: &mut Token<K>,
    local: &mut Local,
    stm: &Stm<K>,
    caller: usize,
    a: usize,
) -> Result<u64, Cause>
    requires seat { IsSeatOf stm.now caller seat.old }
    requires caller { caller < stm.now.config.callers }
    requires view { CanLoadValid stm.now.config a local.old (view_of seat.old) }
    requires spared { fenced (view_of seat.old).gate.fence a ≡ false }
    ensures same { MovesView seat.old seat.new }
    ensures loads { LoadsValid (good_of K.good stm.now.config stm.now.rule) stm.now.config caller a
        result local.old (view_of seat.old) local.new (view_of seat.new) }
    ensures steps { TakesAtMost (4 + local.old.reads.len) (view_of seat.old) (view_of seat.new) }
{
    let r = record_of(stm.config.records, a);
    let at = stm.record_place(r);
    let word = sample_valid(seat, local, stm, caller, a, r, at)?;
    let x = load(stm, seat, caller, a);
    let after = reading_steps::confirm(stm, seat, caller, r, at);
    if after != word {
        return Err(Cause::Moved {
            index: r,
            before: word,
            after,
        });
    }
    Ok(x)
}
