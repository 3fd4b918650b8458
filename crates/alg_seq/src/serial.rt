//! Serial: one lock from begin to commit, with an undo log. An attempt reads and writes in place, and can be taken back
//! until it is made irrevocable.
//!
//! Invariant (`IsLocked`): as under CGL. Until the attempt is irrevocable the write log has its own values, and the
//! undo log the memory's value of each word that it stored, also of those that were rolled back to a mark since.
ghost use Rattle.stm_rule.specs.Counting.{TakesAtMost};
ghost use Rattle.std.specs.Prelude.{◌≡◌, ℕ, ◌<◌, ◌≤◌, MatchResult, true, false, ◌+◌};
ghost use Rattle.stm_rule.specs.Attempts.{IsInside, ended};
ghost use Rattle.stm_rule.specs.Callers.{IsSeatOf};
ghost use Rattle.stm_rule.specs.Kept.{MovesView, view_of};
ghost use Rattle.rule_base.specs.Encodings.{fenced};
ghost use Rattle.alg_seq.specs.Storing.{GivesUp, KeepsOld, HasClock, HasLogged, HasPlace};

use crate::nesting::{roll_in_place, store_back};
use alg_calls::algorithm::Algorithm;
use stm_answers::answers::{Begin, Cancel, Commit, Irrev, Read, Roll, Write};
use stm_gate::leave::leave;
use stm_logs::undo_log::UndoLog;
use stm_model::alg::Alg;
use stm_model::config::CLOCK_LIMIT;
use stm_model::rule::MemRule;
use stm_rule::desc::Desc;
use stm_rule::local::Local;
use stm_rule::stm::{Stm, Token};

/// Serial.
pub struct Serial;

impl Algorithm for Serial {
    ghost use Rattle.stm_model.specs.declared.alg.Alg.TheVariants.{Serial};

    ghost alg = { Serial };

    #[inline(always)]
    fn which() -> Alg {
        Alg::Serial
    }

    /// Takes the lock and loads the start, which it answers, for a caller that found the gate open. Held leaves the
    /// caller where it was. Two steps.
    fn begin<K: MemRule>(seat: &mut Token<K>, stm: &Stm<K>, caller: usize) -> Result<u64, Begin> {
        let found = stm.take_lock(seat, caller);
        if found != 0 {
            return Err(Begin::Held { word: found });
        }
        Ok(stm.load_start(seat, caller))
    }

    /// Loads the word. One step.
    fn read<K: MemRule>(desc: &mut Desc<K>, stm: &Stm<K>, a: usize) -> Read {
        Read::Value(stm.load_heap(&mut desc.seat, desc.number, a))
    }

    /// Stores the word, whose old value and new one go into the logs first; once irrevocable it stores and no more. One
    /// step, one more for an address that is new to the log, and one more at the attempt's first write.
    #[inline(always)]
    fn write<K: MemRule>(desc: &mut Desc<K>, stm: &Stm<K>, a: usize, x: u64) -> Write {
        let caller = desc.number;
        match keep_old(&mut desc.seat, &mut desc.local, stm, caller, a, x) {
            Ok(()) => {
                stm.store_heap(&mut desc.seat, caller, a, x);
                desc.local.wrote = true;
                Write::Done
            }
            Err(refusal) => refusal,
        }
    }

    /// Raises the clock where the attempt wrote, and frees the lock. Three steps, two where it wrote nothing.
    fn commit<K: MemRule>(desc: &mut Desc<K>, stm: &Stm<K>) -> Commit {
        let caller = desc.number;
        let start = desc.local.start;
        if !desc.local.wrote {
            stm.free_lock(&mut desc.seat, caller);
            leave(&mut desc.seat, &mut desc.local, stm, caller);
            return Commit::ReadOnly { time: start };
        }
        let time = start + 1;
        stm.store_clock(&mut desc.seat, caller, time);
        stm.free_lock(&mut desc.seat, caller);
        leave(&mut desc.seat, &mut desc.local, stm, caller);
        Commit::Committed { time }
    }

    /// Takes the attempt back, unless it is irrevocable. Two steps, and one for each word that it has stored.
    fn cancel<K: MemRule>(desc: &mut Desc<K>, stm: &Stm<K>) -> Cancel {
        if desc.local.granted {
            return Cancel::Irrevocable;
        }
        let caller = desc.number;
        let time = desc.local.start;
        abort(&mut desc.seat, &mut desc.local, stm, caller);
        Cancel::Cancelled { time }
    }

    /// Loads the clock, which must be below its limit, and empties the undo log. One step; none where the attempt
    /// is irrevocable already.
    fn try_irrevocable<K: MemRule>(desc: &mut Desc<K>, stm: &Stm<K>) -> Irrev {
        if desc.local.granted {
            return Irrev::Granted;
        }
        let caller = desc.number;
        let clock = stm.load_limit(&mut desc.seat, caller, true);
        if clock >= CLOCK_LIMIT {
            abort(&mut desc.seat, &mut desc.local, stm, caller);
            return Irrev::ClockFull { clock };
        }
        desc.local.undo.clear();
        desc.local.granted = true;
        Irrev::Granted
    }

    /// Rolls the attempt back to mark `depth`, unless it is irrevocable. At most one step for each word that it had
    /// stored.
    fn roll_to<K: MemRule>(desc: &mut Desc<K>, stm: &Stm<K>, depth: usize) -> Roll {
        if desc.local.granted {
            return Roll::Irrevocable;
        }
        roll_in_place(desc, stm, depth)
    }
}

/// Sees to it that `x` can be stored at `a`: the undo log has the word's old value and the write log the new one, or
/// the attempt is irrevocable. A refusal has taken the attempt back and ended it.
#[inline(always)]
fn keep_old<K: MemRule>(
    seat: &mut Token<K>,
    local: &mut Local,
    stm: &Stm<K>,
    caller: usize,
    a: usize,
    x: u64,
) -> Result<(), Write>
    requires seat { IsSeatOf stm.now caller seat.old }
    requires caller { caller < stm.now.config.callers }
    requires attempt { IsInside (K.good stm.now.rule) stm.now.config caller local.old
        (view_of seat.old) }
    requires serial { local.old.algorithm ≡ Alg.Serial }
    requires lengths { local.old.writes.len ≡ local.old.undo.len }
    requires free { (local.old.holds ≡ false) × ((view_of seat.old).gate.holds ≡ false) }
    requires inside { a < stm.now.config.words }
    requires spared { fenced (view_of seat.old).gate.fence a ≡ false }
    ensures same { MovesView seat.old seat.new }
    ensures keeps { KeepsOld (K.good stm.now.rule) stm.now.config caller a x result local.old
        (view_of seat.old) local.new (view_of seat.new) }
    ensures steps { MatchResult result (λ _. TakesAtMost 2 (view_of seat.old) (view_of seat.new))
        (λ _. TakesAtMost (4 + local.old.undo.len) (view_of seat.old) (view_of seat.new)) }
{
    if local.granted {
        return Ok(());
    }
    if !has_place(&local.undo, a) {
        let limit = local.undo.len();
        abort(seat, local, stm, caller);
        return Err(Write::Full { limit });
    }
    if let Err(clock) = below_limit(seat, local, stm, caller) {
        abort(seat, local, stm, caller);
        return Err(Write::ClockFull { clock });
    }
    log_old(seat, local, stm, caller, a, x);
    Ok(())
}

/// Whether the log has an item for the address, or room for one.
#[inline(always)]
fn has_place(undo: &UndoLog, a: usize) -> bool
    ensures { HasPlace result a undo.now }
{
    undo.count() < undo.len() || undo.find(a).is_some()
}

/// Loads the clock where the attempt has not yet written, and answers it where it is at its limit.
#[inline(always)]
fn below_limit<K: MemRule>(
    seat: &mut Token<K>,
    local: &Local,
    stm: &Stm<K>,
    caller: usize,
) -> Result<(), u64>
    requires seat { IsSeatOf stm.now caller seat.old }
    requires attempt { IsInside (K.good stm.now.rule) stm.now.config caller local.now
        (view_of seat.old) }
    requires serial { local.now.algorithm ≡ Alg.Serial }
    ensures same { MovesView seat.old seat.new }
    ensures below { HasClock result local.now (view_of seat.old) (view_of seat.new) }
    ensures steps { TakesAtMost 1 (view_of seat.old) (view_of seat.new) }
{
    if local.wrote {
        return Ok(());
    }
    let clock = stm.load_limit(seat, caller, false);
    if clock >= CLOCK_LIMIT {
        return Err(clock);
    }
    Ok(())
}

/// Adds the write to the write log, and loads the word at `a` into the undo log where the address is new to that, which
/// has room then, and so new to the write log too. An address whose write was taken back has its item still.
#[inline(always)]
fn log_old<K: MemRule>(
    seat: &mut Token<K>,
    local: &mut Local,
    stm: &Stm<K>,
    caller: usize,
    a: usize,
    x: u64,
)
    requires seat { IsSeatOf stm.now caller seat.old }
    requires attempt { IsInside (K.good stm.now.rule) stm.now.config caller local.old
        (view_of seat.old) }
    requires serial { (local.old.algorithm ≡ Alg.Serial) × (local.old.granted ≡ false) }
    requires lengths { local.old.writes.len ≡ local.old.undo.len }
    requires place { HasPlace true a local.old.undo }
    requires inside { a < stm.now.config.words }
    requires spared { fenced (view_of seat.old).gate.fence a ≡ false }
    ensures same { MovesView seat.old seat.new }
    ensures logs { HasLogged stm.now.config.words a x local.old (view_of seat.old) local.new
        (view_of seat.new) }
    ensures steps { TakesAtMost 1 (view_of seat.old) (view_of seat.new) }
{
    if local.undo.find(a).is_some() {
        let _ = local.writes.push(a, x);
        return;
    }
    let old = stm.load_undo(seat, caller, a);
    let _ = local.undo.push_new(a, old);
    let _ = local.writes.push_new(a, x);
}

/// Stores the old values back, frees the lock, and ends the attempt.
#[cold]
#[inline(never)]
fn abort<K: MemRule>(seat: &mut Token<K>, local: &mut Local, stm: &Stm<K>, caller: usize)
    requires seat { IsSeatOf stm.now caller seat.old }
    requires caller { caller < stm.now.config.callers }
    requires attempt { IsInside (K.good stm.now.rule) stm.now.config caller local.old
        (view_of seat.old) }
    requires serial { (local.old.algorithm ≡ Alg.Serial) × (local.old.granted ≡ false) }
    requires free { (local.old.holds ≡ false) × ((view_of seat.old).gate.holds ≡ false) }
    ensures same { MovesView seat.old seat.new }
    ensures ended { local.new ≡ ended local.old }
    ensures gives_up { GivesUp caller (view_of seat.old) (view_of seat.new) }
    ensures steps { TakesAtMost (2 + local.old.undo.len) (view_of seat.old) (view_of seat.new) }
{
    store_back(seat, stm, caller, &local.undo, &local.writes, 0);
    stm.free_lock(seat, caller);
    leave(seat, local, stm, caller);
}
