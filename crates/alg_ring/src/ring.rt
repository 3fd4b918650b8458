//! RingSW, after the ring with a single writer of Spear, Michael and von Praun ("RingSTM: Scalable Transactions with a
//! Single Atomic Instruction", 2008). An attempt writes into its write log and reads the heap: after each word it
//! checks that no entry since its start wrote what it has read.
//!
//! Invariant (`IsRing`; `RingRule` of rule_ring): a slot holds the filter of what entry e wrote as long as the clock is
//! less than e + ring - 1. The heap is the memory at DONE, under what the holder of the lock has written back. The read
//! filter has each address that the attempt loaded, and what it read is the memory at its start.
ghost use Rattle.stm_rule.specs.Counting.{TakesAtMost};
ghost use Rattle.stm_answers.specs.Counting.{AddsAtMost};
ghost use Rattle.std.specs.Prelude.{◌≡◌, ℕ, ◌<◌, true, false, None, ◌+◌, ◌*◌, ◌-◌};
ghost use Rattle.rule_base.specs.History.{Inside};
ghost use Rattle.stm_model.specs.Memories.{item_at};
ghost use Rattle.stm_rule.specs.Attempts.{IsInside};
ghost use Rattle.stm_rule.specs.Callers.{IsOf, IsSameCaller, IsSeatOf};
ghost use Rattle.stm_rule.specs.Kept.{MovesView, view_of};
ghost use Rattle.stm_rule.specs.RecordsKept.{Apart, cells_of};
ghost use Rattle.stm_answers.specs.Answers.{Commits};
ghost use Rattle.stm_answers.specs.CallerState.{IsRunning, is_irrevocable};
ghost use Rattle.stm_gate.specs.Granting.{IsAlone, Grants};
ghost use Rattle.rule_base.specs.Encodings.{fenced};
ghost use Rattle.stm_gate.specs.Knowing.{known, number};
ghost use Rattle.alg_ring.specs.Calls.{LoadsNew, HasWrites, StandsTold, Turns, CanFinish, Finishes, Decides, CanEnter, Enters, CanWriteBack, WritesBack, Stores};

use crate::check::{catch_up, check, check_to_grant};
use crate::nesting::filter_of;
use crate::{committing_steps as steps, reading_steps as loads};
use alg_calls::algorithm::Algorithm;
use rule_base::layout::SLOT_WORDS;
use stm_answers::answers::{Begin, Cancel, Commit, Irrev, Read, Roll, Write};
use stm_gate::direct::direct_commit;
use stm_gate::leave::leave;
use stm_gate::promote::{Promotion, promote};
use stm_logs::push::Push;
use stm_logs::write_log::WriteLog;
use stm_model::alg::Alg;
use stm_model::config::CLOCK_LIMIT;
use stm_model::rule::MemRule;
use stm_rule::desc::Desc;
use stm_rule::local::Local;
use stm_rule::stm::{Stm, Token};

/// RingSW.
pub struct RingSw;

impl Algorithm for RingSw {
    ghost use Rattle.stm_model.specs.declared.alg.Alg.TheVariants.{RingSw};

    ghost alg = { RingSw };

    #[inline(always)]
    fn which() -> Alg {
        Alg::RingSw
    }

    /// Loads DONE, the start, which it answers. One step.
    fn begin<K: MemRule>(seat: &mut Token<K>, stm: &Stm<K>, caller: usize) -> Result<u64, Begin> {
        Ok(loads::begin(stm, seat, caller))
    }

    /// The own write, if there is one, with no step. Else it loads the word and checks: two steps where the clock is
    /// the start, and at most four and one for each slot word that is needed.
    #[inline(always)]
    fn read<K: MemRule>(desc: &mut Desc<K>, stm: &Stm<K>, a: usize) -> Read {
        if let Some(x) = desc.local.writes.find(a) {
            return Read::Value(x);
        }
        load_new(&mut desc.seat, &mut desc.local, stm, &desc.number, a)
    }

    /// Adds the write to the write log. No step; a full log ends the attempt, which takes one, two where it holds the
    /// gate.
    #[inline(always)]
    fn write<K: MemRule>(desc: &mut Desc<K>, stm: &Stm<K>, a: usize, x: u64) -> Write {
        if let Push::Full { limit } = desc.local.writes.push(a, x) {
            leave(&mut desc.seat, &mut desc.local, stm, desc.number);
            return Write::Full { limit };
        }
        desc.local.stored.add(a);
        desc.local.wrote = true;
        Write::Done
    }

    /// Where the attempt wrote, it takes the lock and commits; `Again` comes where another caller has it. `turn` and
    /// `finish` are its two parts. One step where it wrote nothing, two where it holds the gate.
    #[inline(always)]
    fn commit<K: MemRule>(desc: &mut Desc<K>, stm: &Stm<K>) -> Commit {
        if desc.local.granted {
            return direct_commit(desc, stm);
        }
        let caller = desc.number;
        if !desc.local.wrote {
            let time = desc.local.start;
            leave(&mut desc.seat, &mut desc.local, stm, caller);
            return Commit::ReadOnly { time };
        }
        commit_writes(&mut desc.seat, &mut desc.local, stm, caller)
    }

    /// Ends the attempt, unless it is irrevocable. One step, two where it holds the gate.
    fn cancel<K: MemRule>(desc: &mut Desc<K>, stm: &Stm<K>) -> Cancel {
        if desc.local.granted {
            return Cancel::Irrevocable;
        }
        let caller = desc.number;
        let time = desc.local.start;
        leave(&mut desc.seat, &mut desc.local, stm, caller);
        Cancel::Cancelled { time }
    }

    /// Promotes the attempt where it is alone and its check passes. The steps of a promotion and of a check, one more,
    /// and one for each item of the write log.
    fn try_irrevocable<K: MemRule>(desc: &mut Desc<K>, stm: &Stm<K>) -> Irrev {
        if desc.local.granted {
            return Irrev::Granted;
        }
        match promote(desc, stm) {
            Promotion::Alone => grant(desc, stm),
            Promotion::Busy { caller, status } => Irrev::Busy { caller, status },
            Promotion::Taken { gate } => Irrev::Taken { gate },
        }
    }

    /// Rolls the attempt back to mark `depth`: its writes since are as if they had not been made, its reads are read.
    /// The marks above that one are gone. The filter of what is to be stored is made anew, from the items that are
    /// left.
    fn roll_to<K: MemRule>(desc: &mut Desc<K>, stm: &Stm<K>, depth: usize) -> Roll {
        let _ = stm;
        if desc.local.granted {
            return Roll::Irrevocable;
        }
        desc.local.writes.roll_to(depth);
        desc.local.stored = filter_of(&desc.local.writes);
        desc.local.wrote = desc.local.writes.count() > 0;
        desc.local.depth = depth;
        Roll::Rolled
    }
}

/// Loads a word that the attempt has not written, and checks. A conflict has ended the attempt. Who the caller
/// is stands behind a reference, so that no read loads it before its check goes on.
#[inline(always)]
fn load_new<K: MemRule>(
    seat: &mut Token<K>,
    local: &mut Local,
    stm: &Stm<K>,
    caller: &usize,
    a: usize,
) -> Read
    requires seat { IsSeatOf stm.now caller.now seat.old }
    requires caller { caller.now < stm.now.config.callers }
    requires attempt { IsInside (K.good stm.now.rule) stm.now.config caller.now local.old
        (view_of seat.old) }
    requires ring { (local.old.algorithm ≡ Alg.RingSw) × (local.old.granted ≡ false)
        × (local.old.holds ≡ (view_of seat.old).gate.holds) }
    requires inside { a < stm.now.config.words }
    requires spared { fenced (view_of seat.old).gate.fence a ≡ false }
    requires fresh { item_at a local.old.writes.items ≡ None }
    ensures same { MovesView seat.old seat.new }
    ensures loads { LoadsNew (K.good stm.now.rule) stm.now.config caller.now a result local.old
        (view_of seat.old) local.new (view_of seat.new) }
    ensures steps { TakesAtMost (6 + 16 * (stm.now.config.ring - 1)) (view_of seat.old)
        (view_of seat.new) }
{
    let x = loads::load(stm, seat, *caller, a);
    local.loaded.add(a);
    let clock = loads::look(stm, seat, *caller);
    if clock == local.start {
        return Read::Value(x);
    }
    match catch_up(seat, stm, *caller, local.start, clock, &local.loaded) {
        Ok(start) => {
            local.start = start;
            Read::Value(x)
        }
        Err(cause) => {
            leave(seat, local, stm, *caller);
            Read::Conflict(cause)
        }
    }
}

/// Commits what the attempt wrote. The steps of `turn`, and where it has its turn those of `finish`.
#[inline(always)]
fn commit_writes<K: MemRule>(
    seat: &mut Token<K>,
    local: &mut Local,
    stm: &Stm<K>,
    caller: usize,
) -> Commit
    requires seat { IsSeatOf stm.now caller seat.old }
    requires caller { caller < stm.now.config.callers }
    requires wrote { HasWrites (K.good stm.now.rule) stm.now.config caller local.old
        (view_of seat.old) }
    ensures same { MovesView seat.old seat.new }
    ensures commits { StandsTold (K.good stm.now.rule) stm.now.config caller
        (Commits (K.good stm.now.rule) stm.now.config caller result) local.old (view_of seat.old)
        local.new (view_of seat.new) }
    ensures buffered { local.new.writes ≡ local.old.writes }
    ensures steps { TakesAtMost (26 + local.old.writes.len + 16 * (stm.now.config.ring - 1))
        (view_of seat.old) (view_of seat.new) }
{
    match turn(seat, local, stm, caller) {
        Some(again) => again,
        None => finish(seat, local, stm, caller),
    }
}

/// The first part of a commit: takes the lock, which gives the attempt its turn, or answers `Again` where another
/// caller has it. One step.
pub fn turn<K: MemRule>(
    seat: &mut Token<K>,
    local: &mut Local,
    stm: &Stm<K>,
    caller: usize,
) -> Option<Commit>
    requires seat { IsSeatOf stm.now caller seat.old }
    requires caller { caller < stm.now.config.callers }
    requires wrote { HasWrites (K.good stm.now.rule) stm.now.config caller local.old
        (view_of seat.old) }
    ensures same { MovesView seat.old seat.new }
    ensures turns { Turns (K.good stm.now.rule) stm.now.config caller result local.old
        (view_of seat.old) local.new (view_of seat.new) }
    ensures buffered { local.new.writes ≡ local.old.writes }
    ensures steps { TakesAtMost 1 (view_of seat.old) (view_of seat.new) }
{
    let found = steps::lock(stm, seat, caller);
    if found != 0 {
        local.committing = true;
        return Some(Commit::Again {
            word: 1,
            had: 0,
            now: found,
        });
    }
    None
}

/// The second part of a commit, of an attempt that has its turn: all that follows the lock. The steps of a check, and
/// 22, and one for each item of the write log. It stands in line: the answer of a call goes through memory.
#[inline(always)]
pub fn finish<K: MemRule>(
    seat: &mut Token<K>,
    local: &mut Local,
    stm: &Stm<K>,
    caller: usize,
) -> Commit
    requires seat { IsSeatOf stm.now caller seat.old }
    requires caller { caller < stm.now.config.callers }
    requires turn { CanFinish (K.good stm.now.rule) stm.now.config caller local.old
        (view_of seat.old) }
    ensures same { MovesView seat.old seat.new }
    ensures finishes { Finishes (K.good stm.now.rule) stm.now.config caller result local.old
        (view_of seat.old) local.new (view_of seat.new) }
    ensures buffered { local.new.writes ≡ local.old.writes }
    ensures steps { TakesAtMost (25 + local.old.writes.len + 16 * (stm.now.config.ring - 1))
        (view_of seat.old) (view_of seat.new) }
{
    let answer = commit_locked(seat, local, stm, caller);
    steps::free(stm, seat, caller);
    leave(seat, local, stm, caller);
    answer
}

/// Loads the clock and checks; where neither stands against it, stores the filter of the writes and the entry, and
/// writes back. The lock is still to be freed.
#[inline(always)]
fn commit_locked<K: MemRule>(
    seat: &mut Token<K>,
    local: &Local,
    stm: &Stm<K>,
    caller: usize,
) -> Commit
    requires seat { IsSeatOf stm.now caller seat.old }
    requires caller { caller < stm.now.config.callers }
    requires turn { CanFinish (K.good stm.now.rule) stm.now.config caller local.now
        (view_of seat.old) }
    ensures same { MovesView seat.old seat.new }
    ensures decides { Decides (K.good stm.now.rule) stm.now.config caller result local.now
        (view_of seat.old) (view_of seat.new) }
    ensures steps { TakesAtMost (22 + local.now.writes.len + 16 * (stm.now.config.ring - 1))
        (view_of seat.old) (view_of seat.new) }
{
    let clock = steps::tick(stm, seat, caller);
    if clock >= CLOCK_LIMIT {
        return Commit::ClockFull { clock };
    }
    if let Err(cause) = check(seat, stm, caller, local.start, &local.loaded) {
        return Commit::Conflict(cause);
    }
    let time = clock + 1;
    enter(seat, local, stm, caller, time);
    write_back(seat, &local.writes, stm, caller);
    steps::done(stm, seat, caller, time);
    Commit::Committed { time }
}

/// Stores the filter of the writes in the slot of this time, and the clock, which appends the entry.
#[inline(always)]
fn enter<K: MemRule>(seat: &mut Token<K>, local: &Local, stm: &Stm<K>, caller: usize, time: u64)
    requires seat { IsSeatOf stm.now caller seat.old }
    requires caller { caller < stm.now.config.callers }
    requires enter { CanEnter (K.good stm.now.rule) stm.now.config time local.now
        (view_of seat.old) }
    ensures same { MovesView seat.old seat.new }
    ensures enters { Enters (K.good stm.now.rule) stm.now.config caller time local.now
        (view_of seat.old) (view_of seat.new) }
    ensures steps { TakesAtMost 17 (view_of seat.old) (view_of seat.new) }
{
    let first = loads::first_word(stm, time);
    for i in 0..SLOT_WORDS {
        steps::slot(
            stm,
            seat,
            caller,
            time,
            first,
            i,
            local.stored.word(i),
            &local.writes,
        );
    }
    steps::enter(stm, seat, caller, time);
}

/// Stores what the attempt wrote, after its entry.
#[inline(always)]
fn write_back<K: MemRule>(seat: &mut Token<K>, writes: &WriteLog, stm: &Stm<K>, caller: usize)
    requires seat { IsSeatOf stm.now caller seat.old }
    requires back { CanWriteBack stm.now.config writes.now (view_of seat.old) }
    ensures same { MovesView seat.old seat.new }
    ensures back { WritesBack (view_of seat.old) (view_of seat.new) }
    ensures steps { TakesAtMost writes.now.len (view_of seat.old) (view_of seat.new) }
{
    for i in 0..writes.count() {
        let (a, x) = writes.item(i);
        steps::write_back(stm, seat, caller, a, x);
    }
}

/// Loads the clock for an attempt that is alone, and checks: where that passes, what was written goes into the heap.
fn grant<K: MemRule>(desc: &mut Desc<K>, stm: &Stm<K>) -> Irrev
    requires stm { IsOf desc.old stm.now }
    requires running { IsRunning (known desc.old) }
    requires algorithm { (known desc.old).alg ≡ Alg.RingSw }
    requires revocable { is_irrevocable (known desc.old) ≡ false }
    requires alone { IsAlone stm.now.config.callers (number desc.old) desc.old.view }
    ensures same { IsSameCaller desc.old desc.new }
    ensures grants { Grants (K.good stm.now.rule) stm.now.config (number desc.old) result
        (known desc.old) (known desc.new) }
    ensures steps { AddsAtMost (6 + (known desc.old).writes_limit + 16 * (stm.now.config.ring - 1))
        (known desc.old) (known desc.new) }
{
    let caller = desc.number;
    let clock = stm.settle(&mut desc.seat, caller);
    if clock >= CLOCK_LIMIT {
        leave(&mut desc.seat, &mut desc.local, stm, caller);
        return Irrev::ClockFull { clock };
    }
    match check_to_grant(
        &mut desc.seat,
        stm,
        caller,
        desc.local.start,
        &desc.local.loaded,
    ) {
        Ok(start) => {
            desc.local.start = start;
            desc.local.granted = true;
            store_all(&mut desc.seat, &desc.local.writes, stm, caller);
            Irrev::Granted
        }
        Err(cause) => {
            leave(&mut desc.seat, &mut desc.local, stm, caller);
            Irrev::Conflict(cause)
        }
    }
}

/// Stores what a promoted attempt wrote before.
fn store_all<K: MemRule>(seat: &mut Token<K>, writes: &WriteLog, stm: &Stm<K>, caller: usize)
    requires seat { IsSeatOf stm.now caller seat.old }
    requires granted { (view_of seat.old).gate.granted ≡ true }
    requires inside { Inside stm.now.config.words (cells_of writes.now.items) }
    requires spared { Apart (view_of seat.old).gate.fence (cells_of writes.now.items) }
    ensures same { MovesView seat.old seat.new }
    ensures stores { Stores writes.now (view_of seat.old) (view_of seat.new) }
    ensures steps { TakesAtMost writes.now.len (view_of seat.old) (view_of seat.new) }
{
    for i in 0..writes.count() {
        let (a, x) = writes.item(i);
        stm.direct_store(seat, caller, a, x);
    }
}
