//! TML, the mutex-like sequence lock of Dalessandro, Dice, Scott, Shavit and Spear ("Transactional Mutex Locks", 2010):
//! the clock is even while nobody writes. A reader loads it again after each word, and the first write makes it odd;
//! from then on the attempt is irrevocable, and works in place.
//!
//! Invariant (`IsTml`): while the clock is even the heap is the memory at that time; while it is odd, that under the
//! stores of the one writer, whose start is the clock less one. What a reader read is the memory at its start.
ghost use Rattle.stm_answers.specs.Counting.{AddsAtMost};
ghost use Rattle.std.specs.Prelude.{◌≡◌, ℕ, ◌<◌, false};
ghost use Rattle.stm_rule.specs.Attempts.{IsFenceOf, IsOutside, ended};
ghost use Rattle.stm_rule.specs.Callers.{IsOf, IsSameCaller, IsSeatOf};
ghost use Rattle.stm_rule.specs.Counting.{TakesAtMost};
ghost use Rattle.stm_rule.specs.Kept.{IsSameSeat, view_of};
ghost use Rattle.stm_answers.specs.Answers.{HasWritten};
ghost use Rattle.stm_answers.specs.CallerState.{IsRunning, is_irrevocable};
ghost use Rattle.rule_base.specs.Encodings.{fenced};
ghost use Rattle.stm_gate.specs.Knowing.{known, number};
ghost use Rattle.stm_gate.specs.Granting.{IsAlone, Grants};
ghost use Rattle.stm_gate.specs.Leaving.{CanLeave, left};

use alg_calls::algorithm::Algorithm;
use stm_answers::answers::{Begin, Cancel, Commit, Irrev, Read, Roll, Write};
use stm_gate::direct::direct_commit;
use stm_gate::leave::leave;
use stm_gate::promote::{Promotion, promote};
use stm_model::alg::Alg;
use stm_model::config::CLOCK_LIMIT;
use stm_model::rule::MemRule;
use stm_model::stop::Cause;
use stm_rule::desc::Desc;
use stm_rule::local::Local;
use stm_rule::stm::{Stm, Token};

/// TML.
pub struct Tml;

impl Algorithm for Tml {
    ghost use Rattle.stm_model.specs.declared.alg.Alg.TheVariants.{Tml};

    ghost alg = { Tml };

    #[inline(always)]
    fn which() -> Alg {
        Alg::Tml
    }

    /// Loads the clock, an even one as the start, which it answers. One step.
    fn begin<K: MemRule>(seat: &mut Token<K>, stm: &Stm<K>, caller: usize) -> Result<u64, Begin> {
        let clock = stm.tml_begin(seat, caller);
        if clock % 2 == 1 {
            return Err(Begin::Held { word: clock });
        }
        Ok(clock)
    }

    /// Loads the word, and the clock after it where the attempt has not written: another number than the start
    /// ends the attempt. Two steps, four at most.
    #[inline(always)]
    fn read<K: MemRule>(desc: &mut Desc<K>, stm: &Stm<K>, a: usize) -> Read {
        let x = stm.tml_load(&mut desc.seat, desc.number, a);
        if desc.local.wrote {
            return Read::Value(x);
        }
        let clock = stm.tml_again(&mut desc.seat, desc.number);
        if clock != desc.local.start {
            let caller = desc.number;
            withdraw(&mut desc.seat, &mut desc.local, stm, caller);
            return Read::Conflict(Cause::Clock {
                had: desc.local.start,
                now: clock,
            });
        }
        Read::Value(x)
    }

    /// Stores the word; the first write makes the clock odd before. One step, three at the first write, and four
    /// where that ends the attempt.
    #[inline(always)]
    fn write<K: MemRule>(desc: &mut Desc<K>, stm: &Stm<K>, a: usize, x: u64) -> Write {
        if !desc.local.wrote {
            return first_write(desc, stm, a, x);
        }
        stm.tml_store(&mut desc.seat, desc.number, a, x);
        Write::Done
    }

    /// Makes the clock even again where the attempt wrote. Two steps, three where it holds the gate; one and two
    /// where it wrote nothing.
    #[inline(always)]
    fn commit<K: MemRule>(desc: &mut Desc<K>, stm: &Stm<K>) -> Commit {
        if desc.local.granted {
            return direct_commit(desc, stm);
        }
        let caller = desc.number;
        let start = desc.local.start;
        if !desc.local.wrote {
            leave(&mut desc.seat, &mut desc.local, stm, caller);
            return Commit::ReadOnly { time: start };
        }
        let time = start + 2;
        stm.tml_commit(&mut desc.seat, caller, time);
        leave(&mut desc.seat, &mut desc.local, stm, caller);
        Commit::Committed { time }
    }

    /// Ends an attempt that has not written and was not promoted. One step, two where it holds the gate.
    fn cancel<K: MemRule>(desc: &mut Desc<K>, stm: &Stm<K>) -> Cancel {
        if desc.local.granted {
            return Cancel::Irrevocable;
        }
        if desc.local.wrote {
            return Cancel::Irrevocable;
        }
        let caller = desc.number;
        let time = desc.local.start;
        leave(&mut desc.seat, &mut desc.local, stm, caller);
        Cancel::Cancelled { time }
    }

    /// Makes the attempt irrevocable: a writer is so already; a reader is promoted where it is alone and the
    /// clock is still its start. The steps of a promotion and one more.
    fn try_irrevocable<K: MemRule>(desc: &mut Desc<K>, stm: &Stm<K>) -> Irrev {
        if desc.local.granted {
            return Irrev::Granted;
        }
        if desc.local.wrote {
            return Irrev::Granted;
        }
        match promote(desc, stm) {
            Promotion::Alone => grant(desc, stm),
            Promotion::Busy { caller, status } => Irrev::Busy { caller, status },
            Promotion::Taken { gate } => Irrev::Taken { gate },
        }
    }

    /// Rolls a reader back to mark `depth`, which has nothing to take back. No step.
    fn roll_to<K: MemRule>(desc: &mut Desc<K>, stm: &Stm<K>, depth: usize) -> Roll {
        let _ = stm;
        let irrevocable = desc
            .local
            .algorithm
            .irrevocable_under(desc.local.granted, desc.local.wrote);
        if irrevocable {
            return Roll::Irrevocable;
        }
        desc.local.writes.roll_to(depth);
        desc.local.depth = depth;
        Roll::Rolled
    }
}

/// Makes the clock odd where it is still the start, and stores the word.
#[inline(always)]
fn first_write<K: MemRule>(desc: &mut Desc<K>, stm: &Stm<K>, a: usize, x: u64) -> Write
    requires stm { IsOf desc.old stm.now }
    requires running { IsRunning (known desc.old) }
    requires algorithm { (known desc.old).alg ≡ Alg.Tml }
    requires revocable { is_irrevocable (known desc.old) ≡ false }
    requires inside { a < stm.now.config.words }
    requires spared { fenced (known desc.old).fence a ≡ false }
    ensures same { IsSameCaller desc.old desc.new }
    ensures write { HasWritten (K.good stm.now.rule) stm.now.config (number desc.old) a x result
        (known desc.old) (known desc.new) }
    ensures steps { AddsAtMost 4 (known desc.old) (known desc.new) }
{
    let caller = desc.number;
    let start = desc.local.start;
    let clock = stm.tml_again(&mut desc.seat, caller);
    if clock != start {
        withdraw(&mut desc.seat, &mut desc.local, stm, caller);
        return Write::Conflict(Cause::Clock {
            had: start,
            now: clock,
        });
    }
    if clock >= CLOCK_LIMIT {
        withdraw(&mut desc.seat, &mut desc.local, stm, caller);
        return Write::ClockFull { clock };
    }
    let found = stm.tml_write(&mut desc.seat, caller, start);
    if found != start {
        withdraw(&mut desc.seat, &mut desc.local, stm, caller);
        return Write::Conflict(Cause::Clock {
            had: start,
            now: found,
        });
    }
    stm.tml_store(&mut desc.seat, caller, a, x);
    desc.local.wrote = true;
    Write::Done
}

/// Leaves, where an access is refused. Apart, so that the access stands in line. One step, two where it holds the gate.
#[cold]
#[inline(never)]
fn withdraw<K: MemRule>(seat: &mut Token<K>, local: &mut Local, stm: &Stm<K>, caller: usize)
    requires seat { IsSeatOf stm.now caller seat.old }
    requires caller { caller < stm.now.config.callers }
    requires view { CanLeave (view_of seat.old) }
    requires holds { local.old.holds ≡ (view_of seat.old).gate.holds }
    requires fence { IsFenceOf local.old (view_of seat.old) }
    requires named { local.old.algorithm ≡ (view_of seat.old).gate.algorithm }
    ensures same { IsSameSeat seat.old seat.new }
    ensures left { seat.new.me.0 ≡ record seat.old.me.0 { view = left caller (view_of seat.old) } }
    ensures outside { IsOutside (view_of seat.new) }
    ensures idle { local.new ≡ ended local.old }
    ensures steps { TakesAtMost 2 (view_of seat.old) (view_of seat.new) }
{
    leave(seat, local, stm, caller);
}

/// Loads the clock for a reader that is alone: it is promoted where that is its start, below the limit.
fn grant<K: MemRule>(desc: &mut Desc<K>, stm: &Stm<K>) -> Irrev
    requires stm { IsOf desc.old stm.now }
    requires running { IsRunning (known desc.old) }
    requires algorithm { (known desc.old).alg ≡ Alg.Tml }
    requires revocable { is_irrevocable (known desc.old) ≡ false }
    requires alone { IsAlone stm.now.config.callers (number desc.old) desc.old.view }
    ensures same { IsSameCaller desc.old desc.new }
    ensures grants { Grants (K.good stm.now.rule) stm.now.config (number desc.old) result
        (known desc.old) (known desc.new) }
    ensures steps { AddsAtMost 3 (known desc.old) (known desc.new) }
{
    let caller = desc.number;
    let start = desc.local.start;
    let clock = stm.tml_grant(&mut desc.seat, caller);
    if clock >= CLOCK_LIMIT {
        leave(&mut desc.seat, &mut desc.local, stm, caller);
        return Irrev::ClockFull { clock };
    }
    if clock != start {
        leave(&mut desc.seat, &mut desc.local, stm, caller);
        return Irrev::Conflict(Cause::Clock {
            had: start,
            now: clock,
        });
    }
    desc.local.granted = true;
    Irrev::Granted
}
