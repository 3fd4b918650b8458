//! A transaction, tried until it commits.
ghost use Rattle.std.specs.Prelude.{◌≡◌, ℕ, Bool, IfSome, IfNone, Some, None};
ghost use Rattle.stm_rule.specs.Callers.{IsSameCaller};
ghost use Rattle.stm_answers.specs.CallerState.{IsIdle};
ghost use Rattle.stm_tx.specs.Descs.{known, number};
ghost use Rattle.tx_atomic.specs.Accounts.{account, ended_in};
ghost use Rattle.tx_atomic.specs.Callers.{IsReady, IsThrough, Took};
ghost use Rattle.stm_answers.specs.Causes.{FindsFull};
ghost use Rattle.tx_atomic.specs.Extends.{Extends};
ghost use Rattle.tx_atomic.specs.Tallies.{CommitsStay, CommitsRise, failed_after, failed_next};
ghost use Rattle.tx_atomic.specs.declared.tally.Ended.TheVariants.{ClockFull};
ghost use Rattle.tx_atomic.specs.Tries.{Prepares, Ran};
ghost use Rattle.tx_backoff.specs.Pauses.{IsRested};

use crate::attempts::attempt;
use crate::observer::Observer;
use crate::pace::Pacing;
use crate::tally::Ended;
use std::sync::Wait;
use stm_model::rule::MemRule;
use stm_rule::desc::Desc;
use stm_rule::stm::Stm;
use tx_transaction::transaction::Transaction;

/// After so many attempts of a transaction that another caller was in the way of, the next ones ask to be
/// irrevocable before they do anything.
const MOST_FAILED: u32 = 16;

/// Runs a transaction until it commits, and answers what it does. It took effect once, as the last thing that the
/// caller did and after all that it had seen: no attempt that failed before left a trace. None where the clock was
/// found at its limit, 2^62, and then no attempt took effect: close the memory, and open another. The pace counts it
/// where it took effect, and its next pause is the shortest. Where a log was too short it becomes longer, if the pace
/// has growth for it; else the next attempt asks to be irrevocable.
#[inline(always)]
pub fn atomically<R: Wait, K: MemRule, T: Transaction<K>, O: Observer>(
    rt: &R,
    desc: &mut Desc<K>,
    stm: &Stm<K>,
    pace: &mut Pacing<O>,
    transaction: &T,
) -> Option<T::Output>
    requires ready { IsReady stm.now desc.old }
    requires precondition { T.precondition transaction.now stm.now.rule stm.now.config.words }
    ensures through { IsThrough desc.old desc.new }
    ensures grew { Extends (known desc.old) (known desc.new) }
    ensures took { IfSome result (λ r.
        Took K.good (T.postcondition transaction.now) stm.now desc.old r desc.new) }
    ensures none { IfNone result ((known desc.new).made ≡ (known desc.old).made) }
    ensures counted { IfSome result (λ r. CommitsRise pace.old.tally pace.new.tally) }
    ensures uncounted { IfNone result (CommitsStay pace.old.tally pace.new.tally) }
    ensures full { IfNone result ((clock : ℕ) × FindsFull clock (known desc.old) (known desc.new)) }
    ensures installs { (known desc.new).installs ≡ (known desc.old).installs }
    ensures rested { IfSome result (λ r. IsRested pace.new.backoff) }
    ensures ran { IfSome result (λ r.
        Ran (K.good stm.now.rule) stm.now.config (number desc.old) O.hears None (known desc.old)
        (known desc.new) (account O.heard pace.old) (account O.heard pace.new)) }
    ensures gave_up { IfNone result (Ran (K.good stm.now.rule) stm.now.config (number desc.old) O.hears
        (Some ClockFull) (known desc.old) (known desc.new) (account O.heard pace.old)
        (account O.heard pace.new)) }
{
    // most transactions commit at once: the first attempt stands before the loop, and is asked for nothing
    if let Ok(output) = attempt(rt, desc, stm, pace, transaction, false) {
        pace.get_on();
        return Some(output);
    }
    let mut failed: u32 = 0;
    for _ in rt.forever() {
        if let Ended::ClockFull = pace.last {
            return None;
        }
        failed = prepare(rt, desc, stm, pace, failed);
        if let Ok(output) = attempt(rt, desc, stm, pace, transaction, failed >= MOST_FAILED) {
            pace.get_on();
            return Some(output);
        }
    }
    unreachable!()
}

/// What is done after an attempt that failed and before the next: it is counted; and a log that was too short becomes
/// longer, or the caller pauses. Answers the count of failed attempts.
#[cold]
#[inline(never)]
fn prepare<R: Wait, K: MemRule, O: Observer>(
    rt: &R,
    desc: &mut Desc<K>,
    stm: &Stm<K>,
    pace: &mut Pacing<O>,
    failed: u32,
) -> u32
    requires idle { IsIdle (known desc.old) }
    ensures same { IsSameCaller desc.old desc.new }
    ensures view { desc.new.view ≡ desc.old.view }
    ensures noted { account O.heard pace.new
        ≡ ended_in (Some pace.old.last) (account O.heard pace.old) }
    ensures commits { CommitsStay pace.old.tally pace.new.tally }
    ensures prepares { (lengthened : Bool)
        × Prepares pace.old.growth.most lengthened (Some pace.old.last) (known desc.old)
        (known desc.new)
        × (result ≡ failed_after lengthened failed pace.old.last) }
{
    let ended = pace.last;
    if let Ended::Full = ended {
        if pace.growth.lengthen(desc) {
            pace.tally.note(ended);
            return failed;
        }
    }
    pace.wait(rt, stm, desc.number, ended);
    failed_next(failed, ended)
}

/// The count of failed attempts, after one more that ended so. A log that was too short for the transaction will be
/// so again; an attempt that didn't begin isn't counted.
fn failed_next(failed: u32, ended: Ended) -> u32
    ensures { result ≡ failed_next failed ended }
{
    match ended {
        Ended::Full => MOST_FAILED,
        Ended::Closed | Ended::Held | Ended::Fenced => failed,
        _ => failed.saturating_add(1),
    }
}
