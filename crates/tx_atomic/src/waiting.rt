//! A transaction that waits for what it needs: `retry` of composable memory transactions (Harris, Marlow, Peyton Jones,
//! Herlihy).
//!
//! Where what it read tells it that it can't go on, it answers None, having written nothing. That attempt commits as
//! one that only read, and after a pause the next one begins. So it is the same under every algorithm, and for an
//! irrevocable attempt too, which couldn't be taken back.
//!
//! Who has paused for a while sleeps, until another caller has committed a write. No wake-up is lost, since the wait is
//! announced before the attempt on whose answer the caller sleeps, and rung for after the commit: a commit whose ring
//! finds no announcement stands before that attempt reads. Each half is a clause: who sleeps has announced each word
//! that it read since (`sleep`), and who has written rings (`commit` of stm_tx).
ghost use Rattle.std.specs.Prelude.{◌≡◌, ℕ, [], IfSome, IfNone, Some, None};
ghost use Rattle.stm_model.specs.Logs.{Log};
ghost use Rattle.stm_answers.specs.Causes.{FindsFull};
ghost use Rattle.stm_tx.specs.Descs.{known, number};
ghost use Rattle.tx_atomic.specs.Accounts.{account};
ghost use Rattle.tx_atomic.specs.Callers.{IsReady, IsThrough, Took};
ghost use Rattle.tx_atomic.specs.Extends.{Extends};
ghost use Rattle.tx_atomic.specs.declared.tally.Ended.TheVariants.{ClockFull};
ghost use Rattle.tx_atomic.specs.Tries.{RanAgain};
ghost use Rattle.tx_atomic.specs.Waits.{HasLooked, since_of, stripes_of};

use crate::atomically::atomically;
use crate::observer::Observer;
use crate::pace::Pacing;
use std::snapshot::Snapshot;
use std::sync::Wait;
use stm_bell::bell::Announced;
use stm_bell::stripes::Stripes;
use stm_model::rule::MemRule;
use stm_rule::desc::Desc;
use stm_rule::stm::Stm;
use tx_backoff::{Backoff, Patience};
use tx_transaction::transaction::Transaction;
use tx_watching::watched::Watched;

/// Runs a transaction until it commits with an answer, and answers that. It took effect once, as in [`atomically`]; the
/// attempts that answered None before left no entry. The pauses between these grow, and then the caller sleeps until
/// another has committed a write. The pace counts each of them as a commit.
///
/// None where the clock was found at its limit, 2^62, and then nothing took effect.
pub fn until_some<R: Wait, K: MemRule, V: Drop, T: Transaction<K, Output = Option<V>>, O: Observer>(
    rt: &R,
    desc: &mut Desc<K>,
    stm: &Stm<K>,
    pace: &mut Pacing<O>,
    transaction: &T,
) -> Option<V>
    requires ready { IsReady stm.now desc.old }
    requires precondition { T.precondition transaction.now stm.now.rule stm.now.config.words }
    requires waits { (log : Log)
        → T.postcondition transaction.now stm.now.rule stm.now.config.words None log
        → log.writes ≡ [] }
    ensures through { IsThrough desc.old desc.new }
    ensures grew { Extends (known desc.old) (known desc.new) }
    ensures took { IfSome result (λ v.
        Took K.good (T.postcondition transaction.now) stm.now desc.old (Some v) desc.new) }
    ensures none { IfNone result ((known desc.new).made ≡ (known desc.old).made) }
    ensures full { IfNone result ((clock : ℕ) × FindsFull clock (known desc.old) (known desc.new)) }
    ensures installs { (known desc.new).installs ≡ (known desc.old).installs }
    ensures ran { IfSome result (λ v.
        RanAgain (K.good stm.now.rule) stm.now.config (number desc.old) O.hears None (known desc.old)
        (known desc.new) (account O.heard pace.old) (account O.heard pace.new)) }
    ensures gave_up { IfNone result (RanAgain (K.good stm.now.rule) stm.now.config (number desc.old) O.hears
        (Some ClockFull) (known desc.old) (known desc.new) (account O.heard pace.old)
        (account O.heard pace.new)) }
{
    let watched = Watched { transaction };
    let mut backoff = Backoff::new();
    let mut stripes = Stripes::none();
    for _ in rt.forever() {
        // before the attempt: what is committed after that has read ends the sleep
        let waiting = announce_late(desc, stm, stripes, &backoff);
        match atomically(rt, desc, stm, pace, &watched) {
            None => {
                withdraw(stm, waiting);
                return None;
            }
            Some((Some(answer), _)) => {
                withdraw(stm, waiting);
                pace.patience.learn(&backoff);
                return Some(answer);
            }
            Some((None, read)) => {
                rest(
                    rt,
                    desc,
                    stm,
                    transaction,
                    &mut backoff,
                    &pace.patience,
                    waiting,
                    read,
                );
                stripes = stripes.with(read);
            }
        }
    }
    unreachable!()
}

/// A wait that a caller has announced.
#[derive(Drop)]
pub struct Waiting<K: MemRule> {
    announced: Announced,
    /// The caller as it announced it, for proofs alone.
    since: Snapshot<Desc<K>>,
}

/// Announces that the caller will wait for words of these stripes, before it looks whether it has to.
pub fn announce<K: MemRule>(desc: &Desc<K>, stm: &Stm<K>, stripes: Stripes) -> Waiting<K>
    ensures since { since_of result ≡ desc.now }
    ensures stripes { stripes_of result ≡ stripes }
{
    Waiting {
        announced: stm.bell.announce(desc.number, stripes),
        since: Snapshot::of(desc),
    }
}

/// Sleeps until another caller has committed a write to a word of the stripes, or reopened the gate, since the wait was
/// announced; it may also end for no reason, and ends after some milliseconds, for commits of who can't wake. Only who
/// has looked since then may sleep: by a transaction that began after the announcement, read words of the stripes
/// alone, and answered None as the last thing that the caller did.
pub fn sleep<R: Wait, K: MemRule, V: Drop, T: Transaction<K, Output = Option<V>>>(
    rt: &R,
    desc: &Desc<K>,
    stm: &Stm<K>,
    transaction: &T,
    waiting: Waiting<K>,
)
    requires looked { HasLooked K.good (T.postcondition transaction.now) stm.now (stripes_of waiting)
        (since_of waiting) desc.now }
{
    let _ = desc;
    let _ = transaction;
    stm.bell.sleep(rt, &waiting.announced);
    stm.bell.withdraw(waiting.announced);
}

/// Announces a wait, where the caller has paused for so long that it is to sleep.
fn announce_late<K: MemRule>(
    desc: &Desc<K>,
    stm: &Stm<K>,
    stripes: Stripes,
    backoff: &Backoff,
) -> Option<Waiting<K>>
    ensures { IfSome result (λ w. since_of w ≡ desc.now) }
{
    if backoff.is_to_sleep() {
        return Some(announce(desc, stm, stripes));
    }
    None
}

/// Ends a wait that came to no sleep.
fn withdraw<K: MemRule>(stm: &Stm<K>, waiting: Option<Waiting<K>>) {
    if let Some(waiting) = waiting {
        stm.bell.withdraw(waiting.announced);
    }
}

/// Sleeps, where a wait was announced before the transaction answered None, and for all that it read; else pauses.
fn rest<R: Wait, K: MemRule, V: Drop, T: Transaction<K, Output = Option<V>>>(
    rt: &R,
    desc: &Desc<K>,
    stm: &Stm<K>,
    transaction: &T,
    backoff: &mut Backoff,
    patience: &Patience,
    waiting: Option<Waiting<K>>,
    read: Stripes,
)
    requires looked { IfSome waiting (λ w.
        HasLooked K.good (T.postcondition transaction.now) stm.now read (since_of w) desc.now) }
{
    match waiting {
        Some(waiting) => {
            if waiting.announced.stripes().covers(read) {
                sleep(rt, desc, stm, transaction, waiting);
            } else {
                stm.bell.withdraw(waiting.announced);
            }
        }
        None => backoff.wait_to_sleep(patience),
    }
}
