//! One attempt at a transaction. Each part begins with what the one before it left.
ghost use Rattle.std.specs.Prelude.{◌≡◌, ◌≤◌, true, false, IfOk, OnOk, IfErr, OnErr, MatchResult, Some, None};
ghost use Rattle.stm_rule.specs.Callers.{IsOf, IsSameCaller};
ghost use Rattle.stm_answers.specs.Answers.{KeepsRule, Commits};
ghost use Rattle.stm_answers.specs.CallerState.{Grows, IsIdle, is_irrevocable};
ghost use Rattle.stm_tx.specs.Descs.{known, number, Serves};
ghost use Rattle.tx_atomic.specs.Accounts.{account, told};
ghost use Rattle.tx_atomic.specs.Tallies.{CommitsStay};
ghost use Rattle.tx_atomic.specs.declared.tally.Ended.TheVariants.{Fenced};
ghost use Rattle.tx_atomic.specs.Attempts.{IsFresh, MayCommit, TookEffect};
ghost use Rattle.tx_atomic.specs.Callers.{IsReady, IsThrough, Took};
ghost use Rattle.tx_atomic.specs.Tries.{Tried, Opens, Asks, HasBegun, IsStopped, IsTurnedBack, Finishes, Runs};

use crate::observer::Observer;
use crate::pace::{Pacing, Refused};
use crate::tally::Ended;
use crate::waking::wake_for;
use std::sync::Wait;
use stm_answers::answers::{Begin, Commit, Irrev};
use stm_model::rule::MemRule;
use stm_rule::desc::Desc;
use stm_rule::stm::Stm;
use stm_tx::calls::{algorithm, cancel, commit, try_begin_as, try_irrevocable};
use stm_tx::fencing::fence_seen;
use stm_tx::finish::Finish;
use stm_tx::live::Live;
use stm_tx::serving::{AnyAlgorithm, Calls, Only};
use stm_tx::{Algorithm, Cgl, under};
use tx_transaction::transaction::Transaction;

/// The word that a commit names where another holds the lock; else it names the clock, which moved.
const LOCK: u64 = 1;

/// Tries a transaction once, irrevocably where `irrevocable` says so. Answers what the transaction does, where the
/// attempt committed; else it left no trace. An irrevocable attempt fails only before it does anything.
///
/// # Errors
/// The attempt was refused, as `last` of the pace says.
#[inline(never)]
pub fn attempt<R: Wait, K: MemRule, T: Transaction<K>, O: Observer>(
    rt: &R,
    desc: &mut Desc<K>,
    stm: &Stm<K>,
    pace: &mut Pacing<O>,
    transaction: &T,
    irrevocable: bool,
) -> Result<T::Output, Refused>
    requires ready { IsReady stm.now desc.old }
    requires precondition { T.precondition transaction.now stm.now.rule stm.now.config.words }
    ensures through { IsThrough desc.old desc.new }
    ensures grew { Grows (known desc.old) (known desc.new) }
    ensures uncounted { CommitsStay pace.old.tally pace.new.tally }
    ensures took { IfOk result (λ r.
        Took K.good (T.postcondition transaction.now) stm.now desc.old r desc.new) }
    ensures none { OnErr result ((known desc.new).made ≡ (known desc.old).made) }
    ensures installs { (known desc.new).installs ≡ (known desc.old).installs }
    ensures tried { MatchResult result
        (λ r.
        Tried (K.good stm.now.rule) stm.now.config (number desc.old) O.hears irrevocable None
        (known desc.old) (known desc.new) (account O.heard pace.old)
        (account O.heard pace.new)) (λ e.
        Tried (K.good stm.now.rule) stm.now.config (number desc.old) O.hears irrevocable
        (Some pace.new.last) (known desc.old) (known desc.new) (account O.heard pace.old)
        (account O.heard pace.new)) }
{
    if irrevocable {
        return attempt_irrevocable(rt, desc, stm, pace, transaction);
    }
    // most attempts run under the algorithm of the caller's last one
    under!(
        desc.local.algorithm,
        attempt_by(Only::<A>::new(), rt, desc, stm, pace, transaction)
    )
}

/// The same of an attempt that isn't asked to be irrevocable, by a function of its own for each algorithm: where the
/// attempt runs under it, its calls stand in line.
#[inline(never)]
fn attempt_by<R: Wait, K: MemRule, T: Transaction<K>, A: Algorithm, O: Observer>(
    calls: Only<A>,
    rt: &R,
    desc: &mut Desc<K>,
    stm: &Stm<K>,
    pace: &mut Pacing<O>,
    transaction: &T,
) -> Result<T::Output, Refused>
    requires ready { IsReady stm.now desc.old }
    requires precondition { T.precondition transaction.now stm.now.rule stm.now.config.words }
    ensures through { IsThrough desc.old desc.new }
    ensures grew { Grows (known desc.old) (known desc.new) }
    ensures uncounted { CommitsStay pace.old.tally pace.new.tally }
    ensures took { IfOk result (λ r.
        Took K.good (T.postcondition transaction.now) stm.now desc.old r desc.new) }
    ensures none { OnErr result ((known desc.new).made ≡ (known desc.old).made) }
    ensures installs { (known desc.new).installs ≡ (known desc.old).installs }
    ensures tried { MatchResult result
        (λ r.
        Tried (K.good stm.now.rule) stm.now.config (number desc.old) O.hears false None
        (known desc.old) (known desc.new) (account O.heard pace.old)
        (account O.heard pace.new)) (λ e.
        Tried (K.good stm.now.rule) stm.now.config (number desc.old) O.hears false
        (Some pace.new.last) (known desc.old) (known desc.new) (account O.heard pace.old)
        (account O.heard pace.new)) }
{
    begin::<A, K, O>(desc, stm, pace)?;
    run(calls, rt, desc, stm, pace, transaction)
}

/// The same of one that is asked to be irrevocable before it does anything.
#[cold]
#[inline(never)]
fn attempt_irrevocable<R: Wait, K: MemRule, T: Transaction<K>, O: Observer>(
    rt: &R,
    desc: &mut Desc<K>,
    stm: &Stm<K>,
    pace: &mut Pacing<O>,
    transaction: &T,
) -> Result<T::Output, Refused>
    requires ready { IsReady stm.now desc.old }
    requires precondition { T.precondition transaction.now stm.now.rule stm.now.config.words }
    ensures through { IsThrough desc.old desc.new }
    ensures grew { Grows (known desc.old) (known desc.new) }
    ensures uncounted { CommitsStay pace.old.tally pace.new.tally }
    ensures took { IfOk result (λ r.
        Took K.good (T.postcondition transaction.now) stm.now desc.old r desc.new) }
    ensures none { OnErr result ((known desc.new).made ≡ (known desc.old).made) }
    ensures installs { (known desc.new).installs ≡ (known desc.old).installs }
    ensures tried { MatchResult result
        (λ r.
        Tried (K.good stm.now.rule) stm.now.config (number desc.old) O.hears true None
        (known desc.old) (known desc.new) (account O.heard pace.old)
        (account O.heard pace.new)) (λ e.
        Tried (K.good stm.now.rule) stm.now.config (number desc.old) O.hears true
        (Some pace.new.last) (known desc.old) (known desc.new) (account O.heard pace.old)
        (account O.heard pace.new)) }
{
    open(rt, desc, stm, pace)?;
    run_looking_up(rt, desc, stm, pace, transaction)
}

/// Begins, and asks to be irrevocable.
fn open<R: Wait, K: MemRule, O: Observer>(
    rt: &R,
    desc: &mut Desc<K>,
    stm: &Stm<K>,
    pace: &mut Pacing<O>,
) -> Result<(), Refused>
    requires stm { IsOf desc.old stm.now }
    requires idle { IsIdle (known desc.old) }
    ensures same { IsSameCaller desc.old desc.new }
    ensures made { (known desc.new).made ≡ (known desc.old).made }
    ensures grew { Grows (known desc.old) (known desc.new) }
    ensures uncounted { CommitsStay pace.old.tally pace.new.tally }
    ensures fresh { OnOk result (IsFresh (known desc.new)) }
    ensures later { OnOk result ((known desc.old).front ≤ (known desc.new).start) }
    ensures irrevocable { OnOk result (is_irrevocable (known desc.new) ≡ true) }
    ensures over { OnErr result (IsIdle (known desc.new)) }
    ensures installs { (known desc.new).installs ≡ (known desc.old).installs }
    ensures opens { OnOk result
        (Opens (K.good stm.now.rule) stm.now.config (number desc.old) O.hears true (known desc.old)
        (known desc.new) (account O.heard pace.old) (account O.heard pace.new)) }
    ensures tried { OnErr result
        (Tried (K.good stm.now.rule) stm.now.config (number desc.old) O.hears true (Some pace.new.last)
        (known desc.old) (known desc.new) (account O.heard pace.old)
        (account O.heard pace.new)) }
{
    begin::<Cgl, K, O>(desc, stm, pace)?;
    promote(rt, desc, stm, pace)?;
    Ok(())
}

/// Begins, soonest where the gate names this algorithm. While a range of words is out of the transactions no attempt
/// goes on.
#[inline(always)]
fn begin<A: Algorithm, K: MemRule, O: Observer>(
    desc: &mut Desc<K>,
    stm: &Stm<K>,
    pace: &mut Pacing<O>,
) -> Result<(), Refused>
    requires stm { IsOf desc.old stm.now }
    requires idle { IsIdle (known desc.old) }
    ensures same { IsSameCaller desc.old desc.new }
    ensures made { (known desc.new).made ≡ (known desc.old).made }
    ensures grew { Grows (known desc.old) (known desc.new) }
    ensures uncounted { CommitsStay pace.old.tally pace.new.tally }
    ensures untold { OnOk result (account O.heard pace.new ≡ account O.heard pace.old) }
    ensures fresh { OnOk result (IsFresh (known desc.new)) }
    ensures later { OnOk result ((known desc.old).front ≤ (known desc.new).start) }
    ensures over { OnErr result (IsIdle (known desc.new)) }
    ensures installs { (known desc.new).installs ≡ (known desc.old).installs }
    ensures begins { OnOk result
        (HasBegun (K.good stm.now.rule) stm.now.config (number desc.old) (known desc.old)
        (known desc.new)) }
    ensures refused { OnErr result
        (IsTurnedBack (K.good stm.now.rule) stm.now.config (number desc.old) O.hears pace.new.last
        (known desc.old) (known desc.new) (account O.heard pace.old)
        (account O.heard pace.new)) }
{
    match try_begin_as::<A, K>(desc, stm) {
        Begin::Begun(_) => {
            if fence_seen(desc).is_some() {
                return Err(turn_back(desc, stm, pace));
            }
            Ok(())
        }
        Begin::Closed { .. } => Err(pace.refuse(Ended::Closed, None)),
        Begin::Held { .. } => Err(pace.refuse(Ended::Held, None)),
        Begin::ClockFull { .. } => Err(pace.refuse(Ended::ClockFull, None)),
    }
}

/// Ends an attempt that has done nothing, whatever its algorithm: a range is out of the transactions. Kept out of line
/// so the hot commit can be inlined, and without that one's answer so that no attempt makes room for it.
#[cold]
fn turn_back<K: MemRule, O: Observer>(
    desc: &mut Desc<K>,
    stm: &Stm<K>,
    pace: &mut Pacing<O>,
) -> Refused
    requires stm { IsOf desc.old stm.now }
    requires running { (known desc.old).running ≡ true }
    requires keeps { KeepsRule (K.good stm.now.rule) stm.now.config (number desc.old)
        (known desc.old) }
    ensures same { IsSameCaller desc.old desc.new }
    ensures commits { (answer : Commit)
        × Commits (K.good stm.now.rule) stm.now.config (number desc.old) answer (known desc.old)
        (known desc.new) }
    ensures told { account O.heard pace.new
        ≡ told O.hears (Some Fenced) None (account O.heard pace.old) }
    ensures last { pace.new.last ≡ Fenced }
{
    commit(desc, stm);
    pace.refuse(Ended::Fenced, None)
}

/// Asks to be irrevocable until that is granted, or the attempt is over. While another is in an attempt it waits
/// with the gate closed.
#[cold]
#[inline(never)]
fn promote<R: Wait, K: MemRule, O: Observer>(
    rt: &R,
    desc: &mut Desc<K>,
    stm: &Stm<K>,
    pace: &mut Pacing<O>,
) -> Result<(), Refused>
    requires stm { IsOf desc.old stm.now }
    requires fresh { IsFresh (known desc.old) }
    ensures same { IsSameCaller desc.old desc.new }
    ensures made { (known desc.new).made ≡ (known desc.old).made }
    ensures grew { Grows (known desc.old) (known desc.new) }
    ensures uncounted { CommitsStay pace.old.tally pace.new.tally }
    ensures fresh { OnOk result (IsFresh (known desc.new)) }
    ensures later { OnOk result ((known desc.old).start ≤ (known desc.new).start) }
    ensures irrevocable { OnOk result (is_irrevocable (known desc.new) ≡ true) }
    ensures over { OnErr result (IsIdle (known desc.new)) }
    ensures installs { (known desc.new).installs ≡ (known desc.old).installs }
    ensures asks { MatchResult result
        (λ r.
        Asks (K.good stm.now.rule) stm.now.config (number desc.old) O.hears None (known desc.old)
        (known desc.new) (account O.heard pace.old) (account O.heard pace.new)) (λ e.
        Asks (K.good stm.now.rule) stm.now.config (number desc.old) O.hears (Some pace.new.last)
        (known desc.old) (known desc.new) (account O.heard pace.old)
        (account O.heard pace.new)) }
{
    for _ in rt.forever() {
        match try_irrevocable(desc, stm) {
            Irrev::Granted => {
                pace.promote();
                return Ok(());
            }
            Irrev::Busy { .. } => {
                pace.tell(Ended::Busy, None);
                pace.wait(rt, stm, desc.number, Ended::Busy);
            }
            Irrev::Taken { .. } => {
                // its holder waits for this very attempt to end
                cancel(desc, stm);
                return Err(pace.refuse(Ended::Taken, None));
            }
            Irrev::Conflict(cause) => return Err(pace.refuse(Ended::Conflict(cause), None)),
            Irrev::ClockFull { .. } => return Err(pace.refuse(Ended::ClockFull, None)),
        }
    }
    unreachable!()
}

/// Does the transaction in a running attempt, and commits it: in line where it runs under this algorithm.
#[inline(always)]
fn run<R: Wait, K: MemRule, T: Transaction<K>, A: Algorithm, O: Observer>(
    calls: Only<A>,
    rt: &R,
    desc: &mut Desc<K>,
    stm: &Stm<K>,
    pace: &mut Pacing<O>,
    transaction: &T,
) -> Result<T::Output, Refused>
    requires stm { IsOf desc.old stm.now }
    requires fresh { IsFresh (known desc.old) }
    requires ungranted { (known desc.old).granted ≡ false }
    requires precondition { T.precondition transaction.now stm.now.rule stm.now.config.words }
    ensures same { IsSameCaller desc.old desc.new }
    ensures idle { IsIdle (known desc.new) }
    ensures grew { Grows (known desc.old) (known desc.new) }
    ensures uncounted { CommitsStay pace.old.tally pace.new.tally }
    ensures took { IfOk result (λ r.
        TookEffect (K.good stm.now.rule) stm.now.config (number desc.old)
        (T.postcondition transaction.now stm.now.rule stm.now.config.words r) (known desc.old).start
        (known desc.old) (known desc.new)) }
    ensures none { OnErr result ((known desc.new).made ≡ (known desc.old).made) }
    ensures installs { (known desc.new).installs ≡ (known desc.old).installs }
    ensures runs { MatchResult result
        (λ r.
        Runs (K.good stm.now.rule) stm.now.config (number desc.old) O.hears None (known desc.old)
        (known desc.new) (account O.heard pace.old) (account O.heard pace.new)) (λ e.
        Runs (K.good stm.now.rule) stm.now.config (number desc.old) O.hears (Some pace.new.last)
        (known desc.old) (known desc.new) (account O.heard pace.old)
        (account O.heard pace.new)) }
    ensures unrefused { OnErr result (is_irrevocable (known desc.old) ≡ false) }
{
    if algorithm(desc) == A::which() {
        return run_by(calls, rt, desc, stm, pace, transaction);
    }
    run_looking_up(rt, desc, stm, pace, transaction)
}

/// The same by calls that look the algorithm up each time: for an attempt that was made irrevocable, or runs under
/// another algorithm than the caller's last.
#[cold]
#[inline(never)]
fn run_looking_up<R: Wait, K: MemRule, T: Transaction<K>, O: Observer>(
    rt: &R,
    desc: &mut Desc<K>,
    stm: &Stm<K>,
    pace: &mut Pacing<O>,
    transaction: &T,
) -> Result<T::Output, Refused>
    requires stm { IsOf desc.old stm.now }
    requires fresh { IsFresh (known desc.old) }
    requires precondition { T.precondition transaction.now stm.now.rule stm.now.config.words }
    ensures same { IsSameCaller desc.old desc.new }
    ensures idle { IsIdle (known desc.new) }
    ensures grew { Grows (known desc.old) (known desc.new) }
    ensures uncounted { CommitsStay pace.old.tally pace.new.tally }
    ensures took { IfOk result (λ r.
        TookEffect (K.good stm.now.rule) stm.now.config (number desc.old)
        (T.postcondition transaction.now stm.now.rule stm.now.config.words r) (known desc.old).start
        (known desc.old) (known desc.new)) }
    ensures none { OnErr result ((known desc.new).made ≡ (known desc.old).made) }
    ensures installs { (known desc.new).installs ≡ (known desc.old).installs }
    ensures runs { MatchResult result
        (λ r.
        Runs (K.good stm.now.rule) stm.now.config (number desc.old) O.hears None (known desc.old)
        (known desc.new) (account O.heard pace.old) (account O.heard pace.new)) (λ e.
        Runs (K.good stm.now.rule) stm.now.config (number desc.old) O.hears (Some pace.new.last)
        (known desc.old) (known desc.new) (account O.heard pace.old)
        (account O.heard pace.new)) }
    ensures unrefused { OnErr result (is_irrevocable (known desc.old) ≡ false) }
{
    run_by(AnyAlgorithm, rt, desc, stm, pace, transaction)
}

/// The same by these calls.
#[inline(always)]
fn run_by<R: Wait, K: MemRule, T: Transaction<K>, C: Calls + Drop, O: Observer>(
    calls: C,
    rt: &R,
    desc: &mut Desc<K>,
    stm: &Stm<K>,
    pace: &mut Pacing<O>,
    transaction: &T,
) -> Result<T::Output, Refused>
    requires stm { IsOf desc.old stm.now }
    requires fresh { IsFresh (known desc.old) }
    requires served { Serves C.acts_as (known desc.old) }
    requires precondition { T.precondition transaction.now stm.now.rule stm.now.config.words }
    ensures same { IsSameCaller desc.old desc.new }
    ensures idle { IsIdle (known desc.new) }
    ensures grew { Grows (known desc.old) (known desc.new) }
    ensures uncounted { CommitsStay pace.old.tally pace.new.tally }
    ensures took { IfOk result (λ r.
        TookEffect (K.good stm.now.rule) stm.now.config (number desc.old)
        (T.postcondition transaction.now stm.now.rule stm.now.config.words r) (known desc.old).start
        (known desc.old) (known desc.new)) }
    ensures none { OnErr result ((known desc.new).made ≡ (known desc.old).made) }
    ensures installs { (known desc.new).installs ≡ (known desc.old).installs }
    ensures runs { MatchResult result
        (λ r.
        Runs (K.good stm.now.rule) stm.now.config (number desc.old) O.hears None (known desc.old)
        (known desc.new) (account O.heard pace.old) (account O.heard pace.new)) (λ e.
        Runs (K.good stm.now.rule) stm.now.config (number desc.old) O.hears (Some pace.new.last)
        (known desc.old) (known desc.new) (account O.heard pace.old)
        (account O.heard pace.new)) }
    ensures unrefused { OnErr result (is_irrevocable (known desc.old) ≡ false) }
{
    let output = act(&calls, desc, stm, pace, transaction)?;
    end(&calls, rt, desc, stm, pace)?;
    Ok(output)
}

/// Does the transaction in a running attempt, by these reads and writes.
#[inline(always)]
fn act<K: MemRule, T: Transaction<K>, C: Calls, O: Observer>(
    calls: &C,
    desc: &mut Desc<K>,
    stm: &Stm<K>,
    pace: &mut Pacing<O>,
    transaction: &T,
) -> Result<T::Output, Refused>
    requires stm { IsOf desc.old stm.now }
    requires fresh { IsFresh (known desc.old) }
    requires served { Serves C.acts_as (known desc.old) }
    requires precondition { T.precondition transaction.now stm.now.rule stm.now.config.words }
    ensures same { IsSameCaller desc.old desc.new }
    ensures made { (known desc.new).made ≡ (known desc.old).made }
    ensures grew { Grows (known desc.old) (known desc.new) }
    ensures uncounted { CommitsStay pace.old.tally pace.new.tally }
    ensures untold { OnOk result (account O.heard pace.new ≡ account O.heard pace.old) }
    ensures later { OnOk result ((known desc.old).start ≤ (known desc.new).start) }
    ensures algorithm { OnOk result ((known desc.new).alg ≡ (known desc.old).alg) }
    ensures granted { OnOk result ((known desc.new).granted ≡ (known desc.old).granted) }
    ensures may { OnOk result (MayCommit (K.good stm.now.rule) stm.now.config (known desc.new)) }
    ensures postcondition { IfOk result (λ r.
        T.postcondition transaction.now stm.now.rule stm.now.config.words r (known desc.new).log) }
    ensures over { OnErr result (IsIdle (known desc.new)) }
    ensures installs { (known desc.new).installs ≡ (known desc.old).installs }
    ensures stopped { OnErr result
        (IsStopped (K.good stm.now.rule) stm.now.config (number desc.old) O.hears pace.new.last
        (known desc.old) (known desc.new) (account O.heard pace.old)
        (account O.heard pace.new)) }
    ensures unrefused { OnErr result (is_irrevocable (known desc.old) ≡ false) }
    ensures irrevocable { OnOk result
        (is_irrevocable (known desc.old) ≡ true → is_irrevocable (known desc.new) ≡ true) }
{
    let mut memory = Live {
        calls,
        desc,
        stm,
        stopped: None,
    };
    match transaction.run(&stm.rule, &mut memory) {
        Ok(output) => Ok(output),
        Err(stop) => Err(pace.refuse(Ended::by(stop), memory.address())),
    }
}

/// Commits, again and again where another was faster.
#[inline(always)]
fn end<R: Wait, K: MemRule, C: Calls, O: Observer>(
    calls: &C,
    rt: &R,
    desc: &mut Desc<K>,
    stm: &Stm<K>,
    pace: &mut Pacing<O>,
) -> Result<(), Refused>
    requires stm { IsOf desc.old stm.now }
    requires served { Serves C.acts_as (known desc.old) }
    requires may { MayCommit (K.good stm.now.rule) stm.now.config (known desc.old) }
    ensures same { IsSameCaller desc.old desc.new }
    ensures idle { IsIdle (known desc.new) }
    ensures grew { Grows (known desc.old) (known desc.new) }
    ensures uncounted { CommitsStay pace.old.tally pace.new.tally }
    ensures took { OnOk result
        (TookEffect (K.good stm.now.rule) stm.now.config (number desc.old)
        (λ l. l ≡ (known desc.old).log) (known desc.old).start (known desc.old) (known desc.new)) }
    ensures none { OnErr result ((known desc.new).made ≡ (known desc.old).made) }
    ensures installs { (known desc.new).installs ≡ (known desc.old).installs }
    ensures finishes { MatchResult result
        (λ r.
        Finishes (K.good stm.now.rule) stm.now.config (number desc.old) O.hears None (known desc.old)
        (known desc.new) (account O.heard pace.old) (account O.heard pace.new)) (λ e.
        Finishes (K.good stm.now.rule) stm.now.config (number desc.old) O.hears (Some pace.new.last)
        (known desc.old) (known desc.new) (account O.heard pace.old)
        (account O.heard pace.new)) }
    ensures unrefused { OnErr result (is_irrevocable (known desc.old) ≡ false) }
{
    for _ in rt.forever() {
        let Finish { answer, rung } = calls.commit(desc, stm);
        wake_for(stm, rung);
        match answer {
            Commit::Committed { .. } | Commit::ReadOnly { .. } => return Ok(()),
            Commit::Again { word, .. } => pace.wait_at_commit(word == LOCK),
            Commit::Conflict(cause) => return Err(pace.refuse(Ended::Conflict(cause), None)),
            Commit::ClockFull { .. } => return Err(pace.refuse(Ended::ClockFull, None)),
        }
    }
    unreachable!()
}
