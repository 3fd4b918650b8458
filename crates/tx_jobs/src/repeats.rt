//! Many transactions, one after another.
ghost use Rattle.std.specs.Prelude.{◌≡◌, ◌<◌, ◌≤◌, ℕ};
ghost use Rattle.tx_jobs.specs.Repeats.{MadeAll, Answered, Rounds, raised};

use crate::calls::Calls;
use std::sync::Wait;
use stm_model::rule::MemRule;
use tx_transaction::transaction::Transaction;

/// Runs so many transactions, one after another, and answers how many took effect: fewer only where the clock was found
/// at its limit. `f` makes that of a round, the first of which is 0.
pub fn repeat<R: Wait, K: MemRule, C: Calls<R, K>, T: Transaction<K> + Drop, F: Fn(usize) -> T>(
    caller: &mut C,
    rounds: usize,
    f: &F,
) -> usize
    requires callable { (round : ℕ) → round < rounds → F.pre f.now round }
    requires precondition { (round : ℕ) (t : T) → round < rounds → F.post f.now round t
        → T.precondition t (C.seat caller.old).rule (C.seat caller.old).words }
    ensures keeps { C.keeps caller.old caller.new }
    ensures same { C.seat caller.new ≡ C.seat caller.old }
    ensures count { result ≤ rounds }
    ensures took { MadeAll (Rounds (λ k t. F.post f.now k t) (λ t r log.
        T.postcondition t (C.seat caller.old).rule (C.seat caller.old).words r log))
        (C.known caller.old).made result (C.known caller.new).made }
    ensures counted { (C.known caller.new).commits ≡ raised (C.known caller.old).commits result }
    ensures full { result < rounds → C.full caller.old caller.new }
    ensures installs { (C.known caller.new).installs ≡ (C.known caller.old).installs }
{
    for round in 0..rounds {
        let transaction = f(round);
        match caller.run(&transaction) {
            Some(_) => {}
            None => return round,
        }
    }
    rounds
}

/// Runs one transaction so many times, and answers how often it took effect: fewer times only where the clock was found
/// at its limit.
pub fn times<R: Wait, K: MemRule, C: Calls<R, K>, T: Transaction<K>>(
    caller: &mut C,
    rounds: usize,
    transaction: &T,
) -> usize
    requires precondition { T.precondition transaction.now (C.seat caller.old).rule
        (C.seat caller.old).words }
    ensures keeps { C.keeps caller.old caller.new }
    ensures same { C.seat caller.new ≡ C.seat caller.old }
    ensures count { result ≤ rounds }
    ensures took { MadeAll (Answered
        (T.postcondition transaction.now (C.seat caller.old).rule (C.seat caller.old).words))
        (C.known caller.old).made result (C.known caller.new).made }
    ensures counted { (C.known caller.new).commits ≡ raised (C.known caller.old).commits result }
    ensures full { result < rounds → C.full caller.old caller.new }
    ensures installs { (C.known caller.new).installs ≡ (C.known caller.old).installs }
{
    for round in 0..rounds {
        match caller.run(transaction) {
            Some(_) => {}
            None => return round,
        }
    }
    rounds
}
