//! What a caller can do.
ghost use Rattle.std.specs.Prelude.{◌≡◌, ◌<◌, ◌≤◌, ◌∷◌, ◌++◌, [], IfSome, IfNone, Some, None};

use std::sync::Wait;
use stm_model::alg::Alg;
use stm_model::rule::MemRule;
use tx_transaction::transaction::Transaction;

/// A caller between its transactions, on its thread.
///
/// Contracts see its seat, which is the memory's rule and sizes and the caller's number; what is known of it; and
/// `keeps`, the frame of its calls.
pub trait Calls<R: Wait, K: MemRule> {
    ghost use Rattle.std.specs.Prelude.{ℕ};
    ghost use Rattle.stm_model.specs.Logs.{Log};
    ghost use Rattle.tx_jobs.specs.Known.{Seat, Known, Grows, IsFull};
    ghost use Rattle.tx_jobs.specs.Moments.{Took};
    ghost use Rattle.tx_jobs.specs.Repeats.{risen};

    ghost seat: { Self → Seat K };

    ghost known: { Self → Known };

    // the same caller, in no attempt, and nothing that it knew is forgotten: each call leads on so
    ghost keeps: { Self → Self → Type 0 };

    // from the one to the other the clock was found at its limit
    ghost full: { Self → Self → Type 0 };

    /// The caller's number, from 0 on: one of the memory's, of which there are 254 at most.
    fn number(&self) -> usize
        ensures is { result ≡ (seat self.now).number }
        ensures one { result < (seat self.now).callers }
        ensures low { result < 254 };

    /// Runs a transaction until it commits, and answers what it does. None where the clock was found at its limit.
    fn run<T: Transaction<K>>(&mut self, transaction: &T) -> Option<T::Output>
        requires precondition { T.precondition transaction.now (seat self.old).rule
            (seat self.old).words }
        ensures keeps { keeps self.old self.new }
        ensures same { seat self.new ≡ seat self.old }
        ensures took { IfSome result (λ r.
            Took (K.good (seat self.old).rule) (seat self.old).words
            (T.postcondition transaction.now (seat self.old).rule (seat self.old).words r)
            (known self.old) (known self.new)) }
        ensures counted { IfSome result (λ r.
            (known self.new).commits ≡ risen (known self.old).commits) }
        ensures none { IfNone result ((known self.new).made ≡ (known self.old).made) }
        ensures uncounted { IfNone result ((known self.new).commits ≡ (known self.old).commits) }
        ensures full { IfNone result (full self.old self.new) }
        ensures installs { (known self.new).installs ≡ (known self.old).installs };

    /// Runs a transaction until it commits with an answer, and answers that: where it answers None, having written
    /// nothing, it is tried again after a pause. None where the clock was found at its limit.
    fn until_some<V: Drop, T: Transaction<K, Output = Option<V>>>(
        &mut self,
        transaction: &T,
    ) -> Option<V>
        requires precondition { T.precondition transaction.now (seat self.old).rule
            (seat self.old).words }
        requires waits { (log : Log)
            → T.postcondition transaction.now (seat self.old).rule (seat self.old).words None log
            → log.writes ≡ [] }
        ensures keeps { keeps self.old self.new }
        ensures same { seat self.new ≡ seat self.old }
        ensures took { IfSome result (λ v.
            Took (K.good (seat self.old).rule) (seat self.old).words
            (T.postcondition transaction.now (seat self.old).rule (seat self.old).words (Some v))
            (known self.old) (known self.new)) }
        ensures none { IfNone result ((known self.new).made ≡ (known self.old).made) }
        ensures full { IfNone result (full self.old self.new) }
        ensures installs { (known self.new).installs ≡ (known self.old).installs };

    /// Installs an algorithm: attempts that begin from then on run under it.
    fn switch_to(&mut self, alg: Alg)
        ensures keeps { keeps self.old self.new }
        ensures same { seat self.new ≡ seat self.old }
        ensures made { (known self.new).made ≡ (known self.old).made }
        ensures installs { (known self.new).installs ≡ (known self.old).installs ++ alg ∷ [] };

    ghost keeps_refl: { (x : Self) → keeps x x };

    ghost keeps_trans: { (x y z : Self) → keeps x y → keeps y z → keeps x z };

    ghost full_earlier: { (x y z : Self) → keeps x y → full y z → full x z };

    ghost full_found: { (x y : Self) → full x y → IsFull (known y) };

    // it never sees less
    ghost grows: { (x y : Self) → keeps x y → Grows (known x) (known y) };
}
