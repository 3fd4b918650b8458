//! A caller of a memory, between its transactions.
ghost use Rattle.std.specs.Prelude.{◌≡◌, ◌<◌};
ghost use Rattle.stm_model.specs.declared.config.TheConstants.{MOST_LOG};
ghost use Rattle.stm_rule.specs.Callers.{IsOf};
ghost use Rattle.stm_answers.specs.CallerState.{IsIdle};
ghost use Rattle.stm_tx.specs.Descs.{known, number};

use std::sync::Wait;
use stm_tx::{Alg, Desc, MemRule, Stm};
use tx_atomic::atomically::atomically;
use tx_atomic::pace::Pace;
use tx_atomic::switching::switch_to;
use tx_atomic::transaction::Transaction;
use tx_atomic::waiting::until_some;
use tx_jobs::calls::Calls;

/// A caller, on its thread. It is in no attempt.
#[derive(Drop)]
pub struct Caller<'a, R: Wait, K: MemRule> {
    pub rt: &'a R,
    pub stm: &'a Stm<K>,
    pub desc: Desc<K>,
    pub pace: Pace,
    pub ghost own: { IsOf desc stm.now },
    pub ghost idle: { IsIdle (known desc) },
    pub ghost lengthens: { pace.growth.most ≡ MOST_LOG },
}

impl<'a, R: Wait, K: MemRule> Calls<R, K> for Caller<'a, R, K> {
    ghost use Rattle.std.specs.Prelude.{ℕ, ◌≡◌, refl};
    ghost use Rattle.std.proofs.Common.{◌∙◌};
    ghost use Rattle.stm_tx.specs.Descs.{known, number};
    ghost use Rattle.stm_answers.specs.Causes.{FindsFull};
    ghost use Rattle.tx_atomic.specs.Callers.{HasWorked};
    ghost use Rattle.tx_atomic.specs.CallerLaws.{worked-refl, worked-trans};
    ghost use Rattle.tx_atomic.specs.TryLaws.{full-earlier};
    ghost use Rattle.tx_start.specs.Seats.{shown, seat_of};
    ghost use Rattle.tx_start.specs.Counts.{Counts};
    ghost use Rattle.tx_start.specs.CountLaws.{counts-none, counts-trans};
    ghost use Rattle.tx_start.specs.SeatLaws.{found-full, grows-shown};

    ghost seat = { λ c. seat_of c.stm.now c.desc };

    ghost known = { λ c. shown (known c.desc) c.pace.tally.commits };

    ghost keeps = { λ x y. HasWorked x.desc y.desc × (y.stm ≡ x.stm) × Counts (K.good x.stm.now.rule) x.stm.now.config (number x.desc) (known x.desc) (known y.desc) x.pace.tally y.pace.tally };

    ghost full = { λ x y. (clock : ℕ) × FindsFull clock (known x.desc) (known y.desc) };

    ghost keeps_refl = { λ x. (worked-refl x.desc x.idle, refl, counts-none (K.good x.stm.now.rule) x.stm.now.config (number x.desc) (known x.desc) x.pace.tally) };

    ghost keeps_trans = { λ x y z a b. (worked-trans x.desc y.desc z.desc a.0 b.0.through b.0.grew, b.1 ∙ a.1, counts-trans K.good x.stm.now y.stm.now x.desc y.desc z.desc x.pace.tally y.pace.tally z.pace.tally (λ k. (a.1 k).now) a.0.through a.2 b.2) };

    ghost full_earlier = { λ x y z a f. (f.0, full-earlier f.0 (known x.desc) (known y.desc) (known z.desc) a.0.grew f.1) };

    ghost full_found = { λ x y f. found-full f.0 (known x.desc) (known y.desc) y.pace.tally.commits f.1 };

    ghost grows = { λ x y a. grows-shown x.desc y.desc x.pace.tally.commits y.pace.tally.commits a.0.grew };

    fn number(&self) -> usize {
        number_of(&self.desc, self.stm)
    }

    fn run<T: Transaction<K>>(&mut self, transaction: &T) -> Option<T::Output> {
        atomically(
            self.rt,
            &mut self.desc,
            self.stm,
            &mut self.pace,
            transaction,
        )
    }

    fn until_some<V: Drop, T: Transaction<K, Output = Option<V>>>(
        &mut self,
        transaction: &T,
    ) -> Option<V> {
        until_some(
            self.rt,
            &mut self.desc,
            self.stm,
            &mut self.pace,
            transaction,
        )
    }

    fn switch_to(&mut self, alg: Alg) {
        switch_to(self.rt, &mut self.desc, self.stm, alg);
    }
}

/// The number of a descriptor of this memory.
fn number_of<K: MemRule>(desc: &Desc<K>, stm: &Stm<K>) -> usize
    requires { IsOf desc.now stm.now }
    ensures is { result ≡ number desc.now }
    ensures one { result < stm.now.config.callers }
    ensures low { result < 254 }
{
    let _ = stm;
    desc.number
}
