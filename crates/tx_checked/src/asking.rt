//! What a caller with its memory is asked, and how its logs are made longer.
ghost use Rattle.std.specs.Prelude.{◌≡◌, ◌&&◌, true};
ghost use Rattle.stm_answers.specs.CallerState.{is_irrevocable, state_of};
ghost use Rattle.tx_checked.specs.CheckedCallers.{is_beside, known_to};
ghost use Rattle.tx_checked.specs.Misuses.{reserving};
ghost use Rattle.tx_checked.specs.Tells.{Tells, HasReserved};

use crate::checked_caller::CheckedCaller;
use crate::misuse::Misuse;
use std::alloc::Global;
use stm_answers::answers::TxState;
use stm_model::alg::Alg;
use stm_model::config::MOST_LOG;
use stm_model::memory::Memory;
use stm_tx::calls;
use stm_tx::fencing::fence_seen;

impl CheckedCaller {
    /// Where it stands, and under which algorithm.
    pub fn state(&self) -> TxState
        ensures { result ≡ state_of (known_to self.now) }
    {
        calls::state(&self.desc)
    }

    /// The algorithm of its attempt. Where it is in none, that of its last.
    #[inline]
    pub fn algorithm(&self) -> Alg
        ensures { (known_to self.now).running ≡ true → (known_to self.now).alg ≡ result }
    {
        self.desc.local.algorithm
    }

    /// Whether its attempt can only be committed.
    pub fn is_irrevocable(&self) -> bool
        ensures { result ≡ ((known_to self.now).running && is_irrevocable (known_to self.now)) }
    {
        calls::is_irrevocable(&self.desc)
    }

    /// Whether a range was out of the transactions as its attempt began: it can't read or write a word of that.
    pub fn is_beside(&self) -> bool
        ensures { result ≡ is_beside (known_to self.now) }
    {
        match fence_seen(&self.desc) {
            Some(_) => true,
            None => false,
        }
    }

    /// Makes its logs longer, as `stm_tx::calls::reserve` does.
    pub fn reserve(
        &mut self,
        alloc: Global,
        reads: usize,
        writes: usize,
    ) -> Result<Result<(), Memory>, Misuse>
        ensures { Tells (reserving reads writes self.old)
            (HasReserved reads writes self.old self.new) self.old self.new result }
    {
        self.is_outside()?;
        if reads < 1 || reads > MOST_LOG || writes < 1 || writes > MOST_LOG {
            return Err(Misuse::Logs);
        }
        Ok(calls::reserve(alloc, &mut self.desc, reads, writes))
    }
}
