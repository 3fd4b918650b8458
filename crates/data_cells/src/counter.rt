//! A counter in stripes, over any access.
ghost use Rattle.std.specs.Prelude.{◌≡◌, ◌<◌, ◌+◌, ◌^◌, None, IfOk, IfErr};
ghost use Rattle.stm_model.specs.Logs.{IsReadStop};
ghost use Rattle.data_effects.specs.Accesses.{DoesFor, LeadsOn};
ghost use Rattle.data_cells.specs.Counters.{StripesFit, added_in, total_in};

use stm_model::access::Access;
use stm_model::stop::Stop;

/// A counter whose `stripes` are the words from `at` on. The count is their sum modulo 2^64. Callers that
/// add to different stripes write different words.
#[derive(Clone, Copy, Drop, Debug, PartialEq, Eq)]
pub struct Counter {
    pub at: usize,
    pub stripes: usize,
}

impl Counter {
    pub fn new(at: usize, stripes: usize) -> Counter
        ensures { result ≡ record { at = at; stripes = stripes } }
    {
        Counter { at, stripes }
    }

    /// Adds `amount` to a stripe, counted from 0, modulo 2^64, and answers the stripe's new value. One read
    /// and one write.
    ///
    /// # Errors
    /// The Stop of the access.
    pub fn add<A: Access>(&self, acc: &mut A, stripe: usize, amount: u64) -> Result<u64, Stop>
        requires going { A.stopped acc.old ≡ None }
        requires within { StripesFit self.now (A.words acc.old) }
        requires stripe { stripe < self.now.stripes }
        ensures reply { IfOk result
            (DoesFor A.Access acc.old acc.new (added_in self.now stripe amount)) }
        ensures range { IfOk result (λ r. r < 2 ^ 64) }
        ensures frame { LeadsOn A.Access acc.old acc.new result }
    {
        let address = self.at + stripe;
        let found = acc.read(address)?;
        let sum = found.wrapping_add(amount);
        acc.write(address, sum)?;
        Ok(sum)
    }

    /// The sum of the stripes, modulo 2^64. One read a stripe.
    ///
    /// # Errors
    /// The Stop of the access; it is never `ClockFull`.
    pub fn total<A: Access>(&self, acc: &mut A) -> Result<u64, Stop>
        requires going { A.stopped acc.old ≡ None }
        requires within { StripesFit self.now (A.words acc.old) }
        requires some { 0 < self.now.stripes }
        ensures reply { IfOk result (DoesFor A.Access acc.old acc.new (total_in self.now)) }
        ensures range { IfOk result (λ r. r < 2 ^ 64) }
        ensures cause { IfErr result IsReadStop }
        ensures frame { LeadsOn A.Access acc.old acc.new result }
    {
        let mut total: u64 = 0;
        for stripe in 0..self.stripes {
            let found = acc.read(self.at + stripe)?;
            total = total.wrapping_add(found);
        }
        Ok(total)
    }
}
