//! A transaction, watched.
use crate::watching::Watching;
use stm_bell::stripes::Stripes;
use stm_model::access::Access;
use stm_model::rule::MemRule;
use stm_model::stop::Stop;
use tx_transaction::transaction::Transaction;

/// The transaction, which answers the stripes of the words that it read beside what it answers. That costs three
/// instructions a read.
#[derive(Clone, Copy, Drop)]
pub struct Watched<'a, T> {
    pub transaction: &'a T,
}

impl<'a, K: MemRule, T: Transaction<K>> Transaction<K> for Watched<'a, T> {
    ghost use Rattle.tx_watching.specs.Watches.{CoverReads};

    type Output = (T::Output, Stripes);

    ghost precondition = { λ it rule words. T.precondition it.transaction.now rule words };

    ghost postcondition = { λ it rule words came log. T.postcondition it.transaction.now rule words came.0 log × CoverReads came.1 log };

    #[inline(always)]
    fn run<A: Access>(&self, rule: &K, memory: &mut A) -> Result<(T::Output, Stripes), Stop> {
        let mut watching = Watching {
            to: memory,
            stripes: Stripes::none(),
        };
        let output = self.transaction.run(rule, &mut watching)?;
        Ok((output, watching.stripes))
    }
}
