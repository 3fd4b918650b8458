//! One part after another.
use crate::nesting::Nesting;
use crate::part::Part;
use stm_model::rule::MemRule;
use stm_model::stop::Stop;

/// The first part and then the second, which finds what the first wrote. It gives way where one of them does.
#[derive(Clone, Copy, Drop)]
pub struct Then<P, Q> {
    pub first: P,
    pub second: Q,
}

impl<K: MemRule, P: Part<K>, Q: Part<K>> Part<K> for Then<P, Q> {
    ghost use Rattle.std.specs.Prelude.{max};
    ghost use Rattle.tx_parts.specs.Laying.{BothTell};

    type Output = (P::Output, Q::Output);

    ghost precondition = { λ it rule words. P.precondition it.first rule words × Q.precondition it.second rule words };

    ghost depth = { λ it. max (P.depth it.first) (Q.depth it.second) };

    ghost postcondition = { λ it rule words o before after. BothTell (P.postcondition it.first rule words) (Q.postcondition it.second rule words) o before after };

    fn run<N: Nesting>(
        &self,
        rule: &K,
        memory: &mut N,
    ) -> Result<Option<(P::Output, Q::Output)>, Stop> {
        let Some(first) = self.first.run(rule, memory)? else {
            return Ok(None);
        };
        let Some(second) = self.second.run(rule, memory)? else {
            return Ok(None);
        };
        Ok(Some((first, second)))
    }
}
