//! The first of two parts that can be done, as `orElse` of Harris, Marlow, Peyton Jones and Herlihy ("Composable Memory
//! Transactions", 2005).
use crate::nesting::Nesting;
use crate::part::Part;
use stm_model::rule::MemRule;
use stm_model::stop::Stop;

/// The first part; where it gives way, what it wrote is taken back, and the second is done in its place. It gives way
/// where both do. What the first read stays read: so the second is done on a memory on which the first can't be.
#[derive(Clone, Copy, Drop)]
pub struct OrElse<P, Q> {
    pub first: P,
    pub second: Q,
}

impl<K: MemRule, P: Part<K>, Q: Part<K, Output = P::Output>> Part<K> for OrElse<P, Q> {
    ghost use Rattle.std.specs.Prelude.{◌+◌, max};
    ghost use Rattle.tx_parts.specs.Laying.{EitherTells};

    type Output = P::Output;

    ghost precondition = { λ it rule words. P.precondition it.first rule words × Q.precondition it.second rule words };

    ghost depth = { λ it. max (P.depth it.first + 1) (Q.depth it.second) };

    ghost postcondition = { λ it rule words o before after. EitherTells (P.postcondition it.first rule words) (Q.postcondition it.second rule words) o before after };

    fn run<N: Nesting>(&self, rule: &K, memory: &mut N) -> Result<Option<P::Output>, Stop> {
        memory.mark();
        if let Some(done) = self.first.run(rule, memory)? {
            memory.keep();
            return Ok(Some(done));
        }
        memory.roll_back();
        self.second.run(rule, memory)
    }
}
