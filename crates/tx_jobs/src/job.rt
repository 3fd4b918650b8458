//! What a caller does on its thread.
use crate::calls::Calls;
use std::sync::Wait;
use stm_model::rule::MemRule;

/// What each caller does on its thread, in the order of its own transactions.
pub trait Job<R: Wait, K: MemRule> {
    ghost use Rattle.std.specs.Prelude.{ℕ, ◌<◌};
    ghost use Rattle.tx_jobs.specs.Known.{Known};

    /// What it answers.
    type Output: Drop + Send;

    // what it needs of the rule and of the number of words. Where nothing is said: one word, which each memory has
    ghost precondition: { Self → K → ℕ → Type 0 } = { λ job rule words. 0 < words };

    // what is so of a caller's answer: by the rule, the number of words, the caller's number, and what it knew before
    // and after its work. Where nothing is said: nothing
    ghost postcondition: { Self → K → ℕ → ℕ → Self.Output → Known → Known → Type 0 } = { λ job rule words caller answer before after. Unit {0} };

    fn work<C: Calls<R, K>>(&self, caller: &mut C) -> Self::Output
        requires precondition { precondition self.now (C.seat caller.old).rule
            (C.seat caller.old).words }
        ensures keeps { C.keeps caller.old caller.new }
        ensures postcondition { postcondition self.now (C.seat caller.old).rule
            (C.seat caller.old).words (C.seat caller.old).number result (C.known caller.old)
            (C.known caller.new) };
}
