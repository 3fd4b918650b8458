//! Rounds: in each of them any of a caller's calls.
ghost use Rattle.std.specs.Prelude.{◌≡◌, ◌<◌, ◌≤◌};
ghost use Rattle.tx_jobs.specs.Rounds.{Went};

use crate::calls::Calls;
use std::sync::Wait;
use stm_model::rule::MemRule;

/// What a caller does in each round. One that says nothing of it needs no proof where its calls need none.
pub trait Round<R: Wait, K: MemRule> {
    ghost use Rattle.std.specs.Prelude.{ℕ, ◌<◌, IfSome, IfNone};
    ghost use Rattle.tx_jobs.specs.Known.{Known};

    // what it needs of the rule and of the number of words. Where nothing is said: one word, which each memory has
    ghost precondition: { Self → K → ℕ → Type 0 } = { λ it rule words. 0 < words };

    // what is so of a round that was done, the first of which is 0: by the caller's number, and what it knew before and
    // after it. Where nothing is said: nothing
    ghost postcondition: { Self → K → ℕ → ℕ → ℕ → Known → Known → Type 0 } = { λ it rule words caller round before after. Unit {0} };

    /// Does this round: `caller.run(&first)?; caller.run(&second)?; Some(())`. None, which is the last: one of its
    /// calls found the clock at its limit.
    fn round<C: Calls<R, K>>(&self, caller: &mut C, round: usize) -> Option<()>
        requires precondition { precondition self.now (C.seat caller.old).rule
            (C.seat caller.old).words }
        ensures keeps { C.keeps caller.old caller.new }
        ensures same { C.seat caller.new ≡ C.seat caller.old }
        ensures postcondition { IfSome result (λ done.
            postcondition self.now (C.seat caller.old).rule (C.seat caller.old).words
            (C.seat caller.old).number round (C.known caller.old) (C.known caller.new)) }
        ensures full { IfNone result (C.full caller.old caller.new) };
}

/// Does so many rounds, and answers how many were done: fewer only where one answered None, at the clock's limit.
pub fn rounds<R: Wait, K: MemRule, C: Calls<R, K>, T: Round<R, K>>(
    caller: &mut C,
    count: usize,
    each: &T,
) -> usize
    requires precondition { T.precondition each.now (C.seat caller.old).rule
        (C.seat caller.old).words }
    ensures keeps { C.keeps caller.old caller.new }
    ensures same { C.seat caller.new ≡ C.seat caller.old }
    ensures count { result ≤ count }
    ensures went { Went (T.postcondition each.now (C.seat caller.old).rule (C.seat caller.old).words
        (C.seat caller.old).number) count (C.known caller.old) result (C.known caller.new) }
    ensures full { result < count → C.full caller.old caller.new }
{
    for round in 0..count {
        match each.round(caller, round) {
            Some(()) => {}
            None => return round,
        }
    }
    count
}
