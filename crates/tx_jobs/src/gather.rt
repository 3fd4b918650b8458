//! Rounds of which each answers something.
ghost use Rattle.std.specs.Prelude.{ℕ, ◌≡◌, ◌<◌, ◌≤◌, IfOk, OnErr, length};
ghost use Rattle.tx_jobs.specs.Gathered.{Gathered};

use crate::calls::Calls;
use std::alloc::{AllocError, Global};
use std::sync::Wait;
use stm_model::rule::MemRule;

/// What a caller does in each round, and what it answers.
pub trait Errand<R: Wait, K: MemRule> {
    ghost use Rattle.std.specs.Prelude.{ℕ, ◌<◌, Option};
    ghost use Rattle.tx_jobs.specs.Known.{Known};

    type Item: Drop;

    // what it needs of the rule, of the number of words, and of the round, the first of which is 0. Where nothing is
    // said: one word, which each memory has
    ghost precondition: { Self → K → ℕ → ℕ → Type 0 } = { λ it rule words round. 0 < words };

    // what is so of a round, by the caller's number, what was answered, and what the caller knew before and after it.
    // Where nothing is said: nothing
    ghost postcondition: { Self → K → ℕ → ℕ → ℕ → Option Self.Item → Known → Known → Type 0 } = { λ it rule words caller round answer before after. Unit {0} };

    /// Does this round. None, which is the last: it couldn't.
    fn round<C: Calls<R, K>>(&self, caller: &mut C, round: usize) -> Option<Self::Item>
        requires precondition { precondition self.now (C.seat caller.old).rule
            (C.seat caller.old).words round }
        ensures keeps { C.keeps caller.old caller.new }
        ensures same { C.seat caller.new ≡ C.seat caller.old }
        ensures postcondition { postcondition self.now (C.seat caller.old).rule
            (C.seat caller.old).words (C.seat caller.old).number round result
            (C.known caller.old) (C.known caller.new) };
}

/// Does so many rounds, and lists what they answered: fewer only where one answered None.
///
/// # Errors
/// Where it is refused memory for the list: then no round was begun.
pub fn gather<R: Wait, K: MemRule, C: Calls<R, K>, T: Errand<R, K>>(
    caller: &mut C,
    alloc: Global,
    count: usize,
    each: &T,
) -> Result<Vec<T::Item>, AllocError>
    requires precondition { (round : ℕ) → round < count
        → T.precondition each.now (C.seat caller.old).rule (C.seat caller.old).words round }
    ensures keeps { C.keeps caller.old caller.new }
    ensures same { C.seat caller.new ≡ C.seat caller.old }
    ensures count { IfOk result (λ list. length list.items ≤ count) }
    ensures gathered { IfOk result (λ list.
        Gathered (T.postcondition each.now (C.seat caller.old).rule (C.seat caller.old).words
        (C.seat caller.old).number) count (C.known caller.old) list.items (C.known caller.new)) }
    ensures refused { OnErr result (C.known caller.new ≡ C.known caller.old) }
{
    let mut list = Vec::with_capacity(alloc, count)?;
    for round in 0..count {
        match each.round(caller, round) {
            Some(item) => list.push_reserved(item),
            None => return Ok(list),
        }
    }
    Ok(list)
}
