//! The jobs of doing one thing so many times.
use crate::calls::Calls;
use crate::job::Job;
use crate::repeats::times;
use crate::rounds::{Round, rounds};
use std::sync::Wait;
use stm_model::rule::MemRule;
use tx_transaction::transaction::Transaction;

/// What each caller does who runs one transaction so many times.
#[derive(Drop)]
pub struct Times<T> {
    pub rounds: usize,
    pub transaction: T,
}

impl<R: Wait, K: MemRule, T: Transaction<K>> Job<R, K> for Times<T> {
    ghost use Rattle.std.specs.Prelude.{◌<◌, ◌≤◌};
    ghost use Rattle.tx_jobs.specs.Known.{IsFull};
    ghost use Rattle.tx_jobs.specs.Repeats.{MadeAll, Answered};

    type Output = usize;

    ghost precondition = { λ job rule words. T.precondition job.transaction rule words };

    // it took effect so often: fewer times only where the clock was found at its limit
    ghost postcondition = { λ job rule words caller count before after. (count ≤ job.rounds) × MadeAll (Answered (T.postcondition job.transaction rule words)) before.made count after.made × (count < job.rounds → IsFull after) };

    /// How often it took effect: fewer times only where the clock was found at its limit.
    fn work<C: Calls<R, K>>(&self, caller: &mut C) -> usize {
        times(caller, self.rounds, &self.transaction)
    }
}

/// The job of doing so many rounds. Answers how many were done: fewer only where the clock was found at its limit.
#[derive(Drop)]
pub struct Rounds<T> {
    pub count: usize,
    pub each: T,
}

impl<R: Wait, K: MemRule, T: Round<R, K>> Job<R, K> for Rounds<T> {
    ghost use Rattle.std.specs.Prelude.{◌<◌, ◌≤◌};
    ghost use Rattle.tx_jobs.specs.Known.{IsFull};
    ghost use Rattle.tx_jobs.specs.Rounds.{Went};

    type Output = usize;

    ghost precondition = { λ job rule words. T.precondition job.each rule words };

    ghost postcondition = { λ job rule words caller done before after. (done ≤ job.count) × Went (T.postcondition job.each rule words caller) job.count before done after × (done < job.count → IsFull after) };

    fn work<C: Calls<R, K>>(&self, caller: &mut C) -> usize {
        rounds(caller, self.count, &self.each)
    }
}
