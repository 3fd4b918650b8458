//! Programs whose callers each run one transaction so many times.
ghost use Rattle.std.specs.Prelude.{◌≡◌, ◌<◌, ◌≤◌, ℕ, false, length, slice_index_or, IfErr, IfOk};
ghost use Rattle.stm_model.specs.declared.config.TheConstants.{CLOCK_LIMIT};
ghost use Rattle.stm_rule.specs.Refusals.{IsRefusal};
ghost use Rattle.tx_jobs.specs.Known.{IsFull};
ghost use Rattle.tx_jobs.specs.Repeats.{MadeAll, Answered};
ghost use Rattle.tx_jobs.specs.Stories.{Came};
ghost use Rattle.tx_start.specs.Pasts.{past_of};

use crate::memory::{Evidence, with_memory};
use std::alloc::Global;
use std::sync::Wait;
use std::thread::Threads;
use stm_tx::{Alg, AnyMem, Config, NewError};
use tx_jobs::closed::ClosedMemory;
use tx_jobs::times::Times;
use tx_transaction::transaction::Transaction;

/// Opens a memory of zeros under an algorithm, has each caller run the transaction so many times on a thread of its
/// own, and closes the memory. Each caller answers how often the transaction took effect: fewer times only where the
/// clock came to its limit.
///
/// # Errors
/// As `with_memory`.
pub fn with_transaction<R: Threads + Wait + Sync, T: Transaction<AnyMem> + Drop + Sync>(
    rt: &R,
    alloc: Global,
    config: Config,
    alg: Alg,
    rounds: usize,
    transaction: T,
) -> Result<ClosedMemory<usize, Evidence>, NewError>
where
    T::Output: Send,
    requires unfenced { config.fence ≡ false }
    requires precondition { T.precondition transaction (record {}) config.words }
    ensures came { IfOk result (λ came.
        Came (λ memory. Unit {0}) config alg
        (λ caller count before after.
        (count ≤ rounds)
        × MadeAll (Answered (T.postcondition transaction (record {}) config.words)) before.made
        count after.made
        × (count < rounds → IsFull after)) came.words.items came.answers.items
        (past_of came.past.closed came.past.tallies.items)) }
    ensures whole { IfOk result (λ came.
        (i : ℕ) (d : ℕ) → i < config.callers
        → slice_index_or came.answers.items i d < rounds
        → CLOCK_LIMIT ≤ came.past.closed.clock) }
    ensures refused { IfErr result (IsRefusal config) }
{
    let job = Times {
        rounds,
        transaction,
    };
    with_memory(rt, alloc, config, alg, AnyMem, &job)
}
