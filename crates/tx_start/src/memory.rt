//! A memory from its opening to its close.
ghost use Rattle.std.specs.Prelude.{◌≡◌, None, false, length, replicate, IfErr, IfOk, OnOk};
ghost use Rattle.stm_rule.specs.Refusals.{IsRefusal, first_fault};
ghost use Rattle.tx_atomic.specs.Callers.{AllReady};
ghost use Rattle.tx_jobs.specs.Stories.{Came};
ghost use Rattle.tx_start.specs.Counts.{AllCounted};
ghost use Rattle.tx_start.specs.Lefts.{AllNew};
ghost use Rattle.tx_start.specs.Pasts.{past_of};

use crate::working::{part, work_all};
use std::alloc::Global;
use std::sync::Wait;
use std::thread::Threads;
use stm_rule::closing::close_into;
use stm_tx::{Alg, Closed, Config, Desc, MemRule, NewError, Stm};
use tx_atomic::switching::switch_to;
use tx_atomic::tally::Tally;
use tx_jobs::closed::ClosedMemory;
use tx_jobs::job::Job;

/// What tells of the past of a closed memory: the evidence of its one history, and what came of each caller's attempts,
/// in the callers' order.
#[derive(Drop)]
pub struct Evidence {
    pub closed: Closed,
    pub tallies: Vec<Tally>,
}

/// Opens a memory of zeros under an algorithm, has each caller do the job on a thread of its own, and closes the
/// memory. A log that is too short for a transaction becomes longer.
///
/// # Errors
/// As `Stm::new`; and `Memory`, where it is refused for the callers' answers. Closing takes none.
pub fn with_memory<R: Threads + Wait + Sync, K: MemRule + Drop + Sync + Send, J: Job<R, K> + Sync>(
    rt: &R,
    alloc: Global,
    config: Config,
    alg: Alg,
    rule: K,
    job: &J,
) -> Result<ClosedMemory<J::Output, Evidence>, NewError>
    requires unfenced { config.fence ≡ false }
    requires good { K.good rule (replicate config.words 0) }
    requires precondition { J.precondition job.now rule config.words }
    ensures came { IfOk result (λ came.
        Came (K.good rule) config alg (J.postcondition job.now rule config.words) came.words.items
        came.answers.items (past_of came.past.closed came.past.tallies.items)) }
    ensures counted { IfOk result (λ came.
        AllCounted (K.good rule) config alg came.past.closed came.past.tallies.items) }
    ensures refused { IfErr result (IsRefusal config) }
{
    let (stm, descs) = open(rt, alloc, config, alg, rule)?;
    // before the callers work, so that closing takes no memory and their work can't be lost by it
    let mut words = Vec::with_capacity(alloc, stm.config.words)?;
    let room = Vec::with_capacity(alloc, descs.len())?;
    let answers = Vec::with_capacity(alloc, descs.len())?;
    let tallies = Vec::with_capacity(alloc, descs.len())?;
    let left = work_all(rt, alloc, &stm, descs, job)?;
    let (descs, answers, tallies) = part(left, room, answers, tallies);
    let closed = close_into(stm, descs, &mut words);
    Ok(ClosedMemory {
        words,
        answers,
        past: Evidence { closed, tallies },
    })
}

/// Opens a memory, and installs the algorithm.
fn open<R: Wait, K: MemRule + Drop>(
    rt: &R,
    alloc: Global,
    config: Config,
    alg: Alg,
    rule: K,
) -> Result<(Stm<K>, Vec<Desc<K>>), NewError>
    requires good { K.good rule (replicate config.words 0) }
    ensures stm { IfOk result (λ r. (r.0.config ≡ config) × (r.0.rule ≡ rule)) }
    ensures ready { IfOk result (λ r. AllReady r.0 0 r.1.items) }
    ensures new { IfOk result (λ r. AllNew alg r.1.items) }
    ensures count { IfOk result (λ r. length r.1.items ≡ config.callers) }
    ensures in_range { OnOk result (first_fault config ≡ None) }
    ensures refused { IfErr result (IsRefusal config) }
{
    let (stm, mut descs) = Stm::new(alloc, config, rule)?;
    switch_to(rt, &mut descs[0], &stm, alg);
    Ok((stm, descs))
}
