//! The callers at work, and what each leaves.
ghost use Rattle.std.specs.Prelude.{◌≡◌, ◌≤◌, ◌<◌, ℕ, [], map, length, vec_len, vec_capacity, slice_index_or, IfErr, IfOk, All};
ghost use Rattle.stm_rule.specs.Callers.{Handle};
ghost use Rattle.tx_atomic.specs.Callers.{IsReady};
ghost use Rattle.tx_start.specs.declared.working.Left.{Left};
ghost use Rattle.tx_start.specs.Lefts.{descs_in, answers_in, tallies_in, Works};

use crate::caller::Caller;
use std::alloc::Global;
use std::sync::Wait;
use std::thread;
use std::thread::Threads;
use stm_model::config::MOST_LOG;
use stm_tx::{Desc, MemRule, NewError, Stm};
use tx_atomic::growth::Growth;
use tx_atomic::pace::Pace;
use tx_atomic::tally::Tally;
use tx_backoff::Patience;
use tx_jobs::job::Job;

/// What a caller leaves.
#[derive(Drop)]
pub(crate) struct Left<K: MemRule, V> {
    pub desc: Desc<K>,
    pub answer: V,
    pub tally: Tally,
}

/// Has each caller do its job, on a thread of its own. Logs that are too short become longer with this memory.
pub(crate) fn work_all<
    R: Threads + Wait + Sync,
    K: MemRule + Drop + Sync + Send,
    J: Job<R, K> + Sync,
>(
    rt: &R,
    alloc: Global,
    stm: &Stm<K>,
    descs: Vec<Desc<K>>,
    job: &J,
) -> Result<Vec<Left<K, J::Output>>, NewError>
    requires ready { All (IsReady stm.now) descs.items }
    requires precondition { J.precondition job.now stm.now.rule stm.now.config.words }
    ensures count { IfOk result (λ left. length left.items ≡ length descs.items) }
    ensures refused { IfErr result (λ e. e ≡ NewError.Memory) }
    ensures done { IfOk result (λ left.
        (i : ℕ) (d : Left K J.Output) (e : Handle K) → i < length descs.items
        → Works (K.good stm.now.rule) stm.now.config
        (J.postcondition job.now stm.now.rule stm.now.config.words)
        (slice_index_or descs.items i e) (slice_index_or left.items i d)) }
{
    let patience = patience_of(rt, descs.len());
    let job_of = |desc|
        requires { IsReady stm.now desc × J.precondition job.now stm.now.rule stm.now.config.words }
    { work(rt, alloc, stm, desc, patience, job) };
    let left = thread::map_vec(rt, descs, &job_of)?;
    Ok(left)
}

/// While there are more callers than processors one that waits makes room: it doesn't spin.
fn patience_of<R: Threads>(rt: &R, callers: usize) -> Patience {
    match thread::available_parallelism(rt) {
        Ok(processors) if processors.get() < callers => Patience::none(),
        _ => Patience::new(),
    }
}

/// Has one caller do its job.
fn work<R: Wait, K: MemRule, J: Job<R, K>>(
    rt: &R,
    alloc: Global,
    stm: &Stm<K>,
    desc: Desc<K>,
    patience: Patience,
    job: &J,
) -> Left<K, J::Output>
    requires ready { IsReady stm.now desc }
    requires precondition { J.precondition job.now stm.now.rule stm.now.config.words }
    ensures works { Works (K.good stm.now.rule) stm.now.config
        (J.postcondition job.now stm.now.rule stm.now.config.words) desc result }
{
    let mut pace = Pace::new();
    pace.patience = patience;
    pace.growth = Growth::up_to(alloc, MOST_LOG);
    let mut caller = Caller {
        rt,
        stm,
        desc,
        pace,
    };
    let answer = job.work(&mut caller);
    let Caller { desc, pace, .. } = caller;
    Left {
        desc,
        answer,
        tally: pace.tally,
    }
}

/// The descriptors, the answers and the tallies, in the callers' order, in the room for them.
pub(crate) fn part<K: MemRule, V: Drop>(
    left: Vec<Left<K, V>>,
    mut descs: Vec<Desc<K>>,
    mut answers: Vec<V>,
    mut tallies: Vec<Tally>,
) -> (Vec<Desc<K>>, Vec<V>, Vec<Tally>)
    requires empty { (descs.items ≡ []) × (vec_len descs ≡ 0) × (answers.items ≡ [])
        × (vec_len answers ≡ 0) × (tallies.items ≡ []) × (vec_len tallies ≡ 0) }
    requires room { (length left.items ≤ vec_capacity descs)
        × (length left.items ≤ vec_capacity answers)
        × (length left.items ≤ vec_capacity tallies) }
    ensures descs { result.0.items ≡ descs_in left.items }
    ensures answers { result.1.items ≡ answers_in left.items }
    ensures tallies { result.2.items ≡ tallies_in left.items }
{
    for one in left {
        let Left {
            desc,
            answer,
            tally,
        } = one;
        descs.push_reserved(desc);
        answers.push_reserved(answer);
        tallies.push_reserved(tally);
    }
    (descs, answers, tallies)
}
