//! The workers of all callers.
ghost use Rattle.std.specs.Prelude.{◌≡◌, ◌<◌, ◌≤◌, [], length, map, slice_index_or, vec_len, vec_capacity, IfOk, IsPermutation, Ok};
ghost use Rattle.stm_answers.specs.CallerState.{caller_of};
ghost use Rattle.work_driver.specs.AllWorkers.{AreMade, AreMadeOf, AreNumbered, IsMadeOf, workers_in, descs_of, rows_of, how_all, sooner};
ghost use Rattle.work_trace.specs.Adapting.{policy_for};
ghost use Rattle.work_driver.specs.Gatherings.{joined};

use crate::gathering::{OwnRows, gather};
use crate::parting::{CallerItems, items_at};
use crate::schedule::Halt;
use crossbeam_utils::CachePadded;
use data_regions::region::Regions;
use std::alloc::Global;
use std::thread;
use std::thread::Threads;
use stm_model::alg::Alg;
use stm_model::memory::Memory;
use stm_model::rule::MemRule;
use stm_rule::desc::Desc;
use work_profile::policy::Policy;
use work_script::report::Row;
use work_worker::worker::Worker;

/// The workers of callers with fewer items each, on the average, are made in less time than threads take to start.
const FEWEST_ITEMS: usize = 2048;

/// A caller's worker, and how its turns ended.
#[derive(Drop)]
pub struct Runner<'a, K: MemRule> {
    pub worker: Worker<'a, K>,
    pub how: Result<(), Halt>,
}

/// The policy of a caller: caller 0 alone switches by one.
fn policy_for(policy: Policy, caller: usize) -> Policy
    ensures { result ≡ policy_for policy caller }
{
    if caller == 0 { policy } else { Policy::Fixed }
}

/// What all workers begin with.
#[derive(Drop)]
struct Common<'a> {
    alloc: Global,
    /// What each caller is to do.
    parts: &'a [CallerItems],
    /// The regions of the memory.
    regions: &'a Regions,
    /// The memory's algorithm.
    alg: Alg,
    /// The policy of caller 0.
    policy: Policy,
}

/// A worker for each descriptor, in their order, with its caller's items and room for all that it will do;
/// `regions` are the memory's, `alg` is its algorithm, and `policy` is that of caller 0. `items` is how many items all
/// callers have: where they are many, each worker takes its room on a thread of its own.
///
/// # Errors
/// Memory, where it is refused.
pub fn make_workers<'a, R: Threads + Sync, K: MemRule + Drop + Send + Sync>(
    rt: &R,
    alloc: Global,
    descs: Vec<Desc<K>>,
    parts: &'a [CallerItems],
    regions: &'a Regions,
    alg: Alg,
    policy: Policy,
    items: usize,
) -> Result<Vec<CachePadded<Runner<'a, K>>>, Memory>
    requires numbered { AreNumbered descs.items }
    requires all { length descs.items ≡ length parts.now }
    ensures { IfOk result (λ rs.
        AreMade (λ n. slice_index_or parts.now n []) regions.now alg policy 0 descs.items
        (workers_in rs.items)) }
{
    let common = Common {
        alloc,
        parts,
        regions,
        alg,
        policy,
    };
    if items < descs.len().saturating_mul(FEWEST_ITEMS) {
        make_in_turn(&common, descs)
    } else {
        make_by_threads(rt, &common, descs)
    }
}

/// The workers, made one after the other.
fn make_in_turn<'a, K: MemRule>(
    common: &Common<'a>,
    descs: Vec<Desc<K>>,
) -> Result<Vec<CachePadded<Runner<'a, K>>>, Memory>
    requires numbered { AreNumbered descs.items }
    requires all { length descs.items ≡ length common.now.parts.now }
    ensures { IfOk result (λ rs. AreMadeOf common.now descs.items (workers_in rs.items)) }
{
    let mut runners = Vec::with_capacity(common.alloc, descs.len())?;
    for desc in descs {
        let worker = make_one(common, desc)?;
        runners.push_reserved(CachePadded::new(Runner {
            worker,
            how: Ok(()),
        }));
    }
    Ok(runners)
}

/// The workers, made side by side.
fn make_by_threads<'a, R: Threads + Sync, K: MemRule + Drop + Send + Sync>(
    rt: &R,
    common: &Common<'a>,
    descs: Vec<Desc<K>>,
) -> Result<Vec<CachePadded<Runner<'a, K>>>, Memory>
    requires numbered { AreNumbered descs.items }
    requires all { length descs.items ≡ length common.now.parts.now }
    ensures { IfOk result (λ rs. AreMadeOf common.now descs.items (workers_in rs.items)) }
{
    let tried = thread::map_vec(rt, descs, &|desc| { make_one(common, desc) })?;
    seat_all(common.alloc, tried)
}

/// The worker of a descriptor, with its caller's items and room for all that it will do.
fn make_one<'a, K: MemRule>(common: &Common<'a>, desc: Desc<K>) -> Result<Worker<'a, K>, Memory>
    requires { caller_of desc.who.role < length common.now.parts.now }
    ensures { IfOk result (IsMadeOf common.now (caller_of desc.who.role) desc) }
{
    let caller = desc.number;
    let items = items_at(common.parts, caller);
    let own = policy_for(common.policy, caller);
    Worker::new(common.alloc, desc, items, common.regions, common.alg, own)
}

/// A runner for each worker, in their order, where memory was found for all.
fn seat_all<'a, K: MemRule>(
    alloc: Global,
    tried: Vec<Result<Worker<'a, K>, Memory>>,
) -> Result<Vec<CachePadded<Runner<'a, K>>>, Memory>
    ensures { IfOk result (λ rs. map Ok (workers_in rs.items) ≡ tried.entry.items) }
{
    let mut runners = Vec::with_capacity(alloc, tried.len())?;
    for worker in tried {
        runners.push_reserved(CachePadded::new(Runner {
            worker: worker?,
            how: Ok(()),
        }));
    }
    Ok(runners)
}

/// How the turns of all ended. Out of memory wins; otherwise the first caller's full clock.
pub fn how_ended<K: MemRule>(runners: &[CachePadded<Runner<K>>]) -> Result<(), Halt>
    ensures { result ≡ how_all runners.now }
{
    let mut how = Ok(());
    for runner in runners {
        how = sooner(how, runner.how);
    }
    how
}

/// Of two ends the one that counts: want of memory before a full clock, and of two full clocks the first.
fn sooner(first: Result<(), Halt>, second: Result<(), Halt>) -> Result<(), Halt>
    ensures { result ≡ sooner first second }
{
    match first {
        Ok(()) => second,
        Err(Halt::Memory) => Err(Halt::Memory),
        Err(Halt::ClockFull { clock }) => match second {
            Err(Halt::Memory) => Err(Halt::Memory),
            _ => Err(Halt::ClockFull { clock }),
        },
    }
}

/// Takes the workers apart: their descriptors in the workers' order, and the rows of all, as [`gather`] leaves them. It
/// takes no memory.
pub fn take_apart<K: MemRule>(
    runners: Vec<CachePadded<Runner<K>>>,
    descs: &mut Vec<Desc<K>>,
    lists: &mut Vec<OwnRows>,
    rows: &mut Vec<Row>,
)
    requires empty { (descs.old.items ≡ []) × (vec_len descs.old ≡ 0) × (lists.old.items ≡ [])
        × (vec_len lists.old ≡ 0) × (rows.old.items ≡ []) × (vec_len rows.old ≡ 0) }
    requires descs { length runners.items ≤ vec_capacity descs.old }
    requires lists { length runners.items ≤ vec_capacity lists.old }
    requires rows { length (rows_of (workers_in runners.items)) ≤ vec_capacity rows.old }
    ensures descs { descs.new.items ≡ descs_of (workers_in runners.entry.items) }
    ensures rows { IsPermutation (rows_of (workers_in runners.entry.items)) rows.new.items }
{
    part_from_rows(runners, descs, lists);
    gather(lists.as_mut_slice(), rows);
}

/// The descriptors and the rows of each worker, both in the workers' order.
fn part_from_rows<K: MemRule>(
    runners: Vec<CachePadded<Runner<K>>>,
    descs: &mut Vec<Desc<K>>,
    lists: &mut Vec<OwnRows>,
)
    requires empty { (descs.old.items ≡ []) × (vec_len descs.old ≡ 0) × (lists.old.items ≡ [])
        × (vec_len lists.old ≡ 0) }
    requires descs { length runners.items ≤ vec_capacity descs.old }
    requires lists { length runners.items ≤ vec_capacity lists.old }
    ensures descs { descs.new.items ≡ descs_of (workers_in runners.entry.items) }
    ensures rows { joined lists.new.items ≡ rows_of (workers_in runners.entry.items) }
{
    for runner in runners {
        let Runner { worker, .. } = runner.into_inner();
        let Worker { desc, rows, .. } = worker;
        descs.push_reserved(desc);
        lists.push_reserved(OwnRows::new(rows));
    }
}
