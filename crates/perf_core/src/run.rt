//! A run, from the opening of its memory to the check of its words.
ghost use Rattle.std.specs.Prelude.{◌≡◌, ◌≤◌, ◌<◌, ℕ, [], length, vec_len, vec_capacity, slice_index_or, IfOk, IfErr, All};
ghost use Rattle.crossbeam_utils.specs.declared.cache_padded.CachePadded.{CachePadded};
ghost use Rattle.tx_atomic.specs.Callers.{IsReady, IsThrough};
ghost use Rattle.perf_core.specs.declared.caller.Caller.{Caller};
ghost use Rattle.perf_core.specs.Callers.{desc_in, descs_in};
ghost use Rattle.perf_core.specs.Plans.{IsOfMemory, IsPlan};
ghost use Rattle.perf_core.specs.Verdicts.{IsTrue};
ghost use Rattle.perf_core.specs.WorkRegions.{FitsWorkRegion};

use crate::caller::Caller;
use crate::checks::is_right;
use crate::conflicts::Conflicts;
use crate::looks::Looks;
use crate::opening::open;
use crate::plan::Plan;
use crate::report::Report;
use crate::work_counts::WorkCounts;
use crate::work_region::WorkRegion;
use crossbeam_utils::CachePadded;
use std::alloc::Global;
use std::sync::Wait;
use std::thread;
use std::thread::Threads;
use std::time::{Clock, Instant};
use stm_tx::{Desc, Memory, NewError, Stm, close};
use tx_atomic::tally::Tally;

/// How far apart the seeds of each 32 callers are, 2^56.
const FAR: u64 = 72_057_594_037_927_936;

/// Runs a plan.
///
/// # Errors
/// Memory, where it is refused.
pub fn run<R: Threads + Wait + Sync + Clock>(
    rt: &R,
    alloc: Global,
    plan: &Plan,
) -> Result<Report, NewError>
    requires { IsPlan plan.now }
    ensures plan { IfOk result (λ r. r.plan ≡ plan.now) }
    ensures is { IfOk result IsTrue }
    ensures refused { IfErr result IsOfMemory }
{
    let (stm, descs) = open(rt, alloc, plan)?;
    let room = Vec::with_capacity(alloc, descs.len())?;
    let none_met = Conflicts::new(alloc, counted(plan))?;
    let mut callers = hire(alloc, descs, plan)?;
    let start = Instant::now(rt).ok();
    work_all(rt, callers.as_mut_slice(), &stm, plan);
    let took = since(rt, start);
    let (tally, work_counts, looks) = told_by(callers.as_slice());
    let conflicts = met_by(callers.as_slice(), none_met);
    let descs = dismiss(callers, room);
    match close(alloc, stm, descs) {
        Ok((words, _closed)) => {
            let right = is_right(words.as_slice(), plan, tally.commits, &work_counts);
            Ok(Report {
                plan: *plan,
                tally,
                right,
                words,
                work_counts,
                took,
                looks,
                conflicts,
            })
        }
        Err((_stm, _descs, _memory)) => Err(NewError::Memory),
    }
}

/// How many nanoseconds ago that was, where the clock can be read.
fn since<R: Clock>(rt: &R, start: Option<Instant>) -> Option<u64> {
    let took = start?.elapsed(rt).ok()?;
    Some(u64::try_from(took.as_nanos()).unwrap_or(u64::MAX))
}

/// A caller for each descriptor, in their order. The first have one transaction more where they can't be dealt
/// evenly.
fn hire(
    alloc: Global,
    descs: Vec<Desc<WorkRegion>>,
    plan: &Plan,
) -> Result<Vec<CachePadded<Caller>>, Memory>
    ensures { IfOk result (λ callers. descs_in callers.items ≡ descs.items) }
{
    let mut callers = Vec::with_capacity(alloc, descs.len())?;
    let threads = plan.threads.max(1);
    for desc in descs {
        let number = callers.len() as u64;
        let extra = u32::from(number < u64::from(plan.count % threads));
        let share = (plan.count / threads).saturating_add(extra);
        let conflicts = Conflicts::new(alloc, counted(plan))?;
        let switches = if number == 0 { plan.switches } else { 0 };
        let caller = Caller::new(desc, share, switches, seed_of(plan.seed, number), conflicts);
        callers.push_reserved(CachePadded::new(caller));
    }
    Ok(callers)
}

/// Of how many words conflicts are to be counted.
fn counted(plan: &Plan) -> usize {
    if plan.conflicts { plan.words } else { 0 }
}

/// The seed of a caller's drawing. 32 callers share what a run's seed is; those after them are as the first 32 of a
/// seed far off, so that runs of neighbouring seeds have no caller in common.
fn seed_of(seed: u64, number: u64) -> u64 {
    seed.wrapping_add((number / 32).wrapping_mul(FAR))
        .wrapping_mul(32)
        .wrapping_add(number % 32)
}

/// Has each caller do its work, on a thread of its own.
fn work_all<R: Threads + Wait + Sync>(
    rt: &R,
    callers: &mut [CachePadded<Caller>],
    stm: &Stm<WorkRegion>,
    plan: &Plan,
)
    requires some { 0 < length callers.old }
    requires ready { All (λ caller. IsReady stm.now (desc_in caller)) callers.old }
    requires work_region { FitsWorkRegion stm.now }
    ensures count { length callers.new ≡ length callers.old }
    ensures done { (i : ℕ) (d : CachePadded Caller) → i < length callers.old
        → IsThrough (desc_in (slice_index_or callers.old i d))
        (desc_in (slice_index_or callers.new i d)) }
{
    let threads = callers.len();
    thread::for_each_mut(
        rt,
        callers,
        threads,
        &|_, caller| { work(rt, caller, stm, plan) },
    );
}

fn work<R: Wait>(rt: &R, caller: &mut CachePadded<Caller>, stm: &Stm<WorkRegion>, plan: &Plan)
    requires ready { IsReady stm.now (desc_in caller.old) }
    requires work_region { FitsWorkRegion stm.now }
    ensures { IsThrough (desc_in caller.old) (desc_in caller.new) }
{
    let caller = &mut **caller;
    caller.work(rt, stm, plan);
}

/// What all callers counted.
fn told_by(callers: &[CachePadded<Caller>]) -> (Tally, WorkCounts, Looks) {
    let mut tally = Tally::new();
    let mut work_counts = WorkCounts::new();
    let mut looks = Looks::new();
    for caller in callers {
        tally = tally.with(&caller.pace.tally);
        work_counts = work_counts.with(&caller.work_counts);
        looks = looks.with(&caller.looks);
    }
    (tally, work_counts, looks)
}

/// What all callers met, added to none.
fn met_by(callers: &[CachePadded<Caller>], none: Conflicts) -> Conflicts {
    let mut conflicts = none;
    for caller in callers {
        conflicts.gain(&caller.pace.observer);
    }
    conflicts
}

/// The descriptors, in the callers' order, in the room for them.
fn dismiss(
    callers: Vec<CachePadded<Caller>>,
    mut room: Vec<Desc<WorkRegion>>,
) -> Vec<Desc<WorkRegion>>
    requires empty { (room.items ≡ []) × (vec_len room ≡ 0) }
    requires room { length callers.items ≤ vec_capacity room }
    ensures { result.items ≡ descs_in callers.items }
{
    for caller in callers {
        let Caller { desc, .. } = caller.into_inner();
        room.push_reserved(desc);
    }
    room
}
