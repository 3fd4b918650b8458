//! What stands before the first turn: a memory that is open for a workload, and a worker for each caller. All room of a
//! run is taken here, since an irrevocable attempt can't be cancelled for want of memory.
ghost use Rattle.std.specs.Prelude.{◌≡◌, length, replicate, IfOk};
ghost use Rattle.work_text.specs.Parsed.{HeaderFits};
ghost use Rattle.work_script.specs.Reports.{regions_of};
ghost use Rattle.work_driver.specs.AllWorkers.{workers_in};
ghost use Rattle.work_driver.specs.Preparings.{HasRoom, IsPrepared};

use crate::gathering::OwnRows;
use crate::opening::open;
use crate::parting::CallerItems;
use crate::workers::{Runner, make_workers};
use crossbeam_utils::CachePadded;
use data_regions::region::Regions;
use std::alloc::Global;
use std::sync::Wait;
use std::thread::Threads;
use stm_model::memory::Memory;
use stm_model::rule::MemRule;
use stm_rule::desc::Desc;
use stm_rule::stm::Stm;
use work_profile::policy::Policy;
use work_script::report::Row;
use work_script::workload::Header;

/// The room for what a closing gives. All four are empty.
#[derive(Drop)]
pub struct Room<K: MemRule> {
    /// For all descriptors.
    pub descs: Vec<Desc<K>>,
    /// For the rows of each worker.
    pub lists: Vec<OwnRows>,
    /// For a row an item.
    pub rows: Vec<Row>,
    /// For the words of the heap.
    pub words: Vec<u64>,
}

/// An open memory, a worker for each caller, and the room for what they leave: what a run takes, but for a trace and
/// a report.
#[derive(Drop)]
pub struct Prepared<'a, K: MemRule> {
    pub stm: Stm<K>,
    pub runners: Vec<CachePadded<Runner<'a, K>>>,
    pub room: Room<K>,
}

/// Opens a memory under this rule for a header, whose callers are to do these parts, of so many items in all, and
/// caller 0 is to switch by the policy. `regions` are the header's.
///
/// # Errors
/// Memory, where it is refused: here alone can a run end with nothing closed, since no turn was taken.
pub fn prepare<'a, R: Threads + Wait + Sync, K: MemRule + Drop + Send + Sync>(
    rt: &R,
    alloc: Global,
    rule: K,
    header: &Header,
    policy: Policy,
    parts: &'a [CallerItems],
    regions: &'a Regions,
    items: usize,
) -> Result<Prepared<'a, K>, Memory>
    requires fits { HeaderFits header.now }
    requires good { K.good rule (replicate header.now.words 0) }
    requires parts { length parts.now ≡ header.now.callers }
    requires regions { regions.now ≡ regions_of header.now }
    ensures prepared { IfOk result (λ p.
        IsPrepared header.now policy parts.now p.stm (workers_in p.runners.items)) }
    ensures rule { IfOk result (λ p. p.stm.rule ≡ rule) }
    ensures room { IfOk result (λ p. HasRoom header.now.callers items header.now.words p.room) }
{
    let (stm, descs) = open(rt, alloc, header, rule)?;
    let runners = make_workers(rt, alloc, descs, parts, regions, header.alg, policy, items)?;
    let room = Room {
        descs: Vec::with_capacity(alloc, header.callers)?,
        lists: Vec::with_capacity(alloc, header.callers)?,
        rows: Vec::with_capacity(alloc, items)?,
        words: Vec::with_capacity(alloc, header.words)?,
    };
    Ok(Prepared { stm, runners, room })
}
