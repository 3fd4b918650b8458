//! Transactions drawn by chance, by the workload.
ghost use Rattle.std.specs.Prelude.{◌≡◌, ◌<◌, ◌≤◌};
ghost use Rattle.stm_rule.specs.Callers.{IsOf, IsSameCaller};
ghost use Rattle.stm_answers.specs.CallerState.{IsIdle};
ghost use Rattle.stm_tx.specs.Descs.{known};
ghost use Rattle.perf_core.specs.WorkRegions.{FitsWorkRegion};

use crate::conflicts::Conflicts;
use crate::jobs::{Add, Contains, Insert, Move, Remove, ScanRow, Sum};
use crate::plan::{ACCOUNTS, KEYS};
use crate::rows::{row_at, row_count, row_length};
use crate::work_counts::{Came, WorkCounts};
use crate::work_region::WorkRegion;
use rand_core::utils::NextWord;
use rand_pcg::Pcg32;
use std::sync::Wait;
use stm_tx::{Desc, Stm};
use tx_atomic::atomically::atomically;
use tx_atomic::pace::Pacing;

/// The transactions of a workload. Code that is generic in that asks once which workload it is, and not for each
/// transaction; and each kind of transaction is compiled on its own.
pub trait Draw {
    /// Draws a transaction, commits it, and counts what it came to. None where the clock was found at its limit.
    fn commit<R: Wait>(
        draws: &mut Pcg32,
        rt: &R,
        desc: &mut Desc<WorkRegion>,
        stm: &Stm<WorkRegion>,
        pace: &mut Pacing<Conflicts>,
        counts: &mut WorkCounts,
    ) -> Option<()>
        requires stm { IsOf desc.old stm.now }
        requires idle { IsIdle (known desc.old) }
        requires work_region { FitsWorkRegion stm.now }
        ensures same { IsSameCaller desc.old desc.new }
        ensures idle { IsIdle (known desc.new) };
}

/// Moves between two accounts, and once in 256 the sum of all.
pub struct Bank;

/// Lookups, insertions and removals in a hash set: of a hundred 90, 5 and 5.
pub struct Hash;

/// The same in a sorted list: of a hundred 80, 10 and 10.
pub struct List;

/// Each adds to one word.
pub struct Count;

/// Each is the sum of all accounts.
pub struct Total;

/// Each reads a row, and adds 1 to one of its words.
pub struct Scan;

impl Draw for Bank {
    #[inline(always)]
    fn commit<R: Wait>(
        draws: &mut Pcg32,
        rt: &R,
        desc: &mut Desc<WorkRegion>,
        stm: &Stm<WorkRegion>,
        pace: &mut Pacing<Conflicts>,
        counts: &mut WorkCounts,
    ) -> Option<()> {
        // one word says all: the lowest 8 bits what, 12 how much, and 10 and 10 above them from where and where to
        let word = draws.next_word();
        if word % 256 == 255 {
            return sum_all(rt, desc, stm, pace, counts);
        }
        let job = Move {
            from: word / 4_096 % ACCOUNTS as u32,
            to: word / 4_194_304 % ACCOUNTS as u32,
            amount: word % 4_096 * 100 / 4_096,
        };
        atomically(rt, desc, stm, pace, &job)
    }
}

impl Draw for Hash {
    #[inline(always)]
    fn commit<R: Wait>(
        draws: &mut Pcg32,
        rt: &R,
        desc: &mut Desc<WorkRegion>,
        stm: &Stm<WorkRegion>,
        pace: &mut Pacing<Conflicts>,
        counts: &mut WorkCounts,
    ) -> Option<()> {
        on_set(draws, 5, rt, desc, stm, pace, counts)
    }
}

impl Draw for List {
    #[inline(always)]
    fn commit<R: Wait>(
        draws: &mut Pcg32,
        rt: &R,
        desc: &mut Desc<WorkRegion>,
        stm: &Stm<WorkRegion>,
        pace: &mut Pacing<Conflicts>,
        counts: &mut WorkCounts,
    ) -> Option<()> {
        on_set(draws, 10, rt, desc, stm, pace, counts)
    }
}

impl Draw for Count {
    #[inline(always)]
    fn commit<R: Wait>(
        draws: &mut Pcg32,
        rt: &R,
        desc: &mut Desc<WorkRegion>,
        stm: &Stm<WorkRegion>,
        pace: &mut Pacing<Conflicts>,
        _counts: &mut WorkCounts,
    ) -> Option<()> {
        // a word is drawn for it as for each other
        let _ = draws.next_word();
        atomically(rt, desc, stm, pace, &Add { account: 0 })
    }
}

impl Draw for Total {
    #[inline(always)]
    fn commit<R: Wait>(
        draws: &mut Pcg32,
        rt: &R,
        desc: &mut Desc<WorkRegion>,
        stm: &Stm<WorkRegion>,
        pace: &mut Pacing<Conflicts>,
        counts: &mut WorkCounts,
    ) -> Option<()> {
        let _ = draws.next_word();
        sum_all(rt, desc, stm, pace, counts)
    }
}

impl Draw for Scan {
    #[inline(always)]
    fn commit<R: Wait>(
        draws: &mut Pcg32,
        rt: &R,
        desc: &mut Desc<WorkRegion>,
        stm: &Stm<WorkRegion>,
        pace: &mut Pacing<Conflicts>,
        counts: &mut WorkCounts,
    ) -> Option<()> {
        let words = stm.config.words;
        let row = row_at(words, draws.next_word() as usize % row_count(words));
        let at = row.start + draws.next_word() as usize % row_length(words);
        let sum = atomically(rt, desc, stm, pace, &ScanRow { row, at })?;
        counts.see(sum);
        Some(())
    }
}

fn sum_all<R: Wait>(
    rt: &R,
    desc: &mut Desc<WorkRegion>,
    stm: &Stm<WorkRegion>,
    pace: &mut Pacing<Conflicts>,
    counts: &mut WorkCounts,
) -> Option<()>
    requires stm { IsOf desc.old stm.now }
    requires idle { IsIdle (known desc.old) }
    requires work_region { FitsWorkRegion stm.now }
    ensures same { IsSameCaller desc.old desc.new }
    ensures idle { IsIdle (known desc.new) }
{
    let job = Sum {
        accounts: ACCOUNTS as u32,
    };
    if !atomically(rt, desc, stm, pace, &job)? {
        counts.note(Came::Wrong);
    }
    Some(())
}

/// An insertion or a removal of a key in `each` of a hundred cases, else a lookup.
#[inline(always)]
fn on_set<R: Wait>(
    draws: &mut Pcg32,
    each: u32,
    rt: &R,
    desc: &mut Desc<WorkRegion>,
    stm: &Stm<WorkRegion>,
    pace: &mut Pacing<Conflicts>,
    counts: &mut WorkCounts,
) -> Option<()>
    requires stm { IsOf desc.old stm.now }
    requires idle { IsIdle (known desc.old) }
    requires work_region { FitsWorkRegion stm.now }
    ensures same { IsSameCaller desc.old desc.new }
    ensures idle { IsIdle (known desc.new) }
{
    let number = draws.next_word() % 100;
    let key = draws.next_word() % KEYS;
    if number < each {
        counts.note(atomically(rt, desc, stm, pace, &Insert { key })?);
    } else if number / 2 < each {
        counts.note(atomically(rt, desc, stm, pace, &Remove { key })?);
    } else {
        atomically(rt, desc, stm, pace, &Contains { key })?;
    }
    Some(())
}
