//! What no clause says: that ranges come and go at all while others are at work, on threads.

use crate::counts::{Counts, Sight};
use crate::moving::{attempt, fill, move_often};
use crate::sorting::sort_often;
use std::alloc::Global;
use std::sync::Wait;
use std::sync::atomic::Ordering;
use std::test::Fail;
use std::thread;
use std::thread::Threads;
use stm_model::alg::{ALGORITHMS, Alg};
use stm_model::config::Config;
use tx_checked::checked_caller::CheckedCaller;
use tx_checked::opening::open;

const SHARED: Config = Config {
    words: 16,
    records: 8,
    ring: 8,
    callers: 4,
    reads: 32,
    writes: 32,
    clock: 0,
    fence: true,
    marks: 0,
};

/// How often the range goes and comes.
const ROUNDS: u32 = 200;

/// What one caller does: caller 0 has the range, all others move money.
fn work<R: Wait>(rt: &R, caller: usize, checked_caller: &mut CheckedCaller, counts: &Counts) {
    if caller == 0 {
        sort_often(rt, checked_caller, ROUNDS, counts);
    } else {
        move_often(rt, checked_caller, counts);
    }
}

/// Has each caller do so, on a thread of its own.
fn work_all<R: Threads + Wait + Sync>(
    rt: &R,
    checked_callers: &mut [CheckedCaller],
    counts: &Counts,
) {
    thread::for_each_mut(
        rt,
        checked_callers,
        4,
        &|caller, checked_caller| { work(rt, caller, checked_caller, counts) },
    );
}

/// What is found after all work under an algorithm.
fn run<R: Threads + Wait + Sync>(
    rt: &R,
    alloc: Global,
    alg: Alg,
    counts: &Counts,
) -> Option<Sight> {
    let mut checked_callers = open(alloc, SHARED, alg).ok()?;
    if !fill(rt, checked_callers.first_mut()?) {
        return None;
    }
    work_all(rt, checked_callers.as_mut_slice(), counts);
    attempt(rt, checked_callers.first_mut()?, 0, 0)
}

/// The last of the rounds goes down, so that the range is left with the least weight.
#[test]
fn ranges_come_and_go_beside_others(rt: HostRuntime) -> Result<(), Fail> {
    for alg in ALGORITHMS {
        let counts = Counts::new();
        let left = run(&rt, rt.alloc(), alg, &counts);
        let last = Sight {
            out: false,
            sum: 836,
            weight: 120,
        };
        assert_eq!(rt; left, Some(last));
        assert_eq!(rt; counts.entries.load(Ordering::SeqCst), 200);
        assert_eq!(rt; counts.wrong.load(Ordering::SeqCst), 0);
        assert!(rt; counts.was_seen_out());
    }
    Ok(())
}
