//! What no clause says: that transactions come to their end, on threads and where attempts are refused.
ghost use Rattle.std.specs.Prelude.{◌≡◌, ◌<◌, ℕ, All, length, slice_index_or};
ghost use Rattle.stm_model.specs.declared.rule.AnyMem.{AnyMem};
ghost use Rattle.stm_rule.specs.Callers.{Handle};
ghost use Rattle.tx_atomic.specs.Callers.{IsReady, IsThrough, AllReady};

use std::alloc::Global;
use std::sync::Wait;
use std::test::Fail;
use std::thread;
use std::thread::Threads;
use stm_model::access::Access;
use stm_model::alg::{ALGORITHMS, Alg};
use stm_model::config::{CLOCK_LIMIT, Config};
use stm_model::rule::AnyMem;
use stm_model::stop::Stop;
use stm_rule::closing::close;
use stm_rule::desc::Desc;
use stm_rule::refusal::NewError;
use stm_rule::stm::Stm;
use tx_atomic::atomically::atomically;
use tx_atomic::pace::Pace;
use tx_atomic::switching::switch_to;
use tx_atomic::tally::Tally;
use tx_atomic::transaction::Transaction;

/// One more in word 0. Answers what was there, and in the words 1 and 2.
pub(crate) struct Increment;

impl Transaction<AnyMem> for Increment {
    ghost use Rattle.std.specs.Prelude.{◌<◌};

    type Output = (u64, u64, u64);

    ghost precondition = { λ it rule words. 2 < words };

    ghost postcondition = { λ it rule words r log. Unit {0} };

    fn run<A: Access>(&self, _: &AnyMem, memory: &mut A) -> Result<(u64, u64, u64), Stop> {
        let count = memory.read(0)?;
        let one = memory.read(1)?;
        let two = memory.read(2)?;
        memory.write(0, count.wrapping_add(1))?;
        Ok((count, one, two))
    }
}

pub(crate) const COUNTING: Config = Config {
    words: 3,
    records: 2,
    ring: 4,
    callers: 4,
    reads: 4,
    writes: 4,
    clock: 0,
    fence: false,
    marks: 0,
};

/// How often each caller counts.
const TIMES: usize = 1_000;

fn count<R: Wait>(rt: &R, desc: &mut Desc<AnyMem>, stm: &Stm<AnyMem>)
    requires ready { IsReady stm.now desc.old }
    requires words { 2 < stm.now.config.words }
    ensures through { IsThrough desc.old desc.new }
{
    let mut pace = Pace::new();
    for _ in 0..TIMES {
        atomically(rt, desc, stm, &mut pace, &Increment);
    }
}

/// Has each caller count, on a thread of its own.
fn count_all<R: Threads + Wait + Sync>(rt: &R, descs: &mut [Desc<AnyMem>], stm: &Stm<AnyMem>)
    requires ready { All (IsReady stm.now) descs.old }
    requires words { 2 < stm.now.config.words }
    ensures count { length descs.new ≡ length descs.old }
    ensures done { (i : ℕ) (d : Handle AnyMem) → i < length descs.old
        → IsThrough (slice_index_or descs.old i d) (slice_index_or descs.new i d) }
{
    thread::for_each_mut(rt, descs, 4, &|_, desc| { count(rt, desc, stm) });
}

/// Has all count under an algorithm.
fn serve<R: Threads + Wait + Sync>(rt: &R, descs: &mut [Desc<AnyMem>], stm: &Stm<AnyMem>, alg: Alg)
    requires ready { AllReady stm.now 0 descs.old }
    requires some { 0 < length descs.old }
    requires words { 2 < stm.now.config.words }
    ensures ready { AllReady stm.now 0 descs.new }
    ensures count { length descs.new ≡ length descs.old }
{
    switch_to(rt, &mut descs[0], stm, alg);
    count_all(rt, descs, stm);
}

/// What four callers count to under an algorithm.
fn counted<R: Threads + Wait + Sync>(rt: &R, alloc: Global, alg: Alg) -> Result<u64, NewError> {
    let (stm, mut descs) = Stm::new(alloc, COUNTING, AnyMem)?;
    serve(rt, descs.as_mut_slice(), &stm, alg);
    match close(alloc, stm, descs) {
        Ok((words, _closed)) => Ok(words.first().copied().unwrap_or(0)),
        Err((_stm, _descs, _memory)) => Err(NewError::Memory),
    }
}

#[test]
fn no_increment_is_lost_under_each_algorithm(rt: HostRuntime) -> Result<(), Fail> {
    for alg in ALGORITHMS {
        let count = counted(&rt, rt.alloc(), alg)?;
        assert_eq!(rt; count, 4_000);
    }
    Ok(())
}

/// What the increment answers a caller that is alone, and what came of its attempts.
fn alone<R: Wait>(
    rt: &R,
    alloc: Global,
    reads: usize,
    clock: u64,
    alg: Alg,
) -> Result<(Option<(u64, u64, u64)>, Tally), NewError> {
    let config = Config {
        callers: 1,
        reads,
        clock,
        ..COUNTING
    };
    let (stm, mut descs) = Stm::new(alloc, config, AnyMem)?;
    let Some(mut desc) = descs.pop() else {
        unreachable!()
    };
    switch_to(rt, &mut desc, &stm, alg);
    let mut pace = Pace::new();
    let found = atomically(rt, &mut desc, &stm, &mut pace, &Increment);
    Ok((found, pace.tally))
}

#[test]
fn who_has_a_short_log_is_promoted(rt: HostRuntime) -> Result<(), Fail> {
    let (found, tally) = alone(&rt, rt.alloc(), 2, 0, Alg::OrecLazy)?;
    assert_eq!(rt; found, Some((0, 0, 0)));
    assert_eq!(rt;
        tally,
        Tally {
            commits: 1,
            full: 1,
            promotions: 1,
            ..Tally::new()
        }
    );
    let (found, tally) = alone(&rt, rt.alloc(), 3, 0, Alg::OrecLazy)?;
    assert_eq!(rt; found, Some((0, 0, 0)));
    assert_eq!(rt;
        tally,
        Tally {
            commits: 1,
            ..Tally::new()
        }
    );
    Ok(())
}

#[test]
fn a_clock_at_its_limit_ends_it(rt: HostRuntime) -> Result<(), Fail> {
    for alg in ALGORITHMS {
        let (found, tally) = alone(&rt, rt.alloc(), 3, CLOCK_LIMIT, alg)?;
        assert_eq!(rt; found, None);
        assert_eq!(rt; tally, Tally::new());
    }
    Ok(())
}
