//! What no clause says: that closing the gate, looking, installing and reopening come to something at all,
//! on one thread.
ghost use Rattle.std.specs.Prelude.{◌≡◌, ◌<◌, false};
ghost use Rattle.stm_rule.specs.Callers.{IsOf, AllOpened};
ghost use Rattle.stm_answers.specs.CallerState.{IsIdle};
ghost use Rattle.stm_tx.specs.Descs.{known};

use std::alloc::Global;
use std::test::Fail;
use stm_answers::answers::{Begin, CloseGate, Commit, Look, TxState};
use stm_model::alg::Alg;
use stm_model::config::Config;
use stm_model::rule::{AnyMem, MemRule};
use stm_rule::desc::Desc;
use stm_rule::refusal::NewError;
use stm_rule::stm::Stm;
use stm_tx::calls::{commit, holds_gate, state, try_begin};
use stm_tx::gate::{close_gate, install, look, reopen};

/// A memory for so many callers.
fn memory(callers: usize) -> Config
    ensures { result
        ≡ record {
          words = 8;
          records = 4;
          ring = 4;
          callers = callers;
          reads = 256;
          writes = 256;
          clock = 0;
          fence = false;
          marks = 0;
        } }
{
    Config {
        words: 8,
        records: 4,
        ring: 4,
        callers,
        reads: 256,
        writes: 256,
        clock: 0,
        fence: false,
        marks: 0,
    }
}

/// While caller 0 is in an attempt, caller 1 closes the gate and finds it busy, then quiet; meanwhile
/// nobody begins. It installs, and caller 0 begins again once it has reopened.
fn closes_looks_installs<K: MemRule>(
    stm: &Stm<K>,
    first: &mut Desc<K>,
    second: &mut Desc<K>,
) -> Option<bool>
    requires first { IsOf first.old stm.now }
    requires second { IsOf second.old stm.now }
    requires idle { IsIdle (known first.old) × IsIdle (known second.old) }
{
    let Begin::Begun(Alg::Cgl) = try_begin(first, stm) else {
        return None;
    };
    let CloseGate::Closed = close_gate(second, stm) else {
        return None;
    };
    let is_closing = state(second) == TxState::Closing(Alg::Cgl) && holds_gate(second);
    let Look::Busy {
        caller: 0,
        status: 1,
    } = look(second, stm)
    else {
        return None;
    };
    let Commit::ReadOnly { time: 0 } = commit(first, stm).answer else {
        return None;
    };
    let Begin::Closed { gate: 512 } = try_begin(first, stm) else {
        return None;
    };
    let CloseGate::Taken { gate: 512 } = close_gate(first, stm) else {
        return None;
    };
    let Look::Quiet = look(second, stm) else {
        return None;
    };
    install(second, stm, Alg::Cgl);
    let Begin::Closed { gate: 512 } = try_begin(first, stm) else {
        return None;
    };
    reopen(second, stm);
    let Begin::Begun(Alg::Cgl) = try_begin(first, stm) else {
        return None;
    };
    Some(is_closing && state(second) == TxState::Idle && !holds_gate(second))
}

/// A look goes on at the caller that it found busy: caller 1, which was idle before, may announce and
/// withdraw meanwhile. A closing that is given up leaves the gate to the next closer.
fn looks_on_and_gives_up<K: MemRule>(
    stm: &Stm<K>,
    first: &mut Desc<K>,
    second: &mut Desc<K>,
    third: &mut Desc<K>,
) -> Option<bool>
    requires first { IsOf first.old stm.now }
    requires second { IsOf second.old stm.now }
    requires third { IsOf third.old stm.now }
    requires first_idle { IsIdle (known first.old) }
    requires second_idle { IsIdle (known second.old) }
    requires third_idle { IsIdle (known third.old) }
{
    let Begin::Begun(Alg::Cgl) = try_begin(third, stm) else {
        return None;
    };
    let CloseGate::Closed = close_gate(first, stm) else {
        return None;
    };
    let Look::Busy {
        caller: 2,
        status: 1,
    } = look(first, stm)
    else {
        return None;
    };
    let Begin::Closed { gate: 256 } = try_begin(second, stm) else {
        return None;
    };
    let Commit::ReadOnly { time: 0 } = commit(third, stm).answer else {
        return None;
    };
    let Look::Quiet = look(first, stm) else {
        return None;
    };
    reopen(first, stm);
    let CloseGate::Closed = close_gate(second, stm) else {
        return None;
    };
    let Look::Quiet = look(second, stm) else {
        return None;
    };
    reopen(second, stm);
    Some(state(first) == TxState::Idle && state(second) == TxState::Idle)
}

/// Caller 0 is gone in the middle of its attempt: nobody sees the gate quiet from then on.
fn waits_for_a_dropped_attempt<K: MemRule>(
    stm: &Stm<K>,
    mut first: Desc<K>,
    second: &mut Desc<K>,
) -> Option<bool>
    requires first { IsOf first stm.now }
    requires second { IsOf second.old stm.now }
    requires idle { IsIdle (known first) × IsIdle (known second.old) }
{
    let Begin::Begun(Alg::Cgl) = try_begin(&mut first, stm) else {
        return None;
    };
    drop(first);
    finds_the_first_busy(stm, second)
}

/// Three looks find caller 0 busy.
fn finds_the_first_busy<K: MemRule>(stm: &Stm<K>, desc: &mut Desc<K>) -> Option<bool>
    requires desc { IsOf desc.old stm.now }
    requires idle { IsIdle (known desc.old) }
{
    let CloseGate::Closed = close_gate(desc, stm) else {
        return None;
    };
    let Look::Busy {
        caller: 0,
        status: 1,
    } = look(desc, stm)
    else {
        return None;
    };
    let Look::Busy {
        caller: 0,
        status: 1,
    } = look(desc, stm)
    else {
        return None;
    };
    let Look::Busy {
        caller: 0,
        status: 1,
    } = look(desc, stm)
    else {
        return None;
    };
    reopen(desc, stm);
    Some(state(desc) == TxState::Idle)
}

/// What comes of two callers, or of three, of a new memory.
fn close_and_look(stm: &Stm<AnyMem>, descs: &mut [Desc<AnyMem>]) -> Option<bool>
    requires opened { AllOpened stm.now 0 descs.old }
{
    match descs {
        [first, second] => closes_looks_installs(stm, first, second),
        [first, second, third] => looks_on_and_gives_up(stm, first, second, third),
        _ => None,
    }
}

/// In a memory for so many callers.
fn callers(alloc: Global, count: usize) -> Result<Option<bool>, NewError> {
    let (stm, mut descs) = Stm::new(alloc, memory(count), AnyMem)?;
    Ok(close_and_look(&stm, descs.as_mut_slice()))
}

fn one_dropped(alloc: Global) -> Result<Option<bool>, NewError> {
    let (stm, mut descs) = Stm::new(alloc, memory(2), AnyMem)?;
    let Some(mut second) = descs.pop() else {
        unreachable!()
    };
    let Some(first) = descs.pop() else {
        unreachable!()
    };
    Ok(waits_for_a_dropped_attempt(&stm, first, &mut second))
}

#[test]
fn the_gate_closes_and_reopens(rt: HostRuntime) -> Result<(), Fail> {
    assert_eq!(rt; callers(rt.alloc(), 2), Ok(Some(true)));
    assert_eq!(rt; callers(rt.alloc(), 3), Ok(Some(true)));
    assert_eq!(rt; one_dropped(rt.alloc()), Ok(Some(true)));
    Ok(())
}
