//! A descriptor that is dropped while it holds the gate: the gate stays closed, and nothing else breaks. One that is
//! dropped in an attempt is among the scripts of test_caller_scripts.
ghost use Rattle.std.specs.Prelude.{◌≡◌, true};
ghost use Rattle.stm_rule.specs.Callers.{IsOf};
ghost use Rattle.stm_answers.specs.CallerState.{IsIdle};
ghost use Rattle.stm_tx.specs.Descs.{known};

use crate::calls_tests::{PAIR, switch};
use std::alloc::Global;
use std::test::Fail;
use stm_answers::answers::{Begin, CloseGate, Look};
use stm_model::alg::{ALGORITHMS, Alg};
use stm_model::rule::AnyMem;
use stm_rule::desc::Desc;
use stm_rule::refusal::NewError;
use stm_rule::stm::Stm;
use stm_tx::calls::try_begin;
use stm_tx::gate::{close_gate, look};

/// Closes the gate, and may look at the other caller. Answers whether the gate is its own, and it saw the other idle.
fn closes(stm: &Stm<AnyMem>, desc: &mut Desc<AnyMem>, looks: bool) -> bool
    requires desc { IsOf desc.old stm.now }
    requires idle { IsIdle (known desc.old) }
{
    let CloseGate::Closed = close_gate(desc, stm) else {
        return false;
    };
    !looks || look(desc, stm) == Look::Quiet
}

/// What caller 1 finds as it tries to close the gate, and then to begin, once caller 0 has closed it and is gone.
fn finds(
    stm: &Stm<AnyMem>,
    mut first: Desc<AnyMem>,
    second: &mut Desc<AnyMem>,
    looks: bool,
) -> Option<(CloseGate, Begin)>
    requires first { IsOf first stm.now }
    requires second { IsOf second.old stm.now }
    requires idle { IsIdle (known first) × IsIdle (known second.old) }
{
    if !closes(stm, &mut first, looks) {
        return None;
    }
    drop(first);
    let taken = close_gate(second, stm);
    let CloseGate::Taken { .. } = taken else {
        return None;
    };
    Some((taken, try_begin(second, stm)))
}

/// The same under an algorithm, in a new memory.
fn found_under(
    alloc: Global,
    alg: Alg,
    looks: bool,
) -> Result<Option<(CloseGate, Begin)>, NewError> {
    let (stm, mut descs) = Stm::new(alloc, PAIR, AnyMem)?;
    let Some(mut second) = descs.pop() else {
        unreachable!()
    };
    let Some(first) = descs.pop() else {
        unreachable!()
    };
    Ok(switches_and_finds(&stm, first, &mut second, alg, looks))
}

fn switches_and_finds(
    stm: &Stm<AnyMem>,
    first: Desc<AnyMem>,
    second: &mut Desc<AnyMem>,
    alg: Alg,
    looks: bool,
) -> Option<(CloseGate, Begin)>
    requires first { IsOf first stm.now }
    requires second { IsOf second.old stm.now }
    requires idle { IsIdle (known first) × IsIdle (known second.old) }
{
    if !switch(stm, second, alg) {
        return None;
    }
    finds(stm, first, second, looks)
}

#[test]
fn a_gate_whose_holder_is_gone_stays_closed(rt: HostRuntime) -> Result<(), Fail> {
    for looks in [false, true] {
        for alg in ALGORITHMS {
            let gate = 256 + alg.number();
            let found = (CloseGate::Taken { gate }, Begin::Closed { gate });
            assert_eq!(rt; found_under(rt.alloc(), alg, looks), Ok(Some(found)));
        }
    }
    Ok(())
}
