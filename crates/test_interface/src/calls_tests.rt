//! What no clause says: that a note is learnt, and that an access over an attempt comes to something, on one thread.
//! The other calls of an attempt, on marks and on ranges are among the scripts of test_caller_scripts.
ghost use Rattle.std.specs.Prelude.{◌≡◌, ◌<◌, None, true, false};
ghost use Rattle.stm_rule.specs.Callers.{IsOf, IsSameCaller, AllOpened};
ghost use Rattle.stm_answers.specs.Answers.{Commits, KeepsRule};
ghost use Rattle.stm_answers.specs.CallerState.{IsIdle};
ghost use Rattle.stm_tx.specs.Descs.{known, number};

use std::alloc::Global;
use std::test::Fail;
use stm_answers::answers::{Begin, CloseGate, Commit, Look, Read, Write};
use stm_model::access::Access;
use stm_model::alg::Alg;
use stm_model::config::Config;
use stm_model::rule::{AnyMem, MemRule};
use stm_model::stop::Stop;
use stm_rule::desc::Desc;
use stm_rule::refusal::NewError;
use stm_rule::stm::Stm;
use stm_tx::calls::{commit, read, start, try_begin, write};
use stm_tx::gate::{close_gate, install, look, reopen};
use stm_tx::live::Live;
use stm_tx::serving::AnyAlgorithm;

pub(crate) const PAIR: Config = Config {
    words: 8,
    records: 4,
    ring: 4,
    callers: 2,
    reads: 256,
    writes: 256,
    clock: 0,
    fence: false,
    marks: 8,
};

/// Installs the algorithm. Answers whether the gate was free and the caller alone.
pub(crate) fn switch<K: MemRule>(stm: &Stm<K>, desc: &mut Desc<K>, alg: Alg) -> bool
    requires desc { IsOf desc.old stm.now }
    requires idle { IsIdle (known desc.old) }
    ensures desc { IsOf desc.new stm.now }
    ensures idle { IsIdle (known desc.new) }
{
    let CloseGate::Closed = close_gate(desc, stm) else {
        return false;
    };
    let Look::Quiet = look(desc, stm) else {
        reopen(desc, stm);
        return false;
    };
    install(desc, stm, alg);
    reopen(desc, stm);
    true
}

/// What a commit answers.
pub(crate) fn commit_for_answer<K: MemRule>(desc: &mut Desc<K>, stm: &Stm<K>) -> Commit
    requires stm { IsOf desc.old stm.now }
    requires running { (known desc.old).running ≡ true }
    requires keeps { KeepsRule (K.good stm.now.rule) stm.now.config (number desc.old)
        (known desc.old) }
    ensures stm { IsOf desc.new stm.now }
    ensures same { IsSameCaller desc.old desc.new }
    ensures commits { Commits (K.good stm.now.rule) stm.now.config (number desc.old) result
        (known desc.old) (known desc.new) }
{
    commit(desc, stm).answer
}

/// Under this algorithm caller 0 writes 5 to word 0, commits and tells; caller 1 learns of it and begins. Answers
/// whether it starts not before that commit, and the word that it reads.
fn tells_and_learns(
    stm: &Stm<AnyMem>,
    first: &mut Desc<AnyMem>,
    second: &mut Desc<AnyMem>,
    alg: Alg,
) -> Option<(bool, u64)>
    requires first { IsOf first.old stm.now }
    requires second { IsOf second.old stm.now }
    requires idle { IsIdle (known first.old) × IsIdle (known second.old) }
    requires words { 0 < stm.now.config.words }
    requires plain { stm.now.config.fence ≡ false }
{
    if !switch(stm, first, alg) {
        return None;
    }
    let Begin::Begun(_) = try_begin(first, stm) else {
        return None;
    };
    let Write::Done = write(first, stm, 0, 5) else {
        return None;
    };
    let Commit::Committed { time } = commit(first, stm).answer else {
        return None;
    };
    let note = first.tell(stm);
    second.learn(stm, note);
    let Begin::Begun(_) = try_begin(second, stm) else {
        return None;
    };
    let is_later = time >= 1 && start(second) >= time;
    let Read::Value(word) = read(second, stm, 0) else {
        return None;
    };
    Some((is_later, word))
}

/// The same of the two callers of a new memory.
fn two_learn(stm: &Stm<AnyMem>, descs: &mut [Desc<AnyMem>], alg: Alg) -> Option<(bool, u64)>
    requires opened { AllOpened stm.now 0 descs.old }
    requires words { 0 < stm.now.config.words }
    requires plain { stm.now.config.fence ≡ false }
{
    match descs {
        [first, second] => tells_and_learns(stm, first, second, alg),
        _ => None,
    }
}

/// What caller 1 learns under this algorithm.
fn learns(alloc: Global, alg: Alg) -> Result<Option<(bool, u64)>, NewError> {
    let (stm, mut descs) = Stm::new(alloc, PAIR, AnyMem)?;
    Ok(two_learn(&stm, descs.as_mut_slice(), alg))
}

/// Adds 1 to the word at `a`, through the bound, and answers it.
fn add_one<A: Access>(acc: &mut A, a: usize) -> Result<u64, Stop>
    requires going { A.stopped acc.old ≡ None }
    requires within { a < A.words acc.old }
{
    let old = acc.read(a)?;
    acc.write(a, old.wrapping_add(1))?;
    acc.read(a)
}

/// Adds 1 to the last word in an attempt, and answers it.
fn begin_and_add<K: MemRule>(desc: &mut Desc<K>, stm: &Stm<K>) -> Option<u64>
    requires stm { IsOf desc.old stm.now }
    requires idle { IsIdle (known desc.old) }
    requires inside { 7 < stm.now.config.words }
    requires plain { stm.now.config.fence ≡ false }
{
    let Begin::Begun(_) = try_begin(desc, stm) else {
        return None;
    };
    let mut live = Live {
        calls: &AnyAlgorithm,
        desc,
        stm,
        stopped: None,
    };
    match add_one(&mut live, 7) {
        Ok(value) => Some(value),
        Err(_) => None,
    }
}

/// The same of the first caller of a new memory.
fn one_adds(stm: &Stm<AnyMem>, descs: &mut [Desc<AnyMem>]) -> Option<u64>
    requires opened { AllOpened stm.now 0 descs.old }
    requires inside { 7 < stm.now.config.words }
    requires plain { stm.now.config.fence ≡ false }
{
    match descs {
        [desc, ..] => begin_and_add(desc, stm),
        [] => None,
    }
}

/// What a word is after 1 was added to it in an attempt.
fn add_in_an_attempt(alloc: Global) -> Result<Option<u64>, NewError> {
    let (stm, mut descs) = Stm::new(alloc, PAIR, AnyMem)?;
    Ok(one_adds(&stm, descs.as_mut_slice()))
}

#[test]
fn one_learns_of_the_others_commit(rt: HostRuntime) -> Result<(), Fail> {
    assert_eq!(rt; add_in_an_attempt(rt.alloc()), Ok(Some(1)));
    for alg in [Alg::Cgl, Alg::Tml, Alg::OrecLazy, Alg::RingSw, Alg::Serial] {
        assert_eq!(rt; learns(rt.alloc(), alg), Ok(Some((true, 5))));
    }
    Ok(())
}
