//! What no clause says: that of two commits of RingSW the second waits for the first, and then both are done.
ghost use Rattle.std.specs.Prelude.{◌≡◌, ◌<◌, true, false};
ghost use Rattle.stm_model.specs.declared.alg.Alg.TheVariants.{RingSw};
ghost use Rattle.stm_rule.specs.Callers.{IsOf, IsSameCaller, AllOpened};
ghost use Rattle.stm_answers.specs.CallerState.{IsIdle, IsRunning, is_irrevocable, wrote};
ghost use Rattle.stm_tx.specs.Descs.{known};

use crate::calls_tests::{PAIR, commit_for_answer, switch};
use alg_ring::ring::{finish, turn};
use std::alloc::Global;
use std::test::Fail;
use stm_answers::answers::{Begin, Commit, Write};
use stm_model::alg::Alg;
use stm_model::rule::AnyMem;
use stm_rule::desc::Desc;
use stm_rule::refusal::NewError;
use stm_rule::stm::Stm;
use stm_tx::calls::{try_begin, write};

/// Begins an attempt of RingSW that writes `x` to word `a`. Answers whether it runs.
fn begins_and_writes(desc: &mut Desc<AnyMem>, stm: &Stm<AnyMem>, a: usize, x: u64) -> bool
    requires stm { IsOf desc.old stm.now }
    requires idle { IsIdle (known desc.old) }
    requires inside { a < stm.now.config.words }
    requires plain { stm.now.config.fence ≡ false }
    ensures same { IsSameCaller desc.old desc.new }
    ensures runs { result ≡ true → IsRunning (known desc.new) × ((known desc.new).alg ≡ RingSw) }
    ensures wrote { result ≡ true
        → (is_irrevocable (known desc.new) ≡ false) × (wrote (known desc.new) ≡ true) }
{
    let Begin::Begun(Alg::RingSw) = try_begin(desc, stm) else {
        return false;
    };
    let Write::Done = write(desc, stm, a, x) else {
        return false;
    };
    true
}

/// Caller 0 takes its turn, caller 1 commits, caller 0 finishes, and caller 1 commits again. Answers what the three
/// last calls answered, where caller 0 had its turn and caller 1 had to wait.
fn commits_in_turns(
    stm: &Stm<AnyMem>,
    first: &mut Desc<AnyMem>,
    second: &mut Desc<AnyMem>,
) -> Option<[Commit; 3]>
    requires first { IsOf first.old stm.now }
    requires second { IsOf second.old stm.now }
    requires running { (known first.old).running ≡ true }
    requires algorithm { (known first.old).alg ≡ RingSw }
    requires revocable { is_irrevocable (known first.old) ≡ false }
    requires wrote { wrote (known first.old) ≡ true }
    requires second_running { (known second.old).running ≡ true }
{
    let caller = first.number;
    match turn(&mut first.seat, &mut first.local, stm, caller) {
        Some(_) => None,
        None => {
            let waits = commit_for_answer(second, stm);
            let ends = finish(&mut first.seat, &mut first.local, stm, caller);
            match waits {
                Commit::Again { .. } => Some([waits, ends, commit_for_answer(second, stm)]),
                _ => None,
            }
        }
    }
}

/// Under RingSW two callers begin and write different words, and commit in turns.
fn begin_and_commit(
    stm: &Stm<AnyMem>,
    first: &mut Desc<AnyMem>,
    second: &mut Desc<AnyMem>,
) -> Option<[Commit; 3]>
    requires first { IsOf first.old stm.now }
    requires second { IsOf second.old stm.now }
    requires first_idle { IsIdle (known first.old) }
    requires second_idle { IsIdle (known second.old) }
    requires words { 1 < stm.now.config.words }
    requires plain { stm.now.config.fence ≡ false }
{
    if !switch(stm, first, Alg::RingSw) {
        return None;
    }
    if !begins_and_writes(first, stm, 0, 5) {
        return None;
    }
    if !begins_and_writes(second, stm, 1, 6) {
        return None;
    }
    commits_in_turns(stm, first, second)
}

/// The same of the two callers of a new memory.
fn two_commit(stm: &Stm<AnyMem>, descs: &mut [Desc<AnyMem>]) -> Option<[Commit; 3]>
    requires opened { AllOpened stm.now 0 descs.old }
    requires words { 1 < stm.now.config.words }
    requires plain { stm.now.config.fence ≡ false }
{
    match descs {
        [first, second] => begin_and_commit(stm, first, second),
        _ => None,
    }
}

/// What the commits of two callers come to.
fn two_commits(alloc: Global) -> Result<Option<[Commit; 3]>, NewError> {
    let (stm, mut descs) = Stm::new(alloc, PAIR, AnyMem)?;
    Ok(two_commit(&stm, descs.as_mut_slice()))
}

#[test]
fn a_commit_waits_for_its_turn(rt: HostRuntime) -> Result<(), Fail> {
    let again = Commit::Again {
        word: 1,
        had: 0,
        now: 1,
    };
    let first = Commit::Committed { time: 1 };
    let second = Commit::Committed { time: 2 };
    assert_eq!(rt; two_commits(rt.alloc()), Ok(Some([again, first, second])));
    Ok(())
}
