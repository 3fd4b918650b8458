//! The calls of a promoted attempt, which is alone: it loads and stores the heap, whatever its algorithm.
ghost use Rattle.stm_answers.specs.Counting.{AddsAtMost};
ghost use Rattle.std.specs.Prelude.{◌≡◌, ℕ, ◌<◌, true, false, ◌+◌};
ghost use Rattle.rule_orec.specs.OrecSteps.{is_eager};
ghost use Rattle.stm_model.specs.Algorithms.{closes_gate, entry_rise};
ghost use Rattle.stm_rule.specs.Callers.{IsOf, IsSameCaller};
ghost use Rattle.stm_answers.specs.Answers.{HasRead, HasWritten, KeepsRule, Commits};
ghost use Rattle.stm_answers.specs.CallerState.{IsRunning};
ghost use Rattle.rule_base.specs.Encodings.{fenced};
ghost use Rattle.stm_gate.specs.Knowing.{known, number};

use crate::leave::leave;
use stm_answers::answers::{Commit, Read, Write};
use stm_model::alg::Alg;
use stm_model::rule::MemRule;
use stm_rule::desc::Desc;
use stm_rule::stm::Stm;

/// Loads the word. One step.
pub fn direct_load<K: MemRule>(desc: &mut Desc<K>, stm: &Stm<K>, a: usize) -> Read
    requires stm { IsOf desc.old stm.now }
    requires running { IsRunning (known desc.old) }
    requires closes { closes_gate (known desc.old).alg ≡ true }
    requires granted { (known desc.old).granted ≡ true }
    requires inside { a < stm.now.config.words }
    requires spared { fenced (known desc.old).fence a ≡ false }
    ensures same { IsSameCaller desc.old desc.new }
    ensures read { HasRead (K.good stm.now.rule) stm.now.config (number desc.old) a result
        (known desc.old) (known desc.new) }
    ensures steps { AddsAtMost 1 (known desc.old) (known desc.new) }
{
    Read::Value(stm.direct_load(&mut desc.seat, desc.number, a))
}

/// Stores the word. One step.
pub fn direct_store<K: MemRule>(desc: &mut Desc<K>, stm: &Stm<K>, a: usize, x: u64) -> Write
    requires stm { IsOf desc.old stm.now }
    requires running { IsRunning (known desc.old) }
    requires closes { closes_gate (known desc.old).alg ≡ true }
    requires granted { (known desc.old).granted ≡ true }
    requires inside { a < stm.now.config.words }
    requires spared { fenced (known desc.old).fence a ≡ false }
    ensures same { IsSameCaller desc.old desc.new }
    ensures write { HasWritten (K.good stm.now.rule) stm.now.config (number desc.old) a x result
        (known desc.old) (known desc.new) }
    ensures steps { AddsAtMost 1 (known desc.old) (known desc.new) }
{
    stm.direct_store(&mut desc.seat, desc.number, a, x);
    desc.local.wrote = true;
    Write::Done
}

/// Raises the clock where the attempt wrote, stores the time in BASE and in DONE, and reopens the gate. Five
/// steps; two where it wrote nothing. Its write log stays. One of OrecEager holds records, which it gives back by its
/// own call.
#[inline(always)]
pub fn direct_commit<K: MemRule>(desc: &mut Desc<K>, stm: &Stm<K>) -> Commit
    requires stm { IsOf desc.old stm.now }
    requires running { IsRunning (known desc.old) }
    requires closes { closes_gate (known desc.old).alg ≡ true }
    requires granted { (known desc.old).granted ≡ true }
    requires disowned { is_eager (known desc.old).alg ≡ false }
    requires keeps { KeepsRule (K.good stm.now.rule) stm.now.config (number desc.old)
        (known desc.old) }
    ensures same { IsSameCaller desc.old desc.new }
    ensures commits { Commits (K.good stm.now.rule) stm.now.config (number desc.old) result
        (known desc.old) (known desc.new) }
    ensures buffered { desc.new.own.buffered ≡ desc.old.own.buffered }
    ensures steps { AddsAtMost 5 (known desc.old) (known desc.new) }
{
    let caller = desc.number;
    let start = desc.local.start;
    if !desc.local.wrote {
        leave(&mut desc.seat, &mut desc.local, stm, caller);
        return Commit::ReadOnly { time: start };
    }
    let alg = desc.local.algorithm;
    let time = start + alg.entry_rise();
    stm.direct_commit(&mut desc.seat, caller, alg, time);
    stm.store_base(&mut desc.seat, caller, time);
    stm.store_done(&mut desc.seat, caller, time);
    leave(&mut desc.seat, &mut desc.local, stm, caller);
    Commit::Committed { time }
}
