//! Closed nesting by marks: the calls of a running attempt that mark where it stands, and roll it back to there. None
//! of them takes memory, none waits, and all return. They leave the attempt running. Its marks end with its first
//! commit call, and with the attempt.
ghost use Rattle.alg_calls.specs.Costs.{roll_steps};
ghost use Rattle.std.specs.Prelude.{◌≡◌, ℕ, ◌≤◌, true, if◌then◌else◌, ◌&&◌, not, ◌+◌, length};
ghost use Rattle.stm_rule.specs.Callers.{IsOf, IsSameCaller};
ghost use Rattle.stm_answers.specs.Answers.{Checks, Rolls, Releases};
ghost use Rattle.stm_answers.specs.Counting.{AddsAtMost};
ghost use Rattle.stm_answers.specs.CallerState.{IsRunning};
ghost use Rattle.stm_tx.specs.Descs.{known, number};
ghost use Rattle.stm_tx.specs.Nesting.{live_marks, RollsToMark};

use crate::under;
use alg_calls::algorithm::Algorithm;
use stm_answers::answers::{Check, Roll};
use stm_model::rule::MemRule;
use stm_rule::desc::Desc;
use stm_rule::stm::Stm;

/// Makes a mark at what the attempt has written: `depth` counts those that stand. Once the attempt is irrevocable a
/// mark is a number, since it can't be rolled back to. `Deep` comes exactly where as many stand as the memory's
/// `Config` says, and changes nothing. No step.
pub fn checkpoint<K: MemRule>(desc: &mut Desc<K>) -> Check
    requires running { IsRunning (known desc.old) }
    ensures same { IsSameCaller desc.old desc.new }
    ensures checks { Checks result (known desc.old) (known desc.new) }
    ensures steps { AddsAtMost 0 (known desc.old) (known desc.new) }
{
    let depth = desc.local.depth;
    let limit = desc.local.writes.marks_limit();
    if depth >= limit {
        return Check::Deep { limit };
    }
    let irrevocable = desc
        .local
        .algorithm
        .irrevocable_under(desc.local.granted, desc.local.wrote);
    if irrevocable {
        desc.local.depth = depth + 1;
        return Check::Marked { depth: depth + 1 };
    }
    desc.local.writes.mark();
    desc.local.depth = depth + 1;
    Check::Marked { depth: depth + 1 }
}

/// Rolls the attempt back to mark `depth`: what it has written is what it had written there, and what it has read stays
/// read. The mark stands, and those above it are gone. `Irrevocable` comes exactly where the attempt is irrevocable,
/// and changes nothing. Under Serial and OrecEager one step for each word that the attempt has stored, else none;
/// under OrecEager it goes on to hold the records of the words.
pub fn roll_to<K: MemRule>(desc: &mut Desc<K>, stm: &Stm<K>, depth: usize) -> Roll
    requires stm { IsOf desc.old stm.now }
    requires running { IsRunning (known desc.old) }
    requires low { 1 ≤ depth }
    requires high { depth ≤ (known desc.old).depth }
    ensures same { IsSameCaller desc.old desc.new }
    ensures rolls { Rolls (K.good stm.now.rule) stm.now.config (number desc.old) depth result
        (known desc.old) (known desc.new) }
    ensures steps { AddsAtMost (roll_steps (known desc.old).alg (known desc.old).writes_limit)
        (known desc.old) (known desc.new) }
{
    under!(desc.local.algorithm, A::roll_to(desc, stm, depth))
}

/// Drops the marks from `depth` on, and keeps what was written since. No step.
pub fn release<K: MemRule>(desc: &mut Desc<K>, depth: usize)
    requires running { IsRunning (known desc.old) }
    requires low { 1 ≤ depth }
    requires high { depth ≤ (known desc.old).depth }
    ensures same { IsSameCaller desc.old desc.new }
    ensures releases { Releases depth (known desc.old) (known desc.new) }
    ensures steps { AddsAtMost 0 (known desc.old) (known desc.new) }
{
    let irrevocable = desc
        .local
        .algorithm
        .irrevocable_under(desc.local.granted, desc.local.wrote);
    if irrevocable {
        desc.local.depth = depth - 1;
        return;
    }
    desc.local.writes.release(depth);
    desc.local.depth = depth - 1;
}

/// How many marks stand: none outside a running attempt. No step.
pub fn marks<K: MemRule>(desc: &Desc<K>) -> usize
    ensures { result ≡ live_marks (known desc.now) }
{
    if desc.local.running && !desc.local.committing {
        desc.local.depth
    } else {
        0
    }
}

/// The law of a mark: where an attempt is marked, goes on, maybe with further marks, and is rolled back to that mark,
/// what it has written is what it had written there.
pub fn rolls_to_its_mark<K: MemRule>()
    ensures { (rule : K) → RollsToMark (K.good rule) }
{}
