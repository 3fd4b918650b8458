//! A running attempt that is to be alone: it closes the gate, and waits until all others are idle.
ghost use Rattle.std.specs.Prelude.{◌≡◌, ℕ, ◌+◌, true, false};
ghost use Rattle.stm_model.specs.Algorithms.{closes_gate};
ghost use Rattle.stm_rule.specs.Callers.{IsOf, IsSameCaller};
ghost use Rattle.stm_answers.specs.Answers.{IsOpaque};
ghost use Rattle.stm_answers.specs.Counting.{AddsAtMost};
ghost use Rattle.stm_answers.specs.CallerState.{IsRunning, is_irrevocable};
ghost use Rattle.stm_gate.specs.Knowing.{known, number};
ghost use Rattle.stm_gate.specs.Promoting.{ClosesFor, Promotes};

use crate::looking::look_on;
use rule_base::words::{gate_word, holder_of};
use stm_answers::answers::Look;
use stm_model::rule::MemRule;
use stm_rule::desc::Desc;
use stm_rule::stm::Stm;

/// What a try to be alone comes to. The attempt runs on in each case.
#[derive(Clone, Copy, Drop, Debug, PartialEq, Eq)]
pub enum Promotion {
    /// The attempt holds the gate, and each other caller was seen idle since it closed it.
    Alone,
    /// The attempt holds the gate, and this caller was not idle: its status word.
    Busy { caller: usize, status: u64 },
    /// Another caller holds the gate: this is its word.
    Taken { gate: u64 },
}

/// Tries to be alone, for an attempt that can still be cancelled. Those that were seen idle stay seen: a
/// later try goes on from there. Two steps to close the gate, and one for each caller that it looks at.
pub fn promote<K: MemRule>(desc: &mut Desc<K>, stm: &Stm<K>) -> Promotion
    requires stm { IsOf desc.old stm.now }
    requires running { IsRunning (known desc.old) }
    requires closes { closes_gate (known desc.old).alg ≡ true }
    requires revocable { is_irrevocable (known desc.old) ≡ false }
    ensures same { IsSameCaller desc.old desc.new }
    ensures promotes { Promotes stm.now.config (number desc.old) (K.good stm.now.rule) result
        (known desc.old) (known desc.new) }
    ensures steps { AddsAtMost (2 + stm.now.config.callers) (known desc.old) (known desc.new) }
{
    match close_for(desc, stm) {
        Some(gate) => Promotion::Taken { gate },
        None => match look_on(desc, stm) {
            Look::Quiet => Promotion::Alone,
            Look::Busy { caller, status } => Promotion::Busy { caller, status },
        },
    }
}

/// Closes the gate for the attempt where it doesn't hold it yet. Answers the word of a gate that another
/// caller holds.
fn close_for<K: MemRule>(desc: &mut Desc<K>, stm: &Stm<K>) -> Option<u64>
    requires stm { IsOf desc.old stm.now }
    requires running { IsRunning (known desc.old) }
    requires closes { closes_gate (known desc.old).alg ≡ true }
    requires revocable { is_irrevocable (known desc.old) ≡ false }
    ensures same { IsSameCaller desc.old desc.new }
    ensures own { desc.new.own ≡ desc.old.own }
    ensures opaque { IsOpaque (K.good stm.now.rule) stm.now.config (number desc.old)
        (known desc.old) }
    ensures closes { ClosesFor stm.now.config (number desc.old) result desc.old.view desc.new.view }
    ensures steps { AddsAtMost 2 (known desc.old) (known desc.new) }
{
    if desc.local.holds {
        return None;
    }
    let caller = desc.number;
    let alg = desc.local.algorithm;
    let fence = desc.local.fence;
    let gate = stm.look_gate(&mut desc.seat, caller);
    if holder_of(gate) != 0 {
        return Some(gate);
    }
    let found = stm.seize(&mut desc.seat, caller, fence, alg);
    if found != gate_word(fence, 0, alg) {
        return Some(found);
    }
    desc.local.holds = true;
    desc.local.next = 0;
    None
}
