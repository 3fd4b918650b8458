//! Looking at the other callers, by the one that holds the gate.
ghost use Rattle.stm_answers.specs.Counting.{AddsAtMost};
ghost use Rattle.std.specs.Prelude.{◌≡◌, ℕ, ◌<◌, true};
ghost use Rattle.stm_rule.specs.Attempts.{HasLooked};
ghost use Rattle.stm_rule.specs.Callers.{IsOf, IsSameCaller};
ghost use Rattle.stm_gate.specs.Knowing.{known, number};
ghost use Rattle.stm_gate.specs.Looking.{LooksOn, LooksUntil, Finds};

use stm_answers::answers::Look;
use stm_model::rule::MemRule;
use stm_rule::desc::Desc;
use stm_rule::stm::Stm;

/// Looks at the others from where the last look stopped, up to the first that is not idle. One step for
/// each that it looks at.
pub(crate) fn look_on<K: MemRule>(desc: &mut Desc<K>, stm: &Stm<K>) -> Look
    requires stm { IsOf desc.old stm.now }
    requires holds { desc.old.view.gate.holds ≡ true }
    ensures same { IsSameCaller desc.old desc.new }
    ensures own { desc.new.own ≡ desc.old.own }
    ensures looks { LooksUntil stm.now.config (number desc.old) (K.good stm.now.rule) result
        desc.old.view desc.new.view }
    ensures steps { AddsAtMost stm.now.config.callers (known desc.old) (known desc.new) }
{
    for other in first_unseen(desc)..stm.config.callers {
        let status = look_at(desc, stm, other);
        if status != 0 {
            return Look::Busy {
                caller: other,
                status,
            };
        }
    }
    Look::Quiet
}

/// Where the next look goes on: all callers below but this one were seen idle.
fn first_unseen<K: MemRule>(desc: &Desc<K>) -> usize
    requires { desc.now.view.gate.holds ≡ true }
    ensures { HasLooked desc.now.who.config.callers (number desc.now) result desc.now.view }
{
    desc.local.next
}

/// Looks at one caller, after those already seen, and answers its status: 0 is idle. The own caller
/// counts as idle.
fn look_at<K: MemRule>(desc: &mut Desc<K>, stm: &Stm<K>, other: usize) -> u64
    requires stm { IsOf desc.old stm.now }
    requires holds { desc.old.view.gate.holds ≡ true }
    requires other { other < stm.now.config.callers }
    requires looked { HasLooked stm.now.config.callers (number desc.old) other desc.old.view }
    ensures same { IsSameCaller desc.old desc.new }
    ensures own { (desc.new.own ≡ desc.old.own) × (number desc.old < stm.now.config.callers) }
    ensures looks { LooksOn desc.old.view desc.new.view }
    ensures found { Finds stm.now.config (number desc.old) other result desc.old.view
        desc.new.view }
    ensures steps { AddsAtMost 1 (known desc.old) (known desc.new) }
{
    let caller = desc.number;
    if other == caller {
        desc.local.next = other + 1;
        return 0;
    }
    let status = stm.check(&mut desc.seat, caller, other);
    if status == 0 {
        desc.local.next = other + 1;
    }
    status
}
