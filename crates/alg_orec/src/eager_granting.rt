//! How an attempt of OrecEager that is alone becomes irrevocable.
ghost use Rattle.std.specs.Prelude.{◌≡◌, ℕ, ◌+◌, ◌*◌, false};
ghost use Rattle.stm_model.specs.declared.alg.Alg.TheVariants.{OrecEager};
ghost use Rattle.stm_rule.specs.Callers.{IsOf, IsSameCaller};
ghost use Rattle.stm_answers.specs.Counting.{AddsAtMost};
ghost use Rattle.stm_answers.specs.CallerState.{IsRunning, is_irrevocable};
ghost use Rattle.stm_gate.specs.Knowing.{known, number};
ghost use Rattle.stm_gate.specs.Granting.{IsAlone, Grants};

use crate::eager_ending::abort;
use crate::granting::grant_reads;
use stm_answers::answers::Irrev;
use stm_model::rule::MemRule;
use stm_rule::desc::Desc;
use stm_rule::stm::Stm;

/// Validates for an attempt that is alone.
pub(crate) fn grant<K: MemRule>(desc: &mut Desc<K>, stm: &Stm<K>) -> Irrev
    requires stm { IsOf desc.old stm.now }
    requires running { IsRunning (known desc.old) }
    requires algorithm { (known desc.old).alg ≡ OrecEager }
    requires revocable { is_irrevocable (known desc.old) ≡ false }
    requires alone { IsAlone stm.now.config.callers (number desc.old) desc.old.view }
    ensures same { IsSameCaller desc.old desc.new }
    ensures grants { Grants (K.good stm.now.rule) stm.now.config (number desc.old) result
        (known desc.old) (known desc.new) }
    ensures steps { AddsAtMost
        (5 + (known desc.old).reads_limit + 2 * (known desc.old).writes_limit) (known desc.old)
        (known desc.new) }
{
    let caller = desc.number;
    if let Err(refusal) = grant_reads(&mut desc.seat, &mut desc.local, stm, caller) {
        abort(&mut desc.seat, &mut desc.local, stm, caller);
        return refusal;
    }
    desc.local.granted = true;
    Irrev::Granted
}
